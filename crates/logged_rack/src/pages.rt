//! Pages read and written at their homes, and volumes synced.
ghost use Rattle.std.specs.Prelude.{◌≡◌, OnErr, OnOk};
ghost use Rattle.meta_log.specs.volume_disk.Disk.{Tells};
ghost use Rattle.meta_log.specs.volume_disk.Image.{NoPlace, page_at};
ghost use Rattle.meta_log.specs.volume_disk.Run.{
  IsAtMost,
  NamesReadFault,
  NamesWriteFault,
  OnlyReads,
  OnlyWrites,
};
ghost use Rattle.meta_log.specs.log_ring.Homes.{IsHomeOf};
ghost use Rattle.meta_log.specs.log_ring.Settling.{IsOnPage};
ghost use Rattle.meta_log.specs.Force.{IsSyncedOn};

use meta_log::limits::{BLOCKS_PER_PAGE, PAGE_BYTES};
use meta_log::{Home, Page, Rack, VolIx, read_blocks, sync_volume, write_blocks};

/// Reads the page that stands at a home. The error is the volume, if its read failed. Then the page
/// is as before.
pub(crate) fn read_page<R: Rack>(rack: &mut R, home: &Home, page: &mut Page) -> Result<(), VolIx>
    requires { IsHomeOf (R.disk rack.old).sizes home.now }
    ensures reads { OnlyReads (R.disk rack.old) (R.disk rack.new) }
    ensures bytes { let held = (R.disk rack.old).now.contents in OnOk result
        (Tells (R.disk rack.old) → page.new ≡ page_at held home.now.vol home.now.page) }
    ensures err { OnErr result (page.new ≡ page.old) }
    ensures few { IsAtMost 1 (R.disk rack.old) (R.disk rack.new) }
    ensures fault { NamesReadFault (R.disk rack.old) (R.disk rack.new) result }
{
    let mut bytes = [0; PAGE_BYTES];
    let block = BLOCKS_PER_PAGE * home.page;
    match read_blocks(rack, home.vol, block, &mut bytes) {
        Ok(()) => {
            page.set(0, &bytes);
            Ok(())
        }
        Err(vol) => Err(vol),
    }
}

/// Writes a page at its home, and syncs nothing. The error is the volume, if its write failed.
pub(crate) fn write_page<R: Rack>(rack: &mut R, home: &Home, page: &Page) -> Result<(), VolIx>
    requires { IsHomeOf (R.disk rack.old).sizes home.now }
    ensures writes { OnlyWrites (R.disk rack.old) (R.disk rack.new) (IsOnPage home.now) }
    ensures written { let new = R.disk rack.new in OnOk result (Tells (R.disk rack.old)
        → page_at new.now.contents home.now.vol home.now.page ≡ page.now) }
    ensures few { IsAtMost 1 (R.disk rack.old) (R.disk rack.new) }
    ensures fault { NamesWriteFault (R.disk rack.old) (R.disk rack.new) result }
{
    let block = BLOCKS_PER_PAGE * home.page;
    write_blocks(rack, home.vol, block, page.bytes())
}

/// Syncs a volume if the rack has it. Nothing is pending there then. The error is the volume, if
/// its sync failed.
pub(crate) fn sync_there<R: Rack>(rack: &mut R, vol: VolIx) -> Result<(), VolIx>
    ensures writes { OnlyWrites (R.disk rack.old) (R.disk rack.new) NoPlace }
    ensures synced { OnOk result
        (Tells (R.disk rack.old) → IsSyncedOn vol (R.disk rack.new).now) }
    ensures few { IsAtMost 1 (R.disk rack.old) (R.disk rack.new) }
    ensures fault { NamesWriteFault (R.disk rack.old) (R.disk rack.new) result }
{
    if vol.number() <= rack.volumes() {
        sync_volume(rack, vol)
    } else {
        Ok(())
    }
}
