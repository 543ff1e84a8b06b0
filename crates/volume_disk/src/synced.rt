//! Calls of a rack whose error names the volume on which they failed.
ghost use Rattle.std.specs.Prelude.{◌≡◌, ◌*◌, ◌+◌, length, OnOk};
ghost use Rattle.volume_disk.specs.Disk.{AreBlocks, HasVolume, IsSettled, Syncs, Tells, Writes};
ghost use Rattle.volume_disk.specs.Image.{IsIn, NoPlace, bytes_at};
ghost use Rattle.volume_disk.specs.Run.{
  IsAtMost,
  IsLaterBy,
  IsSettledBelow,
  NamesReadFault,
  NamesWriteFault,
  OnlyReads,
  OnlyWrites,
  Settles,
};

use crate::Rack;
use domain_base::VolIx;
use domain_base::limits::MAX_VOLUMES;

/// Reads whole blocks of 512 bytes of a volume, beginning at a block. The error is the volume, if
/// its read failed. Then `out` must not be used.
pub fn read_blocks<R: Rack>(
    rack: &mut R,
    vol: VolIx,
    block: u32,
    out: &mut [u8],
) -> Result<(), VolIx>
    requires { AreBlocks (R.disk rack.old) vol block (length out.old) }
    ensures reads { OnlyReads (R.disk rack.old) (R.disk rack.new) }
    ensures bytes { let n = length out.old in let held = (R.disk rack.old).now.contents in
        OnOk result (Tells (R.disk rack.old) → out.new ≡ bytes_at held vol (512 * block) n) }
    ensures few { IsAtMost 1 (R.disk rack.old) (R.disk rack.new) }
    ensures fault { NamesReadFault (R.disk rack.old) (R.disk rack.new) result }
{
    match rack.read(vol, block, out) {
        Ok(()) => Ok(()),
        Err(_) => Err(vol),
    }
}

/// Writes whole blocks of 512 bytes of a volume, beginning at a block. The next sync of the volume
/// makes them last. The error is the volume, if its write failed.
pub fn write_blocks<R: Rack>(
    rack: &mut R,
    vol: VolIx,
    block: u32,
    bytes: &[u8],
) -> Result<(), VolIx>
    requires { AreBlocks (R.disk rack.old) vol block (length bytes.now) }
    ensures writes { let places = IsIn vol (512 * block) (length bytes.now) in
        OnlyWrites (R.disk rack.old) (R.disk rack.new) places }
    ensures written { let old = R.disk rack.old in let new = R.disk rack.new in
        OnOk result (Tells old → Writes vol (512 * block) bytes.now old.now new.now) }
    ensures later { OnOk result (IsLaterBy 1 (R.disk rack.old) (R.disk rack.new)) }
    ensures few { IsAtMost 1 (R.disk rack.old) (R.disk rack.new) }
    ensures fault { NamesWriteFault (R.disk rack.old) (R.disk rack.new) result }
{
    match rack.write(vol, block, bytes) {
        Ok(()) => Ok(()),
        Err(_) => Err(vol),
    }
}

/// Syncs a volume. The error is the volume, if its sync failed.
pub fn sync_volume<R: Rack>(rack: &mut R, vol: VolIx) -> Result<(), VolIx>
    requires { HasVolume (R.disk rack.old) vol }
    ensures writes { OnlyWrites (R.disk rack.old) (R.disk rack.new) NoPlace }
    ensures synced { let old = R.disk rack.old in
        OnOk result (Tells old → Syncs vol old.now (R.disk rack.new).now) }
    ensures later { OnOk result (IsLaterBy 1 (R.disk rack.old) (R.disk rack.new)) }
    ensures few { IsAtMost 1 (R.disk rack.old) (R.disk rack.new) }
    ensures fault { NamesWriteFault (R.disk rack.old) (R.disk rack.new) result }
{
    match rack.sync(vol) {
        Ok(()) => Ok(()),
        Err(_) => Err(vol),
    }
}

/// Syncs a volume if the rack has it.
fn sync_there<R: Rack>(rack: &mut R, vol: VolIx) -> Result<(), VolIx>
    ensures writes { OnlyWrites (R.disk rack.old) (R.disk rack.new) NoPlace }
    ensures settled { let old = R.disk rack.old in let new = R.disk rack.new in
        OnOk result (Tells old → IsSettledBelow vol old.now → IsSettledBelow (vol + 1) new.now) }
    ensures few { IsAtMost 1 (R.disk rack.old) (R.disk rack.new) }
    ensures fault { NamesWriteFault (R.disk rack.old) (R.disk rack.new) result }
{
    if vol.number() <= rack.volumes() {
        sync_volume(rack, vol)
    } else {
        Ok(())
    }
}

/// Syncs each volume of the rack, in their order, up to the eighth. Then nothing is pending. It is
/// for a rack on which a failed call stopped a domain, before one is opened there again. The error
/// is the first volume whose sync failed.
pub fn sync_volumes<R: Rack>(rack: &mut R) -> Result<(), VolIx>
    ensures writes { OnlyWrites (R.disk rack.old) (R.disk rack.new) NoPlace }
    ensures settled { OnOk result (Tells (R.disk rack.old) → IsSettled (R.disk rack.new).now) }
    ensures few { IsAtMost 8 (R.disk rack.old) (R.disk rack.new) }
    ensures fault { NamesWriteFault (R.disk rack.old) (R.disk rack.new) result }
{
    for number in 1..MAX_VOLUMES + 1 {
        let Some(vol) = VolIx::new(number) else {
            unreachable!()
        };
        sync_there(rack, vol)?;
    }
    Ok(())
}

/// Writes whole blocks of 512 bytes of a volume, beginning at a block, and syncs the volume. The
/// error is the volume, if its write or sync failed.
pub fn write_synced<R: Rack>(
    rack: &mut R,
    vol: VolIx,
    block: u32,
    bytes: &[u8],
) -> Result<(), VolIx>
    requires { AreBlocks (R.disk rack.old) vol block (length bytes.now) }
    ensures writes { let places = IsIn vol (512 * block) (length bytes.now) in
        OnlyWrites (R.disk rack.old) (R.disk rack.new) places }
    ensures settled { let old = R.disk rack.old in let new = R.disk rack.new in
        OnOk result (Tells old → Settles vol (512 * block) bytes.now old.now new.now) }
    ensures later { OnOk result (IsLaterBy 2 (R.disk rack.old) (R.disk rack.new)) }
    ensures few { IsAtMost 2 (R.disk rack.old) (R.disk rack.new) }
    ensures fault { NamesWriteFault (R.disk rack.old) (R.disk rack.new) result }
{
    match write_blocks(rack, vol, block, bytes) {
        Ok(()) => sync_volume(rack, vol),
        Err(vol) => Err(vol),
    }
}
