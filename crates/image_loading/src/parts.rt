//! Pages that stand in a row, read by one call.
ghost use Rattle.std.specs.Prelude.{◌≡◌, ◌+◌, ◌*◌, ◌^◌, ◌<◌, IfOk, IsSome, None, OnOk, Some, length};
ghost use Rattle.slot_files.specs.domain_base.declared.place.Home.{Home as HomeOf};
ghost use Rattle.slot_files.specs.log_ring.Groups.{pages_in};
ghost use Rattle.image_loading.specs.Loading.{Brings, NamesCause};
ghost use Rattle.slot_files.specs.volume_disk.Disk.{AreBlocks, Disk, Tells};
ghost use Rattle.slot_files.specs.volume_disk.Image.{bytes_at};
ghost use Rattle.image_loading.specs.Rows.{AreThereFrom};

use crate::fault::LoadFault;
use slot_files::limits::{BLOCKS_PER_PAGE, PAGE_BYTES};
use slot_files::{Home, MetaPages, OutOfMemory, Page, Rack, VolIx, read_blocks};
use std::alloc::Global;

/// A page with these bytes.
fn page_of(alloc: Global, bytes: &[u8]) -> Result<Page, OutOfMemory>
    requires { length bytes.now ≡ PAGE_BYTES }
    ensures { IfOk result (λ page. page ≡ bytes.now) }
{
    let mut page = Page::zeros(alloc)?;
    page.set(0, bytes);
    Ok(page)
}

/// Puts a page that was read at its home, at which none is.
fn put_absent<M: MetaPages>(
    alloc: Global,
    home: &Home,
    bytes: &[u8],
    pages: &mut M,
) -> Result<(), OutOfMemory>
    requires whole { length bytes.now ≡ PAGE_BYTES }
    requires none { M.pages pages.old home.now ≡ None }
    ensures brings { (disk : Disk)
        → (Tells disk → Some bytes.now ≡ pages_in disk.now.contents home.now)
        → Brings disk disk (M.pages pages.old) (M.pages pages.new) }
    ensures kept { (other : HomeOf) → IsSome (M.pages pages.old other)
        → M.pages pages.new other ≡ M.pages pages.old other }
    ensures there { OnOk result (IsSome (M.pages pages.new home.now)) }
    ensures before { M.before pages.new ≡ M.before pages.old }
{
    pages.reserve(alloc, 1)?;
    let page = page_of(alloc, bytes)?;
    pages.put(*home, page);
    Ok(())
}

/// Puts a page that was read at its home, if none is there; otherwise the page that is there stays.
#[tactic(auto, using(crate::proofs::Brought::brings_none))]
fn put_missing<M: MetaPages>(
    alloc: Global,
    home: &Home,
    bytes: &[u8],
    pages: &mut M,
) -> Result<(), OutOfMemory>
    requires { length bytes.now ≡ PAGE_BYTES }
    ensures brings { (disk : Disk)
        → (Tells disk → Some bytes.now ≡ pages_in disk.now.contents home.now)
        → Brings disk disk (M.pages pages.old) (M.pages pages.new) }
    ensures kept { (other : HomeOf) → IsSome (M.pages pages.old other)
        → M.pages pages.new other ≡ M.pages pages.old other }
    ensures there { OnOk result (IsSome (M.pages pages.new home.now)) }
    ensures before { M.before pages.new ≡ M.before pages.old }
{
    if pages.get(*home).is_some() {
        return Ok(());
    }
    put_absent(alloc, home, bytes, pages)
}

/// Puts pages that stand in a row, from one of a volume on, at their homes. A page that is there
/// already stays.
fn put_part<M: MetaPages>(
    alloc: Global,
    vol: VolIx,
    first: u32,
    count: u32,
    bytes: &[u8],
    pages: &mut M,
) -> Result<(), OutOfMemory>
    requires whole { length bytes.now ≡ PAGE_BYTES * count }
    requires fits { first + count < 2 ^ 32 }
    ensures brings { (disk : Disk) → (Tells disk
        → bytes.now ≡ bytes_at disk.now.contents vol (512 * (16 * first)) (PAGE_BYTES * count))
        → Brings disk disk (M.pages pages.old) (M.pages pages.new) }
    ensures there { OnOk result (AreThereFrom vol first count (M.pages pages.new)) }
    ensures before { M.before pages.new ≡ M.before pages.old }
{
    for number in 0..count {
        let at = number as usize * PAGE_BYTES;
        let home = Home {
            vol,
            page: first + number,
        };
        put_missing(alloc, &home, &bytes[at..at + PAGE_BYTES], pages)?;
    }
    Ok(())
}

/// Brings pages that stand in a row, from one of a volume on, by one call.
pub(crate) fn read_part<R: Rack, M: MetaPages>(
    alloc: Global,
    rack: &mut R,
    vol: VolIx,
    first: u32,
    count: u32,
    found: &mut [u8],
    pages: &mut M,
) -> Result<(), LoadFault>
    requires whole { length found.old ≡ PAGE_BYTES * count }
    requires fits { first + count < 2 ^ 28 }
    requires on { AreBlocks (R.disk rack.old) vol (16 * first) (PAGE_BYTES * count) }
    ensures brings { Brings (R.disk rack.old) (R.disk rack.new) (M.pages pages.old)
        (M.pages pages.new) }
    ensures there { OnOk result (AreThereFrom vol first count (M.pages pages.new)) }
    ensures fault { NamesCause (R.disk rack.old) (R.disk rack.new) result }
    ensures before { M.before pages.new ≡ M.before pages.old }
{
    match read_blocks(rack, vol, BLOCKS_PER_PAGE * first, found) {
        Ok(()) => {}
        Err(vol) => return Err(LoadFault::Fault { vol }),
    }
    match put_part(alloc, vol, first, count, found, pages) {
        Ok(()) => Ok(()),
        Err(_) => Err(LoadFault::OutOfMemory),
    }
}
