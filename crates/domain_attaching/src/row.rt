//! Bringing home pages in memory that stand in a row on a volume.
ghost use Rattle.std.specs.Prelude.{◌≡◌, ◌+◌, ◌*◌, ◌^◌, ◌<◌, ◌≤◌, ℕ, IsSome, OnOk, Some, length};
ghost use Rattle.attached_domain.specs.staged_pages.Store.{pages_of};
ghost use Rattle.attached_domain.specs.volume_disk.Disk.{Tells};
ghost use Rattle.attached_domain.specs.volume_disk.Image.{bytes_at};
ghost use Rattle.attached_domain.specs.volume_disk.Run.{NamesWriteFault, Touches};
ghost use Rattle.domain_attaching.specs.Closing.{AreBetween, AreOnRack, IsOnRow, StandsHome, page_in};

use attached_domain::from_domain_base::limits::{BLOCKS_PER_PAGE, PAGE_BYTES};
use attached_domain::{Home, MetaPages, Rack, StagedPages, VolIx, read_blocks, write_blocks};

/// How many pages are read, or written, by one call at most.
pub(crate) const MOST_AT_ONCE: u32 = 64;

/// Lays the pages in memory over those that were read in their places, from one on, up to the first
/// that is the same. Returns the number of that page, or how many pages there are.
fn lay_changed(
    pages: &StagedPages,
    vol: VolIx,
    first: u32,
    from: u32,
    count: u32,
    found: &mut [u8],
) -> u32
    requires there { AreBetween vol first (first + count)
        (λ home. IsSome (pages_of pages.now home)) }
    requires buffer { length found.old ≡ PAGE_BYTES * count }
    requires from { from ≤ count }
    requires fits { first + count < 2 ^ 32 }
    ensures laid { (k : ℕ) → from ≤ k → k ≤ result → k < count
        → pages_of pages.now (record { vol = vol; page = first + k })
        ≡ Some (page_in found.new k) }
    ensures rest { (k : ℕ) → result ≤ k → page_in found.new k ≡ page_in found.old k }
    ensures buffer { length found.new ≡ length found.old }
    ensures from { from ≤ result }
    ensures most { result ≤ count }
{
    for k in from..count {
        let home = Home {
            vol,
            page: first + k,
        };
        let Some(page) = pages.get(home) else {
            unreachable!()
        };
        let at = k as usize * PAGE_BYTES;
        let part = &mut found[at..at + PAGE_BYTES];
        if *part == *page.bytes() {
            return k;
        }
        part.copy_from_slice(page.bytes());
    }
    count
}

/// Writes the pages in memory that stand in a row, from one of a volume on, if they differ from
/// those that were read there. Neighbours that differ are written by one call.
fn write_changed<R: Rack>(
    rack: &mut R,
    pages: &StagedPages,
    vol: VolIx,
    first: u32,
    count: u32,
    found: &mut [u8],
) -> Result<(), VolIx>
    requires there { AreBetween vol first (first + count)
        (λ home. IsSome (pages_of pages.now home)) }
    requires buffer { length found.old ≡ PAGE_BYTES * count }
    requires on { AreOnRack (R.disk rack.old).sizes vol first count }
    requires read { Tells (R.disk rack.old) → found.old
        ≡ bytes_at (R.disk rack.old).now.contents vol (512 * (16 * first)) (PAGE_BYTES * count) }
    ensures touches { Touches (R.disk rack.old) (R.disk rack.new) (IsOnRow vol first count) }
    ensures there { OnOk result (Tells (R.disk rack.old) → AreBetween vol first (first + count)
        (StandsHome (pages_of pages.now) (R.disk rack.new).now.contents)) }
    ensures fault { NamesWriteFault (R.disk rack.old) (R.disk rack.new) result }
{
    let mut at = 0;
    while at < count {
        let end = lay_changed(pages, vol, first, at, count, found);
        if at < end {
            let bytes = &found[at as usize * PAGE_BYTES..end as usize * PAGE_BYTES];
            write_blocks(rack, vol, BLOCKS_PER_PAGE * (first + at), bytes)?;
        }
        at = end + 1;
    }
    Ok(())
}

/// Lays the pages in memory that stand in a row, from one of a volume on, over whatever is there.
fn lay_all(pages: &StagedPages, vol: VolIx, first: u32, count: u32, found: &mut [u8])
    requires there { AreBetween vol first (first + count)
        (λ home. IsSome (pages_of pages.now home)) }
    requires buffer { length found.old ≡ PAGE_BYTES * count }
    requires fits { first + count < 2 ^ 32 }
    ensures laid { (k : ℕ) → k < count
        → pages_of pages.now (record { vol = vol; page = first + k })
        ≡ Some (page_in found.new k) }
    ensures buffer { length found.new ≡ length found.old }
{
    for k in 0..count {
        let home = Home {
            vol,
            page: first + k,
        };
        let Some(page) = pages.get(home) else {
            unreachable!()
        };
        let at = k as usize * PAGE_BYTES;
        let part = &mut found[at..at + PAGE_BYTES];
        part.copy_from_slice(page.bytes());
    }
}

/// Writes the pages in memory that stand in a row, from one of a volume on, by one call, whatever
/// stands there.
fn write_all<R: Rack>(
    rack: &mut R,
    pages: &StagedPages,
    vol: VolIx,
    first: u32,
    count: u32,
    found: &mut [u8],
) -> Result<(), VolIx>
    requires there { AreBetween vol first (first + count)
        (λ home. IsSome (pages_of pages.now home)) }
    requires some { 0 < count }
    requires buffer { length found.old ≡ PAGE_BYTES * count }
    requires on { AreOnRack (R.disk rack.old).sizes vol first count }
    ensures touches { Touches (R.disk rack.old) (R.disk rack.new) (IsOnRow vol first count) }
    ensures there { OnOk result (Tells (R.disk rack.old) → AreBetween vol first (first + count)
        (StandsHome (pages_of pages.now) (R.disk rack.new).now.contents)) }
    ensures fault { NamesWriteFault (R.disk rack.old) (R.disk rack.new) result }
{
    lay_all(pages, vol, first, count, found);
    write_blocks(rack, vol, BLOCKS_PER_PAGE * first, found)
}

/// Brings home pages in memory that stand in a row on a volume. They are read by one call, and
/// those that differ are written. If the read fails, all of them are written.
pub(crate) fn bring_row<R: Rack>(
    rack: &mut R,
    pages: &StagedPages,
    vol: VolIx,
    first: u32,
    count: u32,
    found: &mut [u8],
) -> Result<(), VolIx>
    requires there { AreBetween vol first (first + count)
        (λ home. IsSome (pages_of pages.now home)) }
    requires on { AreOnRack (R.disk rack.old).sizes vol first count }
    requires some { 0 < count }
    requires most { count ≤ MOST_AT_ONCE }
    requires buffer { length found.old ≡ PAGE_BYTES * MOST_AT_ONCE }
    ensures buffer { length found.new ≡ PAGE_BYTES * MOST_AT_ONCE }
    ensures touches { Touches (R.disk rack.old) (R.disk rack.new) (IsOnRow vol first count) }
    ensures there { OnOk result (Tells (R.disk rack.old) → AreBetween vol first (first + count)
        (StandsHome (pages_of pages.now) (R.disk rack.new).now.contents)) }
    ensures fault { NamesWriteFault (R.disk rack.old) (R.disk rack.new) result }
{
    let part = &mut found[..count as usize * PAGE_BYTES];
    match read_blocks(rack, vol, BLOCKS_PER_PAGE * first, part) {
        Ok(()) => write_changed(rack, pages, vol, first, count, part),
        Err(_) => write_all(rack, pages, vol, first, count, part),
    }
}
