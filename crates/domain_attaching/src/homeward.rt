//! Bringing home the pages of a domain in memory.
ghost use Rattle.std.specs.Prelude.{◌≡◌, ◌↔◌, ◌+◌, ◌*◌, ◌<◌, ◌≤◌, IsTrue, OnOk, length};
ghost use Rattle.attached_domain.specs.log_ring.Homes.{HasMembers, IsLoggable, member_of};
ghost use Rattle.attached_domain.specs.staged_pages.Store.{pages_of};
ghost use Rattle.attached_domain.specs.volume_disk.Disk.{Tells};
ghost use Rattle.attached_domain.specs.volume_disk.Run.{NamesWriteFault, Touches};
ghost use Rattle.domain_attaching.specs.Closing.{AreBetween, AreTheseHome, IsChosen, IsChosenOn, IsOnThese, IsToBring, StayHome};

use crate::row::{MOST_AT_ONCE, bring_row};
use crate::tables::TablePages;
use attached_domain::from_domain_base::limits::{MAX_VOLUMES, PAGE_BYTES};
use attached_domain::{ANCHORS_PAGE, DomainFrame, DomainMemory, Home, MetaPages, Rack, VolIx};

/// Whether a page is one of a member, after its label and anchors and outside the log.
fn is_loggable(frame: &DomainFrame, home: &Home) -> bool
    ensures { IsTrue result ↔ IsLoggable frame.now.anchor home.now }
{
    prove!(1 <= home.vol.number() && home.vol.number() <= MAX_VOLUMES);
    frame.is_within(home) && ANCHORS_PAGE < home.page && !frame.is_log_page(home)
}

/// Whether a page may be written, and is or is not of a table, as is asked.
fn is_chosen(memory: &DomainMemory, tables: &TablePages, of_tables: bool, home: &Home) -> bool
    ensures { IsTrue result ↔ IsChosen memory.now.frame.anchor tables.now of_tables home.now }
{
    is_loggable(&memory.frame, home) && tables.has(home) == of_tables
}

/// Whether a page in memory is to be brought home: it may be written, and is or is not of a table,
/// as is asked.
fn is_to_bring(memory: &DomainMemory, tables: &TablePages, of_tables: bool, home: &Home) -> bool
    ensures { IsTrue result ↔ IsToBring (pages_of memory.now.pages) memory.now.frame.anchor
        tables.now of_tables home.now }
{
    is_chosen(memory, tables, of_tables, home) && memory.pages.get(*home).is_some()
}

/// The end of a row of pages that are to be brought home, from a page of a member on. The row is no
/// longer than what one call reads.
fn end_of_row(
    memory: &DomainMemory,
    tables: &TablePages,
    of_tables: bool,
    vol: VolIx,
    first: u32,
) -> u32
    requires { first < (member_of memory.now.frame.anchor vol).pages }
    ensures row { AreBetween vol first result (IsToBring (pages_of memory.now.pages)
        memory.now.frame.anchor tables.now of_tables) }
    ensures none { result ≡ first → ¬ IsToBring (pages_of memory.now.pages)
        memory.now.frame.anchor tables.now of_tables (record { vol = vol; page = first }) }
    ensures from { first ≤ result }
    ensures most { result ≤ first + MOST_AT_ONCE }
    ensures within { result ≤ (member_of memory.now.frame.anchor vol).pages }
{
    let end = memory
        .frame
        .member(vol)
        .pages
        .min(first.saturating_add(MOST_AT_ONCE));
    for page in first..end {
        if !is_to_bring(memory, tables, of_tables, &Home { vol, page }) {
            return page;
        }
    }
    end
}

/// Writes to their homes the pages of a volume that are in memory and may be written, and that are
/// or are not of a table, if other pages stand there.
fn bring_home_on<R: Rack>(
    rack: &mut R,
    memory: &DomainMemory,
    tables: &TablePages,
    of_tables: bool,
    vol: VolIx,
    found: &mut [u8],
) -> Result<(), VolIx>
    requires members { HasMembers (R.disk rack.old).sizes memory.now.frame.anchor }
    requires buffer { length found.old ≡ PAGE_BYTES * MOST_AT_ONCE }
    ensures buffer { length found.new ≡ PAGE_BYTES * MOST_AT_ONCE }
    ensures touches { Touches (R.disk rack.old) (R.disk rack.new)
        (IsOnThese (IsChosen memory.now.frame.anchor tables.now of_tables)) }
    ensures stays { OnOk result (StayHome (pages_of memory.now.pages) memory.now.frame.anchor
        (R.disk rack.old) (R.disk rack.new)) }
    ensures home { let new = R.disk rack.new in OnOk result (Tells (R.disk rack.old)
        → AreTheseHome (IsChosenOn vol memory.now.frame.anchor tables.now of_tables)
        (pages_of memory.now.pages) memory.now.frame.anchor new.now.contents) }
    ensures fault { NamesWriteFault (R.disk rack.old) (R.disk rack.new) result }
{
    let mut page = 0;
    while page < memory.frame.member(vol).pages {
        let end = end_of_row(memory, tables, of_tables, vol, page);
        if page < end {
            bring_row(rack, &memory.pages, vol, page, end - page, found)?;
        }
        page = end.max(page + 1);
    }
    Ok(())
}

/// Writes each page in memory that may be written, and that is or is not of a table, to its home,
/// once, if another page stands there. Pages that stand in a row are written by one call,
/// sixty-four at most.
pub(crate) fn bring_pages_home<R: Rack>(
    rack: &mut R,
    memory: &DomainMemory,
    tables: &TablePages,
    of_tables: bool,
    found: &mut [u8],
) -> Result<(), VolIx>
    requires members { HasMembers (R.disk rack.old).sizes memory.now.frame.anchor }
    requires buffer { length found.old ≡ PAGE_BYTES * MOST_AT_ONCE }
    ensures buffer { length found.new ≡ PAGE_BYTES * MOST_AT_ONCE }
    ensures touches { Touches (R.disk rack.old) (R.disk rack.new)
        (IsOnThese (IsChosen memory.now.frame.anchor tables.now of_tables)) }
    ensures stays { OnOk result (StayHome (pages_of memory.now.pages) memory.now.frame.anchor
        (R.disk rack.old) (R.disk rack.new)) }
    ensures home { let new = R.disk rack.new in OnOk result (Tells (R.disk rack.old)
        → AreTheseHome (IsChosen memory.now.frame.anchor tables.now of_tables)
        (pages_of memory.now.pages) memory.now.frame.anchor new.now.contents) }
    ensures fault { NamesWriteFault (R.disk rack.old) (R.disk rack.new) result }
{
    for number in 1..MAX_VOLUMES + 1 {
        let Some(vol) = VolIx::new(number) else {
            unreachable!()
        };
        bring_home_on(rack, memory, tables, of_tables, vol, found)?;
    }
    Ok(())
}
