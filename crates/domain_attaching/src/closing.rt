//! Closing a domain.
ghost use Rattle.std.specs.Prelude.{◌≡◌, ◌*◌, IfErr, IfOk, OnErr, OnOk, length};
ghost use Rattle.attached_domain.specs.log_ring.Homes.{HasMembers};
ghost use Rattle.attached_domain.specs.staged_pages.Store.{pages_of};
ghost use Rattle.attached_domain.specs.volume_disk.Disk.{IsSettled as IsSynced, Tells, raised_at};
ghost use Rattle.attached_domain.specs.volume_disk.Run.{NamesWriteFault, Touches};
ghost use Rattle.attached_domain.specs.domain_standing.Domain.{layout_of};
ghost use Rattle.attached_domain.specs.domain_memory.Staged.{IsSettled, staged_in};
ghost use Rattle.domain_attaching.specs.Tables.{AreTables};
ghost use Rattle.domain_attaching.specs.Closing.{AreHome, AreTheseHome, HasRoomFor, IsChosen, IsClosed, IsInOrder, IsInOrderSoFar, IsOnLoggable, IsOnThese, MeansKept, StayHome};

use crate::closing_room::ClosingRoom;
use crate::homeward::bring_pages_home;
use crate::row::MOST_AT_ONCE;
use crate::tables::TablePages;
use attached_domain::from_domain_base::limits::PAGE_BYTES;
use attached_domain::{DomainMemory, Entry, Rack, VolIx, sync_volumes};
use domain_state::{Domain, Opening};

/// Brings home the pages in memory that are of tables, or those that are not, and syncs each
/// volume.
fn bring_and_sync<R: Rack>(
    rack: &mut R,
    memory: &DomainMemory,
    tables: &TablePages,
    of_tables: bool,
    found: &mut [u8],
) -> Result<(), VolIx>
    requires members { HasMembers (R.disk rack.old).sizes memory.now.frame.anchor }
    requires buffer { length found.old ≡ PAGE_BYTES * MOST_AT_ONCE }
    ensures buffer { length found.new ≡ PAGE_BYTES * MOST_AT_ONCE }
    ensures touches { Touches (R.disk rack.old) (R.disk rack.new)
        (IsOnThese (IsChosen memory.now.frame.anchor tables.now of_tables)) }
    ensures stays { OnOk result (StayHome (pages_of memory.now.pages) memory.now.frame.anchor
        (R.disk rack.old) (R.disk rack.new)) }
    ensures home { let new = R.disk rack.new in OnOk result (Tells (R.disk rack.old)
        → AreTheseHome (IsChosen memory.now.frame.anchor tables.now of_tables)
        (pages_of memory.now.pages) memory.now.frame.anchor new.now.contents) }
    ensures synced { OnOk result (Tells (R.disk rack.old) → IsSynced (R.disk rack.new).now) }
    ensures fault { NamesWriteFault (R.disk rack.old) (R.disk rack.new) result }
{
    bring_pages_home(rack, memory, tables, of_tables, found)?;
    sync_volumes(rack)
}

/// Brings the pages in memory home: first those of data, and once these are there to stay, those of
/// tables.
fn bring_in_order<R: Rack>(
    rack: &mut R,
    memory: &DomainMemory,
    tables: &TablePages,
    found: &mut [u8],
) -> Result<(), VolIx>
    requires members { HasMembers (R.disk rack.old).sizes memory.now.frame.anchor }
    requires buffer { length found.old ≡ PAGE_BYTES * MOST_AT_ONCE }
    requires tables { AreTables (layout_of (staged_in memory.now)) tables.now }
    ensures touches { Touches (R.disk rack.old) (R.disk rack.new)
        (IsOnLoggable memory.now.frame.anchor) }
    ensures order { OnOk result (IsInOrder (R.disk rack.old) (R.disk rack.new) memory.now) }
    ensures order_at_fault { OnErr result
        (IsInOrderSoFar (R.disk rack.old) (R.disk rack.new) memory.now) }
    ensures home { OnOk result (Tells (R.disk rack.old) → AreHome (pages_of memory.now.pages)
        memory.now.frame.anchor (R.disk rack.new).now.contents) }
    ensures synced { OnOk result (Tells (R.disk rack.old) → IsSynced (R.disk rack.new).now) }
    ensures fault { NamesWriteFault (R.disk rack.old) (R.disk rack.new) result }
{
    bring_and_sync(rack, memory, tables, false, found)?;
    bring_and_sync(rack, memory, tables, true, found)
}

/// Brings the pages in memory home, in the room that was taken for it: first those of data, then
/// those of tables.
fn write_back<R: Rack>(rack: &mut R, memory: &DomainMemory, room: ClosingRoom) -> Result<(), VolIx>
    requires members { HasMembers (R.disk rack.old).sizes memory.now.frame.anchor }
    requires room { HasRoomFor memory.now.frame.anchor room }
    ensures touches { Touches (R.disk rack.old) (R.disk rack.new)
        (IsOnLoggable memory.now.frame.anchor) }
    ensures order { OnOk result (IsInOrder (R.disk rack.old) (R.disk rack.new) memory.now) }
    ensures order_at_fault { OnErr result
        (IsInOrderSoFar (R.disk rack.old) (R.disk rack.new) memory.now) }
    ensures home { OnOk result (Tells (R.disk rack.old) → AreHome (pages_of memory.now.pages)
        memory.now.frame.anchor (R.disk rack.new).now.contents) }
    ensures synced { OnOk result (Tells (R.disk rack.old) → IsSynced (R.disk rack.new).now) }
    ensures fault { NamesWriteFault (R.disk rack.old) (R.disk rack.new) result }
{
    let ClosingRoom {
        mut tables,
        mut found,
    } = room;
    tables.mark(memory);
    bring_in_order(rack, memory, &tables, &mut found)
}

/// What is left of a domain that was closed, or that could not be.
#[derive(Drop)]
pub struct Closed<R: Rack> {
    /// Its rack.
    pub rack: R,
    /// The commands since it was opened, with their replies.
    pub history: Vec<Entry>,
}

/// Closes a domain over which no change is laid, and gives its rack and its history back. Each page
/// in memory that differs from the rack's is written to its home, and each volume is synced. The
/// pages of tables come last, once all others are there to stay: those of tables of cells and of
/// tag directories, and the page of the fileset table. The log has no group, before and after, so
/// the volumes then mean what the domain stood for.
///
/// It takes no memory except the room, which was taken for the domain's frame. A page that cannot
/// be read is written. The error is the first volume whose write or sync failed. Some of the pages
/// may have been written then, and nothing is promised about what the volumes mean.
pub fn close<R: Rack, O: Opening>(
    domain: Domain<R, O>,
    room: ClosingRoom,
) -> Result<Closed<R>, (Closed<R>, VolIx)>
    requires room { HasRoomFor domain.memory.frame.anchor room }
    requires settled { ∥ IsSettled domain.memory ∥₁ }
    ensures closed { IfOk result (λ now. Tells (R.disk domain.history.rack)
        → ∥ IsClosed (R.disk now.rack) domain.memory ∥₁) }
    ensures means { IfOk result (λ now. Tells (R.disk domain.history.rack)
        → MeansKept (R.disk now.rack) domain.memory) }
    ensures order { IfOk result (λ now. IsInOrder (R.disk domain.history.rack) (R.disk now.rack)
        domain.memory) }
    ensures order_at_fault { IfErr result (λ back. IsInOrderSoFar (R.disk domain.history.rack)
        (R.disk back.0.rack) domain.memory) }
    ensures passed { IfOk result (λ now. (R.disk now.rack).write_faults
        ≡ (R.disk domain.history.rack).write_faults) }
    ensures touches { IfOk result (λ now. Touches (R.disk domain.history.rack) (R.disk now.rack)
        (IsOnLoggable domain.memory.frame.anchor)) }
    ensures touches_at_fault { IfErr result (λ back. Touches (R.disk domain.history.rack)
        (R.disk back.0.rack) (IsOnLoggable domain.memory.frame.anchor)) }
    ensures cause { IfErr result (λ back. (R.disk back.0.rack).write_faults
        ≡ raised_at (R.disk domain.history.rack).write_faults back.1) }
    ensures history { IfOk result (λ now. now.history ≡ domain.history.entries) }
    ensures history_at_fault { IfErr result (λ back. back.0.history ≡ domain.history.entries) }
{
    let (memory, history) = domain.apart();
    let (mut rack, history) = history.into_parts();
    match write_back(&mut rack, &memory, room) {
        Ok(()) => Ok(Closed { rack, history }),
        Err(vol) => Err((Closed { rack, history }, vol)),
    }
}
