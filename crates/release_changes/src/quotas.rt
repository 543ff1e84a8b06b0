//! Letting go of the quota cells of what is being removed from slots, one after the other.
ghost use Rattle.std.specs.Prelude.{◌≡◌, ◌≤◌, ℕ, false, true, [], None, Some, Contains, OnErr, OnOk, slice_get};
ghost use Rattle.domain_changes.specs.release_list.Standing.{Files};
ghost use Rattle.domain_changes.specs.release_list.declared.list.Entry.{Entry as EntryOf};
ghost use Rattle.domain_changes.specs.domain_memory.Memory.{StandsFor};
ghost use Rattle.release_changes.specs.LettingGo.{StandsForAny};
ghost use Rattle.domain_changes.specs.domain_memory.Kept.{KeepsKept};
ghost use Rattle.domain_changes.specs.fileset_table.Table.{IsTable, with_slot};
ghost use Rattle.domain_changes.specs.fileset_table.declared.slot.SlotItem.TheVariants as slot;
ghost use Rattle.domain_changes.specs.Table.{HasTablePage};
ghost use Rattle.domain_changes.specs.domain_base.declared.place.CellAt.{CellAt as CellAtOf};
ghost use Rattle.domain_changes.specs.fileset_model.Filesets.{FilesetMap};
ghost use Rattle.domain_changes.specs.domain_memory.Held.{held_open};
ghost use Rattle.domain_changes.specs.domain_memory.Staged.{IsSettled, MayBeKept, MayGoBack};
ghost use Rattle.release_changes.specs.Emptying.{MayBeKeptForAny};
ghost use Rattle.domain_changes.specs.domain_memory.Going.{HasQuotaCells};
ghost use Rattle.release_changes.specs.QuotaCells.{BeginsQuotas, LeadsNowhere, LeadsOn, LosesLast, LosesOne, LosesSecond};

use domain_changes::from_release_list::Entry;
use domain_changes::{
    CellAt, DomainMemory, FilesetNo, Home, OutOfMemory, SlotItem, lead_past, next_cell,
    put_in_table,
};
use std::alloc::Global;

/// Frees the second of the quota cells that begin there, to which the first leads. The first then
/// leads past it. Fails only if memory runs out, and then nothing has changed.
fn lose_second(
    memory: &mut DomainMemory,
    alloc: Global,
    at: &CellAt,
    next: &CellAt,
) -> Result<(), OutOfMemory>
    requires quotas { (files : Files) × BeginsQuotas memory.old at.now files }
    requires next { LeadsOn memory.old at.now next.now }
    ensures ok { (number : ℕ) (files : Files) → BeginsQuotas memory.old at.now files
        → OnOk result (LosesSecond number at.now files memory.old memory.new) }
    ensures kept { KeepsKept memory.old memory.new }
    ensures same { memory.new ≡ record memory.old {
      pages = memory.new.pages;
      cells = memory.new.cells;
    } }
{
    lead_past(alloc, &mut memory.pages, at, next)?;
    memory.cells.free_cell(&mut memory.pages, *next);
    Ok(())
}

/// Frees the last of the quota cells that begin there, which leads to no other. The slot of what is
/// being removed then names none. Fails only if memory runs out, and then the change is half made
/// and must be taken back.
fn lose_last(
    memory: &mut DomainMemory,
    alloc: Global,
    number: FilesetNo,
    first_tag: Option<Home>,
    at: CellAt,
) -> Result<(), OutOfMemory>
    requires quotas { (files : Files) × BeginsQuotas memory.old at files }
    requires last { LeadsNowhere memory.old at }
    requires was { slice_get memory.old.table.slots number
        ≡ Some (slot.Removed first_tag (Some at)) }
    requires table { IsTable (with_slot number (slot.Removed first_tag None) memory.old.table) }
    requires there { HasTablePage memory.old }
    requires fresh { memory.old.was ≡ None }
    ensures ok { (files : Files) → BeginsQuotas memory.old at files
        → OnOk result (LosesLast number at files memory.old memory.new) }
    ensures kept { KeepsKept memory.old memory.new }
    ensures same { memory.new ≡ record memory.old {
      pages = memory.new.pages;
      cells = memory.new.cells;
      table = memory.new.table;
      was = memory.new.was;
    } }
{
    memory.cells.free_cell(&mut memory.pages, at);
    let quota = None;
    put_in_table(
        memory,
        alloc,
        number,
        SlotItem::Removed { first_tag, quota },
    )
}

/// Lets go of one of the quota cells that the slot of what is being removed names: the second one
/// or, if only one is left, that one, and then the slot names none. The filesets stay what they
/// are. Fails only if memory runs out, and then the change may be half made and must be taken back.
pub(crate) fn lose_quota_cell(
    memory: &mut DomainMemory,
    alloc: Global,
    number: FilesetNo,
) -> Result<(), OutOfMemory>
    requires ready { ∥ MayBeKeptForAny memory.old ∥₁ }
    requires back { ∥ MayGoBack memory.old ∥₁ }
    requires fresh { memory.old.was ≡ None }
    requires quota { (at : CellAtOf) × HasQuotaCells memory.old number at }
    ensures ok { (all : FilesetMap) → MayBeKept memory.old all
        → OnOk result (MayBeKept memory.new all) }
    ensures goes { OnOk result (LosesOne number memory.old memory.new) }
    ensures held { held_open memory.new.space ≤ held_open memory.old.space }
    ensures kept { KeepsKept memory.old memory.new }
    ensures back { ∥ MayGoBack memory.new ∥₁ }
    ensures frame { memory.new.frame ≡ memory.old.frame }
{
    let SlotItem::Removed { first_tag, quota } = memory.table.slot(number) else {
        unreachable!();
    };
    let Some(at) = quota else {
        unreachable!();
    };
    let first_tag = *first_tag;
    let at = *at;
    match next_cell(&memory.pages, &at) {
        Some(next) => lose_second(memory, alloc, &at, &next),
        None => lose_last(memory, alloc, number, first_tag, at),
    }
}

/// Whether an entry of the list begins there.
fn is_listed(entries: &[Entry], at: &CellAt) -> bool
    ensures listed { result ≡ true → (entry : EntryOf) × Contains entries.now entry
        × (entry.at ≡ at.now) }
    ensures none { result ≡ false → (entry : EntryOf) → Contains entries.now entry
        → ¬ entry.at ≡ at.now }
{
    for entry in entries {
        if entry.at == *at {
            return true;
        }
    }
    false
}

/// Whether the slot of what is being removed names quota cells that are not on the list. It takes
/// no memory.
pub(crate) fn names_quota_cells(memory: &DomainMemory, number: FilesetNo) -> bool
    requires { memory.now.listed.items ≡ [] }
    ensures some { result ≡ true → (at : CellAtOf) × HasQuotaCells memory.now number at }
    ensures none { result ≡ false → (at : CellAtOf) → ¬ HasQuotaCells memory.now number at }
{
    let SlotItem::Removed { quota, .. } = memory.table.slot(number) else {
        return false;
    };
    match quota {
        Some(at) => !is_listed(memory.list.entries(), at),
        None => false,
    }
}

/// Lets go of one of the quota cells that the slot of what is being removed names; if memory runs
/// out, all is as it was.
pub(crate) fn lose_or_take_back(
    memory: &mut DomainMemory,
    alloc: Global,
    number: FilesetNo,
) -> Result<(), OutOfMemory>
    requires settled { IsSettled memory.old }
    requires stands { ∥ StandsForAny memory.old ∥₁ }
    requires back { ∥ MayGoBack memory.old ∥₁ }
    requires quota { (at : CellAtOf) × HasQuotaCells memory.old number at }
    ensures ok { (all : FilesetMap) → StandsFor memory.old all
        → OnOk result (MayBeKept memory.new all) }
    ensures goes { OnOk result (LosesOne number memory.old memory.new) }
    ensures stands { (all : FilesetMap) → StandsFor memory.old all
        → OnErr result (StandsFor memory.new all) }
    ensures settled { OnErr result (IsSettled memory.new) }
    ensures held { held_open memory.new.space ≤ held_open memory.old.space }
    ensures back { ∥ MayGoBack memory.new ∥₁ }
    ensures frame { memory.new.frame ≡ memory.old.frame }
{
    let Ok(()) = lose_quota_cell(memory, alloc, number) else {
        memory.take_back();
        return Err(OutOfMemory);
    };
    Ok(())
}
