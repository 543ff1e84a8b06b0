//! Setting limits of owners.
ghost use Rattle.std.specs.Prelude.{◌≡◌, ◌<◌, true, None, Some, IfErr, IfOk, IsSome, IsSomeAnd, List, OnErr, OnOk, length, slice_get};
ghost use Rattle.std.specs.FinMap.{get, insert};
ghost use Rattle.domain_memory.specs.metadata_cells.Chain.{PlacedCell};
ghost use Rattle.domain_memory.specs.file_chains.Allocated.{AreAllocated, FindsNone};
ghost use Rattle.domain_memory.specs.file_chains.FileChanges.{AreOnTables};
ghost use Rattle.domain_memory.specs.fileset_model.Filesets.{FilesetMap};
ghost use Rattle.domain_memory.specs.fileset_values.declared.command.Owner.TheVariants as owner;
ghost use Rattle.domain_memory.specs.fileset_model.declared.fileset.FilesetSlot.{FilesetSlot};
ghost use Rattle.domain_memory.specs.fileset_table.Table.{IsTable, is_original};
ghost use Rattle.domain_memory.specs.fileset_table.declared.slot.FilesetEntry.{FilesetEntry as EntryOf};
ghost use Rattle.domain_memory.specs.fileset_table.declared.slot.SlotItem.TheVariants as slot;
ghost use Rattle.domain_memory.specs.release_steps.QuotaChain.{IsQuotaChain};
ghost use Rattle.domain_memory.specs.staged_pages.Store.{pages_of};
ghost use Rattle.domain_memory.specs.domain_standing.Standing.{AreBooksOf, HaveParents};
ghost use Rattle.domain_memory.specs.standing_laws.SetsQuota.{fileset_limited};
ghost use Rattle.domain_memory.specs.Slots.{ChangesSlot};
ghost use Rattle.domain_memory.specs.Kept.{KeepsKept};
ghost use Rattle.domain_memory.specs.Staged.{IsStaged, IsStagedForSome, MayGoBack, staged_books, staged_in};
ghost use Rattle.domain_changes.specs.Charging.{ChangesBook, ChangesInBook};
ghost use Rattle.domain_changes.specs.Limits.{BoundsInSlot, LimitsNone, SetsInChain, SetsInPages, SetsLimitsIn, SetsOwner};
ghost use Rattle.domain_changes.specs.Table.{HasOriginal, HasTablePage};

use crate::table::put_in_table;
use domain_memory::{
    CellAt, DomainMemory, FilesetEntry, FilesetNo, FilesetTable, Limits, OutOfMemory, Owner,
    SlotFiles, SlotItem, StoreFault, VolIx,
};
use std::alloc::Global;

/// A copy of the table's entry for the original in a slot.
fn copy_entry(
    alloc: Global,
    table: &FilesetTable,
    number: FilesetNo,
) -> Result<FilesetEntry, OutOfMemory>
    requires { IsSomeAnd (slice_get table.now.slots number) (λ item. is_original item ≡ true) }
    ensures entry { IfOk result (λ entry. slice_get table.now.slots number
        ≡ Some (slot.Original entry)) }
    ensures table { IsTable table.now }
{
    let SlotItem::Original { entry } = table.slot(number) else {
        unreachable!();
    };
    Ok(FilesetEntry {
        name: entry.name.copy(alloc)?,
        first_tag: entry.first_tag,
        files_limit: entry.files_limit,
        blocks_limit: entry.blocks_limit,
        quota: entry.quota,
    })
}

/// Sets the limits of the whole fileset in its slot. At an Err nothing has changed.
fn set_in_slot(
    memory: &mut DomainMemory,
    alloc: Global,
    number: FilesetNo,
    limits: &Limits,
) -> Result<(), OutOfMemory>
    requires original { IsSomeAnd (slice_get memory.old.table.slots number)
        (λ item. is_original item ≡ true) }
    requires there { HasTablePage memory.old }
    ensures ok { OnOk result (BoundsInSlot number limits.now memory.old memory.new) }
    ensures err { OnErr result (memory.new ≡ memory.old) }
{
    let mut entry = copy_entry(alloc, &memory.table, number)?;
    entry.files_limit = limits.files;
    entry.blocks_limit = limits.blocks;
    put_in_table(memory, alloc, number, SlotItem::Original { entry })
}

/// Writes the limits of a user or a group into the chain of quota cells that the fileset has, or
/// begins one, and returns where it begins. NoPage and OutOfMemory are returned as by `set_limits`
/// of quota chains.
fn set_in_chain(
    memory: &mut DomainMemory,
    alloc: Global,
    number: FilesetNo,
    entry: &FilesetEntry,
    who: Owner,
    limits: &Limits,
    prefer: VolIx,
) -> Result<CellAt, StoreFault>
    requires allocated { AreAllocated memory.old.space memory.old.cells
        (pages_of memory.old.pages) }
    requires chain { (chain : List PlacedCell) × IsQuotaChain (pages_of memory.old.pages)
        entry.now.quota chain × AreOnTables memory.old.cells chain }
    requires named { ¬ who ≡ owner.Fileset }
    ensures ok { IfOk result (λ start. SetsInChain number prefer who limits.now entry.now start
        memory.old memory.new) }
    ensures kept { KeepsKept memory.old memory.new }
    ensures same { memory.new ≡ record memory.old {
      pages = memory.new.pages;
      space = memory.new.space;
      cells = memory.new.cells;
    } }
    ensures cause { IfErr result (FindsNone memory.old.space memory.new.space memory.old.cells) }
{
    domain_memory::set_limits(
        alloc,
        &mut memory.pages,
        &mut memory.space,
        &mut memory.cells,
        number,
        entry.quota,
        who,
        *limits,
        prefer,
    )
}

/// Sets the limits of a user or a group in the fileset's chain of quota cells, which its slot then
/// names.
fn set_in_quotas(
    memory: &mut DomainMemory,
    alloc: Global,
    number: FilesetNo,
    who: Owner,
    limits: &Limits,
    prefer: VolIx,
) -> Result<(), StoreFault>
    requires stands { ∥ IsStagedForSome memory.old ∥₁ }
    requires fresh { memory.old.was ≡ None }
    requires original { IsSomeAnd (slice_get memory.old.table.slots number)
        (λ item. is_original item ≡ true) }
    requires named { ¬ who ≡ owner.Fileset }
    ensures ok { OnOk result (SetsOwner number prefer who limits.now memory.old memory.new) }
    ensures kept { KeepsKept memory.old memory.new }
    ensures slots { memory.new.slots ≡ memory.old.slots }
    ensures cause { IfErr result (LimitsNone memory.old.space memory.old.cells) }
{
    let mut entry = copy_entry(alloc, &memory.table, number)?;
    let start = set_in_chain(memory, alloc, number, &entry, who, limits, prefer)?;
    entry.quota = Some(start);
    put_in_table(memory, alloc, number, SlotItem::Original { entry })?;
    Ok(())
}

/// Sets the limits of an owner in the pages of the domain.
fn set_in_pages(
    memory: &mut DomainMemory,
    alloc: Global,
    number: FilesetNo,
    who: Owner,
    limits: &Limits,
    prefer: VolIx,
) -> Result<(), StoreFault>
    requires stands { ∥ IsStagedForSome memory.old ∥₁ }
    requires fresh { memory.old.was ≡ None }
    requires original { IsSomeAnd (slice_get memory.old.table.slots number)
        (λ item. is_original item ≡ true) }
    ensures ok { OnOk result (SetsInPages number prefer who limits.now memory.old memory.new) }
    ensures kept { KeepsKept memory.old memory.new }
    ensures slots { memory.new.slots ≡ memory.old.slots }
    ensures cause { IfErr result (LimitsNone memory.old.space memory.old.cells) }
{
    match who {
        Owner::Fileset => {
            set_in_slot(memory, alloc, number, limits)?;
            Ok(())
        }
        Owner::User(_) | Owner::Group(_) => {
            set_in_quotas(memory, alloc, number, who, limits, prefer)
        }
    }
}

/// Sets the limits of an owner in a fileset's book.
fn limit_files(files: &mut SlotFiles, who: Owner, limits: &Limits) -> Result<(), OutOfMemory>
    ensures ok { OnOk result (ChangesBook (SetsLimitsIn who limits.now) files.old files.new) }
    ensures err { OnErr result (files.new ≡ files.old) }
{
    files.book.set_limits(who, *limits)
}

/// Sets the limits of an owner in the book of a slot, if it has one.
fn limit_slot(slot: &mut Option<SlotFiles>, who: Owner, limits: &Limits) -> Result<(), OutOfMemory>
    ensures ok { OnOk result (ChangesSlot (ChangesBook (SetsLimitsIn who limits.now)) slot.old
        slot.new) }
    ensures err { OnErr result (slot.new ≡ slot.old) }
{
    match slot {
        Some(files) => limit_files(files, who, limits),
        None => Ok(()),
    }
}

/// Sets the limits of an owner in the book of the fileset in a slot.
fn set_in_book(
    memory: &mut DomainMemory,
    number: FilesetNo,
    who: Owner,
    limits: &Limits,
) -> Result<(), OutOfMemory>
    requires within { number < length memory.old.slots.items }
    ensures ok { OnOk result (ChangesInBook number (SetsLimitsIn who limits.now) memory.old
        memory.new) }
    ensures err { OnErr result (memory.new.slots.items ≡ memory.old.slots.items) }
    ensures same { memory.new ≡ record memory.old { slots = memory.new.slots } }
{
    limit_slot(&mut memory.slots[number.number() as usize], who, limits)
}

/// Sets the limits of an owner in the fileset of a slot, an original: those of a user or a group in
/// its chain of quota cells, those of the whole fileset in its slot. Quota cells are taken from the
/// preferred volume if it has free ones. NoPage is returned only if a cell is needed, none can be
/// taken, and no page is free. After an Err the change may be half made, and must be taken back.
pub fn set_limits(
    memory: &mut DomainMemory,
    alloc: Global,
    number: FilesetNo,
    who: Owner,
    limits: Limits,
    prefer: VolIx,
) -> Result<(), StoreFault>
    requires stands { ∥ IsStagedForSome memory.old ∥₁ }
    requires back { ∥ MayGoBack memory.old ∥₁ }
    requires fresh { memory.old.was ≡ None }
    requires original { IsSomeAnd (slice_get memory.old.table.slots number)
        (λ item. is_original item ≡ true) }
    ensures staged { (entry : EntryOf) → HasOriginal memory.old number entry
        → (all : FilesetMap) → IsStaged memory.old all → (fileset : FilesetSlot)
        → get all entry.name ≡ Some fileset → OnOk result
        (IsStaged memory.new (insert all entry.name (fileset_limited who limits fileset))) }
    ensures parents { (all : FilesetMap) → IsStaged memory.old all
        → HaveParents (staged_in memory.old)
        → OnOk result (HaveParents (staged_in memory.new)) }
    ensures books { (entry : EntryOf) → HasOriginal memory.old number entry
        → (all : FilesetMap) → IsStaged memory.old all → (fileset : FilesetSlot)
        → get all entry.name ≡ Some fileset
        → AreBooksOf (staged_books memory.old) (staged_in memory.old) all → OnOk result
        (AreBooksOf (staged_books memory.new) (staged_in memory.new)
        (insert all entry.name (fileset_limited who limits fileset))) }
    ensures kept { KeepsKept memory.old memory.new }
    ensures back { ∥ MayGoBack memory.new ∥₁ }
    ensures cause { IfErr result (LimitsNone memory.old.space memory.old.cells) }
{
    set_in_pages(memory, alloc, number, who, &limits, prefer)?;
    set_in_book(memory, number, who, &limits)?;
    Ok(())
}
