//! Letting go of things on a domain's list.
ghost use Rattle.std.specs.Prelude.{◌≡◌, ◌≤◌, ◌↔◌, Contains, MatchBool, false, true, IfOk, OnErr, OnOk};
ghost use Rattle.std.specs.Option.{option_map_or};
ghost use Rattle.domain_changes.specs.fileset_model.Filesets.{FilesetMap};
ghost use Rattle.domain_changes.specs.metadata_cells.Cell.{Cell};
ghost use Rattle.domain_changes.specs.metadata_cells.Chain.{StandsAt};
ghost use Rattle.domain_changes.specs.file_chains.MapChanges.{ChangesAtMost};
ghost use Rattle.domain_changes.specs.fileset_files.Files.{says_remove};
ghost use Rattle.domain_changes.specs.release_list.declared.list.Entry.{Entry as EntryOf};
ghost use Rattle.domain_changes.specs.domain_layout.CellRules.{says_directory};
ghost use Rattle.domain_changes.specs.domain_memory.Held.{held_open};
ghost use Rattle.domain_changes.specs.domain_memory.Kept.{KeepsKept};
ghost use Rattle.domain_changes.specs.domain_memory.Memory.{StandsFor};
ghost use Rattle.domain_changes.specs.domain_memory.Staged.{IsSettled, MayBeKept, MayGoBack};
ghost use Rattle.domain_changes.specs.domain_memory.Going.{MayLetGo, are_plain};
ghost use Rattle.release_changes.specs.LettingGo.{LetsListGo, StandsForAny};
ghost use Rattle.domain_changes.specs.staged_pages.Store.{pages_of};

use domain_changes::from_release_list::Entry;
use domain_changes::{
    CellAt, DomainMemory, Leftover, MetaPages, OutOfMemory, Record, StoreFault, find_record,
};
use std::alloc::Global;

/// Whether a record of attributes is a directory's.
fn is_directory(value: &Option<Record>) -> bool
    ensures { result ≡ option_map_or says_directory value.now false }
{
    match value {
        Some(Record::Attributes { kind, .. }) => *kind == 2,
        _ => false,
    }
}

/// Whether a record of what is left to be done says that all goes.
fn goes_whole(value: &Option<Record>) -> bool
    ensures { result ≡ option_map_or says_remove value.now false }
{
    match value {
        Some(Record::Pending { what }) => matches!(what, Leftover::Remove),
        _ => false,
    }
}

/// Whether the first cell at this place is that of a file or directory that names no index. A
/// directory's cell must also say that all of it goes.
fn is_plain<M: MetaPages>(pages: &M, at: &CellAt) -> bool
    ensures { (cell : Cell) → StandsAt (M.pages pages.now) at.now cell
        → result ≡ are_plain cell.records }
{
    let attributes = find_record(pages, *at, 1);
    let left = find_record(pages, *at, 6);
    attributes.is_some()
        && find_record(pages, *at, 9).is_none()
        && (!is_directory(&attributes) || goes_whole(&left))
}

/// Whether the first cell of each of these entries names no index, and says that all goes if it is
/// a directory's.
fn are_all_plain<M: MetaPages>(pages: &M, entries: &[Entry]) -> bool
    ensures all { result ≡ true → (entry : EntryOf) → Contains entries.now entry
        → (cell : Cell) → StandsAt (M.pages pages.now) entry.at cell
        → are_plain cell.records ≡ true }
    ensures one { result ≡ false → (entry : EntryOf) × Contains entries.now entry
        × ((cell : Cell) → StandsAt (M.pages pages.now) entry.at cell
        → are_plain cell.records ≡ false) }
{
    for entry in entries {
        if !is_plain(pages, &entry.at) {
            return false;
        }
    }
    true
}

/// Whether something is on the list of a domain, and all of it may be let go of: each is a file or
/// directory that names no index, and none is a directory that only loses pages. So nothing may be
/// let go of as long as the list holds pages of a tag directory or quota cells that the slot of a
/// removed fileset names, or a directory that was removed without its index. It takes no memory.
pub fn may_let_go(memory: &DomainMemory) -> bool
    requires settled { IsSettled memory.now }
    requires stands { ∥ StandsForAny memory.now ∥₁ }
    ensures { MatchBool result (MayLetGo memory.now) (¬ MayLetGo memory.now) }
{
    let entries = memory.list.entries();
    !entries.is_empty()
        && memory.list.last_tag_page().is_none()
        && are_all_plain(&memory.pages, entries)
}

/// Lets go of things on a domain's list, one after the other, sixteen at most. At most `most` pages
/// of metadata change, and `most` is at least five; the bits of bitmaps stay for now. What no file
/// has any more waits for the group, and no more pages are held. Returns how many things were let
/// go of: 0 if and only if nothing may be. The filesets stay what they are. No change may be laid
/// over the domain before, and this one must be kept: the list is not taken back. Fails only if
/// memory runs out, and then all is as it was.
pub fn let_go(
    memory: &mut DomainMemory,
    alloc: Global,
    group: u64,
    most: u32,
) -> Result<u32, OutOfMemory>
    requires most { 5 ≤ most }
    requires settled { IsSettled memory.old }
    requires stands { ∥ StandsForAny memory.old ∥₁ }
    requires back { ∥ MayGoBack memory.old ∥₁ }
    ensures ok { (all : FilesetMap) → StandsFor memory.old all
        → OnOk result (MayBeKept memory.new all) }
    ensures goes { IfOk result (λ count. LetsListGo group count memory.old memory.new) }
    ensures some { IfOk result (λ count. (count ≡ 0) ↔ ¬ MayLetGo memory.old) }
    ensures none { IfOk result (λ count. count ≡ 0 → memory.new ≡ memory.old) }
    ensures most { IfOk result (λ count. count ≤ 16) }
    ensures few { OnOk result (ChangesAtMost most (pages_of memory.old.pages)
        (pages_of memory.new.pages)) }
    ensures held { held_open memory.new.space ≤ held_open memory.old.space }
    ensures kept { OnErr result (KeepsKept memory.old memory.new) }
    ensures settled { OnErr result (IsSettled memory.new) }
    ensures back { ∥ MayGoBack memory.new ∥₁ }
    ensures frame { memory.new.frame ≡ memory.old.frame }
{
    if !may_let_go(memory) {
        return Ok(0);
    }
    // no rule of a domain's memory says that the cell at which the last call stopped is still there
    memory.list.start_over();
    match memory.list.release_some(
        alloc,
        &mut memory.pages,
        &mut memory.space,
        &mut memory.cells,
        group,
        memory.frame.version,
        most,
    ) {
        Ok(count) => Ok(count),
        Err(StoreFault::OutOfMemory) => Err(OutOfMemory),
        Err(StoreFault::NoPage) => unreachable!(),
    }
}
