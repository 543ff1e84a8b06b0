//! Cutting files.
ghost use Rattle.std.specs.Prelude.{◌≡◌, true, OnErr, OnOk, slice_get};
ghost use Rattle.domain_memory.specs.fileset_model.Filesets.{FilesetMap};
ghost use Rattle.domain_memory.specs.fileset_values.Orders.{Path};
ghost use Rattle.domain_memory.specs.fileset_model.declared.fileset.FilesetSlot.{FilesetSlot};
ghost use Rattle.domain_memory.specs.fileset_table.declared.slot.FilesetEntry.{FilesetEntry};
ghost use Rattle.domain_memory.specs.domain_layout.CellRules.{of_original};
ghost use Rattle.domain_memory.specs.domain_standing.Standing.{HaveParents};
ghost use Rattle.set_standing.specs.Nodes.{cut_to};
ghost use Rattle.domain_memory.specs.Kept.{KeepsKept};
ghost use Rattle.domain_memory.specs.Staged.{IsStagedForSome, MayGoBack, staged_books, staged_in};
ghost use Rattle.file_changes.specs.Stages.{HasFile, IsFileIn, ListsLeft, StandsChanged};

use crate::slots::files_in;
use domain_memory::{CellAt, DomainMemory, FilesetNo, OutOfMemory, Tag};
use std::alloc::Global;

/// Lists a file for which something is left to be done, if there is one.
fn list_left(listed: &mut Vec<CellAt>, left: Option<CellAt>) -> Result<(), OutOfMemory>
    ensures ok { OnOk result (ListsLeft left listed.old.items listed.new.items) }
    ensures err { OnErr result (listed.new.items ≡ listed.old.items) }
{
    if let Some(at) = left {
        listed.push(at)?;
    }
    Ok(())
}

/// Cuts a file of the fileset in a slot, an original, to a size in bytes. It has those of its pages
/// that begin before its end. If pages lie after its end, its first cell says that they are to be
/// let go of, and is listed; the list has room for what the change has listed. Fails only if memory
/// runs out. After an Err the change may be half made, and must be taken back; what was kept stays.
pub fn truncate(
    memory: &mut DomainMemory,
    alloc: Global,
    number: FilesetNo,
    tag: Tag,
    size: u64,
) -> Result<(), OutOfMemory>
    requires stands { ∥ IsStagedForSome memory.old ∥₁ }
    requires back { ∥ MayGoBack memory.old ∥₁ }
    requires original { of_original (slice_get memory.old.table.slots number) ≡ true }
    requires file { IsFileIn memory.old number tag }
    ensures ok { (path : Path) (all : FilesetMap) (entry : FilesetEntry) (fileset : FilesetSlot)
        → HasFile memory.old number tag path all entry fileset → OnOk result
        (StandsChanged path (cut_to size) all entry fileset memory.new) }
    ensures parents { (path : Path) (all : FilesetMap) (entry : FilesetEntry)
        (fileset : FilesetSlot) → HasFile memory.old number tag path all entry fileset
        → HaveParents (staged_in memory.old) → OnOk result (HaveParents (staged_in memory.new)) }
    ensures file { (path : Path) (all : FilesetMap) (entry : FilesetEntry) (fileset : FilesetSlot)
        → HasFile memory.old number tag path all entry fileset
        → OnOk result (IsFileIn memory.new number tag) }
    ensures table { memory.new.table ≡ memory.old.table }
    ensures counted { staged_books memory.new ≡ staged_books memory.old }
    ensures kept { KeepsKept memory.old memory.new }
    ensures back { ∥ MayGoBack memory.new ∥₁ }
{
    let slot = files_in(&memory.slots, number);
    let left = slot.files.truncate(alloc, &mut memory.pages, tag, size)?;
    list_left(&mut memory.listed, left)?;
    memory.list.reserve(memory.listed.len())
}
