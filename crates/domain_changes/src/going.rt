//! Beginning to remove a fileset.
ghost use Rattle.std.specs.Prelude.{◌≡◌, true, None, IsSomeAnd, OnErr, OnOk, slice_get};
ghost use Rattle.std.specs.FinMap.{remove};
ghost use Rattle.domain_memory.specs.fileset_model.Filesets.{FilesetMap};
ghost use Rattle.domain_memory.specs.fileset_table.Table.{is_original};
ghost use Rattle.domain_memory.specs.fileset_table.declared.slot.FilesetEntry.{FilesetEntry};
ghost use Rattle.domain_memory.specs.domain_standing.Standing.{AreBooksOf, HaveParents};
ghost use Rattle.domain_memory.specs.Staged.{IsStaged, IsStagedForSome, MayGoBack, staged_books, staged_in};
ghost use Rattle.domain_memory.specs.Kept.{KeepsKept};
ghost use Rattle.domain_changes.specs.Table.{HasOriginal};

use crate::table::put_in_table;
use domain_memory::{DomainMemory, FilesetNo, OutOfMemory, SlotItem};
use std::alloc::Global;

/// Begins to remove the fileset in a slot, an original without a clone. Its slot says that it is
/// being removed, and still has its tag directory and its quota cells: nothing is let go of yet.
/// Its name is free. Fails only if memory runs out, and then nothing has changed.
pub fn begin_to_go(
    memory: &mut DomainMemory,
    alloc: Global,
    number: FilesetNo,
) -> Result<(), OutOfMemory>
    requires stands { ∥ IsStagedForSome memory.old ∥₁ }
    requires back { ∥ MayGoBack memory.old ∥₁ }
    requires fresh { memory.old.was ≡ None }
    requires original { IsSomeAnd (slice_get memory.old.table.slots number)
        (λ item. is_original item ≡ true) }
    ensures staged { (entry : FilesetEntry) → HasOriginal memory.old number entry
        → (all : FilesetMap) → IsStaged memory.old all
        → OnOk result (IsStaged memory.new (remove all entry.name)) }
    ensures parents { (all : FilesetMap) → IsStaged memory.old all
        → HaveParents (staged_in memory.old)
        → OnOk result (HaveParents (staged_in memory.new)) }
    ensures books { (entry : FilesetEntry) → HasOriginal memory.old number entry
        → (all : FilesetMap) → IsStaged memory.old all
        → AreBooksOf (staged_books memory.old) (staged_in memory.old) all → OnOk result
        (AreBooksOf (staged_books memory.new) (staged_in memory.new) (remove all entry.name)) }
    ensures kept { KeepsKept memory.old memory.new }
    ensures back { ∥ MayGoBack memory.new ∥₁ }
    ensures err { OnErr result (memory.new ≡ memory.old) }
{
    let SlotItem::Original { entry } = memory.table.slot(number) else {
        unreachable!();
    };
    let item = SlotItem::Removed {
        first_tag: Some(entry.first_tag),
        quota: entry.quota,
    };
    put_in_table(memory, alloc, number, item)
}
