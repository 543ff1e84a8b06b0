//! Moving what stands at a path to another path (rename).
ghost use Rattle.std.specs.Prelude.{◌≡◌, ◌≤◌, true, IfErr, IfOk, None, OnErr, OnOk, length, slice_get};
ghost use Rattle.fileset_lending.specs.directory_pages.Rows.{is_row_name};
ghost use Rattle.fileset_lending.specs.domain_layout.CellRules.{of_original};
ghost use Rattle.fileset_lending.specs.domain_memory.Kept.{KeepsKept};
ghost use Rattle.fileset_lending.specs.domain_memory.Staged.{IsStagedForSome, MayGoBack, staged_books};
ghost use Rattle.fileset_lending.specs.fileset_model.Apply.{rename_checks, renamed};
ghost use Rattle.fileset_lending.specs.fileset_model.Filesets.{FilesetMap};
ghost use Rattle.fileset_lending.specs.fileset_model.declared.fileset.FilesetSlot.{FilesetSlot};
ghost use Rattle.fileset_lending.specs.fileset_table.declared.slot.FilesetEntry.{FilesetEntry};
ghost use Rattle.fileset_lending.specs.Chosen.{AreSettingsOf, CallsChange, files_in};
ghost use Rattle.fileset_lending.specs.name_space.Changes.{HasOriginal, IsOriginal, Renames as RenamesIn, last_name};
ghost use Rattle.fileset_lending.specs.set_standing.Directories.{AreTags, said_of};
ghost use Rattle.name_changes.specs.Stages.{HasFileset, IsRefused, KeepsBooks, KeepsParents, Renames};

use crate::room::{hand_back, if_room};
use crate::saying::say_parent;
use fileset_lending::{
    CallSettings, Chosen, DomainMemory, FilesetNo, NameFault, Path, Renamed, choose, rename_at,
};
use std::alloc::Global;

/// Moves what stands at a path of lent files to a second path. A moved directory says which
/// directory it stands in.
fn move_in(chosen: &mut Chosen, alloc: Global, path: &Path, to: &Path) -> Result<Renamed, NameFault>
    requires names { HasOriginal (files_in chosen.old) }
    requires some { 1 ≤ length path.now }
    requires some_to { 1 ≤ length to.now }
    requires name { is_row_name (last_name to.now) ≡ true }
    ensures ok { IfOk result (λ answer. (slot : FilesetSlot)
        → IsOriginal (files_in chosen.old) slot
        → RenamesIn path.now to.now slot (files_in chosen.old) (files_in chosen.new) answer) }
    ensures says { IfOk result (λ answer.
        CallsChange (said_of answer.kind answer.moved answer.dir) chosen.old chosen.new) }
    ensures tags { IfOk result (λ answer. AreTags (said_of answer.kind answer.moved answer.dir)) }
    ensures err { IfErr result (λ fault. (slot : FilesetSlot)
        → IsOriginal (files_in chosen.old) slot
        → IsRefused (rename_checks path.now to.now) slot fault) }
    ensures err_says { OnErr result (CallsChange None chosen.old chosen.new) }
{
    let answer = match rename_at(&mut chosen.set, alloc, path, to) {
        Ok(answer) => answer,
        Err(fault) => return Err(fault),
    };
    match say_parent(chosen, alloc, answer.kind, answer.moved, answer.dir) {
        Ok(()) => Ok(answer),
        Err(fault) => Err(fault),
    }
}

/// Moves what stands at a path, with all below it, to a second path, in place of what stands there.
/// A moved directory then says which directory it stands in. After an Err the change may be half
/// made, and must be taken back.
pub fn rename(
    memory: DomainMemory,
    alloc: Global,
    number: FilesetNo,
    settings: CallSettings,
    path: &Path,
    to: &Path,
) -> (DomainMemory, Result<Renamed, NameFault>)
    requires stands { ∥ IsStagedForSome memory ∥₁ }
    requires back { ∥ MayGoBack memory ∥₁ }
    requires original { of_original (slice_get memory.table.slots number) ≡ true }
    requires settings { AreSettingsOf memory settings }
    requires some { 1 ≤ length path.now }
    requires some_to { 1 ≤ length to.now }
    requires name { is_row_name (last_name to.now) ≡ true }
    ensures ok { (all : FilesetMap) (entry : FilesetEntry) (fileset : FilesetSlot)
        → HasFileset memory number all entry fileset
        → IfOk result.1 (λ answer. Renames path.now to.now all entry fileset result.0
        answer) }
    ensures err { (all : FilesetMap) (entry : FilesetEntry) (fileset : FilesetSlot)
        → HasFileset memory number all entry fileset
        → IfErr result.1 (IsRefused (rename_checks path.now to.now) fileset) }
    ensures parents { OnOk result.1 (KeepsParents memory result.0) }
    ensures books { (all : FilesetMap) (entry : FilesetEntry) (fileset : FilesetSlot)
        → HasFileset memory number all entry fileset
        → IfOk result.1 (λ answer. answer.replaced ≡ None
        → KeepsBooks memory result.0 all entry fileset
        (renamed path.now to.now fileset.tree)) }
    ensures table { result.0.table ≡ memory.table }
    ensures counted { staged_books result.0 ≡ staged_books memory }
    ensures kept { ∥ KeepsKept memory result.0 ∥₁ }
    ensures back { ∥ MayGoBack result.0 ∥₁ }
{
    let mut chosen = choose(memory, number, settings);
    let answer = move_in(&mut chosen, alloc, path, to);
    let (memory, room) = hand_back(chosen);
    (memory, if_room(answer, room))
}
