//! Taking a path away (unlink, rmdir).
ghost use Rattle.std.specs.Prelude.{◌≡◌, ◌≢◌, ◌≤◌, false, true, IfErr, IfOk, OnOk, length, slice_get};
ghost use Rattle.fileset_lending.specs.domain_layout.CellRules.{of_original};
ghost use Rattle.fileset_lending.specs.domain_memory.Kept.{KeepsKept};
ghost use Rattle.fileset_lending.specs.domain_memory.Staged.{IsStagedForSome, MayGoBack, staged_books};
ghost use Rattle.fileset_lending.specs.fileset_model.Apply.{without};
ghost use Rattle.fileset_lending.specs.fileset_model.Filesets.{FilesetMap};
ghost use Rattle.fileset_lending.specs.fileset_model.declared.fileset.FilesetSlot.{FilesetSlot};
ghost use Rattle.fileset_lending.specs.fileset_table.declared.slot.FilesetEntry.{FilesetEntry};
ghost use Rattle.fileset_lending.specs.Chosen.{AreSettingsOf};
ghost use Rattle.fileset_lending.specs.name_space.Changes.{rmdir_checks, unlink_checks};
ghost use Rattle.fileset_lending.specs.name_space.declared.fault.NameFault.TheVariants.{NoPage as IsNoPage};
ghost use Rattle.name_changes.specs.Stages.{HasFileset, IsRefused, KeepsBooks, KeepsParents, Removes};

use crate::room::{hand_back, if_room};
use fileset_lending::{
    CallSettings, DomainMemory, FilesetNo, NameFault, Path, Tag, Unlinked, choose, rmdir_at,
    unlink_at,
};
use std::alloc::Global;

/// Takes away a path of a file, and the file with its last path. No page is needed, but memory may
/// run out. After an Err the change may be half made, and must be taken back.
pub fn unlink(
    memory: DomainMemory,
    alloc: Global,
    number: FilesetNo,
    settings: CallSettings,
    path: &Path,
) -> (DomainMemory, Result<Unlinked, NameFault>)
    requires stands { ∥ IsStagedForSome memory ∥₁ }
    requires back { ∥ MayGoBack memory ∥₁ }
    requires original { of_original (slice_get memory.table.slots number) ≡ true }
    requires settings { AreSettingsOf memory settings }
    requires some { 1 ≤ length path.now }
    ensures ok { (all : FilesetMap) (entry : FilesetEntry) (fileset : FilesetSlot)
        → HasFileset memory number all entry fileset
        → IfOk result.1 (λ answer. Removes (unlink_checks path.now) path.now all entry
        fileset result.0 answer.tag answer.gone) }
    ensures err { (all : FilesetMap) (entry : FilesetEntry) (fileset : FilesetSlot)
        → HasFileset memory number all entry fileset
        → IfErr result.1 (IsRefused (unlink_checks path.now) fileset) }
    ensures pages { IfErr result.1 (λ fault. fault ≢ IsNoPage) }
    ensures parents { OnOk result.1 (KeepsParents memory result.0) }
    ensures books { (all : FilesetMap) (entry : FilesetEntry) (fileset : FilesetSlot)
        → HasFileset memory number all entry fileset
        → IfOk result.1 (λ answer. answer.gone ≡ false
        → KeepsBooks memory result.0 all entry fileset (without path.now fileset.tree)) }
    ensures table { result.0.table ≡ memory.table }
    ensures counted { staged_books result.0 ≡ staged_books memory }
    ensures kept { ∥ KeepsKept memory result.0 ∥₁ }
    ensures back { ∥ MayGoBack result.0 ∥₁ }
{
    let mut chosen = choose(memory, number, settings);
    let answer = unlink_at(&mut chosen.set, alloc, path);
    let (memory, room) = hand_back(chosen);
    (memory, if_room(answer, room))
}

/// Removes a directory without rows. No page is needed, but memory may run out. After an Err the
/// change may be half made, and must be taken back.
pub fn remove_directory(
    memory: DomainMemory,
    alloc: Global,
    number: FilesetNo,
    settings: CallSettings,
    path: &Path,
) -> (DomainMemory, Result<Tag, NameFault>)
    requires stands { ∥ IsStagedForSome memory ∥₁ }
    requires back { ∥ MayGoBack memory ∥₁ }
    requires original { of_original (slice_get memory.table.slots number) ≡ true }
    requires settings { AreSettingsOf memory settings }
    requires some { 1 ≤ length path.now }
    ensures ok { (all : FilesetMap) (entry : FilesetEntry) (fileset : FilesetSlot)
        → HasFileset memory number all entry fileset
        → IfOk result.1 (λ answer. Removes (rmdir_checks path.now) path.now all entry
        fileset result.0 answer true) }
    ensures err { (all : FilesetMap) (entry : FilesetEntry) (fileset : FilesetSlot)
        → HasFileset memory number all entry fileset
        → IfErr result.1 (IsRefused (rmdir_checks path.now) fileset) }
    ensures pages { IfErr result.1 (λ fault. fault ≢ IsNoPage) }
    ensures parents { OnOk result.1 (KeepsParents memory result.0) }
    ensures table { result.0.table ≡ memory.table }
    ensures counted { staged_books result.0 ≡ staged_books memory }
    ensures kept { ∥ KeepsKept memory result.0 ∥₁ }
    ensures back { ∥ MayGoBack result.0 ∥₁ }
{
    let mut chosen = choose(memory, number, settings);
    let answer = rmdir_at(&mut chosen.set, alloc, path);
    let (memory, room) = hand_back(chosen);
    (memory, if_room(answer, room))
}
