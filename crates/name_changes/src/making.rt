//! Making a file or directory (create, mkdir), and giving a file a second path (link).
ghost use Rattle.std.specs.Prelude.{◌≡◌, ◌≤◌, true, IfErr, IfOk, None, OnErr, OnOk, length, slice_get};
ghost use Rattle.fileset_lending.specs.directory_pages.Rows.{is_row_name};
ghost use Rattle.fileset_lending.specs.domain_layout.CellRules.{of_original};
ghost use Rattle.fileset_lending.specs.domain_memory.Kept.{KeepsKept};
ghost use Rattle.fileset_lending.specs.domain_memory.Staged.{IsStagedForSome, MayGoBack, staged_books};
ghost use Rattle.fileset_lending.specs.fileset_model.Apply.{link_checks, linked};
ghost use Rattle.fileset_lending.specs.fileset_model.Filesets.{FilesetMap};
ghost use Rattle.fileset_lending.specs.fileset_model.declared.fileset.FilesetSlot.{FilesetSlot};
ghost use Rattle.fileset_lending.specs.fileset_table.declared.slot.FilesetEntry.{FilesetEntry};
ghost use Rattle.fileset_lending.specs.Chosen.{AreSettingsOf, CallsChange, files_in};
ghost use Rattle.fileset_lending.specs.name_space.Changes.{Creates as CreatesIn, HasOriginal, IsOriginal, free_checks, last_name, new_node};
ghost use Rattle.fileset_lending.specs.set_standing.Directories.{AreTags, said_of};
ghost use Rattle.name_changes.specs.Stages.{Creates, HasFileset, IsRefused, KeepsBooks, KeepsParents, Links};

use crate::room::{hand_back, if_room};
use crate::saying::say_parent;
use fileset_lending::{
    CallSettings, Chosen, Created, DomainMemory, FilesetNo, Kind, NameFault, Path, Tag, choose,
    create_at, link_at,
};
use std::alloc::Global;

/// Makes a file or a directory at a path of lent files. A new directory says which directory it
/// stands in.
fn make_in(
    chosen: &mut Chosen,
    alloc: Global,
    path: &Path,
    of: Kind,
    uid: u32,
    gid: u32,
) -> Result<Created, NameFault>
    requires names { HasOriginal (files_in chosen.old) }
    requires some { 1 ≤ length path.now }
    requires name { is_row_name (last_name path.now) ≡ true }
    ensures ok { IfOk result (λ made. (slot : FilesetSlot) → IsOriginal (files_in chosen.old) slot
        → CreatesIn path.now (new_node of uid gid) slot (files_in chosen.old)
        (files_in chosen.new) made) }
    ensures says { IfOk result (λ made.
        CallsChange (said_of of made.tag made.dir) chosen.old chosen.new) }
    ensures tags { IfOk result (λ made. AreTags (said_of of made.tag made.dir)) }
    ensures err { IfErr result (λ fault. (slot : FilesetSlot)
        → IsOriginal (files_in chosen.old) slot → IsRefused (free_checks path.now) slot fault) }
    ensures err_says { OnErr result (CallsChange None chosen.old chosen.new) }
{
    let made = match create_at(&mut chosen.set, alloc, path, of, uid, gid) {
        Ok(made) => made,
        Err(fault) => return Err(fault),
    };
    match say_parent(chosen, alloc, of, made.tag, made.dir) {
        Ok(()) => Ok(made),
        Err(fault) => Err(fault),
    }
}

/// Makes a file or a directory at a path. A new directory says which directory it stands in. After
/// an Err the change may be half made, and must be taken back.
pub fn create(
    memory: DomainMemory,
    alloc: Global,
    number: FilesetNo,
    settings: CallSettings,
    path: &Path,
    kind: Kind,
    uid: u32,
    gid: u32,
) -> (DomainMemory, Result<Created, NameFault>)
    requires stands { ∥ IsStagedForSome memory ∥₁ }
    requires back { ∥ MayGoBack memory ∥₁ }
    requires original { of_original (slice_get memory.table.slots number) ≡ true }
    requires settings { AreSettingsOf memory settings }
    requires some { 1 ≤ length path.now }
    requires name { is_row_name (last_name path.now) ≡ true }
    ensures ok { (all : FilesetMap) (entry : FilesetEntry) (fileset : FilesetSlot)
        → HasFileset memory number all entry fileset
        → IfOk result.1 (λ answer. Creates path.now (new_node kind uid gid) all entry
        fileset result.0 answer) }
    ensures err { (all : FilesetMap) (entry : FilesetEntry) (fileset : FilesetSlot)
        → HasFileset memory number all entry fileset
        → IfErr result.1 (IsRefused (free_checks path.now) fileset) }
    ensures parents { OnOk result.1 (KeepsParents memory result.0) }
    ensures table { result.0.table ≡ memory.table }
    ensures counted { staged_books result.0 ≡ staged_books memory }
    ensures kept { ∥ KeepsKept memory result.0 ∥₁ }
    ensures back { ∥ MayGoBack result.0 ∥₁ }
{
    let mut chosen = choose(memory, number, settings);
    let answer = make_in(&mut chosen, alloc, path, kind, uid, gid);
    let (memory, room) = hand_back(chosen);
    (memory, if_room(answer, room))
}

/// Gives a file a second path. After an Err the change may be half made, and must be taken back.
pub fn link(
    memory: DomainMemory,
    alloc: Global,
    number: FilesetNo,
    settings: CallSettings,
    path: &Path,
    to: &Path,
) -> (DomainMemory, Result<Tag, NameFault>)
    requires stands { ∥ IsStagedForSome memory ∥₁ }
    requires back { ∥ MayGoBack memory ∥₁ }
    requires original { of_original (slice_get memory.table.slots number) ≡ true }
    requires settings { AreSettingsOf memory settings }
    requires some { 1 ≤ length path.now }
    requires some_to { 1 ≤ length to.now }
    requires name { is_row_name (last_name to.now) ≡ true }
    ensures ok { (all : FilesetMap) (entry : FilesetEntry) (fileset : FilesetSlot)
        → HasFileset memory number all entry fileset
        → IfOk result.1 (λ answer. Links path.now to.now all entry fileset result.0 answer) }
    ensures err { (all : FilesetMap) (entry : FilesetEntry) (fileset : FilesetSlot)
        → HasFileset memory number all entry fileset
        → IfErr result.1 (IsRefused (link_checks path.now to.now) fileset) }
    ensures parents { OnOk result.1 (KeepsParents memory result.0) }
    ensures books { (all : FilesetMap) (entry : FilesetEntry) (fileset : FilesetSlot)
        → HasFileset memory number all entry fileset
        → OnOk result.1 (KeepsBooks memory result.0 all entry fileset
        (linked path.now to.now fileset.tree)) }
    ensures table { result.0.table ≡ memory.table }
    ensures counted { staged_books result.0 ≡ staged_books memory }
    ensures kept { ∥ KeepsKept memory result.0 ∥₁ }
    ensures back { ∥ MayGoBack result.0 ∥₁ }
{
    let mut chosen = choose(memory, number, settings);
    let answer = link_at(&mut chosen.set, alloc, path, to);
    let (memory, room) = hand_back(chosen);
    (memory, if_room(answer, room))
}
