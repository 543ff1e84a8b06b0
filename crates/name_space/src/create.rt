//! New files and directories at paths.
ghost use Rattle.std.specs.Prelude.{◌≡◌, ◌+◌, ◌<◌, ◌≤◌, ◌^◌, false, true, None, IfErr, IfOk, OnErr, length};
ghost use Rattle.directory_rows.specs.page_store.Bitfiles.{IsCounted, new_file, with_file};
ghost use Rattle.directory_rows.specs.directory_pages.Rows.{found, is_row_name};
ghost use Rattle.directory_rows.specs.Directory.{IsWellFormed, rows_in};
ghost use Rattle.directory_rows.specs.RowChanges.{AddsRow};
ghost use Rattle.plain_program.specs.fileset_model.declared.fileset.FilesetSlot.{FilesetSlot};
ghost use Rattle.name_space.specs.Changes.{Creates, HasOriginal, IfRefused, IsFaultOf, IsFreePlace, IsMade, IsOriginal, creating_changes, free_checks, last_name, new_node};
ghost use Rattle.name_space.specs.Names.{HasNames, Names};

use crate::fault::NameFault;
use crate::walking::walk;
use directory_rows::{BitfileSet, StoreFault, add_row, find_row};
use plain_program::{Kind, Path, Refusal, Tag};
use std::alloc::Global;

/// A file or directory that was made.
#[derive(Clone, Copy)]
pub struct Created {
    /// Its tag.
    pub tag: Tag,
    /// The directory that got its row, which is the Parent of a directory.
    pub dir: Tag,
}

/// The last name of a path that has one.
pub(crate) fn last_name(path: &Path) -> &[u8]
    requires { 1 ≤ length path.now }
    ensures { result.now ≡ last_name path.now }
{
    let last = path.as_slice().len() - 1;
    path.as_slice()[last].as_slice()
}

/// The directory of a path at which nothing stands, or what is refused.
pub(crate) fn free_place<S: BitfileSet>(set: &S, path: &Path) -> Result<Tag, Refusal>
    requires names { HasNames (S.files set.now) }
    requires some { 1 ≤ length path.now }
    ensures { (slot : FilesetSlot) → Names (S.files set.now) slot
        → IsFreePlace (S.files set.now) slot path.now result }
{
    let dir = match walk(set, path) {
        Ok(dir) => dir,
        Err(refusal) => return Err(refusal),
    };
    match find_row(set, dir, last_name(path)) {
        None => Ok(dir),
        Some(_) => Err(Refusal::Exists),
    }
}

/// A new file or directory, and its row in a directory.
fn make_row<S: BitfileSet>(
    set: &mut S,
    alloc: Global,
    dir: Tag,
    name: &[u8],
    kind: Kind,
    uid: u32,
    gid: u32,
) -> Result<Tag, StoreFault>
    requires good { IsWellFormed (S.files set.old) dir }
    requires name { is_row_name name.now ≡ true }
    requires free { found name.now (rows_in (S.files set.old) dir) ≡ None }
    ensures ok { IfOk result (IsMade dir name.now (new_file kind uid gid) (S.files set.old)
        (S.files set.new)) }
    ensures unspent { IfOk result (λ tag. ¬ S.is_spent set.old tag) }
    ensures no_page { IfErr result (IsCounted (S.missed set.old) (S.missed set.new)) }
    ensures count { S.missed set.old ≤ S.missed set.new }
    ensures changes { S.changes set.new ≤ creating_changes + S.changes set.old }
    ensures rest { S.leaves_rest set.old set.new }
{
    let tag = match set.make(alloc, kind, uid, gid) {
        Ok(tag) => tag,
        Err(fault) => return Err(fault),
    };
    match add_row(set, alloc, dir, tag, kind, name) {
        Ok(()) => Ok(tag),
        Err(fault) => Err(fault),
    }
}

/// Makes a file or a directory at a path. The Parent of a directory is the returned `dir`, which
/// the caller records. After NoPage or OutOfMemory the set may hold some of this.
pub fn create_at<S: BitfileSet>(
    set: &mut S,
    alloc: Global,
    path: &Path,
    kind: Kind,
    uid: u32,
    gid: u32,
) -> Result<Created, NameFault>
    requires names { HasOriginal (S.files set.old) }
    requires some { 1 ≤ length path.now }
    requires name { is_row_name (last_name path.now) ≡ true }
    ensures ok { IfOk result (λ made. (slot : FilesetSlot) → IsOriginal (S.files set.old) slot
        → Creates path.now (new_node kind uid gid) slot (S.files set.old) (S.files set.new) made) }
    ensures err { IfErr result (IsFaultOf (free_checks path.now) (S.files set.old)
        (S.files set.new) (S.missed set.old) (S.missed set.new)) }
    ensures refused { IfErr result (λ fault. IfRefused fault (set.new ≡ set.old)) }
    ensures unspent { IfOk result (λ made. ¬ S.is_spent set.old made.tag) }
    ensures count { S.missed set.old ≤ S.missed set.new }
    ensures changes { S.changes set.new ≤ creating_changes + S.changes set.old }
    ensures rest { S.leaves_rest set.old set.new }
{
    let dir = match free_place(set, path) {
        Ok(dir) => dir,
        Err(refusal) => return Err(NameFault::Refused(refusal)),
    };
    match make_row(set, alloc, dir, last_name(path), kind, uid, gid) {
        Ok(tag) => Ok(Created { tag, dir }),
        Err(fault) => Err(NameFault::from(fault)),
    }
}
