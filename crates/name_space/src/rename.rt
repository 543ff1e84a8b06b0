//! Renaming paths.
ghost use Rattle.std.specs.Prelude.{◌≡◌, ◌≢◌, ◌+◌, ◌≤◌, true, [], Some, None, IfErr, IfOk, OnOk, length};
ghost use Rattle.directory_rows.specs.page_store.Bitfiles.{IsCounted};
ghost use Rattle.directory_rows.specs.directory_pages.Rows.{found, is_row_name};
ghost use Rattle.directory_rows.specs.Directory.{IsWellFormed, rows_in};
ghost use Rattle.directory_rows.specs.RowChanges.{adding_changes, removing_changes};
ghost use Rattle.plain_program.specs.fileset_model.Apply.{move_checks, rename_checks};
ghost use Rattle.plain_program.specs.fileset_model.Paths.{first_refusal};
ghost use Rattle.plain_program.specs.fileset_model.declared.fileset.FilesetSlot.{FilesetSlot};
ghost use Rattle.plain_program.specs.Stops.{Refuses};
ghost use Rattle.name_space.specs.Changes.{AreLooked, HasOriginal, IfRefused, IsFaultOf, IsOriginal, MovesRow, Renames, last_name, renaming_changes};

use crate::create::last_name;
use crate::fault::NameFault;
use crate::spot::{Spot, check_leaf, spot_of};
use crate::unlink::take_name;
use crate::walking::walk;
use directory_rows::{BitfileSet, StoreFault, add_row, find_row, remove_row};
use plain_program::{Kind, Path, Refusal, Tag};
use std::alloc::Global;

/// What a rename resulted in.
#[derive(Clone, Copy)]
pub struct Renamed {
    /// The tag of what stands at the second path now.
    pub moved: Tag,
    /// Whether that is a file or a directory.
    pub kind: Kind,
    /// The directory that it stands in now, which is the Parent of a directory.
    pub dir: Tag,
    /// The tag of what stood at the second path before, if it is gone because that was its last
    /// path.
    pub replaced: Option<Tag>,
}

/// Removes a row, and adds another one that names the same thing.
fn move_row<S: BitfileSet>(
    set: &mut S,
    alloc: Global,
    spot: Spot,
    name: &[u8],
    dir: Tag,
    new_name: &[u8],
) -> Result<(), StoreFault>
    requires good { IsWellFormed (S.files set.old) spot.dir }
    requires named { found name.now (rows_in (S.files set.old) spot.dir)
        ≡ Some (spot.tag, spot.kind) }
    requires into { IsWellFormed (S.files set.old) dir }
    requires new_name { is_row_name new_name.now ≡ true }
    requires free { found new_name.now (rows_in (S.files set.old) dir) ≡ None }
    ensures ok { OnOk result (MovesRow spot name.now dir new_name.now (S.files set.old)
        (S.files set.new)) }
    ensures no_page { IfErr result (IsCounted (S.missed set.old) (S.missed set.new)) }
    ensures count { S.missed set.old ≤ S.missed set.new }
    ensures changes { S.changes set.new ≤ removing_changes + adding_changes
        + S.changes set.old }
    ensures rest { S.leaves_rest set.old set.new }
{
    match remove_row(set, alloc, spot.dir, name) {
        Ok(()) => add_row(set, alloc, dir, spot.tag, spot.kind, new_name),
        Err(fault) => Err(fault),
    }
}

/// Renames to a path at which nothing stands.
fn rename_free<S: BitfileSet>(
    set: &mut S,
    alloc: Global,
    path: &Path,
    to: &Path,
    spot: Spot,
    dir: Tag,
) -> Result<Renamed, NameFault>
    requires looked { AreLooked path.now to.now spot dir (S.files set.old) }
    requires free { found (last_name to.now) (rows_in (S.files set.old) dir) ≡ None }
    ensures ok { IfOk result (λ answer. (slot : FilesetSlot) → IsOriginal (S.files set.old) slot
        → Renames path.now to.now slot (S.files set.old) (S.files set.new) answer) }
    ensures err { IfErr result (IsFaultOf (rename_checks path.now to.now) (S.files set.old)
        (S.files set.new) (S.missed set.old) (S.missed set.new)) }
    ensures refused { IfErr result (λ fault. IfRefused fault (set.new ≡ set.old)) }
    ensures count { S.missed set.old ≤ S.missed set.new }
    ensures changes { S.changes set.new ≤ renaming_changes + S.changes set.old }
    ensures rest { S.leaves_rest set.old set.new }
{
    if to.as_slice().starts_with(path.as_slice()) {
        return Err(NameFault::Refused(Refusal::IntoItself));
    }
    match move_row(set, alloc, spot, last_name(path), dir, last_name(to)) {
        Ok(()) => Ok(Renamed {
            moved: spot.tag,
            kind: spot.kind,
            dir,
            replaced: None,
        }),
        Err(fault) => Err(NameFault::from(fault)),
    }
}

/// What is refused of a rename to a path where something else stands.
fn check_onto<S: BitfileSet>(
    set: &S,
    path: &Path,
    to: &Path,
    spot: Spot,
    other: Spot,
) -> Result<(), Refusal>
    requires looked { AreLooked path.now to.now spot other.dir (S.files set.now) }
    requires taken { found (last_name to.now) (rows_in (S.files set.now) other.dir)
        ≡ Some (other.tag, other.kind) }
    ensures checked { (slot : FilesetSlot) → IsOriginal (S.files set.now) slot
        → Refuses (first_refusal (move_checks path.now to.now slot)) result }
    ensures bare { OnOk result (rows_in (S.files set.now) other.tag ≡ []) }
{
    if to.as_slice().starts_with(path.as_slice()) {
        return Err(Refusal::IntoItself);
    }
    check_leaf(set, other, spot.kind)
}

/// Takes away what a row names, and makes the row name something else instead.
fn replace<S: BitfileSet>(
    set: &mut S,
    alloc: Global,
    path: &Path,
    to: &Path,
    spot: Spot,
    other: Spot,
) -> Result<Renamed, StoreFault>
    requires looked { AreLooked path.now to.now spot other.dir (S.files set.old) }
    requires taken { found (last_name to.now) (rows_in (S.files set.old) other.dir)
        ≡ Some (other.tag, other.kind) }
    requires apart { other.tag ≢ spot.tag }
    requires bare { rows_in (S.files set.old) other.tag ≡ [] }
    requires allowed { (slot : FilesetSlot) → IsOriginal (S.files set.old) slot
        → first_refusal (move_checks path.now to.now slot) ≡ None }
    ensures ok { IfOk result (λ answer. (slot : FilesetSlot) → IsOriginal (S.files set.old) slot
        → Renames path.now to.now slot (S.files set.old) (S.files set.new) answer) }
    ensures no_page { IfErr result (IsCounted (S.missed set.old) (S.missed set.new)) }
    ensures count { S.missed set.old ≤ S.missed set.new }
    ensures changes { S.changes set.new ≤ renaming_changes + S.changes set.old }
    ensures rest { S.leaves_rest set.old set.new }
{
    let gone = match take_name(set, alloc, other, last_name(to)) {
        Ok(gone) => gone,
        Err(fault) => return Err(fault),
    };
    match move_row(set, alloc, spot, last_name(path), other.dir, last_name(to)) {
        Ok(()) => Ok(Renamed {
            moved: spot.tag,
            kind: spot.kind,
            dir: other.dir,
            replaced: if gone { Some(other.tag) } else { None },
        }),
        Err(fault) => Err(fault),
    }
}

/// Renames to a path at which something stands.
fn rename_onto<S: BitfileSet>(
    set: &mut S,
    alloc: Global,
    path: &Path,
    to: &Path,
    spot: Spot,
    other: Spot,
) -> Result<Renamed, NameFault>
    requires looked { AreLooked path.now to.now spot other.dir (S.files set.old) }
    requires taken { found (last_name to.now) (rows_in (S.files set.old) other.dir)
        ≡ Some (other.tag, other.kind) }
    ensures ok { IfOk result (λ answer. (slot : FilesetSlot) → IsOriginal (S.files set.old) slot
        → Renames path.now to.now slot (S.files set.old) (S.files set.new) answer) }
    ensures err { IfErr result (IsFaultOf (rename_checks path.now to.now) (S.files set.old)
        (S.files set.new) (S.missed set.old) (S.missed set.new)) }
    ensures refused { IfErr result (λ fault. IfRefused fault (set.new ≡ set.old)) }
    ensures count { S.missed set.old ≤ S.missed set.new }
    ensures changes { S.changes set.new ≤ renaming_changes + S.changes set.old }
    ensures rest { S.leaves_rest set.old set.new }
{
    if other.tag == spot.tag {
        return Ok(Renamed {
            moved: spot.tag,
            kind: spot.kind,
            dir: other.dir,
            replaced: None,
        });
    }
    match check_onto(set, path, to, spot, other) {
        Ok(()) => {}
        Err(refusal) => return Err(NameFault::Refused(refusal)),
    }
    match replace(set, alloc, path, to, spot, other) {
        Ok(answer) => Ok(answer),
        Err(fault) => Err(NameFault::from(fault)),
    }
}

/// Renames to a path whose directory was found.
fn rename_into<S: BitfileSet>(
    set: &mut S,
    alloc: Global,
    path: &Path,
    to: &Path,
    spot: Spot,
    dir: Tag,
) -> Result<Renamed, NameFault>
    requires looked { AreLooked path.now to.now spot dir (S.files set.old) }
    ensures ok { IfOk result (λ answer. (slot : FilesetSlot) → IsOriginal (S.files set.old) slot
        → Renames path.now to.now slot (S.files set.old) (S.files set.new) answer) }
    ensures err { IfErr result (IsFaultOf (rename_checks path.now to.now) (S.files set.old)
        (S.files set.new) (S.missed set.old) (S.missed set.new)) }
    ensures refused { IfErr result (λ fault. IfRefused fault (set.new ≡ set.old)) }
    ensures count { S.missed set.old ≤ S.missed set.new }
    ensures changes { S.changes set.new ≤ renaming_changes + S.changes set.old }
    ensures rest { S.leaves_rest set.old set.new }
{
    match find_row(set, dir, last_name(to)) {
        None => rename_free(set, alloc, path, to, spot, dir),
        Some((tag, kind)) => rename_onto(set, alloc, path, to, spot, Spot { dir, tag, kind }),
    }
}

/// Moves what stands at a path, with all below it, to another path: a file in place of a file
/// there, a directory in place of a directory without rows. If both paths lead to one file or
/// directory nothing changes. The Parent of a directory that moved is the returned `dir`, which the
/// caller records. After NoPage or OutOfMemory the set may hold some of this.
pub fn rename_at<S: BitfileSet>(
    set: &mut S,
    alloc: Global,
    path: &Path,
    to: &Path,
) -> Result<Renamed, NameFault>
    requires names { HasOriginal (S.files set.old) }
    requires some { 1 ≤ length path.now }
    requires some_to { 1 ≤ length to.now }
    requires name { is_row_name (last_name to.now) ≡ true }
    ensures ok { IfOk result (λ answer. (slot : FilesetSlot) → IsOriginal (S.files set.old) slot
        → Renames path.now to.now slot (S.files set.old) (S.files set.new) answer) }
    ensures err { IfErr result (IsFaultOf (rename_checks path.now to.now) (S.files set.old)
        (S.files set.new) (S.missed set.old) (S.missed set.new)) }
    ensures refused { IfErr result (λ fault. IfRefused fault (set.new ≡ set.old)) }
    ensures count { S.missed set.old ≤ S.missed set.new }
    ensures changes { S.changes set.new ≤ renaming_changes + S.changes set.old }
    ensures rest { S.leaves_rest set.old set.new }
{
    let spot = match spot_of(set, path) {
        Ok(spot) => spot,
        Err(refusal) => return Err(NameFault::Refused(refusal)),
    };
    match walk(set, to) {
        Ok(dir) => rename_into(set, alloc, path, to, spot, dir),
        Err(refusal) => Err(NameFault::Refused(refusal)),
    }
}
