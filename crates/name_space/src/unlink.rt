//! Removing paths.
ghost use Rattle.std.specs.Prelude.{◌≡◌, ◌≢◌, ◌+◌, ◌≤◌, true, Some, IfErr, IfOk, IsSome, length};
ghost use Rattle.directory_rows.specs.page_store.declared.fault.StoreFault.TheVariants.{OutOfMemory as NoMemory};
ghost use Rattle.directory_rows.specs.page_store.Bitfiles.{IsCounted};
ghost use Rattle.directory_rows.specs.directory_pages.Rows.{found};
ghost use Rattle.directory_rows.specs.Directory.{IsWellFormed, rows_in};
ghost use Rattle.plain_program.specs.fileset_model.declared.fileset.FilesetSlot.{FilesetSlot};
ghost use Rattle.name_space.specs.declared.fault.NameFault.TheVariants.{NoPage as IsNoPage};
ghost use Rattle.name_space.specs.Changes.{DropsLink, HasOriginal, IfRefused, IsFaultOf, IsOriginal, Removes, TakesName, rmdir_checks, taking_checks, unlink_checks, unlinking_changes};

use crate::create::last_name;
use crate::fault::NameFault;
use crate::spot::{Spot, leaf_spot};
use directory_rows::{BitfileSet, StoreFault, remove_row};
use plain_program::{Kind, Path, Tag};
use std::alloc::Global;

/// What became of a file when one of its paths was removed.
#[derive(Clone, Copy)]
pub struct Unlinked {
    /// The tag of the file.
    pub tag: Tag,
    /// Whether the file is gone because that was its last path. Otherwise it has one link less.
    pub gone: bool,
}

/// Takes one link of a file or directory away, and with the last link all of it. Returns whether it
/// is gone.
fn drop_link<S: BitfileSet>(set: &mut S, alloc: Global, tag: Tag) -> Result<bool, StoreFault>
    requires there { IsSome (S.files set.old tag) }
    ensures ok { IfOk result (DropsLink tag (S.files set.old) (S.files set.new)) }
    ensures no_page { IfErr result (IsCounted (S.missed set.old) (S.missed set.new)) }
    ensures count { S.missed set.old ≤ S.missed set.new }
    ensures changes { S.changes set.new ≤ 1 + S.changes set.old }
    ensures in_place { S.writes_in_place set.old → IfErr result (λ fault. fault ≡ NoMemory) }
    ensures rest { S.leaves_rest set.old set.new }
{
    let links = set.links(tag);
    if links == 1 {
        match set.remove(alloc, tag) {
            Ok(()) => Ok(true),
            Err(fault) => Err(fault),
        }
    } else {
        match set.set_links(alloc, tag, links - 1) {
            Ok(()) => Ok(false),
            Err(fault) => Err(fault),
        }
    }
}

/// Removes a row, and the link that it was. Returns whether what it named is gone.
pub(crate) fn take_name<S: BitfileSet>(
    set: &mut S,
    alloc: Global,
    spot: Spot,
    name: &[u8],
) -> Result<bool, StoreFault>
    requires good { IsWellFormed (S.files set.old) spot.dir }
    requires named { found name.now (rows_in (S.files set.old) spot.dir)
        ≡ Some (spot.tag, spot.kind) }
    requires there { IsSome (S.files set.old spot.tag) }
    ensures ok { IfOk result (TakesName spot.dir name.now spot.tag (S.files set.old)
        (S.files set.new)) }
    ensures no_page { IfErr result (IsCounted (S.missed set.old) (S.missed set.new)) }
    ensures count { S.missed set.old ≤ S.missed set.new }
    ensures changes { S.changes set.new ≤ unlinking_changes + S.changes set.old }
    ensures in_place { S.writes_in_place set.old → IfErr result (λ fault. fault ≡ NoMemory) }
    ensures rest { S.leaves_rest set.old set.new }
{
    match remove_row(set, alloc, spot.dir, name) {
        Ok(()) => drop_link(set, alloc, spot.tag),
        Err(fault) => Err(fault),
    }
}

/// Removes the path of a file, or of a directory without rows.
fn take_path<S: BitfileSet>(
    set: &mut S,
    alloc: Global,
    path: &Path,
    of: Kind,
) -> Result<Unlinked, NameFault>
    requires names { HasOriginal (S.files set.old) }
    requires some { 1 ≤ length path.now }
    ensures ok { IfOk result (λ file. (slot : FilesetSlot) → IsOriginal (S.files set.old) slot
        → Removes (taking_checks of path.now) path.now slot (S.files set.old) (S.files set.new)
        file.tag file.gone) }
    ensures err { IfErr result (IsFaultOf (taking_checks of path.now) (S.files set.old)
        (S.files set.new) (S.missed set.old) (S.missed set.new)) }
    ensures refused { IfErr result (λ fault. IfRefused fault (set.new ≡ set.old)) }
    ensures count { S.missed set.old ≤ S.missed set.new }
    ensures changes { S.changes set.new ≤ unlinking_changes + S.changes set.old }
    ensures in_place { S.writes_in_place set.old → IfErr result (λ fault. fault ≢ IsNoPage) }
    ensures rest { S.leaves_rest set.old set.new }
{
    let spot = match leaf_spot(set, path, of) {
        Ok(spot) => spot,
        Err(refusal) => return Err(NameFault::Refused(refusal)),
    };
    match take_name(set, alloc, spot, last_name(path)) {
        Ok(gone) => Ok(Unlinked {
            tag: spot.tag,
            gone,
        }),
        Err(fault) => Err(NameFault::from(fault)),
    }
}

/// Removes a path that leads to a file, and with its last path the file. After NoPage or
/// OutOfMemory the set may hold some of this.
pub fn unlink_at<S: BitfileSet>(
    set: &mut S,
    alloc: Global,
    path: &Path,
) -> Result<Unlinked, NameFault>
    requires names { HasOriginal (S.files set.old) }
    requires some { 1 ≤ length path.now }
    ensures ok { IfOk result (λ file. (slot : FilesetSlot) → IsOriginal (S.files set.old) slot
        → Removes (unlink_checks path.now) path.now slot (S.files set.old) (S.files set.new)
        file.tag file.gone) }
    ensures err { IfErr result (IsFaultOf (unlink_checks path.now) (S.files set.old)
        (S.files set.new) (S.missed set.old) (S.missed set.new)) }
    ensures refused { IfErr result (λ fault. IfRefused fault (set.new ≡ set.old)) }
    ensures count { S.missed set.old ≤ S.missed set.new }
    ensures changes { S.changes set.new ≤ unlinking_changes + S.changes set.old }
    ensures in_place { S.writes_in_place set.old → IfErr result (λ fault. fault ≢ IsNoPage) }
    ensures rest { S.leaves_rest set.old set.new }
{
    take_path(set, alloc, path, Kind::File)
}

/// Removes a directory without rows, and returns its tag. After NoPage or OutOfMemory the set may
/// hold some of this.
pub fn rmdir_at<S: BitfileSet>(set: &mut S, alloc: Global, path: &Path) -> Result<Tag, NameFault>
    requires names { HasOriginal (S.files set.old) }
    requires some { 1 ≤ length path.now }
    ensures ok { IfOk result (λ tag. (slot : FilesetSlot) → IsOriginal (S.files set.old) slot
        → Removes (rmdir_checks path.now) path.now slot (S.files set.old) (S.files set.new) tag
        true) }
    ensures err { IfErr result (IsFaultOf (rmdir_checks path.now) (S.files set.old)
        (S.files set.new) (S.missed set.old) (S.missed set.new)) }
    ensures refused { IfErr result (λ fault. IfRefused fault (set.new ≡ set.old)) }
    ensures count { S.missed set.old ≤ S.missed set.new }
    ensures changes { S.changes set.new ≤ unlinking_changes + S.changes set.old }
    ensures in_place { S.writes_in_place set.old → IfErr result (λ fault. fault ≢ IsNoPage) }
    ensures rest { S.leaves_rest set.old set.new }
{
    match take_path(set, alloc, path, Kind::Directory) {
        Ok(directory) => Ok(directory.tag),
        Err(fault) => Err(fault),
    }
}
