//! Further paths of files.
ghost use Rattle.std.specs.Prelude.{◌≡◌, ◌+◌, ◌<◌, ◌≤◌, true, None, IfErr, IfOk, IsSome, OnOk, length};
ghost use Rattle.plain_program.specs.domain_base.Limits.{max_links};
ghost use Rattle.directory_rows.specs.page_store.Bitfiles.{IsCounted, links_at};
ghost use Rattle.directory_rows.specs.directory_pages.Rows.{found, is_row_name};
ghost use Rattle.directory_rows.specs.Directory.{IsWellFormed, rows_in};
ghost use Rattle.plain_program.specs.fileset_model.Apply.{link_checks};
ghost use Rattle.plain_program.specs.fileset_model.declared.fileset.FilesetSlot.{FilesetSlot};
ghost use Rattle.name_space.specs.Changes.{AddsLink, HasOriginal, IfRefused, IsFaultOf, IsLinkPlace, IsOriginal, Links, last_name, linking_changes};

use crate::create::{free_place, last_name};
use crate::fault::NameFault;
use crate::spot::leaf_spot;
use directory_rows::{BitfileSet, StoreFault, add_row};
use plain_program::limits::MAX_LINKS;
use plain_program::{Kind, Path, Refusal, Tag};
use std::alloc::Global;

/// A file that gets one more row, and the directory that gets the row.
#[derive(Clone, Copy)]
pub(crate) struct LinkPlace {
    tag: Tag,
    dir: Tag,
}

/// The file at a path and the directory of a free path, if the file can have one more path, or what
/// is refused.
fn link_place<S: BitfileSet>(set: &S, path: &Path, to: &Path) -> Result<LinkPlace, Refusal>
    requires names { HasOriginal (S.files set.now) }
    requires some { 1 ≤ length path.now }
    requires some_to { 1 ≤ length to.now }
    ensures { (slot : FilesetSlot) → IsOriginal (S.files set.now) slot
        → IsLinkPlace (S.files set.now) slot path.now to.now result }
{
    let spot = match leaf_spot(set, path, Kind::File) {
        Ok(spot) => spot,
        Err(refusal) => return Err(refusal),
    };
    let dir = match free_place(set, to) {
        Ok(dir) => dir,
        Err(refusal) => return Err(refusal),
    };
    if set.links(spot.tag) < MAX_LINKS {
        Ok(LinkPlace { tag: spot.tag, dir })
    } else {
        Err(Refusal::LinksFull)
    }
}

/// Adds a row that names a file, and a link to the file.
fn add_link<S: BitfileSet>(
    set: &mut S,
    alloc: Global,
    place: LinkPlace,
    name: &[u8],
) -> Result<(), StoreFault>
    requires there { IsSome (S.files set.old place.tag) }
    requires few { links_at (S.files set.old) place.tag < max_links }
    requires good { IsWellFormed (S.files set.old) place.dir }
    requires name { is_row_name name.now ≡ true }
    requires free { found name.now (rows_in (S.files set.old) place.dir) ≡ None }
    ensures ok { OnOk result (AddsLink place name.now (S.files set.old) (S.files set.new)) }
    ensures no_page { IfErr result (IsCounted (S.missed set.old) (S.missed set.new)) }
    ensures count { S.missed set.old ≤ S.missed set.new }
    ensures changes { S.changes set.new ≤ linking_changes + S.changes set.old }
    ensures rest { S.leaves_rest set.old set.new }
{
    match add_row(set, alloc, place.dir, place.tag, Kind::File, name) {
        Ok(()) => {
            let links = set.links(place.tag);
            set.set_links(alloc, place.tag, links + 1)
        }
        Err(fault) => Err(fault),
    }
}

/// Makes a second path lead to the file at the first, and returns its tag. After NoPage or
/// OutOfMemory the set may hold some of this.
pub fn link_at<S: BitfileSet>(
    set: &mut S,
    alloc: Global,
    path: &Path,
    to: &Path,
) -> Result<Tag, NameFault>
    requires names { HasOriginal (S.files set.old) }
    requires some { 1 ≤ length path.now }
    requires some_to { 1 ≤ length to.now }
    requires name { is_row_name (last_name to.now) ≡ true }
    ensures ok { IfOk result (λ tag. (slot : FilesetSlot) → IsOriginal (S.files set.old) slot
        → Links path.now to.now slot (S.files set.old) (S.files set.new) tag) }
    ensures err { IfErr result (IsFaultOf (link_checks path.now to.now) (S.files set.old)
        (S.files set.new) (S.missed set.old) (S.missed set.new)) }
    ensures refused { IfErr result (λ fault. IfRefused fault (set.new ≡ set.old)) }
    ensures count { S.missed set.old ≤ S.missed set.new }
    ensures changes { S.changes set.new ≤ linking_changes + S.changes set.old }
    ensures rest { S.leaves_rest set.old set.new }
{
    let place = match link_place(set, path, to) {
        Ok(place) => place,
        Err(refusal) => return Err(NameFault::Refused(refusal)),
    };
    match add_link(set, alloc, place, last_name(to)) {
        Ok(()) => Ok(place.tag),
        Err(fault) => Err(NameFault::from(fault)),
    }
}
