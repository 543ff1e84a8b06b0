//! The rows to which paths lead.
ghost use Rattle.std.specs.Prelude.{◌≡◌, ◌==◌, ◌≤◌, IfOk, [], length};
ghost use Rattle.plain_program.specs.domain_base.declared.place.Kind.TheVariants.{Directory};
ghost use Rattle.directory_rows.specs.Directory.{IsWellFormed, rows_in};
ghost use Rattle.plain_program.specs.fileset_model.declared.fileset.FilesetSlot.{FilesetSlot};
ghost use Rattle.plain_program.specs.Stops.{Refuses};
ghost use Rattle.name_space.specs.Changes.{HasOriginal, IsOriginal, IsSpot, leaf_refusal, taking_checks, target_checks};

use crate::create::last_name;
use crate::walking::walk;
use directory_rows::{BitfileSet, find_row, is_empty};
use plain_program::{Kind, Path, Refusal, Tag};

/// The row to which a path leads: the directory that it stands in, and the tag and kind of what it
/// names.
#[derive(Clone, Copy)]
pub(crate) struct Spot {
    pub(crate) dir: Tag,
    pub(crate) tag: Tag,
    pub(crate) kind: Kind,
}

/// The row of what stands at a path, or what is refused.
pub(crate) fn spot_of<S: BitfileSet>(set: &S, path: &Path) -> Result<Spot, Refusal>
    requires names { HasOriginal (S.files set.now) }
    requires some { 1 ≤ length path.now }
    ensures { (slot : FilesetSlot) → IsOriginal (S.files set.now) slot
        → IsSpot (target_checks path.now) (S.files set.now) slot path.now result }
{
    let dir = match walk(set, path) {
        Ok(dir) => dir,
        Err(refusal) => return Err(refusal),
    };
    match find_row(set, dir, last_name(path)) {
        Some((tag, kind)) => Ok(Spot { dir, tag, kind }),
        None => Err(Refusal::NoPath),
    }
}

/// Whether a directory has no row, or what is refused.
fn check_bare<S: BitfileSet>(set: &S, dir: Tag) -> Result<(), Refusal>
    requires { IsWellFormed (S.files set.now) dir }
    ensures { Refuses (leaf_refusal Directory Directory
        (length (rows_in (S.files set.now) dir) == 0)) result }
{
    if is_empty(set, dir) {
        Ok(())
    } else {
        Err(Refusal::NotEmpty)
    }
}

/// Whether what a row names can go in place of a thing of a kind: a file, or a directory without
/// rows; or what is refused.
pub(crate) fn check_leaf<S: BitfileSet>(set: &S, spot: Spot, of: Kind) -> Result<(), Refusal>
    requires { spot.kind ≡ Directory → IsWellFormed (S.files set.now) spot.tag }
    ensures { Refuses (leaf_refusal of spot.kind
        (length (rows_in (S.files set.now) spot.tag) == 0)) result }
{
    match (of, spot.kind) {
        (Kind::File, Kind::File) => Ok(()),
        (Kind::File, Kind::Directory) => Err(Refusal::IsDirectory),
        (Kind::Directory, Kind::File) => Err(Refusal::NotDirectory),
        (Kind::Directory, Kind::Directory) => check_bare(set, spot.tag),
    }
}

/// The row of what stands at a path and is a file, or a directory without rows; or what is refused.
pub(crate) fn leaf_spot<S: BitfileSet>(set: &S, path: &Path, of: Kind) -> Result<Spot, Refusal>
    requires names { HasOriginal (S.files set.now) }
    requires some { 1 ≤ length path.now }
    ensures spot { (slot : FilesetSlot) → IsOriginal (S.files set.now) slot
        → IsSpot (taking_checks of path.now) (S.files set.now) slot path.now result }
    ensures kind { IfOk result (λ spot. spot.kind ≡ of) }
    ensures bare { IfOk result (λ spot. rows_in (S.files set.now) spot.tag ≡ []) }
{
    let spot = match spot_of(set, path) {
        Ok(spot) => spot,
        Err(refusal) => return Err(refusal),
    };
    match check_leaf(set, spot, of) {
        Ok(()) => Ok(spot),
        Err(refusal) => Err(refusal),
    }
}
