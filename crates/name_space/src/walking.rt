//! The way along a path, row by row from the root on.
ghost use Rattle.std.specs.Prelude.{◌≡◌, ◌+◌, ◌<◌, ◌≤◌, None, length};
ghost use Rattle.plain_program.specs.fileset_model.Paths.{walk_refusal};
ghost use Rattle.plain_program.specs.fileset_model.declared.fileset.FilesetSlot.{FilesetSlot};
ghost use Rattle.name_space.specs.Names.{HasNames, Names};
ghost use Rattle.name_space.specs.Walks.{IsAtDirectory, IsClear, IsTarget, IsWalked, IsWayTo};

use directory_rows::{BitfileSet, find_row};
use plain_program::{Kind, Name, Path, Refusal, Tag};

/// The tag of the root directory.
const ROOT: Tag = Tag { slot: 1, seq: 1 };

/// Where a way begins: at the root, unless that is out of sync.
fn start<S: BitfileSet>(set: &S, path: &Path) -> Result<Tag, Refusal>
    requires { HasNames (S.files set.now) }
    ensures { (slot : FilesetSlot) → Names (S.files set.now) slot
        → IsAtDirectory (S.files set.now) slot path.now 0 result }
{
    match set.kind_of(ROOT) {
        Some(_) => Ok(ROOT),
        None => Err(Refusal::OutOfSync),
    }
}

/// The directory of the next name of a path, which stands in the directory of the names before it.
fn step<S: BitfileSet>(set: &S, path: &Path, count: usize, dir: Tag) -> Result<Tag, Refusal>
    requires names { HasNames (S.files set.now) }
    requires within { count < length path.now }
    requires way { IsWayTo (S.files set.now) path.now count dir }
    ensures { (slot : FilesetSlot) → Names (S.files set.now) slot
        → IsClear slot path.now count
        → IsAtDirectory (S.files set.now) slot path.now (count + 1) result }
{
    match find_row(set, dir, path.as_slice()[count].as_slice()) {
        None => Err(Refusal::NoPath),
        Some((_, Kind::File)) => Err(Refusal::NotDirectory),
        Some((tag, Kind::Directory)) => match set.kind_of(tag) {
            Some(_) => Ok(tag),
            None => Err(Refusal::OutOfSync),
        },
    }
}

/// The directory of the last name of a path, or the first refusal on the way to it: a name without
/// a row, a file, or a directory that the set does not have. The path has a name.
pub fn walk<S: BitfileSet>(set: &S, path: &Path) -> Result<Tag, Refusal>
    requires names { HasNames (S.files set.now) }
    requires some { 1 ≤ length path.now }
    ensures { (slot : FilesetSlot) → Names (S.files set.now) slot
        → IsWalked (S.files set.now) slot path.now result }
{
    let mut dir = match start(set, path) {
        Ok(root) => root,
        Err(refusal) => return Err(refusal),
    };
    for count in 0..path.as_slice().len() - 1 {
        match step(set, path, count, dir) {
            Ok(next) => dir = next,
            Err(refusal) => return Err(refusal),
        }
    }
    Ok(dir)
}

/// The row of the last name of a path, in the directory of that name.
fn last_row<S: BitfileSet>(
    set: &S,
    path: &Path,
    last: usize,
    dir: Tag,
) -> Result<(Tag, Kind), Refusal>
    requires names { HasNames (S.files set.now) }
    requires last { last + 1 ≡ length path.now }
    requires way { IsWayTo (S.files set.now) path.now last dir }
    ensures { (slot : FilesetSlot) → Names (S.files set.now) slot
        → walk_refusal slot path.now ≡ None → IsTarget (S.files set.now) slot path.now result }
{
    match find_row(set, dir, path.as_slice()[last].as_slice()) {
        Some(led) => Ok(led),
        None => Err(Refusal::NoPath),
    }
}

/// The tag and kind of what stands at a path, or the first refusal on the way to it, or no-path if
/// the last name has no row. The path of the root has no names.
pub fn target<S: BitfileSet>(set: &S, path: &Path) -> Result<(Tag, Kind), Refusal>
    requires { HasNames (S.files set.now) }
    ensures { (slot : FilesetSlot) → Names (S.files set.now) slot
        → IsTarget (S.files set.now) slot path.now result }
{
    let count = path.as_slice().len();
    if count == 0 {
        return Ok((ROOT, Kind::Directory));
    }
    match walk(set, path) {
        Ok(dir) => last_row(set, path, count - 1, dir),
        Err(refusal) => Err(refusal),
    }
}
