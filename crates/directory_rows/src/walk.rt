//! All paths from a root on.
ghost use Rattle.std.specs.Prelude.{◌≡◌, ◌∷◌, ◌++◌, ◌<◌, [], IfOk, OnOk, length, map};
ghost use Rattle.directory_pages.specs.domain_base.declared.place.Kind.TheVariants.{Directory};
ghost use Rattle.directory_rows.specs.Ways.{AddsBelow, AreAllLed, HaveNamesOnce, below, rows_by};

use crate::led::{DirectoryRows, Led, find_rows, path_below};
use directory_pages::{Kind, OutOfMemory, Row, Tag};
use fileset_values::Path;
use std::alloc::Global;

/// Adds what a row names after the others, by its path below that of its directory.
fn push_below(
    alloc: Global,
    path: &Path,
    row: &Row,
    found: &mut Vec<Led>,
) -> Result<(), OutOfMemory>
    ensures { OnOk result (found.new.items ≡ found.old.items ++ below path.now row.now ∷ []) }
{
    let path = path_below(alloc, path, &row.name)?;
    found.push(Led {
        path,
        tag: row.tag,
        kind: row.kind,
    })?;
    Ok(())
}

/// Adds what each of the rows names after the others.
fn push_all_below(
    alloc: Global,
    path: &Path,
    rows: &[Row],
    found: &mut Vec<Led>,
) -> Result<(), OutOfMemory>
    ensures { OnOk result (found.new.items ≡ found.old.items ++ map (below path.now) rows.now) }
{
    for row in rows {
        push_below(alloc, path, row, found)?;
    }
    Ok(())
}

/// If one of those that were found is a directory, adds what stands in it after the others.
fn push_rows_of(
    alloc: Global,
    directories: &[DirectoryRows],
    at: usize,
    found: &mut Vec<Led>,
) -> Result<(), OutOfMemory>
    requires { at < length found.old.items }
    ensures { OnOk result (AddsBelow (rows_by directories.now) at found.old.items found.new.items) }
{
    let tag = found[at].tag;
    let path = found[at].path.copy(alloc)?;
    match find_rows(directories, tag) {
        Some(rows) => push_all_below(alloc, &path, rows.as_slice(), found),
        None => Ok(()),
    }
}

/// All paths from a root directory on by the rows of these directories, the root's first, with what
/// each leads to. A path is in the list if and only if it leads somewhere. No name may stand twice
/// in a directory. It ends if there are only finitely many paths, as when no directory is below
/// itself.
pub fn read_paths(
    alloc: Global,
    directories: &[DirectoryRows],
    root: Tag,
) -> Result<Vec<Led>, OutOfMemory>
    requires { HaveNamesOnce (rows_by directories.now) }
    ensures { IfOk result (λ found. AreAllLed (rows_by directories.now) (root, Directory)
        found.items) }
{
    let mut found = Vec::new(alloc);
    found.push(Led {
        path: Path::root(alloc),
        tag: root,
        kind: Kind::Directory,
    })?;
    for at in 0..usize::MAX {
        if at == found.len() {
            return Ok(found);
        }
        push_rows_of(alloc, directories, at, &mut found)?;
    }
    Err(OutOfMemory)
}
