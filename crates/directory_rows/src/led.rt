//! Rows of directories, and what paths lead to by these rows.
ghost use Rattle.std.specs.Prelude.{◌≡◌, ◌∷◌, ◌++◌, [], IfOk, unwrap_or, option_copied};
ghost use Rattle.directory_rows.specs.Ways.{rows_by};

use directory_pages::{Kind, OutOfMemory, RowList, RowName, Tag};
use fileset_values::{Name, Path};
use std::alloc::Global;

/// A directory, and its rows.
#[derive(Drop)]
pub struct DirectoryRows {
    pub dir: Tag,
    pub rows: RowList,
}

/// A path, and the tag and kind of what it leads to.
#[derive(Drop)]
pub struct Led {
    pub path: Path,
    pub tag: Tag,
    pub kind: Kind,
}

/// The rows of the first of the directories that has the tag. Returns None if and only if none has
/// it.
pub(crate) fn find_rows<'a>(directories: &'a [DirectoryRows], dir: Tag) -> Option<&'a RowList>
    ensures { unwrap_or (option_copied result) [] ≡ rows_by directories.now dir }
{
    for one in directories {
        if one.dir == dir {
            return Some(&one.rows);
        }
    }
    None
}

/// A path with one more name.
pub(crate) fn path_below(alloc: Global, path: &Path, name: &RowName) -> Result<Path, OutOfMemory>
    ensures { IfOk result (λ below. below ≡ path.now ++ name.now ∷ []) }
{
    let mut names = path.copy(alloc)?.into_vec();
    names.push(Name::from_vec(Vec::from_slice(alloc, name.as_slice())?))?;
    Ok(Path::from_vec(names))
}
