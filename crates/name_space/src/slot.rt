//! Making a fileset from its files and rows.
ghost use Rattle.std.specs.Prelude.{◌≡◌, IfOk};
ghost use Rattle.directory_rows.specs.page_store.Bitfiles.{Bitfiles};
ghost use Rattle.directory_rows.specs.Ways.{HaveNamesOnce, rows_by};
ghost use Rattle.name_space.specs.Parts.{ArePartsOf};
ghost use Rattle.name_space.specs.Trees.{AreAllOf, HasRoleOf, IsFullTree, MakesFileset, MayBeOf};

use crate::hidden::complete_tree;
use crate::missing::missing_numbers;
use crate::parts::{FilesetParts, TaggedNode};
use crate::tree::{ROOT_TAG, make_tree};
use directory_rows::{Led, read_paths};
use plain_program::{FilesetName, FilesetSlot, FilesetTree, OutOfMemory, Role};
use std::alloc::Global;

/// The tree of a set's paths. Each file has as many paths in it as links.
fn make_full_tree(
    alloc: Global,
    nodes: &[TaggedNode],
    led: &[Led],
) -> Result<FilesetTree, OutOfMemory>
    ensures { (files : Bitfiles) → AreAllOf files nodes.now led.now
        → IfOk result (IsFullTree files nodes.now) }
{
    let mut tree = make_tree(alloc, nodes, led)?;
    complete_tree(alloc, nodes, led, &mut tree)?;
    Ok(tree)
}

/// An original, or a clone of the one with that name. In a clone, what the set does not have is out
/// of sync.
fn make_role(
    alloc: Global,
    original: &Option<FilesetName>,
    nodes: &[TaggedNode],
    led: &[Led],
) -> Result<Role, OutOfMemory>
    ensures { (files : Bitfiles) → AreAllOf files nodes.now led.now
        → IfOk result (HasRoleOf files original.now) }
{
    match original {
        Some(name) => Ok(Role::CloneOf {
            original: name.copy(alloc)?,
            out: missing_numbers(alloc, nodes, led)?,
        }),
        None => Ok(Role::Original),
    }
}

/// The fileset that the files and directories of a set make, without limits: an original, or a
/// clone of the one with that name. Its paths are the rows. In a clone, a file or directory that
/// the set does not have is out of sync. If directories are out of sync, the paths that a file had
/// below them stand below the first of them, under numbers. No command shows these paths.
pub fn make_fileset(
    alloc: Global,
    original: &Option<FilesetName>,
    parts: &FilesetParts,
) -> Result<FilesetSlot, OutOfMemory>
    requires { HaveNamesOnce (rows_by parts.now.directories.items) }
    ensures { (files : Bitfiles) → ArePartsOf files parts.now → MayBeOf original.now files
        → IfOk result (MakesFileset files parts.now original.now) }
{
    let nodes = parts.nodes.as_slice();
    let led = read_paths(alloc, parts.directories.as_slice(), ROOT_TAG)?;
    let tree = make_full_tree(alloc, nodes, led.as_slice())?;
    let role = make_role(alloc, original, nodes, led.as_slice())?;
    Ok(FilesetSlot { tree, role })
}
