//! The tree of a fileset's directories.
ghost use Rattle.std.specs.Prelude.{◌≡◌, ◌⊎◌, ◌↔◌, ◌*◌, false, IfOk, IsTrue, OnOk};
ghost use Rattle.fileset_shapes.specs.domain_base.declared.place.Tag.{Tag as TagOf};
ghost use Rattle.fileset_shapes.specs.name_space.Names.{root_tag};
ghost use Rattle.directory_faults.specs.Parents.{HasTag};
ghost use Rattle.directory_faults.specs.Tree.{HasTagOf, IsTree};
ghost use Rattle.directory_faults.specs.Walk.{IsListed};

use crate::children::read_children;
use crate::walk::{Walk, has_all, walk_below};
use crate::{FileThere, ROOT, RowThere};
use fileset_shapes::{OutOfMemory, Tag};
use std::alloc::Global;
use std::collections::{BTreeMap, BTreeSet};

/// For each directory, the tags to which its rows lead as directories; the directories that are
/// below the root; and whether all directories are read, as they are in an original, and in a clone
/// that has the root and all that is below it.
#[derive(Drop)]
pub(crate) struct Tree {
    pub children: BTreeMap<Tag, Vec<Tag>>,
    pub reached: BTreeSet<Tag>,
    pub are_all_read: bool,
}

/// The tags of files and directories.
fn read_tags(alloc: Global, files: &[FileThere]) -> Result<BTreeSet<Tag>, OutOfMemory>
    ensures { IfOk result (λ tags. (tag : TagOf) → HasTag tags tag ↔ HasTagOf files.now tag) }
{
    let mut tags = BTreeSet::new(alloc);
    for file in files {
        tags.insert(file.tag)?;
    }
    Ok(tags)
}

/// Whether a fileset is an original, or its root and all that was reached from it are there.
fn are_all_read(there: &BTreeSet<Tag>, reached: &Walk, is_clone: bool) -> bool
    requires { IsListed reached.now }
    ensures { IsTrue result ↔ ((is_clone ≡ false) ⊎ (HasTag there.now root_tag
        × ((tag : TagOf) → HasTag reached.now.seen tag → HasTag there.now tag))) }
{
    !is_clone || (there.contains(&ROOT) && has_all(there, reached))
}

/// The tree of a fileset's directories, from its files, directories and rows, and whether it is a
/// clone.
pub(crate) fn read_tree(
    alloc: Global,
    files: &[FileThere],
    rows: &[RowThere],
    is_clone: bool,
) -> Result<Tree, OutOfMemory>
    ensures { IfOk result (IsTree files.now rows.now is_clone) }
{
    let children = read_children(alloc, rows)?;
    let reached = walk_below(alloc, &children, ROOT)?;
    let there = read_tags(alloc, files)?;
    let is_whole = are_all_read(&there, &reached, is_clone);
    Ok(Tree {
        children,
        reached: reached.seen,
        are_all_read: is_whole,
    })
}
