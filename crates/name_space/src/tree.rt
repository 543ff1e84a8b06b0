//! The tree of all paths.
ghost use Rattle.std.specs.Prelude.{◌≡◌, [], IfOk, OnOk};
ghost use Rattle.plain_program.specs.fileset_model.Apply.{with_node};
ghost use Rattle.name_space.specs.Names.{number_of as number_there};
ghost use Rattle.directory_rows.specs.page_store.Bitfiles.{Bitfiles};
ghost use Rattle.name_space.specs.Parts.{node_for as node_there};
ghost use Rattle.name_space.specs.Trees.{AreAllOf, IsTreeOf};

use crate::parts::{TaggedNode, node_for, number_of};
use directory_rows::Led;
use plain_program::{FilesetTree, OutOfMemory, Tag};
use std::alloc::Global;

/// The tag of the root.
pub(crate) const ROOT_TAG: Tag = Tag { slot: 1, seq: 1 };

/// Adds a path, and the node to which it leads.
fn add_led(
    alloc: Global,
    nodes: &[TaggedNode],
    led: &Led,
    tree: &mut FilesetTree,
) -> Result<(), OutOfMemory>
    ensures { OnOk result (tree.new ≡ with_node led.now.path (number_there led.now.tag)
        (node_there nodes.now led.now.tag led.now.kind) tree.old) }
{
    let node = node_for(alloc, nodes, led)?;
    tree.add(led.path.copy(alloc)?, number_of(led.tag), node)
}

/// The tree of these paths, which has no others.
pub(crate) fn make_tree(
    alloc: Global,
    nodes: &[TaggedNode],
    led: &[Led],
) -> Result<FilesetTree, OutOfMemory>
    ensures { (files : Bitfiles) → AreAllOf files nodes.now led.now
        → IfOk result (IsTreeOf files nodes.now [] 0) }
{
    let mut tree = FilesetTree::empty(alloc, number_of(ROOT_TAG))?;
    for one in led {
        add_led(alloc, nodes, one, &mut tree)?;
    }
    Ok(tree)
}
