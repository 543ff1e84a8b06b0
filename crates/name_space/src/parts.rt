//! The parts that are read of a set of files before they become a fileset.
ghost use Rattle.std.specs.Prelude.{◌≡◌, ◌^◌, ◌<◌, IfOk, option_copied};
ghost use Rattle.name_space.specs.Changes.{new_node};
ghost use Rattle.name_space.specs.Names.{number_of as number_there};
ghost use Rattle.name_space.specs.Parts.{node_for as node_there, node_in};

use directory_rows::{DirectoryRows, Led};
use plain_program::{Kind, Node, OutOfMemory, PageMap, Tag};
use std::alloc::Global;

/// What a tag names: a file with its bytes or a directory, and how many rows lead to it.
#[derive(Drop)]
pub struct TaggedNode {
    pub tag: Tag,
    pub links: u32,
    pub node: Node,
}

/// The parts that are read of a set of files: the rows of each directory, and what each tag names.
#[derive(Drop)]
pub struct FilesetParts {
    pub directories: Vec<DirectoryRows>,
    pub nodes: Vec<TaggedNode>,
}

/// The number in a fileset that stands for a tag.
pub(crate) fn number_of(tag: Tag) -> u64
    ensures value { result ≡ number_there tag }
    ensures width { tag.seq < 2 ^ 16 }
{
    (u64::from(tag.slot) << 16) + u64::from(tag.seq)
}

/// The first of the nodes that has the tag. Returns None if and only if none has it.
pub(crate) fn find_node<'a>(nodes: &'a [TaggedNode], tag: Tag) -> Option<&'a TaggedNode>
    ensures { option_copied result ≡ node_in nodes.now tag }
{
    for one in nodes {
        if one.tag == tag {
            return Some(one);
        }
    }
    None
}

/// An empty file or directory.
fn empty_node(alloc: Global, of: Kind) -> Node
    ensures { result ≡ new_node of 0 0 }
{
    match of {
        Kind::File => Node::File {
            uid: 0,
            gid: 0,
            size: 0,
            logged: false,
            pages: PageMap::new(alloc),
        },
        Kind::Directory => Node::Directory { uid: 0, gid: 0 },
    }
}

/// A copy of the node to which a path leads, or an empty one if the set has none there.
pub(crate) fn node_for(alloc: Global, nodes: &[TaggedNode], led: &Led) -> Result<Node, OutOfMemory>
    ensures { IfOk result (λ node. node ≡ node_there nodes.now led.now.tag led.now.kind) }
{
    match find_node(nodes, led.tag) {
        Some(one) => one.node.copy(alloc),
        None => Ok(empty_node(alloc, led.kind)),
    }
}
