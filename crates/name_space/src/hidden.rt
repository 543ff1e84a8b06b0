//! Paths below a missing directory, for files that have more links than paths that are left.
ghost use Rattle.std.specs.Prelude.{◌≡◌, ◌+◌, ◌^◌, ◌<◌, Contains, IfOk, List, OnOk};
ghost use Rattle.plain_program.specs.domain_base.declared.place.Kind.{Kind};
ghost use Rattle.plain_program.specs.fileset_values.Orders.{Path as PathOf};
ghost use Rattle.directory_rows.specs.page_store.Bitfiles.{Bitfiles};
ghost use Rattle.directory_rows.specs.declared.led.Led.{Led as LedOf};
ghost use Rattle.name_space.specs.Trees.{AreAllOf, Hides, IsFullTree, IsHiding, IsReached, IsTreeOf, hidden_below as hidden_there};
ghost use Rattle.name_space.specs.declared.parts.TaggedNode.{TaggedNode as NodeOf};

use crate::missing::find_missing;
use crate::parts::{TaggedNode, number_of};
use directory_rows::Led;
use plain_program::{FilesetTree, Name, OutOfMemory, Path};
use std::alloc::Global;

/// The path of that number below another path.
fn hidden_below(alloc: Global, below: &Path, number: u64) -> Result<Path, OutOfMemory>
    ensures { IfOk result (λ path. path ≡ hidden_there below.now number) }
{
    let mut names = below.copy(alloc)?.into_vec();
    names.push(Name::from_vec(Vec::from_slice(alloc, &number.to_be_bytes())?))?;
    Ok(Path::from_vec(names))
}

/// The next number.
fn number_after(number: u64) -> Result<u64, OutOfMemory>
    ensures value { IfOk result (λ next. next ≡ number + 1) }
    ensures width { number < 2 ^ 64 }
{
    number.checked_add(1).ok_or(OutOfMemory)
}

/// Adds paths below a directory that is missing, numbered from a count on, until as many lead to a
/// node as it has links. A path leads there. Returns the count then.
fn hide_more(
    alloc: Global,
    below: &Path,
    one: &TaggedNode,
    count: u64,
    tree: &mut FilesetTree,
) -> Result<u64, OutOfMemory>
    ensures { (files : Bitfiles) (nodes : List NodeOf) (led : List LedOf) (of : Kind)
        → AreAllOf files nodes led → Contains nodes one.now → IsReached files one.now.tag of
        → IsHiding files nodes below.now count tree.old
        → IfOk result (Hides files nodes below.now one.now tree.old tree.new) }
{
    let number = number_of(one.tag);
    let mut next = count;
    for _ in tree.paths_to(number)..one.links as usize {
        let path = hidden_below(alloc, below, next)?;
        tree.add(path, number, one.node.copy(alloc)?)?;
        next = number_after(next)?;
    }
    Ok(next)
}

/// Adds paths below a directory that is missing, numbered from a count on, until as many lead to a
/// node as it has links, if any path leads there. Returns the count after that.
fn hide_links(
    alloc: Global,
    below: &Path,
    one: &TaggedNode,
    count: u64,
    tree: &mut FilesetTree,
) -> Result<u64, OutOfMemory>
    ensures { (files : Bitfiles) (nodes : List NodeOf) (led : List LedOf)
        → AreAllOf files nodes led → Contains nodes one.now
        → IsHiding files nodes below.now count tree.old
        → IfOk result (Hides files nodes below.now one.now tree.old tree.new) }
{
    match tree.node(number_of(one.tag)) {
        Some(_) => hide_more(alloc, below, one, count, tree),
        None => Ok(count),
    }
}

/// Adds paths below a directory that is missing, until each node to which a path leads has as many
/// as it has links.
fn hide_all(
    alloc: Global,
    below: &Path,
    nodes: &[TaggedNode],
    tree: &mut FilesetTree,
) -> Result<(), OutOfMemory>
    ensures { (files : Bitfiles) (led : List LedOf) → AreAllOf files nodes.now led
        → IsHiding files nodes.now below.now 0 tree.old
        → OnOk result (IsFullTree files nodes.now tree.new) }
{
    let mut count = 0;
    for one in nodes {
        count = hide_links(alloc, below, one, count, tree)?;
    }
    Ok(())
}

/// Adds the paths that files have below directories that are missing, until each file has as many
/// as it has links.
pub(crate) fn complete_tree(
    alloc: Global,
    nodes: &[TaggedNode],
    led: &[Led],
    tree: &mut FilesetTree,
) -> Result<(), OutOfMemory>
    ensures { (files : Bitfiles) → AreAllOf files nodes.now led.now
        → (below : PathOf) → IsTreeOf files nodes.now below 0 tree.old
        → OnOk result (IsFullTree files nodes.now tree.new) }
{
    match find_missing(nodes, led) {
        Some(below) => hide_all(alloc, below, nodes, tree),
        None => Ok(()),
    }
}
