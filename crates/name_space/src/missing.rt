//! What paths lead to that the set does not have.
ghost use Rattle.std.specs.Prelude.{◌≡◌, ◌&&◌, IfOk, is_some, not, option_copied};
ghost use Rattle.name_space.specs.Names.{is_directory_kind};
ghost use Rattle.directory_rows.specs.page_store.Bitfiles.{Bitfiles};
ghost use Rattle.name_space.specs.Parts.{node_in};
ghost use Rattle.name_space.specs.Trees.{AreAllOf, AreMissing, IsFoundMissing};

use crate::parts::{TaggedNode, find_node, number_of};
use directory_rows::Led;
use plain_program::{Kind, NumberSet, OutOfMemory, Path};
use std::alloc::Global;

/// Whether the set does not have what a path leads to.
fn is_missing(nodes: &[TaggedNode], led: &Led) -> bool
    ensures { result ≡ not (is_some (node_in nodes.now led.now.tag)) }
{
    find_node(nodes, led.tag).is_none()
}

/// Whether that is a directory.
fn is_missing_directory(nodes: &[TaggedNode], led: &Led) -> bool
    ensures { result ≡ (is_directory_kind led.now.kind
        && not (is_some (node_in nodes.now led.now.tag))) }
{
    match led.kind {
        Kind::Directory => is_missing(nodes, led),
        Kind::File => false,
    }
}

/// The path of the first directory that the set does not have. Returns None if and only if the set
/// has all directories to which a path leads.
pub(crate) fn find_missing<'a>(nodes: &[TaggedNode], led: &'a [Led]) -> Option<&'a Path>
    ensures { (files : Bitfiles) → AreAllOf files nodes.now led.now
        → IsFoundMissing files (option_copied result) }
{
    for one in led {
        if is_missing_directory(nodes, one) {
            return Some(&one.path);
        }
    }
    None
}

/// The numbers of all that the set does not have.
pub(crate) fn missing_numbers(
    alloc: Global,
    nodes: &[TaggedNode],
    led: &[Led],
) -> Result<NumberSet, OutOfMemory>
    ensures { (files : Bitfiles) → AreAllOf files nodes.now led.now
        → IfOk result (AreMissing files) }
{
    let mut out = NumberSet::new(alloc);
    for one in led {
        if is_missing(nodes, one) {
            out.insert(number_of(one.tag))?;
        }
    }
    Ok(out)
}
