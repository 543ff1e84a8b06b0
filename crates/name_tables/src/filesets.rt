//! An original, a clone that has lost a directory, and one that has lost its root.
ghost use Rattle.std.specs.Prelude.{IfOk, OnOk};
ghost use Rattle.name_tables.specs.Once.{AreOnce};

use crate::parts::{directory, file, one, put, row, two};
use crate::reading::path;
use fileset_lending::{
    DirectoryRows, FilesetName, FilesetParts, FilesetSlot, Kind, OutOfMemory, TaggedNode,
    make_fileset,
};
use std::alloc::Global;
use std::test::Fail;

/// Says the number of what stands at a path, or `none`.
fn push_number(
    alloc: Global,
    slot: &FilesetSlot,
    text: &str,
    out: &mut String,
) -> Result<(), OutOfMemory> {
    match slot.tree.number_at(&path(alloc, text)?) {
        Some(number) => write!(out, "{text} {number}, "),
        None => write!(out, "{text} none, "),
    }
}

/// Says what stands at the root, `a`, `d` and `d/b`.
fn push_told(alloc: Global, slot: &FilesetSlot, out: &mut String) -> Result<(), OutOfMemory> {
    push_number(alloc, slot, "/", out)?;
    push_number(alloc, slot, "/a", out)?;
    push_number(alloc, slot, "/d", out)?;
    push_number(alloc, slot, "/d/b", out)
}

/// The root has a file `a`, which is slot 2, and a directory `d`, which is slot 3.
fn put_root(alloc: Global, all: &mut Vec<DirectoryRows>) -> Result<(), OutOfMemory>
    requires { AreOnce all.old.items }
    ensures { OnOk result (AreOnce all.new.items) }
{
    let first = row(alloc, 2, Kind::File, b"a")?;
    let second = row(alloc, 3, Kind::Directory, b"d")?;
    put(all, two(alloc, 1, first, second)?)
}

/// Those rows, and `d` has the file, too, as `b`.
fn whole_rows(alloc: Global) -> Result<Vec<DirectoryRows>, OutOfMemory>
    ensures { IfOk result (λ all. AreOnce all.items) }
{
    let mut all = Vec::new(alloc);
    put_root(alloc, &mut all)?;
    put(&mut all, one(alloc, 3, row(alloc, 2, Kind::File, b"b")?)?)?;
    Ok(all)
}

/// The rows of the root alone.
fn root_rows(alloc: Global) -> Result<Vec<DirectoryRows>, OutOfMemory>
    ensures { IfOk result (λ all. AreOnce all.items) }
{
    let mut all = Vec::new(alloc);
    put_root(alloc, &mut all)?;
    Ok(all)
}

/// The root, and a file of `links` links.
fn root_and_file(alloc: Global, links: u32) -> Result<Vec<TaggedNode>, OutOfMemory> {
    let mut nodes = Vec::new(alloc);
    nodes.push(directory(1))?;
    nodes.push(file(alloc, 2, links))?;
    Ok(nodes)
}

/// The root, a file of two links, and a directory.
fn whole_nodes(alloc: Global) -> Result<Vec<TaggedNode>, OutOfMemory> {
    let mut nodes = root_and_file(alloc, 2)?;
    nodes.push(directory(3))?;
    Ok(nodes)
}

/// A file of one link alone.
fn one_file(alloc: Global) -> Result<Vec<TaggedNode>, OutOfMemory> {
    let mut nodes = Vec::new(alloc);
    nodes.push(file(alloc, 2, 1))?;
    Ok(nodes)
}

/// An original of whole rows.
fn original(alloc: Global) -> Result<FilesetSlot, OutOfMemory> {
    let directories = whole_rows(alloc)?;
    let nodes = whole_nodes(alloc)?;
    make_fileset(alloc, &None, &FilesetParts { directories, nodes })
}

/// A clone of an original that has lost the directory `d`.
fn clone_of(alloc: Global, original: &Option<FilesetName>) -> Result<FilesetSlot, OutOfMemory> {
    let directories = root_rows(alloc)?;
    let nodes = root_and_file(alloc, 3)?;
    make_fileset(alloc, original, &FilesetParts { directories, nodes })
}

/// A clone of an original that has lost its root.
fn rootless(alloc: Global, original: &Option<FilesetName>) -> Result<FilesetSlot, OutOfMemory> {
    let parts = FilesetParts {
        directories: Vec::new(alloc),
        nodes: one_file(alloc)?,
    };
    make_fileset(alloc, original, &parts)
}

/// Whether a clone is out of sync for a number.
fn synced(slot: &FilesetSlot, number: u64) -> &'static str {
    if slot.role.is_out_of_sync(number) {
        "out of sync"
    } else {
        "in sync"
    }
}

/// Says what stands at the paths of an original, and how many the file has.
fn push_original(alloc: Global, slot: &FilesetSlot, out: &mut String) -> Result<(), OutOfMemory> {
    push_told(alloc, slot, out)?;
    write!(out, "{} paths to the file", slot.tree.paths_to(131_073))
}

/// Says what stands at the paths of a clone, how many the file has, and what is out of sync.
fn push_clone(alloc: Global, slot: &FilesetSlot, out: &mut String) -> Result<(), OutOfMemory> {
    push_told(alloc, slot, out)?;
    write!(out, "{} paths to the file, ", slot.tree.paths_to(131_073))?;
    let (file, lost) = (synced(slot, 131_073), synced(slot, 196_609));
    write!(out, "which is {file}, /d is {lost}")
}

/// Says what stands at the paths of a clone, and whether its root is out of sync.
fn push_rootless(alloc: Global, slot: &FilesetSlot, out: &mut String) -> Result<(), OutOfMemory> {
    push_told(alloc, slot, out)?;
    write!(out, "the root is {}", synced(slot, 65_537))
}

/// The name of the original.
fn name_of_original(alloc: Global) -> Result<Option<FilesetName>, OutOfMemory> {
    Ok(Some(FilesetName::from_vec(Vec::from_slice(alloc, b"o")?)))
}

fn say_clone(alloc: Global, out: &mut String) -> Result<(), OutOfMemory> {
    let original = name_of_original(alloc)?;
    push_clone(alloc, &clone_of(alloc, &original)?, out)
}

fn say_rootless(alloc: Global, out: &mut String) -> Result<(), OutOfMemory> {
    let original = name_of_original(alloc)?;
    push_rootless(alloc, &rootless(alloc, &original)?, out)
}

/// Says what a fileset shows that is made of rows and nodes.
pub fn fileset(alloc: Global, word: &str, out: &mut String) -> Result<(), Fail> {
    match word {
        "original" => Ok(push_original(alloc, &original(alloc)?, out)?),
        "clone" => Ok(say_clone(alloc, out)?),
        "clone without its root" => Ok(say_rootless(alloc, out)?),
        _ => Err(Fail::from("no such fileset")),
    }
}
