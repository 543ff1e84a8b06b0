//! Rows and nodes, written by hand.
ghost use Rattle.std.specs.Prelude.{IfOk, OnOk};
ghost use Rattle.fileset_lending.specs.directory_rows.Directory.{NamesOnce};
ghost use Rattle.name_tables.specs.Once.{AreOnce};

use fileset_lending::{
    DirectoryRows, Kind, Node, OutOfMemory, PageMap, Row, RowList, RowName, Tag, TaggedNode,
};
use std::alloc::Global;

/// The tag of a slot, with sequence 1.
pub fn tag(slot: u32) -> Tag {
    Tag { slot, seq: 1 }
}

/// A row.
pub fn row(alloc: Global, slot: u32, kind: Kind, name: &[u8]) -> Result<Row, OutOfMemory> {
    Ok(Row {
        tag: tag(slot),
        kind,
        name: RowName::copy_of(alloc, name)?,
    })
}

/// One row.
pub fn one(alloc: Global, slot: u32, row: Row) -> Result<DirectoryRows, OutOfMemory>
    ensures { IfOk result (λ one. NamesOnce one.rows) }
{
    let mut rows = Vec::new(alloc);
    rows.push(row)?;
    Ok(DirectoryRows {
        dir: tag(slot),
        rows: RowList::from_vec(rows),
    })
}

/// Two rows of two names; rows of one name are answered as out of memory.
pub fn two(alloc: Global, slot: u32, first: Row, second: Row) -> Result<DirectoryRows, OutOfMemory>
    ensures { IfOk result (λ one. NamesOnce one.rows) }
{
    if second.name.as_slice() == first.name.as_slice() {
        return Err(OutOfMemory);
    }
    let mut rows = Vec::new(alloc);
    rows.push(first)?;
    rows.push(second)?;
    Ok(DirectoryRows {
        dir: tag(slot),
        rows: RowList::from_vec(rows),
    })
}

/// Adds a directory.
pub fn put(all: &mut Vec<DirectoryRows>, one: DirectoryRows) -> Result<(), OutOfMemory>
    requires all { AreOnce all.old.items }
    requires one { NamesOnce one.rows }
    ensures { OnOk result (AreOnce all.new.items) }
{
    all.push(one)?;
    Ok(())
}

/// An empty file.
pub fn file(alloc: Global, slot: u32, links: u32) -> TaggedNode {
    TaggedNode {
        tag: tag(slot),
        links,
        node: Node::File {
            uid: 1,
            gid: 2,
            size: 3,
            logged: false,
            pages: PageMap::new(alloc),
        },
    }
}

/// A directory.
pub fn directory(slot: u32) -> TaggedNode {
    TaggedNode {
        tag: tag(slot),
        links: 1,
        node: Node::Directory { uid: 0, gid: 0 },
    }
}
