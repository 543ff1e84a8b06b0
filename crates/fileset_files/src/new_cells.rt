//! The records in the first cell of a new file or directory.
ghost use Rattle.std.specs.Prelude.{◌≡◌, IfOk};
ghost use Rattle.fileset_files.specs.Creation.{AreNew, AreNewFile, new_attributes};

use file_chains::{Kind, OutOfMemory, Record, RecordList, Tag, Version, empty_short, put_among};
use std::alloc::Global;

/// What is given for a new file or directory: its kind, its owner, and the number of the clone at
/// which it is born.
#[derive(Clone, Copy, Debug, PartialEq, Eq)]
pub struct NewFile {
    pub kind: Kind,
    pub uid: u32,
    pub gid: u32,
    pub birth: u64,
}

/// The record of attributes of a new file.
fn attributes_of(what: &NewFile) -> Record
    ensures { result ≡ new_attributes what.now }
{
    Record::Attributes {
        kind: match what.kind {
            Kind::File => 1,
            Kind::Directory => 2,
        },
        uid: what.uid,
        gid: what.gid,
        flags: 0,
        size: 0,
        keep: 65_536,
        links: 1,
        birth: what.birth,
        unsynced: 0,
    }
}

/// The records of attributes and of extents of a new file's first cell.
fn file_records(alloc: Global, version: Version, what: &NewFile) -> Result<RecordList, OutOfMemory>
    ensures { IfOk result (AreNewFile version what.now) }
{
    let none = RecordList::from_vec(Vec::new(alloc));
    let one = put_among(alloc, none.as_slice(), &attributes_of(what))?;
    put_among(alloc, one.as_slice(), &empty_short(version))
}

/// The records of a new file's first cell.
pub(crate) fn first_records(
    alloc: Global,
    version: Version,
    what: &NewFile,
    tag: &Tag,
) -> Result<RecordList, OutOfMemory>
    ensures { IfOk result (AreNew version what.now tag.now) }
{
    prove!(what.uid <= u32::MAX);
    prove!(what.gid <= u32::MAX);
    prove!(what.birth <= u64::MAX);
    prove!(tag.slot <= u32::MAX);
    prove!(tag.seq <= u16::MAX);
    let records = file_records(alloc, version, what)?;
    match what.kind {
        Kind::File => Ok(records),
        Kind::Directory => put_among(
            alloc,
            records.as_slice(),
            &Record::Parent {
                slot: tag.slot,
                seq: tag.seq,
            },
        ),
    }
}
