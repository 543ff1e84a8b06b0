//! The attributes of a file or directory.
ghost use Rattle.std.specs.Prelude.{◌≡◌};
ghost use Rattle.fileset_files.specs.Changes.{with_attributes as changed};
ghost use Rattle.fileset_files.specs.Truncation.{resized};
ghost use Rattle.fileset_files.specs.Files.{attributes_in, keep_in, says_remove as removes};

use file_chains::{Kind, Leftover, Record};

/// The attributes of a file or directory: its kind, its owner, whether its data is logged, its size
/// in bytes, and how many rows name it.
#[derive(Clone, Copy, Debug, PartialEq, Eq)]
pub struct Attributes {
    pub kind: Kind,
    pub uid: u32,
    pub gid: u32,
    pub is_logged: bool,
    pub size: u64,
    pub links: u32,
}

/// The attributes that a record holds, if it is a record of attributes.
pub(crate) fn read_attributes(value: &Record) -> Option<Attributes>
    ensures { result ≡ attributes_in value.now }
{
    match value {
        Record::Attributes {
            kind,
            uid,
            gid,
            flags,
            size,
            links,
            ..
        } => Some(Attributes {
            kind: if *kind == 2 {
                Kind::Directory
            } else {
                Kind::File
            },
            uid: *uid,
            gid: *gid,
            is_logged: *flags == 1,
            size: *size,
            links: *links,
        }),
        _ => None,
    }
}

/// How many of its first pages a file keeps, by its record of attributes.
pub(crate) fn read_keep(value: &Record) -> Option<u32>
    ensures { result ≡ keep_in value.now }
{
    match value {
        Record::Attributes { keep, .. } => Some(*keep),
        _ => None,
    }
}

/// Whether a record of work that is left says that the whole file goes.
pub(crate) fn says_remove(value: &Record) -> bool
    ensures { result ≡ removes value.now }
{
    match value {
        Record::Pending { what } => match what {
            Leftover::Remove => true,
            Leftover::Trim => false,
        },
        _ => false,
    }
}

/// The record of attributes with these, and all else as in the old one.
pub(crate) fn with_attributes(was: &Record, value: &Attributes) -> Record
    ensures { result ≡ changed value.now was.now }
{
    match was {
        Record::Attributes {
            keep,
            birth,
            unsynced,
            ..
        } => Record::Attributes {
            kind: match value.kind {
                Kind::File => 1,
                Kind::Directory => 2,
            },
            uid: value.uid,
            gid: value.gid,
            flags: u32::from(value.is_logged),
            size: value.size,
            keep: *keep,
            links: value.links,
            birth: *birth,
            unsynced: *unsynced,
        },
        _ => *was,
    }
}

/// A record of attributes with this size. If `lowered` has a number, the file keeps that many
/// pages. All else is as in the old record.
pub(crate) fn with_size(was: &Record, size: u64, lowered: &Option<u32>) -> Record
    ensures { result ≡ resized size lowered.now was.now }
{
    match was {
        Record::Attributes {
            kind,
            uid,
            gid,
            flags,
            keep,
            links,
            birth,
            unsynced,
            ..
        } => Record::Attributes {
            kind: *kind,
            uid: *uid,
            gid: *gid,
            flags: *flags,
            size,
            keep: lowered.unwrap_or(*keep),
            links: *links,
            birth: *birth,
            unsynced: *unsynced,
        },
        _ => *was,
    }
}
