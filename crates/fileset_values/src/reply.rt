use crate::listing::Listing;
use crate::names::{Bytes, FilesetName, Name};

/// A row of `list`: a name, and whether it is a directory's.
#[derive(Drop)]
pub struct NameItem {
    pub name: Name,
    pub directory: bool,
}

/// A row of `showfsets`: a fileset and, if it is a clone, its original.
#[derive(Drop)]
pub struct FilesetItem {
    pub fileset: FilesetName,
    pub original: Option<FilesetName>,
}

/// A member volume with its pages of 8,192 bytes.
#[derive(Clone, Copy)]
pub struct VolumeItem {
    pub vol: u32,
    pub pages: u32,
    pub used: u32,
    pub free: u32,
    pub has_log: bool,
    pub closed: bool,
}

/// A run of `count` pages of a file, with the volume on which they stand and the place of the first
/// one there.
#[derive(Clone, Copy)]
pub struct ExtentItem {
    pub page: u32,
    pub count: u32,
    pub vol: u32,
    pub first: u32,
}

/// Names in byte order.
pub type NameList = Listing<NameItem>;

/// Filesets in byte order of their names.
pub type FilesetList = Listing<FilesetItem>;

/// Member volumes in rising order.
pub type VolumeList = Listing<VolumeItem>;

/// Extents in the order of their pages.
pub type ExtentList = Listing<ExtentItem>;

/// Why a command was refused.
#[derive(Clone, Copy, Debug, PartialEq, Eq)]
pub enum Refusal {
    /// No fileset has the name.
    NoFileset,
    /// A fileset has the new name.
    FilesetExists,
    /// A name on the path is missing.
    NoPath,
    /// The path is there.
    Exists,
    /// A directory is needed, and a file stands there.
    NotDirectory,
    /// A file is needed, and a directory stands there.
    IsDirectory,
    /// The directory has names.
    NotEmpty,
    /// The fileset is a clone.
    ReadOnly,
    /// The fileset has a clone.
    HasClone,
    /// The clone's file lost its frozen content for want of a free page.
    OutOfSync,
    /// One more file would pass the owner's limit.
    QuotaFiles { limit: u64, used: u64 },
    /// The blocks that the command asks for would pass the owner's limit.
    QuotaBlocks { limit: u64, used: u64, asked: u64 },
    /// A directory would come below itself.
    IntoItself,
    /// The file would pass 536,870,912 bytes.
    TooFar,
    /// There are 16 filesets.
    FilesetsFull,
    /// A clone has no clone.
    CloneOfClone,
    /// Fewer pages are free than the command may need.
    NoSpace { free: u64, need: u64 },
    /// No such volume, no such member, or too few open ones.
    NoVolume,
    /// The volumes that may take the pages have no room.
    NoRoom { vol: u32, free: u64 },
    /// The only member can't be removed.
    LastVolume,
    /// The volume is a member.
    VolumeTaken,
    /// The volume has too few pages.
    VolumeSmall,
    /// A read of the volume failed.
    ReadFault { vol: u32 },
    /// A write or sync of the volume failed: the domain does nothing more.
    Panicked { vol: u32 },
    /// The job was cancelled.
    Cancelled,
    /// The job moved this many pages, and must be started again.
    Unsettled { moved: u64 },
    /// Memory ran out, and nothing changed.
    OutOfMemory,
    /// The file has 1,000 paths.
    LinksFull,
    /// The file is striped.
    Striped,
}

/// The reply to a command. Sizes are in bytes. A block has 512 bytes and a page has 8,192.
#[derive(Drop)]
pub enum Reply {
    Done,
    /// How many bytes were written, pages moved, or paths a file has.
    Count(u64),
    /// The bytes that were read.
    Read(Bytes),
    Names(NameList),
    FileStat {
        uid: u32,
        gid: u32,
        size: u64,
        pages: u32,
        logged: bool,
    },
    DirStat {
        uid: u32,
        gid: u32,
        rows: u32,
    },
    Filesets(FilesetList),
    Quota {
        files: u64,
        files_limit: u64,
        blocks: u64,
        blocks_limit: u64,
    },
    Volumes(VolumeList),
    Extents(ExtentList),
    Refused(Refusal),
}
