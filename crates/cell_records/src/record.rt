//! The records of an mcell as values.

/// Consecutive file pages and the pages of a volume that hold them: the file pages `page` to
/// `page + count - 1` stand on volume `vol` from its page `first` on. All zeros name nothing.
#[derive(Clone, Copy, Debug, PartialEq, Eq)]
pub struct ExtentField {
    pub page: u32,
    pub count: u32,
    pub vol: u32,
    pub first: u32,
}

/// Consecutive file pages that a clone keeps as absent: `page` to `page + count - 1`. All zeros
/// name nothing.
#[derive(Clone, Copy, Debug, PartialEq, Eq)]
pub struct HoleField {
    pub page: u32,
    pub count: u32,
}

/// What is left to be done with a file: its extents from `keep` on go, or the whole file goes.
#[derive(Clone, Copy, Debug, PartialEq, Eq)]
pub enum Leftover {
    Trim,
    Remove,
}

/// One record of an mcell.
#[derive(Clone, Copy)]
pub enum Record {
    /// A file or a directory. The kind is 1 for a file and 2 for a directory. The flags are 1 if it
    /// is logged, else 0. The size is in bytes, `keep` is a number of pages and `links` a number of
    /// names. `birth` and `unsynced` are numbers of clones, 0 for none.
    Attributes {
        kind: u32,
        uid: u32,
        gid: u32,
        flags: u32,
        size: u64,
        keep: u32,
        links: u32,
        birth: u64,
        unsynced: u64,
    },
    /// The mcell that a clone's file still reads through, all zeros for none, and how many pages
    /// the file had when it was cloned.
    CloneFile {
        source_vol: u8,
        source_cell: u8,
        source_page: u32,
        frozen: u32,
    },
    /// Extents of a chain's mcell.
    Extents {
        rows: [ExtentField; 16],
    },
    /// The first extents of a file, in its primary mcell.
    ShortExtents {
        rows: [ExtentField; 4],
    },
    /// Holes that a clone keeps.
    Holes {
        rows: [HoleField; 16],
    },
    /// Work that is left.
    Pending {
        what: Leftover,
    },
    /// A user's limits of files and of blocks of 512 bytes, 0 for none.
    UserQuota {
        id: u32,
        files: u64,
        blocks: u64,
    },
    /// A group's limits of files and of blocks of 512 bytes, 0 for none.
    GroupQuota {
        id: u32,
        files: u64,
        blocks: u64,
    },
    /// Where a directory's first index page stands, and how many entries its index has.
    DirIndex {
        vol: u32,
        page: u32,
        entries: u32,
    },
    /// The tag of the directory that holds a directory.
    Parent {
        slot: u32,
        seq: u16,
    },
    /// The volumes of a striped file. Only the first `width` count.
    Stripe {
        width: u8,
        mark: u8,
        vols: [u8; 8],
    },
    /// The volume of a volume's first mcell, its pages and its bitmap pages.
    Volume {
        vol: u32,
        pages: u32,
        bitmap_pages: u32,
    },
    /// Extents of a chain's mcell, spelled in fewer bytes; from version 4 on. An extent of more
    /// than 65,535 pages has no such spelling.
    DenseExtents {
        rows: [ExtentField; 22],
    },
    /// The first extents of a file, in its primary mcell, spelled in fewer bytes; from version 4
    /// on.
    ShortDense {
        rows: [ExtentField; 4],
    },
}

impl Record {
    ghost use Rattle.std.specs.Prelude.{◌≡◌};
    ghost use Rattle.cell_records.specs.Records.{kind_of};

    /// The number of its kind.
    pub fn kind(&self) -> u8
        ensures { result ≡ kind_of self.now }
    {
        match self {
            Record::Attributes { .. } => 1,
            Record::CloneFile { .. } => 2,
            Record::Extents { .. } => 3,
            Record::ShortExtents { .. } => 4,
            Record::Holes { .. } => 5,
            Record::Pending { .. } => 6,
            Record::UserQuota { .. } => 7,
            Record::GroupQuota { .. } => 8,
            Record::DirIndex { .. } => 9,
            Record::Parent { .. } => 10,
            Record::Stripe { .. } => 11,
            Record::Volume { .. } => 12,
            Record::DenseExtents { .. } => 13,
            Record::ShortDense { .. } => 14,
        }
    }
}

/// Bytes that begin no record: the kind that the first byte names, or 0 if there is no byte, and
/// the offset of the field that holds the first wrong byte.
#[derive(Clone, Copy, Debug, PartialEq, Eq)]
pub struct Bad {
    pub kind: u8,
    pub at: usize,
}
