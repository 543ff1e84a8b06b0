//! The slots of the fileset table.
ghost use Rattle.std.specs.Prelude.{◌≡◌};
ghost use Rattle.fileset_table.specs.declared.slot.TableFault.TheVariants as table;

use metadata_cells::{CellAt, FilesetNo, Home, OutOfMemory};
use std::alloc::AllocFailed;
use word_forms::{FilesetName, WordFault};

/// Why a page was not read as a fileset table.
#[derive(Clone, Copy, Debug, PartialEq, Eq)]
pub enum TableFault {
    /// The page holds no table.
    Bad,
    /// Memory ran out.
    OutOfMemory,
}

impl From<OutOfMemory> for TableFault {
    ghost from_gives = { λ _ fault. fault ≡ table.OutOfMemory };

    fn from(_fault: OutOfMemory) -> TableFault {
        TableFault::OutOfMemory
    }
}

impl<T: Drop> From<AllocFailed<T>> for TableFault {
    ghost from_gives = { λ _ fault. fault ≡ table.OutOfMemory };

    fn from(_fault: AllocFailed<T>) -> TableFault {
        TableFault::OutOfMemory
    }
}

/// What the table holds for a fileset.
#[derive(Drop)]
pub struct FilesetEntry {
    pub name: FilesetName,
    /// The first page of the fileset's tag directory.
    pub first_tag: Home,
    /// The most files and directories that the fileset may have. A limit of 0 means no limit.
    pub files_limit: u64,
    /// The most blocks of 512 bytes that its files may have. A limit of 0 means no limit.
    pub blocks_limit: u64,
    /// The first cell of the limits of users and groups, if there are any.
    pub quota: Option<CellAt>,
}

/// The content of a slot of the table.
#[derive(Drop)]
pub enum SlotItem {
    Free,
    Original {
        entry: FilesetEntry,
    },
    /// The clone with this number of an original.
    Clone {
        original: FilesetNo,
        number: u64,
        entry: FilesetEntry,
    },
    /// A fileset that is being removed, with what is still to be released of it: its tag pages from
    /// the first one on, and the cells of its limits.
    Removed {
        first_tag: Option<Home>,
        quota: Option<CellAt>,
    },
}
