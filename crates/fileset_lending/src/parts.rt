//! The parts in which the files of a fileset stand, and what calls on them are given.
use domain_memory::{Bitfiles, CellAt, FreeCells, FreeSpace, MetaPages, Version, VolIx};

/// The parts in which the files of a fileset stand. All but the last two are the whole domain's,
/// which lends them for calls on one of its filesets and takes them back.
#[derive(Drop)]
pub struct StoredParts<M: MetaPages> {
    /// The domain's pages of metadata.
    pub pages: M,
    /// Its free space.
    pub space: FreeSpace,
    /// Its free cells.
    pub cells: FreeCells,
    /// The fileset's number and tag directory.
    pub files: Bitfiles,
    /// The first cells of files and directories that were taken away, in the order in which they
    /// went. All that these files have is to be let go.
    pub removed: Vec<CellAt>,
}

/// What calls on the files of a fileset are given besides the parts.
#[derive(Clone, Copy)]
pub struct CallSettings {
    /// The domain's version.
    pub version: Version,
    /// The volume from which cells and pages are taken first.
    pub prefer: VolIx,
    /// How many clones the fileset was given so far. New files are born at that number.
    pub born: u64,
    /// The group of the log for which pages that are given back wait.
    pub group: u64,
}
