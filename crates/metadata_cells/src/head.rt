//! The heads of cells.

use page_store::{CellAt, FilesetNo};

/// What a cell in use is for.
#[derive(Clone, Copy, Debug, PartialEq, Eq)]
pub enum CellKind {
    /// The first cell of a file or a directory.
    Primary,
    /// One more cell of a file's or directory's chain.
    Chain,
    /// A cell of a fileset's chain of limits.
    Quota,
    /// The first cell of a volume's first page of cells.
    Volume,
}

/// The head of a cell in use: the next cell of its chain, the tag of its file, the fileset, and
/// what it is for.
#[derive(Clone, Copy, Debug, PartialEq, Eq)]
pub struct CellHead {
    pub next: Option<CellAt>,
    pub slot: u32,
    pub seq: u16,
    pub fileset: Option<FilesetNo>,
    pub kind: CellKind,
}
