//! What a domain keeps in memory.
use crate::SlotFiles;
use staged_pages::StagedPages;
use standing_laws::{
    CellAt, Deferred, DomainFrame, FilesetNo, FilesetTable, FreeCells, FreeSpace, SlotItem,
};

/// A slot of the fileset table, and what it had before a change that is not kept yet.
#[derive(Drop)]
pub struct ReplacedSlot {
    /// The slot's number.
    pub number: FilesetNo,
    /// What it had.
    pub item: SlotItem,
}

/// What a domain keeps in memory: its pages that belong to an owner, and what is looked up often. A
/// change is laid over most of it, and is kept or taken back as a whole.
#[derive(Drop)]
pub struct DomainMemory {
    /// The anchor that counts, and its version.
    pub frame: DomainFrame,
    /// The pages that belong to an owner, those of files among them.
    pub pages: StagedPages,
    /// Which pages of each volume are free, and which wait.
    pub space: FreeSpace,
    /// Which cells of each volume are free.
    pub cells: FreeCells,
    /// The fileset table, as its page has it.
    pub table: FilesetTable,
    /// What is to be let go of.
    pub list: Deferred,
    /// What is in each of the 32 slots.
    pub slots: Vec<Option<SlotFiles>>,
    /// The slot of the table that the change has set anew, if there is one: one at most.
    pub was: Option<ReplacedSlot>,
    /// The first cells of files that the change leaves to be let go of, whole or only their last
    /// pages, in the order in which they were added. They are put on the list once the change is
    /// kept.
    pub listed: Vec<CellAt>,
}
