//! The files and directories of the filesets of a domain as the rules of directories need them,
//! from its tables and cells alone. It does not matter where pages of files are said to stand.
#![tactic(auto)]

mod chains;
mod files;
mod homes;
mod indexes;
mod members;
mod places;
mod records;
mod runs;
mod said;
mod sizes;
mod slots;
mod tags;

pub use indexes::read_slot_indexes;
pub use slots::read_slot_files;

// What stands below and is named above.
pub use index_row_faults::{
    ANCHORS_PAGE, Anchor, CellLinks, CellsWay, DomainFrame, DomainTables, Entry, Failed, FileRun,
    FileThere, FilesetNo, FilesetTable, Filesets, Home, HomeSet, IndexWay, Member, MemoryPages,
    MetaPages, OutOfMemory, Page, PageImage, PageWalk, PageWay, Rack, ReadPages, RecoverFault,
    Redone, SlotItem, TableRead, TagsWay, Version, VolIx, bitmap_faults, cells_faults, empty_page,
    extent_faults, image_of, index_page_faults, insert_directory_faults, insert_wrong_indexes,
    is_member, limits, member_of, push_number, read_blocks, read_filesets, read_indexes,
    read_links, read_rows, read_runs, read_table, read_tables, recover, tags_faults,
};

/// Names of the crate `filesets_reading` that are other things here.
pub mod from_filesets_reading {
    pub use index_row_faults::from_filesets_reading::read_tables;
}
