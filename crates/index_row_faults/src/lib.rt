//! Which rules of indexes and their directories' rows are broken, from the indexes and rows that
//! were read of a fileset.
#![tactic(auto)]

mod counts;
mod entries;
mod late;
mod rows;
mod there;
mod totals;
mod undue;
mod wrong;

pub use there::IndexThere;
pub use wrong::{insert_wrong_indexes, wrong_indexes_by_slot};

// What stands below and is named above.
pub use directory_faults::{
    FileThere, insert_directory_faults, insert_few_rows, insert_lost_twice, insert_misplaced,
    insert_names_twice, insert_row_pages, insert_wrong_links, insert_wrong_parents,
    insert_wrong_rows, insert_wrong_sizes, read_rows, tags_of_both, used_tags,
};
pub use filesets_filled::read_filesets;
pub use page_faults::{
    ANCHORS_PAGE, Anchor, Attributes, CellAt, CellLinks, CellsWay, ChainFault, DomainFrame,
    DomainTables, Entry, ExtentField, Failed, FileRun, FilesetNo, FilesetTable, Filesets,
    HoleField, Home, HomeSet, IndexWay, Kind, Leftover, Member, MemoryPages, MetaPages,
    OutOfMemory, Page, PageImage, PageWalk, PageWay, Rack, ReadPages, Record, RecoverFault, Redone,
    SeenPages, SlotItem, TableRead, Tag, TagDir, TagsWay, Version, VolIx, bitmap_faults,
    cells_faults, empty_page, extent_faults, find_record, image_of, index_page_faults, is_member,
    limits, look_at_chain, member_of, push_number, read_blocks, read_chain, read_indexes,
    read_links, read_runs, read_table, read_tables, recover, tags_faults,
};

/// Names of the crate `filesets_reading` that are other things here.
pub mod from_filesets_reading {
    pub use page_faults::from_filesets_reading::read_tables;
}
