//! Which rules of files' pages, of bitmaps and of the pages of indexes are broken.
#![tactic(auto)]

mod all;
mod bitmaps;
mod homes;
mod indexes;
mod laws;
mod owners;
mod shared;
mod spans;
mod wrong;

pub use all::{bitmap_faults, extent_faults};
pub use homes::index_at;
pub use indexes::{IndexAt, read_indexes};
pub use laws::{wrong_bits_by_layout, wrong_pages_by_layout};
pub use shared::{index_page_faults, is_good_page};

// What stands below and is named above.
pub use filesets_reading::{DomainTables, SeenPages, look_at_chain};
pub use tag_faults::{
    ANCHORS_PAGE, Anchor, Attributes, CellAt, CellLinks, CellTables, CellsPage, CellsWay,
    ChainFault, DomainFrame, Entry, ExtentField, Failed, FileRun, FilesetEntry, FilesetName,
    FilesetNo, FilesetTable, Filesets, HoleField, Home, HomeSet, IndexEntry, IndexWay, Kind,
    Leftover, Member, MemoryPages, MetaPages, OutOfMemory, Page, PageImage, PageWalk, PageWay,
    Rack, ReadPages, Record, RecoverFault, Redone, SlotItem, Span, SpanSet, TableRead, Tag, TagDir,
    TagsWay, Version, VolIx, cells_faults, directory_faults, empty_page, entry_faults, find_owned,
    find_record, find_shared, has_shared, has_wrong_header, has_wrong_slot, holes_faults, image_of,
    is_member, is_wrong_page, leads_faults, limits, limits_twice_faults, local_faults, member_of,
    name_hash, pages_twice_faults, push_number, push_pages, read_blocks, read_chain, read_links,
    read_pages, read_runs, read_table, read_tables, recover, table_fault, tags_faults, u32_at,
    unchained_faults, unnamed_quota_faults,
};

/// Names of the crate `filesets_reading` that are other things here.
pub mod from_filesets_reading {
    pub use filesets_reading::read_tables;
}
