//! Which rules of the fileset table, of cells and of their chains are broken, page by page.
#![tactic(auto)]

mod all;
mod cells;
mod chain_reading;
mod headers;
mod holes;
mod leads;
mod local;
mod places;
mod reading;
mod records;
mod rules;
mod tables;
mod twice;
mod unchained;

pub use all::cells_faults;
pub use cells::{bytes_of, has_wrong_cell};
pub use chain_reading::read_links;
pub use headers::has_wrong_header;
pub use holes::holes_faults;
pub use leads::leads_faults;
pub use local::local_faults;
pub use places::has_wrong_place;
pub use reading::{TableRead, read_table, table_fault};
pub use tables::{CellTables, CellsPage, read_tables};
pub use twice::{limits_twice_faults, pages_twice_faults};
pub use unchained::unchained_faults;

// What stands below and is named above.
pub use cell_chains::{
    CellLink, CellLinks, CellSet, FileRun, find_owned, find_shared, has_shared, led_cells,
    push_pages, read_runs,
};
pub use page_ways::{
    ANCHORS_PAGE, Anchor, Attributes, CellAt, CellHead, CellKind, CellsWay, ChainFault,
    DomainFrame, Entry, ExtentField, Failed, FilesetEntry, FilesetName, FilesetNo, FilesetTable,
    Filesets, HoleField, Home, HomeSet, IndexEntry, IndexWay, Kind, Leftover, Member, MemoryPages,
    MetaPages, OutOfMemory, Page, PageImage, PageWalk, PageWay, Rack, ReadPages, Record,
    RecoverFault, Redone, SlotItem, Span, SpanSet, Tag, TagDir, TagsWay, Version, VolIx,
    empty_page, find_record, image_of, is_member, is_wrong_page, limits, member_of, name_hash,
    push_number, read_blocks, read_chain, read_pages, read_used, recover, u8_at, u16_at, u32_at,
};
