//! Which rules of tags, of what they name, and of the slots of the fileset table are broken.
#![tactic(auto)]

mod all;
mod cells;
mod directories;
mod entries;
mod firsts;
mod indexes;
mod late;
mod named;
mod quotas;
mod removed;
mod roots;
mod slots;
mod sources;
mod table;
mod unnamed;

pub use all::tags_faults;
pub use directories::{directory_faults, read_directory};
pub use firsts::entry_faults;
pub use late::late_file_faults;
pub use quotas::unnamed_quota_faults;
pub use roots::root_faults;
pub use slots::has_wrong_slot;
pub use sources::source_faults;
pub use table::{count_slots, slot_number};
pub use unnamed::unnamed_faults;

// What stands below and is named above.
pub use cell_faults::{
    ANCHORS_PAGE, Anchor, Attributes, CellAt, CellLinks, CellTables, CellsPage, CellsWay,
    ChainFault, DomainFrame, Entry, ExtentField, Failed, FileRun, FilesetEntry, FilesetName,
    FilesetNo, FilesetTable, Filesets, HoleField, Home, HomeSet, IndexEntry, IndexWay, Kind,
    Leftover, Member, MemoryPages, MetaPages, OutOfMemory, Page, PageImage, PageWalk, PageWay,
    Rack, ReadPages, Record, RecoverFault, Redone, SlotItem, Span, SpanSet, TableRead, Tag, TagDir,
    TagsWay, Version, VolIx, cells_faults, empty_page, find_owned, find_record, find_shared,
    has_shared, has_wrong_header, holes_faults, image_of, is_member, is_wrong_page, leads_faults,
    limits, limits_twice_faults, local_faults, member_of, name_hash, pages_twice_faults,
    push_number, push_pages, read_blocks, read_chain, read_links, read_pages, read_runs,
    read_table, read_tables, read_used, recover, table_fault, u32_at, unchained_faults,
};
