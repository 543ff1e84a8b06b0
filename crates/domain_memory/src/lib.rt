//! What a domain keeps in memory besides the rack that has its volumes: its free space and cells,
//! the files and the book of each slot, and the list of what is to be let go of.
#![tactic(auto)]

mod cells;
mod keeping;
mod laws;
mod listing;
mod making;
mod maps;
mod memory;
mod slots;
mod space;

pub use cells::read_cells;
pub use laws::{changes_leave_what_was_kept, what_is_settled_may_be_kept, what_was_kept_stands};
pub use listing::put_on_list;
pub use memory::{DomainMemory, ReplacedSlot};
pub use slots::{SlotFiles, free_slots, keep_slots, take_back_slots};
pub use space::read_space;

// What stands below and is named above.
pub use domain_making::{MakeFault, NewPages};
pub use staged_pages::StagedPages;
pub use standing_laws::{
    ANCHORS_PAGE, Actor, Anchor, Attributes, BitfileSet, Bitfiles, Bytes, CellAt, CellKind,
    Command, Created, Deferred, DirectoryRows, DomainFrame, DomainTables, Entry, ExtentItem,
    ExtentList, FilesetEntry, FilesetItem, FilesetList, FilesetName, FilesetNo, FilesetParts,
    FilesetSeen, FilesetSlot, FilesetTable, Filesets, FreeCells, FreeSpace, Home, Kind, Leftover,
    Limits, Member, MemoryBitfiles, MemoryPages, MetaPages, Name, NameFault, NameList, Node,
    OutOfMemory, Owner, Page, PageMap, PagePlace, PageUse, Path, Place, QuotaBook, Rack, Record,
    RecordList, Redone, Refusal, Renamed, Reply, Role, Row, RowList, RowName, Run, RunPlace,
    SettleFault, SlotFault, SlotItem, StoreFault, Tag, TagDir, TagPlace, TaggedFile, TaggedNode,
    Told, Unlinked, Usage, Version, VolIx, VolumeItem, VolumeList,
};

// And its functions and modules.
pub use domain_making::pages_to_use;
pub use standing_laws::{
    add_page, apply, count_index, count_index_of, count_pages_of, create_at, drop_index,
    find_record, index_page_of, insert_index_page, is_fileset_name, is_row_name, kind_of,
    lead_past, limits, link_at, links_of, list_rows, make, make_fileset, next_cell, page_of,
    read_blocks, read_head, read_slot, read_tables, read_tags, read_used, recover, remove,
    rename_at, rmdir_at, row_count, set_limits, set_links, settle_log, sync_volumes, take_out,
    target, unlink_at, used_tags, walk, write_blocks, write_index_page, write_page,
};

/// Names of the crate `release_list` that are other things here.
pub mod from_release_list {
    pub use standing_laws::from_release_list::Entry;
}
