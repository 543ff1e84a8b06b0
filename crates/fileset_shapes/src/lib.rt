//! The plain reading of a domain's filesets up to their bytes: for each fileset a list of its files
//! with the homes of their pages. It is slow, and follows the definitions line by line; with laws
//! of the pages on which it depends.
#![tactic(auto)]

mod clones;
mod files;
mod fileset_clones;
mod fileset_laws;
mod fileset_sources;
mod filling;
mod found;
mod indexes;
mod laws;
mod limits;
mod member_laws;
mod originals;
mod own;
mod shape_filling;
mod shape_laws;
mod shapes;
mod sources;
mod tags;

pub use clones::read_of_clone;
pub use files::FilesetFiles;
pub use fileset_laws::slots_have_shapes;
pub use fileset_sources::tags_of_both;
pub use filling::fill_pages;
pub use found::{FilesetSeen, TaggedFile};
pub use laws::rows_lead_as_names;
pub use limits::{read_quotas, set_limits};
pub use member_laws::{faults_within, filesets_within};
pub use shape_filling::read_node;
pub use shape_laws::shapes_agree;
pub use shapes::{read_slot, read_slots};
pub use tags::used_tags;

// What stands below and is named above.
pub use filesets_reading::{
    ANCHORS_PAGE, Actor, Anchor, Attributes, BitfileSet, Bitfiles, Bitmap, Bytes, CellAt, CellKind,
    Command, Created, DirectoryRows, DomainTables, Entry, ExtentItem, ExtentList, FilesetEntry,
    FilesetItem, FilesetList, FilesetName, FilesetNo, FilesetParts, FilesetSlot, FilesetTable,
    Filesets, FreeCells, FreeSpace, Home, HomeSet, Kind, Leftover, Limits, Member, MemoryBitfiles,
    MemoryPages, MetaPages, Name, NameFault, NameList, Node, OutOfMemory, Owner, Page, PageMap,
    PagePlace, PageUse, Path, Place, QuotaBook, Rack, Record, RecordList, Redone, Refusal, Renamed,
    Reply, Role, Row, RowList, RowName, Rows, Run, RunPlace, SeenPages, SettleFault, SlotFault,
    SlotItem, StoreFault, Tag, TagDir, TagPlace, TaggedNode, Told, Unlinked, Usage, Version, VolIx,
    VolumeItem, VolumeList,
};
pub use page_ways::DomainFrame;

// And its functions and modules.
pub use filesets_reading::{
    apply, count_rows, create_at, find_record, is_fileset_name, is_row_name, is_row_page, link_at,
    list_rows, make_fileset, mark_changes, next_cell, read_blocks, read_cell_table, read_domain,
    read_head, read_rows, read_tables, read_tags, read_used, recover, rename_at, rmdir_at,
    row_count, settle_log, sync_volumes, target, unlink_at, walk, write_blocks,
};

/// Names of the crate `domain_base` that are other things here.
pub mod from_domain_base {
    pub use filesets_reading::limits;
}
