//! A domain that stands: its pages, and what is kept in memory beside them, are those of filesets.
//! Definitions, and laws of them, each the contract of a function without a body.
#![tactic(auto)]

mod making;
mod meaning;
mod sets;
mod space;
mod standing;
mod together;

pub use making::a_new_domain_stands;
pub use meaning::{a_domain_reads_so, a_domain_stands_for_one};
pub use sets::an_original_is_a_set;
pub use space::bits_say_the_space;
pub use standing::files_stand_shown;
pub use together::files_belong_together;

// What stands below and is named above.
pub use fileset_shapes::{
    ANCHORS_PAGE, Actor, Anchor, Attributes, BitfileSet, Bitfiles, Bitmap, Bytes, CellAt, CellKind,
    Command, Created, DirectoryRows, DomainFrame, DomainTables, Entry, ExtentItem, ExtentList,
    FilesetEntry, FilesetItem, FilesetList, FilesetName, FilesetNo, FilesetParts, FilesetSeen,
    FilesetSlot, FilesetTable, Filesets, FreeCells, FreeSpace, Home, Kind, Leftover, Limits,
    Member, MemoryBitfiles, MemoryPages, MetaPages, Name, NameFault, NameList, Node, OutOfMemory,
    Owner, Page, PageMap, PagePlace, PageUse, Path, Place, QuotaBook, Rack, Record, RecordList,
    Redone, Refusal, Renamed, Reply, Role, Row, RowList, RowName, Run, RunPlace, SettleFault,
    SlotFault, SlotItem, StoreFault, Tag, TagDir, TagPlace, TaggedFile, TaggedNode, Told, Unlinked,
    Usage, Version, VolIx, VolumeItem, VolumeList,
};
pub use release_steps::Deferred;

// And its functions and modules.
pub use fileset_shapes::from_domain_base::limits;
pub use fileset_shapes::{
    apply, create_at, find_record, is_fileset_name, is_row_name, link_at, list_rows, make_fileset,
    mark_changes, next_cell, read_blocks, read_cell_table, read_head, read_slot, read_tables,
    read_tags, read_used, recover, rename_at, rmdir_at, row_count, settle_log, sync_volumes,
    target, unlink_at, used_tags, walk, write_blocks,
};
pub use release_steps::{lead_past, set_limits};
pub use stored_set::{
    add_page, count_index, count_index_of, count_pages_of, drop_index, index_page_of,
    insert_index_page, kind_of, links_of, make, page_of, remove, set_links, take_out,
    write_index_page, write_page,
};

/// Names of the crate `release_list` that are other things here.
pub mod from_release_list {
    pub use release_steps::Entry;
}
