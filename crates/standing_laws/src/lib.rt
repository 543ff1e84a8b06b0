//! Laws of domains that stand, over calls on their files, each the contract of a function without a
//! body.
#![tactic(auto)]

mod beginning;
mod below;
mod beside;
mod bounds;
mod chains;
mod elsewhere;
mod going;
mod held;
mod indexes;
mod keeping;
mod others;
mod quotas;
mod rest;
mod slots;
mod sources;
mod tables;

pub use beginning::{
    a_domain_stands_on_where_a_fileset_begins, a_fileset_begins, an_empty_fileset_begins,
    filesets_stand_on_where_one_begins, the_fileset_that_begins_is_empty,
};
pub use below::{
    all_below_stands_on, all_below_stands_on_where_a_file_is_listed,
    filesets_stay_where_a_file_is_listed,
};
pub use beside::{
    a_root_alone_stands_in_itself, bits_stay_where_a_fileset_begins,
    bits_stay_where_a_fileset_begins_to_go, bits_stay_where_a_root_is_made,
    bits_stay_where_cells_and_tags_change, bits_stay_where_limits_are_set,
    bits_stay_where_volumes_keep_their_pages, books_stay_where_a_fileset_begins,
    books_stay_where_a_slot_has_another_fileset, books_stay_where_limits_are_set,
    parents_stay_in_other_slots, parents_stay_where_a_fileset_begins,
    parents_stay_where_a_fileset_begins_to_go, parents_stay_where_a_root_is_made,
    parents_stay_where_limits_are_set,
};
pub use bounds::{
    a_domain_stands_on_where_a_fileset_is_bounded, bits_stay_where_a_fileset_is_bounded,
    books_stay_where_a_fileset_is_bounded, files_stand_alone_where_a_fileset_is_bounded,
    parents_stay_where_a_fileset_is_bounded,
};
pub use chains::{
    cells_in_use_stay_in_chains, chains_stand_on, chains_stand_on_where_a_file_is_listed,
    chains_stay_somebodys, entries_stay_to_be_done, indexes_stay, listed_tag_pages_stay,
    quota_cells_stand_on, slots_stand_on,
};
pub use elsewhere::{
    a_slot_stays, filesets_stand_where_others_stay,
    other_slots_stay_where_a_file_goes_with_its_index, other_slots_stay_where_a_fileset_begins,
    other_slots_stay_where_an_index_page_is_put_in,
    other_slots_stay_where_an_index_page_is_written,
};
pub use going::{
    a_domain_stands_on_where_a_fileset_begins_to_go, all_stands_on_where_a_fileset_begins_to_go,
    books_stay_where_a_fileset_begins_to_go, filesets_stand_on_where_one_begins_to_go,
    other_slots_stay_where_a_fileset_begins_to_go,
};
pub use held::held_pages_stand_on;
pub use indexes::{
    all_stands_on_where_a_file_goes_with_its_index, all_stands_on_where_an_index_page_is_put_in,
    all_stands_on_where_an_index_page_is_written,
};
pub use keeping::a_domain_that_is_kept_stands;
pub use others::{
    all_slots_stand_on_where_bits_change, all_stands_on_where_other_pages_change,
    parents_stay_where_bits_change,
};
pub use quotas::{
    a_domain_stands_on_where_limits_are_set, all_below_stands_on_where_limits_are_set,
    chains_stand_on_where_limits_are_set, files_stand_alone_where_limits_are_set,
    filesets_stand_on_where_limits_are_set, held_pages_stand_on_where_limits_are_set,
    other_slots_stay_where_limits_are_set, rest_stands_on_where_limits_are_set,
    tables_stand_on_where_limits_are_set, the_slot_has_the_limits_that_are_set,
};
pub use rest::rest_stands_on;
pub use slots::{
    each_original_stands_in_its_slot, filesets_stand_on, other_slots_keep_their_bytes,
    other_slots_stay,
};
pub use sources::files_stand_alone;
pub use tables::tables_stand_on;

// What stands below and is named above.
pub use domain_standing::{
    ANCHORS_PAGE, Actor, Anchor, Attributes, BitfileSet, Bitfiles, Bitmap, Bytes, CellAt, CellKind,
    Command, Created, Deferred, DirectoryRows, DomainFrame, DomainTables, Entry, ExtentItem,
    ExtentList, FilesetEntry, FilesetItem, FilesetList, FilesetName, FilesetNo, FilesetParts,
    FilesetSeen, FilesetSlot, FilesetTable, Filesets, FreeCells, FreeSpace, Home, Kind, Leftover,
    Limits, Member, MemoryBitfiles, MemoryPages, MetaPages, Name, NameFault, NameList, Node,
    OutOfMemory, Owner, Page, PageMap, PagePlace, PageUse, Path, Place, QuotaBook, Rack, Record,
    RecordList, Redone, Refusal, Renamed, Reply, Role, Row, RowList, RowName, Run, RunPlace,
    SettleFault, SlotFault, SlotItem, StoreFault, Tag, TagDir, TagPlace, TaggedFile, TaggedNode,
    Told, Unlinked, Usage, Version, VolIx, VolumeItem, VolumeList,
};

// And its functions and modules.
pub use domain_standing::{
    add_page, apply, count_index, count_index_of, count_pages_of, create_at, drop_index,
    find_record, index_page_of, insert_index_page, is_fileset_name, is_row_name, kind_of,
    lead_past, limits, link_at, links_of, list_rows, make, make_fileset, mark_changes, next_cell,
    page_of, read_blocks, read_cell_table, read_head, read_slot, read_tables, read_tags, read_used,
    recover, remove, rename_at, rmdir_at, row_count, set_limits, set_links, settle_log,
    sync_volumes, take_out, target, unlink_at, used_tags, walk, write_blocks, write_index_page,
    write_page,
};

/// Names of the crate `release_list` that are other things here.
pub mod from_release_list {
    pub use domain_standing::from_release_list::Entry;
}
