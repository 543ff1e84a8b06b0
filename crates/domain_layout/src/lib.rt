//! What the pages of a domain mean: the filesets that an image of its volumes has, and its faults.
//! Definitions, and laws of them, each the contract of a function without a body.
#![tactic(auto)]

mod cells;
mod faults;
mod filling;
mod images;
mod laws;
mod new_domain;
mod owners;
mod shapes;

pub use cells::{cells_faults_agree, tags_faults_agree};
pub use faults::{faults_agree, lists_agree};
pub use filling::filled_at_homes;
pub use images::image_reads_once;
pub use laws::{extents_have_no_fault, one_filling, one_shape, tables_have_no_fault};
pub use new_domain::{new_domain_has_no_fault, new_domain_has_no_fileset};
pub use owners::owned_once;
pub use shapes::same_shapes;

// What stands below and is named above.
pub use file_release::{
    Attributes, BitfileSet, Bitfiles, Bitmap, CellAt, CellHead, CellKind, ChainFault, ExtentField,
    ExtentMap, Failed, FilesetNo, FreeCells, FreeSpace, HoleField, Home, HomeSet, Kind, Leftover,
    MemoryBitfiles, MemoryPages, MetaPages, OutOfMemory, Page, PagePlace, PageUse, Record,
    RecordList, Run, RunPlace, Span, SpanSet, StoreFault, Tag, TagDir, TagPlace, UsedCell, Version,
    VolIx,
};
pub use fileset_table::{FilesetEntry, FilesetTable, SlotItem, TableFault};
pub use log_recovery::{
    ANCHORS_PAGE, Anchor, FirstPages, Member, PageImage, Rack, RecoverFault, Redone, SettleFault,
    SlotFault,
};
pub use name_space::{
    Actor, Bytes, Command, Created, DirectoryRows, Entry, ExtentItem, ExtentList, FilesetItem,
    FilesetList, FilesetName, FilesetParts, FilesetSlot, FilesetTree, Filesets, IndexEntry, Limits,
    Name, NameFault, NameList, Node, Owner, PageMap, Path, Place, Refusal, Renamed, Reply, Role,
    Row, RowList, RowName, Rows, TaggedNode, Told, Unlinked, Usage, VolumeItem, VolumeList,
};
pub use quota_book::QuotaBook;

// And its functions and modules.
pub use file_release::{
    are_zeros, empty_page, find_record, gate, home_number, is_free_cell, is_wrong_page, kind_of,
    last_kind_of, limits, mark_changes, next_cell, numbered, read_chain, read_file_map, read_head,
    read_page_head, read_used, u8_at, u16_at, u32_at, write_cell,
};
pub use fileset_table::{is_fileset_name, push_number};
pub use log_recovery::{
    close_gates, image_of, is_member, member_of, read_blocks, ready_slot, recover, settle_log,
    sync_volume, sync_volumes, usable_pages, write_anchor, write_blocks, write_label,
};
pub use name_space::{
    apply, count_rows, create_at, is_row_name, is_row_page, link_at, list_rows, make_fileset,
    name_hash, read_rows, rename_at, rmdir_at, row_count, target, unlink_at, walk,
};
