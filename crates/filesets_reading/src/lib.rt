//! The plain reading of a domain's pages if no rule of tables is broken: of its fileset table, of
//! cells, and of tags and what they name. It is slow, and follows only the definitions. It proves
//! that what it reads is there, which nothing else does.
#![tactic(auto)]

mod cells;
mod chains;
mod domain;
mod seen;
mod tables;
mod tags;

pub use cells::read_cell_table;
pub use chains::{look_at_chain, look_at_files};
pub use domain::read_domain;
pub use seen::{SeenPages, end_of, read_original};
pub use tables::{DomainTables, read_tables};
pub use tags::read_tags;

// What stands below and is named above.
pub use domain_layout::{
    ANCHORS_PAGE, Actor, Anchor, Attributes, BitfileSet, Bitfiles, Bitmap, Bytes, CellAt, CellKind,
    ChainFault, Command, Created, DirectoryRows, Entry, ExtentItem, ExtentList, ExtentMap,
    FilesetEntry, FilesetItem, FilesetList, FilesetName, FilesetNo, FilesetParts, FilesetSlot,
    FilesetTable, FilesetTree, Filesets, FreeCells, FreeSpace, Home, HomeSet, Kind, Leftover,
    Limits, Member, MemoryBitfiles, MemoryPages, MetaPages, Name, NameFault, NameList, Node,
    OutOfMemory, Owner, Page, PageMap, PagePlace, PageUse, Path, Place, QuotaBook, Rack, Record,
    RecordList, Redone, Refusal, Renamed, Reply, Role, Row, RowList, RowName, Rows, Run, RunPlace,
    SettleFault, SlotFault, SlotItem, StoreFault, Tag, TagDir, TagPlace, TaggedNode, Told,
    Unlinked, Usage, Version, VolIx, VolumeItem, VolumeList,
};

// And its functions and modules.
pub use domain_layout::{
    apply, count_rows, create_at, find_record, is_fileset_name, is_row_name, is_row_page, limits,
    link_at, list_rows, make_fileset, mark_changes, next_cell, read_blocks, read_chain,
    read_file_map, read_head, read_rows, read_used, recover, rename_at, rmdir_at, row_count,
    settle_log, sync_volumes, target, u16_at, unlink_at, walk, write_blocks,
};
