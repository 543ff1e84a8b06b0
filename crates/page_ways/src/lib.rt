//! Pages that lead from one to the next, read from the first one on as far as possible: tables of
//! cells, tag directories, and indexes of directories.
#![tactic(auto)]

mod frame;
mod walk;
mod ways;

pub use frame::DomainFrame;
pub use walk::{PageWalk, ReadPages, read_pages};
pub use ways::{CellsWay, IndexWay, PageWay, TagsWay};

// What stands below and is named above.
pub use domain_layout::{
    ANCHORS_PAGE, Anchor, Attributes, CellAt, CellHead, CellKind, ChainFault, Entry, ExtentField,
    Failed, FilesetEntry, FilesetName, FilesetNo, FilesetTable, Filesets, HoleField, Home, HomeSet,
    IndexEntry, Kind, Leftover, Member, MemoryPages, MetaPages, OutOfMemory, Page, PageImage, Rack,
    Record, RecordList, RecoverFault, Redone, SlotItem, Span, SpanSet, TableFault, Tag, TagDir,
    UsedCell, Version, VolIx, are_zeros, empty_page, find_record, image_of, is_free_cell,
    is_member, is_wrong_page, kind_of, last_kind_of, limits, member_of, name_hash, push_number,
    read_blocks, read_chain, read_used, recover, u8_at, u16_at, u32_at,
};
