//! How the pages and cells of a file are given back, step by step.
#![tactic(auto)]

mod edits;
mod giving_back;
mod laws;
mod reader;
mod released;
mod releasing;
mod runs;
mod stale;
mod tail;

pub use laws::other_pages_stay_held;
pub use reader::{OwnPages, Reader};
pub use released::Released;
pub use releasing::release_tail;

// What stands below and is named above.
pub use fileset_files::{
    Attributes, BitfileSet, Bitfiles, Bitmap, CELLS, CellAt, CellHead, CellKind, ChainFault,
    ExtentField, ExtentMap, Failed, FilesetNo, FreeCells, FreeSpace, HoleField, Home, HomeSet,
    IndexPlace, Kind, Leftover, MemoryBitfiles, MemoryPages, MetaPages, OutOfMemory, Page,
    PagePlace, PageUse, Record, RecordList, Run, RunPlace, Span, SpanSet, StoreFault, Stripe, Tag,
    TagDir, TagPlace, UsedCell, Version, VolIx, are_zeros, empty_page, entries, files_are_told,
    find_record, gate, home_number, is_free_cell, is_wrong_page, kind_of, last_kind_of, limits,
    mark_changes, next_cell, numbered, one_file_is_cut, one_file_is_described, one_file_is_made,
    one_file_is_removed, one_index_is_set, one_page_is_placed, one_parent_is_set,
    one_stripe_is_set, put, put_among, read_chain, read_file_map, read_head, read_page_head,
    read_used, set_record, take_cell, u8_at, u16_at, u32_at, unlink_page, write_cell,
};
