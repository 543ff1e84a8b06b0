//! The cells of the bitfile metadata table, and their chains.
#![tactic(auto)]

mod chain;
mod head;
mod laws;
mod list;
mod page;
mod reading;
mod records;
mod used;
mod writing;

pub use chain::{ChainFault, key_of, may_follow, read_chain};
pub use head::{CellHead, CellKind};
pub use laws::{chains_apart_stay, chains_are_linked, one_cell_stands};
pub use list::RecordList;
pub use page::{PageHead, empty_page, is_free_cell, read_page_head, set_next};
pub use reading::{kind_of, read_head};
pub use used::{UsedCell, find_record, read_used};
pub use writing::{clear_cell, write_cell};

// What stands below and is named above.
pub use cell_records::{
    ExtentField, HoleField, Leftover, Record, are_zeros, last_kind_of, put, u8_at, u16_at, u32_at,
    u64_at,
};
pub use page_store::{
    BitfileSet, CellAt, Failed, FilesetNo, Home, HomeSet, Kind, MemoryBitfiles, MemoryPages,
    MetaPages, OutOfMemory, Page, Span, SpanSet, StoreFault, Tag, Version, VolIx, entries,
    find_doubled, gate, home_number, limits, numbered,
};
