//! Which cells of the bitfile metadata table are free, of each volume of a domain, and the bits of
//! its bitmaps, set and cleared as pages are taken and freed.
#![tactic(auto)]

mod bits;
mod cells;
mod changes;
mod laws;
mod linking;
mod volume;

pub use cells::FreeCells;
pub use changes::mark_changes;
pub use laws::{
    kept_cells_stay, other_cells_stay, other_pages_stay, same_cells_belong, written_cell_stays,
};

// What stands below and is named above.
pub use free_space::{Bitmap, FreeSpace, PageUse, is_wrong_page};
pub use metadata_cells::{
    BitfileSet, CellAt, CellHead, CellKind, ChainFault, ExtentField, Failed, FilesetNo, HoleField,
    Home, HomeSet, Kind, Leftover, MemoryBitfiles, MemoryPages, MetaPages, OutOfMemory, Page,
    Record, RecordList, Span, SpanSet, StoreFault, Tag, UsedCell, Version, VolIx, are_zeros,
    empty_page, entries, find_record, gate, home_number, is_free_cell, kind_of, last_kind_of,
    limits, numbered, put, read_chain, read_head, read_page_head, read_used, u8_at, u16_at, u32_at,
    write_cell,
};
