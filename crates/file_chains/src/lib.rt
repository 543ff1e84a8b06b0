//! The chain of cells of a file or directory: its records, and where its pages stand.
#![tactic(auto)]

mod adding;
mod changing;
mod giving;
mod maps;
mod moving;
mod putting;
mod switching;
mod taking;
mod walking;

pub use changing::{clear_record, put_among, set_record, set_two_records};
pub use giving::put_page;
pub use maps::read_file_map;
pub use moving::switch_page;
pub use putting::put_in_records;
pub use switching::switch_in_records;
pub use taking::take_cell;
pub use walking::{CELLS, find_place, map_record, next_cell};

// What stands below and is named above.
pub use extent_records::{
    ExtentMap, PagePlace, Run, RunPlace, cut_from, empty_short, read_map, used_rows,
};
pub use free_cells::{
    BitfileSet, Bitmap, CellAt, CellHead, CellKind, ChainFault, ExtentField, Failed, FilesetNo,
    FreeCells, FreeSpace, HoleField, Home, HomeSet, Kind, Leftover, MemoryBitfiles, MemoryPages,
    MetaPages, OutOfMemory, Page, PageUse, Record, RecordList, Span, SpanSet, StoreFault, Tag,
    UsedCell, Version, VolIx, are_zeros, empty_page, entries, find_record, gate, home_number,
    is_free_cell, is_wrong_page, kind_of, last_kind_of, limits, mark_changes, numbered, put,
    read_chain, read_head, read_page_head, read_used, u8_at, u16_at, u32_at, write_cell,
};
