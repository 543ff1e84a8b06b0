//! The files and directories of a fileset by their tags, over its tag directory and their cells;
//! and laws of what each call makes of the map from tags to files.
#![tactic(auto)]

mod attributes;
mod bitfiles;
mod creating;
mod giving;
mod indexing;
mod laws;
mod map_laws;
mod moving;
mod new_cells;
mod striping;
mod truncating;

pub use attributes::Attributes;
pub use bitfiles::Bitfiles;
pub use indexing::IndexPlace;
pub use laws::{a_first_page_is_new, a_new_directory_names_none, files_show_once};
pub use map_laws::{
    files_are_one_map, files_are_told, one_file_is_cut, one_file_is_described, one_file_is_made,
    one_file_is_removed, one_index_is_set, one_page_is_placed, one_parent_is_set,
    one_stripe_is_set,
};
pub use new_cells::NewFile;
pub use striping::Stripe;

// What stands below and is named above.
pub use file_chains::{
    BitfileSet, Bitmap, CELLS, CellAt, CellHead, CellKind, ChainFault, ExtentField, ExtentMap,
    Failed, FilesetNo, FreeCells, FreeSpace, HoleField, Home, HomeSet, Kind, Leftover,
    MemoryBitfiles, MemoryPages, MetaPages, OutOfMemory, Page, PagePlace, PageUse, Record,
    RecordList, Run, RunPlace, Span, SpanSet, StoreFault, Tag, UsedCell, Version, VolIx, are_zeros,
    cut_from, empty_page, entries, find_record, gate, home_number, is_free_cell, is_wrong_page,
    kind_of, last_kind_of, limits, map_record, mark_changes, next_cell, numbered, put, put_among,
    put_page, read_chain, read_file_map, read_head, read_map, read_page_head, read_used,
    set_record, take_cell, u8_at, u16_at, u32_at, used_rows, write_cell,
};
pub use tag_dirs::{TagDir, TagPlace, unlink_page};
