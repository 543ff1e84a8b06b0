//! The pages of a directory's index as they stand on volumes: each says where the next one stands.
#![tactic(auto)]

mod change;
mod laws;
mod link;
mod walk;

pub use change::{
    NewIndexPage, drop_index, drop_index_page, insert_index_page, link_index_page, new_first,
    put_index_page,
};
pub use laws::{index_is_held, index_is_shown, index_stays};
pub use walk::{count_index, index_home};

// What stands below and is named above.
pub use file_release::{
    Attributes, Bitfiles, Bitmap, CellAt, FilesetNo, FreeCells, FreeSpace, Home, IndexPlace, Kind,
    MemoryPages, MetaPages, OutOfMemory, Page, PagePlace, Record, Run, RunPlace, StoreFault,
    Stripe, Tag, TagDir, Version, VolIx, empty_page, files_are_told, find_record, limits,
    one_file_is_cut, one_file_is_described, one_file_is_made, one_file_is_removed,
    one_index_is_set, one_page_is_placed, one_parent_is_set, one_stripe_is_set, u32_at,
};
