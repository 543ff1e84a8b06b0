//! Pages of domains as lines of text, for the tables of tests: each line tells one thing that
//! stands on a page, and all other bytes of that page are zeros. Each row of a table asks
//! something about such an image, or about a rack that holds it.
#![tactic(auto)]

mod asking;
mod drawing;
mod front;
mod image;
mod pen;
mod places;
mod racks;
mod records;
mod words;

pub use asking::{Asking, answers, image_of};
pub use image::Image;
pub use racks::{empty_rack, frame_of, has_members, is_volume_written, rack_of, zeros};
pub use words::Words;

// What stands below and is named above.
pub use memory_disk::MemoryRack;
pub use page_faults::{
    CellsPage, Span, SpanSet, directory_faults, entry_faults, find_owned, find_shared, has_shared,
    has_wrong_header, has_wrong_slot, holes_faults, is_wrong_page, leads_faults,
    limits_twice_faults, local_faults, pages_twice_faults, read_pages, read_table, table_fault,
    unchained_faults, unnamed_quota_faults,
};
pub use table_words::Told;
