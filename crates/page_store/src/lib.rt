//! Traits for what the layers between the volumes and the commands work on: pages of metadata by
//! their homes, and files and directories by their tags. A domain and a map in memory both
//! implement them. The maps in memory are here too.
#![tactic(auto)]

mod bitfile_set;
mod fault;
mod memory_bitfiles;
mod memory_pages;
mod meta_pages;
mod misses;
mod paged_file;

pub use bitfile_set::BitfileSet;
pub use fault::StoreFault;
pub use memory_bitfiles::MemoryBitfiles;
pub use memory_pages::MemoryPages;
pub use meta_pages::MetaPages;

// What stands below and is named above.
pub use sorted_sets::{
    CellAt, Failed, FilesetNo, Home, HomeSet, Kind, OutOfMemory, Page, Span, SpanSet, Tag, Version,
    VolIx, entries, find_doubled, gate, home_number, limits, numbered,
};
