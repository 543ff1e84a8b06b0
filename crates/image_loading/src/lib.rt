//! All pages at which the rules of a domain look, brought from the volumes of a rack.
#![tactic(auto)]

mod all;
mod broken;
mod directories;
mod domain_tables;
mod fault;
mod homes;
mod indexes;
mod laws;
mod parts;
mod reading;
mod rows;
mod tables;
mod way;

pub use all::load;
pub use domain_tables::load_tables;
pub use fault::LoadFault;
pub use indexes::load_indexes;
pub use laws::brought_pages_agree;
pub use reading::{fetch, fetch_next, fetch_within};
pub use tables::{load_bitmaps, load_cells, load_table, load_tags};
pub use way::load_way;

// What stands below and is named above.
pub use slot_files::{
    Anchor, DomainFrame, FilesetNo, FilesetTable, Home, Member, MemoryPages, MetaPages,
    OutOfMemory, Page, Rack, SlotItem, TableRead, Version, VolIx, empty_page, limits, read_links,
    read_tables,
};
