//! The fileset table: which filesets a domain has, and where the pages of each begin.
#![tactic(auto)]

mod allowed;
mod laws;
mod reading;
mod rules;
mod slot;
mod table;
mod writing;

pub use laws::{
    a_clone_joins, a_fileset_changes, a_fileset_leaves, a_page_is_one_table, a_slot_comes_back,
    an_original_joins, written_and_read,
};
pub use slot::{FilesetEntry, SlotItem, TableFault};
pub use table::FilesetTable;

// What stands below and is named above.
pub use fileset_model::{Limits, Usage};
pub use metadata_cells::{
    CellAt, FilesetNo, Home, MemoryPages, MetaPages, OutOfMemory, Page, Record, Tag, VolIx, limits,
};
pub use word_forms::{FilesetName, Owner, Refusal, is_fileset_name, push_number};
