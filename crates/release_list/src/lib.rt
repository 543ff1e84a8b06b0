//! The list of files, pages of files and tag directories that are still to be given back.
#![tactic(auto)]

mod cursor;
mod deferred;
mod ending;
mod entries;
mod list;
mod looking;
mod quotas;
mod release;
mod went;

pub use deferred::Deferred;
pub use list::Entry;
pub use quotas::lead_past;

// What stands below and is named above.
pub use file_release::{
    Bitfiles, CELLS, CellAt, CellHead, CellKind, ExtentField, FilesetNo, FreeCells, FreeSpace,
    Home, Kind, Leftover, MemoryPages, MetaPages, OutOfMemory, Page, PagePlace, Record, RecordList,
    StoreFault, Tag, TagDir, UsedCell, Version, VolIx, find_record, limits, next_cell, read_used,
    set_record, take_cell, write_cell,
};

/// Names of the crate `sorted_sets` that are other things here.
pub mod from_sorted_sets {
    pub use file_release::entries;
}
