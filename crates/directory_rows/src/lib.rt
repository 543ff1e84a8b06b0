//! The rows of a directory over any set of files and directories: counted, listed, found by the
//! index or by a scan, added and removed; and paths by rows.
#![tactic(auto)]

mod change;
mod index;
mod laws;
mod led;
mod list;
mod look;
mod pages;
mod rows;
mod walk;

pub use change::{add_row, remove_row};
pub use laws::{empty_is_well_formed, others_stay, rows_decide};
pub use led::{DirectoryRows, Led};
pub use list::list_rows;
pub use look::{find_row, is_empty, row_count};
pub use rows::read_rows;
pub use walk::read_paths;

// What stands below and is named above.
pub use directory_pages::{
    BitfileSet, IndexEntry, Kind, MemoryBitfiles, OutOfMemory, Page, Row, RowList, RowName, Rows,
    RowsFault, StoreFault, Tag, add_entry, build, clear_rows, count_rows, has_room, is_row_name,
    is_row_page, limits, name_hash, next_page, remove_entry,
};

/// Names of the crate `directory_pages` that are other things here.
pub mod from_directory_pages {
    pub use directory_pages::{add_row, find_row, read_rows, remove_row};
}
