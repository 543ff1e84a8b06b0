//! Directory pages, the rows that name the files and directories of a directory, and the pages of
//! its index, which say where a hash may have rows.
#![tactic(auto)]

mod change;
mod entry;
mod form;
mod gap;
mod index_page;
mod laws;
mod page;
mod row;
mod rows;
mod search;
mod write;

pub use change::{add_entry, build, remove_entry};
pub use entry::{IndexEntry, name_hash};
pub use form::{is_row_name, is_row_page};
pub use laws::rows_stand_once;
pub use page::{
    add_row, clear_rows, count_rows, find_row, has_room, push_rows, read_rows, remove_row,
};
pub use row::{Row, RowList, RowName, RowsFault};
pub use rows::{RowView, Rows};
pub use search::next_page;

// What stands below and is named above.
pub use cell_records::{Home, Kind, OutOfMemory, Page, Tag, limits};
pub use page_store::{BitfileSet, MemoryBitfiles, MetaPages, StoreFault};
