//! The files of a fileset over pages of metadata, free space and free cells, as a set of files and
//! directories in which each call changes one thing that is shown; and laws of what the set shows
//! when pages change.
#![tactic(auto)]

mod adding;
mod changes;
mod indexes;
mod inserting;
mod pages;
mod reading;
mod removing;
mod set_laws;
mod stored_laws;
mod whole;

pub use adding::add_page;
pub use changes::{make, set_links};
pub use indexes::{count_index_of, index_page_of, write_index_page};
pub use inserting::insert_index_page;
pub use pages::{count_pages_of, page_of, write_page};
pub use reading::{kind_of, links_of};
pub use removing::{remove, take_out};
pub use set_laws::{
    another_set_stays, attributes_are_set, file_is_made, index_entries_are_said,
    index_page_is_inserted, index_page_is_linked, index_page_is_put, index_page_joins,
    page_is_added, page_is_written, set_is_told, tag_is_taken_out, tag_is_taken_out_with_index,
};
pub use stored_laws::{
    another_set_is_shown_still, one_set_is_shown, sets_are_sound, shown_set_is_at_hand,
};
pub use whole::{directories_stay_whole, files_have_no_index};

// What stands below and is named above.
pub use index_pages::{count_index, drop_index};
