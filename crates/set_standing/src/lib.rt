//! Laws of a domain that stands around a fileset while the files, directories or names of that one
//! change, each the contract of a function without a body.
#![tactic(auto)]

mod around;
mod calls;
mod changes;
mod commands;
mod directories;
mod files;
mod indexes;
mod laws;
mod names_files;
mod pages;
mod parts;
mod removing;

pub use around::{a_domain_around_a_fileset_is_sound, all_stays_around, changes_around_join};
pub use calls::{
    all_stands_around_a_call_that_does_nothing, all_stands_around_a_file_that_is_made,
    all_stands_around_a_parent_that_is_said, all_stands_around_links_that_are_set,
};
pub use changes::{
    a_file_is_cut, a_file_is_described, a_new_file_is_empty, a_page_is_placed, a_page_is_written,
    files_agree, live_files_are_seen,
};
pub use commands::{
    a_file_is_truncated, a_file_is_written, pages_are_put_in, the_last_page_is_cleared,
};
pub use directories::names_keep_directories;
pub use files::{
    all_stands_around_a_file_that_gets_a_page, all_stands_around_a_file_that_is_cut,
    all_stands_around_a_file_that_is_described, all_stands_around_a_page_of_a_file_that_is_put,
};
pub use indexes::{
    all_stands_around_an_index_page_that_is_put_in, all_stands_around_an_index_page_that_is_written,
};
pub use laws::{a_fileset_of_new_names_stands, names_keep_files};
pub use names_files::a_fileset_of_one_changed_file_stands;
pub use pages::{
    all_stands_around_a_directory_that_gets_a_page, all_stands_around_a_page_that_is_written,
};
pub use parts::{changes_of_parts_join, parts_that_stay_keep_all_around};
pub use removing::{
    all_goes_on_where_a_file_of_any_slot_is_taken_away,
    all_stands_around_a_file_that_is_taken_away, files_of_any_slot_belong_together,
    filesets_stay_where_a_file_of_what_is_removed_goes,
};
