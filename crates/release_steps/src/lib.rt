//! The steps in which files, pages and tag directories are let go of, and limits are written into
//! a chain of quota cells; and laws of these steps among the calls on files.
#![tactic(auto)]

mod adding;
mod calls;
mod cell;
mod giving_back;
mod laws;
mod limits;
mod quota_adding;
mod reading;
mod records;
mod setting;
mod steps;
mod together;
mod touching;
mod waiting;
mod writing;

pub use adding::{
    a_directory_is_listed_in_order, all_stays_well_where_a_file_is_listed,
    all_stays_well_where_a_page_is_listed, cut_files_are_to_be_trimmed,
    dropped_files_are_to_be_removed, tags_stay_among_where_a_file_is_listed,
    tags_stay_among_where_a_page_is_listed,
};
pub use calls::{
    all_stays_well_over_calls, files_stay_together, given_pages_were_free, new_pages_are_of_files,
    other_files_stay, other_filesets_stay, other_pages_stay, other_tags_stay,
    pages_are_held_exactly, steps_go_on_in_a_file_of_the_domain, the_list_stays,
    what_is_read_through_stays, what_waits_stays, where_steps_go_on_stays,
};
pub use giving_back::{
    a_page_that_is_given_back_waits, all_stays_well_where_a_page_is_given_back,
    all_stays_well_where_pages_are_given_back, no_other_page_is_given_back,
    tags_stay_together_where_a_page_is_given_back,
};
pub use laws::{
    all_stays_well_where_limits_are_set, limits_stay_set_where_other_pages_are_written,
    tags_stay_together_where_limits_are_set,
};
pub use limits::set_limits;
pub use steps::{
    each_step_leaves_less, few_pages_change, files_that_do_not_go_are_there,
    listed_directories_stay_ones, listed_pages_lead_on, nothing_more_is_read_through, others_stay,
    pages_are_held_exactly_over_steps, pages_are_read_as_before, removed_files_are_gone,
    trimmed_files_keep_all, trimmed_files_keep_their_front, what_files_say_stays,
    what_is_left_to_do_stays, what_is_shown_stays,
};
pub use together::{
    all_stays_well, files_of_tags_begin_apart, tags_beside_the_list_stay, tags_stay_together,
};
pub use waiting::{only_pages_let_go_wait, pages_let_go_wait, pages_taken_off_wait, pages_wait_on};

// What stands below and is named above.
pub use quota_book::{Limits, Owner};
pub use release_list::{
    Bitfiles, CellAt, CellKind, Deferred, Entry, ExtentField, FilesetNo, FreeCells, FreeSpace,
    Home, Kind, Leftover, MemoryPages, MetaPages, OutOfMemory, Page, PagePlace, Record, StoreFault,
    Tag, TagDir, UsedCell, Version, VolIx, find_record, lead_past, read_used, set_record,
    take_cell,
};

/// Names of the crate `domain_base` that are other things here.
pub mod from_domain_base {
    pub use release_list::limits;
}
