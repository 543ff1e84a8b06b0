//! A world of one volume for tests of files: pages of metadata in memory, free space, free cells
//! and the files of a fileset, with calls that keep `AreTogether`; the pages of an index on a
//! volume; and lines of calls, read by words and numbers.
#![tactic(auto)]

pub mod calls;
pub mod index_page_world;
pub mod reading;
pub mod states;
pub mod world;

// What stands below and is named above.
pub use index_pages::{Attributes, PagePlace, RunPlace, Stripe, count_index, index_home};
