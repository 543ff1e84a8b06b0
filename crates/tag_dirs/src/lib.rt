//! Tag directories: which tags of a fileset are in use, and the cells that they lead to.
#![tactic(auto)]

mod dir;
mod entries;
mod finding;
mod guess;
mod laws;
mod page;

pub use dir::{ReadyPage, TagDir, TagPlace, put_ready};
pub use entries::unlink_page;
pub use laws::one_directory;
