//! The values of commands and filesets as plain data: names and paths, commands with their owners
//! and places, replies, and the entries of histories.
#![tactic(auto)]

mod command;
mod entry;
mod listing;
mod names;
mod reply;
mod told;

pub use command::{Actor, Command, CommandList, Owner, Place};
pub use entry::Entry;
pub use listing::Listing;
pub use names::{Bytes, FilesetName, Name, Path};
pub use reply::{
    ExtentItem, ExtentList, FilesetItem, FilesetList, NameItem, NameList, Refusal, Reply,
    VolumeItem, VolumeList,
};
pub use told::Told;

// What stands below and is named above.
pub use domain_base::{Kind, OutOfMemory, Page, Tag, limits};
