//! The words of scripts and histories, read and written: numbers, names, paths, places and bytes.
#![tactic(auto)]

mod byte_words;
mod fault;
mod numbers;
mod paths;
mod splitting;

pub use byte_words::{bytes, push_bytes, runs_are_maximal};
pub use fault::WordFault;
pub use numbers::{number, number_within, push_number, small_number};
pub use paths::{
    fileset, is_fileset_name, name, named_path, named_place, place, push_name, push_path,
    push_place,
};
pub use splitting::{halves, has_byte, parts};

// What stands below and is named above.
pub use fileset_values::{
    Actor, Command, CommandList, Entry, ExtentItem, FilesetItem, FilesetName, Listing, NameItem,
    OutOfMemory, Owner, Path, Refusal, Reply, VolumeItem, limits,
};

/// Names of the crate `fileset_values` that are other things here.
pub mod from_fileset_values {
    pub use fileset_values::{Bytes, Name, Place};
}
