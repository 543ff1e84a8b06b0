//! Commands as text: the words by which each is given, read and written.
#![tactic(auto)]

mod reading;
mod verb;
mod writing;

pub use reading::command;
pub use verb::{Verb, known_verb};
pub use writing::{push_actor, push_command};

// What stands below and is named above.
pub use word_forms::from_fileset_values::{Bytes, Name, Place};
pub use word_forms::{
    Actor, CommandList, Entry, ExtentItem, FilesetItem, FilesetName, Listing, NameItem,
    OutOfMemory, Owner, Path, Refusal, Reply, VolumeItem, WordFault, fileset, halves, has_byte,
    limits, number, number_within, parts, push_bytes, push_name, push_number, runs_are_maximal,
    small_number,
};

/// Names of the crate `fileset_values` that are other things here.
pub mod from_fileset_values {
    pub use word_forms::Command;
}

/// Names of the crate `word_forms` that are other things here.
pub mod from_word_forms {
    pub use word_forms::{bytes, name};
}
