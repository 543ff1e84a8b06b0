//! The script language and the text of histories: what the lines of a script say, and the line of
//! a command with its reply.
#![tactic(auto)]

mod fault;
mod history;
mod reading;
mod refusal_text;
mod reply_text;
mod script;
mod statement;
mod words;

pub use fault::FaultKind;
pub use history::history_line;
pub use reading::read_script;
pub use refusal_text::refusal_number;
pub use script::{Script, ScriptFault, Section, SectionList};

// What stands below and is named above.
pub use command_text::{
    Actor, Bytes, Entry, ExtentItem, FilesetItem, FilesetName, Listing, Name, NameItem,
    OutOfMemory, Owner, Path, Place, Refusal, Reply, VolumeItem, WordFault, command, fileset,
    halves, has_byte, known_verb, number, number_within, parts, runs_are_maximal, small_number,
};

/// Names of the crate `fileset_values` that are other things here.
pub mod from_fileset_values {
    pub use command_text::from_fileset_values::Command;
}

/// Names of the crate `word_forms` that are other things here.
pub mod from_word_forms {
    pub use command_text::from_word_forms::{bytes, name};
}
