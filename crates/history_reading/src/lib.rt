//! The lines of histories, read back, and laws of the text of commands and lines: what a history
//! writes is read as the same entry, and no two entries have one line.
#![tactic(auto)]

mod answers;
mod items;
mod kind;
mod laws;
mod lines;
mod reading_back;
mod refusals;

pub use kind::{AnswerKind, answer_kind};
pub use laws::{lines_tell_entries_apart, printed_commands_are_read};
pub use lines::read_line;
pub use reading_back::written_and_read;

// What stands below and is named above.
pub use script_text::from_fileset_values::Command;
pub use script_text::{
    Actor, Bytes, Entry, FaultKind, FilesetItem, FilesetName, Listing, Name, OutOfMemory, Owner,
    Path, Place, Refusal, Reply, ScriptFault, history_line, read_script, runs_are_maximal,
};
