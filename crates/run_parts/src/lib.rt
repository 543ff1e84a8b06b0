//! The parts of a run: the words of the command line, where a script comes from, where lines go,
//! how a run ends, making a domain, and verifying an image.
#![tactic(auto)]

mod bad_lines;
mod help;
mod making;
mod print;
mod scripts;
mod sinks;
mod sources;
mod status;
mod transfer;
mod verifying;
mod words;

pub use bad_lines::{BadLine, is_place};
pub use help::{HELP, VERSION};
pub use making::make;
pub use print::{PrintError, print_history};
pub use scripts::{in_order, take_script};
pub use sinks::{CodeSink, FaultCodes, MemorySink, Sink, WriterSink};
pub use sources::{MemorySource, ReaderSource, Source};
pub use status::{Status, Unattached};
pub use transfer::{ReadError, read_all, write_all, zeros};
pub use verifying::{DomainCounts, Findings, verify};
pub use words::{Form, LOOK_WORD, OVER_WORD, form_asked};

// What stands below and is named above.
pub use domain_faults::{Failed, push_number};
pub use script_text::{
    FaultKind, ScriptFault, Section, halves, history_line, read_script, small_number,
};
