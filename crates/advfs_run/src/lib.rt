//! The top call: a run reads a script, answers the commands of its clients over a domain one after
//! another, and prints the history; a domain is made, or its faults are printed. Here are its
//! clauses.
#![tactic(auto)]

mod gates;
mod laws;
mod racks;
mod running;
mod runs;
mod statuses;
mod turns;

pub use gates::{Gate, NoGate};
pub use laws::a_script_is_served;
pub use racks::new_rack;
pub use running::{Ended, run, run_text};
pub use runs::{Ran, run_new, run_on};
pub use turns::{answer_sections, take_turn};

// What stands below and is named above.
pub use client_commands::{Refusal, Reply};
pub use domain_attaching::{
    Actor, Command, Entry, Filesets, OutOfMemory, Rack, Version, VolIx, apply, limits,
};
pub use memory_disk::{FileRack, MemoryRack};
pub use run_parts::{
    BadLine, CodeSink, DomainCounts, Failed, FaultCodes, FaultKind, Form, HELP, LOOK_WORD,
    MemorySink, MemorySource, OVER_WORD, PrintError, ReadError, ReaderSource, ScriptFault, Section,
    Source, Status, Unattached, VERSION, WriterSink, form_asked, halves, history_line, is_place,
    push_number, read_all, read_script, small_number, write_all, zeros,
};
