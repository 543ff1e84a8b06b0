//! Commands of clients, answered: each is laid over a domain's memory, and added to the domain's
//! history with its reply. If pages are short, the domain is released and drained for it.
#![tactic(auto)]

mod answering;
mod commands;
mod laws;
mod releasing;
mod room;
mod serving;
mod showing_volumes;
mod telling_volumes;
mod wanting;

pub use commands::command;
pub use laws::{
    what_a_client_is_answered_may_be_committed, what_beginnings_mean, what_is_said_of_filesets,
    what_limits_mean, what_removals_mean,
};
pub use releasing::{drain, release};
pub use serving::is_served;

// What stands below and is named above.
pub use file_commands::{
    Actor, Attached, Bytes, Domain, Entry, FilesetName, FilesetNo, FilesetTable, Home, MakeFault,
    Name, Opening, OutOfMemory, Owner, Page, Path, Place, Rack, Refusal, Reply, SlotItem, Told,
    Version, VolIx, limits, make, recover,
};

/// Names of the crate `fileset_values` that are other things here.
pub mod from_fileset_values {
    pub use file_commands::Command;
}
