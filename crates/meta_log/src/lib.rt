//! The log of a domain: changes are appended, made durable as one group, and brought home.
#![tactic(auto)]

mod fault;
mod group;
mod laws;
mod log;
mod slots;

pub use fault::LogFull;
pub use laws::number_laws;
pub use log::MetaLog;

// What stands below and is named above.
pub use log_ring::{
    Anchor, Home, MetaPages, OutOfMemory, Page, Rack, VolIx, limits, read_blocks, redo_laws,
    sync_volume, write_blocks,
};
