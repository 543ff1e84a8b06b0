//! The rack of a domain with its log: changes are appended to the log, forced and brought home,
//! and pages that the log does not have are read and written in place.
#![tactic(auto)]

mod laws;
mod marks;
mod pages;
mod rack;

pub use laws::side_laws;
pub use rack::LoggedRack;

// What stands below and is named above.
pub use meta_log::{
    Anchor, Home, LogFull, MetaLog, MetaPages, OutOfMemory, Page, Rack, VolIx, number_laws,
    redo_laws,
};
