//! Pages of files that stand in place: in frames of a cache, some of them lent to an event, and
//! read from and written to a rack with its log.
#![tactic(auto)]

mod fault;
mod held;
mod homes;
mod in_place;

pub use fault::FrameFault;
pub use held::FilePages;

// What stands below and is named above.
pub use logged_rack::{
    Anchor, Home, LogFull, LoggedRack, MetaLog, MetaPages, OutOfMemory, Page, Rack, VolIx,
    number_laws, redo_laws, side_laws,
};
