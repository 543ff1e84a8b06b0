//! Pages kept in memory by their homes. Of the clean ones, the least recently used goes when room
//! is wanted. The dirty ones wait for a group of the log before they may be written home.
#![tactic(auto)]

mod cache;
mod frame;
mod frames;
mod queue;

pub use cache::PageCache;
pub use frame::Frame;

// What stands below and is named above.
pub use page_store::{Home, MetaPages, OutOfMemory, Page, VolIx};
