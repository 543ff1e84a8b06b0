//! What every part of the store uses: the versions and limits of a domain, the numbers and places
//! in it, pages and gates, and the two failures that any part may report.
#![tactic(auto)]

pub mod gate;
pub mod limits;
mod page;
mod place;
mod version;

pub use page::Page;
pub use place::{CellAt, FilesetNo, Home, Kind, Tag, VolIx};
pub use std::alloc::AllocError as OutOfMemory;
use std::error::Error;
use std::fmt;
pub use version::Version;

/// A device, a source or a sink refused a call.
#[derive(Clone, Copy, Debug, PartialEq, Eq)]
pub struct Failed;

impl fmt::Display for Failed {
    fn fmt<W: fmt::Write>(&self, f: &mut fmt::Formatter<W>) -> fmt::Result {
        f.write_str("the call was refused")
    }
}

impl Error for Failed {}
