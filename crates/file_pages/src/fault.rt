//! Why a page got no frame.

use logged_rack::VolIx;
use std::error::Error;
use std::fmt;

/// Why a page got no frame.
#[derive(Clone, Copy, Debug, PartialEq, Eq)]
pub enum FrameFault {
    /// A read of this volume failed.
    Read { vol: VolIx },
    /// Memory ran out.
    OutOfMemory,
}

impl fmt::Display for FrameFault {
    fn fmt<W: fmt::Write>(&self, f: &mut fmt::Formatter<W>) -> fmt::Result {
        match self {
            FrameFault::Read { vol } => write!(f, "a read of volume {} failed", vol.number()),
            FrameFault::OutOfMemory => f.write_str("out of memory"),
        }
    }
}

impl Error for FrameFault {}
