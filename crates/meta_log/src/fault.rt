//! Why a log takes no change now.

use std::error::Error;
use std::fmt;

/// What is pending leaves no space for a change: together they are more than one group holds, or
/// fill the ring past its next header. A force, or bringing the log home, makes space.
#[derive(Clone, Copy, Debug, PartialEq, Eq)]
pub struct LogFull;

impl fmt::Display for LogFull {
    fn fmt<W: fmt::Write>(&self, f: &mut fmt::Formatter<W>) -> fmt::Result {
        f.write_str("the log is full until it is forced or brought home")
    }
}

impl Error for LogFull {}
