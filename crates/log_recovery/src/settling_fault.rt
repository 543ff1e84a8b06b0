//! Why a log is not settled.
use log_ring::{SlotFault, VolIx};
use std::error::Error;
use std::fmt;

/// Why a log is not settled.
#[derive(Clone, Copy, Debug, PartialEq, Eq)]
pub enum SettleFault {
    /// The last numbers of an anchor or of groups were already given.
    NoNumbers,
    /// The slot of the next anchor was not made ready.
    Slot(SlotFault),
    /// A write or a sync of this volume failed.
    Write { vol: VolIx },
}

impl fmt::Display for SettleFault {
    fn fmt<W: fmt::Write>(&self, f: &mut fmt::Formatter<W>) -> fmt::Result {
        match self {
            SettleFault::NoNumbers => f.write_str("the log has no more numbers"),
            SettleFault::Slot(fault) => write!(f, "{fault}"),
            SettleFault::Write { vol } => {
                write!(f, "a write or a sync of volume {} failed", vol.number())
            }
        }
    }
}

impl Error for SettleFault {}
