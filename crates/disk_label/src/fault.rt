//! What may go wrong with anchors and their slots.

use std::error::Error;
use std::fmt;
use volume_disk::VolIx;

/// Why no anchor can be returned.
#[derive(Clone, Copy, Debug, PartialEq, Eq)]
pub enum AnchorFault {
    /// No anchor counts.
    NoAnchor,
    /// A read of this volume failed.
    Fault { vol: VolIx },
}

impl fmt::Display for AnchorFault {
    fn fmt<W: fmt::Write>(&self, f: &mut fmt::Formatter<W>) -> fmt::Result {
        match self {
            AnchorFault::NoAnchor => write!(f, "no anchor counts"),
            AnchorFault::Fault { vol } => write!(f, "a read of volume {} failed", vol.number()),
        }
    }
}

impl Error for AnchorFault {}

/// Why a slot may not be ready.
#[derive(Clone, Copy, Debug, PartialEq, Eq)]
pub enum SlotFault {
    /// A read of this volume failed.
    Read { vol: VolIx },
    /// A write or a sync of this volume failed.
    Write { vol: VolIx },
}

impl fmt::Display for SlotFault {
    fn fmt<W: fmt::Write>(&self, f: &mut fmt::Formatter<W>) -> fmt::Result {
        match self {
            SlotFault::Read { vol } => write!(f, "a read of volume {} failed", vol.number()),
            SlotFault::Write { vol } => {
                write!(f, "a write or a sync of volume {} failed", vol.number())
            }
        }
    }
}

impl Error for SlotFault {}
