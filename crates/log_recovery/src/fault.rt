//! Why a log is not recovered.
ghost use Rattle.std.specs.Prelude.{◌≡◌};
ghost use Rattle.log_recovery.specs.declared.fault.RecoverFault.TheVariants.{OutOfMemory};

use log_ring::{OutOfMemory as NoMemory, VolIx};
use std::alloc::AllocFailed;
use std::error::Error;
use std::fmt;

/// Why a log is not recovered.
#[derive(Clone, Copy, Debug, PartialEq, Eq)]
pub enum RecoverFault {
    /// A read of this volume failed.
    Fault { vol: VolIx },
    /// There is no domain: this page of this volume is the first that is not a domain's.
    NotADomain { vol: u32, at: u32 },
    /// Memory ran out.
    OutOfMemory,
}

impl fmt::Display for RecoverFault {
    fn fmt<W: fmt::Write>(&self, f: &mut fmt::Formatter<W>) -> fmt::Result {
        match self {
            RecoverFault::Fault { vol } => write!(f, "a read of volume {} failed", vol.number()),
            RecoverFault::NotADomain { vol, at } => {
                write!(
                    f,
                    "not a domain: page {at} of volume {vol} has no valid label, anchor or header"
                )
            }
            RecoverFault::OutOfMemory => f.write_str("out of memory"),
        }
    }
}

impl Error for RecoverFault {}

impl From<NoMemory> for RecoverFault {
    ghost from_gives = { λ _ e. e ≡ OutOfMemory };

    fn from(_: NoMemory) -> RecoverFault {
        RecoverFault::OutOfMemory
    }
}

impl<T: Drop> From<AllocFailed<T>> for RecoverFault {
    ghost from_gives = { λ _ e. e ≡ OutOfMemory };

    fn from(_failed: AllocFailed<T>) -> RecoverFault {
        RecoverFault::OutOfMemory
    }
}
