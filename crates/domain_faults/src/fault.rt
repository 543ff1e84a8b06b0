//! Why it is not known what an image means.
ghost use Rattle.std.specs.Prelude.{◌≡◌};
ghost use Rattle.domain_faults.specs.declared.fault.ReadFault.TheVariants.{OutOfMemory};

use slot_files::{OutOfMemory as NoMemory, VolIx};
use std::alloc::AllocFailed;
use std::error::Error;
use std::fmt;

/// Why it is not known what the volumes of a rack mean.
#[derive(Clone, Copy, Debug, PartialEq, Eq)]
pub enum ReadFault {
    /// A read of this volume failed.
    Fault { vol: VolIx },
    /// Memory ran out.
    OutOfMemory,
}

impl fmt::Display for ReadFault {
    fn fmt<W: fmt::Write>(&self, f: &mut fmt::Formatter<W>) -> fmt::Result {
        match self {
            ReadFault::Fault { vol } => write!(f, "a read of volume {} failed", vol.number()),
            ReadFault::OutOfMemory => f.write_str("out of memory"),
        }
    }
}

impl Error for ReadFault {}

impl From<NoMemory> for ReadFault {
    ghost from_gives = { λ _ e. e ≡ OutOfMemory };

    fn from(_: NoMemory) -> ReadFault {
        ReadFault::OutOfMemory
    }
}

impl<T: Drop> From<AllocFailed<T>> for ReadFault {
    ghost from_gives = { λ _ e. e ≡ OutOfMemory };

    fn from(_failed: AllocFailed<T>) -> ReadFault {
        ReadFault::OutOfMemory
    }
}
