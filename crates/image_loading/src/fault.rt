//! Why pages could not be brought.
ghost use Rattle.std.specs.Prelude.{◌≡◌};
ghost use Rattle.image_loading.specs.declared.fault.LoadFault.TheVariants.{OutOfMemory as NoMemoryLeft};

use slot_files::{OutOfMemory, VolIx};
use std::alloc::AllocFailed;
use std::error::Error;
use std::fmt;

/// Why pages of metadata could not be brought from a rack.
#[derive(Clone, Copy, Debug, PartialEq, Eq)]
pub enum LoadFault {
    /// A read of this volume failed.
    Fault { vol: VolIx },
    /// Memory ran out.
    OutOfMemory,
}

impl fmt::Display for LoadFault {
    fn fmt<W: fmt::Write>(&self, f: &mut fmt::Formatter<W>) -> fmt::Result {
        match self {
            LoadFault::Fault { vol } => write!(f, "a read of volume {} failed", vol.number()),
            LoadFault::OutOfMemory => f.write_str("out of memory"),
        }
    }
}

impl Error for LoadFault {}

impl From<OutOfMemory> for LoadFault {
    ghost from_gives = { λ _ e. e ≡ NoMemoryLeft };

    fn from(_: OutOfMemory) -> LoadFault {
        LoadFault::OutOfMemory
    }
}

impl<T: Drop> From<AllocFailed<T>> for LoadFault {
    ghost from_gives = { λ _ e. e ≡ NoMemoryLeft };

    fn from(_failed: AllocFailed<T>) -> LoadFault {
        LoadFault::OutOfMemory
    }
}
