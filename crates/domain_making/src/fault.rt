//! Why no domain is made.
ghost use Rattle.std.specs.Prelude.{◌≡◌};
ghost use Rattle.domain_making.specs.declared.fault.MakeFault.TheVariants.{OutOfMemory};

use domain_layout::{OutOfMemory as NoMemory, VolIx};
use std::error::Error;
use std::fmt;

/// Why no domain is made.
#[derive(Clone, Copy, Debug, PartialEq, Eq)]
pub enum MakeFault {
    /// Volume 1 has only `pages` pages of 8,192 bytes, fewer than a domain needs.
    VolumeSmall { pages: u32 },
    /// A read, a write or a sync of this volume failed.
    Fault { vol: VolIx },
    /// Memory ran out.
    OutOfMemory,
}

impl fmt::Display for MakeFault {
    fn fmt<W: fmt::Write>(&self, f: &mut fmt::Formatter<W>) -> fmt::Result {
        match self {
            MakeFault::VolumeSmall { pages } => {
                write!(
                    f,
                    "volume 1 has {pages} pages, and a domain is made on 160 or more"
                )
            }
            MakeFault::Fault { vol } => write!(f, "a call of volume {} failed", vol.number()),
            MakeFault::OutOfMemory => f.write_str("out of memory"),
        }
    }
}

impl Error for MakeFault {}

impl From<NoMemory> for MakeFault {
    ghost from_gives = { λ _ e. e ≡ OutOfMemory };

    fn from(_: NoMemory) -> MakeFault {
        MakeFault::OutOfMemory
    }
}
