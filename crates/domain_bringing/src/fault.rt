//! Why the pages of a domain are not brought.
ghost use Rattle.std.specs.Prelude.{◌≡◌};
ghost use Rattle.domain_bringing.specs.declared.fault.BringFault.TheVariants.{OutOfMemory};
ghost use Rattle.domain_bringing.specs.Fault.{same_fault, same_recovery};

use domain_faults::{OutOfMemory as NoMemory, RecoverFault, VolIx};
use image_loading::LoadFault;
use std::error::Error;
use std::fmt;

/// Why the pages of a domain are not brought.
#[derive(Clone, Copy, Debug, PartialEq, Eq)]
pub enum BringFault {
    /// There is no domain: at this page of this volume the first of its rules is broken.
    NotADomain { vol: u32, at: u32 },
    /// A read of this volume failed.
    Fault { vol: VolIx },
    /// Memory ran out.
    OutOfMemory,
}

impl fmt::Display for BringFault {
    fn fmt<W: fmt::Write>(&self, f: &mut fmt::Formatter<W>) -> fmt::Result {
        match self {
            BringFault::NotADomain { vol, at } => {
                write!(f, "not a domain: page {at} of volume {vol} is wrong")
            }
            BringFault::Fault { vol } => write!(f, "a read of volume {} failed", vol.number()),
            BringFault::OutOfMemory => f.write_str("out of memory"),
        }
    }
}

impl Error for BringFault {}

impl From<NoMemory> for BringFault {
    ghost from_gives = { λ _ e. e ≡ OutOfMemory };

    fn from(_: NoMemory) -> BringFault {
        BringFault::OutOfMemory
    }
}

impl From<LoadFault> for BringFault {
    ghost from_gives = { λ fault e. e ≡ same_fault fault };

    fn from(fault: LoadFault) -> BringFault {
        match fault {
            LoadFault::Fault { vol } => BringFault::Fault { vol },
            LoadFault::OutOfMemory => BringFault::OutOfMemory,
        }
    }
}

impl From<RecoverFault> for BringFault {
    ghost from_gives = { λ fault e. e ≡ same_recovery fault };

    fn from(fault: RecoverFault) -> BringFault {
        match fault {
            RecoverFault::NotADomain { vol, at } => BringFault::NotADomain { vol, at },
            RecoverFault::Fault { vol } => BringFault::Fault { vol },
            RecoverFault::OutOfMemory => BringFault::OutOfMemory,
        }
    }
}
