//! Why a domain is not attached.
ghost use Rattle.std.specs.Prelude.{◌≡◌};
ghost use Rattle.domain_attaching.specs.Attaching.{of_bringing, of_unfit};

use attached_domain::{SettleFault, Unfit, VolIx};
use domain_bringing::BringFault;
use std::error::Error;
use std::fmt;

/// Why a domain is not attached.
#[derive(Clone, Copy, Debug, PartialEq, Eq)]
pub enum AttachFault {
    /// There is no domain: at this page of this volume the first of its rules is broken.
    NotADomain { vol: u32, at: u32 },
    /// A read of this volume failed.
    Fault { vol: VolIx },
    /// There is a domain, but it cannot be attached.
    Unfit { why: Unfit },
    /// Its log was not settled.
    NotSettled { why: SettleFault },
    /// Memory ran out.
    OutOfMemory,
}

impl fmt::Display for AttachFault {
    fn fmt<W: fmt::Write>(&self, f: &mut fmt::Formatter<W>) -> fmt::Result {
        match self {
            AttachFault::NotADomain { vol, at } => {
                write!(f, "not a domain: page {at} of volume {vol} is wrong")
            }
            AttachFault::Fault { vol } => write!(f, "a read of volume {} failed", vol.number()),
            AttachFault::Unfit { why } => write!(f, "the domain is not attached: {why}"),
            AttachFault::NotSettled { why } => write!(f, "the log is not settled: {why}"),
            AttachFault::OutOfMemory => f.write_str("out of memory"),
        }
    }
}

impl Error for AttachFault {}

impl From<BringFault> for AttachFault {
    ghost from_gives = { λ fault e. e ≡ of_bringing fault };

    fn from(fault: BringFault) -> AttachFault {
        match fault {
            BringFault::NotADomain { vol, at } => AttachFault::NotADomain { vol, at },
            BringFault::Fault { vol } => AttachFault::Fault { vol },
            BringFault::OutOfMemory => AttachFault::OutOfMemory,
        }
    }
}

impl From<Unfit> for AttachFault {
    ghost from_gives = { λ why e. e ≡ of_unfit why };

    fn from(why: Unfit) -> AttachFault {
        match why {
            Unfit::OutOfMemory => AttachFault::OutOfMemory,
            why => AttachFault::Unfit { why },
        }
    }
}
