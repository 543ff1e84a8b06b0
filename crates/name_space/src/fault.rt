//! Why a call that changes names may fail.
ghost use Rattle.std.specs.Prelude.{◌≡◌};

use directory_rows::StoreFault;
use plain_program::Refusal;
use std::error::Error;
use std::fmt;

/// Why a call that changes names failed.
#[derive(Clone, Copy, Debug)]
pub enum NameFault {
    /// The rules of names forbid it as things stand. The set is as it was.
    Refused(Refusal),
    /// The set ran out of pages on the way. What the call had changed so far may stand.
    NoPage,
    /// Memory ran out on the way. What the call had changed so far may stand.
    OutOfMemory,
}

impl From<StoreFault> for NameFault {
    ghost use Rattle.name_space.specs.Changes.{fault_of};

    ghost from_gives = { λ fault e. e ≡ fault_of fault };

    fn from(fault: StoreFault) -> NameFault {
        match fault {
            StoreFault::NoPage => NameFault::NoPage,
            StoreFault::OutOfMemory => NameFault::OutOfMemory,
        }
    }
}

impl fmt::Display for NameFault {
    fn fmt<W: fmt::Write>(&self, f: &mut fmt::Formatter<W>) -> fmt::Result {
        f.write_str(match self {
            NameFault::Refused(_) => "the call is refused",
            NameFault::NoPage => "no page is free",
            NameFault::OutOfMemory => "out of memory",
        })
    }
}

impl Error for NameFault {}
