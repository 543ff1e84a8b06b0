//! Why a command gets no answer of its own.
ghost use Rattle.std.specs.Prelude.{◌≡◌};

use domain_changes::{OutOfMemory as NoMemory, Refusal, StoreFault};

/// Why a command that is laid over a domain gets no answer of its own.
#[derive(Clone, Copy, Debug, PartialEq, Eq)]
pub enum Stop {
    /// The rules of filesets forbid it as things stand.
    Refused(Refusal),
    /// It needed a page, and none was free.
    NoPage,
    /// Memory ran out.
    OutOfMemory,
}

impl From<NoMemory> for Stop {
    ghost use Rattle.name_commands.specs.declared.stop.Stop.TheVariants.{OutOfMemory};

    ghost from_gives = { λ _ stop. stop ≡ OutOfMemory };

    fn from(_: NoMemory) -> Stop {
        Stop::OutOfMemory
    }
}

impl From<StoreFault> for Stop {
    ghost use Rattle.name_commands.specs.Ending.{stop_of};

    ghost from_gives = { λ fault stop. stop ≡ stop_of fault };

    fn from(fault: StoreFault) -> Stop {
        match fault {
            StoreFault::NoPage => Stop::NoPage,
            StoreFault::OutOfMemory => Stop::OutOfMemory,
        }
    }
}
