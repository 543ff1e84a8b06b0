//! Why a call that stores something may fail.
ghost use Rattle.std.specs.Prelude.{◌≡◌};
ghost use Rattle.page_store.specs.declared.fault.StoreFault.TheVariants.{OutOfMemory};

use sorted_sets::OutOfMemory as NoMemory;
use std::alloc::AllocFailed;
use std::error::Error;
use std::fmt;

/// Why a call that stores something failed: it needed a free page of a volume and there was none,
/// or memory ran out.
#[derive(Clone, Copy, Debug, PartialEq, Eq)]
pub enum StoreFault {
    /// No page was free.
    NoPage,
    /// Memory ran out.
    OutOfMemory,
}

impl fmt::Display for StoreFault {
    fn fmt<W: fmt::Write>(&self, f: &mut fmt::Formatter<W>) -> fmt::Result {
        f.write_str(match self {
            StoreFault::NoPage => "no page is free",
            StoreFault::OutOfMemory => "out of memory",
        })
    }
}

impl Error for StoreFault {}

impl From<NoMemory> for StoreFault {
    ghost from_gives = { λ _ e. e ≡ OutOfMemory };

    fn from(_: NoMemory) -> StoreFault {
        StoreFault::OutOfMemory
    }
}

impl<T: Drop> From<AllocFailed<T>> for StoreFault {
    ghost from_gives = { λ _ e. e ≡ OutOfMemory };

    fn from(_failed: AllocFailed<T>) -> StoreFault {
        StoreFault::OutOfMemory
    }
}
