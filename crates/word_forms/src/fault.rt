ghost use Rattle.std.specs.Prelude.{◌≡◌};
ghost use Rattle.word_forms.specs.declared.fault.WordFault.TheVariants as word;

use fileset_values::OutOfMemory;
use std::alloc::AllocFailed;

/// Why a word was not read.
#[derive(Clone, Copy, Debug, PartialEq, Eq)]
pub enum WordFault {
    /// The word is not of its form, or beyond its limit.
    Malformed,
    /// Memory ran out.
    OutOfMemory,
}

impl From<OutOfMemory> for WordFault {
    ghost from_gives = { λ _ fault. fault ≡ word.OutOfMemory };

    fn from(_fault: OutOfMemory) -> WordFault {
        WordFault::OutOfMemory
    }
}

impl<T: Drop> From<AllocFailed<T>> for WordFault {
    ghost from_gives = { λ _ fault. fault ≡ word.OutOfMemory };

    fn from(_fault: AllocFailed<T>) -> WordFault {
        WordFault::OutOfMemory
    }
}
