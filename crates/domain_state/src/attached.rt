//! A domain that was made or attached, before its history is begun.
ghost use Rattle.std.specs.Prelude.{◌≡◌};
ghost use Rattle.no_faults.specs.domain_memory.Staged.{IsSettled, MayGoBack};
ghost use Rattle.domain_state.specs.History.{StandsForSome};
ghost use Rattle.domain_state.specs.Rest.{IsAtRest};

use no_faults::{DomainMemory, Rack};

/// A domain that was made or attached: its rack, which is at rest, and what is kept in memory of
/// it.
#[derive(Drop)]
pub struct Attached<R: Rack> {
    pub(crate) rack: R,
    pub(crate) memory: DomainMemory,
    ghost stands: { ∥ StandsForSome memory ∥₁ },
    ghost settled: { ∥ IsSettled memory ∥₁ },
    ghost back: { ∥ MayGoBack memory ∥₁ },
    ghost rest: { ∥ IsAtRest (R.disk rack) memory.frame.anchor ∥₁ },
}

impl<R: Rack> Attached<R> {
    /// The domain on a rack at rest, with what is kept in memory of it. It stands for some
    /// filesets, and no change is laid over it.
    pub fn of_memory(rack: R, memory: DomainMemory) -> Attached<R>
        requires stands { ∥ StandsForSome memory ∥₁ }
        requires settled { ∥ IsSettled memory ∥₁ }
        requires back { ∥ MayGoBack memory ∥₁ }
        requires rest { ∥ IsAtRest (R.disk rack) memory.frame.anchor ∥₁ }
        ensures rack { result.rack ≡ rack }
        ensures memory { result.memory ≡ memory }
    {
        Attached { rack, memory }
    }

    /// The rack as it is. Nothing is written.
    pub fn into_rack(self) -> R
        ensures { result ≡ self.rack }
    {
        let Attached { rack, .. } = self;
        rack
    }
}
