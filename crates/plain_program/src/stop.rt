//! What stops a command.
ghost use Rattle.std.specs.Prelude.{◌≡◌};
ghost use Rattle.legal_histories.specs.fileset_model.Paths.{refuse_if as refusal_if};
ghost use Rattle.plain_program.specs.Stops.{Refuses};
ghost use Rattle.plain_program.specs.declared.stop.Stop.TheVariants as stops;

use legal_histories::{OutOfMemory, Refusal};

/// Why a command is not carried out.
#[derive(Clone, Copy)]
pub(crate) enum Stop {
    /// A check refuses it.
    Refused(Refusal),
    /// Memory ran out.
    OutOfMemory,
}

impl From<OutOfMemory> for Stop {
    ghost from_gives = { λ _ stop. stop ≡ stops.OutOfMemory };

    fn from(_error: OutOfMemory) -> Stop {
        Stop::OutOfMemory
    }
}

impl From<Refusal> for Stop {
    ghost from_gives = { λ refusal stop. stop ≡ stops.Refused refusal };

    fn from(refusal: Refusal) -> Stop {
        Stop::Refused(refusal)
    }
}

/// The refusal as an error, if the test is true.
pub(crate) fn refuse_if(test: bool, refusal: Refusal) -> Result<(), Refusal>
    ensures { Refuses (refusal_if test refusal) result }
{
    if test {
        return Err(refusal);
    }
    Ok(())
}
