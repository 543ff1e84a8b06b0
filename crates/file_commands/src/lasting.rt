//! Commands that ask for something to last, or for the mover's job to stop (fsync, sync, cancel).
ghost use Rattle.std.specs.Prelude.{◌≡◌, IfErr};
ghost use Rattle.name_commands.specs.fileset_model.Filesets.{FilesetMap};
ghost use Rattle.name_commands.specs.fileset_values.declared.command.Command.TheVariants.{Cancel, Fsync, Sync};
ghost use Rattle.name_commands.specs.domain_memory.Kept.{KeepsKept};
ghost use Rattle.name_commands.specs.domain_memory.Memory.{StandsFor};
ghost use Rattle.name_commands.specs.domain_memory.Staged.{IsSettled, MayGoBack};
ghost use Rattle.name_commands.specs.domain_state.History.{StandsForSome};
ghost use Rattle.name_commands.specs.Ending.{EndsAs, LacksPage};
ghost use Rattle.name_commands.specs.declared.stop.Stop.TheVariants.{NoPage};

use name_commands::{DomainMemory, Place, Reply, Stop, VolIx, find_place};

/// Asks for a file or directory to last. The command is refused as the rules of filesets say, in
/// their order. Memory stays as it is, and nothing is written yet.
pub(crate) fn stage_fsync(
    memory: DomainMemory,
    place: &Place,
    prefer: VolIx,
) -> (DomainMemory, Result<Reply, Stop>)
    requires settled { IsSettled memory }
    requires stands { ∥ StandsForSome memory ∥₁ }
    requires back { ∥ MayGoBack memory ∥₁ }
    ensures ends { (all : FilesetMap) → StandsFor memory all
        → EndsAs result.0 all (Fsync place.now) result.1 }
    ensures kept { ∥ KeepsKept memory result.0 ∥₁ }
    ensures back { ∥ MayGoBack result.0 ∥₁ }
    ensures cause { IfErr result.1 (λ stop. stop ≡ NoPage → LacksPage (Fsync place.now) memory) }
{
    let (memory, found) = find_place(memory, place, prefer);
    let answer = match found {
        Ok(_) => Ok(Reply::Done),
        Err(stop) => Err(stop),
    };
    (memory, answer)
}

/// Answers a command that nothing refuses and that changes nothing: sync, for which nothing is
/// written yet, and cancel, which the mover's job sees in the history. Memory stays as it is.
pub(crate) fn stage_nothing(memory: DomainMemory) -> (DomainMemory, Result<Reply, Stop>)
    requires settled { IsSettled memory }
    requires back { ∥ MayGoBack memory ∥₁ }
    ensures sync { (all : FilesetMap) → StandsFor memory all → EndsAs result.0 all Sync result.1 }
    ensures cancel { (all : FilesetMap) → StandsFor memory all
        → EndsAs result.0 all Cancel result.1 }
    ensures kept { ∥ KeepsKept memory result.0 ∥₁ }
    ensures back { ∥ MayGoBack result.0 ∥₁ }
    ensures cause { IfErr result.1 (λ stop. ¬ stop ≡ NoPage) }
{
    (memory, Ok(Reply::Done))
}
