//! Removing a fileset (rmfset).
ghost use Rattle.std.specs.Prelude.{◌≡◌, IfErr};
ghost use Rattle.name_commands.specs.fileset_model.Filesets.{FilesetMap};
ghost use Rattle.name_commands.specs.fileset_values.declared.command.Command.TheVariants.{Rmfset};
ghost use Rattle.name_commands.specs.domain_memory.Kept.{KeepsKept};
ghost use Rattle.name_commands.specs.domain_memory.Memory.{StandsFor};
ghost use Rattle.name_commands.specs.domain_memory.Staged.{IsSettled, MayGoBack};
ghost use Rattle.name_commands.specs.domain_state.History.{StandsForSome};
ghost use Rattle.name_commands.specs.Ending.{EndsAs, LacksPage};
ghost use Rattle.name_commands.specs.declared.stop.Stop.TheVariants.{NoPage};

use name_commands::{DomainMemory, FilesetName, Reply, Stop, begin_to_go, slot_of};
use std::alloc::Global;

/// Lays the removal of a fileset over a domain's memory. The command is refused with no-fileset if
/// no fileset has this name. It needs no page. If the command is stopped, nothing has changed.
pub(crate) fn stage_removal(
    memory: &mut DomainMemory,
    alloc: Global,
    fileset: &FilesetName,
) -> Result<Reply, Stop>
    requires settled { IsSettled memory.old }
    requires stands { ∥ StandsForSome memory.old ∥₁ }
    requires back { ∥ MayGoBack memory.old ∥₁ }
    ensures ends { (all : FilesetMap) → StandsFor memory.old all
        → EndsAs memory.new all (Rmfset fileset.now) result }
    ensures kept { KeepsKept memory.old memory.new }
    ensures back { ∥ MayGoBack memory.new ∥₁ }
    ensures cause { IfErr result (λ stop. stop ≡ NoPage
        → LacksPage (Rmfset fileset.now) memory.old) }
{
    let number = slot_of(memory, fileset)?;
    begin_to_go(memory, alloc, number)?;
    Ok(Reply::Done)
}
