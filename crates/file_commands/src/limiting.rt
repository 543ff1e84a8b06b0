//! Setting an owner's limits in a fileset (setquota).
ghost use Rattle.std.specs.Prelude.{◌≡◌, IfErr};
ghost use Rattle.name_commands.specs.fileset_model.Filesets.{FilesetMap};
ghost use Rattle.name_commands.specs.fileset_values.declared.command.Command.TheVariants.{Setquota};
ghost use Rattle.name_commands.specs.domain_memory.Kept.{KeepsKept};
ghost use Rattle.name_commands.specs.domain_memory.Memory.{StandsFor};
ghost use Rattle.name_commands.specs.domain_memory.Staged.{IsSettled, MayGoBack};
ghost use Rattle.name_commands.specs.domain_state.History.{StandsForSome};
ghost use Rattle.name_commands.specs.Ending.{EndsAs, LacksPage};
ghost use Rattle.name_commands.specs.declared.stop.Stop.TheVariants.{NoPage};

use name_commands::{
    DomainMemory, FilesetName, Limits, Owner, Reply, Stop, VolIx, set_limits, slot_of,
};
use std::alloc::Global;

/// Lays an owner's limits in a fileset over a domain's memory. The command is refused with
/// no-fileset if no fileset has this name. A page is wanted only if neither a cell nor a page is
/// free. If the command is stopped, the change may be half made.
pub(crate) fn stage_limits(
    memory: &mut DomainMemory,
    alloc: Global,
    fileset: &FilesetName,
    who: Owner,
    limits: Limits,
    prefer: VolIx,
) -> Result<Reply, Stop>
    requires settled { IsSettled memory.old }
    requires stands { ∥ StandsForSome memory.old ∥₁ }
    requires back { ∥ MayGoBack memory.old ∥₁ }
    ensures ends { (all : FilesetMap) → StandsFor memory.old all → EndsAs memory.new all
        (Setquota fileset.now who limits.files limits.blocks) result }
    ensures kept { KeepsKept memory.old memory.new }
    ensures back { ∥ MayGoBack memory.new ∥₁ }
    ensures cause { IfErr result (λ stop. stop ≡ NoPage → LacksPage
        (Setquota fileset.now who limits.files limits.blocks) memory.old) }
{
    let number = slot_of(memory, fileset)?;
    set_limits(memory, alloc, number, who, limits, prefer)?;
    Ok(Reply::Done)
}
