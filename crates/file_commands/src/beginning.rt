//! Making a fileset (mkfset).
ghost use Rattle.std.specs.Prelude.{◌≡◌, true, IfErr};
ghost use Rattle.name_commands.specs.fileset_model.Filesets.{FilesetMap};
ghost use Rattle.name_commands.specs.fileset_values.declared.command.Command.TheVariants.{Mkfset};
ghost use Rattle.name_commands.specs.word_forms.Forms.{is_fileset_name};
ghost use Rattle.name_commands.specs.domain_memory.Kept.{KeepsKept};
ghost use Rattle.name_commands.specs.domain_memory.Memory.{StandsFor};
ghost use Rattle.name_commands.specs.domain_memory.Staged.{IsSettled, MayGoBack};
ghost use Rattle.name_commands.specs.domain_state.History.{StandsForSome};
ghost use Rattle.name_commands.specs.Ending.{EndsAs, LacksPage};
ghost use Rattle.name_commands.specs.declared.stop.Stop.TheVariants.{NoPage};

use name_commands::limits::MAX_FILESETS;
use name_commands::{
    DomainMemory, FilesetName, Refusal, Reply, Stop, VolIx, begin_fileset, count_filesets,
};
use std::alloc::Global;

/// Lays a new fileset over a domain's memory. The command is refused with fileset-exists if a
/// fileset has this name, and with filesets-full if there are 16. A page is wanted only if no slot
/// is free because filesets are still being removed, or no page is free, or only one page and no
/// cell. If the command is stopped, the change may be half made.
pub(crate) fn stage_fileset(
    memory: &mut DomainMemory,
    alloc: Global,
    fileset: &FilesetName,
    prefer: VolIx,
) -> Result<Reply, Stop>
    requires settled { IsSettled memory.old }
    requires stands { ∥ StandsForSome memory.old ∥₁ }
    requires back { ∥ MayGoBack memory.old ∥₁ }
    requires named { is_fileset_name fileset.now ≡ true }
    ensures ends { (all : FilesetMap) → StandsFor memory.old all
        → EndsAs memory.new all (Mkfset fileset.now) result }
    ensures kept { KeepsKept memory.old memory.new }
    ensures back { ∥ MayGoBack memory.new ∥₁ }
    ensures cause { IfErr result (λ stop. stop ≡ NoPage
        → LacksPage (Mkfset fileset.now) memory.old) }
{
    if memory.table.find(fileset.as_slice()).is_some() {
        return Err(Stop::Refused(Refusal::FilesetExists));
    }
    if count_filesets(&memory.table) == MAX_FILESETS {
        return Err(Stop::Refused(Refusal::FilesetsFull));
    }
    let Some(number) = memory.table.free_slot() else {
        return Err(Stop::NoPage);
    };
    let name = fileset.copy(alloc)?;
    begin_fileset(memory, alloc, number, name, prefer)?;
    Ok(Reply::Done)
}
