//! Giving a file a second path (link).
ghost use Rattle.std.specs.Prelude.{◌≡◌, ◌≤◌, IfErr, length};
ghost use Rattle.domain_changes.specs.fileset_model.Filesets.{FilesetMap};
ghost use Rattle.domain_changes.specs.fileset_values.declared.command.Command.TheVariants.{Link};
ghost use Rattle.domain_changes.specs.domain_memory.Kept.{KeepsKept};
ghost use Rattle.domain_changes.specs.domain_memory.Memory.{StandsFor};
ghost use Rattle.domain_changes.specs.domain_memory.Staged.{IsSettled, MayGoBack};
ghost use Rattle.domain_state.specs.History.{StandsForSome};
ghost use Rattle.name_commands.specs.Ending.{EndsAs, LacksPage};
ghost use Rattle.name_commands.specs.Naming.{IsNewPath};
ghost use Rattle.name_commands.specs.declared.stop.Stop.TheVariants.{NoPage};

use crate::creating::stop_for;
use crate::finding::slot_of;
use crate::stop::Stop;
use domain_changes::{DomainMemory, Path, Place, Reply, VolIx};
use name_changes::{link, settings_of};
use std::alloc::Global;

/// Lays a second path of a file over a domain's memory. The command is refused as the rules of
/// filesets say, in their order. If the command is stopped, the change may be half made.
pub(crate) fn stage_link(
    memory: DomainMemory,
    alloc: Global,
    place: &Place,
    to: &Path,
    prefer: VolIx,
) -> (DomainMemory, Result<Reply, Stop>)
    requires settled { IsSettled memory }
    requires stands { ∥ StandsForSome memory ∥₁ }
    requires back { ∥ MayGoBack memory ∥₁ }
    requires some { 1 ≤ length place.now.path }
    requires named { IsNewPath to.now }
    ensures ends { (all : FilesetMap) → StandsFor memory all
        → EndsAs result.0 all (Link place.now to.now) result.1 }
    ensures kept { ∥ KeepsKept memory result.0 ∥₁ }
    ensures back { ∥ MayGoBack result.0 ∥₁ }
    ensures cause { IfErr result.1 (λ stop. stop ≡ NoPage
        → LacksPage (Link place.now to.now) memory) }
{
    let number = match slot_of(&memory, &place.fileset) {
        Ok(number) => number,
        Err(stop) => return (memory, Err(stop)),
    };
    let settings = settings_of(&memory, prefer);
    let (memory, linked) = link(memory, alloc, number, settings, &place.path, to);
    let answer = match linked {
        Ok(_) => Ok(Reply::Done),
        Err(fault) => Err(stop_for(fault, None)),
    };
    (memory, answer)
}
