//! Moving what stands at a path to another path (rename).
ghost use Rattle.std.specs.Prelude.{◌≡◌, ◌≤◌, true, None, IfErr, IsSomeAnd, length, slice_get};
ghost use Rattle.domain_changes.specs.domain_memory.Kept.{KeepsKept};
ghost use Rattle.domain_changes.specs.domain_memory.Memory.{StandsFor};
ghost use Rattle.domain_changes.specs.domain_memory.Staged.{IsSettled, MayGoBack};
ghost use Rattle.domain_state.specs.History.{StandsForSome};
ghost use Rattle.domain_changes.specs.fileset_model.Filesets.{FilesetMap};
ghost use Rattle.domain_changes.specs.fileset_model.Paths.{node_at, target_refusal};
ghost use Rattle.domain_changes.specs.fileset_values.declared.command.Command.TheVariants.{Rename};
ghost use Rattle.domain_changes.specs.fileset_model.declared.fileset.FilesetSlot.{FilesetSlot};
ghost use Rattle.domain_changes.specs.fileset_table.Table.{has_name};
ghost use Rattle.domain_changes.specs.fileset_table.declared.slot.FilesetEntry.{FilesetEntry};
ghost use Rattle.name_changes.specs.Stages.{HasFileset};
ghost use Rattle.name_commands.specs.Ending.{EndsAs, LacksPage};
ghost use Rattle.name_commands.specs.Leaving.{IsShareOf};
ghost use Rattle.name_commands.specs.Naming.{IsNewPath};
ghost use Rattle.name_commands.specs.declared.stop.Stop.TheVariants.{NoPage};

use crate::creating::stop_for;
use crate::finding::slot_of;
use crate::leaving::{Share, refund_gone, share_led};
use crate::stop::Stop;
use domain_changes::{DomainMemory, FilesetNo, Path, Place, Reply, VolIx};
use name_changes::{look_at, rename, settings_of};
use std::alloc::Global;

/// Moves what stands at a path to a second path, and refunds what it replaces there.
fn rename_over(
    memory: DomainMemory,
    alloc: Global,
    number: FilesetNo,
    place: &Place,
    to: &Path,
    share: Share,
    prefer: VolIx,
) -> (DomainMemory, Result<Reply, Stop>)
    requires settled { IsSettled memory }
    requires stands { ∥ StandsForSome memory ∥₁ }
    requires back { ∥ MayGoBack memory ∥₁ }
    requires some { 1 ≤ length place.now.path }
    requires named { IsNewPath to.now }
    requires slot { IsSomeAnd (slice_get memory.table.slots number)
        (λ item. has_name place.now.fileset item ≡ true) }
    requires share { (all : FilesetMap) (entry : FilesetEntry) (fileset : FilesetSlot)
        → HasFileset memory number all entry fileset → target_refusal fileset to.now ≡ None
        → IsSomeAnd (node_at fileset.tree to.now) (IsShareOf share) }
    ensures ends { (all : FilesetMap) → StandsFor memory all
        → EndsAs result.0 all (Rename place.now to.now) result.1 }
    ensures kept { ∥ KeepsKept memory result.0 ∥₁ }
    ensures back { ∥ MayGoBack result.0 ∥₁ }
{
    let settings = settings_of(&memory, prefer);
    let (memory, moved) = rename(memory, alloc, number, settings, &place.path, to);
    let mut memory = memory;
    let answer = match moved {
        Ok(moved) => {
            refund_gone(&mut memory, number, share, moved.replaced.is_some());
            Ok(Reply::Done)
        }
        Err(fault) => Err(stop_for(fault, None)),
    };
    (memory, answer)
}

/// Lays a move over a domain's memory: what stands at a path moves to a second path, in place of
/// what stands there. The command is refused as the rules of filesets say, in their order. If the
/// command is stopped, the change may be half made.
pub(crate) fn stage_rename(
    memory: DomainMemory,
    alloc: Global,
    place: &Place,
    to: &Path,
    prefer: VolIx,
) -> (DomainMemory, Result<Reply, Stop>)
    requires settled { IsSettled memory }
    requires stands { ∥ StandsForSome memory ∥₁ }
    requires back { ∥ MayGoBack memory ∥₁ }
    requires some { 1 ≤ length place.now.path }
    requires named { IsNewPath to.now }
    ensures ends { (all : FilesetMap) → StandsFor memory all
        → EndsAs result.0 all (Rename place.now to.now) result.1 }
    ensures kept { ∥ KeepsKept memory result.0 ∥₁ }
    ensures back { ∥ MayGoBack result.0 ∥₁ }
    ensures cause { IfErr result.1 (λ stop. stop ≡ NoPage
        → LacksPage (Rename place.now to.now) memory) }
{
    let number = match slot_of(&memory, &place.fileset) {
        Ok(number) => number,
        Err(stop) => return (memory, Err(stop)),
    };
    let settings = settings_of(&memory, prefer);
    let (memory, led) = look_at(memory, number, settings, to);
    let share = match share_led(&memory, alloc, number, led) {
        Ok(share) => share,
        Err(_) => return (memory, Err(Stop::OutOfMemory)),
    };
    rename_over(memory, alloc, number, place, to, share, prefer)
}
