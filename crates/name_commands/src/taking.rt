//! Taking a path away (unlink, rmdir).
ghost use Rattle.std.specs.Prelude.{◌≡◌, ◌≢◌, ◌≤◌, true, IfErr, IfOk, IsSomeAnd, OnOk, length, slice_get};
ghost use Rattle.domain_changes.specs.domain_layout.CellRules.{of_original};
ghost use Rattle.domain_changes.specs.domain_memory.Kept.{KeepsKept};
ghost use Rattle.domain_changes.specs.domain_memory.Memory.{StandsFor};
ghost use Rattle.domain_changes.specs.domain_memory.Staged.{IsSettled, IsStagedForSome, MayGoBack, staged_books};
ghost use Rattle.domain_state.specs.History.{StandsForSome};
ghost use Rattle.domain_changes.specs.fileset_model.Filesets.{FilesetMap};
ghost use Rattle.domain_changes.specs.fileset_model.declared.fileset.FilesetSlot.{FilesetSlot};
ghost use Rattle.domain_changes.specs.fileset_table.Table.{has_name};
ghost use Rattle.domain_changes.specs.fileset_table.declared.slot.FilesetEntry.{FilesetEntry};
ghost use Rattle.domain_changes.specs.name_space.Changes.{taking_checks};
ghost use Rattle.domain_changes.specs.name_space.declared.fault.NameFault.TheVariants.{NoPage as IsNoPage};
ghost use Rattle.name_changes.specs.Looking.{IsLiveIn, LeadsTo};
ghost use Rattle.name_changes.specs.Stages.{HasFileset, IsRefused, KeepsParents, Removes};
ghost use Rattle.name_commands.specs.Ending.{EndsAs, LacksPage};
ghost use Rattle.name_commands.specs.Leaving.{taking};
ghost use Rattle.name_commands.specs.declared.stop.Stop.TheVariants.{NoPage};

use crate::creating::stop_for;
use crate::finding::slot_of;
use crate::leaving::{refund_gone, share_of};
use crate::stop::Stop;
use domain_changes::{
    DomainMemory, FilesetNo, Kind, NameFault, Path, Place, Reply, Tag, Unlinked, VolIx,
};
use name_changes::{look_at, remove_directory, settings_of, unlink};
use std::alloc::Global;

/// Takes away a path of a file, and the file with its last path; or a directory without rows.
fn take_path(
    memory: DomainMemory,
    alloc: Global,
    number: FilesetNo,
    path: &Path,
    of: Kind,
    prefer: VolIx,
) -> (DomainMemory, Result<Unlinked, NameFault>)
    requires stands { ∥ IsStagedForSome memory ∥₁ }
    requires back { ∥ MayGoBack memory ∥₁ }
    requires original { of_original (slice_get memory.table.slots number) ≡ true }
    requires some { 1 ≤ length path.now }
    ensures ok { (all : FilesetMap) (entry : FilesetEntry) (fileset : FilesetSlot)
        → HasFileset memory number all entry fileset
        → IfOk result.1 (λ answer. Removes (taking_checks of path.now) path.now all entry
        fileset result.0 answer.tag answer.gone) }
    ensures err { (all : FilesetMap) (entry : FilesetEntry) (fileset : FilesetSlot)
        → HasFileset memory number all entry fileset
        → IfErr result.1 (IsRefused (taking_checks of path.now) fileset) }
    ensures pages { IfErr result.1 (λ fault. fault ≢ IsNoPage) }
    ensures parents { OnOk result.1 (KeepsParents memory result.0) }
    ensures table { result.0.table ≡ memory.table }
    ensures counted { staged_books result.0 ≡ staged_books memory }
    ensures kept { ∥ KeepsKept memory result.0 ∥₁ }
    ensures back { ∥ MayGoBack result.0 ∥₁ }
{
    let settings = settings_of(&memory, prefer);
    match of {
        Kind::File => unlink(memory, alloc, number, settings, path),
        Kind::Directory => {
            let (memory, taken) = remove_directory(memory, alloc, number, settings, path);
            match taken {
                Ok(tag) => (memory, Ok(Unlinked { tag, gone: true })),
                Err(fault) => (memory, Err(fault)),
            }
        }
    }
}

/// Takes away the path of what was looked at, and refunds it to its owners if it is gone then.
fn take_led(
    memory: DomainMemory,
    alloc: Global,
    number: FilesetNo,
    place: &Place,
    of: Kind,
    tag: Tag,
    kind: Kind,
    prefer: VolIx,
) -> (DomainMemory, Result<Reply, Stop>)
    requires settled { IsSettled memory }
    requires stands { ∥ StandsForSome memory ∥₁ }
    requires back { ∥ MayGoBack memory ∥₁ }
    requires some { 1 ≤ length place.now.path }
    requires named { IsSomeAnd (slice_get memory.table.slots number)
        (λ item. has_name place.now.fileset item ≡ true) }
    requires leads { (all : FilesetMap) (entry : FilesetEntry) (fileset : FilesetSlot)
        → HasFileset memory number all entry fileset
        → LeadsTo place.now.path fileset tag kind }
    requires live { IsLiveIn memory number tag kind }
    ensures ends { (all : FilesetMap) → StandsFor memory all
        → EndsAs result.0 all (taking of place.now) result.1 }
    ensures pages { IfErr result.1 (λ stop. stop ≢ NoPage) }
    ensures kept { ∥ KeepsKept memory result.0 ∥₁ }
    ensures back { ∥ MayGoBack result.0 ∥₁ }
{
    let share = match share_of(&memory, alloc, number, tag, kind) {
        Ok(share) => share,
        Err(_) => return (memory, Err(Stop::OutOfMemory)),
    };
    let (memory, taken) = take_path(memory, alloc, number, &place.path, of, prefer);
    let mut memory = memory;
    let answer = match taken {
        Ok(taken) => {
            refund_gone(&mut memory, number, share, taken.gone);
            Ok(Reply::Done)
        }
        Err(fault) => Err(stop_for(fault, None)),
    };
    (memory, answer)
}

/// Lays the removal of a path of a file, or of a directory, over a domain's memory. The command is
/// refused as the rules of filesets say, in their order. If the command is stopped, the change may
/// be half made.
pub(crate) fn stage_taking(
    memory: DomainMemory,
    alloc: Global,
    place: &Place,
    of: Kind,
    prefer: VolIx,
) -> (DomainMemory, Result<Reply, Stop>)
    requires settled { IsSettled memory }
    requires stands { ∥ StandsForSome memory ∥₁ }
    requires back { ∥ MayGoBack memory ∥₁ }
    requires some { 1 ≤ length place.now.path }
    ensures ends { (all : FilesetMap) → StandsFor memory all
        → EndsAs result.0 all (taking of place.now) result.1 }
    ensures kept { ∥ KeepsKept memory result.0 ∥₁ }
    ensures back { ∥ MayGoBack result.0 ∥₁ }
    ensures cause { IfErr result.1 (λ stop. stop ≡ NoPage
        → LacksPage (taking of place.now) memory) }
{
    let number = match slot_of(&memory, &place.fileset) {
        Ok(number) => number,
        Err(stop) => return (memory, Err(stop)),
    };
    let settings = settings_of(&memory, prefer);
    let (memory, led) = look_at(memory, number, settings, &place.path);
    match led {
        Ok(there) => take_led(memory, alloc, number, place, of, there.0, there.1, prefer),
        Err(refusal) => (memory, Err(Stop::Refused(refusal))),
    }
}
