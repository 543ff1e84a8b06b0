//! Making a file or directory (create, mkdir).
ghost use Rattle.std.specs.Prelude.{◌≡◌, ◌⊎◌, ◌++◌, ◌∷◌, true, [], None, IfErr, IfOk, IsSomeAnd, slice_get};
ghost use Rattle.domain_changes.specs.fileset_model.Filesets.{FilesetMap};
ghost use Rattle.domain_changes.specs.fileset_model.Paths.{first_refusal};
ghost use Rattle.domain_changes.specs.fileset_model.declared.fileset.FilesetSlot.{FilesetSlot};
ghost use Rattle.domain_changes.specs.fileset_values.declared.reply.Reply.TheVariants.{Done};
ghost use Rattle.domain_changes.specs.quota_book.Book.{Charges};
ghost use Rattle.domain_changes.specs.domain_layout.CellRules.{of_original};
ghost use Rattle.domain_changes.specs.domain_memory.Kept.{KeepsKept};
ghost use Rattle.domain_changes.specs.domain_memory.Memory.{StandsFor};
ghost use Rattle.domain_changes.specs.domain_memory.Staged.{IsSettled, IsStaged, IsStagedForSome, MayGoBack, staged_in};
ghost use Rattle.domain_changes.specs.Charging.{ChangesOneBook};
ghost use Rattle.domain_state.specs.History.{StandsForSome};
ghost use Rattle.domain_changes.specs.name_space.Changes.{Checks};
ghost use Rattle.name_changes.specs.Stages.{IsRefused};
ghost use Rattle.name_commands.specs.Ending.{EndsAs, LacksPage, StopsWith};
ghost use Rattle.name_commands.specs.Naming.{IsNewPath, creation};
ghost use Rattle.name_commands.specs.declared.stop.Stop.TheVariants.{NoPage, OutOfMemory, Refused as StopRefused};

use crate::finding::slot_of;
use crate::stop::Stop;
use domain_changes::{
    DomainMemory, FilesetNo, Kind, NameFault, Place, Refusal, Reply, VolIx, ask_quota, charge,
};
use name_changes::{create, settings_of};
use std::alloc::Global;

/// Why nothing is made if a quota may refuse it too. Refusals by names come first, then
/// refusals by the quota, then no page.
pub(crate) fn stop_for(fault: NameFault, over: Option<Refusal>) -> Stop
    ensures { (checks : Checks) (fileset : FilesetSlot) → IsRefused checks fileset fault
        → StopsWith (first_refusal (checks fileset ++ over ∷ [])) result }
{
    match fault {
        NameFault::Refused(refusal) => Stop::Refused(refusal),
        NameFault::NoPage => match over {
            Some(refusal) => Stop::Refused(refusal),
            None => Stop::NoPage,
        },
        NameFault::OutOfMemory => Stop::OutOfMemory,
    }
}

/// Charges the owners of what was made, if no quota refuses it.
fn charge_new(
    memory: &mut DomainMemory,
    number: FilesetNo,
    uid: u32,
    gid: u32,
    over: Option<Refusal>,
) -> Result<Reply, Stop>
    requires stands { ∥ IsStagedForSome memory.old ∥₁ }
    requires back { ∥ MayGoBack memory.old ∥₁ }
    requires original { of_original (slice_get memory.old.table.slots number) ≡ true }
    ensures ok { IfOk result (λ reply. (reply ≡ Done) × (over ≡ None)
        × ChangesOneBook number (Charges uid gid 1 0) memory.old memory.new) }
    ensures err { IfErr result (λ stop. (stop ≡ OutOfMemory)
        ⊎ IsSomeAnd over (λ refusal. stop ≡ StopRefused refusal)) }
    ensures domain { staged_in memory.new ≡ staged_in memory.old }
    ensures staged { (all : FilesetMap) → IsStaged memory.old all → IsStaged memory.new all }
    ensures kept { KeepsKept memory.old memory.new }
    ensures back { ∥ MayGoBack memory.new ∥₁ }
{
    if let Some(refusal) = over {
        return Err(Stop::Refused(refusal));
    }
    charge(memory, number, uid, gid, 1, 0)?;
    Ok(Reply::Done)
}

/// Lays a new file or directory over a domain's memory. The command is refused as the rules of
/// filesets say, in their order. If the command is stopped, the change may be half made.
pub(crate) fn stage_creation(
    memory: DomainMemory,
    alloc: Global,
    place: &Place,
    kind: Kind,
    uid: u32,
    gid: u32,
    prefer: VolIx,
) -> (DomainMemory, Result<Reply, Stop>)
    requires settled { IsSettled memory }
    requires stands { ∥ StandsForSome memory ∥₁ }
    requires back { ∥ MayGoBack memory ∥₁ }
    requires named { IsNewPath place.now.path }
    ensures ends { (all : FilesetMap) → StandsFor memory all
        → EndsAs result.0 all (creation kind place.now uid gid) result.1 }
    ensures kept { ∥ KeepsKept memory result.0 ∥₁ }
    ensures back { ∥ MayGoBack result.0 ∥₁ }
    ensures cause { IfErr result.1 (λ stop. stop ≡ NoPage
        → LacksPage (creation kind place.now uid gid) memory) }
{
    let number = match slot_of(&memory, &place.fileset) {
        Ok(number) => number,
        Err(stop) => return (memory, Err(stop)),
    };
    let over = ask_quota(&memory, number, uid, gid, 1, 0);
    let settings = settings_of(&memory, prefer);
    let (memory, made) = create(memory, alloc, number, settings, &place.path, kind, uid, gid);
    let mut memory = memory;
    let answer = match made {
        Ok(_) => charge_new(&mut memory, number, uid, gid, over),
        Err(fault) => Err(stop_for(fault, over)),
    };
    (memory, answer)
}
