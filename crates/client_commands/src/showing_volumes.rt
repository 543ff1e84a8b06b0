//! Commands that show a domain's volumes (showfdmn, showfile).
ghost use Rattle.std.specs.Prelude.{◌≡◌, ◌≤◌, ℕ, IfOk, false, true, slice_get};
ghost use Rattle.file_commands.specs.fileset_model.Filesets.{FilesetMap};
ghost use Rattle.file_commands.specs.fileset_values.declared.command.Command.TheVariants.{Showfdmn, Showfile};
ghost use Rattle.file_commands.specs.fileset_values.declared.command.Place.{Place as PlaceOf};
ghost use Rattle.file_commands.specs.free_space.Spaces.{held_pages, volume_of};
ghost use Rattle.file_commands.specs.legal_histories.State.{State};
ghost use Rattle.file_commands.specs.legal_histories.Volumes.{ShowsMember, ShowsMembers};
ghost use Rattle.file_commands.specs.domain_layout.CellRules.{of_original};
ghost use Rattle.file_commands.specs.domain_memory.Memory.{StandsFor};
ghost use Rattle.file_commands.specs.domain_memory.Staged.{IsSettled, IsStagedForSome, MayGoBack};
ghost use Rattle.file_commands.specs.domain_state.History.{StandsForSome};
ghost use Rattle.file_commands.specs.log_ring.Homes.{IsMember, member_of};
ghost use Rattle.file_commands.specs.domain_state.Opening.{HasVolumesOf};
ghost use Rattle.file_commands.specs.name_changes.Looking.{IsLiveIn, IsSame};
ghost use Rattle.file_commands.specs.name_commands.Ending.{IsLaid, IsServed};
ghost use Rattle.file_commands.specs.name_commands.Placing.{IsPlaced};
ghost use Rattle.client_commands.specs.Shown.{AreHeld, IsShowing, ShowsAs};

use file_commands::limits::MAX_VOLUMES;
use file_commands::{
    Command, DomainMemory, ExtentList, Kind, OutOfMemory, Place, Placed, Refusal, Reply, Stop,
    VolIx, VolumeItem, VolumeList, extents_of, find_place,
};
use std::alloc::Global;

/// Whether a command is one of those that show volumes.
pub(crate) fn shows_volumes(command: &Command) -> bool
    ensures shows { result ≡ true → IsShowing command.now }
    ensures lays { result ≡ false → IsServed command.now → IsLaid command.now }
{
    matches!(command, Command::Showfdmn | Command::Showfile { .. })
}

/// The line of a member. Pages that wait count as free.
fn line_of(memory: &DomainMemory, vol: VolIx) -> VolumeItem
    requires member { IsMember memory.now.frame.anchor vol }
    requires fits { held_pages (volume_of memory.now.space vol)
        ≤ (member_of memory.now.frame.anchor vol).pages }
    ensures vol { result.vol ≡ vol }
    ensures shown { (s : State) → HasVolumesOf memory.now.frame.anchor s → ShowsMember s result }
    ensures held { result.used ≡ held_pages (volume_of memory.now.space vol) }
{
    let member = memory.frame.member(vol);
    let used = memory.space.used_on(vol);
    VolumeItem {
        vol: vol.number(),
        pages: member.pages,
        used,
        free: member.pages.saturating_sub(used),
        has_log: vol.number() == memory.frame.anchor.log_vol,
        closed: member.state != 1,
    }
}

/// A line for each member, in rising order.
fn lines_of(memory: &DomainMemory, alloc: Global) -> Result<Vec<VolumeItem>, OutOfMemory>
    requires fits { (vol : ℕ) → 1 ≤ vol → held_pages (volume_of memory.now.space vol)
        ≤ (member_of memory.now.frame.anchor vol).pages }
    ensures shown { IfOk result (λ lines. (s : State)
        → HasVolumesOf memory.now.frame.anchor s → ShowsMembers s lines.items) }
    ensures held { IfOk result (λ lines. AreHeld memory.now lines.items) }
{
    let mut lines = Vec::new(alloc);
    for n in 0..MAX_VOLUMES {
        let Some(vol) = VolIx::new(n + 1) else {
            unreachable!();
        };
        if memory.frame.is_member(vol) {
            lines.push(line_of(memory, vol))?;
        }
    }
    Ok(lines)
}

/// The members of a domain, in rising order.
fn show_members(memory: &DomainMemory, alloc: Global) -> Result<Reply, Stop>
    requires settled { IsSettled memory.now }
    requires stands { ∥ StandsForSome memory.now ∥₁ }
    ensures { (all : FilesetMap) → ShowsAs memory.now all Showfdmn result }
{
    let _ = memory.space.misses();
    let lines = lines_of(memory, alloc)?;
    Ok(Reply::Volumes(VolumeList::from_vec(lines)))
}

/// The answer of showfile for a file that was found: where its pages stand.
fn show_extents(memory: &DomainMemory, alloc: Global, at: Placed) -> Result<Reply, Stop>
    requires stands { ∥ IsStagedForSome memory.now ∥₁ }
    requires back { ∥ MayGoBack memory.now ∥₁ }
    requires original { of_original (slice_get memory.now.table.slots at.number) ≡ true }
    requires live { IsLiveIn memory.now at.number at.tag at.kind }
    ensures { (all : FilesetMap) (place : PlaceOf)
        → IsPlaced memory.now all place at.number at.tag at.kind
        → ShowsAs memory.now all (Showfile place) result }
{
    match at.kind {
        Kind::Directory => Err(Stop::Refused(Refusal::IsDirectory)),
        Kind::File => {
            let extents = extents_of(memory, alloc, at.number, at.tag)?;
            Ok(Reply::Extents(ExtentList::from_vec(extents)))
        }
    }
}

/// Shows where the pages of a file stand. The command is refused as the rules of filesets say for a
/// read, in their order. Memory stays as it is.
fn show_file(
    memory: DomainMemory,
    alloc: Global,
    place: &Place,
    prefer: VolIx,
) -> (DomainMemory, Result<Reply, Stop>)
    requires settled { IsSettled memory }
    requires stands { ∥ StandsForSome memory ∥₁ }
    requires back { ∥ MayGoBack memory ∥₁ }
    ensures same { IsSame memory result.0 }
    ensures shown { (all : FilesetMap) → StandsFor memory all
        → ShowsAs memory all (Showfile place.now) result.1 }
{
    let (memory, found) = find_place(memory, place, prefer);
    let answer = match found {
        Ok(at) => show_extents(&memory, alloc, at),
        Err(stop) => Err(stop),
    };
    (memory, answer)
}

/// Answers a command that shows volumes. Memory stays as it is.
pub(crate) fn show_volumes(
    memory: DomainMemory,
    alloc: Global,
    command: &Command,
    prefer: VolIx,
) -> (DomainMemory, Result<Reply, Stop>)
    requires settled { IsSettled memory }
    requires stands { ∥ StandsForSome memory ∥₁ }
    requires back { ∥ MayGoBack memory ∥₁ }
    requires showing { IsShowing command.now }
    ensures same { IsSame memory result.0 }
    ensures shown { (all : FilesetMap) → StandsFor memory all
        → ShowsAs memory all command.now result.1 }
{
    match command {
        Command::Showfdmn => {
            let answer = show_members(&memory, alloc);
            (memory, answer)
        }
        Command::Showfile { place } => show_file(memory, alloc, place, prefer),
        _ => unreachable!(),
    }
}
