//! Truncating a file (truncate), and setting whether its data is logged from now on (chfile).
ghost use Rattle.std.specs.Prelude.{◌+◌, ◌≡◌, ◌≢◌, ◌≤◌, true, IfErr, IfOk, IsSomeAnd, OnOk, slice_get};
ghost use Rattle.name_commands.specs.domain_base.declared.limits.TheConstants.{FILE_BYTES};
ghost use Rattle.name_commands.specs.domain_layout.CellRules.{of_original};
ghost use Rattle.name_commands.specs.domain_memory.Kept.{KeepsKept};
ghost use Rattle.name_commands.specs.domain_memory.Memory.{StandsFor};
ghost use Rattle.name_commands.specs.domain_memory.Staged.{IsSettled, IsStagedForSome, MayGoBack, staged_books, staged_in};
ghost use Rattle.name_commands.specs.domain_standing.Standing.{HaveParents};
ghost use Rattle.name_commands.specs.domain_state.History.{StandsForSome};
ghost use Rattle.name_commands.specs.fileset_model.Apply.{truncated_node};
ghost use Rattle.name_commands.specs.fileset_model.Filesets.{FilesetMap};
ghost use Rattle.name_commands.specs.fileset_values.Orders.{Path as PathOf};
ghost use Rattle.name_commands.specs.fileset_model.Paths.{node_at};
ghost use Rattle.name_commands.specs.fileset_model.Usage.{blocks_of};
ghost use Rattle.name_commands.specs.fileset_values.declared.command.Command.TheVariants.{Chfile, Truncate};
ghost use Rattle.name_commands.specs.fileset_values.declared.command.Place.{Place as PlaceOf};
ghost use Rattle.name_commands.specs.fileset_model.declared.fileset.FilesetSlot.{FilesetSlot};
ghost use Rattle.name_commands.specs.fileset_table.declared.slot.FilesetEntry.{FilesetEntry};
ghost use Rattle.name_commands.specs.name_changes.Looking.{IsLiveIn};
ghost use Rattle.name_commands.specs.file_changes.Stages.{HasFile, IsFileIn, StandsChanged};
ghost use Rattle.name_commands.specs.Ending.{EndsAs, LacksPage};
ghost use Rattle.name_commands.specs.Placing.{IsPlaced, IsPlacedForSome};
ghost use Rattle.name_commands.specs.declared.stop.Stop.TheVariants.{NoPage};

use name_commands::limits::{BLOCKS_PER_PAGE, FILE_BYTES};
use name_commands::{
    DomainMemory, FilesetNo, Kind, OutOfMemory, Place, Placed, Refusal, Reply, Stop, Tag, VolIx,
    count_pages, cut_file, describe, find_place, flag_file, refund,
};
use std::alloc::Global;

/// Sets whether the data of a file that was found is logged.
fn flag_found(
    memory: &mut DomainMemory,
    alloc: Global,
    at: Placed,
    is_logged: bool,
) -> Result<Reply, Stop>
    requires settled { IsSettled memory.old }
    requires placed { ∥ IsPlacedForSome memory.old at.number at.tag at.kind ∥₁ }
    requires back { ∥ MayGoBack memory.old ∥₁ }
    requires original { of_original (slice_get memory.old.table.slots at.number) ≡ true }
    requires live { IsLiveIn memory.old at.number at.tag at.kind }
    ensures ends { (all : FilesetMap) (place : PlaceOf) → StandsFor memory.old all
        → IsPlaced memory.old all place at.number at.tag at.kind
        → EndsAs memory.new all (Chfile place is_logged) result }
    ensures pages { IfErr result (λ stop. stop ≢ NoPage) }
    ensures kept { KeepsKept memory.old memory.new }
    ensures back { ∥ MayGoBack memory.new ∥₁ }
{
    match at.kind {
        Kind::Directory => Err(Stop::Refused(Refusal::IsDirectory)),
        Kind::File => {
            flag_file(memory, alloc, at.number, at.tag, is_logged)?;
            Ok(Reply::Done)
        }
    }
}

/// Sets whether the data of a file is logged. The command is refused as the rules of filesets say,
/// in their order. It needs no page, and nothing is written yet.
pub(crate) fn stage_chfile(
    memory: DomainMemory,
    alloc: Global,
    place: &Place,
    is_logged: bool,
    prefer: VolIx,
) -> (DomainMemory, Result<Reply, Stop>)
    requires settled { IsSettled memory }
    requires stands { ∥ StandsForSome memory ∥₁ }
    requires back { ∥ MayGoBack memory ∥₁ }
    ensures ends { (all : FilesetMap) → StandsFor memory all
        → EndsAs result.0 all (Chfile place.now is_logged) result.1 }
    ensures kept { ∥ KeepsKept memory result.0 ∥₁ }
    ensures back { ∥ MayGoBack result.0 ∥₁ }
    ensures cause { IfErr result.1 (λ stop. stop ≡ NoPage
        → LacksPage (Chfile place.now is_logged) memory) }
{
    let (memory, found) = find_place(memory, place, prefer);
    let mut memory = memory;
    let answer = match found {
        Ok(at) => flag_found(&mut memory, alloc, at, is_logged),
        Err(stop) => Err(stop),
    };
    (memory, answer)
}

/// Cuts a file to a size, and returns how many of its blocks are gone. Fails only if memory runs
/// out.
fn cut_counted(
    memory: &mut DomainMemory,
    alloc: Global,
    number: FilesetNo,
    tag: Tag,
    size: u64,
) -> Result<u64, OutOfMemory>
    requires stands { ∥ IsStagedForSome memory.old ∥₁ }
    requires back { ∥ MayGoBack memory.old ∥₁ }
    requires original { of_original (slice_get memory.old.table.slots number) ≡ true }
    requires file { IsFileIn memory.old number tag }
    requires fits { size ≤ FILE_BYTES }
    ensures ok { (path : PathOf) (all : FilesetMap) (entry : FilesetEntry) (fileset : FilesetSlot)
        → HasFile memory.old number tag path all entry fileset → OnOk result
        (StandsChanged path (truncated_node size) all entry fileset memory.new) }
    ensures gone { (path : PathOf) (all : FilesetMap) (entry : FilesetEntry) (fileset : FilesetSlot)
        → HasFile memory.old number tag path all entry fileset → IfOk result (λ gone.
        IsSomeAnd (node_at fileset.tree path) (λ node.
        blocks_of node ≡ blocks_of (truncated_node size node) + gone)) }
    ensures parents { (path : PathOf) (all : FilesetMap) (entry : FilesetEntry)
        (fileset : FilesetSlot) → HasFile memory.old number tag path all entry fileset
        → HaveParents (staged_in memory.old) → OnOk result (HaveParents (staged_in memory.new)) }
    ensures kept { KeepsKept memory.old memory.new }
    ensures back { ∥ MayGoBack memory.new ∥₁ }
    ensures table { memory.new.table ≡ memory.old.table }
    ensures counted { staged_books memory.new ≡ staged_books memory.old }
{
    let before = count_pages(memory, alloc, number, tag)?;
    cut_file(memory, alloc, number, tag, size)?;
    let after = count_pages(memory, alloc, number, tag)?;
    Ok(u64::from(BLOCKS_PER_PAGE) * u64::from(before.saturating_sub(after)))
}

/// Truncates a file that was found, and refunds its owners for the blocks that are gone.
fn cut_found(memory: &mut DomainMemory, alloc: Global, at: Placed, size: u64) -> Result<Reply, Stop>
    requires settled { IsSettled memory.old }
    requires placed { ∥ IsPlacedForSome memory.old at.number at.tag at.kind ∥₁ }
    requires back { ∥ MayGoBack memory.old ∥₁ }
    requires original { of_original (slice_get memory.old.table.slots at.number) ≡ true }
    requires live { IsLiveIn memory.old at.number at.tag at.kind }
    ensures ends { (all : FilesetMap) (place : PlaceOf) → StandsFor memory.old all
        → IsPlaced memory.old all place at.number at.tag at.kind
        → EndsAs memory.new all (Truncate place size) result }
    ensures pages { IfErr result (λ stop. stop ≢ NoPage) }
    ensures kept { KeepsKept memory.old memory.new }
    ensures back { ∥ MayGoBack memory.new ∥₁ }
{
    match at.kind {
        Kind::Directory => Err(Stop::Refused(Refusal::IsDirectory)),
        Kind::File => {
            if size > FILE_BYTES {
                return Err(Stop::Refused(Refusal::TooFar));
            }
            let what = describe(memory, at.number, at.tag);
            let gone = cut_counted(memory, alloc, at.number, at.tag, size)?;
            refund(memory, at.number, what.uid, what.gid, 0, gone);
            Ok(Reply::Done)
        }
    }
}

/// Truncates a file, or makes it longer, and refunds the pages that are gone. The command is
/// refused as the rules of filesets say, in their order. It needs no page. If the command is
/// stopped, the change may be half made.
pub(crate) fn stage_truncate(
    memory: DomainMemory,
    alloc: Global,
    place: &Place,
    size: u64,
    prefer: VolIx,
) -> (DomainMemory, Result<Reply, Stop>)
    requires settled { IsSettled memory }
    requires stands { ∥ StandsForSome memory ∥₁ }
    requires back { ∥ MayGoBack memory ∥₁ }
    ensures ends { (all : FilesetMap) → StandsFor memory all
        → EndsAs result.0 all (Truncate place.now size) result.1 }
    ensures kept { ∥ KeepsKept memory result.0 ∥₁ }
    ensures back { ∥ MayGoBack result.0 ∥₁ }
    ensures cause { IfErr result.1 (λ stop. stop ≡ NoPage
        → LacksPage (Truncate place.now size) memory) }
{
    let (memory, found) = find_place(memory, place, prefer);
    let mut memory = memory;
    let answer = match found {
        Ok(at) => cut_found(&mut memory, alloc, at, size),
        Err(stop) => Err(stop),
    };
    (memory, answer)
}
