//! Writing bytes to a file (write).
ghost use Rattle.std.specs.Prelude.{◌+◌, ◌<◌, ◌≡◌, ◌≤◌, ◌↔◌, true, IfErr, OnOk, length, slice_get};
ghost use Rattle.name_commands.specs.domain_base.declared.place.Kind.TheVariants as kind;
ghost use Rattle.name_commands.specs.domain_base.declared.limits.TheConstants.{FILE_BYTES};
ghost use Rattle.name_commands.specs.page_store.declared.fault.StoreFault.TheVariants.{NoPage as IsNoPage};
ghost use Rattle.name_commands.specs.domain_layout.CellRules.{of_original};
ghost use Rattle.name_commands.specs.domain_memory.Kept.{KeepsKept};
ghost use Rattle.name_commands.specs.domain_memory.Memory.{StandsFor};
ghost use Rattle.name_commands.specs.domain_memory.Staged.{IsSettled, IsStagedForSome, MayGoBack, staged_in};
ghost use Rattle.name_commands.specs.domain_changes.Charging.{ChangesOneBook};
ghost use Rattle.name_commands.specs.domain_standing.Standing.{HaveParents};
ghost use Rattle.name_commands.specs.domain_state.History.{StandsForSome};
ghost use Rattle.name_commands.specs.fileset_model.Apply.{written_node};
ghost use Rattle.name_commands.specs.fileset_model.Filesets.{FilesetMap};
ghost use Rattle.name_commands.specs.fileset_values.Orders.{Path as PathOf};
ghost use Rattle.name_commands.specs.fileset_values.declared.command.Command.TheVariants.{Write};
ghost use Rattle.name_commands.specs.fileset_values.declared.command.Place.{Place as PlaceOf};
ghost use Rattle.name_commands.specs.fileset_model.declared.fileset.FilesetSlot.{FilesetSlot};
ghost use Rattle.name_commands.specs.fileset_table.declared.slot.FilesetEntry.{FilesetEntry};
ghost use Rattle.name_commands.specs.legal_histories.Step.{TakesSpace};
ghost use Rattle.name_commands.specs.quota_book.Book.{Charges};
ghost use Rattle.name_commands.specs.name_changes.Looking.{IsLiveIn};
ghost use Rattle.name_commands.specs.file_changes.Reading.{AreOpen};
ghost use Rattle.name_commands.specs.file_changes.Stages.{HasFile, IsFileIn, StandsChanged};
ghost use Rattle.name_commands.specs.file_changes.Writing.{WantsPage};
ghost use Rattle.name_commands.specs.Ending.{EndsAs, LacksPage};
ghost use Rattle.name_commands.specs.Placing.{IsPlaced, IsPlacedForSome};
ghost use Rattle.name_commands.specs.declared.stop.Stop.TheVariants.{NoPage};

use name_commands::limits::{BLOCKS_PER_PAGE, FILE_BYTES};
use name_commands::{
    Bytes, DomainMemory, FilesetNo, Kind, Place, Placed, Refusal, Reply, Share, Stop, StoreFault,
    Tag, VolIx, absent_pages, ask_quota, charge, describe, find_place, write_bytes,
};
use std::alloc::Global;

/// Whether `len` bytes from an offset on end after the last byte that a file may have.
fn is_too_far(offset: u64, len: usize) -> bool
    ensures { (result ≡ true) ↔ (FILE_BYTES < offset + len) }
{
    offset > FILE_BYTES || len as u64 > FILE_BYTES - offset
}

/// Writes bytes to a file, and charges its owners for blocks.
fn write_charged(
    memory: &mut DomainMemory,
    alloc: Global,
    number: FilesetNo,
    tag: Tag,
    share: Share,
    offset: u64,
    bytes: &[u8],
    prefer: VolIx,
) -> Result<(), StoreFault>
    requires stands { ∥ IsStagedForSome memory.old ∥₁ }
    requires back { ∥ MayGoBack memory.old ∥₁ }
    requires original { of_original (slice_get memory.old.table.slots number) ≡ true }
    requires file { IsFileIn memory.old number tag }
    requires fits { offset + length bytes.now ≤ FILE_BYTES }
    requires writable { AreOpen memory.old number tag offset (length bytes.now) }
    ensures ok { (path : PathOf) (all : FilesetMap) (entry : FilesetEntry) (fileset : FilesetSlot)
        → HasFile memory.old number tag path all entry fileset → OnOk result
        (StandsChanged path (written_node offset bytes.now) all entry fileset memory.new) }
    ensures charged { OnOk result (ChangesOneBook number
        (Charges share.uid share.gid 0 share.blocks) memory.old memory.new) }
    ensures parents { (path : PathOf) (all : FilesetMap) (entry : FilesetEntry)
        (fileset : FilesetSlot) → HasFile memory.old number tag path all entry fileset
        → HaveParents (staged_in memory.old) → OnOk result (HaveParents (staged_in memory.new)) }
    ensures kept { KeepsKept memory.old memory.new }
    ensures back { ∥ MayGoBack memory.new ∥₁ }
    ensures cause { IfErr result (λ fault. fault ≡ IsNoPage
        → WantsPage memory.old number tag offset bytes.now) }
{
    write_bytes(memory, alloc, number, tag, offset, bytes, prefer)?;
    charge(memory, number, share.uid, share.gid, 0, share.blocks)?;
    Ok(())
}

/// Writes bytes to a file that was found.
fn write_file(
    memory: &mut DomainMemory,
    alloc: Global,
    at: Placed,
    offset: u64,
    bytes: &[u8],
    prefer: VolIx,
) -> Result<Reply, Stop>
    requires settled { IsSettled memory.old }
    requires placed { ∥ IsPlacedForSome memory.old at.number at.tag at.kind ∥₁ }
    requires back { ∥ MayGoBack memory.old ∥₁ }
    requires original { of_original (slice_get memory.old.table.slots at.number) ≡ true }
    requires live { IsLiveIn memory.old at.number at.tag at.kind }
    requires file { at.kind ≡ kind.File }
    ensures ends { (all : FilesetMap) (place : PlaceOf) → StandsFor memory.old all
        → IsPlaced memory.old all place at.number at.tag at.kind
        → EndsAs memory.new all (Write place offset bytes.now) result }
    ensures wants { (all : FilesetMap) (place : PlaceOf) → StandsFor memory.old all
        → IsPlaced memory.old all place at.number at.tag at.kind
        → IfErr result (λ stop. stop ≡ NoPage → TakesSpace all (Write place offset bytes.now)) }
    ensures kept { KeepsKept memory.old memory.new }
    ensures back { ∥ MayGoBack memory.new ∥₁ }
{
    let len = bytes.len();
    if is_too_far(offset, len) {
        return Err(Stop::Refused(Refusal::TooFar));
    }
    let what = describe(memory, at.number, at.tag);
    let wanted = absent_pages(memory, at.number, at.tag, offset, len as u64);
    let share = Share {
        uid: what.uid,
        gid: what.gid,
        blocks: u64::from(BLOCKS_PER_PAGE) * wanted.absent,
    };
    if let Some(refusal) = ask_quota(memory, at.number, share.uid, share.gid, 0, share.blocks) {
        return Err(Stop::Refused(refusal));
    }
    if !wanted.are_open {
        return Err(Stop::NoPage);
    }
    write_charged(
        memory, alloc, at.number, at.tag, share, offset, bytes, prefer,
    )?;
    Ok(Reply::Count(len as u64))
}

/// Writes bytes to what was found, if it is a file.
fn write_found(
    memory: &mut DomainMemory,
    alloc: Global,
    at: Placed,
    offset: u64,
    bytes: &[u8],
    prefer: VolIx,
) -> Result<Reply, Stop>
    requires settled { IsSettled memory.old }
    requires placed { ∥ IsPlacedForSome memory.old at.number at.tag at.kind ∥₁ }
    requires back { ∥ MayGoBack memory.old ∥₁ }
    requires original { of_original (slice_get memory.old.table.slots at.number) ≡ true }
    requires live { IsLiveIn memory.old at.number at.tag at.kind }
    ensures ends { (all : FilesetMap) (place : PlaceOf) → StandsFor memory.old all
        → IsPlaced memory.old all place at.number at.tag at.kind
        → EndsAs memory.new all (Write place offset bytes.now) result }
    ensures wants { (all : FilesetMap) (place : PlaceOf) → StandsFor memory.old all
        → IsPlaced memory.old all place at.number at.tag at.kind
        → IfErr result (λ stop. stop ≡ NoPage → TakesSpace all (Write place offset bytes.now)) }
    ensures kept { KeepsKept memory.old memory.new }
    ensures back { ∥ MayGoBack memory.new ∥₁ }
{
    match at.kind {
        Kind::Directory => Err(Stop::Refused(Refusal::IsDirectory)),
        Kind::File => write_file(memory, alloc, at, offset, bytes, prefer),
    }
}

/// Writes bytes to a file, and charges its owners for the pages that it gets. The command is
/// refused as the rules of filesets say, in their order. A page is wanted only if one of the pages
/// that the bytes lie in is absent: none is free, or the file may not get one before what it no
/// longer keeps is let go of. If the command is stopped, the change may be half made.
pub(crate) fn stage_write(
    memory: DomainMemory,
    alloc: Global,
    place: &Place,
    offset: u64,
    bytes: &Bytes,
    prefer: VolIx,
) -> (DomainMemory, Result<Reply, Stop>)
    requires settled { IsSettled memory }
    requires stands { ∥ StandsForSome memory ∥₁ }
    requires back { ∥ MayGoBack memory ∥₁ }
    ensures ends { (all : FilesetMap) → StandsFor memory all
        → EndsAs result.0 all (Write place.now offset bytes.now) result.1 }
    ensures kept { ∥ KeepsKept memory result.0 ∥₁ }
    ensures back { ∥ MayGoBack result.0 ∥₁ }
    ensures cause { IfErr result.1 (λ stop. stop ≡ NoPage
        → LacksPage (Write place.now offset bytes.now) memory) }
{
    let (memory, found) = find_place(memory, place, prefer);
    let mut memory = memory;
    let answer = match found {
        Ok(at) => write_found(&mut memory, alloc, at, offset, bytes.as_slice(), prefer),
        Err(stop) => Err(stop),
    };
    (memory, answer)
}
