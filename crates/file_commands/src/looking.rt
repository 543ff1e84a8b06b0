//! Commands that look at a file (read, links).
ghost use Rattle.std.specs.Prelude.{◌≡◌, true, IfErr, slice_get};
ghost use Rattle.name_commands.specs.fileset_model.Filesets.{FilesetMap};
ghost use Rattle.name_commands.specs.fileset_values.declared.command.Command.TheVariants.{Links, Read};
ghost use Rattle.name_commands.specs.fileset_values.declared.command.Place.{Place as PlaceOf};
ghost use Rattle.name_commands.specs.domain_layout.CellRules.{of_original};
ghost use Rattle.name_commands.specs.domain_memory.Kept.{KeepsKept};
ghost use Rattle.name_commands.specs.domain_memory.Memory.{StandsFor};
ghost use Rattle.name_commands.specs.domain_memory.Staged.{IsSettled, IsStagedForSome, MayGoBack};
ghost use Rattle.name_commands.specs.domain_state.History.{StandsForSome};
ghost use Rattle.name_commands.specs.name_changes.Looking.{IsLiveIn};
ghost use Rattle.name_commands.specs.Ending.{EndsAs, LacksPage};
ghost use Rattle.name_commands.specs.Placing.{IsPlaced, RepliesAs};
ghost use Rattle.name_commands.specs.declared.stop.Stop.TheVariants.{NoPage};

use name_commands::{
    Bytes, DomainMemory, Kind, Place, Placed, Refusal, Reply, Stop, VolIx, describe, find_place,
    read_bytes,
};
use std::alloc::Global;

/// How many paths lead to a file that was found.
fn count_links(memory: &DomainMemory, at: Placed) -> Result<Reply, Stop>
    requires stands { ∥ IsStagedForSome memory.now ∥₁ }
    requires back { ∥ MayGoBack memory.now ∥₁ }
    requires original { of_original (slice_get memory.now.table.slots at.number) ≡ true }
    requires live { IsLiveIn memory.now at.number at.tag at.kind }
    ensures { (all : FilesetMap) (place : PlaceOf)
        → IsPlaced memory.now all place at.number at.tag at.kind
        → RepliesAs all (Links place) result }
{
    match at.kind {
        Kind::Directory => Err(Stop::Refused(Refusal::IsDirectory)),
        Kind::File => {
            let what = describe(memory, at.number, at.tag);
            Ok(Reply::Count(u64::from(what.links)))
        }
    }
}

/// What a read of a file that was found answers.
fn read_file(
    memory: &DomainMemory,
    alloc: Global,
    at: Placed,
    offset: u64,
    count: u32,
) -> Result<Reply, Stop>
    requires stands { ∥ IsStagedForSome memory.now ∥₁ }
    requires back { ∥ MayGoBack memory.now ∥₁ }
    requires original { of_original (slice_get memory.now.table.slots at.number) ≡ true }
    requires live { IsLiveIn memory.now at.number at.tag at.kind }
    ensures { (all : FilesetMap) (place : PlaceOf)
        → IsPlaced memory.now all place at.number at.tag at.kind
        → RepliesAs all (Read place offset count) result }
{
    match at.kind {
        Kind::Directory => Err(Stop::Refused(Refusal::IsDirectory)),
        Kind::File => {
            let bytes = read_bytes(memory, alloc, at.number, at.tag, offset, count)?;
            Ok(Reply::Read(Bytes::from_vec(bytes)))
        }
    }
}

/// Reads from a file. The command is refused as the rules of filesets say, in their order. Memory
/// stays as it is.
pub(crate) fn stage_read(
    memory: DomainMemory,
    alloc: Global,
    place: &Place,
    offset: u64,
    count: u32,
    prefer: VolIx,
) -> (DomainMemory, Result<Reply, Stop>)
    requires settled { IsSettled memory }
    requires stands { ∥ StandsForSome memory ∥₁ }
    requires back { ∥ MayGoBack memory ∥₁ }
    ensures ends { (all : FilesetMap) → StandsFor memory all
        → EndsAs result.0 all (Read place.now offset count) result.1 }
    ensures kept { ∥ KeepsKept memory result.0 ∥₁ }
    ensures back { ∥ MayGoBack result.0 ∥₁ }
    ensures cause { IfErr result.1 (λ stop. stop ≡ NoPage
        → LacksPage (Read place.now offset count) memory) }
{
    let (memory, found) = find_place(memory, place, prefer);
    let answer = match found {
        Ok(at) => read_file(&memory, alloc, at, offset, count),
        Err(stop) => Err(stop),
    };
    (memory, answer)
}

/// Counts the paths of a file. The command is refused as the rules of filesets say, in their order.
/// Memory stays as it is.
pub(crate) fn stage_links(
    memory: DomainMemory,
    place: &Place,
    prefer: VolIx,
) -> (DomainMemory, Result<Reply, Stop>)
    requires settled { IsSettled memory }
    requires stands { ∥ StandsForSome memory ∥₁ }
    requires back { ∥ MayGoBack memory ∥₁ }
    ensures ends { (all : FilesetMap) → StandsFor memory all
        → EndsAs result.0 all (Links place.now) result.1 }
    ensures kept { ∥ KeepsKept memory result.0 ∥₁ }
    ensures back { ∥ MayGoBack result.0 ∥₁ }
    ensures cause { IfErr result.1 (λ stop. stop ≡ NoPage → LacksPage (Links place.now) memory) }
{
    let (memory, found) = find_place(memory, place, prefer);
    let answer = match found {
        Ok(at) => count_links(&memory, at),
        Err(stop) => Err(stop),
    };
    (memory, answer)
}
