//! Commands that tell what stands at a path (list, stat).
ghost use Rattle.std.specs.Prelude.{◌≡◌, true, IfErr, slice_get};
ghost use Rattle.domain_changes.specs.domain_base.declared.place.Kind.TheVariants.{File};
ghost use Rattle.domain_changes.specs.fileset_model.Filesets.{FilesetMap};
ghost use Rattle.domain_changes.specs.fileset_values.declared.command.Command.TheVariants.{List, Stat};
ghost use Rattle.domain_changes.specs.fileset_values.declared.command.Place.{Place as PlaceOf};
ghost use Rattle.domain_changes.specs.domain_layout.CellRules.{of_original};
ghost use Rattle.domain_changes.specs.domain_memory.Kept.{KeepsKept};
ghost use Rattle.domain_changes.specs.domain_memory.Memory.{StandsFor};
ghost use Rattle.domain_changes.specs.domain_memory.Staged.{IsSettled, IsStagedForSome, MayGoBack};
ghost use Rattle.domain_state.specs.History.{StandsForSome};
ghost use Rattle.name_changes.specs.Looking.{IsLiveIn, IsSame};
ghost use Rattle.file_changes.specs.Reading.{IsWhatIs};
ghost use Rattle.name_commands.specs.Ending.{EndsAs, LacksPage};
ghost use Rattle.name_commands.specs.Placing.{IsPlaced, RepliesAs};
ghost use Rattle.name_commands.specs.declared.stop.Stop.TheVariants.{NoPage};

use crate::placing::{Placed, find_place};
use crate::stop::Stop;
use domain_changes::{Attributes, DomainMemory, Kind, Place, Refusal, Reply, VolIx};
use file_changes::{count_pages, describe};
use name_changes::{count_rows, list_names, settings_of};
use std::alloc::Global;

/// Lists a directory that was found. Memory stays as it is.
fn list_at(
    memory: DomainMemory,
    alloc: Global,
    at: Placed,
    prefer: VolIx,
) -> (DomainMemory, Result<Reply, Stop>)
    requires stands { ∥ IsStagedForSome memory ∥₁ }
    requires back { ∥ MayGoBack memory ∥₁ }
    requires original { of_original (slice_get memory.table.slots at.number) ≡ true }
    requires live { IsLiveIn memory at.number at.tag at.kind }
    ensures same { IsSame memory result.0 }
    ensures replies { (all : FilesetMap) (place : PlaceOf)
        → IsPlaced memory all place at.number at.tag at.kind
        → RepliesAs all (List place) result.1 }
{
    match at.kind {
        Kind::File => (memory, Err(Stop::Refused(Refusal::NotDirectory))),
        Kind::Directory => {
            let settings = settings_of(&memory, prefer);
            let (memory, list) = list_names(memory, alloc, at.number, settings, at.tag);
            match list {
                Ok(names) => (memory, Ok(Reply::Names(names))),
                Err(_) => (memory, Err(Stop::OutOfMemory)),
            }
        }
    }
}

/// The answer of stat for a file that was found.
fn stat_file(
    memory: &DomainMemory,
    alloc: Global,
    at: Placed,
    what: Attributes,
) -> Result<Reply, Stop>
    requires stands { ∥ IsStagedForSome memory.now ∥₁ }
    requires back { ∥ MayGoBack memory.now ∥₁ }
    requires original { of_original (slice_get memory.now.table.slots at.number) ≡ true }
    requires live { IsLiveIn memory.now at.number at.tag File }
    ensures { (all : FilesetMap) (place : PlaceOf)
        → (placed : IsPlaced memory.now all place at.number at.tag File)
        → IsWhatIs place.path at.tag placed.fileset.tree what
        → RepliesAs all (Stat place) result }
{
    let pages = count_pages(memory, alloc, at.number, at.tag)?;
    Ok(Reply::FileStat {
        uid: what.uid,
        gid: what.gid,
        size: what.size,
        pages,
        logged: what.is_logged,
    })
}

/// The answer of stat for what was found. Memory stays as it is.
fn stat_at(
    memory: DomainMemory,
    alloc: Global,
    at: Placed,
    prefer: VolIx,
) -> (DomainMemory, Result<Reply, Stop>)
    requires stands { ∥ IsStagedForSome memory ∥₁ }
    requires back { ∥ MayGoBack memory ∥₁ }
    requires original { of_original (slice_get memory.table.slots at.number) ≡ true }
    requires live { IsLiveIn memory at.number at.tag at.kind }
    ensures same { IsSame memory result.0 }
    ensures replies { (all : FilesetMap) (place : PlaceOf)
        → IsPlaced memory all place at.number at.tag at.kind
        → RepliesAs all (Stat place) result.1 }
{
    let what = describe(&memory, at.number, at.tag);
    match at.kind {
        Kind::File => {
            let answer = stat_file(&memory, alloc, at, what);
            (memory, answer)
        }
        Kind::Directory => {
            let settings = settings_of(&memory, prefer);
            let (memory, rows) = count_rows(memory, at.number, settings, at.tag);
            let answer = Reply::DirStat {
                uid: what.uid,
                gid: what.gid,
                rows,
            };
            (memory, Ok(answer))
        }
    }
}

/// Lists a directory. The command is refused as the rules of filesets say, in their order. Memory
/// stays as it is.
pub fn stage_list(
    memory: DomainMemory,
    alloc: Global,
    place: &Place,
    prefer: VolIx,
) -> (DomainMemory, Result<Reply, Stop>)
    requires settled { IsSettled memory }
    requires stands { ∥ StandsForSome memory ∥₁ }
    requires back { ∥ MayGoBack memory ∥₁ }
    ensures ends { (all : FilesetMap) → StandsFor memory all
        → EndsAs result.0 all (List place.now) result.1 }
    ensures kept { ∥ KeepsKept memory result.0 ∥₁ }
    ensures back { ∥ MayGoBack result.0 ∥₁ }
    ensures cause { IfErr result.1 (λ stop. stop ≡ NoPage → LacksPage (List place.now) memory) }
{
    let (memory, found) = find_place(memory, place, prefer);
    match found {
        Ok(at) => list_at(memory, alloc, at, prefer),
        Err(stop) => (memory, Err(stop)),
    }
}

/// Tells what stands at a path. The command is refused as the rules of filesets say, in their
/// order. Memory stays as it is.
pub fn stage_stat(
    memory: DomainMemory,
    alloc: Global,
    place: &Place,
    prefer: VolIx,
) -> (DomainMemory, Result<Reply, Stop>)
    requires settled { IsSettled memory }
    requires stands { ∥ StandsForSome memory ∥₁ }
    requires back { ∥ MayGoBack memory ∥₁ }
    ensures ends { (all : FilesetMap) → StandsFor memory all
        → EndsAs result.0 all (Stat place.now) result.1 }
    ensures kept { ∥ KeepsKept memory result.0 ∥₁ }
    ensures back { ∥ MayGoBack result.0 ∥₁ }
    ensures cause { IfErr result.1 (λ stop. stop ≡ NoPage → LacksPage (Stat place.now) memory) }
{
    let (memory, found) = find_place(memory, place, prefer);
    match found {
        Ok(at) => stat_at(memory, alloc, at, prefer),
        Err(stop) => (memory, Err(stop)),
    }
}
