//! Finding what a command's path leads to.
ghost use Rattle.std.specs.Prelude.{◌≡◌, true, IfErr, IfOk, slice_get};
ghost use Rattle.domain_changes.specs.fileset_model.Filesets.{FilesetMap};
ghost use Rattle.domain_changes.specs.domain_layout.CellRules.{of_original};
ghost use Rattle.domain_changes.specs.domain_memory.Memory.{StandsFor};
ghost use Rattle.domain_changes.specs.domain_memory.Staged.{IsSettled, MayGoBack};
ghost use Rattle.domain_state.specs.History.{StandsForSome};
ghost use Rattle.name_changes.specs.Looking.{IsLiveIn, IsSame};
ghost use Rattle.name_commands.specs.Placing.{IsLost, IsPlaced};

use crate::finding::slot_of;
use crate::stop::Stop;
use domain_changes::{DomainMemory, FilesetNo, Kind, Place, Tag, VolIx};
use name_changes::{look_at, settings_of};

/// What stands at a place: the slot of its fileset, and the tag and kind.
#[derive(Clone, Copy)]
pub struct Placed {
    /// The slot of its fileset.
    pub number: FilesetNo,
    /// Its tag in the fileset.
    pub tag: Tag,
    /// Whether it is a file or a directory.
    pub kind: Kind,
}

/// What stands at a place; no-fileset if the domain has no such fileset, or else what is refused on
/// the way to the place. Memory stays as it is.
pub fn find_place(
    memory: DomainMemory,
    place: &Place,
    prefer: VolIx,
) -> (DomainMemory, Result<Placed, Stop>)
    requires settled { IsSettled memory }
    requires stands { ∥ StandsForSome memory ∥₁ }
    requires back { ∥ MayGoBack memory ∥₁ }
    ensures same { IsSame memory result.0 }
    ensures placed { (all : FilesetMap) → StandsFor memory all → IfOk result.1 (λ at.
        IsPlaced memory all place.now at.number at.tag at.kind) }
    ensures lost { (all : FilesetMap) → StandsFor memory all
        → IfErr result.1 (IsLost all place.now) }
    ensures live { IfOk result.1 (λ at. IsLiveIn memory at.number at.tag at.kind) }
    ensures original { IfOk result.1 (λ at.
        of_original (slice_get memory.table.slots at.number) ≡ true) }
{
    let number = match slot_of(&memory, &place.fileset) {
        Ok(number) => number,
        Err(stop) => return (memory, Err(stop)),
    };
    let settings = settings_of(&memory, prefer);
    let (memory, found) = look_at(memory, number, settings, &place.path);
    match found {
        Ok(led) => {
            let placed = Placed {
                number,
                tag: led.0,
                kind: led.1,
            };
            (memory, Ok(placed))
        }
        Err(refusal) => (memory, Err(Stop::Refused(refusal))),
    }
}
