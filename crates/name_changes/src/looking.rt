//! Looking at what a path leads to, and at what a directory has.
ghost use Rattle.std.specs.Prelude.{◌≡◌, true, IfErr, IfOk, Some, length, slice_get};
ghost use Rattle.std.specs.FinMap.{get};
ghost use Rattle.fileset_lending.specs.domain_base.declared.place.Kind.TheVariants.{Directory};
ghost use Rattle.fileset_lending.specs.domain_layout.CellRules.{of_original};
ghost use Rattle.fileset_lending.specs.domain_memory.Staged.{IsStagedForSome, MayGoBack};
ghost use Rattle.fileset_lending.specs.fileset_model.Filesets.{FilesetMap};
ghost use Rattle.fileset_lending.specs.fileset_values.Orders.{Path as PathOf};
ghost use Rattle.fileset_lending.specs.fileset_model.Paths.{rows_of, target_refusal};
ghost use Rattle.fileset_lending.specs.fileset_model.declared.fileset.FilesetSlot.{FilesetSlot};
ghost use Rattle.fileset_lending.specs.fileset_table.declared.slot.FilesetEntry.{FilesetEntry};
ghost use Rattle.fileset_lending.specs.name_space.Names.{number_of};
ghost use Rattle.name_changes.specs.Looking.{IsLiveIn, IsSame, LeadsTo};
ghost use Rattle.name_changes.specs.Stages.{HasFileset};

use fileset_lending::{
    CallSettings, DomainMemory, FilesetNo, Kind, NameList, OutOfMemory, Path, Refusal, Tag, choose,
    list_rows, row_count, target,
};
use std::alloc::Global;

/// The tag and kind of what a path leads to, or what is refused on the way to it. Memory stays as
/// it is, and none is taken.
pub fn look_at(
    memory: DomainMemory,
    number: FilesetNo,
    settings: CallSettings,
    path: &Path,
) -> (DomainMemory, Result<(Tag, Kind), Refusal>)
    requires stands { ∥ IsStagedForSome memory ∥₁ }
    requires back { ∥ MayGoBack memory ∥₁ }
    requires original { of_original (slice_get memory.table.slots number) ≡ true }
    ensures same { IsSame memory result.0 }
    ensures ok { (all : FilesetMap) (entry : FilesetEntry) (fileset : FilesetSlot)
        → HasFileset memory number all entry fileset
        → IfOk result.1 (λ led. LeadsTo path.now fileset led.0 led.1) }
    ensures err { (all : FilesetMap) (entry : FilesetEntry) (fileset : FilesetSlot)
        → HasFileset memory number all entry fileset
        → IfErr result.1 (λ refusal. target_refusal fileset path.now ≡ Some refusal) }
    ensures live { IfOk result.1 (λ led. IsLiveIn memory number led.0 led.1) }
{
    let chosen = choose(memory, number, settings);
    let led = target(&chosen.set, path);
    (chosen.back(), led)
}

/// The listing of the directory that a tag names. Memory stays as it is.
pub fn list_names(
    memory: DomainMemory,
    alloc: Global,
    number: FilesetNo,
    settings: CallSettings,
    tag: Tag,
) -> (DomainMemory, Result<NameList, OutOfMemory>)
    requires stands { ∥ IsStagedForSome memory ∥₁ }
    requires back { ∥ MayGoBack memory ∥₁ }
    requires original { of_original (slice_get memory.table.slots number) ≡ true }
    requires live { IsLiveIn memory number tag Directory }
    ensures same { IsSame memory result.0 }
    ensures names { (all : FilesetMap) (entry : FilesetEntry) (fileset : FilesetSlot)
        (path : PathOf) → HasFileset memory number all entry fileset
        → get fileset.tree.paths path ≡ Some (number_of tag)
        → IfOk result.1 (λ list. list ≡ rows_of fileset.tree path) }
{
    let chosen = choose(memory, number, settings);
    let list = list_rows(&chosen.set, alloc, tag);
    (chosen.back(), list)
}

/// How many rows the directory that a tag names has. Memory stays as it is, and none is taken.
pub fn count_rows(
    memory: DomainMemory,
    number: FilesetNo,
    settings: CallSettings,
    tag: Tag,
) -> (DomainMemory, u32)
    requires stands { ∥ IsStagedForSome memory ∥₁ }
    requires back { ∥ MayGoBack memory ∥₁ }
    requires original { of_original (slice_get memory.table.slots number) ≡ true }
    requires live { IsLiveIn memory number tag Directory }
    ensures same { IsSame memory result.0 }
    ensures rows { (all : FilesetMap) (entry : FilesetEntry) (fileset : FilesetSlot)
        (path : PathOf) → HasFileset memory number all entry fileset
        → get fileset.tree.paths path ≡ Some (number_of tag)
        → result.1 ≡ length (rows_of fileset.tree path) }
{
    let chosen = choose(memory, number, settings);
    let count = row_count(&chosen.set, tag);
    (chosen.back(), count)
}
