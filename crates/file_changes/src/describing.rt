//! What a file or directory is.
ghost use Rattle.std.specs.Prelude.{◌≡◌, Some, true, slice_get};
ghost use Rattle.std.specs.Option.{option_and_then};
ghost use Rattle.domain_memory.specs.fileset_files.Files.{Chains, attributes_of, of_live};
ghost use Rattle.domain_memory.specs.fileset_model.Filesets.{FilesetMap};
ghost use Rattle.domain_memory.specs.fileset_values.Orders.{Path};
ghost use Rattle.domain_memory.specs.fileset_model.declared.fileset.FilesetSlot.{FilesetSlot};
ghost use Rattle.domain_memory.specs.fileset_table.declared.slot.FilesetEntry.{FilesetEntry};
ghost use Rattle.domain_memory.specs.domain_layout.CellRules.{of_original};
ghost use Rattle.domain_memory.specs.Staged.{IsStagedForSome, MayGoBack};
ghost use Rattle.file_changes.specs.Reading.{IsThereIn, IsWhatIs};
ghost use Rattle.file_changes.specs.Stages.{AreFilesIn, HasFile};

use crate::slots::files_in;
use domain_memory::{Attributes, DomainMemory, FilesetNo, Tag};

/// Describes the file or directory that a tag names in the fileset in a slot, an original: its kind
/// and owner, how many paths lead to it, and for a file its size in bytes and whether its data is
/// logged. It takes no memory.
pub fn describe(memory: &DomainMemory, number: FilesetNo, tag: Tag) -> Attributes
    requires stands { ∥ IsStagedForSome memory.now ∥₁ }
    requires back { ∥ MayGoBack memory.now ∥₁ }
    requires original { of_original (slice_get memory.now.table.slots number) ≡ true }
    requires there { IsThereIn memory.now number tag }
    ensures is { (path : Path) (all : FilesetMap) (entry : FilesetEntry) (fileset : FilesetSlot)
        → HasFile memory.now number tag path all entry fileset
        → IsWhatIs path tag fileset.tree result }
    ensures said { (chains : Chains) → AreFilesIn memory.now number chains
        → option_and_then (of_live attributes_of) (chains tag) ≡ Some result }
{
    let slot = files_in(&memory.slots, number);
    let Some(what) = slot.files.attributes(&memory.pages, tag) else {
        unreachable!()
    };
    what
}
