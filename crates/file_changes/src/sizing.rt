//! The size of a file, and whether its data is logged.
ghost use Rattle.std.specs.Prelude.{◌≡◌, true, OnErr, OnOk, slice_get};
ghost use Rattle.domain_memory.specs.fileset_model.Filesets.{FilesetMap};
ghost use Rattle.domain_memory.specs.fileset_values.Orders.{Path};
ghost use Rattle.domain_memory.specs.fileset_model.declared.fileset.FilesetSlot.{FilesetSlot};
ghost use Rattle.domain_memory.specs.fileset_table.declared.slot.FilesetEntry.{FilesetEntry};
ghost use Rattle.domain_memory.specs.domain_layout.CellRules.{of_original};
ghost use Rattle.domain_memory.specs.domain_standing.Standing.{HaveParents};
ghost use Rattle.set_standing.specs.Nodes.{with_size};
ghost use Rattle.domain_memory.specs.Kept.{KeepsKept};
ghost use Rattle.domain_memory.specs.Staged.{IsStagedForSome, MayGoBack, staged_books, staged_in};
ghost use Rattle.file_changes.specs.Stages.{HasFile, IsFileIn, StandsChanged};

use crate::slots::files_in;
use domain_memory::{Attributes, DomainMemory, FilesetNo, OutOfMemory, Tag};
use std::alloc::Global;

/// These attributes with another size and another flag.
fn with_length(was: &Attributes, size: u64, is_logged: bool) -> Attributes
    ensures { result ≡ record was.now { size = size; is_logged = is_logged } }
{
    Attributes {
        kind: was.kind,
        uid: was.uid,
        gid: was.gid,
        is_logged,
        size,
        links: was.links,
    }
}

/// Sets the size in bytes of a file of the fileset in a slot, an original, and whether its data is
/// logged. The file keeps each page that it has. Fails only if memory runs out, and then the domain
/// is as it was.
pub fn set_size(
    memory: &mut DomainMemory,
    alloc: Global,
    number: FilesetNo,
    tag: Tag,
    size: u64,
    is_logged: bool,
) -> Result<(), OutOfMemory>
    requires stands { ∥ IsStagedForSome memory.old ∥₁ }
    requires back { ∥ MayGoBack memory.old ∥₁ }
    requires original { of_original (slice_get memory.old.table.slots number) ≡ true }
    requires file { IsFileIn memory.old number tag }
    ensures ok { (path : Path) (all : FilesetMap) (entry : FilesetEntry) (fileset : FilesetSlot)
        → HasFile memory.old number tag path all entry fileset → OnOk result
        (StandsChanged path (with_size size is_logged) all entry fileset memory.new) }
    ensures parents { (path : Path) (all : FilesetMap) (entry : FilesetEntry)
        (fileset : FilesetSlot) → HasFile memory.old number tag path all entry fileset
        → HaveParents (staged_in memory.old) → OnOk result (HaveParents (staged_in memory.new)) }
    ensures table { memory.new.table ≡ memory.old.table }
    ensures kept { KeepsKept memory.old memory.new }
    ensures back { ∥ MayGoBack memory.new ∥₁ }
    ensures books { staged_books memory.new ≡ staged_books memory.old }
    ensures err { OnErr result (staged_in memory.new ≡ staged_in memory.old) }
{
    let slot = files_in(&memory.slots, number);
    let Some(was) = slot.files.attributes(&memory.pages, tag) else {
        unreachable!()
    };
    let value = with_length(&was, size, is_logged);
    slot.files
        .set_attributes(alloc, &mut memory.pages, tag, &value)
}
