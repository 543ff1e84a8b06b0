//! Putting other bytes on a page that a file has.
ghost use Rattle.std.specs.Prelude.{◌≡◌, ◌<◌, true, slice_get};
ghost use Rattle.domain_memory.specs.fileset_model.Filesets.{FilesetMap};
ghost use Rattle.domain_memory.specs.fileset_values.Orders.{Path};
ghost use Rattle.domain_memory.specs.fileset_model.declared.fileset.FilesetSlot.{FilesetSlot};
ghost use Rattle.domain_memory.specs.fileset_table.declared.slot.FilesetEntry.{FilesetEntry};
ghost use Rattle.domain_memory.specs.domain_layout.CellRules.{of_original};
ghost use Rattle.domain_memory.specs.domain_standing.Standing.{HaveParents};
ghost use Rattle.set_standing.specs.Nodes.{with_page};
ghost use Rattle.domain_memory.specs.Kept.{KeepsKept};
ghost use Rattle.domain_memory.specs.Staged.{IsStagedForSome, MayGoBack, staged_books, staged_in};
ghost use Rattle.file_changes.specs.Reading.{KeepsOpen};
ghost use Rattle.file_changes.specs.Stages.{HasFile, HasPage, IsFileIn, StandsChanged};

use crate::slots::files_in;
use domain_memory::limits::FILE_PAGES;
use domain_memory::{DomainMemory, FilesetNo, MetaPages, Page, Tag};

/// Puts bytes on a page that a file of the fileset in a slot, an original, keeps and has, in place
/// of what stood there. It takes no memory.
pub fn put_page(memory: &mut DomainMemory, number: FilesetNo, tag: Tag, page: u32, bytes: Page)
    requires stands { ∥ IsStagedForSome memory.old ∥₁ }
    requires back { ∥ MayGoBack memory.old ∥₁ }
    requires original { of_original (slice_get memory.old.table.slots number) ≡ true }
    requires file { IsFileIn memory.old number tag }
    requires has { HasPage memory.old number tag page }
    requires small { page < FILE_PAGES }
    ensures stands { (path : Path) (all : FilesetMap) (entry : FilesetEntry)
        (fileset : FilesetSlot) → HasFile memory.old number tag path all entry fileset
        → StandsChanged path (with_page page bytes) all entry fileset memory.new }
    ensures parents { (path : Path) (all : FilesetMap) (entry : FilesetEntry)
        (fileset : FilesetSlot) → HasFile memory.old number tag path all entry fileset
        → HaveParents (staged_in memory.old) → HaveParents (staged_in memory.new) }
    ensures open_still { (path : Path) (all : FilesetMap) (entry : FilesetEntry)
        (fileset : FilesetSlot) → HasFile memory.old number tag path all entry fileset
        → KeepsOpen number tag memory.old memory.new }
    ensures table { memory.new.table ≡ memory.old.table }
    ensures kept { KeepsKept memory.old memory.new }
    ensures back { ∥ MayGoBack memory.new ∥₁ }
    ensures books { staged_books memory.new ≡ staged_books memory.old }
{
    let slot = files_in(&memory.slots, number);
    let Some(home) = slot.files.page_home(&memory.pages, tag, page).home() else {
        unreachable!()
    };
    memory.pages.put(home, bytes);
}
