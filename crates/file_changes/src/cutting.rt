//! Truncating files, and setting whether their data is logged from now on.
ghost use Rattle.std.specs.Prelude.{◌%◌, ◌-◌, ◌/◌, ◌≡◌, ◌≤◌, IfOk, OnErr, OnOk, slice_get, true};
ghost use Rattle.domain_memory.specs.domain_base.declared.limits.TheConstants.{FILE_BYTES};
ghost use Rattle.domain_memory.specs.fileset_model.Apply.{flagged_node, truncated_node};
ghost use Rattle.domain_memory.specs.fileset_model.Filesets.{FilesetMap};
ghost use Rattle.domain_memory.specs.fileset_values.Orders.{Path};
ghost use Rattle.domain_memory.specs.fileset_model.declared.fileset.FilesetSlot.{FilesetSlot};
ghost use Rattle.domain_memory.specs.fileset_table.declared.slot.FilesetEntry.{FilesetEntry};
ghost use Rattle.domain_memory.specs.domain_layout.CellRules.{of_original};
ghost use Rattle.domain_memory.specs.domain_standing.Standing.{HaveParents};
ghost use Rattle.set_standing.specs.Commands.{zeros_behind};
ghost use Rattle.domain_memory.specs.Kept.{KeepsKept};
ghost use Rattle.domain_memory.specs.Staged.{IsStagedForSome, MayGoBack, staged_books, staged_in};
ghost use Rattle.file_changes.specs.Stages.{HasFile, IsFileIn, StandsChanged};
ghost use Rattle.file_changes.specs.Writing.{StaysElse, cleared_behind};

use crate::describing::describe;
use crate::putting::put_page;
use crate::reading::page_of;
use crate::sizing::set_size;
use crate::truncating::truncate;
use domain_memory::limits::PAGE_BYTES;
use domain_memory::{DomainMemory, FilesetNo, OutOfMemory, Page, Tag};
use std::alloc::Global;

/// A copy of the page in which that byte of a file lies, with zeros from the byte on.
fn cleared(page: &Page, alloc: Global, size: u64) -> Result<Page, OutOfMemory>
    ensures { IfOk result (λ after. after ≡ zeros_behind size (size / PAGE_BYTES) page.now) }
{
    let zeros = Page::zeros(alloc)?;
    let mut after = page.copy(alloc)?;
    let at = (size % PAGE_BYTES as u64) as usize;
    after.set(at, &zeros.bytes()[at..]);
    Ok(after)
}

/// Puts zeros into a file from that byte on, up to the end of its page, if the file has that page.
fn clear_rest(
    memory: &mut DomainMemory,
    alloc: Global,
    number: FilesetNo,
    tag: Tag,
    size: u64,
) -> Result<(), OutOfMemory>
    requires stands { ∥ IsStagedForSome memory.old ∥₁ }
    requires back { ∥ MayGoBack memory.old ∥₁ }
    requires original { of_original (slice_get memory.old.table.slots number) ≡ true }
    requires file { IsFileIn memory.old number tag }
    requires fits { size ≤ FILE_BYTES }
    ensures ok { (path : Path) (all : FilesetMap) (entry : FilesetEntry) (fileset : FilesetSlot)
        → HasFile memory.old number tag path all entry fileset → OnOk result
        (StandsChanged path (cleared_behind size) all entry fileset memory.new) }
    ensures parents { (path : Path) (all : FilesetMap) (entry : FilesetEntry)
        (fileset : FilesetSlot) → HasFile memory.old number tag path all entry fileset
        → HaveParents (staged_in memory.old) → OnOk result (HaveParents (staged_in memory.new)) }
    ensures file { (path : Path) (all : FilesetMap) (entry : FilesetEntry) (fileset : FilesetSlot)
        → HasFile memory.old number tag path all entry fileset
        → OnOk result (IsFileIn memory.new number tag) }
    ensures rest { StaysElse memory.old memory.new }
{
    let page = size / PAGE_BYTES as u64;
    let Some(there) = page_of(memory, number, tag, page) else {
        return Ok(());
    };
    let after = cleared(there, alloc, size)?;
    put_page(memory, number, tag, page as u32, after);
    Ok(())
}

/// Truncates a file of the fileset in a slot, an original, or makes it longer. It then has that
/// size in bytes, those of its pages that begin before its end, and zeros after its end in the last
/// one. If pages lie after its end, its first cell says that they are to be let go of, and is
/// listed; the list has room for it. Fails only if memory runs out. After an Err the change may be
/// half made, and must be taken back; what was kept stays.
pub fn cut_file(
    memory: &mut DomainMemory,
    alloc: Global,
    number: FilesetNo,
    tag: Tag,
    size: u64,
) -> Result<(), OutOfMemory>
    requires stands { ∥ IsStagedForSome memory.old ∥₁ }
    requires back { ∥ MayGoBack memory.old ∥₁ }
    requires original { of_original (slice_get memory.old.table.slots number) ≡ true }
    requires file { IsFileIn memory.old number tag }
    requires fits { size ≤ FILE_BYTES }
    ensures ok { (path : Path) (all : FilesetMap) (entry : FilesetEntry) (fileset : FilesetSlot)
        → HasFile memory.old number tag path all entry fileset → OnOk result
        (StandsChanged path (truncated_node size) all entry fileset memory.new) }
    ensures parents { (path : Path) (all : FilesetMap) (entry : FilesetEntry)
        (fileset : FilesetSlot) → HasFile memory.old number tag path all entry fileset
        → HaveParents (staged_in memory.old) → OnOk result (HaveParents (staged_in memory.new)) }
    ensures file { (path : Path) (all : FilesetMap) (entry : FilesetEntry) (fileset : FilesetSlot)
        → HasFile memory.old number tag path all entry fileset
        → OnOk result (IsFileIn memory.new number tag) }
    ensures kept { KeepsKept memory.old memory.new }
    ensures back { ∥ MayGoBack memory.new ∥₁ }
    ensures table { memory.new.table ≡ memory.old.table }
    ensures counted { staged_books memory.new ≡ staged_books memory.old }
{
    truncate(memory, alloc, number, tag, size)?;
    clear_rest(memory, alloc, number, tag, size)
}

/// Sets whether the data of a file of the fileset in a slot, an original, is logged. Fails only if
/// memory runs out, and then the domain is as it was.
pub fn flag_file(
    memory: &mut DomainMemory,
    alloc: Global,
    number: FilesetNo,
    tag: Tag,
    is_logged: bool,
) -> Result<(), OutOfMemory>
    requires stands { ∥ IsStagedForSome memory.old ∥₁ }
    requires back { ∥ MayGoBack memory.old ∥₁ }
    requires original { of_original (slice_get memory.old.table.slots number) ≡ true }
    requires file { IsFileIn memory.old number tag }
    ensures ok { (path : Path) (all : FilesetMap) (entry : FilesetEntry) (fileset : FilesetSlot)
        → HasFile memory.old number tag path all entry fileset → OnOk result
        (StandsChanged path (flagged_node is_logged) all entry fileset memory.new) }
    ensures parents { (path : Path) (all : FilesetMap) (entry : FilesetEntry)
        (fileset : FilesetSlot) → HasFile memory.old number tag path all entry fileset
        → HaveParents (staged_in memory.old) → OnOk result (HaveParents (staged_in memory.new)) }
    ensures kept { KeepsKept memory.old memory.new }
    ensures back { ∥ MayGoBack memory.new ∥₁ }
    ensures table { memory.new.table ≡ memory.old.table }
    ensures counted { staged_books memory.new ≡ staged_books memory.old }
    ensures err { OnErr result (staged_in memory.new ≡ staged_in memory.old) }
{
    let what = describe(memory, number, tag);
    set_size(memory, alloc, number, tag, what.size, is_logged)
}
