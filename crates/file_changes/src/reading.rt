//! The pages that a file has, and the bytes on them.
ghost use Rattle.std.specs.Prelude.{◌%◌, ◌+◌, ◌-◌, ◌/◌, ◌<◌, ◌^◌, ◌≡◌, IfOk, IfSome, IsSomeAnd, Some, length, map, min, slice_get, true, unwrap_or};
ghost use Rattle.std.specs.FinMap.{get};
ghost use Rattle.std.specs.List.{range_with_len};
ghost use Rattle.std.specs.Option.{option_copied};
ghost use Rattle.domain_memory.specs.domain_base.Page.{zero_bytes};
ghost use Rattle.domain_memory.specs.fileset_model.Apply.{read_of};
ghost use Rattle.domain_memory.specs.fileset_model.Filesets.{FilesetMap};
ghost use Rattle.domain_memory.specs.fileset_values.Orders.{Path};
ghost use Rattle.domain_memory.specs.fileset_model.Pages.{byte_at};
ghost use Rattle.domain_memory.specs.fileset_model.Paths.{node_at};
ghost use Rattle.domain_memory.specs.fileset_model.declared.fileset.FilesetSlot.{FilesetSlot};
ghost use Rattle.domain_memory.specs.fileset_values.declared.reply.Reply.TheVariants.{Read};
ghost use Rattle.domain_memory.specs.fileset_table.declared.slot.FilesetEntry.{FilesetEntry};
ghost use Rattle.domain_memory.specs.domain_layout.CellRules.{of_original};
ghost use Rattle.domain_memory.specs.Staged.{IsStagedForSome, MayGoBack};
ghost use Rattle.file_changes.specs.Reading.{pages_at};
ghost use Rattle.file_changes.specs.Stages.{HasFile, HasPage, IsFileIn};

use crate::describing::describe;
use crate::looking::kept_of;
use crate::slots::files_in;
use domain_memory::limits::PAGE_BYTES;
use domain_memory::{DomainMemory, FilesetNo, MetaPages, OutOfMemory, Page, Tag};
use std::alloc::Global;

/// A page that a file of the fileset in a slot, an original, has and keeps. It takes no memory.
pub fn page_of(memory: &DomainMemory, number: FilesetNo, tag: Tag, page: u64) -> Option<&Page>
    requires stands { ∥ IsStagedForSome memory.now ∥₁ }
    requires back { ∥ MayGoBack memory.now ∥₁ }
    requires original { of_original (slice_get memory.now.table.slots number) ≡ true }
    requires file { IsFileIn memory.now number tag }
    ensures kept { IfSome result (λ bytes. HasPage memory.now number tag page) }
    ensures is { (path : Path) (all : FilesetMap) (entry : FilesetEntry) (fileset : FilesetSlot)
        → HasFile memory.now number tag path all entry fileset
        → option_copied result ≡ get (pages_at fileset.tree path) page }
{
    let slot = files_in(&memory.slots, number);
    let keep = kept_of(&memory.pages, &slot.files, tag)?;
    if page >= u64::from(keep) {
        return None;
    }
    let home = slot
        .files
        .page_home(&memory.pages, tag, page as u32)
        .home()?;
    memory.pages.get(home)
}

/// A page, or these zeros if the file does not have it.
fn page_or<'a>(
    memory: &'a DomainMemory,
    number: FilesetNo,
    tag: Tag,
    page: u64,
    zeros: &'a Page,
) -> &'a Page
    requires stands { ∥ IsStagedForSome memory.now ∥₁ }
    requires back { ∥ MayGoBack memory.now ∥₁ }
    requires original { of_original (slice_get memory.now.table.slots number) ≡ true }
    requires file { IsFileIn memory.now number tag }
    ensures { (path : Path) (all : FilesetMap) (entry : FilesetEntry) (fileset : FilesetSlot)
        → HasFile memory.now number tag path all entry fileset
        → result.now ≡ unwrap_or (get (pages_at fileset.tree path) page) zeros.now }
{
    match page_of(memory, number, tag, page) {
        Some(there) => there,
        None => zeros,
    }
}

/// The bytes from `x` on that lie in the page of `x`, at most `most`.
fn bytes_in_page<'a>(
    memory: &'a DomainMemory,
    number: FilesetNo,
    tag: Tag,
    x: u64,
    most: u64,
    zeros: &'a Page,
) -> &'a [u8]
    requires stands { ∥ IsStagedForSome memory.now ∥₁ }
    requires back { ∥ MayGoBack memory.now ∥₁ }
    requires original { of_original (slice_get memory.now.table.slots number) ≡ true }
    requires file { IsFileIn memory.now number tag }
    requires zeros { zeros.now ≡ zero_bytes PAGE_BYTES }
    ensures bytes { (path : Path) (all : FilesetMap) (entry : FilesetEntry) (fileset : FilesetSlot)
        → HasFile memory.now number tag path all entry fileset
        → result.now ≡ map (byte_at (pages_at fileset.tree path))
        (range_with_len x (length result.now)) }
    ensures len { length result.now ≡ min most (PAGE_BYTES - x % PAGE_BYTES) }
{
    let page = page_or(memory, number, tag, x / PAGE_BYTES as u64, zeros);
    let at = (x % PAGE_BYTES as u64) as usize;
    let len = most.min((PAGE_BYTES - at) as u64) as usize;
    &page.bytes()[at..at + len]
}

/// `count` bytes of a file from an offset on. Bytes of pages that it does not have are zeros.
fn read_all(
    memory: &DomainMemory,
    alloc: Global,
    number: FilesetNo,
    tag: Tag,
    offset: u64,
    count: u64,
) -> Result<Vec<u8>, OutOfMemory>
    requires stands { ∥ IsStagedForSome memory.now ∥₁ }
    requires back { ∥ MayGoBack memory.now ∥₁ }
    requires original { of_original (slice_get memory.now.table.slots number) ≡ true }
    requires file { IsFileIn memory.now number tag }
    requires fits { offset + count < 2 ^ 64 }
    ensures { (path : Path) (all : FilesetMap) (entry : FilesetEntry) (fileset : FilesetSlot)
        → HasFile memory.now number tag path all entry fileset
        → IfOk result (λ v. v.items ≡ map (byte_at (pages_at fileset.tree path))
        (range_with_len offset count)) }
{
    let zeros = Page::zeros(alloc)?;
    let mut bytes = Vec::new(alloc);
    let end = offset + count;
    let mut x = offset;
    while x < end {
        let run = bytes_in_page(memory, number, tag, x, end - x, &zeros);
        bytes.extend_from_slice(run)?;
        x += run.len() as u64;
    }
    Ok(bytes)
}

/// Reads at most `count` bytes of a file of the fileset in a slot, an original, from an offset on:
/// nothing from its end on, and zeros for pages that it does not have. Fails only if memory runs
/// out.
pub fn read_bytes(
    memory: &DomainMemory,
    alloc: Global,
    number: FilesetNo,
    tag: Tag,
    offset: u64,
    count: u32,
) -> Result<Vec<u8>, OutOfMemory>
    requires stands { ∥ IsStagedForSome memory.now ∥₁ }
    requires back { ∥ MayGoBack memory.now ∥₁ }
    requires original { of_original (slice_get memory.now.table.slots number) ≡ true }
    requires file { IsFileIn memory.now number tag }
    ensures { (path : Path) (all : FilesetMap) (entry : FilesetEntry) (fileset : FilesetSlot)
        → HasFile memory.now number tag path all entry fileset
        → IfOk result (λ v. IsSomeAnd (node_at fileset.tree path)
        (λ node. read_of offset count node ≡ Read v.items)) }
{
    let what = describe(memory, number, tag);
    let count = u64::from(count).min(what.size.saturating_sub(offset));
    read_all(memory, alloc, number, tag, offset, count)
}
