//! Writing bytes to a file.
ghost use Rattle.std.specs.Prelude.{◌*◌, ◌+◌, ◌-◌, ◌/◌, ◌<◌, ◌^◌, ◌≡◌, ◌↔◌, ◌≤◌, IfErr, IfOk, OnOk, false, length, slice_get, true, unwrap_or};
ghost use Rattle.std.specs.FinMap.{get};
ghost use Rattle.domain_memory.specs.domain_base.Page.{zero_bytes};
ghost use Rattle.domain_memory.specs.domain_base.declared.limits.TheConstants.{FILE_BYTES};
ghost use Rattle.domain_memory.specs.page_store.declared.fault.StoreFault.TheVariants.{NoPage};
ghost use Rattle.domain_memory.specs.fileset_model.Apply.{written_node};
ghost use Rattle.domain_memory.specs.fileset_model.Filesets.{FilesetMap};
ghost use Rattle.domain_memory.specs.fileset_values.Orders.{Path};
ghost use Rattle.domain_memory.specs.fileset_model.Pages.{absent_pages as absent_of, page_after as bytes_after, pages_of};
ghost use Rattle.domain_memory.specs.fileset_model.declared.fileset.FilesetSlot.{FilesetSlot};
ghost use Rattle.domain_memory.specs.fileset_table.declared.slot.FilesetEntry.{FilesetEntry};
ghost use Rattle.domain_memory.specs.domain_layout.CellRules.{of_original};
ghost use Rattle.domain_memory.specs.domain_standing.Standing.{HaveParents};
ghost use Rattle.set_standing.specs.Nodes.{with_page};
ghost use Rattle.domain_memory.specs.Kept.{KeepsKept};
ghost use Rattle.domain_memory.specs.Staged.{IsStagedForSome, MayGoBack, staged_books, staged_in};
ghost use Rattle.file_changes.specs.Reading.{AreOpen, IsOpen, KeepsOpen, pages_at};
ghost use Rattle.file_changes.specs.Stages.{HasFile, IsFileIn, StandsChanged};
ghost use Rattle.file_changes.specs.Writing.{StaysElse, WantsAt, WantsPage, with_written};

use crate::describing::describe;
use crate::giving::give_page;
use crate::looking::{FilePage, look_at_page};
use crate::putting::put_page;
use crate::reading::page_of;
use crate::sizing::set_size;
use domain_memory::limits::{FILE_PAGES, PAGE_BYTES};
use domain_memory::{DomainMemory, FilesetNo, OutOfMemory, Page, StoreFault, Tag, VolIx};
use std::alloc::Global;

/// What a write needs of the pages that its bytes lie in.
#[derive(Clone, Copy)]
pub struct PagesWanted {
    /// How many of them the file does not have.
    pub absent: u64,
    /// Whether the file has or may get each of them. It cannot get a page that it does not keep,
    /// since pages after those that it keeps are still to be let go of.
    pub are_open: bool,
}

/// How many of the pages that `len` bytes of a file from an offset on lie in are absent, and
/// whether each of them may be written. It takes no memory.
pub fn absent_pages(
    memory: &DomainMemory,
    number: FilesetNo,
    tag: Tag,
    offset: u64,
    len: u64,
) -> PagesWanted
    requires stands { ∥ IsStagedForSome memory.now ∥₁ }
    requires back { ∥ MayGoBack memory.now ∥₁ }
    requires original { of_original (slice_get memory.now.table.slots number) ≡ true }
    requires file { IsFileIn memory.now number tag }
    requires fits { offset + len ≤ FILE_BYTES }
    ensures count { (path : Path) (all : FilesetMap) (entry : FilesetEntry) (fileset : FilesetSlot)
        → HasFile memory.now number tag path all entry fileset
        → result.absent ≡ absent_of (pages_at fileset.tree path) offset len }
    ensures few { result.absent ≤ FILE_PAGES }
    ensures opened { (result.are_open ≡ true) ↔ AreOpen memory.now number tag offset len }
    ensures closed { result.are_open ≡ false → 1 ≤ result.absent }
{
    let mut absent = 0;
    let mut are_open = true;
    if len == 0 {
        return PagesWanted { absent, are_open };
    }
    let first = offset / PAGE_BYTES as u64;
    let end = (offset + len - 1) / PAGE_BYTES as u64 + 1;
    for page in first..end {
        match look_at_page(memory, number, tag, page as u32) {
            FilePage::There => {}
            FilePage::Lacking => absent += 1,
            FilePage::Closed | FilePage::NoFile => {
                absent += 1;
                are_open = false;
            }
        }
    }
    PagesWanted { absent, are_open }
}

/// Puts bytes on a page that a file has or may get.
fn place_page(
    memory: &mut DomainMemory,
    alloc: Global,
    number: FilesetNo,
    tag: Tag,
    page: u32,
    bytes: Page,
    prefer: VolIx,
) -> Result<(), StoreFault>
    requires stands { ∥ IsStagedForSome memory.old ∥₁ }
    requires back { ∥ MayGoBack memory.old ∥₁ }
    requires original { of_original (slice_get memory.old.table.slots number) ≡ true }
    requires file { IsFileIn memory.old number tag }
    requires writable { IsOpen memory.old number tag page }
    requires small { page < FILE_PAGES }
    ensures ok { (path : Path) (all : FilesetMap) (entry : FilesetEntry) (fileset : FilesetSlot)
        → HasFile memory.old number tag path all entry fileset → OnOk result
        (StandsChanged path (with_page page bytes) all entry fileset memory.new) }
    ensures parents { (path : Path) (all : FilesetMap) (entry : FilesetEntry)
        (fileset : FilesetSlot) → HasFile memory.old number tag path all entry fileset
        → HaveParents (staged_in memory.old) → OnOk result (HaveParents (staged_in memory.new)) }
    ensures open_still { (path : Path) (all : FilesetMap) (entry : FilesetEntry)
        (fileset : FilesetSlot) → HasFile memory.old number tag path all entry fileset
        → OnOk result (KeepsOpen number tag memory.old memory.new) }
    ensures rest { StaysElse memory.old memory.new }
    ensures cause { IfErr result (λ fault. fault ≡ NoPage → WantsAt memory.old number tag page) }
{
    match look_at_page(memory, number, tag, page) {
        FilePage::There => {
            put_page(memory, number, tag, page, bytes);
            Ok(())
        }
        FilePage::Lacking => give_page(memory, alloc, number, tag, page, bytes, prefer),
        FilePage::Closed | FilePage::NoFile => unreachable!(),
    }
}

/// A copy of a page of a file, or a page of zeros if the file does not have it.
fn page_or_zeros(
    memory: &DomainMemory,
    alloc: Global,
    number: FilesetNo,
    tag: Tag,
    page: u64,
) -> Result<Page, OutOfMemory>
    requires stands { ∥ IsStagedForSome memory.now ∥₁ }
    requires back { ∥ MayGoBack memory.now ∥₁ }
    requires original { of_original (slice_get memory.now.table.slots number) ≡ true }
    requires file { IsFileIn memory.now number tag }
    ensures { (path : Path) (all : FilesetMap) (entry : FilesetEntry) (fileset : FilesetSlot)
        → HasFile memory.now number tag path all entry fileset
        → IfOk result (λ copy. copy ≡ unwrap_or (get (pages_at fileset.tree path) page)
        (zero_bytes PAGE_BYTES)) }
{
    match page_of(memory, number, tag, page) {
        Some(there) => there.copy(alloc),
        None => Page::zeros(alloc),
    }
}

/// A page of a file as it is after a write of the bytes at the offset.
fn page_after(
    memory: &DomainMemory,
    alloc: Global,
    number: FilesetNo,
    tag: Tag,
    offset: u64,
    bytes: &[u8],
    page: u64,
) -> Result<Page, OutOfMemory>
    requires stands { ∥ IsStagedForSome memory.now ∥₁ }
    requires back { ∥ MayGoBack memory.now ∥₁ }
    requires original { of_original (slice_get memory.now.table.slots number) ≡ true }
    requires file { IsFileIn memory.now number tag }
    requires fits { page * PAGE_BYTES < 2 ^ 64 }
    requires reached { offset - page * PAGE_BYTES ≤ PAGE_BYTES }
    requires reaches { page * PAGE_BYTES - offset ≤ length bytes.now }
    ensures { (path : Path) (all : FilesetMap) (entry : FilesetEntry) (fileset : FilesetSlot)
        → HasFile memory.now number tag path all entry fileset
        → IfOk result (λ after.
        after ≡ bytes_after (pages_at fileset.tree path) offset bytes.now page) }
{
    let mut after = page_or_zeros(memory, alloc, number, tag, page)?;
    let start = page * PAGE_BYTES as u64;
    let at = offset.saturating_sub(start) as usize;
    let rest = &bytes[start.saturating_sub(offset) as usize..];
    after.set(at, &rest[..rest.len().min(PAGE_BYTES - at)]);
    Ok(after)
}

/// Lays on a page those of the bytes at the offset that lie in it.
fn write_page(
    memory: &mut DomainMemory,
    alloc: Global,
    number: FilesetNo,
    tag: Tag,
    offset: u64,
    bytes: &[u8],
    page: u64,
    prefer: VolIx,
) -> Result<(), StoreFault>
    requires stands { ∥ IsStagedForSome memory.old ∥₁ }
    requires back { ∥ MayGoBack memory.old ∥₁ }
    requires original { of_original (slice_get memory.old.table.slots number) ≡ true }
    requires file { IsFileIn memory.old number tag }
    requires writable { IsOpen memory.old number tag page }
    requires small { page < FILE_PAGES }
    requires reached { offset - page * PAGE_BYTES ≤ PAGE_BYTES }
    requires reaches { page * PAGE_BYTES - offset ≤ length bytes.now }
    ensures ok { (path : Path) (all : FilesetMap) (entry : FilesetEntry) (fileset : FilesetSlot)
        → HasFile memory.old number tag path all entry fileset
        → OnOk result (StandsChanged path
        (with_page page (bytes_after (pages_at fileset.tree path) offset bytes.now page))
        all entry fileset memory.new) }
    ensures parents { (path : Path) (all : FilesetMap) (entry : FilesetEntry)
        (fileset : FilesetSlot) → HasFile memory.old number tag path all entry fileset
        → HaveParents (staged_in memory.old) → OnOk result (HaveParents (staged_in memory.new)) }
    ensures open_still { (path : Path) (all : FilesetMap) (entry : FilesetEntry)
        (fileset : FilesetSlot) → HasFile memory.old number tag path all entry fileset
        → OnOk result (KeepsOpen number tag memory.old memory.new) }
    ensures rest { StaysElse memory.old memory.new }
    ensures cause { IfErr result (λ fault. fault ≡ NoPage → WantsAt memory.old number tag page) }
{
    let after = page_after(memory, alloc, number, tag, offset, bytes, page)?;
    place_page(memory, alloc, number, tag, page as u32, after, prefer)
}

/// Lays bytes on the pages of a file that they lie in, whatever its size is.
fn write_pages(
    memory: &mut DomainMemory,
    alloc: Global,
    number: FilesetNo,
    tag: Tag,
    offset: u64,
    bytes: &[u8],
    prefer: VolIx,
) -> Result<(), StoreFault>
    requires stands { ∥ IsStagedForSome memory.old ∥₁ }
    requires back { ∥ MayGoBack memory.old ∥₁ }
    requires original { of_original (slice_get memory.old.table.slots number) ≡ true }
    requires file { IsFileIn memory.old number tag }
    requires fits { offset + length bytes.now ≤ FILE_BYTES }
    requires writable { AreOpen memory.old number tag offset (length bytes.now) }
    ensures ok { (path : Path) (all : FilesetMap) (entry : FilesetEntry) (fileset : FilesetSlot)
        → HasFile memory.old number tag path all entry fileset → OnOk result (StandsChanged path
        (with_written (pages_of offset (length bytes.now)) offset bytes.now)
        all entry fileset memory.new) }
    ensures parents { (path : Path) (all : FilesetMap) (entry : FilesetEntry)
        (fileset : FilesetSlot) → HasFile memory.old number tag path all entry fileset
        → HaveParents (staged_in memory.old) → OnOk result (HaveParents (staged_in memory.new)) }
    ensures file { OnOk result (IsFileIn memory.new number tag) }
    ensures rest { StaysElse memory.old memory.new }
    ensures cause { IfErr result (λ fault. fault ≡ NoPage
        → WantsPage memory.old number tag offset bytes.now) }
{
    if bytes.is_empty() {
        return Ok(());
    }
    let first = offset / PAGE_BYTES as u64;
    let end = (offset + bytes.len() as u64 - 1) / PAGE_BYTES as u64 + 1;
    for page in first..end {
        write_page(memory, alloc, number, tag, offset, bytes, page, prefer)?;
    }
    Ok(())
}

/// Writes bytes to a file of the fileset in a slot, an original, from an offset on. The file then
/// reaches at least to the last of them. Pages that it did not have are free ones, looked for on
/// the preferred volume first, with zeros where no byte is written. The file must have, or be able
/// to get, each page that the bytes lie in, as absent_pages tells. Fails if no page is free, which
/// happens only if one of them is absent, or if memory runs out. After an Err the change may be
/// half made, and must be taken back; what was kept stays.
pub fn write_bytes(
    memory: &mut DomainMemory,
    alloc: Global,
    number: FilesetNo,
    tag: Tag,
    offset: u64,
    bytes: &[u8],
    prefer: VolIx,
) -> Result<(), StoreFault>
    requires stands { ∥ IsStagedForSome memory.old ∥₁ }
    requires back { ∥ MayGoBack memory.old ∥₁ }
    requires original { of_original (slice_get memory.old.table.slots number) ≡ true }
    requires file { IsFileIn memory.old number tag }
    requires fits { offset + length bytes.now ≤ FILE_BYTES }
    requires writable { AreOpen memory.old number tag offset (length bytes.now) }
    ensures ok { (path : Path) (all : FilesetMap) (entry : FilesetEntry) (fileset : FilesetSlot)
        → HasFile memory.old number tag path all entry fileset → OnOk result
        (StandsChanged path (written_node offset bytes.now) all entry fileset memory.new) }
    ensures parents { (path : Path) (all : FilesetMap) (entry : FilesetEntry)
        (fileset : FilesetSlot) → HasFile memory.old number tag path all entry fileset
        → HaveParents (staged_in memory.old) → OnOk result (HaveParents (staged_in memory.new)) }
    ensures kept { KeepsKept memory.old memory.new }
    ensures back { ∥ MayGoBack memory.new ∥₁ }
    ensures table { memory.new.table ≡ memory.old.table }
    ensures counted { staged_books memory.new ≡ staged_books memory.old }
    ensures cause { IfErr result (λ fault. fault ≡ NoPage
        → WantsPage memory.old number tag offset bytes.now) }
{
    write_pages(memory, alloc, number, tag, offset, bytes, prefer)?;
    let what = describe(memory, number, tag);
    let size = what.size.max(offset + bytes.len() as u64);
    set_size(memory, alloc, number, tag, size, what.is_logged)?;
    Ok(())
}
