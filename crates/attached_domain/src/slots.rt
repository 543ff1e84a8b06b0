//! Reading what is in the slots of the fileset table from the pages.
ghost use Rattle.std.specs.Prelude.{◌≡◌, IfOk};
ghost use Rattle.no_faults.specs.domain_layout.Faults.{SaysTable};
ghost use Rattle.no_faults.specs.domain_layout.Layout.{first_tag_of};
ghost use Rattle.no_faults.specs.page_ways.Frame.{frame_in};
ghost use Rattle.no_faults.specs.tag_dirs.Directory.{IsDirectoryAt};
ghost use Rattle.no_faults.specs.filesets_reading.Good.{AreGood, HasTagsAt, frame_at};
ghost use Rattle.attached_domain.specs.Read.{IsSettledSlot};
ghost use Rattle.attached_domain.specs.Slots.{AreReadSlots, IsReadOf};

use no_faults::{
    Anchor, Bitfiles, DomainFrame, FilesetNo, FilesetTable, Home, MetaPages, OutOfMemory,
    QuotaBook, SlotFiles, SlotItem, Version, read_tags,
};
use std::alloc::Global;

/// What is in a slot whose tag directory begins there, with the book of what its owners use. Fails
/// only if memory runs out.
fn read_slot_files<M: MetaPages>(
    alloc: Global,
    pages: &M,
    anchor: &Anchor,
    version: Version,
    number: FilesetNo,
    first: Home,
    book: QuotaBook,
) -> Result<SlotFiles, OutOfMemory>
    requires good { AreGood (M.pages pages.now) (frame_at anchor.now version) }
    requires tags { HasTagsAt (M.pages pages.now) (frame_at anchor.now version) first }
    requires kept { book.kept ≡ book.book }
    ensures number { IfOk result (λ slot. slot.files.fileset ≡ number) }
    ensures directory { IfOk result (λ slot.
        IsDirectoryAt (M.pages pages.now) first slot.files.tags) }
    ensures settled { IfOk result IsSettledSlot }
    ensures book { IfOk result (λ slot. slot.book ≡ book) }
{
    let tags = read_tags(alloc, pages, anchor, version, first)?;
    let files = Bitfiles::new(number, tags);
    let tag_pages = files.tag_places().len();
    Ok(SlotFiles {
        files,
        book,
        tag_pages,
    })
}

/// The first page of the tag directory of what is in a slot.
fn first_tag(item: &SlotItem) -> Option<Home>
    ensures { result ≡ first_tag_of item.now }
{
    match item {
        SlotItem::Free => None,
        SlotItem::Original { entry } | SlotItem::Clone { entry, .. } => Some(entry.first_tag),
        SlotItem::Removed { first_tag, .. } => *first_tag,
    }
}

/// What is in a slot of the table, with an empty book.
fn read_slot<M: MetaPages>(
    alloc: Global,
    pages: &M,
    frame: &DomainFrame,
    table: &FilesetTable,
    number: FilesetNo,
) -> Result<Option<SlotFiles>, OutOfMemory>
    requires good { AreGood (M.pages pages.now) (frame_in frame.now) }
    requires says { SaysTable (M.pages pages.now) (frame_in frame.now) table.now }
    ensures { IfOk result (IsReadOf (M.pages pages.now) table.now number) }
{
    let Some(first) = first_tag(table.slot(number)) else {
        return Ok(None);
    };
    let book = QuotaBook::new(alloc);
    let slot = read_slot_files(
        alloc,
        pages,
        &frame.anchor,
        frame.version,
        number,
        first,
        book,
    )?;
    Ok(Some(slot))
}

/// What is in each slot of the table, with an empty book. Fails only if memory runs out.
pub fn read_slots<M: MetaPages>(
    alloc: Global,
    pages: &M,
    frame: &DomainFrame,
    table: &FilesetTable,
) -> Result<Vec<Option<SlotFiles>>, OutOfMemory>
    requires good { AreGood (M.pages pages.now) (frame_in frame.now) }
    requires says { SaysTable (M.pages pages.now) (frame_in frame.now) table.now }
    ensures { IfOk result (λ slots. AreReadSlots (M.pages pages.now) table.now slots.items) }
{
    let mut slots = Vec::new(alloc);
    for n in 0..32_u32 {
        let Some(number) = FilesetNo::new(n) else {
            unreachable!()
        };
        slots.push(read_slot(alloc, pages, frame, table, number)?)?;
    }
    Ok(slots)
}
