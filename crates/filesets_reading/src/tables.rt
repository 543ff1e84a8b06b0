//! The tables of a domain: that of its filesets, those of cells, and the tag directories.
ghost use Rattle.std.specs.Prelude.{◌≡◌, ◌↔◌, IfOk, OnOk};
ghost use Rattle.domain_layout.specs.Faults.{HasNoTablesFault, SaysTable};
ghost use Rattle.domain_layout.specs.Layout.{first_tag_of};
ghost use Rattle.filesets_reading.specs.Good.{AreGood, HasTagsAt, IsNamed, frame_at};
ghost use Rattle.filesets_reading.specs.Tables.{AreTablesOf, AreTagsOf, HasCellTable, HasTagsOf, HaveCellTables};

use crate::cells::read_cell_table;
use crate::tags::read_tags;
use domain_layout::{
    Anchor, FilesetNo, FilesetTable, Home, MetaPages, OutOfMemory, SlotItem, TableFault, TagDir,
    Version, VolIx, is_member,
};
use std::alloc::Global;

/// The tables of a domain: that of its filesets, and the tag directory of what is in each slot,
/// without a page if it has none.
#[derive(Drop)]
pub struct DomainTables {
    pub filesets: FilesetTable,
    pub tags: Vec<TagDir>,
}

/// Reads the table of cells of a volume, if it is a member.
fn look_at_volume<M: MetaPages>(
    alloc: Global,
    pages: &M,
    anchor: &Anchor,
    version: Version,
    number: u32,
) -> Result<(), OutOfMemory>
    requires { AreGood (M.pages pages.now) (frame_at anchor.now version) }
    ensures { OnOk result (HasCellTable (M.pages pages.now) (frame_at anchor.now version) number) }
{
    if let Some(vol) = VolIx::new(number) {
        if is_member(anchor, vol) {
            let _table = read_cell_table(alloc, pages, anchor, version, vol)?;
        }
    }
    Ok(())
}

/// Reads the table of cells of each member, so that it is known to be there.
fn look_at_cells<M: MetaPages>(
    alloc: Global,
    pages: &M,
    anchor: &Anchor,
    version: Version,
) -> Result<(), OutOfMemory>
    requires { AreGood (M.pages pages.now) (frame_at anchor.now version) }
    ensures { OnOk result (HaveCellTables 9 (M.pages pages.now) (frame_at anchor.now version)) }
{
    for number in 1..9_u32 {
        look_at_volume(alloc, pages, anchor, version, number)?;
    }
    Ok(())
}

/// The table of filesets.
fn read_filesets_table<M: MetaPages>(
    alloc: Global,
    pages: &M,
    anchor: &Anchor,
    version: Version,
) -> Result<FilesetTable, OutOfMemory>
    requires named { IsNamed anchor.now version }
    requires no_fault { HasNoTablesFault (M.pages pages.now) (frame_at anchor.now version) }
    ensures { IfOk result (SaysTable (M.pages pages.now) (frame_at anchor.now version)) }
{
    let Some(home) = anchor.table else {
        unreachable!()
    };
    let Some(page) = pages.get(home) else {
        unreachable!()
    };
    match FilesetTable::read(alloc, page) {
        Ok(table) => Ok(table),
        Err(TableFault::OutOfMemory) => Err(OutOfMemory),
        Err(TableFault::Bad) => unreachable!(),
    }
}

/// The first page of the tag directory of what is in a slot.
pub(crate) fn first_tag(item: &SlotItem) -> Option<Home>
    ensures { result ≡ first_tag_of item.now }
{
    match item {
        SlotItem::Free => None,
        SlotItem::Original { entry } | SlotItem::Clone { entry, .. } => Some(entry.first_tag),
        SlotItem::Removed { first_tag, .. } => *first_tag,
    }
}

/// The tag directory of what is in a slot.
fn read_slot_tags<M: MetaPages>(
    alloc: Global,
    pages: &M,
    anchor: &Anchor,
    version: Version,
    filesets: &FilesetTable,
    number: FilesetNo,
) -> Result<TagDir, OutOfMemory>
    requires good { AreGood (M.pages pages.now) (frame_at anchor.now version) }
    requires says { SaysTable (M.pages pages.now) (frame_at anchor.now version) filesets.now }
    ensures { IfOk result (HasTagsOf (M.pages pages.now) filesets.now number) }
{
    match first_tag(filesets.slot(number)) {
        Some(first) => read_tags(alloc, pages, anchor, version, first),
        None => Ok(TagDir::new(alloc)),
    }
}

/// The tag directories of what is in the slots.
fn read_all_tags<M: MetaPages>(
    alloc: Global,
    pages: &M,
    anchor: &Anchor,
    version: Version,
    filesets: &FilesetTable,
) -> Result<Vec<TagDir>, OutOfMemory>
    requires good { AreGood (M.pages pages.now) (frame_at anchor.now version) }
    requires says { SaysTable (M.pages pages.now) (frame_at anchor.now version) filesets.now }
    ensures { IfOk result (λ tags. AreTagsOf (M.pages pages.now) filesets.now tags.items) }
{
    let mut tags = Vec::new(alloc);
    for number in 0..32_u32 {
        let Some(slot) = FilesetNo::new(number) else {
            unreachable!()
        };
        tags.push(read_slot_tags(alloc, pages, anchor, version, filesets, slot)?)?;
    }
    Ok(tags)
}

/// The tables of a domain with this anchor. So if no rule of tables is broken, its pages are laid
/// out as a domain's are.
pub fn read_tables<M: MetaPages>(
    alloc: Global,
    pages: &M,
    anchor: &Anchor,
    version: Version,
) -> Result<DomainTables, OutOfMemory>
    requires named { IsNamed anchor.now version }
    requires no_fault { HasNoTablesFault (M.pages pages.now) (frame_at anchor.now version) }
    ensures { IfOk result (AreTablesOf (M.pages pages.now) (frame_at anchor.now version)) }
{
    let filesets = read_filesets_table(alloc, pages, anchor, version)?;
    look_at_cells(alloc, pages, anchor, version)?;
    let tags = read_all_tags(alloc, pages, anchor, version, &filesets)?;
    Ok(DomainTables { filesets, tags })
}
