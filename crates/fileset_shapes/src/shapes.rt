//! The filesets of a domain.
ghost use Rattle.std.specs.Prelude.{◌≡◌, IfOk, Some, slice_get};
ghost use Rattle.filesets_reading.specs.fileset_table.declared.slot.SlotItem.TheVariants as slot;
ghost use Rattle.page_ways.specs.Frame.{frame_in};
ghost use Rattle.fileset_shapes.specs.Found.{SeesItem, SeesSlot};
ghost use Rattle.fileset_shapes.specs.Shapes.{AreFilesAt, HasEntryAt, IsDomain, SeesSlots};

use crate::fileset_sources::{FilesetSource, read_files};
use crate::found::FilesetSeen;
use crate::{FilesetFiles, read_quotas};
use filesets_reading::{
    Bitfiles, DomainTables, FilesetEntry, FilesetNo, MetaPages, OutOfMemory, SlotItem,
    look_at_files, read_tags,
};
use page_ways::DomainFrame;
use std::alloc::Global;

/// The files of the fileset in a slot.
fn files_in<M: MetaPages>(
    alloc: Global,
    pages: &M,
    domain: &DomainFrame,
    tables: &DomainTables,
    number: FilesetNo,
    entry: &FilesetEntry,
) -> Result<FilesetFiles, OutOfMemory>
    requires domain { IsDomain (M.pages pages.now) (frame_in domain.now) tables.now }
    requires entry { HasEntryAt tables.now.filesets number entry.now }
    ensures { IfOk result (AreFilesAt (M.pages pages.now) number entry.now) }
{
    let tags = read_tags(
        alloc,
        pages,
        &domain.anchor,
        domain.version,
        entry.first_tag,
    )?;
    look_at_files(alloc, pages, number, &tags)?;
    let again = read_tags(
        alloc,
        pages,
        &domain.anchor,
        domain.version,
        entry.first_tag,
    )?;
    Ok(FilesetFiles {
        tags,
        files: Bitfiles::new(number, again),
    })
}

/// The original in a slot.
fn read_original_in<M: MetaPages>(
    alloc: Global,
    pages: &M,
    domain: &DomainFrame,
    tables: &DomainTables,
    number: FilesetNo,
    entry: &FilesetEntry,
) -> Result<FilesetSeen, OutOfMemory>
    requires domain { IsDomain (M.pages pages.now) (frame_in domain.now) tables.now }
    requires entry { slice_get tables.now.filesets.slots number ≡ Some (slot.Original entry.now) }
    ensures { IfOk result (λ found. SeesItem (M.pages pages.now) tables.now.filesets number
        (slot.Original entry.now) (Some found)) }
{
    let files = files_in(alloc, pages, domain, tables, number, entry)?;
    let quotas = read_quotas(alloc, pages, entry)?;
    Ok(FilesetSeen {
        original: None,
        files: read_files(alloc, pages, &FilesetSource::Original { files })?,
        quotas,
    })
}

/// The clone with a number in a slot, of the original in another.
fn read_clone_in<M: MetaPages>(
    alloc: Global,
    pages: &M,
    domain: &DomainFrame,
    tables: &DomainTables,
    number: FilesetNo,
    of: FilesetNo,
    clone: u64,
    entry: &FilesetEntry,
) -> Result<FilesetSeen, OutOfMemory>
    requires domain { IsDomain (M.pages pages.now) (frame_in domain.now) tables.now }
    requires entry { slice_get tables.now.filesets.slots number
        ≡ Some (slot.Clone of clone entry.now) }
    ensures { IfOk result (λ found. SeesItem (M.pages pages.now) tables.now.filesets number
        (slot.Clone of clone entry.now) (Some found)) }
{
    let SlotItem::Original { entry: original } = tables.filesets.slot(of) else {
        unreachable!()
    };
    let source = FilesetSource::Clone {
        own: files_in(alloc, pages, domain, tables, number, entry)?,
        behind: files_in(alloc, pages, domain, tables, of, original)?,
        number: clone,
    };
    let name = original.name.copy(alloc)?;
    let quotas = read_quotas(alloc, pages, entry)?;
    Ok(FilesetSeen {
        original: Some(name),
        files: read_files(alloc, pages, &source)?,
        quotas,
    })
}

/// The fileset in a slot. None if and only if no fileset is in the slot, or one that is being
/// removed.
pub fn read_slot<M: MetaPages>(
    alloc: Global,
    pages: &M,
    domain: &DomainFrame,
    tables: &DomainTables,
    number: FilesetNo,
) -> Result<Option<FilesetSeen>, OutOfMemory>
    requires { IsDomain (M.pages pages.now) (frame_in domain.now) tables.now }
    ensures { IfOk result (SeesSlot (M.pages pages.now) tables.now.filesets number) }
{
    let found = match tables.filesets.slot(number) {
        SlotItem::Free | SlotItem::Removed { .. } => return Ok(None),
        SlotItem::Original { entry } => {
            read_original_in(alloc, pages, domain, tables, number, entry)?
        }
        SlotItem::Clone {
            original,
            number: clone,
            entry,
        } => read_clone_in(
            alloc, pages, domain, tables, number, *original, *clone, entry,
        )?,
    };
    Ok(Some(found))
}

/// The filesets in all slots, in their order.
pub fn read_slots<M: MetaPages>(
    alloc: Global,
    pages: &M,
    domain: &DomainFrame,
    tables: &DomainTables,
) -> Result<Vec<Option<FilesetSeen>>, OutOfMemory>
    requires { IsDomain (M.pages pages.now) (frame_in domain.now) tables.now }
    ensures { IfOk result (λ found. SeesSlots (M.pages pages.now) tables.now.filesets
        found.items) }
{
    let mut found = Vec::new(alloc);
    for n in 0..32_u32 {
        let Some(number) = FilesetNo::new(n) else {
            unreachable!()
        };
        found.push(read_slot(alloc, pages, domain, tables, number)?)?;
    }
    Ok(found)
}
