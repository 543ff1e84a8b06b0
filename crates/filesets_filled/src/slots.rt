//! The fileset in a slot.
ghost use Rattle.std.specs.Prelude.{◌≡◌, IfOk, OnOk, Some, option_copied, slice_get};
ghost use Rattle.fileset_shapes.specs.fileset_table.Table.{entry_of as entry_there};
ghost use Rattle.fileset_shapes.specs.page_ways.Frame.{frame_in};
ghost use Rattle.fileset_shapes.specs.Shapes.{IsDomain};
ghost use Rattle.filesets_filled.specs.Slots.{FillsSlot, with_found};

use crate::fill_fileset;
use fileset_shapes::{
    DomainFrame, DomainTables, FilesetEntry, FilesetName, FilesetNo, FilesetSeen, FilesetSlot,
    Filesets, MetaPages, OutOfMemory, SlotItem, read_slot,
};
use std::alloc::Global;

/// A fileset with its name.
#[derive(Drop)]
pub(crate) struct NamedFileset {
    pub(crate) name: FilesetName,
    pub(crate) slot: FilesetSlot,
}

/// The fileset in a slot, if it has one that is not being removed.
fn entry_of(item: &SlotItem) -> Option<&FilesetEntry>
    ensures { option_copied result ≡ entry_there item.now }
{
    match item {
        SlotItem::Original { entry } | SlotItem::Clone { entry, .. } => Some(entry),
        SlotItem::Free | SlotItem::Removed { .. } => None,
    }
}

/// The fileset in a slot, filled. None if and only if no fileset is in the slot, or one that is
/// being removed.
pub(crate) fn read_fileset<M: MetaPages>(
    alloc: Global,
    pages: &M,
    domain: &DomainFrame,
    tables: &DomainTables,
    number: FilesetNo,
) -> Result<Option<NamedFileset>, OutOfMemory>
    requires { IsDomain (M.pages pages.now) (frame_in domain.now) tables.now }
    ensures { IfOk result (FillsSlot (M.pages pages.now) tables.now.filesets number) }
{
    let Some(entry) = entry_of(tables.filesets.slot(number)) else {
        return Ok(None);
    };
    let Some(found) = read_slot(alloc, pages, domain, tables, number)? else {
        unreachable!()
    };
    Ok(Some(NamedFileset {
        name: entry.name.copy(alloc)?,
        slot: fill_fileset(alloc, pages, entry, &found)?,
    }))
}

/// Adds a fileset, if one was found.
pub(crate) fn put_found(found: Option<NamedFileset>, all: &mut Filesets) -> Result<(), OutOfMemory>
    ensures { OnOk result (all.new ≡ with_found found all.old) }
{
    match found {
        Some(NamedFileset { name, slot }) => all.insert(name, slot),
        None => Ok(()),
    }
}
