//! What a slot may hold by itself.
ghost use Rattle.std.specs.Prelude.{◌↔◌, IsTrue};
ghost use Rattle.fileset_table.specs.Table.{IsAllowed, IsAllowedEntry, IsCellNumber};

use crate::slot::{FilesetEntry, SlotItem};
use metadata_cells::CellAt;
use metadata_cells::limits::PAGE_CELLS;
use word_forms::is_fileset_name;

/// Whether a cell, if there is one, has a number that a page of cells has.
fn is_cell(quota: &Option<CellAt>) -> bool
    ensures { IsTrue result ↔ IsCellNumber quota.now }
{
    match quota {
        Some(at) => at.cell < PAGE_CELLS,
        None => true,
    }
}

/// Whether a slot may hold this fileset.
fn is_allowed_entry(entry: &FilesetEntry) -> bool
    ensures { IsTrue result ↔ IsAllowedEntry entry.now }
{
    is_fileset_name(entry.name.as_slice()) && is_cell(&entry.quota)
}

/// Whether a slot may hold this, whatever the others hold.
pub(crate) fn is_allowed(item: &SlotItem) -> bool
    ensures { IsTrue result ↔ IsAllowed item.now }
{
    match item {
        SlotItem::Free => true,
        SlotItem::Original { entry } => is_allowed_entry(entry),
        SlotItem::Clone { entry, .. } => is_allowed_entry(entry),
        SlotItem::Removed { quota, .. } => is_cell(quota),
    }
}
