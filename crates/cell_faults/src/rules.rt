//! Which records a cell may have in its fileset or on its volume.
ghost use Rattle.std.specs.Prelude.{◌≡◌, ◌↔◌, IsTrue};
ghost use Rattle.std.specs.Option.{option_copied};
ghost use Rattle.page_ways.specs.domain_layout.CellRules.{IsFirstPlace, SaysVolume, is_good_first as good_first, item_of as item_in};
ghost use Rattle.page_ways.specs.Frame.{frame_in};
ghost use Rattle.cell_faults.specs.Rules.{cell_in, fit_fileset as fits, records_fit as fit};

use crate::records::{
    are_limits, has_first_records, has_its_kinds, is_chain_records, is_volume_alone, keeps_well,
    says_removed,
};
use page_ways::{
    CellAt, CellHead, CellKind, DomainFrame, FilesetTable, Record, SlotItem, UsedCell, VolIx,
};

/// What is in the slot that a head names.
fn item_of<'a>(table: &'a FilesetTable, head: &CellHead) -> Option<&'a SlotItem>
    ensures { option_copied result ≡ item_in table.now head.now }
{
    Some(table.slot(head.fileset?))
}

/// Whether the records are those that what is in a slot has in first cells. What is being removed,
/// or an empty slot, asks nothing of them.
fn fit_fileset(item: Option<&SlotItem>, records: &[Record]) -> bool
    ensures { result ≡ fits (option_copied item.entry) records.now }
{
    match item {
        Some(SlotItem::Original { .. }) => has_its_kinds(records, false) && keeps_well(records),
        Some(SlotItem::Clone { .. }) => has_its_kinds(records, true),
        _ => true,
    }
}

/// Whether a first cell has the records that it may have: all of it is to be removed, or they are
/// those of an original or a clone.
fn is_good_first(table: &FilesetTable, used: &UsedCell) -> bool
    ensures { result ≡ good_first table.now (cell_in used.now) }
{
    let records = used.records.as_slice();
    has_first_records(records)
        && (says_removed(records) || fit_fileset(item_of(table, &used.head), records))
}

/// Whether a cell in use has the records that one of its kind may have. For the kind that says a
/// volume, `says_volume` tells it.
pub(crate) fn records_fit(table: &FilesetTable, used: &UsedCell) -> bool
    ensures { result ≡ fit table.now used.now.head.kind (cell_in used.now) }
{
    match used.head.kind {
        CellKind::Primary => is_good_first(table, used),
        CellKind::Chain => is_chain_records(used.records.as_slice()),
        CellKind::Quota => are_limits(used.records.as_slice()),
        CellKind::Volume => true,
    }
}

/// Whether a place is that of a volume's first cell.
pub(crate) fn is_first_place(frame: &DomainFrame, at: &CellAt) -> bool
    ensures { IsTrue result ↔ IsFirstPlace (frame_in frame.now) at.now }
{
    at.page == frame.first_cells(at.vol) && at.cell == 0
}

/// Whether a cell in use says a volume as the anchor has it.
pub(crate) fn says_volume(frame: &DomainFrame, vol: VolIx, used: &UsedCell) -> bool
    ensures { IsTrue result ↔ SaysVolume (frame_in frame.now) vol (cell_in used.now) }
{
    let size = frame.member(vol).pages;
    let bitmap = frame.version.bitmap_pages(size);
    matches!(used.head.kind, CellKind::Volume)
        && used.head.next.is_none()
        && is_volume_alone(used.records.as_slice(), vol.number(), size, bitmap)
}
