//! Checks that no rule makes, but that a domain must pass to be attached.
ghost use Rattle.std.specs.Prelude.{◌≡◌, ◌↔◌, ◌<◌, ℕ, IfErr, IsTrue, OnOk, slice_get, true};
ghost use Rattle.no_faults.specs.domain_layout.CellRules.{of_clone};
ghost use Rattle.no_faults.specs.domain_layout.Layout.{IsLayout, Layout};
ghost use Rattle.no_faults.specs.domain_layout.Owners.{frame_of};
ghost use Rattle.no_faults.specs.page_ways.Frame.{frame_in};
ghost use Rattle.no_faults.specs.cell_faults.Links.{AreLinks};
ghost use Rattle.no_faults.specs.fileset_shapes.Shapes.{IsDomain};
ghost use Rattle.attached_domain.specs.Causes.{IsUnfit};
ghost use Rattle.attached_domain.specs.Fits.{Fits};

use crate::signs::Sign;
use crate::tags::some_slot_says;
use crate::unfit::Unfit;
use no_faults::{
    CellLinks, DomainFrame, DomainTables, FilesetNo, FilesetTable, MetaPages, SlotItem,
    has_quotas_to_go, has_readers,
};
use std::alloc::Global;

/// Whether a slot has a clone.
fn is_clone(table: &FilesetTable, number: FilesetNo) -> bool
    ensures { of_clone (slice_get table.now.slots number) ≡ result }
{
    match table.slot(number) {
        SlotItem::Clone { .. } => true,
        _ => false,
    }
}

/// Whether some slot has a clone.
fn has_clone(table: &FilesetTable) -> bool
    ensures { IsTrue result ↔ ((number : ℕ) × (number < 32)
        × (of_clone (slice_get table.now.slots number) ≡ true)) }
{
    for number in 0..32_u32 {
        if let Some(number) = FilesetNo::new(number) {
            if is_clone(table, number) {
                return true;
            }
        }
    }
    false
}

/// Makes all checks that a domain must pass to be attached, beyond the rules. The error tells which
/// one fails.
pub(crate) fn look_at_all<M: MetaPages>(
    alloc: Global,
    pages: &M,
    frame: &DomainFrame,
    tables: &DomainTables,
    links: &CellLinks,
) -> Result<(), Unfit>
    requires domain { IsDomain (M.pages pages.now) (frame_in frame.now) tables.now }
    requires links { AreLinks (M.pages pages.now) (frame_in frame.now) links.now }
    ensures fits { OnOk result ((layout : Layout) → frame_of layout ≡ frame_in frame.now
        → IsLayout (M.pages pages.now) layout → layout.table ≡ tables.now.filesets
        → Fits (M.pages pages.now) layout tables.now) }
    ensures cause { IfErr result (IsUnfit (M.pages pages.now) (frame_in frame.now)) }
{
    if has_clone(&tables.filesets) {
        return Err(Unfit::Cloned);
    }
    if has_readers(alloc, pages, links)? {
        return Err(Unfit::ReadThrough);
    }
    if !has_quotas_to_go(alloc, pages, &tables.filesets, links)? {
        return Err(Unfit::WrongQuotas);
    }
    if some_slot_says(alloc, pages, frame, Sign::Removed, tables)? {
        return Err(Unfit::RemovedFile);
    }
    if some_slot_says(alloc, pages, frame, Sign::Cut, tables)? {
        return Err(Unfit::CutDirectory);
    }
    Ok(())
}
