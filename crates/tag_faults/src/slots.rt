//! Slots of the fileset table that name something wrong.
ghost use Rattle.std.specs.Prelude.{◌≡◌, ◌⊎◌, ◌↔◌, ◌<◌, IfOk, IsTrue};
ghost use Rattle.cell_faults.specs.domain_base.declared.place.CellAt.{CellAt as CellOf};
ghost use Rattle.cell_faults.specs.domain_layout.Reached.{Frame};
ghost use Rattle.cell_faults.specs.domain_layout.TagRules.{HasWrongNumber, HasWrongQuota, IsWrongSlot};
ghost use Rattle.cell_faults.specs.cell_chains.Members.{IsIn};
ghost use Rattle.cell_faults.specs.cell_chains.Heads.{IsLedTo};
ghost use Rattle.cell_faults.specs.Links.{AreLinks};
ghost use Rattle.tag_faults.specs.Quotas.{IsWrongIn, own_quota as own_quota_there};

use crate::cells::is_quota_of;
use crate::table::{count_slots, slot_number};
use cell_faults::{
    CellAt, CellLinks, CellSet, FilesetNo, FilesetTable, MetaPages, OutOfMemory, SlotItem,
    led_cells,
};
use std::alloc::Global;

/// Whether a clone's number is not that of a clone that was made.
fn has_wrong_number(table: &FilesetTable, item: &SlotItem) -> bool
    ensures { IsTrue result ↔ HasWrongNumber table.now item.now }
{
    match item {
        SlotItem::Clone { number, .. } => *number == 0 || table.made() < *number,
        _ => false,
    }
}

/// The first quota cell of an original or a clone, if it names one.
fn own_quota(item: &SlotItem) -> Option<CellAt>
    ensures { result ≡ own_quota_there item.now }
{
    match item {
        SlotItem::Original { entry } => entry.quota,
        SlotItem::Clone { entry, .. } => entry.quota,
        _ => None,
    }
}

/// Whether an original or a clone in a slot names a first quota cell that does not belong to its
/// fileset, or to which another one leads.
fn has_wrong_quota<M: MetaPages>(
    pages: &M,
    links: &CellLinks,
    led: &CellSet,
    number: FilesetNo,
    item: &SlotItem,
) -> bool
    requires { (at : CellOf) → IsIn led.now at ↔ IsLedTo links.now at }
    ensures { (frame : Frame) → AreLinks (M.pages pages.now) frame links.now → IsTrue result
        ↔ HasWrongQuota (M.pages pages.now) frame number item.now }
{
    let Some(at) = own_quota(item) else {
        return false;
    };
    !is_quota_of(pages, links, number, &at) || led.has(&at)
}

/// Whether what is in a slot has a wrong number or a wrong quota cell.
fn is_wrong_in<M: MetaPages>(
    pages: &M,
    links: &CellLinks,
    led: &CellSet,
    table: &FilesetTable,
    number: FilesetNo,
) -> bool
    requires { (at : CellOf) → IsIn led.now at ↔ IsLedTo links.now at }
    ensures { (frame : Frame) → AreLinks (M.pages pages.now) frame links.now → IsTrue result
        ↔ IsWrongIn (M.pages pages.now) frame table.now number }
{
    let item = table.slot(number);
    has_wrong_number(table, item) || has_wrong_quota(pages, links, led, number, item)
}

/// Whether a slot has a clone whose number is not that of a clone that was made, or an original or
/// a clone that names a first quota cell that does not belong to its fileset or to which another
/// one leads, from what was read of all cells in use.
pub fn has_wrong_slot<M: MetaPages>(
    alloc: Global,
    pages: &M,
    links: &CellLinks,
    table: &FilesetTable,
) -> Result<bool, OutOfMemory>
    ensures { IfOk result (λ wrong. (frame : Frame) → AreLinks (M.pages pages.now) frame links.now
        → IsTrue wrong ↔ IsWrongSlot (M.pages pages.now) frame table.now) }
{
    let led = led_cells(alloc, links)?;
    for number in 0..count_slots(table) {
        if is_wrong_in(pages, links, &led, table, slot_number(number)) {
            return Ok(true);
        }
    }
    Ok(false)
}
