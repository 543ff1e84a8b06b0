//! Quota cells that nothing names.
ghost use Rattle.std.specs.Prelude.{◌≡◌, ◌⊎◌, ◌↔◌, IfOk, OnOk};
ghost use Rattle.cell_faults.specs.domain_base.declared.place.CellAt.{CellAt};
ghost use Rattle.cell_faults.specs.domain_base.declared.place.Home.{Home};
ghost use Rattle.cell_faults.specs.page_store.Pages.{Pages};
ghost use Rattle.cell_faults.specs.metadata_cells.CellPage.{home_of as home_there};
ghost use Rattle.cell_faults.specs.domain_layout.Reached.{Frame};
ghost use Rattle.cell_faults.specs.domain_layout.TagRules.{quota_of as quota_there};
ghost use Rattle.cell_faults.specs.sorted_sets.Members.{IsIn as IsHomeIn};
ghost use Rattle.cell_faults.specs.cell_chains.Members.{IsIn};
ghost use Rattle.cell_faults.specs.Links.{AreLinks};
ghost use Rattle.tag_faults.specs.Quotas.{HasUnnamedQuota, IsQuotaAlone, IsQuotaNamed, NamesQuota};

use crate::cells::home_of;
use crate::table::{count_slots, slot_number};
use cell_faults::{
    CellAt, CellKind, CellLink, CellLinks, CellSet, FilesetNo, FilesetTable, HomeSet, OutOfMemory,
    SlotItem, led_cells,
};
use std::alloc::Global;

/// The first quota cell of what is in a slot, if it names one.
fn quota_of(item: &SlotItem) -> Option<CellAt>
    ensures { result ≡ quota_there item.now }
{
    match item {
        SlotItem::Free => None,
        SlotItem::Original { entry } => entry.quota,
        SlotItem::Clone { entry, .. } => entry.quota,
        SlotItem::Removed { quota, .. } => *quota,
    }
}

/// Puts the quota cell that a slot names into a set.
fn insert_named(
    table: &FilesetTable,
    number: FilesetNo,
    named: &mut CellSet,
) -> Result<(), OutOfMemory>
    ensures { OnOk result ((at : CellAt) → IsIn named.new at
        ↔ (IsIn named.old at ⊎ NamesQuota table.now number at)) }
{
    if let Some(at) = quota_of(table.slot(number)) {
        named.insert(&at)?;
    }
    Ok(())
}

/// The quota cells that slots name.
fn named_quotas(alloc: Global, table: &FilesetTable) -> Result<CellSet, OutOfMemory>
    ensures { IfOk result (λ named. (at : CellAt) → IsIn named at ↔ IsQuotaNamed table.now at) }
{
    let mut named = CellSet::new(alloc);
    for number in 0..count_slots(table) {
        insert_named(table, slot_number(number), &mut named)?;
    }
    Ok(named)
}

/// Puts the page of a quota cell into a set, if no quota cell leads to it and no slot names it.
fn insert_alone(
    led: &CellSet,
    named: &CellSet,
    at: &CellAt,
    link: &CellLink,
    found: &mut HomeSet,
) -> Result<(), OutOfMemory>
    ensures { OnOk result ((home : Home) → IsHomeIn found.new home ↔ (IsHomeIn found.old home
        ⊎ ((home_there at.now ≡ home) × IsQuotaAlone led.now named.now at.now link.now))) }
{
    if matches!(link.kind, CellKind::Quota) && !led.has(at) && !named.has(at) {
        found.insert(&home_of(at))?;
    }
    Ok(())
}

/// The pages with a quota cell to which no quota cell leads and that no slot names, from what was
/// read of all cells in use.
pub fn unnamed_quota_faults(
    alloc: Global,
    links: &CellLinks,
    table: &FilesetTable,
) -> Result<HomeSet, OutOfMemory>
    ensures { IfOk result (λ found. (pages : Pages) (frame : Frame) → AreLinks pages frame links.now
        → (home : Home) → IsHomeIn found home ↔ HasUnnamedQuota pages frame table.now home) }
{
    let led = led_cells(alloc, links)?;
    let named = named_quotas(alloc, table)?;
    let mut found = HomeSet::new(alloc);
    for (_, (at, link)) in links.as_slice() {
        insert_alone(&led, &named, at, link, &mut found)?;
    }
    Ok(found)
}
