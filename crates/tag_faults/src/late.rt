//! Files that originals name and that have numbers of clones that were not made.
ghost use Rattle.std.specs.Prelude.{◌≡◌, ◌⊎◌, ◌↔◌, IfOk, IsTrue, OnOk, Some, slice_get, true};
ghost use Rattle.cell_faults.specs.domain_base.declared.place.Home.{Home};
ghost use Rattle.cell_faults.specs.cell_records.declared.record.Record.{Record as RecordOf};
ghost use Rattle.cell_faults.specs.metadata_cells.Cell.{Cell, record_of};
ghost use Rattle.cell_faults.specs.metadata_cells.Chain.{StandsAt};
ghost use Rattle.cell_faults.specs.domain_layout.CellRules.{of_original};
ghost use Rattle.cell_faults.specs.domain_layout.TagRules.{IsLate};
ghost use Rattle.cell_faults.specs.page_ways.Frame.{frame_in};
ghost use Rattle.cell_faults.specs.sorted_sets.Members.{IsIn as IsHomeIn};
ghost use Rattle.cell_faults.specs.Links.{AreLinks};
ghost use Rattle.tag_faults.specs.Late.{HasLate, HasLateNumber, LeadsToLate};

use crate::cells::home_of;
use crate::firsts::{cell_of, leads_to_first};
use crate::named::{NamedCell, read_entries};
use cell_faults::{
    CellAt, CellLinks, DomainFrame, FilesetNo, FilesetTable, HomeSet, MetaPages, OutOfMemory,
    Record, SlotItem, find_record, read_used,
};
use std::alloc::Global;

/// Whether a slot has an original.
fn has_original(table: &FilesetTable, number: FilesetNo) -> bool
    ensures { IsTrue result ↔ (of_original (slice_get table.now.slots number) ≡ true) }
{
    matches!(table.slot(number), SlotItem::Original { .. })
}

/// Whether attributes have the number of a clone that was not made.
fn is_late(table: &FilesetTable, value: &Record) -> bool
    ensures { IsTrue result ↔ IsLate table.now.made value.now }
{
    match value {
        Record::Attributes {
            birth,
            unsynced,
            ..
        } => table.made() < *birth || table.made() < *unsynced,
        _ => false,
    }
}

/// Whether the attributes of the cell in use at a place have the number of a clone that was not
/// made.
fn is_late_at<M: MetaPages>(pages: &M, table: &FilesetTable, at: &CellAt) -> bool
    ensures { (cell : Cell) → StandsAt (M.pages pages.now) at.now cell → IsTrue result
        ↔ ((value : RecordOf) × (record_of 1 cell.records ≡ Some value)
        × IsLate table.now.made value) }
{
    match find_record(pages, *at, 1) {
        Some(value) => is_late(table, &value),
        None => false,
    }
}

/// Whether a cell in use with the number of a clone that was not made stands at a place of a page
/// of cells.
fn has_late_number<M: MetaPages>(
    alloc: Global,
    pages: &M,
    frame: &DomainFrame,
    table: &FilesetTable,
    links: &CellLinks,
    at: &CellAt,
) -> Result<bool, OutOfMemory>
    requires { AreLinks (M.pages pages.now) (frame_in frame.now) links.now }
    ensures { IfOk result (λ late. IsTrue late
        ↔ HasLateNumber (M.pages pages.now) (frame_in frame.now) table.now at.now) }
{
    if !links.has(at) {
        return Ok(false);
    }
    let Some(_used) = read_used(alloc, pages, *at)? else {
        return Ok(false);
    };
    Ok(is_late_at(pages, table, at))
}

/// Puts the page of the cell of an entry into a set, if an original has the entry, and the cell is
/// a first one of its fileset and tag with the number of a clone that was not made.
fn insert_late<M: MetaPages>(
    alloc: Global,
    pages: &M,
    frame: &DomainFrame,
    table: &FilesetTable,
    links: &CellLinks,
    entry: &NamedCell,
    found: &mut HomeSet,
) -> Result<(), OutOfMemory>
    requires { AreLinks (M.pages pages.now) (frame_in frame.now) links.now }
    ensures { OnOk result ((home : Home) → IsHomeIn found.new home ↔ (IsHomeIn found.old home
        ⊎ LeadsToLate (M.pages pages.now) (frame_in frame.now) table.now home entry.now)) }
{
    let Some(at) = cell_of(entry) else {
        return Ok(());
    };
    if !has_original(table, entry.number) {
        return Ok(());
    }
    if !leads_to_first(pages, frame, links, entry) {
        return Ok(());
    }
    if has_late_number(alloc, pages, frame, table, links, &at)? {
        found.insert(&home_of(&at))?;
    }
    Ok(())
}

/// The pages with a first cell that an original's entry of its tag names, and that has the number
/// of a clone that was not made, from what was read of all cells in use.
pub fn late_file_faults<M: MetaPages>(
    alloc: Global,
    pages: &M,
    frame: &DomainFrame,
    table: &FilesetTable,
    links: &CellLinks,
) -> Result<HomeSet, OutOfMemory>
    requires { AreLinks (M.pages pages.now) (frame_in frame.now) links.now }
    ensures { IfOk result (λ found. (home : Home) → IsHomeIn found home
        ↔ HasLate (M.pages pages.now) (frame_in frame.now) table.now home) }
{
    let entries = read_entries(alloc, pages, frame, table)?;
    let mut found = HomeSet::new(alloc);
    for entry in &entries {
        insert_late(alloc, pages, frame, table, links, entry, &mut found)?;
    }
    Ok(found)
}
