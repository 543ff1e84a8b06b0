//! Files of clones that are read through a cell that does not belong to the original's file.
ghost use Rattle.std.specs.Prelude.{◌≡◌, ◌⊎◌, ◌↔◌, IfNone, IfOk, IfSome, IsTrue, None, OnOk, Some};
ghost use Rattle.cell_faults.specs.domain_base.declared.place.Home.{Home};
ghost use Rattle.cell_faults.specs.metadata_cells.Cell.{Cell};
ghost use Rattle.cell_faults.specs.metadata_cells.CellPage.{home_of as home_there};
ghost use Rattle.cell_faults.specs.metadata_cells.Chain.{StandsAt};
ghost use Rattle.cell_faults.specs.domain_layout.CellRules.{item_of};
ghost use Rattle.cell_faults.specs.domain_layout.Seen.{source_in};
ghost use Rattle.cell_faults.specs.domain_layout.TagRules.{original_slot};
ghost use Rattle.cell_faults.specs.page_ways.Frame.{frame_in};
ghost use Rattle.cell_faults.specs.sorted_sets.Members.{IsIn as IsHomeIn};
ghost use Rattle.cell_faults.specs.Links.{AreLinks};
ghost use Rattle.tag_faults.specs.Entries.{address_of, tag_of};
ghost use Rattle.tag_faults.specs.Sources.{HasAstray, HasSourceAstray, ReadsAstray, tag_in};

use crate::cells::home_of;
use crate::firsts::{is_primary, leads_to_first};
use crate::named::NamedCell;
use crate::removed::is_removed;
use cell_faults::{
    CellAt, CellHead, CellLinks, DomainFrame, FilesetNo, FilesetTable, HomeSet, MetaPages,
    OutOfMemory, Record, SlotItem, find_record, read_used,
};
use std::alloc::Global;

/// The slot of the original whose clone is in a slot.
fn original_in(item: &SlotItem) -> Option<FilesetNo>
    ensures { result ≡ original_slot (Some item.now) }
{
    match item {
        SlotItem::Clone { original, .. } => Some(*original),
        _ => None,
    }
}

/// The slot of the original whose clone is in the slot that a head names.
fn original_of(table: &FilesetTable, head: &CellHead) -> Option<FilesetNo>
    ensures { result ≡ original_slot (item_of table.now head.now) }
{
    match head.fileset {
        Some(number) => original_in(table.slot(number)),
        None => None,
    }
}

/// The cell through which a clone's file is read, by a record of its first cell, as an entry of a
/// fileset with the tag of a head.
fn source_as(value: &Record, number: FilesetNo, head: &CellHead, at: &CellAt) -> Option<NamedCell>
    ensures some { IfSome result (λ one. (one.number ≡ number) × (tag_of one ≡ tag_in head.now)
        × (source_in value.now ≡ Some (address_of one))) }
    ensures none { IfNone result (source_in value.now ≡ None) }
{
    match value {
        Record::CloneFile {
            source_vol,
            source_cell,
            source_page,
            ..
        } if *source_vol != 0 => Some(NamedCell {
            number,
            slot: u64::from(head.slot),
            seq: head.seq,
            vol: *source_vol,
            cell: *source_cell,
            page: *source_page,
            home: home_of(at),
        }),
        _ => None,
    }
}

/// Whether the file whose first cell, with this head, stands at a place is read through a cell that
/// is not the first one of the original's file of its tag.
fn has_source_astray<M: MetaPages>(
    pages: &M,
    frame: &DomainFrame,
    table: &FilesetTable,
    links: &CellLinks,
    at: &CellAt,
    head: &CellHead,
) -> bool
    requires { AreLinks (M.pages pages.now) (frame_in frame.now) links.now }
    ensures { (cell : Cell) → StandsAt (M.pages pages.now) at.now cell → head.now ≡ cell.head
        → IsTrue result
        ↔ HasSourceAstray (M.pages pages.now) (frame_in frame.now) table.now cell }
{
    let Some(number) = original_of(table, head) else {
        return false;
    };
    let Some(value) = find_record(pages, *at, 2) else {
        return false;
    };
    let Some(source) = source_as(&value, number, head, at) else {
        return false;
    };
    !leads_to_first(pages, frame, links, &source)
}

/// Whether a first cell that stays stands at a place, and its file is read through a cell that is
/// not the first one of the original's file of its tag.
fn reads_astray<M: MetaPages>(
    alloc: Global,
    pages: &M,
    frame: &DomainFrame,
    table: &FilesetTable,
    links: &CellLinks,
    at: &CellAt,
) -> Result<bool, OutOfMemory>
    requires { AreLinks (M.pages pages.now) (frame_in frame.now) links.now }
    ensures { IfOk result (λ astray. IsTrue astray
        ↔ ReadsAstray (M.pages pages.now) (frame_in frame.now) table.now at.now) }
{
    let Some(used) = read_used(alloc, pages, *at)? else {
        return Ok(false);
    };
    Ok(
        is_primary(used.head.kind)
            && !is_removed(pages, at)
            && has_source_astray(pages, frame, table, links, at, &used.head),
    )
}

/// Puts the page of a cell into a set, if it is a first cell whose file is read through a wrong
/// cell.
fn insert_astray<M: MetaPages>(
    alloc: Global,
    pages: &M,
    frame: &DomainFrame,
    table: &FilesetTable,
    links: &CellLinks,
    at: &CellAt,
    found: &mut HomeSet,
) -> Result<(), OutOfMemory>
    requires { AreLinks (M.pages pages.now) (frame_in frame.now) links.now }
    ensures { OnOk result ((home : Home) → IsHomeIn found.new home ↔ (IsHomeIn found.old home
        ⊎ ((home_there at.now ≡ home)
        × ReadsAstray (M.pages pages.now) (frame_in frame.now) table.now at.now))) }
{
    if reads_astray(alloc, pages, frame, table, links, at)? {
        found.insert(&home_of(at))?;
    }
    Ok(())
}

/// The pages with a first cell in a clone that is not to be removed, and whose file is read through
/// a cell that is not the first one of the original's file of its tag, from what was read of all
/// cells in use.
pub fn source_faults<M: MetaPages>(
    alloc: Global,
    pages: &M,
    frame: &DomainFrame,
    table: &FilesetTable,
    links: &CellLinks,
) -> Result<HomeSet, OutOfMemory>
    requires { AreLinks (M.pages pages.now) (frame_in frame.now) links.now }
    ensures { IfOk result (λ found. (home : Home) → IsHomeIn found home
        ↔ HasAstray (M.pages pages.now) (frame_in frame.now) table.now home) }
{
    let mut found = HomeSet::new(alloc);
    for (_, (at, _)) in links.as_slice() {
        insert_astray(alloc, pages, frame, table, links, at, &mut found)?;
    }
    Ok(found)
}
