//! The pages of tables, of tag directories and of indexes.
ghost use Rattle.std.specs.Prelude.{◌≡◌, ◌⊎◌, ◌↔◌, Contains, IfOk, OnOk, Some};
ghost use Rattle.std.specs.Option.{option_and_then};
ghost use Rattle.tag_faults.specs.domain_base.declared.place.Home.{Home};
ghost use Rattle.tag_faults.specs.metadata_cells.Cell.{Cell, record_of};
ghost use Rattle.tag_faults.specs.metadata_cells.Chain.{StandsAt};
ghost use Rattle.tag_faults.specs.fileset_files.Shown.{index_in};
ghost use Rattle.tag_faults.specs.domain_layout.CellRules.{IsPlace};
ghost use Rattle.tag_faults.specs.domain_layout.DirectoryRules.{HasIndexAt};
ghost use Rattle.tag_faults.specs.domain_layout.Reached.{Frame, index_way};
ghost use Rattle.tag_faults.specs.page_ways.Frame.{frame_in};
ghost use Rattle.tag_faults.specs.cell_faults.Tables.{AreTables};
ghost use Rattle.tag_faults.specs.cell_faults.Links.{AreLinks};
ghost use Rattle.tag_faults.specs.Directories.{HasPage};
ghost use Rattle.page_faults.specs.Owned.{AreOfTables, IsIndexOf, IsListed, IsOfIndex, IsOfTags, IsReached};

use std::alloc::Global;
use tag_faults::{
    CellAt, CellLinks, CellTables, CellsPage, DomainFrame, FilesetNo, FilesetTable, Home, IndexWay,
    MetaPages, OutOfMemory, Record, VolIx, count_slots, find_record, read_directory, read_pages,
    read_used, slot_number,
};

/// Appends a home to others.
fn push_home(one: &Home, homes: &mut Vec<Home>) -> Result<(), OutOfMemory>
    ensures { OnOk result ((home : Home) → Contains homes.new.items home
        ↔ (Contains homes.old.items home ⊎ (one.now ≡ home))) }
{
    homes.push(*one)?;
    Ok(())
}

/// Appends homes to others.
fn push_homes(more: &[Home], homes: &mut Vec<Home>) -> Result<(), OutOfMemory>
    ensures { OnOk result ((home : Home) → Contains homes.new.items home
        ↔ (Contains homes.old.items home ⊎ Contains more.now home)) }
{
    for one in more {
        push_home(one, homes)?;
    }
    Ok(())
}

/// Appends a home to others, if there is one.
fn push_one(one: &Option<Home>, homes: &mut Vec<Home>) -> Result<(), OutOfMemory>
    ensures { OnOk result ((home : Home) → Contains homes.new.items home
        ↔ (Contains homes.old.items home ⊎ (one.now ≡ Some home))) }
{
    if let Some(home) = one {
        push_home(home, homes)?;
    }
    Ok(())
}

/// Appends to other homes the pages of an index that are reached from its first one.
fn push_reached<M: MetaPages>(
    alloc: Global,
    pages: &M,
    frame: &DomainFrame,
    first: &Home,
    homes: &mut Vec<Home>,
) -> Result<(), OutOfMemory>
    ensures { OnOk result ((home : Home) → Contains homes.new.items home
        ↔ (Contains homes.old.items home
        ⊎ IsReached (M.pages pages.now) (frame_in frame.now) (index_way first.now) home)) }
{
    let way = IndexWay { first: *first };
    let read = read_pages(alloc, pages, frame, &way)?;
    push_homes(&read.homes, homes)?;
    push_one(&read.unread, homes)?;
    Ok(())
}

/// The first page of the index that the cell in use at a place names, if it names one.
fn first_of_index<M: MetaPages>(pages: &M, at: &CellAt) -> Option<Home>
    ensures { (cell : Cell) → StandsAt (M.pages pages.now) at.now cell
        → result ≡ option_and_then index_in (record_of 9 cell.records) }
{
    match find_record(pages, *at, 9)? {
        Record::DirIndex { vol, page, .. } => Some(Home {
            vol: VolIx::new(vol)?,
            page,
        }),
        _ => None,
    }
}

/// The first page of the index that the cell in use at a place names. None if no well-formed cell
/// in use stands there, or if it names no index.
pub fn index_at<M: MetaPages>(
    alloc: Global,
    pages: &M,
    at: &CellAt,
) -> Result<Option<Home>, OutOfMemory>
    ensures { IfOk result (λ found. (frame : Frame) → IsPlace (M.pages pages.now) frame at.now
        → (first : Home) → (found ≡ Some first)
        ↔ HasIndexAt (M.pages pages.now) frame at.now first) }
{
    let Some(_used) = read_used(alloc, pages, *at)? else {
        return Ok(None);
    };
    Ok(first_of_index(pages, at))
}

/// Appends to other homes the pages of the index that a cell in use names.
fn push_index<M: MetaPages>(
    alloc: Global,
    pages: &M,
    frame: &DomainFrame,
    at: &CellAt,
    homes: &mut Vec<Home>,
) -> Result<(), OutOfMemory>
    requires { IsPlace (M.pages pages.now) (frame_in frame.now) at.now }
    ensures { OnOk result ((home : Home) → Contains homes.new.items home
        ↔ (Contains homes.old.items home
        ⊎ IsIndexOf (M.pages pages.now) (frame_in frame.now) at.now home)) }
{
    let Some(first) = index_at(alloc, pages, at)? else {
        return Ok(());
    };
    push_reached(alloc, pages, frame, &first, homes)?;
    Ok(())
}

/// Appends the pages of all indexes to other homes, from what was read of all cells in use.
fn push_indexes<M: MetaPages>(
    alloc: Global,
    pages: &M,
    frame: &DomainFrame,
    links: &CellLinks,
    homes: &mut Vec<Home>,
) -> Result<(), OutOfMemory>
    requires { AreLinks (M.pages pages.now) (frame_in frame.now) links.now }
    ensures { OnOk result ((home : Home) → Contains homes.new.items home
        ↔ (Contains homes.old.items home
        ⊎ IsOfIndex (M.pages pages.now) (frame_in frame.now) home)) }
{
    for (_, (at, _)) in links.as_slice() {
        push_index(alloc, pages, frame, at, homes)?;
    }
    Ok(())
}

/// Appends pages of cells to other homes.
fn push_cells(read: &[CellsPage], homes: &mut Vec<Home>) -> Result<(), OutOfMemory>
    ensures { OnOk result ((home : Home) → Contains homes.new.items home
        ↔ (Contains homes.old.items home ⊎ IsListed read.now home)) }
{
    for page in read {
        push_home(&page.home, homes)?;
    }
    Ok(())
}

/// Appends the pages of the tag directory of what is in a slot to other homes.
fn push_slot<M: MetaPages>(
    alloc: Global,
    pages: &M,
    frame: &DomainFrame,
    table: &FilesetTable,
    number: FilesetNo,
    homes: &mut Vec<Home>,
) -> Result<(), OutOfMemory>
    ensures { OnOk result ((home : Home) → Contains homes.new.items home
        ↔ (Contains homes.old.items home
        ⊎ HasPage (M.pages pages.now) (frame_in frame.now) table.now number home)) }
{
    let read = read_directory(alloc, pages, frame, table, number)?;
    push_homes(&read.homes, homes)?;
    Ok(())
}

/// Appends the pages of all tag directories to other homes.
fn push_tags<M: MetaPages>(
    alloc: Global,
    pages: &M,
    frame: &DomainFrame,
    table: &FilesetTable,
    homes: &mut Vec<Home>,
) -> Result<(), OutOfMemory>
    ensures { OnOk result ((home : Home) → Contains homes.new.items home
        ↔ (Contains homes.old.items home
        ⊎ IsOfTags (M.pages pages.now) (frame_in frame.now) table.now home)) }
{
    for number in 0..count_slots(table) {
        let slot = slot_number(number);
        push_slot(alloc, pages, frame, table, slot, homes)?;
    }
    Ok(())
}

/// The pages of the fileset table, of tables of cells, of tag directories and of indexes, from what
/// was read of all cells in use.
pub(crate) fn table_homes<M: MetaPages>(
    alloc: Global,
    pages: &M,
    frame: &DomainFrame,
    table: &FilesetTable,
    tables: &CellTables,
    links: &CellLinks,
) -> Result<Vec<Home>, OutOfMemory>
    requires tables { AreTables (M.pages pages.now) (frame_in frame.now) tables.now.read.items
        tables.now.unread.items }
    requires links { AreLinks (M.pages pages.now) (frame_in frame.now) links.now }
    ensures { IfOk result (λ homes. AreOfTables (M.pages pages.now) (frame_in frame.now) table.now
        homes.items) }
{
    let mut homes = Vec::new(alloc);
    push_one(&frame.anchor.table, &mut homes)?;
    push_cells(&tables.read, &mut homes)?;
    push_tags(alloc, pages, frame, table, &mut homes)?;
    push_indexes(alloc, pages, frame, links, &mut homes)?;
    Ok(homes)
}
