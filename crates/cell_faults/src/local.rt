//! The pages at which a rule of one page of cells, or of one cell, is broken.
ghost use Rattle.std.specs.Prelude.{◌↔◌, ◌⊎◌, Contains, IfOk, IsTrue, OnOk};
ghost use Rattle.page_ways.specs.domain_base.declared.place.Home.{Home};
ghost use Rattle.page_ways.specs.domain_layout.CellRules.{IsCellsPage};
ghost use Rattle.page_ways.specs.Frame.{frame_in};
ghost use Rattle.page_ways.specs.sorted_sets.Members.{IsIn};
ghost use Rattle.cell_faults.specs.Rules.{IsLocalFault, IsWrongAmong, IsWrongThere};
ghost use Rattle.cell_faults.specs.declared.tables.CellsPage.{CellsPage};
ghost use Rattle.cell_faults.specs.Tables.{AreTables, IsThere};

use crate::cells::has_wrong_cell;
use crate::headers::has_wrong_header;
use crate::places::has_wrong_place;
use crate::tables::{CellTables, CellsPage};
use page_ways::{DomainFrame, FilesetTable, Home, HomeSet, MetaPages, OutOfMemory};
use std::alloc::Global;

/// Whether a rule of a page of cells, or of one cell of it, is broken.
fn is_wrong_page<M: MetaPages>(
    alloc: Global,
    pages: &M,
    frame: &DomainFrame,
    table: &FilesetTable,
    page: &CellsPage,
) -> Result<bool, OutOfMemory>
    requires { IsThere (M.pages pages.now) (frame_in frame.now) page.now }
    ensures { IfOk result (λ wrong. IsTrue wrong
        ↔ IsWrongThere (M.pages pages.now) (frame_in frame.now) table.now page.now) }
{
    let Some(bytes) = pages.get(page.home) else {
        unreachable!()
    };
    if has_wrong_header(bytes, page.place) {
        return Ok(true);
    }
    if has_wrong_cell(alloc, pages, frame, &page.home)? {
        return Ok(true);
    }
    has_wrong_place(alloc, pages, frame, table, &page.home)
}

/// Puts into a set those of the pages at which a rule of a page, or of one cell of it, is broken.
fn insert_wrong<M: MetaPages>(
    alloc: Global,
    pages: &M,
    frame: &DomainFrame,
    table: &FilesetTable,
    read: &[CellsPage],
    found: &mut HomeSet,
) -> Result<(), OutOfMemory>
    requires { (page : CellsPage) → Contains read.now page
        → IsThere (M.pages pages.now) (frame_in frame.now) page }
    ensures { OnOk result ((home : Home) → IsIn found.new home ↔ (IsIn found.old home
        ⊎ IsWrongAmong (M.pages pages.now) (frame_in frame.now) table.now read.now home)) }
{
    for page in read {
        if is_wrong_page(alloc, pages, frame, table, page)? {
            found.insert(&page.home)?;
        }
    }
    Ok(())
}

/// The pages at which a rule of one page of cells, or of one cell of it, is broken, among those
/// that were read, with those that cannot be read.
pub fn local_faults<M: MetaPages>(
    alloc: Global,
    pages: &M,
    frame: &DomainFrame,
    table: &FilesetTable,
    tables: &CellTables,
) -> Result<HomeSet, OutOfMemory>
    requires { AreTables (M.pages pages.now) (frame_in frame.now) tables.now.read.items
        tables.now.unread.items }
    ensures { IfOk result (λ found. (home : Home) → IsIn found home
        ↔ IsLocalFault (M.pages pages.now) (frame_in frame.now) table.now home) }
{
    let mut found = HomeSet::new(alloc);
    found.insert_all(&tables.unread)?;
    insert_wrong(alloc, pages, frame, table, &tables.read, &mut found)?;
    Ok(found)
}
