//! Holes in the chains of files of originals.
ghost use Rattle.std.specs.Prelude.{◌≡◌, ◌⊎◌, ◌↔◌, IfOk, IsTrue, OnOk, true};
ghost use Rattle.page_ways.specs.domain_base.declared.place.CellAt.{CellAt};
ghost use Rattle.page_ways.specs.domain_base.declared.place.Home.{Home};
ghost use Rattle.page_ways.specs.metadata_cells.Cell.{Cell};
ghost use Rattle.page_ways.specs.metadata_cells.Chain.{StandsAt};
ghost use Rattle.page_ways.specs.domain_layout.CellRules.{item_of, of_original, say_removed};
ghost use Rattle.page_ways.specs.domain_layout.Reached.{Frame};
ghost use Rattle.page_ways.specs.sorted_sets.Members.{IsIn as IsHomeIn};
ghost use Rattle.cell_chains.specs.Members.{IsIn};
ghost use Rattle.cell_faults.specs.Holes.{HasHolesOf, HasWrongHoles, IsOfOriginal, IsOfOriginalFrom, SaysHoles, StartsInOriginal};
ghost use Rattle.cell_faults.specs.Links.{AreLinks};

use cell_chains::{CellLinks, CellSet, mark_chain};
use page_ways::{
    CellAt, CellHead, CellKind, FilesetTable, Home, HomeSet, Leftover, MetaPages, OutOfMemory,
    Record, SlotItem, find_record, read_used,
};
use std::alloc::Global;

/// Whether a head names the slot of an original.
fn is_of_original(table: &FilesetTable, head: &CellHead) -> bool
    ensures { result ≡ of_original (item_of table.now head.now) }
{
    match head.fileset {
        Some(number) => matches!(table.slot(number), SlotItem::Original { .. }),
        None => false,
    }
}

/// Whether the first cell that stands at a place says that all of its file is to be removed.
fn is_removed<M: MetaPages>(pages: &M, at: &CellAt) -> bool
    ensures { (cell : Cell) → StandsAt (M.pages pages.now) at.now cell
        → result ≡ say_removed cell.records }
{
    match find_record(pages, *at, 6) {
        Some(Record::Pending { what }) => matches!(what, Leftover::Remove),
        _ => false,
    }
}

/// Whether the first cell of a file of an original stands at a place, and not all of the file is to
/// be removed.
fn starts_in_original<M: MetaPages>(
    alloc: Global,
    pages: &M,
    table: &FilesetTable,
    at: &CellAt,
) -> Result<bool, OutOfMemory>
    ensures { IfOk result (λ starts. IsTrue starts
        ↔ StartsInOriginal (M.pages pages.now) table.now at.now) }
{
    let Some(used) = read_used(alloc, pages, *at)? else {
        return Ok(false);
    };
    Ok(
        matches!(used.head.kind, CellKind::Primary)
            && is_of_original(table, &used.head)
            && !is_removed(pages, at),
    )
}

/// Puts the cells of the chain from a cell on into a set, if it is the first one of a file of an
/// original.
fn mark_original<M: MetaPages>(
    alloc: Global,
    pages: &M,
    table: &FilesetTable,
    links: &CellLinks,
    at: &CellAt,
    marked: &mut CellSet,
) -> Result<(), OutOfMemory>
    ensures { OnOk result ((other : CellAt) → IsIn marked.new other ↔ (IsIn marked.old other
        ⊎ IsOfOriginalFrom (M.pages pages.now) table.now links.now at.now other)) }
{
    if starts_in_original(alloc, pages, table, at)? {
        mark_chain(alloc, links, at, marked)?;
    }
    Ok(())
}

/// The cells of the chains of all files of originals.
fn original_cells<M: MetaPages>(
    alloc: Global,
    pages: &M,
    table: &FilesetTable,
    links: &CellLinks,
) -> Result<CellSet, OutOfMemory>
    ensures { IfOk result (λ marked. (at : CellAt) → IsIn marked at
        ↔ IsOfOriginal (M.pages pages.now) table.now links.now at) }
{
    let mut marked = CellSet::new(alloc);
    for (_, (at, _)) in links.as_slice() {
        mark_original(alloc, pages, table, links, at, &mut marked)?;
    }
    Ok(marked)
}

/// Whether a cell in use that has holes stands at a place.
fn says_holes<M: MetaPages>(alloc: Global, pages: &M, at: &CellAt) -> Result<bool, OutOfMemory>
    ensures { IfOk result (λ says. IsTrue says ↔ SaysHoles (M.pages pages.now) at.now) }
{
    Ok(match read_used(alloc, pages, *at)? {
        Some(_used) => find_record(pages, *at, 5).is_some(),
        None => false,
    })
}

/// Puts the page of a cell into a set of pages, if the cell is one of a set and has holes.
fn insert_holes<M: MetaPages>(
    alloc: Global,
    pages: &M,
    marked: &CellSet,
    at: &CellAt,
    found: &mut HomeSet,
) -> Result<(), OutOfMemory>
    ensures { OnOk result ((home : Home) → IsHomeIn found.new home ↔ (IsHomeIn found.old home
        ⊎ HasHolesOf (M.pages pages.now) marked.now home at.now)) }
{
    if marked.has(at) && says_holes(alloc, pages, at)? {
        found.insert(&Home {
            vol: at.vol,
            page: at.page,
        })?;
    }
    Ok(())
}

/// The pages on which a cell of the chain of a file of an original has holes, from what was read of
/// all cells in use.
pub fn holes_faults<M: MetaPages>(
    alloc: Global,
    pages: &M,
    table: &FilesetTable,
    links: &CellLinks,
) -> Result<HomeSet, OutOfMemory>
    ensures { IfOk result (λ found. (frame : Frame) → AreLinks (M.pages pages.now) frame links.now
        → (home : Home) → IsHomeIn found home
        ↔ HasWrongHoles (M.pages pages.now) frame table.now home) }
{
    let marked = original_cells(alloc, pages, table, links)?;
    let mut found = HomeSet::new(alloc);
    for (_, (at, _)) in links.as_slice() {
        insert_holes(alloc, pages, &marked, at, &mut found)?;
    }
    Ok(found)
}
