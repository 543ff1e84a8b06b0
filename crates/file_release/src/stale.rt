//! The cell of a chain that has something to let go.
ghost use Rattle.std.specs.Prelude.{◌≡◌, ◌-◌, ◌<◌, ◌≤◌, ◌↔◌, ℕ, IfNone, IfOk, IfSome, IsTrue, List, None, Some};
ghost use Rattle.fileset_files.specs.domain_base.declared.place.CellAt.{CellAt as CellAtOf};
ghost use Rattle.fileset_files.specs.cell_records.declared.record.Record.{Record as RecordOf};
ghost use Rattle.fileset_files.specs.metadata_cells.Cell.{Cell};
ghost use Rattle.fileset_files.specs.metadata_cells.Chain.{PlacedCell, StandsAt};
ghost use Rattle.fileset_files.specs.extent_maps.declared.run.PagePlace.TheVariants.{Absent};
ghost use Rattle.fileset_files.specs.extent_maps.Runs.{SamePlaces, place_of};
ghost use Rattle.fileset_files.specs.extent_records.Rows.{runs_in};
ghost use Rattle.fileset_files.specs.extent_records.Writing.{IsMapRecord, places_in};
ghost use Rattle.fileset_files.specs.file_chains.Files.{HasFile, HasMap, HasMapAt, IsFile};
ghost use Rattle.file_release.specs.Sharing.{IsReleased, IsWithin};
ghost use Rattle.file_release.specs.Steps.{IsStale, IsStaleCell};

use fileset_files::{
    CELLS, CellAt, ExtentMap, MetaPages, OutOfMemory, Record, map_record, next_cell, read_map,
};
use std::alloc::Global;

/// A cell of a chain that has something to let go, and the cell that leads to it.
#[derive(Clone, Copy)]
pub struct Stale {
    pub before: Option<CellAt>,
    pub at: CellAt,
}

/// The map that a record says.
pub(crate) fn record_map(alloc: Global, value: &Record) -> Result<ExtentMap, OutOfMemory>
    requires { IsMapRecord value.now }
    ensures { IfOk result (λ map. SamePlaces (runs_in value.now) map) }
{
    match read_map(alloc, &[*value])? {
        Some(map) => Ok(map),
        None => Ok(ExtentMap::new(alloc)),
    }
}

/// The map that the record of a cell says.
pub(crate) fn cell_map<M: MetaPages>(
    alloc: Global,
    pages: &M,
    at: &CellAt,
) -> Result<ExtentMap, OutOfMemory>
    requires { HasMapAt (M.pages pages.now) at.now }
    ensures { (cell : Cell) (value : RecordOf) → StandsAt (M.pages pages.now) at.now cell
        → HasMap cell value → IfOk result (λ map. SamePlaces (runs_in value) map) }
{
    match map_record(pages, at) {
        Some(value) => record_map(alloc, &value),
        None => Ok(ExtentMap::new(alloc)),
    }
}

/// The number after the last page of a map, or 0 if it has none.
pub(crate) fn end_of_map(map: &ExtentMap) -> u32
    ensures last { 0 < result → ¬ place_of map.now (result - 1) ≡ Absent }
    ensures behind { (page : ℕ) → result ≤ page → place_of map.now page ≡ Absent }
    ensures small { result ≤ 65536 }
{
    let runs = map.runs();
    match runs.len().checked_sub(1) {
        Some(last) => {
            let run = runs[last];
            run.page + run.count
        }
        None => 0,
    }
}

/// Whether the record of a cell has something to let go: a page from one on or, if it is not the
/// first cell, no page at all.
fn is_stale<M: MetaPages>(
    alloc: Global,
    pages: &M,
    at: &CellAt,
    from: u32,
    is_behind: bool,
) -> Result<bool, OutOfMemory>
    requires { HasMapAt (M.pages pages.now) at.now }
    ensures { (cell : Cell) (value : RecordOf) → StandsAt (M.pages pages.now) at.now cell
        → HasMap cell value
        → IfOk result (λ found. IsTrue found ↔ IsStale from is_behind (places_in value)) }
{
    let end = end_of_map(&cell_map(alloc, pages, at)?);
    Ok(from < end || is_behind && end == 0)
}

/// The cell after the one that stands at a place, or the first cell if no place is given.
fn cell_behind<M: MetaPages>(pages: &M, start: &CellAt, place: &Option<CellAt>) -> Option<CellAt>
    ensures first { place.now ≡ None → result ≡ Some start.now }
    ensures next { (at : CellAtOf) (cell : Cell) → place.now ≡ Some at
        → StandsAt (M.pages pages.now) at cell → result ≡ cell.head.next }
{
    match place {
        Some(at) => next_cell(pages, at),
        None => Some(*start),
    }
}

/// The first cell that has something to let go, among those after a cell of a file's chain or, if
/// no cell is given, among all.
pub(crate) fn find_stale<M: MetaPages>(
    alloc: Global,
    pages: &M,
    start: &CellAt,
    cursor: &Option<CellAt>,
    from: u32,
) -> Result<Option<Stale>, OutOfMemory>
    requires file { HasFile (M.pages pages.now) start.now }
    requires within { IsWithin (M.pages pages.now) start.now cursor.now }
    ensures some { (chain : List PlacedCell) → IsFile (M.pages pages.now) start.now chain
        → IfOk result (λ found. IfSome found (IsStaleCell from chain)) }
    ensures none { cursor.now ≡ None → (chain : List PlacedCell)
        → IsFile (M.pages pages.now) start.now chain
        → IfOk result (λ found. IfNone found (IsReleased from chain)) }
{
    let mut before = *cursor;
    let mut next = cell_behind(pages, start, cursor);
    for _ in 0..CELLS {
        let Some(at) = next else {
            return Ok(None);
        };
        if is_stale(alloc, pages, &at, from, before.is_some())? {
            return Ok(Some(Stale { before, at }));
        }
        before = Some(at);
        next = next_cell(pages, &at);
    }
    Ok(None)
}

/// A cell of a file's chain that has something to let go: one after the cursor if there is one,
/// else the first of all.
pub(crate) fn find_from<M: MetaPages>(
    alloc: Global,
    pages: &M,
    start: &CellAt,
    cursor: &Option<CellAt>,
    from: u32,
) -> Result<Option<Stale>, OutOfMemory>
    requires file { HasFile (M.pages pages.now) start.now }
    requires within { IsWithin (M.pages pages.now) start.now cursor.now }
    ensures some { (chain : List PlacedCell) → IsFile (M.pages pages.now) start.now chain
        → IfOk result (λ found. IfSome found (IsStaleCell from chain)) }
    ensures none { (chain : List PlacedCell) → IsFile (M.pages pages.now) start.now chain
        → IfOk result (λ found. IfNone found (IsReleased from chain)) }
{
    match find_stale(alloc, pages, start, cursor, from)? {
        Some(stale) => Ok(Some(stale)),
        None => find_stale(alloc, pages, start, &None, from),
    }
}
