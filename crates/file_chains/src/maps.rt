//! The records of a file that say where its pages stand.
ghost use Rattle.std.specs.Prelude.{◌≡◌, ◌∷◌, ◌++◌, [], IfOk, List, OnOk};
ghost use Rattle.free_cells.specs.cell_records.declared.record.Record.{Record as RecordOf};
ghost use Rattle.free_cells.specs.metadata_cells.Cell.{Cell};
ghost use Rattle.free_cells.specs.metadata_cells.Chain.{PlacedCell, StandsAt, places, records_of};
ghost use Rattle.extent_records.specs.extent_maps.Runs.{SamePlaces};
ghost use Rattle.extent_records.specs.Rows.{runs_of};
ghost use Rattle.file_chains.specs.Files.{HasFile, HasMap, HasMapAt, IsFile, map_records};

use crate::walking::{CELLS, map_record, next_cell};
use extent_records::{ExtentMap, read_map};
use free_cells::{CellAt, MetaPages, OutOfMemory, Record};
use std::alloc::Global;

/// The addresses of a file's cells in the order of its chain, and the record of each that says
/// where pages stand.
#[derive(Drop)]
pub(crate) struct FileMaps {
    pub places: Vec<CellAt>,
    pub records: Vec<Record>,
}

/// Appends a cell's address and the record of it that says where pages stand.
fn push_map<M: MetaPages>(pages: &M, at: &CellAt, found: &mut FileMaps) -> Result<(), OutOfMemory>
    requires { HasMapAt (M.pages pages.now) at.now }
    ensures places { OnOk result (found.new.places.items ≡ found.old.places.items ++ at.now ∷ []) }
    ensures records { (cell : Cell) (value : RecordOf) → StandsAt (M.pages pages.now) at.now cell
        → HasMap cell value
        → OnOk result (found.new.records.items ≡ found.old.records.items ++ value ∷ []) }
{
    if let Some(value) = map_record(pages, at) {
        found.places.push(*at)?;
        found.records.push(value)?;
    }
    Ok(())
}

/// The addresses of the cells of the file whose chain begins at that cell, and the record of each
/// that says where pages stand.
pub(crate) fn read_maps<M: MetaPages>(
    alloc: Global,
    pages: &M,
    start: CellAt,
) -> Result<FileMaps, OutOfMemory>
    requires { HasFile (M.pages pages.now) start }
    ensures places { (cells : List PlacedCell) → IsFile (M.pages pages.now) start cells
        → IfOk result (λ found. found.places.items ≡ places cells) }
    ensures records { (cells : List PlacedCell) → IsFile (M.pages pages.now) start cells
        → IfOk result (λ found. found.records.items ≡ map_records (records_of cells)) }
{
    let mut found = FileMaps {
        places: Vec::new(alloc),
        records: Vec::new(alloc),
    };
    let mut next = Some(start);
    for _ in 0..CELLS {
        let Some(at) = next else {
            return Ok(found);
        };
        push_map(pages, &at, &mut found)?;
        next = next_cell(pages, &at);
    }
    Ok(found)
}

/// Where all pages of the file whose chain begins at that cell stand.
pub fn read_file_map<M: MetaPages>(
    alloc: Global,
    pages: &M,
    start: CellAt,
) -> Result<ExtentMap, OutOfMemory>
    requires { HasFile (M.pages pages.now) start }
    ensures { (cells : List PlacedCell) → IsFile (M.pages pages.now) start cells
        → IfOk result (SamePlaces (runs_of (records_of cells))) }
{
    let found = read_maps(alloc, pages, start)?;
    match read_map(alloc, found.records.as_slice())? {
        Some(map) => Ok(map),
        None => Ok(ExtentMap::new(alloc)),
    }
}
