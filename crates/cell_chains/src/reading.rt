//! The runs that cells in use say.
ghost use Rattle.std.specs.Prelude.{◌≡◌, ◌↔◌, ◌++◌, ◌∷◌, [], Contains, IfOk, OnOk};
ghost use Rattle.cell_chains.specs.declared.run.FileRun.{FileRun as RunOf};
ghost use Rattle.cell_chains.specs.Reading.{ArePut, AreSaid, HaveOneMap, IsRun, runs_at, runs_from, runs_in};
ghost use Rattle.cell_chains.specs.Runs.{AreApart};

use crate::CellLinks;
use crate::run::FileRun;
use metadata_cells::{CellAt, ExtentField, MetaPages, OutOfMemory, Record, read_used};
use std::alloc::Global;

/// Appends a row to other runs, if it has pages.
fn push_row(at: &CellAt, row: &ExtentField, runs: &mut Vec<FileRun>) -> Result<(), OutOfMemory>
    ensures { OnOk result (runs.new.items ≡ runs.old.items ++ runs_at at.now (row.now ∷ [])) }
{
    if row.count != 0 {
        runs.push(FileRun { at: *at, row: *row })?;
    }
    Ok(())
}

/// Appends to other runs those rows that have pages.
fn push_rows(at: &CellAt, rows: &[ExtentField], runs: &mut Vec<FileRun>) -> Result<(), OutOfMemory>
    ensures { OnOk result (runs.new.items ≡ runs.old.items ++ runs_at at.now rows.now) }
{
    for row in rows {
        push_row(at, row, runs)?;
    }
    Ok(())
}

/// Appends the runs of a record to others.
fn push_record(at: &CellAt, value: &Record, runs: &mut Vec<FileRun>) -> Result<(), OutOfMemory>
    ensures { OnOk result (runs.new.items ≡ runs.old.items ++ runs_in at.now value.now) }
{
    match value {
        Record::Extents { rows } => push_rows(at, rows, runs),
        Record::ShortExtents { rows } => push_rows(at, rows, runs),
        Record::DenseExtents { rows } => push_rows(at, rows, runs),
        Record::ShortDense { rows } => push_rows(at, rows, runs),
        _ => Ok(()),
    }
}

/// Appends the runs of records to others.
fn push_records(at: &CellAt, records: &[Record], runs: &mut Vec<FileRun>) -> Result<(), OutOfMemory>
    ensures { OnOk result (runs.new.items ≡ runs.old.items ++ runs_from at.now records.now) }
{
    for value in records {
        push_record(at, value, runs)?;
    }
    Ok(())
}

/// Appends to others the runs of the cell in use at a place, if one stands there.
fn push_cell<M: MetaPages>(
    alloc: Global,
    pages: &M,
    at: &CellAt,
    runs: &mut Vec<FileRun>,
) -> Result<(), OutOfMemory>
    ensures { OnOk result (ArePut (M.pages pages.now) at.now runs.old.items runs.new.items) }
{
    let Some(used) = read_used(alloc, pages, *at)? else {
        return Ok(());
    };
    push_records(at, used.records.as_slice(), runs)?;
    Ok(())
}

/// The runs that all cells in use say, from what was read of these. If each of them has each page
/// of its file in one row at most, no two runs have one page of one cell.
pub fn read_runs<M: MetaPages>(
    alloc: Global,
    pages: &M,
    links: &CellLinks,
) -> Result<Vec<FileRun>, OutOfMemory>
    ensures each { IfOk result (λ runs. (run : RunOf) → Contains runs.items run
        ↔ IsRun (M.pages pages.now) links.now run) }
    ensures said { IfOk result (λ runs. HaveOneMap (M.pages pages.now) links.now
        → AreSaid (M.pages pages.now) links.now runs.items) }
    ensures apart { IfOk result (λ runs. HaveOneMap (M.pages pages.now) links.now
        → AreApart runs.items) }
{
    let mut runs = Vec::new(alloc);
    for (_, (at, _)) in links.as_slice() {
        push_cell(alloc, pages, at, &mut runs)?;
    }
    Ok(runs)
}
