//! The runs of pages that records say.
ghost use Rattle.std.specs.Prelude.{◌≡◌, ◌++◌, IfOk, OnOk};
ghost use Rattle.std.specs.List.{flat_map};
ghost use Rattle.index_row_faults.specs.extent_records.Rows.{holes_at, runs_at, runs_in, runs_of};
ghost use Rattle.slot_files.specs.Said.{runs_there};

use crate::said::{SaidFirst, SaidRun};
use index_row_faults::{ExtentField, HoleField, OutOfMemory, Record};
use std::alloc::Global;

/// Appends the pages that a row names to other runs, if it names some.
fn push_extent(row: &ExtentField, runs: &mut Vec<SaidRun>) -> Result<(), OutOfMemory>
    ensures { OnOk result (runs_there runs.new.items
        ≡ runs_there runs.old.items ++ runs_at row.now) }
{
    if row.count != 0 {
        runs.push(SaidRun {
            page: row.page,
            count: row.count,
            first: SaidFirst::At {
                vol: row.vol,
                page: row.first,
            },
        })?;
    }
    Ok(())
}

/// Appends the pages that a row of holes names to other runs, if it names some.
fn push_hole(row: &HoleField, runs: &mut Vec<SaidRun>) -> Result<(), OutOfMemory>
    ensures { OnOk result (runs_there runs.new.items
        ≡ runs_there runs.old.items ++ holes_at row.now) }
{
    if row.count != 0 {
        runs.push(SaidRun {
            page: row.page,
            count: row.count,
            first: SaidFirst::Holes,
        })?;
    }
    Ok(())
}

/// Appends the pages that rows name to other runs.
fn push_extents(rows: &[ExtentField], runs: &mut Vec<SaidRun>) -> Result<(), OutOfMemory>
    ensures { OnOk result (runs_there runs.new.items
        ≡ runs_there runs.old.items ++ flat_map runs_at rows.now) }
{
    for row in rows {
        push_extent(row, runs)?;
    }
    Ok(())
}

/// Appends the pages that rows of holes name to other runs.
fn push_holes(rows: &[HoleField], runs: &mut Vec<SaidRun>) -> Result<(), OutOfMemory>
    ensures { OnOk result (runs_there runs.new.items
        ≡ runs_there runs.old.items ++ flat_map holes_at rows.now) }
{
    for row in rows {
        push_hole(row, runs)?;
    }
    Ok(())
}

/// Appends the runs of a record to others.
fn push_record(value: &Record, runs: &mut Vec<SaidRun>) -> Result<(), OutOfMemory>
    ensures { OnOk result (runs_there runs.new.items
        ≡ runs_there runs.old.items ++ runs_in value.now) }
{
    match value {
        Record::Extents { rows } => push_extents(rows, runs),
        Record::ShortExtents { rows } => push_extents(rows, runs),
        Record::DenseExtents { rows } => push_extents(rows, runs),
        Record::ShortDense { rows } => push_extents(rows, runs),
        Record::Holes { rows } => push_holes(rows, runs),
        _ => Ok(()),
    }
}

/// The runs of the records of a chain, in their order.
pub(crate) fn runs_said(alloc: Global, records: &[Record]) -> Result<Vec<SaidRun>, OutOfMemory>
    ensures { IfOk result (λ runs. runs_there runs.items ≡ runs_of records.now) }
{
    let mut runs = Vec::new(alloc);
    for value in records {
        push_record(value, &mut runs)?;
    }
    Ok(runs)
}
