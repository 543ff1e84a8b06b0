//! Cells of a chain that are written again or go.
ghost use Rattle.std.specs.Prelude.{◌≡◌, ◌<◌, ◌≤◌, IfOk, IfSome, List, Contains, None, Some, false, length};
ghost use Rattle.fileset_files.specs.cell_records.declared.record.Record.{Record as RecordOf};
ghost use Rattle.fileset_files.specs.metadata_cells.Cell.{AreRecords, Cell, spellings};
ghost use Rattle.fileset_files.specs.metadata_cells.CellPage.{HasPlace, IsUsedAt};
ghost use Rattle.fileset_files.specs.metadata_cells.Chain.{PlacedCell, StandsAt, is_at};
ghost use Rattle.fileset_files.specs.extent_records.Rows.{runs_in};
ghost use Rattle.fileset_files.specs.free_cells.Belong.{Belong};
ghost use Rattle.fileset_files.specs.free_cells.Cells.{is_free, table_of};
ghost use Rattle.fileset_files.specs.file_chains.Files.{HasMap, HasMapAt};
ghost use Rattle.fileset_files.specs.file_chains.Changes.{IsInUse, with_record};
ghost use Rattle.fileset_files.specs.cell_records.Records.{kind_of};
ghost use Rattle.file_release.specs.Steps.{AllStand, EditsCell, IsCut, WritesEdit, edited, last_place};

use crate::stale::Stale;
use fileset_files::{
    CellAt, CellHead, FreeCells, MetaPages, OutOfMemory, Record, RecordList, UsedCell, cut_from,
    map_record, next_cell, put_among, read_used, used_rows, write_cell,
};
use std::alloc::Global;

/// A cell of a chain as it is to be written, and the cell that it then leads past, which goes.
#[derive(Drop)]
pub struct ChainEdit {
    pub at: CellAt,
    pub cell: UsedCell,
    pub freed: Option<CellAt>,
}

/// The record of a cell without its pages from one on.
fn cut_record<M: MetaPages>(
    alloc: Global,
    pages: &M,
    at: &CellAt,
    from: u32,
) -> Result<Record, OutOfMemory>
    requires { HasMapAt (M.pages pages.now) at.now }
    ensures { (cell : Cell) (value : RecordOf) → StandsAt (M.pages pages.now) at.now cell
        → HasMap cell value → IfOk result (IsCut from value) }
{
    let mut value = map_record(pages, at).unwrap();
    cut_from(alloc, &mut value, from)?;
    Ok(value)
}

/// The cell with a record in place of the one of its kind.
fn rewritten<M: MetaPages>(
    alloc: Global,
    pages: &M,
    at: &CellAt,
    after: &Record,
) -> Result<ChainEdit, OutOfMemory>
    requires { IsInUse (M.pages pages.now) at.now }
    ensures place { IfOk result (λ edit. (edit.at ≡ at.now) × (edit.freed ≡ None)) }
    ensures cell { (cell : Cell) → StandsAt (M.pages pages.now) at.now cell
        → IfOk result (λ edit. edited edit
        ≡ with_record (kind_of after.now) (Some after.now) cell) }
{
    let used = read_used(alloc, pages, *at)?.unwrap();
    let records = put_among(alloc, used.records.as_slice(), after)?;
    Ok(ChainEdit {
        at: *at,
        cell: UsedCell {
            head: used.head,
            records,
        },
        freed: None,
    })
}

/// The cell before another one, changed to lead past it.
fn unlinked<M: MetaPages>(
    alloc: Global,
    pages: &M,
    before: &CellAt,
    at: &CellAt,
) -> Result<ChainEdit, OutOfMemory>
    requires before { IsInUse (M.pages pages.now) before.now }
    requires at { IsInUse (M.pages pages.now) at.now }
    ensures place { IfOk result (λ edit. (edit.at ≡ before.now) × (edit.freed ≡ Some at.now)) }
    ensures cell { (first : Cell) (gone : Cell) → StandsAt (M.pages pages.now) before.now first
        → StandsAt (M.pages pages.now) at.now gone
        → IfOk result (λ edit. edited edit ≡ record first {
          head = record first.head { next = gone.head.next };
        }) }
{
    let used = read_used(alloc, pages, *before)?.unwrap();
    let head = CellHead {
        next: next_cell(pages, at),
        ..used.head
    };
    Ok(ChainEdit {
        at: *before,
        cell: UsedCell {
            head,
            records: used.records,
        },
        freed: Some(*at),
    })
}

/// The cell before the stale one, if there is one and the stale cell's record has no page left.
fn leads_past(stale: &Stale, after: &Record) -> Option<CellAt>
    ensures empty { length (runs_in after.now) ≡ 0 → result ≡ stale.now.before }
    ensures some { ¬ length (runs_in after.now) ≡ 0 → result ≡ None }
{
    if used_rows(after) == 0 {
        stale.before
    } else {
        None
    }
}

/// What is written when a cell of a chain lets go of its pages from one on: the cell with its
/// record cut there or, if it is not the first cell and no page is left, the cell before it, which
/// then leads past it.
pub(crate) fn edit_for<M: MetaPages>(
    alloc: Global,
    pages: &M,
    stale: &Stale,
    from: u32,
) -> Result<ChainEdit, OutOfMemory>
    requires map { HasMapAt (M.pages pages.now) stale.now.at }
    requires before { IfSome stale.now.before (IsInUse (M.pages pages.now)) }
    ensures { (front : List PlacedCell) (c : PlacedCell) (value : RecordOf)
        → AllStand (M.pages pages.now) front → StandsAt (M.pages pages.now) c.at c.cell
        → c.at ≡ stale.now.at → stale.now.before ≡ last_place front → HasMap c.cell value
        → IfOk result (EditsCell front c value from) }
{
    let after = cut_record(alloc, pages, &stale.at, from)?;
    match leads_past(stale, &after) {
        Some(before) => unlinked(alloc, pages, &before, &stale.at),
        None => rewritten(alloc, pages, &stale.at, &after),
    }
}

/// Writes the cell, and frees the cell that it leads past, if it leads past one.
pub(crate) fn write_edit<M: MetaPages>(pages: &mut M, cells: &mut FreeCells, edit: &ChainEdit)
    requires belong { Belong cells.old (M.pages pages.old) }
    requires place { HasPlace (M.pages pages.old) edit.now.at }
    requires next { IfSome edit.now.cell.head.next (λ at. at.cell < 28) }
    requires good { AreRecords edit.now.cell.records }
    requires fits { length (spellings edit.now.cell.records) ≤ 272 }
    requires used { is_free cells.old edit.now.at ≡ false }
    requires freed { IfSome edit.now.freed (λ freed. (is_at edit.now.at freed ≡ false)
        × IsUsedAt (M.pages pages.old) freed × Contains (table_of cells.old freed.vol) freed.page) }
    ensures writes { WritesEdit edit.now cells.old cells.new (M.pages pages.old)
        (M.pages pages.new) }
    ensures belong { Belong cells.new (M.pages pages.new) }
    ensures room { M.room pages.new ≡ M.room pages.old }
    ensures before { M.before pages.new ≡ M.before pages.old }
{
    write_cell(pages, edit.at, &edit.cell.head, &edit.cell.records);
    if let Some(freed) = edit.freed {
        cells.free_cell(pages, freed);
    }
}
