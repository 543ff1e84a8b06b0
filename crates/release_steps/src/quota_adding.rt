//! One more quota cell, with the limits of one owner.
ghost use Rattle.std.specs.Prelude.{◌≡◌, ◌+◌, ◌≤◌, [], IfErr, IfOk, List, None, OnErr, OnOk, Some, map};
ghost use Rattle.release_list.specs.metadata_cells.Chain.{PlacedCell};
ghost use Rattle.release_list.specs.file_chains.Allocated.{AreAllocated, FindsNone};
ghost use Rattle.release_list.specs.file_chains.FileChanges.{AreOnTables, LeavesOtherCells};
ghost use Rattle.release_list.specs.file_chains.MapChanges.{ChangesAtMost, LeavesOffTables, TakesOne};
ghost use Rattle.release_list.specs.Standing.{IsQuotas};
ghost use Rattle.quota_book.specs.fileset_values.declared.command.Owner.TheVariants.{Fileset};
ghost use Rattle.quota_book.specs.QuotaCells.{touched};
ghost use Rattle.release_steps.specs.QuotaChain.{IsLast, SetsLimits, read_of, said_in, there_of};

use crate::cell::QuotaCell;
use crate::records::write_said;
use crate::writing::{link_behind, new_head};
use quota_book::{Limits, Owner};
use release_list::{
    CellAt, FilesetNo, FreeCells, FreeSpace, MetaPages, StoreFault, VolIx, take_cell, write_cell,
};
use std::alloc::Global;

/// Begins a fileset's chain of quota cells with the limits of an owner, and returns its first cell.
/// Memory is taken before the cell is.
pub(crate) fn add_first<M: MetaPages>(
    alloc: Global,
    pages: &mut M,
    space: &mut FreeSpace,
    cells: &mut FreeCells,
    fileset: FilesetNo,
    who: Owner,
    limits: Limits,
    prefer: VolIx,
) -> Result<CellAt, StoreFault>
    requires allocated { AreAllocated space.old cells.old (M.pages pages.old) }
    requires named { ¬ who ≡ Fileset }
    ensures ok { IfOk result (λ start. SetsLimits fileset who limits start [] cells.old cells.new
        (M.pages pages.old) (M.pages pages.new)) }
    ensures taken { OnOk result (TakesOne prefer space.old space.new cells.old cells.new
        (M.pages pages.old)) }
    ensures err { IfErr result (FindsNone space.old space.new cells.old) }
    ensures cells { OnErr result (cells.new ≡ cells.old) }
    ensures pages { OnErr result (M.pages pages.new ≡ M.pages pages.old) }
    ensures others { LeavesOtherCells cells.old [] (M.pages pages.old) (M.pages pages.new) }
    ensures elsewhere { LeavesOffTables cells.new (M.pages pages.old) (M.pages pages.new) }
    ensures few { OnOk result (ChangesAtMost 3 (M.pages pages.old) (M.pages pages.new)) }
    ensures allocated { AreAllocated space.new cells.new (M.pages pages.new) }
    ensures room { M.room pages.old ≤ M.room pages.new + 1 }
    ensures before { M.before pages.new ≡ M.before pages.old }
{
    let records = write_said(alloc, &[(who, limits)])?;
    let at = take_cell(alloc, pages, space, cells, prefer)?;
    let start = at;
    write_cell(pages, at, &new_head(fileset), &records);
    Ok(start)
}

/// Adds a quota cell with the limits of an owner after the last one of a chain. Memory is taken
/// before the cell is.
pub(crate) fn add_behind<M: MetaPages>(
    alloc: Global,
    pages: &mut M,
    space: &mut FreeSpace,
    cells: &mut FreeCells,
    fileset: FilesetNo,
    first: &CellAt,
    last: &QuotaCell,
    who: Owner,
    limits: Limits,
    prefer: VolIx,
) -> Result<(), StoreFault>
    requires allocated { AreAllocated space.old cells.old (M.pages pages.old) }
    requires quotas { (chain : List PlacedCell) × IsQuotas (M.pages pages.old) first.now chain }
    requires tables { (chain : List PlacedCell) → IsQuotas (M.pages pages.old) first.now chain
        → AreOnTables cells.old chain }
    requires last { (chain : List PlacedCell) → IsQuotas (M.pages pages.old) first.now chain
        → IsLast (there_of last.now) (map read_of chain) }
    requires untouched { (chain : List PlacedCell)
        → IsQuotas (M.pages pages.old) first.now chain → touched (said_in chain) who ≡ None }
    requires named { ¬ who ≡ Fileset }
    ensures ok { (chain : List PlacedCell) → IsQuotas (M.pages pages.old) first.now chain
        → OnOk result (SetsLimits fileset who limits first.now chain cells.old cells.new
        (M.pages pages.old) (M.pages pages.new)) }
    ensures taken { OnOk result (TakesOne prefer space.old space.new cells.old cells.new
        (M.pages pages.old)) }
    ensures err { IfErr result (FindsNone space.old space.new cells.old) }
    ensures cells { OnErr result (cells.new ≡ cells.old) }
    ensures pages { OnErr result (M.pages pages.new ≡ M.pages pages.old) }
    ensures others { (chain : List PlacedCell) → IsQuotas (M.pages pages.old) first.now chain
        → LeavesOtherCells cells.old chain (M.pages pages.old) (M.pages pages.new) }
    ensures elsewhere { LeavesOffTables cells.new (M.pages pages.old) (M.pages pages.new) }
    ensures few { OnOk result (ChangesAtMost 3 (M.pages pages.old) (M.pages pages.new)) }
    ensures allocated { AreAllocated space.new cells.new (M.pages pages.new) }
    ensures room { M.room pages.old ≤ M.room pages.new + 1 }
    ensures before { M.before pages.new ≡ M.before pages.old }
{
    let front = write_said(alloc, &last.said)?;
    let records = write_said(alloc, &[(who, limits)])?;
    let at = take_cell(alloc, pages, space, cells, prefer)?;
    link_behind(
        pages,
        &last.at,
        &last.head,
        &front,
        &at,
        &new_head(fileset),
        &records,
    );
    Ok(())
}
