//! An owner's limits, written into a fileset's chain of quota cells.
ghost use Rattle.std.specs.Prelude.{◌≡◌, ◌+◌, ◌≤◌, IfErr, IfOk, IfSome, List, OnErr, OnOk};
ghost use Rattle.release_list.specs.metadata_cells.Chain.{PlacedCell};
ghost use Rattle.release_list.specs.file_chains.Allocated.{AreAllocated, FindsNone};
ghost use Rattle.release_list.specs.file_chains.FileChanges.{AreOnTables, LeavesOtherCells};
ghost use Rattle.release_list.specs.file_chains.MapChanges.{ChangesAtMost, LeavesOffTables};
ghost use Rattle.release_list.specs.Standing.{IsQuotas};
ghost use Rattle.quota_book.specs.fileset_values.declared.command.Owner.TheVariants.{Fileset};
ghost use Rattle.quota_book.specs.QuotaCells.{touched};
ghost use Rattle.release_steps.specs.QuotaChain.{IsQuotaChain, SetsLimits, TakesIfUntouched, said_in};

use crate::quota_adding::{add_behind, add_first};
use crate::reading::read_cells;
use crate::setting::set_in_place;
use crate::touching::touched_cell;
use quota_book::{Limits, Owner};
use release_list::{CellAt, FilesetNo, FreeCells, FreeSpace, MetaPages, StoreFault, VolIx};
use std::alloc::Global;

/// Writes an owner's limits into a chain that has begun: into the cell that they touch, else into a
/// new one after the last.
fn set_in_chain<M: MetaPages>(
    alloc: Global,
    pages: &mut M,
    space: &mut FreeSpace,
    cells: &mut FreeCells,
    fileset: FilesetNo,
    first: &CellAt,
    who: Owner,
    limits: Limits,
    prefer: VolIx,
) -> Result<(), StoreFault>
    requires allocated { AreAllocated space.old cells.old (M.pages pages.old) }
    requires chain { (chain : List PlacedCell) × IsQuotas (M.pages pages.old) first.now chain
        × AreOnTables cells.old chain }
    requires named { ¬ who ≡ Fileset }
    ensures ok { (chain : List PlacedCell) → IsQuotas (M.pages pages.old) first.now chain
        → OnOk result (SetsLimits fileset who limits first.now chain cells.old cells.new
        (M.pages pages.old) (M.pages pages.new)) }
    ensures taken { (chain : List PlacedCell) → IsQuotas (M.pages pages.old) first.now chain
        → OnOk result (TakesIfUntouched (touched (said_in chain) who) prefer space.old space.new
        cells.old cells.new (M.pages pages.old)) }
    ensures err { IfErr result (FindsNone space.old space.new cells.old) }
    ensures cells { OnErr result (cells.new ≡ cells.old) }
    ensures pages { OnErr result (M.pages pages.new ≡ M.pages pages.old) }
    ensures others { (chain : List PlacedCell) → IsQuotas (M.pages pages.old) first.now chain
        → LeavesOtherCells cells.old chain (M.pages pages.old) (M.pages pages.new) }
    ensures elsewhere { LeavesOffTables cells.new (M.pages pages.old) (M.pages pages.new) }
    ensures few { OnOk result (ChangesAtMost 3 (M.pages pages.old) (M.pages pages.new)) }
    ensures allocated { AreAllocated space.new cells.new (M.pages pages.new) }
    ensures room { M.room pages.old ≤ M.room pages.new + 1 }
    ensures before { M.before pages.new ≡ M.before pages.old }
{
    let mut found = read_cells(alloc, pages, *first)?;
    match touched_cell(&found, who) {
        Some(place) => {
            set_in_place(alloc, pages, first, &mut found, place, who, limits)?;
            Ok(())
        }
        None => {
            let last = &found[found.len() - 1];
            add_behind(
                alloc, pages, space, cells, fileset, first, last, who, limits, prefer,
            )
        }
    }
}

/// Writes the limits of a user or a group into the chain of quota cells that begins at `first`:
/// into the cell that says something of the owner, else into the first that has room, else into a
/// new one after the last. If there is no chain, it begins one. Returns the chain's first cell, for
/// the fileset's slot. Limits of zeros are written as they are. NoPage and OutOfMemory are returned
/// as `take_cell` returns them. After an error nothing but room and the count of misses has
/// changed.
pub fn set_limits<M: MetaPages>(
    alloc: Global,
    pages: &mut M,
    space: &mut FreeSpace,
    cells: &mut FreeCells,
    fileset: FilesetNo,
    first: Option<CellAt>,
    who: Owner,
    limits: Limits,
    prefer: VolIx,
) -> Result<CellAt, StoreFault>
    requires allocated { AreAllocated space.old cells.old (M.pages pages.old) }
    requires chain { (chain : List PlacedCell) × IsQuotaChain (M.pages pages.old) first chain
        × AreOnTables cells.old chain }
    requires named { ¬ who ≡ Fileset }
    ensures ok { (chain : List PlacedCell) → IsQuotaChain (M.pages pages.old) first chain
        → IfOk result (λ start. SetsLimits fileset who limits start chain cells.old cells.new
        (M.pages pages.old) (M.pages pages.new)) }
    ensures start { IfSome first (λ at. IfOk result (λ start. start ≡ at)) }
    ensures taken { (chain : List PlacedCell) → IsQuotaChain (M.pages pages.old) first chain
        → OnOk result (TakesIfUntouched (touched (said_in chain) who) prefer space.old space.new
        cells.old cells.new (M.pages pages.old)) }
    ensures err { IfErr result (FindsNone space.old space.new cells.old) }
    ensures cells { OnErr result (cells.new ≡ cells.old) }
    ensures pages { OnErr result (M.pages pages.new ≡ M.pages pages.old) }
    ensures others { (chain : List PlacedCell) → IsQuotaChain (M.pages pages.old) first chain
        → LeavesOtherCells cells.old chain (M.pages pages.old) (M.pages pages.new) }
    ensures elsewhere { LeavesOffTables cells.new (M.pages pages.old) (M.pages pages.new) }
    ensures few { OnOk result (ChangesAtMost 3 (M.pages pages.old) (M.pages pages.new)) }
    ensures allocated { AreAllocated space.new cells.new (M.pages pages.new) }
    ensures room { M.room pages.old ≤ M.room pages.new + 1 }
    ensures before { M.before pages.new ≡ M.before pages.old }
{
    match first {
        Some(at) => {
            set_in_chain(
                alloc, pages, space, cells, fileset, &at, who, limits, prefer,
            )?;
            Ok(at)
        }
        None => add_first(alloc, pages, space, cells, fileset, who, limits, prefer),
    }
}
