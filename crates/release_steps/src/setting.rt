//! An owner's limits, written into the cell of a chain that they touch.
ghost use Rattle.std.specs.Prelude.{◌≡◌, ℕ, List, OnErr, OnOk, Some, map};
ghost use Rattle.release_list.specs.metadata_cells.Chain.{PlacedCell};
ghost use Rattle.release_list.specs.free_cells.Cells.{Cells};
ghost use Rattle.release_list.specs.free_space.Spaces.{Spaces};
ghost use Rattle.release_list.specs.file_chains.Allocated.{AreAllocated};
ghost use Rattle.release_list.specs.file_chains.FileChanges.{AreOnTables, LeavesOtherCells};
ghost use Rattle.release_list.specs.file_chains.MapChanges.{ChangesAtMost, LeavesOffTables};
ghost use Rattle.release_list.specs.Standing.{IsQuotas};
ghost use Rattle.quota_book.specs.fileset_values.declared.command.Owner.TheVariants.{Fileset};
ghost use Rattle.quota_book.specs.QuotaCells.{touched};
ghost use Rattle.release_steps.specs.QuotaChain.{SetsLimits, read_of, says_of, there_of};

use crate::cell::QuotaCell;
use crate::writing::write_quota;
use quota_book::{Limits, Owner};
use release_list::from_sorted_sets::entries::put;
use release_list::{CellAt, MetaPages, OutOfMemory};
use std::alloc::Global;

/// Writes an owner's limits into the cell of the chain that they touch. After an error nothing has
/// changed.
pub(crate) fn set_in_place<M: MetaPages>(
    alloc: Global,
    pages: &mut M,
    first: &CellAt,
    found: &mut Vec<QuotaCell>,
    place: usize,
    who: Owner,
    limits: Limits,
) -> Result<(), OutOfMemory>
    requires quotas { (chain : List PlacedCell) × IsQuotas (M.pages pages.old) first.now chain }
    requires read { (chain : List PlacedCell) → IsQuotas (M.pages pages.old) first.now chain
        → map there_of found.old.items ≡ map read_of chain }
    requires touched { touched (map says_of found.old.items) who ≡ Some place }
    requires named { ¬ who ≡ Fileset }
    ensures ok { (chain : List PlacedCell) (cells : Cells) (fileset : ℕ)
        → IsQuotas (M.pages pages.old) first.now chain → AreOnTables cells chain
        → OnOk result (SetsLimits fileset who limits first.now chain cells cells
        (M.pages pages.old) (M.pages pages.new)) }
    ensures err { OnErr result (M.pages pages.new ≡ M.pages pages.old) }
    ensures others { (chain : List PlacedCell) (cells : Cells)
        → IsQuotas (M.pages pages.old) first.now chain
        → LeavesOtherCells cells chain (M.pages pages.old) (M.pages pages.new) }
    ensures elsewhere { (chain : List PlacedCell) (cells : Cells)
        → IsQuotas (M.pages pages.old) first.now chain → AreOnTables cells chain
        → LeavesOffTables cells (M.pages pages.old) (M.pages pages.new) }
    ensures few { ChangesAtMost 1 (M.pages pages.old) (M.pages pages.new) }
    ensures allocated { (space : Spaces) (cells : Cells)
        → AreAllocated space cells (M.pages pages.old)
        → AreAllocated space cells (M.pages pages.new) }
    ensures room { M.room pages.new ≡ M.room pages.old }
    ensures before { M.before pages.new ≡ M.before pages.old }
{
    let cell = &mut found[place];
    put(&mut cell.said, who, limits)?;
    write_quota(alloc, pages, &cell.at, &cell.head, &cell.said)
}
