//! The cells of a chain of quota cells, read one after the other.
ghost use Rattle.std.specs.Prelude.{◌≡◌, IfOk, List, map};
ghost use Rattle.release_list.specs.metadata_cells.Chain.{PlacedCell};
ghost use Rattle.release_list.specs.Standing.{IsQuotas};
ghost use Rattle.release_steps.specs.QuotaChain.{read_of, there_of};

use crate::cell::QuotaCell;
use crate::records::read_said;
use release_list::{CELLS, CellAt, MetaPages, OutOfMemory, next_cell, read_used};
use std::alloc::Global;

/// The quota cells from there on, in the order of their chain.
pub(crate) fn read_cells<M: MetaPages>(
    alloc: Global,
    pages: &M,
    first: CellAt,
) -> Result<Vec<QuotaCell>, OutOfMemory>
    requires { (chain : List PlacedCell) × IsQuotas (M.pages pages.now) first chain }
    ensures { (chain : List PlacedCell) → IsQuotas (M.pages pages.now) first chain
        → IfOk result (λ found. map there_of found.items ≡ map read_of chain) }
{
    let mut found = Vec::new(alloc);
    let mut next = Some(first);
    for _ in 0..CELLS {
        let Some(at) = next else {
            return Ok(found);
        };
        let Some(used) = read_used(alloc, pages, at)? else {
            return Ok(found);
        };
        let said = read_said(alloc, used.records.as_slice())?;
        let head = used.head;
        found.push(QuotaCell { at, head, said })?;
        next = next_cell(pages, &at);
    }
    Ok(found)
}
