//! Chains of cells, walked from their first cell to their last.
ghost use Rattle.std.specs.Prelude.{◌≡◌, ◌⊎◌, ◌↔◌, ◌++◌, ◌∷◌, [], IfNone, IfOk, IfSome, OnOk, Some, true, Contains};
ghost use Rattle.metadata_cells.specs.domain_base.declared.place.CellAt.{CellAt};
ghost use Rattle.metadata_cells.specs.Chain.{may_follow as follows};
ghost use Rattle.cell_chains.specs.Chains.{IsOnChain, ListsChain};
ghost use Rattle.cell_chains.specs.Links.{HasLink};
ghost use Rattle.cell_chains.specs.Members.{IsIn};
ghost use Rattle.cell_chains.specs.declared.links.CellLink.{CellLink};

use crate::links::{CellLink, CellLinks};
use crate::set::CellSet;
use metadata_cells::{CellAt, OutOfMemory, may_follow};
use std::alloc::Global;

/// A cell that was reached, and what is read of it.
#[derive(Clone, Copy)]
struct Come {
    at: CellAt,
    link: CellLink,
}

/// The cell to which a chain goes on after those that were seen: it is not one of these, and is a
/// cell in use that may follow.
fn next_of(links: &CellLinks, seen: &CellSet, link: &CellLink) -> Option<Come>
    ensures some { IfSome result (λ come. (link.now.next ≡ Some come.at)
        × (¬ IsIn seen.now come.at) × HasLink links.now come.at come.link
        × (follows link.now.kind come.link.kind ≡ true)) }
    ensures none { IfNone result ((onto : CellAt) (next : CellLink) → link.now.next ≡ Some onto
        → ¬ IsIn seen.now onto → HasLink links.now onto next
        → ¬ follows link.now.kind next.kind ≡ true) }
{
    let at = link.next?;
    if seen.has(&at) {
        return None;
    }
    let next = links.get(&at)?;
    if may_follow(link.kind, next.kind) {
        Some(Come { at, link: next })
    } else {
        None
    }
}

/// The cells of a chain from a cell on, as far as it goes: up to a cell that leads to none, or
/// back, or to none in use that may follow. No cell if the first one is not in use.
pub fn chain_of(
    alloc: Global,
    links: &CellLinks,
    start: &CellAt,
) -> Result<Vec<CellAt>, OutOfMemory>
    ensures { IfOk result (λ cells. ListsChain links.now start.now cells.items) }
{
    let mut cells = Vec::new(alloc);
    let mut seen = CellSet::new(alloc);
    let Some(link) = links.get(start) else {
        return Ok(cells);
    };
    let mut come = Come { at: *start, link };
    for _ in 0..u64::MAX {
        seen.insert(&come.at)?;
        cells.push(come.at)?;
        match next_of(links, &seen, &come.link) {
            Some(next) => come = next,
            None => return Ok(cells),
        }
    }
    Err(OutOfMemory)
}

/// Puts the cells of the chain from a cell on into a set.
pub fn mark_chain(
    alloc: Global,
    links: &CellLinks,
    start: &CellAt,
    marked: &mut CellSet,
) -> Result<(), OutOfMemory>
    ensures { OnOk result ((at : CellAt) → IsIn marked.new at
        ↔ (IsIn marked.old at ⊎ IsOnChain links.now start.now at)) }
{
    let cells = chain_of(alloc, links, start)?;
    marked.insert_all(&cells)?;
    Ok(())
}
