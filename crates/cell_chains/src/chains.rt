//! For each cell, the first cells of the chains to which it belongs.
ghost use Rattle.std.specs.Prelude.{IfOk, OnOk};
ghost use Rattle.metadata_cells.specs.domain_base.declared.place.CellAt.{CellAt};
ghost use Rattle.cell_chains.specs.Links.{HasLink};
ghost use Rattle.cell_chains.specs.declared.links.CellLink.{CellLink};
ghost use Rattle.cell_chains.specs.Heads.{IsStartOf};
ghost use Rattle.cell_chains.specs.Starts.{AddsChain, AddsStart, Tells, starts_of};

use crate::heads::is_head;
use crate::map::StartMap;
use crate::starts::Starts;
use crate::{CellLink, CellLinks, CellSet, chain_of};
use metadata_cells::{CellAt, OutOfMemory};
use std::alloc::Global;

/// Adds the first cell of a chain to the set of each of its cells.
fn add_chain(cells: &[CellAt], start: &CellAt, map: &mut StartMap) -> Result<(), OutOfMemory>
    ensures { OnOk result (AddsChain cells.now start.now map.old map.new) }
{
    for at in cells {
        map.join(at, &Starts::One { start: *start })?;
    }
    Ok(())
}

/// Adds a cell to the sets of the cells of the chain that begins there, if one does.
fn add_from(
    alloc: Global,
    links: &CellLinks,
    led: &CellSet,
    at: &CellAt,
    link: &CellLink,
    map: &mut StartMap,
) -> Result<(), OutOfMemory>
    ensures { OnOk result (AddsStart links.now led.now at.now link.now map.old map.new) }
{
    if is_head(led, at, link) {
        let cells = chain_of(alloc, links, at)?;
        add_chain(&cells, at, map)?;
    }
    Ok(())
}

/// For each cell in use, the first cells of the chains to which it belongs.
pub(crate) fn chain_starts(
    alloc: Global,
    links: &CellLinks,
    led: &CellSet,
) -> Result<StartMap, OutOfMemory>
    ensures { IfOk result (λ map. (at : CellAt) (link : CellLink) → HasLink links.now at link
        → Tells (starts_of map at) (IsStartOf links.now led.now at)) }
{
    let mut map = StartMap::new(alloc);
    for (_, (at, link)) in links.as_slice() {
        add_from(alloc, links, led, at, link, &mut map)?;
    }
    Ok(map)
}
