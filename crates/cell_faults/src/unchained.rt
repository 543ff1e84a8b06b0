//! Chain cells and quota cells that belong to no chain.
ghost use Rattle.std.specs.Prelude.{◌≡◌, ◌⊎◌, ◌↔◌, IfOk, OnOk};
ghost use Rattle.page_ways.specs.domain_base.declared.place.CellAt.{CellAt};
ghost use Rattle.page_ways.specs.domain_base.declared.place.Home.{Home};
ghost use Rattle.page_ways.specs.page_store.Pages.{Pages};
ghost use Rattle.page_ways.specs.metadata_cells.CellPage.{home_of};
ghost use Rattle.page_ways.specs.domain_layout.Reached.{Frame};
ghost use Rattle.page_ways.specs.sorted_sets.Members.{IsIn as IsHomeIn};
ghost use Rattle.cell_chains.specs.Members.{IsIn};
ghost use Rattle.cell_chains.specs.Heads.{IsChained, IsOfChain};
ghost use Rattle.cell_faults.specs.Links.{AreLinks};
ghost use Rattle.cell_faults.specs.ChainPages.{HasUnchained, IsLoose};

use cell_chains::{CellLink, CellLinks, CellSet, is_head, led_cells, mark_chain};
use page_ways::{CellAt, CellKind, Home, HomeSet, OutOfMemory};
use std::alloc::Global;

/// Puts the cells of the chain from a cell on into a set, if it is the first one of a chain.
fn mark_from(
    alloc: Global,
    links: &CellLinks,
    led: &CellSet,
    at: &CellAt,
    link: &CellLink,
    marked: &mut CellSet,
) -> Result<(), OutOfMemory>
    ensures { OnOk result ((other : CellAt) → IsIn marked.new other ↔ (IsIn marked.old other
        ⊎ IsChained links.now led.now at.now link.now other)) }
{
    if is_head(led, at, link) {
        mark_chain(alloc, links, at, marked)?;
    }
    Ok(())
}

/// The cells of all chains.
fn chain_cells(alloc: Global, links: &CellLinks, led: &CellSet) -> Result<CellSet, OutOfMemory>
    ensures { IfOk result (λ marked. (at : CellAt) → IsIn marked at
        ↔ IsOfChain links.now led.now at) }
{
    let mut marked = CellSet::new(alloc);
    for (_, (at, link)) in links.as_slice() {
        mark_from(alloc, links, led, at, link, &mut marked)?;
    }
    Ok(marked)
}

/// Puts the page of a chain cell or a quota cell into a set, if the cell belongs to no chain.
fn insert_loose(
    marked: &CellSet,
    at: &CellAt,
    link: &CellLink,
    found: &mut HomeSet,
) -> Result<(), OutOfMemory>
    ensures { OnOk result ((home : Home) → IsHomeIn found.new home ↔ (IsHomeIn found.old home
        ⊎ ((home_of at.now ≡ home) × IsLoose marked.now at.now link.now))) }
{
    if matches!(link.kind, CellKind::Chain | CellKind::Quota) && !marked.has(at) {
        found.insert(&Home {
            vol: at.vol,
            page: at.page,
        })?;
    }
    Ok(())
}

/// The pages with a chain cell or a quota cell that belongs to no chain, from what was read of all
/// cells in use.
pub fn unchained_faults(alloc: Global, links: &CellLinks) -> Result<HomeSet, OutOfMemory>
    ensures { IfOk result (λ found. (pages : Pages) (frame : Frame) → AreLinks pages frame links.now
        → (home : Home) → IsHomeIn found home ↔ HasUnchained pages frame home) }
{
    let led = led_cells(alloc, links)?;
    let marked = chain_cells(alloc, links, &led)?;
    let mut found = HomeSet::new(alloc);
    for (_, (at, link)) in links.as_slice() {
        insert_loose(&marked, at, link, &mut found)?;
    }
    Ok(found)
}
