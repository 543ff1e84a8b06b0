//! What two cells of a chain say.
ghost use Rattle.std.specs.Prelude.{◌≡◌, ◌⊎◌, ◌↔◌, IfOk, IsTrue, OnOk};
ghost use Rattle.metadata_cells.specs.domain_base.declared.place.CellAt.{CellAt};
ghost use Rattle.metadata_cells.specs.domain_base.declared.place.Home.{Home};
ghost use Rattle.metadata_cells.specs.sorted_sets.Members.{IsIn as IsHomeIn};
ghost use Rattle.cell_chains.specs.Links.{HasLink};
ghost use Rattle.cell_chains.specs.declared.links.CellLink.{CellLink};
ghost use Rattle.cell_chains.specs.Twice.{Asks, HasTwice};

use crate::along::look_along;
use crate::said::Said;
use crate::{CellLink, CellLinks, CellSet, chain_of, is_head};
use metadata_cells::{CellAt, CellKind, HomeSet, MetaPages, OutOfMemory};
use std::alloc::Global;

/// Whether this is asked of chains that begin with a cell of a kind. Limits are asked only of quota
/// chains.
fn asks(what: Said, kind: CellKind) -> bool
    ensures { IsTrue result ↔ Asks what kind }
{
    match what {
        Said::Pages => true,
        Said::Limits => matches!(kind, CellKind::Quota),
    }
}

/// Puts into a set the pages of cells that say what a cell before them says, in the chain that
/// begins at a cell, if one begins there.
fn insert_twice<M: MetaPages>(
    alloc: Global,
    pages: &M,
    what: Said,
    links: &CellLinks,
    led: &CellSet,
    at: &CellAt,
    link: &CellLink,
    found: &mut HomeSet,
) -> Result<(), OutOfMemory>
    ensures { OnOk result ((home : Home) → IsHomeIn found.new home ↔ (IsHomeIn found.old home
        ⊎ HasTwice (M.pages pages.now) what links.now led.now home at.now link.now)) }
{
    if asks(what, link.kind) && is_head(led, at, link) {
        let cells = chain_of(alloc, links, at)?;
        look_along(alloc, pages, what, &cells, found)?;
    }
    Ok(())
}

/// The pages on which a cell says what a cell before it in its chain says.
pub fn twice_faults<M: MetaPages>(
    alloc: Global,
    pages: &M,
    what: Said,
    links: &CellLinks,
    led: &CellSet,
) -> Result<HomeSet, OutOfMemory>
    ensures { IfOk result (λ found. (home : Home) → IsHomeIn found home
        ↔ ((at : CellAt) × (link : CellLink) × HasLink links.now at link
        × HasTwice (M.pages pages.now) what links.now led.now home at link)) }
{
    let mut found = HomeSet::new(alloc);
    for (_, (at, link)) in links.as_slice() {
        insert_twice(alloc, pages, what, links, led, at, link, &mut found)?;
    }
    Ok(found)
}
