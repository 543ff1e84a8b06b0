//! Chains that end at a cell that leads to some other cell.
ghost use Rattle.std.specs.Prelude.{◌≡◌, ◌⊎◌, ◌↔◌, IfOk, IsTrue, OnOk, Some};
ghost use Rattle.metadata_cells.specs.domain_base.declared.place.CellAt.{CellAt};
ghost use Rattle.metadata_cells.specs.domain_base.declared.place.Home.{Home};
ghost use Rattle.metadata_cells.specs.sorted_sets.Members.{IsIn as IsHomeIn};
ghost use Rattle.cell_chains.specs.Links.{HasLink};
ghost use Rattle.cell_chains.specs.declared.links.CellLink.{CellLink};
ghost use Rattle.cell_chains.specs.Leads.{EndsAstray, HasEndAstray};

use crate::heads::is_head;
use crate::{CellLink, CellLinks, CellSet, chain_of};
use metadata_cells::{CellAt, Home, HomeSet, OutOfMemory};
use std::alloc::Global;

/// Whether a cell in use leads to some cell.
fn leads_on(links: &CellLinks, at: &CellAt) -> bool
    ensures { IsTrue result ↔ ((link : CellLink) × (onto : CellAt) × HasLink links.now at.now link
        × (link.next ≡ Some onto)) }
{
    match links.get(at) {
        Some(link) => link.next.is_some(),
        None => false,
    }
}

/// The last cell of the chain from a cell on, if it leads to some other cell.
fn astray_end(
    alloc: Global,
    links: &CellLinks,
    start: &CellAt,
) -> Result<Option<CellAt>, OutOfMemory>
    ensures { IfOk result (λ end. (at : CellAt) → EndsAstray links.now start.now at
        ↔ (end ≡ Some at)) }
{
    let cells = chain_of(alloc, links, start)?;
    Ok(match cells.last() {
        Some(at) if leads_on(links, at) => Some(*at),
        _ => None,
    })
}

/// Puts the page of the last cell of a chain into a set, if a chain begins at a cell and ends at a
/// cell that leads to some other cell.
fn insert_astray(
    alloc: Global,
    links: &CellLinks,
    led: &CellSet,
    at: &CellAt,
    link: &CellLink,
    found: &mut HomeSet,
) -> Result<(), OutOfMemory>
    ensures { OnOk result ((home : Home) → IsHomeIn found.new home ↔ (IsHomeIn found.old home
        ⊎ HasEndAstray links.now led.now home at.now link.now)) }
{
    if !is_head(led, at, link) {
        return Ok(());
    }
    if let Some(end) = astray_end(alloc, links, at)? {
        found.insert(&Home {
            vol: end.vol,
            page: end.page,
        })?;
    }
    Ok(())
}

/// The pages on which a chain ends at a cell that leads to some other cell.
pub fn astray_faults(
    alloc: Global,
    links: &CellLinks,
    led: &CellSet,
) -> Result<HomeSet, OutOfMemory>
    ensures { IfOk result (λ found. (home : Home) → IsHomeIn found home
        ↔ ((at : CellAt) × (link : CellLink) × HasLink links.now at link
        × HasEndAstray links.now led.now home at link)) }
{
    let mut found = HomeSet::new(alloc);
    for (_, (at, link)) in links.as_slice() {
        insert_astray(alloc, links, led, at, link, &mut found)?;
    }
    Ok(found)
}
