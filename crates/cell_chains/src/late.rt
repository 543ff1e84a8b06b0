//! Cells that go on to a cell to which an earlier cell of another chain goes on.
ghost use Rattle.std.specs.Prelude.{◌≡◌, ◌⊎◌, ◌↔◌, IfNone, IfOk, IfSome, OnOk, Some};
ghost use Rattle.metadata_cells.specs.domain_base.declared.place.CellAt.{CellAt};
ghost use Rattle.metadata_cells.specs.domain_base.declared.place.Home.{Home};
ghost use Rattle.metadata_cells.specs.sorted_sets.Members.{IsIn as IsHomeIn};
ghost use Rattle.cell_chains.specs.Links.{HasLink};
ghost use Rattle.cell_chains.specs.declared.links.CellLink.{CellLink};
ghost use Rattle.metadata_cells.specs.CellPage.{home_of};
ghost use Rattle.cell_chains.specs.Late.{Goes, GoesLate, JoinsLead};
ghost use Rattle.cell_chains.specs.Leads.{HasLate};
ghost use Rattle.cell_chains.specs.Starts.{Differ, starts_of};
ghost use Rattle.cell_chains.specs.declared.starts.Starts.{Starts as StartsOf};

use crate::chains::chain_starts;
use crate::map::StartMap;
use crate::starts::{Starts, differ};
use crate::{CellLink, CellLinks, CellSet};
use metadata_cells::{CellAt, Home, HomeSet, OutOfMemory, may_follow};
use std::alloc::Global;

/// The cell to which a cell goes on, and the first cells of the chains of this one.
#[derive(Clone, Copy)]
struct Lead {
    onto: CellAt,
    starts: Starts,
}

/// The cell to which a cell of a chain goes on, if it does.
fn lead_of(links: &CellLinks, chains: &StartMap, at: &CellAt, link: &CellLink) -> Option<Lead>
    ensures some { IfSome result (λ lead. Goes links.now chains.now at.now link.now lead.onto
        lead.starts) }
    ensures none { IfNone result ((onto : CellAt) (starts : StartsOf)
        → ¬ Goes links.now chains.now at.now link.now onto starts) }
{
    let onto = link.next?;
    let next = links.get(&onto)?;
    let starts = chains.get(at)?;
    if may_follow(link.kind, next.kind) {
        Some(Lead { onto, starts })
    } else {
        None
    }
}

/// Puts the page of a cell into a set, if it goes on to a cell to which an earlier cell of another
/// chain goes on.
fn insert_late(
    earlier: &StartMap,
    at: &CellAt,
    lead: &Lead,
    found: &mut HomeSet,
) -> Result<(), OutOfMemory>
    ensures { OnOk result ((home : Home) → IsHomeIn found.new home ↔ (IsHomeIn found.old home
        ⊎ ((home_of at.now ≡ home) × Differ (starts_of earlier.now lead.now.onto)
        lead.now.starts))) }
{
    if differ(&earlier.get(&lead.onto), &lead.starts) {
        found.insert(&Home {
            vol: at.vol,
            page: at.page,
        })?;
    }
    Ok(())
}

/// Looks at a cell after all earlier ones.
fn look_at(
    links: &CellLinks,
    chains: &StartMap,
    at: &CellAt,
    link: &CellLink,
    earlier: &mut StartMap,
    found: &mut HomeSet,
) -> Result<(), OutOfMemory>
    ensures found { OnOk result ((home : Home) → IsHomeIn found.new home
        ↔ (IsHomeIn found.old home ⊎ ((home_of at.now ≡ home)
        × GoesLate links.now chains.now earlier.old at.now link.now))) }
    ensures earlier { OnOk result (JoinsLead links.now chains.now at.now link.now earlier.old
        earlier.new) }
{
    let Some(lead) = lead_of(links, chains, at, link) else {
        return Ok(());
    };
    insert_late(earlier, at, &lead, found)?;
    earlier.join(&lead.onto, &lead.starts)
}

/// The pages on which a cell goes on to a cell to which an earlier cell of another chain goes on.
pub fn late_faults(alloc: Global, links: &CellLinks, led: &CellSet) -> Result<HomeSet, OutOfMemory>
    ensures { IfOk result (λ found. (home : Home) → IsHomeIn found home
        ↔ ((at : CellAt) × (link : CellLink) × HasLink links.now at link
        × HasLate links.now led.now home at link)) }
{
    let chains = chain_starts(alloc, links, led)?;
    let mut earlier = StartMap::new(alloc);
    let mut found = HomeSet::new(alloc);
    for (_, (at, link)) in links.as_slice() {
        look_at(links, &chains, at, link, &mut earlier, &mut found)?;
    }
    Ok(found)
}
