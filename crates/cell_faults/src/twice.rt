//! Pages and limits that two cells of a chain say.
ghost use Rattle.std.specs.Prelude.{◌↔◌, IfOk};
ghost use Rattle.page_ways.specs.domain_base.declared.place.Home.{Home};
ghost use Rattle.page_ways.specs.domain_layout.Reached.{Frame};
ghost use Rattle.page_ways.specs.sorted_sets.Members.{IsIn as IsHomeIn};
ghost use Rattle.cell_faults.specs.Links.{AreLinks};
ghost use Rattle.cell_faults.specs.ChainPages.{HasLimitsTwice, HasPageTwice};

use cell_chains::{CellLinks, Said, led_cells, twice_faults};
use page_ways::{HomeSet, MetaPages, OutOfMemory};
use std::alloc::Global;

/// The pages on which a cell says the place of a page of its file that an earlier cell of the chain
/// has, too, from what was read of all cells in use.
pub fn pages_twice_faults<M: MetaPages>(
    alloc: Global,
    pages: &M,
    links: &CellLinks,
) -> Result<HomeSet, OutOfMemory>
    ensures { IfOk result (λ found. (frame : Frame) → AreLinks (M.pages pages.now) frame links.now
        → (home : Home) → IsHomeIn found home
        ↔ HasPageTwice (M.pages pages.now) frame home) }
{
    let led = led_cells(alloc, links)?;
    let found = twice_faults(alloc, pages, Said::Pages, links, &led)?;
    Ok(found)
}

/// The pages on which a cell says the limits of an owner that an earlier cell of its chain of
/// quotas says, from what was read of all cells in use.
pub fn limits_twice_faults<M: MetaPages>(
    alloc: Global,
    pages: &M,
    links: &CellLinks,
) -> Result<HomeSet, OutOfMemory>
    ensures { IfOk result (λ found. (frame : Frame) → AreLinks (M.pages pages.now) frame links.now
        → (home : Home) → IsHomeIn found home
        ↔ HasLimitsTwice (M.pages pages.now) frame home) }
{
    let led = led_cells(alloc, links)?;
    let found = twice_faults(alloc, pages, Said::Limits, links, &led)?;
    Ok(found)
}
