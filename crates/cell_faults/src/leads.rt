//! Cells of chains that lead to a wrong cell.
ghost use Rattle.std.specs.Prelude.{◌↔◌, IfOk};
ghost use Rattle.page_ways.specs.domain_base.declared.place.Home.{Home};
ghost use Rattle.page_ways.specs.page_store.Pages.{Pages};
ghost use Rattle.page_ways.specs.domain_layout.Reached.{Frame};
ghost use Rattle.page_ways.specs.sorted_sets.Members.{IsIn as IsHomeIn};
ghost use Rattle.cell_faults.specs.Links.{AreLinks};
ghost use Rattle.cell_faults.specs.ChainPages.{HasWrongLead};

use cell_chains::{CellLinks, astray_faults, late_faults, led_cells};
use page_ways::{HomeSet, OutOfMemory};
use std::alloc::Global;

/// The pages on which a cell of a chain leads back, to no cell that may follow it, or to one to
/// which an earlier cell of another chain leads, from what was read of all cells in use.
pub fn leads_faults(alloc: Global, links: &CellLinks) -> Result<HomeSet, OutOfMemory>
    ensures { IfOk result (λ found. (pages : Pages) (frame : Frame) → AreLinks pages frame links.now
        → (home : Home) → IsHomeIn found home ↔ HasWrongLead pages frame home) }
{
    let led = led_cells(alloc, links)?;
    let mut found = astray_faults(alloc, links, &led)?;
    let late = late_faults(alloc, links, &led)?;
    found.insert_set(&late)?;
    Ok(found)
}
