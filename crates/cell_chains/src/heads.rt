//! The first cells of chains.
ghost use Rattle.std.specs.Prelude.{◌≡◌, ◌⊎◌, ◌↔◌, IfOk, IsTrue, OnOk};
ghost use Rattle.metadata_cells.specs.domain_base.declared.place.CellAt.{CellAt};
ghost use Rattle.cell_chains.specs.Members.{IsIn};
ghost use Rattle.cell_chains.specs.Heads.{IsHead, IsLedTo, LeadsTo};

use crate::{CellLink, CellLinks, CellSet};
use metadata_cells::{CellAt, CellKind, OutOfMemory};
use std::alloc::Global;

/// Puts the cell to which a cell leads into a set, if the leading cell is a quota cell.
fn insert_led(link: &CellLink, led: &mut CellSet) -> Result<(), OutOfMemory>
    ensures { OnOk result ((onto : CellAt) → IsIn led.new onto
        ↔ (IsIn led.old onto ⊎ LeadsTo link.now onto)) }
{
    if matches!(link.kind, CellKind::Quota) {
        if let Some(onto) = link.next {
            led.insert(&onto)?;
        }
    }
    Ok(())
}

/// The cells to which quota cells lead.
pub fn led_cells(alloc: Global, links: &CellLinks) -> Result<CellSet, OutOfMemory>
    ensures { IfOk result (λ led. (onto : CellAt) → IsIn led onto ↔ IsLedTo links.now onto) }
{
    let mut led = CellSet::new(alloc);
    for (_, (_, link)) in links.as_slice() {
        insert_led(link, &mut led)?;
    }
    Ok(led)
}

/// Whether a cell is the first one of a chain.
pub fn is_head(led: &CellSet, at: &CellAt, link: &CellLink) -> bool
    ensures { IsTrue result ↔ IsHead led.now at.now link.now }
{
    match link.kind {
        CellKind::Primary => true,
        CellKind::Quota => !led.has(at),
        CellKind::Chain | CellKind::Volume => false,
    }
}
