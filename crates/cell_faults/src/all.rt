//! All rules of cells and their chains.
ghost use Rattle.std.specs.Prelude.{◌↔◌, IfOk};
ghost use Rattle.page_ways.specs.domain_base.declared.place.Home.{Home};
ghost use Rattle.page_ways.specs.domain_layout.CellRules.{IsCellsFault};
ghost use Rattle.page_ways.specs.domain_layout.Reached.{Frame};
ghost use Rattle.page_ways.specs.Frame.{frame_in};
ghost use Rattle.page_ways.specs.sorted_sets.Members.{IsIn as IsHomeIn};
ghost use Rattle.cell_faults.specs.Links.{AreLinks};
ghost use Rattle.cell_faults.specs.ChainPages.{IsChainFault};

use crate::chain_reading::read_links;
use crate::holes::holes_faults;
use crate::leads::leads_faults;
use crate::twice::{limits_twice_faults, pages_twice_faults};
use crate::unchained::unchained_faults;
use crate::{local_faults, read_tables};
use cell_chains::CellLinks;
use page_ways::{DomainFrame, FilesetTable, HomeSet, MetaPages, OutOfMemory};
use std::alloc::Global;

/// The pages at which a rule of chains of cells is broken, from what was read of all cells in use.
fn chain_faults<M: MetaPages>(
    alloc: Global,
    pages: &M,
    table: &FilesetTable,
    links: &CellLinks,
) -> Result<HomeSet, OutOfMemory>
    ensures { IfOk result (λ found. (frame : Frame) → AreLinks (M.pages pages.now) frame links.now
        → (home : Home) → IsHomeIn found home
        ↔ IsChainFault (M.pages pages.now) frame table.now home) }
{
    let mut found = leads_faults(alloc, links)?;
    let unchained = unchained_faults(alloc, links)?;
    let again = pages_twice_faults(alloc, pages, links)?;
    let limits = limits_twice_faults(alloc, pages, links)?;
    let holes = holes_faults(alloc, pages, table, links)?;
    found.insert_set(&unchained)?;
    found.insert_set(&again)?;
    found.insert_set(&limits)?;
    found.insert_set(&holes)?;
    Ok(found)
}

/// The pages at which a rule of pages of cells, of cells or of their chains is broken, each once
/// and in order: those with the code 5 in a list of faults, if the page of the fileset table breaks
/// no rule and says this table.
pub fn cells_faults<M: MetaPages>(
    alloc: Global,
    pages: &M,
    frame: &DomainFrame,
    table: &FilesetTable,
) -> Result<HomeSet, OutOfMemory>
    ensures { IfOk result (λ found. (home : Home) → IsHomeIn found home
        ↔ IsCellsFault (M.pages pages.now) (frame_in frame.now) table.now home) }
{
    let tables = read_tables(alloc, pages, frame)?;
    let links = read_links(alloc, pages, frame, &tables)?;
    let mut found = local_faults(alloc, pages, frame, table, &tables)?;
    let chains = chain_faults(alloc, pages, table, &links)?;
    found.insert_set(&chains)?;
    Ok(found)
}
