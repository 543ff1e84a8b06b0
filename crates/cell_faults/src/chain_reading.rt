//! What is read of each cell of the pages of cells.
ghost use Rattle.std.specs.Prelude.{◌≡◌, ◌<◌, IfNone, IfOk, IfSome, OnOk, length};
ghost use Rattle.page_ways.specs.domain_layout.CellRules.{next_in};
ghost use Rattle.page_ways.specs.cell_records.Fields.{number_at};
ghost use Rattle.page_ways.specs.metadata_cells.Cell.{kind_number};
ghost use Rattle.page_ways.specs.metadata_cells.declared.head.CellKind.{CellKind};
ghost use Rattle.page_ways.specs.Frame.{frame_in};
ghost use Rattle.cell_faults.specs.Tables.{AreTables};
ghost use Rattle.cell_chains.specs.declared.links.CellLink.{CellLink};
ghost use Rattle.cell_faults.specs.Links.{AgreeOnPage, AreLinks, AreLinksOn, SaysLink};

use crate::{CellTables, bytes_of};
use cell_chains::{CellLink, CellLinks};
use page_ways::{
    CellAt, DomainFrame, Home, MetaPages, OutOfMemory, Page, VolIx, kind_of, u8_at, u16_at, u32_at,
};
use std::alloc::Global;

/// The cell that a cell leads to; None if its address is not well formed.
fn next_of(bytes: &[u8]) -> Option<CellAt>
    requires { length bytes.now ≡ 292 }
    ensures { result ≡ next_in bytes.now }
{
    let cell = u8_at(bytes, 3);
    let vol = VolIx::new(u32::from(u8_at(bytes, 2)))?;
    if u16_at(bytes, 0) == 0 && cell <= 27 {
        Some(CellAt {
            vol,
            page: u32_at(bytes, 4),
            cell,
        })
    } else {
        None
    }
}

/// What is read of a cell, if it is in use, whatever else stands in it.
fn link_of(bytes: &[u8]) -> Option<CellLink>
    requires { length bytes.now ≡ 292 }
    ensures some { IfSome result (SaysLink bytes.now) }
    ensures none { IfNone result ((link : CellLink) → ¬ SaysLink bytes.now link) }
{
    let kind = kind_of(u8_at(bytes, 15))?;
    Some(CellLink {
        kind,
        next: next_of(bytes),
    })
}

/// Records for the cells of a page what is read of them.
fn insert_links(page: &Page, home: &Home, links: &mut CellLinks) -> Result<(), OutOfMemory>
    requires { AgreeOnPage links.old page.now home.now }
    ensures { OnOk result (AreLinksOn links.old links.new page.now home.now 28) }
{
    for cell in 0..28_u8 {
        if let Some(link) = link_of(bytes_of(page, cell)) {
            let at = CellAt {
                vol: home.vol,
                page: home.page,
                cell,
            };
            links.insert(&at, &link)?;
        }
    }
    Ok(())
}

/// What is read of each cell in use on the pages of cells.
pub fn read_links<M: MetaPages>(
    alloc: Global,
    pages: &M,
    frame: &DomainFrame,
    tables: &CellTables,
) -> Result<CellLinks, OutOfMemory>
    requires { AreTables (M.pages pages.now) (frame_in frame.now) tables.now.read.items
        tables.now.unread.items }
    ensures { IfOk result (AreLinks (M.pages pages.now) (frame_in frame.now)) }
{
    let mut links = CellLinks::new(alloc);
    for page in &tables.read {
        let Some(bytes) = pages.get(page.home) else {
            unreachable!()
        };
        insert_links(bytes, &page.home, &mut links)?;
    }
    Ok(links)
}
