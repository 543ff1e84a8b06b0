//! The pages of cells of each member.
ghost use Rattle.std.specs.Prelude.{◌≡◌, ◌⊎◌, ◌↔◌, IfOk, OnOk, Some, Contains, slice_get};
ghost use Rattle.page_ways.specs.domain_base.declared.place.Home.{Home};
ghost use Rattle.cell_faults.specs.declared.tables.CellsPage.{CellsPage};
ghost use Rattle.cell_faults.specs.Tables.{AreTables, AreTablesBelow, AreTablesUpTo};
ghost use Rattle.page_ways.specs.Frame.{frame_in};
ghost use Rattle.page_ways.specs.log_ring.Homes.{IsMember};

use page_ways::{
    CellsWay, DomainFrame, Home, MetaPages, OutOfMemory, ReadPages, VolIx, read_pages,
};
use std::alloc::Global;

/// A page of cells that is read: where it stands, and its place in its volume's table, from 0.
#[derive(Clone, Copy, Debug, PartialEq, Eq)]
pub struct CellsPage {
    pub home: Home,
    pub place: usize,
}

/// The pages of cells of a domain's members: by volume, and then in the order of its table.
#[derive(Drop)]
pub struct CellTables {
    pub read: Vec<CellsPage>,
    /// The pages that are reached and cannot be pages of cells.
    pub unread: Vec<Home>,
}

/// Appends the pages of a table to those of others.
fn push_pages(homes: &[Home], read: &mut Vec<CellsPage>) -> Result<(), OutOfMemory>
    ensures { OnOk result ((page : CellsPage) → Contains read.new.items page
        ↔ (Contains read.old.items page ⊎ (slice_get homes.now page.place ≡ Some page.home))) }
{
    for (place, home) in homes.iter().enumerate() {
        read.push(CellsPage { home: *home, place })?;
    }
    Ok(())
}

/// Reads the table of a member, and appends its pages to those of others.
fn read_table<M: MetaPages>(
    alloc: Global,
    pages: &M,
    frame: &DomainFrame,
    vol: VolIx,
    tables: &mut CellTables,
) -> Result<(), OutOfMemory>
    requires member { IsMember frame.now.anchor vol }
    requires below { AreTablesBelow vol (M.pages pages.now) (frame_in frame.now)
        tables.old.read.items tables.old.unread.items }
    ensures { OnOk result (AreTablesUpTo vol (M.pages pages.now) (frame_in frame.now)
        tables.new.read.items tables.new.unread.items) }
{
    let way = CellsWay { frame: *frame, vol };
    let ReadPages { homes, unread } = read_pages(alloc, pages, frame, &way)?;
    push_pages(&homes, &mut tables.read)?;
    if let Some(home) = unread {
        tables.unread.push(home)?;
    }
    Ok(())
}

/// Reads the table of each member.
pub fn read_tables<M: MetaPages>(
    alloc: Global,
    pages: &M,
    frame: &DomainFrame,
) -> Result<CellTables, OutOfMemory>
    ensures { IfOk result (λ tables. AreTables (M.pages pages.now) (frame_in frame.now)
        tables.read.items tables.unread.items) }
{
    let mut tables = CellTables {
        read: Vec::new(alloc),
        unread: Vec::new(alloc),
    };
    for number in 1..9_u32 {
        if let Some(vol) = VolIx::new(number) {
            if frame.is_member(vol) {
                read_table(alloc, pages, frame, vol, &mut tables)?;
            }
        }
    }
    Ok(tables)
}
