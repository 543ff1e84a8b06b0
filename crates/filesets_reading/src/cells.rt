//! The table of cells of a volume.
ghost use Rattle.std.specs.Prelude.{◌≡◌, ◌^◌, ◌≤◌, true, IfOk, IsSomeAnd, OnOk};
ghost use Rattle.domain_layout.specs.disk_label.FirstPages.{first_pages};
ghost use Rattle.domain_layout.specs.metadata_cells.CellPage.{is_cell_page, next_of};
ghost use Rattle.domain_layout.specs.log_ring.Homes.{IsMember, member_of as member_there};
ghost use Rattle.domain_layout.specs.Layout.{IsCellTable};
ghost use Rattle.domain_layout.specs.Reached.{first_cells};
ghost use Rattle.filesets_reading.specs.Good.{AreDecided, AreGood, IsDecided, frame_at};

use domain_layout::{
    Anchor, CellAt, FirstPages, Home, MetaPages, OutOfMemory, Version, VolIx, member_of,
    read_page_head, read_used,
};
use std::alloc::Global;

/// The first page of cells of a volume with `pages` pages, a number of four bytes.
fn first_page(version: Version, pages: u32) -> u32
    ensures page { result ≡ (first_pages version pages).cells }
    ensures small { pages ≤ 2 ^ 32 }
{
    FirstPages::of(version, pages).cells
}

/// Looks at a cell, so that it is known whether one in use stands there.
fn look_at_cell<M: MetaPages>(alloc: Global, pages: &M, at: CellAt) -> Result<(), OutOfMemory>
    ensures { OnOk result (IsDecided (M.pages pages.now) at) }
{
    let _found = read_used(alloc, pages, at)?;
    Ok(())
}

/// Looks at each cell of a page, and returns the page that is next in its table, or 0.
fn look_at_page<M: MetaPages>(alloc: Global, pages: &M, home: Home) -> Result<u32, OutOfMemory>
    requires { IsSomeAnd (M.pages pages.now home) (λ page. is_cell_page page ≡ true) }
    ensures decided { OnOk result (AreDecided (M.pages pages.now) home) }
    ensures next { IfOk result (λ next. IsSomeAnd (M.pages pages.now home)
        (λ page. next_of page ≡ next)) }
{
    let vol = home.vol;
    let page = home.page;
    for cell in 0..28_u8 {
        look_at_cell(alloc, pages, CellAt { vol, page, cell })?;
    }
    match read_page_head(pages, home) {
        Some(head) => Ok(head.next),
        None => unreachable!(),
    }
}

/// The pages of a member's table of cells, from its first page on in their order.
pub fn read_cell_table<M: MetaPages>(
    alloc: Global,
    pages: &M,
    anchor: &Anchor,
    version: Version,
    vol: VolIx,
) -> Result<Vec<u32>, OutOfMemory>
    requires good { AreGood (M.pages pages.now) (frame_at anchor.now version) }
    requires member { IsMember anchor.now vol }
    ensures table { IfOk result (λ table. IsCellTable (M.pages pages.now) vol
        (first_cells (frame_at anchor.now version) vol) table.items) }
    ensures small { OnOk result ((member_there anchor.now vol).pages ≤ 2 ^ 32) }
{
    let mut table = Vec::new(alloc);
    let mut page = first_page(version, member_of(anchor, vol).pages);
    for _ in 0..u64::MAX {
        let next = look_at_page(alloc, pages, Home { vol, page })?;
        table.push(page)?;
        if next == 0 {
            return Ok(table);
        }
        page = next;
    }
    Err(OutOfMemory)
}
