//! Whether the cell at a place, by itself, may stand there.
ghost use Rattle.std.specs.Prelude.{◌<◌, ◌↔◌, ℕ, IfOk, IsTrue};
ghost use Rattle.page_ways.specs.domain_layout.CellRules.{IsCellsPage};
ghost use Rattle.page_ways.specs.metadata_cells.CellPage.{home_of};
ghost use Rattle.page_ways.specs.Frame.{frame_in};
ghost use Rattle.cell_faults.specs.Rules.{HasWrongPlace, IsStrayVolume, IsWrongAt, IsWrongUsed, cell_in};
ghost use Rattle.cell_faults.specs.Tables.{IsCellsHome};

use crate::cells::kind_number;
use crate::rules::{is_first_place, records_fit, says_volume};
use page_ways::{
    CellAt, DomainFrame, FilesetTable, Home, MetaPages, OutOfMemory, Page, UsedCell, read_used,
};
use std::alloc::Global;

/// Whether a cell has the kind that says a volume, but does not stand at a volume's first place.
fn is_stray_volume(frame: &DomainFrame, page: &Page, at: &CellAt) -> bool
    requires { at.now.cell < 28 }
    ensures { IsTrue result ↔ IsStrayVolume (frame_in frame.now) page.now at.now }
{
    kind_number(page, at.cell) == 4 && !is_first_place(frame, at)
}

/// Whether a cell in use is a volume's first one and does not say the volume, or does not have the
/// records that it may have.
fn is_wrong_used(frame: &DomainFrame, table: &FilesetTable, at: &CellAt, used: &UsedCell) -> bool
    ensures { IsTrue result ↔ IsWrongUsed (frame_in frame.now) table.now at.now (cell_in used.now) }
{
    (is_first_place(frame, at) && !says_volume(frame, at.vol, used)) || !records_fit(table, used)
}

/// Whether the cell at a place of a page of cells may not stand there: it is a volume's first cell
/// that does not say the volume, another one of that kind, or one without the records that it may
/// have.
fn is_wrong_at<M: MetaPages>(
    alloc: Global,
    pages: &M,
    frame: &DomainFrame,
    table: &FilesetTable,
    page: &Page,
    at: CellAt,
) -> Result<bool, OutOfMemory>
    requires within { at.cell < 28 }
    requires there { (place : ℕ) × IsCellsPage (M.pages pages.now) (frame_in frame.now) place
        (home_of at) page.now }
    ensures { IfOk result (λ wrong. IsTrue wrong
        ↔ IsWrongAt (M.pages pages.now) (frame_in frame.now) table.now at) }
{
    if is_stray_volume(frame, page, &at) {
        return Ok(true);
    }
    Ok(match read_used(alloc, pages, at)? {
        Some(used) => is_wrong_used(frame, table, &at, &used),
        None => is_first_place(frame, &at),
    })
}

/// Whether some cell of a page of cells may, by itself, not stand there.
pub fn has_wrong_place<M: MetaPages>(
    alloc: Global,
    pages: &M,
    frame: &DomainFrame,
    table: &FilesetTable,
    home: &Home,
) -> Result<bool, OutOfMemory>
    requires { IsCellsHome (M.pages pages.now) (frame_in frame.now) home.now }
    ensures { IfOk result (λ wrong. IsTrue wrong
        ↔ HasWrongPlace (M.pages pages.now) (frame_in frame.now) table.now home.now) }
{
    let Some(bytes) = pages.get(*home) else {
        unreachable!()
    };
    for cell in 0..28_u8 {
        let at = CellAt {
            vol: home.vol,
            page: home.page,
            cell,
        };
        if is_wrong_at(alloc, pages, frame, table, bytes, at)? {
            return Ok(true);
        }
    }
    Ok(false)
}
