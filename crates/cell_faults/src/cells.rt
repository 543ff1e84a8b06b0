//! Whether a cell is free or in use.
ghost use Rattle.std.specs.Prelude.{◌≡◌, ◌↔◌, ◌<◌, ◌≤◌, IfOk, IsTrue, length};
ghost use Rattle.std.specs.List.{AllByRecursion};
ghost use Rattle.page_ways.specs.cell_records.Fields.{number_at};
ghost use Rattle.page_ways.specs.cell_records.Records.{kind_of, last_kind};
ghost use Rattle.page_ways.specs.metadata_cells.Cell.{IsFreeCell};
ghost use Rattle.page_ways.specs.metadata_cells.CellPage.{cell_of};
ghost use Rattle.page_ways.specs.domain_layout.CellRules.{HasWrongCell};
ghost use Rattle.page_ways.specs.Frame.{frame_in};
ghost use Rattle.cell_faults.specs.Pages.{HasNoCell};
ghost use Rattle.cell_faults.specs.Tables.{IsCellsHome};

use page_ways::{
    CellAt, DomainFrame, Home, MetaPages, OutOfMemory, Page, RecordList, Version, are_zeros,
    last_kind_of, read_used, u8_at,
};
use std::alloc::Global;

/// The 292 bytes of a cell of a page.
pub fn bytes_of(page: &Page, cell: u8) -> &[u8]
    requires { cell < 28 }
    ensures value { result.now ≡ cell_of page.now cell }
    ensures len { length result.now ≡ 292 }
{
    let start = 16 + 292 * usize::from(cell);
    &page.bytes()[start..start + 292]
}

/// Whether a cell of a page is zeros.
fn is_free(page: &Page, cell: u8) -> bool
    requires { cell < 28 }
    ensures { IsTrue result ↔ IsFreeCell (cell_of page.now cell) }
{
    are_zeros(bytes_of(page, cell))
}

/// The number of a cell's kind.
pub(crate) fn kind_number(page: &Page, cell: u8) -> u8
    requires { cell < 28 }
    ensures { result ≡ number_at 1 15 (cell_of page.now cell) }
{
    u8_at(bytes_of(page, cell), 15)
}

/// Whether a version has all the kinds of the records. Version 3 has no dense extents.
fn are_known(records: &RecordList, version: Version) -> bool
    ensures { IsTrue result ↔ AllByRecursion (λ r. kind_of r ≤ last_kind version) records.now }
{
    let last = last_kind_of(version);
    records
        .as_slice()
        .iter()
        .all(|record| record.kind() <= last)
}

/// Whether no cell that the version knows stands at a place, free or in use.
fn has_no_cell<M: MetaPages>(
    alloc: Global,
    pages: &M,
    version: Version,
    page: &Page,
    at: CellAt,
) -> Result<bool, OutOfMemory>
    requires within { at.cell < 28 }
    ensures { IfOk result (λ wrong. IsTrue wrong
        ↔ HasNoCell (M.pages pages.now) version page.now at) }
{
    if is_free(page, at.cell) {
        return Ok(false);
    }
    Ok(match read_used(alloc, pages, at)? {
        Some(used) => !are_known(&used.records, version),
        None => true,
    })
}

/// Whether some cell of a page of cells is neither free nor a cell in use that the version knows.
pub fn has_wrong_cell<M: MetaPages>(
    alloc: Global,
    pages: &M,
    frame: &DomainFrame,
    home: &Home,
) -> Result<bool, OutOfMemory>
    requires { IsCellsHome (M.pages pages.now) (frame_in frame.now) home.now }
    ensures { IfOk result (λ wrong. IsTrue wrong
        ↔ HasWrongCell (M.pages pages.now) (frame_in frame.now) home.now) }
{
    let Some(bytes) = pages.get(*home) else {
        unreachable!()
    };
    for cell in 0..28_u8 {
        let at = CellAt {
            vol: home.vol,
            page: home.page,
            cell,
        };
        if has_no_cell(alloc, pages, frame.version, bytes, at)? {
            return Ok(true);
        }
    }
    Ok(false)
}
