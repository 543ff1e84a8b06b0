//! Files that are to be removed.
ghost use Rattle.std.specs.Prelude.{◌≡◌, ◌↔◌, IfOk, IsTrue};
ghost use Rattle.cell_faults.specs.metadata_cells.Cell.{Cell};
ghost use Rattle.cell_faults.specs.metadata_cells.Chain.{StandsAt};
ghost use Rattle.cell_faults.specs.domain_layout.CellRules.{say_removed};
ghost use Rattle.cell_faults.specs.page_ways.Frame.{frame_in};
ghost use Rattle.cell_faults.specs.Links.{AreLinks};
ghost use Rattle.tag_faults.specs.Roots.{IsRemovedAt};

use cell_faults::{
    CellAt, CellLinks, DomainFrame, Leftover, MetaPages, OutOfMemory, Record, find_record,
    read_used,
};
use std::alloc::Global;

/// Whether the first cell that stands at a place says that all of its file is to be removed.
pub(crate) fn is_removed<M: MetaPages>(pages: &M, at: &CellAt) -> bool
    ensures { (cell : Cell) → StandsAt (M.pages pages.now) at.now cell
        → result ≡ say_removed cell.records }
{
    match find_record(pages, *at, 6) {
        Some(Record::Pending { what }) => matches!(what, Leftover::Remove),
        _ => false,
    }
}

/// Whether a cell in use stands at a place of a page of cells, and says that all of its file is to
/// be removed.
pub(crate) fn is_removed_at<M: MetaPages>(
    alloc: Global,
    pages: &M,
    frame: &DomainFrame,
    links: &CellLinks,
    at: &CellAt,
) -> Result<bool, OutOfMemory>
    requires { AreLinks (M.pages pages.now) (frame_in frame.now) links.now }
    ensures { IfOk result (λ removed. IsTrue removed
        ↔ IsRemovedAt (M.pages pages.now) (frame_in frame.now) at.now) }
{
    if !links.has(at) {
        return Ok(false);
    }
    let Some(_used) = read_used(alloc, pages, *at)? else {
        return Ok(false);
    };
    Ok(is_removed(pages, at))
}
