//! What is read of a domain besides its pages.
ghost use Rattle.std.specs.Prelude.{IfErr, IfOk};
ghost use Rattle.no_faults.specs.cell_faults.Links.{AreLinks};
ghost use Rattle.no_faults.specs.page_ways.Frame.{frame_in};
ghost use Rattle.attached_domain.specs.Causes.{IsUnfit, MayBeRead};
ghost use Rattle.attached_domain.specs.Parts.{AreParts};

use crate::books::set_books;
use crate::fits::look_at_all;
use crate::read_slots;
use crate::unfit::Unfit;
use no_faults::from_filesets_reading::read_tables;
use no_faults::{
    CellLinks, DomainFrame, FilesetTable, MetaPages, OutOfMemory, SlotFiles, read_links,
    read_tables as read_cell_tables,
};
use std::alloc::Global;

/// What is read of a domain besides its pages: the fileset table, what each cell in use leads to,
/// and what is in the slots.
#[derive(Drop)]
pub(crate) struct DomainParts {
    pub(crate) table: FilesetTable,
    pub(crate) links: CellLinks,
    pub(crate) slots: Vec<Option<SlotFiles>>,
}

/// What each cell in use leads to.
fn read_all_links<M: MetaPages>(
    alloc: Global,
    pages: &M,
    frame: &DomainFrame,
) -> Result<CellLinks, OutOfMemory>
    ensures { IfOk result (AreLinks (M.pages pages.now) (frame_in frame.now)) }
{
    let cells = read_cell_tables(alloc, pages, frame)?;
    read_links(alloc, pages, frame, &cells)
}

/// What is read of a domain besides its pages, if it passes the checks that no rule makes.
pub(crate) fn read_parts<M: MetaPages>(
    alloc: Global,
    pages: &M,
    frame: &DomainFrame,
) -> Result<DomainParts, Unfit>
    requires { MayBeRead (M.pages pages.now) (frame_in frame.now) }
    ensures parts { IfOk result (AreParts (M.pages pages.now) (frame_in frame.now)) }
    ensures cause { IfErr result (IsUnfit (M.pages pages.now) (frame_in frame.now)) }
{
    let tables = read_tables(alloc, pages, &frame.anchor, frame.version)?;
    let links = read_all_links(alloc, pages, frame)?;
    look_at_all(alloc, pages, frame, &tables, &links)?;
    let mut slots = read_slots(alloc, pages, frame, &tables.filesets)?;
    set_books(alloc, pages, frame, &tables, &mut slots)?;
    Ok(DomainParts {
        table: tables.filesets,
        links,
        slots,
    })
}
