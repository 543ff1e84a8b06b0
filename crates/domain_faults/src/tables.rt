//! Rules of cells, and of tags and what they name.
ghost use Rattle.std.specs.Prelude.{IfOk};
ghost use Rattle.slot_files.specs.domain_layout.Faults.{IsTablesFault, SaysTable};
ghost use Rattle.slot_files.specs.page_ways.Frame.{frame_in};
ghost use Rattle.domain_faults.specs.Rows.{AreRowsOf, rows_there};

use crate::rows::{FaultRow, Rule, push_rows};
use slot_files::{DomainFrame, FilesetTable, MetaPages, OutOfMemory, cells_faults, tags_faults};
use std::alloc::Global;

/// The faults of cells and of tags, if the page of the fileset table says this table.
pub(crate) fn tables_rows<M: MetaPages>(
    alloc: Global,
    pages: &M,
    frame: &DomainFrame,
    table: &FilesetTable,
) -> Result<Vec<FaultRow>, OutOfMemory>
    requires { SaysTable (M.pages pages.now) (frame_in frame.now) table.now }
    ensures { IfOk result (λ rows. AreRowsOf (IsTablesFault (M.pages pages.now)
        (frame_in frame.now)) (rows_there rows.items)) }
{
    let cells = cells_faults(alloc, pages, frame, table)?;
    let tags = tags_faults(alloc, pages, frame, table)?;
    let mut rows = Vec::new(alloc);
    push_rows(Rule::Cells, &cells, &mut rows)?;
    push_rows(Rule::Tags, &tags, &mut rows)?;
    Ok(rows)
}
