//! A cell in use: its head and its records.
ghost use Rattle.std.specs.Prelude.{◌≡◌, IfOk, IfSome, IfNone};
ghost use Rattle.metadata_cells.specs.Cell.{Cell, record_of};
ghost use Rattle.metadata_cells.specs.Chain.{StandsAt};

use crate::chain::read_at;
use crate::head::CellHead;
use crate::list::RecordList;
use crate::reading::{bytes_of, head_of};
use crate::records::first_record;
use cell_records::Record;
use page_store::{CellAt, MetaPages, OutOfMemory};
use std::alloc::Global;

/// The head and the records of a cell in use.
#[derive(Drop)]
pub struct UsedCell {
    pub head: CellHead,
    pub records: RecordList,
}

/// The cell in use that stands there. Returns None if and only if none stands there: the page is
/// not there or is no page of cells, or the cell is free or not well formed.
pub fn read_used<M: MetaPages>(
    alloc: Global,
    pages: &M,
    at: CellAt,
) -> Result<Option<UsedCell>, OutOfMemory>
    ensures some { IfOk result (λ found. IfSome found (λ used. StandsAt (M.pages pages.now) at
        (record { head = used.head; records = used.records }))) }
    ensures none { IfOk result (λ found. IfNone found ((cell : Cell)
        → ¬ StandsAt (M.pages pages.now) at cell)) }
{
    let mut records = Vec::new(alloc);
    match read_at(pages, &at, &mut records)? {
        Some(head) => Ok(Some(UsedCell {
            head,
            records: RecordList::from_vec(records),
        })),
        None => Ok(None),
    }
}

/// The first record of a kind in the cell in use that stands there. Takes no memory.
pub fn find_record<M: MetaPages>(pages: &M, at: CellAt, kind: u8) -> Option<Record>
    ensures { (cell : Cell) → StandsAt (M.pages pages.now) at cell
        → result ≡ record_of kind cell.records }
{
    let cell = bytes_of(pages, &at)?;
    let (_, size) = head_of(cell)?;
    first_record(&cell[20..20 + size], kind)
}
