//! The cells of a file's chain, one after the other.
ghost use Rattle.std.specs.Prelude.{◌≡◌, List, Some};
ghost use Rattle.free_cells.specs.cell_records.declared.record.Record.{Record as RecordOf};
ghost use Rattle.free_cells.specs.metadata_cells.Cell.{Cell};
ghost use Rattle.free_cells.specs.metadata_cells.Chain.{PlacedCell, StandsAt};
ghost use Rattle.extent_records.specs.Writing.{places_in};
ghost use Rattle.file_chains.specs.Files.{HasFile, HasMap, HasMapAt, IsFile, IsNumbered, places_of};

use extent_records::{PagePlace, place_in};
use free_cells::limits::MAX_VOLUMES;
use free_cells::{CellAt, MetaPages, Record, find_record, read_head};

/// More cells than there are: of 8 volumes, each of 2^32 pages of 256 cells.
pub const CELLS: u64 = 1 << 44;

/// The kinds of records that say where pages stand.
const MAP_KINDS: [u8; 5] = [3, 4, 5, 13, 14];

/// The cell that follows the cell in use that stands there.
pub fn next_cell<M: MetaPages>(pages: &M, at: &CellAt) -> Option<CellAt>
    ensures next { (cell : Cell) → StandsAt (M.pages pages.now) at.now cell
        → result ≡ cell.head.next }
    ensures widths { IsNumbered at.now }
{
    prove!(at.vol.number() <= MAX_VOLUMES);
    prove!(at.page <= u32::MAX);
    prove!(at.cell <= u8::MAX);
    read_head(pages, *at)?.next
}

/// The record of a cell in use that says where pages stand.
pub fn map_record<M: MetaPages>(pages: &M, at: &CellAt) -> Option<Record>
    ensures { (cell : Cell) (value : RecordOf) → StandsAt (M.pages pages.now) at.now cell
        → HasMap cell value → result ≡ Some value }
{
    for kind in MAP_KINDS {
        let found = find_record(pages, *at, kind);
        if found.is_some() {
            return found;
        }
    }
    None
}

/// The place of a page as a cell of a file says it.
fn place_at<M: MetaPages>(pages: &M, at: &CellAt, page: u32) -> PagePlace
    requires { HasMapAt (M.pages pages.now) at.now }
    ensures { (cell : Cell) (value : RecordOf) → StandsAt (M.pages pages.now) at.now cell
        → HasMap cell value → result ≡ places_in value page }
{
    match map_record(pages, at) {
        Some(value) => place_in(&value, page),
        None => PagePlace::Absent,
    }
}

/// The place of a page of the file whose chain begins at that cell. Takes no memory.
pub fn find_place<M: MetaPages>(pages: &M, start: CellAt, page: u32) -> PagePlace
    requires { HasFile (M.pages pages.now) start }
    ensures { (cells : List PlacedCell) → IsFile (M.pages pages.now) start cells
        → result ≡ places_of cells page }
{
    let mut next = Some(start);
    for _ in 0..CELLS {
        let Some(at) = next else {
            return PagePlace::Absent;
        };
        match place_at(pages, &at, page) {
            PagePlace::Absent => next = next_cell(pages, &at),
            place => return place,
        }
    }
    PagePlace::Absent
}
