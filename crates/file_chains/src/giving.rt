//! A file gets a page at a home.
ghost use Rattle.std.specs.Prelude.{◌≡◌, ◌+◌, ◌<◌, ◌≤◌, IfErr, List, OnErr, OnOk};
ghost use Rattle.free_cells.specs.page_store.declared.fault.StoreFault.TheVariants.{NoPage};
ghost use Rattle.free_cells.specs.metadata_cells.Chain.{PlacedCell};
ghost use Rattle.extent_records.specs.extent_maps.declared.run.PagePlace.TheVariants.{Absent, At};
ghost use Rattle.file_chains.specs.Allocated.{AreAllocated, FindsNone};
ghost use Rattle.file_chains.specs.FileChanges.{AreOnTables, LeavesOtherCells};
ghost use Rattle.file_chains.specs.Files.{HasFile, IsFile, places_of};
ghost use Rattle.file_chains.specs.MapChanges.{ChangesAtMost, ChangesOnTables, LeavesOffTables, NoneTakes, TakesIfFull};

use crate::adding::put_in_new_cell;
use crate::putting::put_in_records;
use free_cells::limits::FILE_PAGES;
use free_cells::{CellAt, FreeCells, FreeSpace, Home, MetaPages, StoreFault, Version, VolIx};
use std::alloc::Global;

/// Puts a page that a file does not have at a home. The page goes into the file's first record in
/// which it joins a row, else into the first that has room. If none has room, it goes into a new
/// chain cell, of the preferred volume if that has one, linked right after the file's first cell,
/// with a record as that version writes it. The file is the one whose chain begins at that cell.
/// Every cell in use outside its chain stays, and so does every page that stands on no volume's
/// table. At most three pages of metadata change: that of the record; or those of the new cell, of
/// the first one, and the last one of the table, if the table gets a page. NoPage is returned only
/// if no record has room, no cell is free, and there is no page that would hold more cells. That is
/// a miss. After an error nothing but room and the count of misses has changed.
pub fn put_page<M: MetaPages>(
    alloc: Global,
    pages: &mut M,
    space: &mut FreeSpace,
    cells: &mut FreeCells,
    start: CellAt,
    page: u32,
    home: Home,
    version: Version,
    prefer: VolIx,
) -> Result<(), StoreFault>
    requires allocated { AreAllocated space.old cells.old (M.pages pages.old) }
    requires file { HasFile (M.pages pages.old) start }
    requires tables { (chain : List PlacedCell) → IsFile (M.pages pages.old) start chain
        → AreOnTables cells.old chain }
    requires absent { (chain : List PlacedCell) → IsFile (M.pages pages.old) start chain
        → places_of chain page ≡ Absent }
    requires small { page < FILE_PAGES }
    ensures ok { (chain : List PlacedCell) → IsFile (M.pages pages.old) start chain
        → OnOk result (ChangesOnTables start page (At home) chain version cells.old
        cells.new (M.pages pages.old) (M.pages pages.new)) }
    ensures taken { (chain : List PlacedCell) → IsFile (M.pages pages.old) start chain
        → OnOk result (TakesIfFull page (At home) chain prefer space.old space.new cells.old
        cells.new (M.pages pages.old)) }
    ensures err { IfErr result (FindsNone space.old space.new cells.old) }
    ensures full { (chain : List PlacedCell) → IsFile (M.pages pages.old) start chain
        → IfErr result (λ fault. fault ≡ NoPage → NoneTakes page (At home) chain) }
    ensures cells { OnErr result (cells.new ≡ cells.old) }
    ensures pages { OnErr result (M.pages pages.new ≡ M.pages pages.old) }
    ensures others { (chain : List PlacedCell) → IsFile (M.pages pages.old) start chain
        → LeavesOtherCells cells.old chain (M.pages pages.old) (M.pages pages.new) }
    ensures elsewhere { LeavesOffTables cells.new (M.pages pages.old) (M.pages pages.new) }
    ensures few { OnOk result (ChangesAtMost 3 (M.pages pages.old) (M.pages pages.new)) }
    ensures allocated { AreAllocated space.new cells.new (M.pages pages.new) }
    ensures room { M.room pages.old ≤ M.room pages.new + 1 }
    ensures before { M.before pages.new ≡ M.before pages.old }
{
    if put_in_records(alloc, pages, start, page, home)? {
        return Ok(());
    }
    put_in_new_cell(
        alloc, pages, space, cells, &start, page, &home, version, prefer,
    )
}
