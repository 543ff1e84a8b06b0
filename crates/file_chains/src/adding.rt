//! One more cell for a file, after its first one.
ghost use Rattle.std.specs.Prelude.{◌≡◌, ◌∷◌, ◌+◌, ◌<◌, ◌≤◌, ◌||◌, ℕ, [], IfErr, IfOk, IfSome, List, OnErr, OnOk, Some, false, length};
ghost use Rattle.free_cells.specs.domain_base.declared.place.Home.{Home as HomeOf};
ghost use Rattle.free_cells.specs.page_store.Pages.{same_home};
ghost use Rattle.free_cells.specs.cell_records.Records.{kind_of};
ghost use Rattle.free_cells.specs.metadata_cells.declared.head.CellKind.TheVariants.{Chain};
ghost use Rattle.free_cells.specs.metadata_cells.Cell.{AreRecords, spellings};
ghost use Rattle.free_cells.specs.metadata_cells.CellPage.{HasPlace, KeepsHeaders, KeepsWellFormed, home_of as home_there};
ghost use Rattle.free_cells.specs.metadata_cells.Chain.{LeavesOthers, PlacedCell, StandsAt, is_at};
ghost use Rattle.extent_records.specs.extent_maps.declared.run.PagePlace.TheVariants.{Absent, At};
ghost use Rattle.extent_records.specs.extent_maps.Runs.{with_place};
ghost use Rattle.extent_records.specs.Writing.{IsMapRecord, chain_kind, places_in};
ghost use Rattle.file_chains.specs.Allocated.{AreAllocated, FindsNone};
ghost use Rattle.file_chains.specs.Changes.{IsInUse};
ghost use Rattle.file_chains.specs.FileChanges.{AreOnTables, LeavesOtherCells};
ghost use Rattle.file_chains.specs.Files.{HasFile, IsFile, places_of};
ghost use Rattle.file_chains.specs.MapChanges.{ChangesAtMost, ChangesOnTables, LeavesOffTables, TakesOne};

use crate::taking::take_cell;
use extent_records::{empty_extents, put_page};
use free_cells::limits::{FILE_PAGES, MAX_VOLUMES};
use free_cells::{
    CellAt, CellHead, CellKind, FreeCells, FreeSpace, Home, MetaPages, OutOfMemory, Record,
    RecordList, StoreFault, Version, VolIx, read_used, write_cell,
};
use std::alloc::Global;

/// A record of a chain's cell that says one page, as that version writes it.
fn one_page(alloc: Global, version: Version, page: u32, home: &Home) -> Result<Record, OutOfMemory>
    requires { page < FILE_PAGES }
    ensures is_map { IfOk result IsMapRecord }
    ensures kind { IfOk result (λ r. kind_of r ≡ chain_kind version) }
    ensures places { IfOk result (λ r. (p : ℕ) → places_in r p
        ≡ with_place page (At home.now) (λ _. Absent) p) }
{
    prove!(home.vol.number() <= MAX_VOLUMES);
    prove!(home.page <= u32::MAX);
    let mut value = empty_extents(version);
    put_page(alloc, &mut value, page, *home)?;
    Ok(value)
}

/// A list of only one record.
pub(crate) fn one_record(alloc: Global, value: &Record) -> Result<RecordList, OutOfMemory>
    ensures { IfOk result (λ records. records ≡ value.now ∷ []) }
{
    let mut records = Vec::new(alloc);
    records.push(*value)?;
    Ok(RecordList::from_vec(records))
}

/// Writes a cell in use with these records, and links a chain cell with others right after it.
pub(crate) fn link_behind<M: MetaPages>(
    pages: &mut M,
    start: &CellAt,
    head: &CellHead,
    records: &RecordList,
    at: &CellAt,
    others: &RecordList,
)
    requires in_use { IsInUse (M.pages pages.old) start.now }
    requires next { IfSome head.now.next (λ at. at.cell < 28) }
    requires place { HasPlace (M.pages pages.old) at.now }
    requires apart { is_at at.now start.now ≡ false }
    requires good { AreRecords records.now }
    requires fits { length (spellings records.now) ≤ 272 }
    requires others_good { AreRecords others.now }
    requires others_fit { length (spellings others.now) ≤ 272 }
    ensures first { StandsAt (M.pages pages.new) start.now (record {
      head = record head.now { next = Some at.now };
      records = records.now;
    }) }
    ensures behind { StandsAt (M.pages pages.new) at.now (record {
      head = record head.now { kind = Chain };
      records = others.now;
    }) }
    ensures others { LeavesOthers (λ q. is_at at.now q || is_at start.now q)
        (M.pages pages.old) (M.pages pages.new) }
    ensures well_formed { KeepsWellFormed (M.pages pages.old) (M.pages pages.new) }
    ensures headers { KeepsHeaders (M.pages pages.old) (M.pages pages.new) }
    ensures elsewhere { (h : HomeOf) → same_home h (home_there at.now) ≡ false
        → same_home h (home_there start.now) ≡ false → M.pages pages.new h ≡ M.pages pages.old h }
    ensures room { M.room pages.new ≡ M.room pages.old }
    ensures before { M.before pages.new ≡ M.before pages.old }
{
    let behind = CellHead {
        kind: CellKind::Chain,
        ..*head
    };
    let front = CellHead {
        next: Some(*at),
        ..*head
    };
    write_cell(pages, *at, &behind, others);
    write_cell(pages, *start, &front, records);
}

/// Puts a page that a file does not have at a home, in a chain cell that is taken for it and linked
/// right after the file's first cell. Memory is taken before the cell is.
pub(crate) fn put_in_new_cell<M: MetaPages>(
    alloc: Global,
    pages: &mut M,
    space: &mut FreeSpace,
    cells: &mut FreeCells,
    start: &CellAt,
    page: u32,
    home: &Home,
    version: Version,
    prefer: VolIx,
) -> Result<(), StoreFault>
    requires allocated { AreAllocated space.old cells.old (M.pages pages.old) }
    requires file { HasFile (M.pages pages.old) start.now }
    requires tables { (chain : List PlacedCell) → IsFile (M.pages pages.old) start.now chain
        → AreOnTables cells.old chain }
    requires absent { (chain : List PlacedCell) → IsFile (M.pages pages.old) start.now chain
        → places_of chain page ≡ Absent }
    requires small { page < FILE_PAGES }
    ensures ok { (chain : List PlacedCell) → IsFile (M.pages pages.old) start.now chain
        → OnOk result (ChangesOnTables start.now page (At home.now) chain version
        cells.old cells.new (M.pages pages.old) (M.pages pages.new)) }
    ensures taken { OnOk result (TakesOne prefer space.old space.new cells.old cells.new
        (M.pages pages.old)) }
    ensures err { IfErr result (FindsNone space.old space.new cells.old) }
    ensures cells { OnErr result (cells.new ≡ cells.old) }
    ensures pages { OnErr result (M.pages pages.new ≡ M.pages pages.old) }
    ensures others { (chain : List PlacedCell) → IsFile (M.pages pages.old) start.now chain
        → LeavesOtherCells cells.old chain (M.pages pages.old) (M.pages pages.new) }
    ensures elsewhere { LeavesOffTables cells.new (M.pages pages.old) (M.pages pages.new) }
    ensures few { OnOk result (ChangesAtMost 3 (M.pages pages.old) (M.pages pages.new)) }
    ensures allocated { AreAllocated space.new cells.new (M.pages pages.new) }
    ensures room { M.room pages.old ≤ M.room pages.new + 1 }
    ensures before { M.before pages.new ≡ M.before pages.old }
{
    let Some(first) = read_used(alloc, pages, *start)? else {
        return Ok(());
    };
    let value = one_page(alloc, version, page, home)?;
    let records = one_record(alloc, &value)?;
    let at = take_cell(alloc, pages, space, cells, prefer)?;
    link_behind(pages, start, &first.head, &first.records, &at, &records);
    Ok(())
}
