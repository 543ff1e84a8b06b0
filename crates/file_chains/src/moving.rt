//! A page of a file moved to another home, with one more cell if the record that has it is full.
ghost use Rattle.std.specs.Prelude.{◌≡◌, ◌∷◌, ◌+◌, ◌≤◌, [], Contains, IfErr, IfOk, IsSome, List, OnErr, OnOk, Some};
ghost use Rattle.free_cells.specs.page_store.declared.fault.StoreFault.TheVariants.{NoPage};
ghost use Rattle.free_cells.specs.cell_records.Records.{kind_of};
ghost use Rattle.free_cells.specs.metadata_cells.Chain.{PlacedCell};
ghost use Rattle.extent_records.specs.extent_maps.declared.run.PagePlace.TheVariants.{At};
ghost use Rattle.extent_records.specs.extent_maps.Runs.{home_at};
ghost use Rattle.extent_records.specs.Writing.{IsMapRecord, places_in};
ghost use Rattle.free_cells.specs.Cells.{table_of};
ghost use Rattle.file_chains.specs.Allocated.{AreAllocated, FindsNone};
ghost use Rattle.file_chains.specs.Changes.{with_kind};
ghost use Rattle.file_chains.specs.FileChanges.{AreOnTables, LeavesOtherCells};
ghost use Rattle.file_chains.specs.Files.{HasFile, IsFile, places_of};
ghost use Rattle.file_chains.specs.MapChanges.{ChangesOnTables, HasMapIs, HolderIsFull, LeavesOffTables, TakesOne};
ghost use Rattle.file_chains.specs.Moving.{HaveParts, PartsCell, TakesIfHolderFull};

use crate::adding::{link_behind, one_record};
use crate::changing::put_among;
use crate::maps::read_maps;
use crate::switching::{holder, switch_in_records};
use crate::taking::take_cell;
use extent_records::{Parts, switch_in_parts};
use free_cells::{
    CellAt, FreeCells, FreeSpace, Home, MetaPages, OutOfMemory, Record, RecordList, StoreFault,
    Version, VolIx, read_used,
};
use std::alloc::Global;

/// The records of a cell whose record of extents is parted, and those of the cell that has its
/// second part.
#[derive(Drop)]
struct Halves {
    front: RecordList,
    tail: RecordList,
}

/// The records with the first part in its place, and the second part alone.
fn with_parts(alloc: Global, records: &[Record], parts: &Parts) -> Result<Halves, OutOfMemory>
    ensures front { IfOk result (λ halves. halves.front
        ≡ with_kind (kind_of parts.now.front) (Some parts.now.front) records.now) }
    ensures tail { IfOk result (λ halves. halves.tail ≡ parts.now.tail ∷ []) }
{
    let front = put_among(alloc, records, &parts.front)?;
    let tail = one_record(alloc, &parts.tail)?;
    Ok(Halves { front, tail })
}

/// The records of a cell and of one after it, with a page of the first one's record at another
/// home.
fn part_records(
    alloc: Global,
    records: &[Record],
    value: &Record,
    page: u32,
    home: &Home,
    version: Version,
) -> Result<Halves, OutOfMemory>
    requires is_map { IsMapRecord value.now }
    requires there { IsSome (home_at (places_in value.now page)) }
    ensures { IfOk result (λ halves. HaveParts value.now page (At home.now) version records.now
        halves.front halves.tail) }
{
    let parts = switch_in_parts(alloc, value, page, *home, version)?;
    with_parts(alloc, records, &parts)
}

/// Moves a page of a cell's record to another home, if that record has no room for the
/// changed map: the second half of its rows goes to a chain cell that is taken for it and linked
/// right after this one. Memory is taken before the cell is.
fn part_cell<M: MetaPages>(
    alloc: Global,
    pages: &mut M,
    space: &mut FreeSpace,
    cells: &mut FreeCells,
    at: &CellAt,
    value: &Record,
    page: u32,
    home: &Home,
    version: Version,
    prefer: VolIx,
) -> Result<(), StoreFault>
    requires allocated { AreAllocated space.old cells.old (M.pages pages.old) }
    requires map { HasMapIs (M.pages pages.old) at.now value.now }
    requires table { Contains (table_of cells.old at.now.vol) at.now.page }
    requires there { IsSome (home_at (places_in value.now page)) }
    ensures ok { OnOk result (PartsCell at.now value.now page (At home.now) version prefer
        space.old space.new cells.old cells.new (M.pages pages.old) (M.pages pages.new)) }
    ensures err { IfErr result (FindsNone space.old space.new cells.old) }
    ensures cells { OnErr result (cells.new ≡ cells.old) }
    ensures pages { OnErr result (M.pages pages.new ≡ M.pages pages.old) }
    ensures elsewhere { LeavesOffTables cells.new (M.pages pages.old) (M.pages pages.new) }
    ensures allocated { AreAllocated space.new cells.new (M.pages pages.new) }
    ensures room { M.room pages.old ≤ M.room pages.new + 1 }
    ensures before { M.before pages.new ≡ M.before pages.old }
{
    let Some(cell) = read_used(alloc, pages, *at)? else {
        return Ok(());
    };
    let halves = part_records(alloc, cell.records.as_slice(), value, page, home, version)?;
    let behind = take_cell(alloc, pages, space, cells, prefer)?;
    link_behind(pages, at, &cell.head, &halves.front, &behind, &halves.tail);
    Ok(())
}

/// Moves a page of a file that has a home to another one, if the record that has it has no room for
/// the changed map.
fn switch_in_new_cell<M: MetaPages>(
    alloc: Global,
    pages: &mut M,
    space: &mut FreeSpace,
    cells: &mut FreeCells,
    start: &CellAt,
    page: u32,
    home: &Home,
    version: Version,
    prefer: VolIx,
) -> Result<(), StoreFault>
    requires allocated { AreAllocated space.old cells.old (M.pages pages.old) }
    requires file { HasFile (M.pages pages.old) start.now }
    requires tables { (chain : List PlacedCell) → IsFile (M.pages pages.old) start.now chain
        → AreOnTables cells.old chain }
    requires there { (chain : List PlacedCell) → IsFile (M.pages pages.old) start.now chain
        → IsSome (home_at (places_of chain page)) }
    ensures ok { (chain : List PlacedCell) → IsFile (M.pages pages.old) start.now chain
        → OnOk result (ChangesOnTables start.now page (At home.now) chain version
        cells.old cells.new (M.pages pages.old) (M.pages pages.new)) }
    ensures taken { OnOk result (TakesOne prefer space.old space.new cells.old cells.new
        (M.pages pages.old)) }
    ensures err { IfErr result (FindsNone space.old space.new cells.old) }
    ensures cells { OnErr result (cells.new ≡ cells.old) }
    ensures pages { OnErr result (M.pages pages.new ≡ M.pages pages.old) }
    ensures others { (chain : List PlacedCell) → IsFile (M.pages pages.old) start.now chain
        → LeavesOtherCells cells.old chain (M.pages pages.old) (M.pages pages.new) }
    ensures elsewhere { LeavesOffTables cells.new (M.pages pages.old) (M.pages pages.new) }
    ensures allocated { AreAllocated space.new cells.new (M.pages pages.new) }
    ensures room { M.room pages.old ≤ M.room pages.new + 1 }
    ensures before { M.before pages.new ≡ M.before pages.old }
{
    let maps = read_maps(alloc, pages, *start)?;
    let Some(i) = holder(maps.records.as_slice(), page) else {
        return Ok(());
    };
    part_cell(
        alloc,
        pages,
        space,
        cells,
        &maps.places[i],
        &maps.records[i],
        page,
        home,
        version,
        prefer,
    )
}

/// Moves a page of a file that has a home to another one, in the record that has it. If that record
/// has no room for the changed map, since a page in the middle of a row leaves more rows, the
/// second half of its rows goes to a new chain cell, of the preferred volume if that has one,
/// linked right after, with a record as that version writes it. The file is the one whose chain
/// begins at that cell. Every cell in use outside its chain stays, and so does every page that
/// stands on no volume's table. NoPage is returned only if the record has no room, no cell is free,
/// and there is no page that would hold more cells. That is a miss. After an error nothing but room
/// and the count of misses has changed.
pub fn switch_page<M: MetaPages>(
    alloc: Global,
    pages: &mut M,
    space: &mut FreeSpace,
    cells: &mut FreeCells,
    start: CellAt,
    page: u32,
    home: Home,
    version: Version,
    prefer: VolIx,
) -> Result<(), StoreFault>
    requires allocated { AreAllocated space.old cells.old (M.pages pages.old) }
    requires file { HasFile (M.pages pages.old) start }
    requires tables { (chain : List PlacedCell) → IsFile (M.pages pages.old) start chain
        → AreOnTables cells.old chain }
    requires there { (chain : List PlacedCell) → IsFile (M.pages pages.old) start chain
        → IsSome (home_at (places_of chain page)) }
    ensures ok { (chain : List PlacedCell) → IsFile (M.pages pages.old) start chain
        → OnOk result (ChangesOnTables start page (At home) chain version cells.old
        cells.new (M.pages pages.old) (M.pages pages.new)) }
    ensures taken { (chain : List PlacedCell) → IsFile (M.pages pages.old) start chain
        → OnOk result (TakesIfHolderFull page (At home) chain prefer space.old space.new cells.old
        cells.new (M.pages pages.old)) }
    ensures err { IfErr result (FindsNone space.old space.new cells.old) }
    ensures full { (chain : List PlacedCell) → IsFile (M.pages pages.old) start chain
        → IfErr result (λ fault. fault ≡ NoPage → HolderIsFull page (At home) chain) }
    ensures cells { OnErr result (cells.new ≡ cells.old) }
    ensures pages { OnErr result (M.pages pages.new ≡ M.pages pages.old) }
    ensures others { (chain : List PlacedCell) → IsFile (M.pages pages.old) start chain
        → LeavesOtherCells cells.old chain (M.pages pages.old) (M.pages pages.new) }
    ensures elsewhere { LeavesOffTables cells.new (M.pages pages.old) (M.pages pages.new) }
    ensures allocated { AreAllocated space.new cells.new (M.pages pages.new) }
    ensures room { M.room pages.old ≤ M.room pages.new + 1 }
    ensures before { M.before pages.new ≡ M.before pages.old }
{
    if switch_in_records(alloc, pages, start, page, home)? {
        return Ok(());
    }
    switch_in_new_cell(
        alloc, pages, space, cells, &start, page, &home, version, prefer,
    )
}
