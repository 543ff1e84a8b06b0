//! Putting pages into the records of a file that say where its pages stand.
ghost use Rattle.std.specs.Prelude.{◌≡◌, ◌<◌, IfOk, List, OnErr, OnOk, false, true};
ghost use Rattle.free_cells.specs.domain_base.declared.place.Home.{Home as HomeOf};
ghost use Rattle.free_cells.specs.page_store.Pages.{same_home};
ghost use Rattle.free_cells.specs.metadata_cells.CellPage.{KeepsHeaders, KeepsWellFormed, home_of as home_there};
ghost use Rattle.free_cells.specs.metadata_cells.Chain.{LeavesOthers, PlacedCell, is_at};
ghost use Rattle.extent_records.specs.extent_maps.declared.run.PagePlace.TheVariants.{Absent, At};
ghost use Rattle.extent_records.specs.Chains.{Takes};
ghost use Rattle.extent_records.specs.Writing.{places_in};
ghost use Rattle.file_chains.specs.Files.{HasFile, IsFile, places_of};
ghost use Rattle.file_chains.specs.MapChanges.{ChangesAtMost, ChangesInPlace, ChangesMap, HasMapIs, LeavesApart, LeavesPages, NoneTakes};

use crate::changing::set_record;
use crate::maps::read_maps;
use extent_records::record_for;
use free_cells::limits::FILE_PAGES;
use free_cells::{CellAt, Home, MetaPages, OutOfMemory, Record};
use std::alloc::Global;

/// Puts a page at a home in the record of a cell, which has room for it.
fn put_at<M: MetaPages>(
    alloc: Global,
    pages: &mut M,
    at: &CellAt,
    value: &Record,
    page: u32,
    home: &Home,
) -> Result<(), OutOfMemory>
    requires map { HasMapIs (M.pages pages.old) at.now value.now }
    requires takes { Takes page (At home.now) value.now }
    requires absent { places_in value.now page ≡ Absent }
    requires small { page < FILE_PAGES }
    ensures ok { OnOk result (ChangesMap at.now value.now page (At home.now)
        (M.pages pages.old) (M.pages pages.new)) }
    ensures err { OnErr result (M.pages pages.new ≡ M.pages pages.old) }
    ensures others { LeavesOthers (is_at at.now) (M.pages pages.old) (M.pages pages.new) }
    ensures well_formed { KeepsWellFormed (M.pages pages.old) (M.pages pages.new) }
    ensures headers { KeepsHeaders (M.pages pages.old) (M.pages pages.new) }
    ensures elsewhere { (h : HomeOf) → same_home h (home_there at.now) ≡ false
        → M.pages pages.new h ≡ M.pages pages.old h }
    ensures room { M.room pages.new ≡ M.room pages.old }
    ensures before { M.before pages.new ≡ M.before pages.old }
{
    let mut after = *value;
    extent_records::put_page(alloc, &mut after, page, *home)?;
    set_record(alloc, pages, *at, &after)
}

/// Puts a page that a file does not have at a home, in the record that takes it: the first in which
/// it joins a row, else the first that has room. Returns false if and only if no record of the file
/// has room for it. Then, and after an error, nothing has changed. The file is the one whose chain
/// begins at that cell, and all cells outside the chain stay.
pub fn put_in_records<M: MetaPages>(
    alloc: Global,
    pages: &mut M,
    start: CellAt,
    page: u32,
    home: Home,
) -> Result<bool, OutOfMemory>
    requires file { HasFile (M.pages pages.old) start }
    requires absent { (chain : List PlacedCell) → IsFile (M.pages pages.old) start chain
        → places_of chain page ≡ Absent }
    requires small { page < FILE_PAGES }
    ensures put { (chain : List PlacedCell) → IsFile (M.pages pages.old) start chain
        → IfOk result (λ put. put ≡ true
        → ChangesInPlace start page (At home) chain (M.pages pages.new)) }
    ensures full { (chain : List PlacedCell) → IsFile (M.pages pages.old) start chain
        → IfOk result (λ put. put ≡ false → NoneTakes page (At home) chain) }
    ensures kept { IfOk result (λ put. put ≡ false → M.pages pages.new ≡ M.pages pages.old) }
    ensures err { OnErr result (M.pages pages.new ≡ M.pages pages.old) }
    ensures others { (chain : List PlacedCell) → IsFile (M.pages pages.old) start chain
        → LeavesApart chain (M.pages pages.old) (M.pages pages.new) }
    ensures elsewhere { (chain : List PlacedCell) → IsFile (M.pages pages.old) start chain
        → LeavesPages chain (M.pages pages.old) (M.pages pages.new) }
    ensures few { OnOk result (ChangesAtMost 1 (M.pages pages.old) (M.pages pages.new)) }
    ensures well_formed { KeepsWellFormed (M.pages pages.old) (M.pages pages.new) }
    ensures headers { KeepsHeaders (M.pages pages.old) (M.pages pages.new) }
    ensures room { M.room pages.new ≡ M.room pages.old }
    ensures before { M.before pages.new ≡ M.before pages.old }
{
    let maps = read_maps(alloc, pages, start)?;
    let Some(i) = record_for(alloc, maps.records.as_slice(), page, home)? else {
        return Ok(false);
    };
    put_at(alloc, pages, &maps.places[i], &maps.records[i], page, &home)?;
    Ok(true)
}
