//! Pages of a file moved to another home, in the records that have them.
ghost use Rattle.std.specs.Prelude.{◌≡◌, IfOk, IsSome, List, OnErr, false, true};
ghost use Rattle.std.specs.List.{AllByRecursion};
ghost use Rattle.free_cells.specs.domain_base.declared.place.Home.{Home as HomeOf};
ghost use Rattle.free_cells.specs.page_store.Pages.{same_home};
ghost use Rattle.free_cells.specs.cell_records.Records.{kind_of};
ghost use Rattle.free_cells.specs.metadata_cells.CellPage.{KeepsHeaders, KeepsWellFormed, home_of as home_there};
ghost use Rattle.free_cells.specs.metadata_cells.Chain.{LeavesOthers, PlacedCell, is_at};
ghost use Rattle.extent_records.specs.extent_maps.declared.run.PagePlace.TheVariants.{At};
ghost use Rattle.extent_records.specs.extent_maps.Runs.{home_at, with_place};
ghost use Rattle.extent_records.specs.Chains.{Finds};
ghost use Rattle.extent_records.specs.Writing.{CanSay, IsMapRecord, places_in};
ghost use Rattle.file_chains.specs.Files.{HasFile, IsFile, places_of};
ghost use Rattle.file_chains.specs.MapChanges.{ChangesInPlace, ChangesMap, HasMapIs, HasPage, HolderIsFull, LeavesApart, LeavesPages};

use crate::changing::set_record;
use crate::maps::read_maps;
use extent_records::{PagePlace, place_in, switch_page};
use free_cells::{CellAt, Home, MetaPages, OutOfMemory, Record};
use std::alloc::Global;

/// The first of the records that has a page.
pub(crate) fn holder(records: &[Record], page: u32) -> Option<usize>
    requires { AllByRecursion IsMapRecord records.now }
    ensures { Finds (HasPage page) records.now result }
{
    for (i, value) in records.iter().enumerate() {
        match place_in(value, page) {
            PagePlace::Absent => {}
            _ => return Some(i),
        }
    }
    None
}

/// Moves a page of a cell's record to another home. Returns false if and only if no
/// record of its kind has room for the changed map.
fn switch_at<M: MetaPages>(
    alloc: Global,
    pages: &mut M,
    at: &CellAt,
    value: &Record,
    page: u32,
    home: &Home,
) -> Result<bool, OutOfMemory>
    requires map { HasMapIs (M.pages pages.old) at.now value.now }
    requires there { IsSome (home_at (places_in value.now page)) }
    ensures ok { IfOk result (λ done. done ≡ true → ChangesMap at.now value.now page
        (At home.now) (M.pages pages.old) (M.pages pages.new)) }
    ensures full { IfOk result (λ done. done ≡ false → CanSay (kind_of value.now)
        (with_place page (At home.now) (places_in value.now)) → ⊥) }
    ensures kept { IfOk result (λ done. done ≡ false → M.pages pages.new ≡ M.pages pages.old) }
    ensures err { OnErr result (M.pages pages.new ≡ M.pages pages.old) }
    ensures others { LeavesOthers (is_at at.now) (M.pages pages.old) (M.pages pages.new) }
    ensures well_formed { KeepsWellFormed (M.pages pages.old) (M.pages pages.new) }
    ensures headers { KeepsHeaders (M.pages pages.old) (M.pages pages.new) }
    ensures elsewhere { (h : HomeOf) → same_home h (home_there at.now) ≡ false
        → M.pages pages.new h ≡ M.pages pages.old h }
    ensures room { M.room pages.new ≡ M.room pages.old }
    ensures before { M.before pages.new ≡ M.before pages.old }
{
    let mut after = *value;
    if !switch_page(alloc, &mut after, page, *home)? {
        return Ok(false);
    }
    set_record(alloc, pages, *at, &after)?;
    Ok(true)
}

/// Moves a page of a file that has a home to another one, in the record that has it. Returns false
/// if and only if that record has no room for the changed map, since a page in the middle of a row
/// leaves more rows. Then, and after an error, nothing has changed. The file is the one whose chain
/// begins at that cell, and all cells outside the chain stay.
pub fn switch_in_records<M: MetaPages>(
    alloc: Global,
    pages: &mut M,
    start: CellAt,
    page: u32,
    home: Home,
) -> Result<bool, OutOfMemory>
    requires file { HasFile (M.pages pages.old) start }
    requires there { (chain : List PlacedCell) → IsFile (M.pages pages.old) start chain
        → IsSome (home_at (places_of chain page)) }
    ensures switched { (chain : List PlacedCell) → IsFile (M.pages pages.old) start chain
        → IfOk result (λ done. done ≡ true
        → ChangesInPlace start page (At home) chain (M.pages pages.new)) }
    ensures full { (chain : List PlacedCell) → IsFile (M.pages pages.old) start chain
        → IfOk result (λ done. done ≡ false → HolderIsFull page (At home) chain) }
    ensures kept { IfOk result (λ done. done ≡ false → M.pages pages.new ≡ M.pages pages.old) }
    ensures err { OnErr result (M.pages pages.new ≡ M.pages pages.old) }
    ensures others { (chain : List PlacedCell) → IsFile (M.pages pages.old) start chain
        → LeavesApart chain (M.pages pages.old) (M.pages pages.new) }
    ensures elsewhere { (chain : List PlacedCell) → IsFile (M.pages pages.old) start chain
        → LeavesPages chain (M.pages pages.old) (M.pages pages.new) }
    ensures well_formed { KeepsWellFormed (M.pages pages.old) (M.pages pages.new) }
    ensures headers { KeepsHeaders (M.pages pages.old) (M.pages pages.new) }
    ensures room { M.room pages.new ≡ M.room pages.old }
    ensures before { M.before pages.new ≡ M.before pages.old }
{
    let maps = read_maps(alloc, pages, start)?;
    let Some(i) = holder(maps.records.as_slice(), page) else {
        return Ok(false);
    };
    switch_at(alloc, pages, &maps.places[i], &maps.records[i], page, &home)
}
