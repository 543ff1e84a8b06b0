//! Making files shorter or longer.
ghost use Rattle.std.specs.Prelude.{◌≡◌, ◌∷◌, ◌<◌, ◌||◌, IfNone, IfOk, IfSome, List, None, OnErr, OnOk, Some, false, if◌then◌else◌, is_some, true};
ghost use Rattle.std.specs.List.{list_any};
ghost use Rattle.file_chains.specs.domain_base.declared.place.Home.{Home as HomeOf};
ghost use Rattle.file_chains.specs.page_store.Pages.{same_home};
ghost use Rattle.file_chains.specs.cell_records.declared.record.Record.TheVariants.{Pending};
ghost use Rattle.file_chains.specs.cell_records.declared.record.Leftover.TheVariants.{Trim};
ghost use Rattle.file_chains.specs.cell_records.Records.{Allowed, kind_of};
ghost use Rattle.file_chains.specs.metadata_cells.Cell.{Cell, record_of};
ghost use Rattle.file_chains.specs.metadata_cells.CellPage.{KeepsHeaders, KeepsWellFormed, home_of as home_there};
ghost use Rattle.file_chains.specs.metadata_cells.Chain.{LeavesOthers, PlacedCell, StandsAt, is_at};
ghost use Rattle.file_chains.specs.extent_maps.Runs.{AreRuns, place_of};
ghost use Rattle.file_chains.specs.free_cells.Cells.{Cells};
ghost use Rattle.file_chains.specs.free_space.Spaces.{Spaces};
ghost use Rattle.fileset_files.specs.Together.{AreTogether};
ghost use Rattle.file_chains.specs.Changes.{with_two};
ghost use Rattle.file_chains.specs.Files.{HasFile, IsFile};
ghost use Rattle.fileset_files.specs.Changes.{ChangesFirst, HasFirstRoom, IsLive};
ghost use Rattle.fileset_files.specs.Files.{AreFiles, Chains, HasFiles, first_record as first_there};
ghost use Rattle.fileset_files.specs.Truncation.{HasPageWithin, IsLowered, Truncates, TruncatesChain, TruncatesTogether, meets as meets_there, pages_in, says_truncated};

use crate::attributes::{read_keep, with_size};
use crate::bitfiles::{Bitfiles, first_record, set_first};
use file_chains::{
    CellAt, ExtentMap, Leftover, MetaPages, OutOfMemory, Record, Run, Tag, read_file_map,
    set_two_records,
};
use std::alloc::Global;

/// The bytes of a page.
const PAGE: u64 = 8192;

/// Whether a run has a page from one on and before another.
fn meets(run: &Run, from: u32, to: u32) -> bool
    ensures { result ≡ meets_there from to run.now }
{
    run.page < to && u64::from(from) < u64::from(run.page) + u64::from(run.count)
}

/// Whether a run of a map has a page from one on and before another.
fn any_meets(map: &ExtentMap, from: u32, to: u32) -> bool
    ensures value { result ≡ list_any (meets_there from to) map.now }
    ensures runs { AreRuns map.now }
{
    map.runs().iter().any(|run| meets(run, from, to))
}

/// Whether a map has a page from one on and before another.
fn has_page_within(map: &ExtentMap, from: u32, to: u32) -> bool
    requires { from < to }
    ensures some { result ≡ true → HasPageWithin from to (place_of map.now) }
    ensures none { result ≡ false → ¬ HasPageWithin from to (place_of map.now) }
{
    any_meets(map, from, to)
}

/// From which page on the pages of a file with that map are stale once it has that size. Returns
/// None if there are none from there on among those that it keeps.
fn stale_from(map: &ExtentMap, keep: u32, size: u64) -> Option<u32>
    ensures some { IfSome result (λ from. from ≡ pages_in size) }
    ensures there { IfSome result (λ from. HasPageWithin from keep (place_of map.now)) }
    ensures none { IfNone result (¬ HasPageWithin (pages_in size) keep (place_of map.now)) }
{
    let from = size.div_ceil(PAGE);
    if from < u64::from(keep) && has_page_within(map, from as u32, keep) {
        return Some(from as u32);
    }
    None
}

/// Puts a record of attributes in the first cell of a file, and a record that says that stale pages
/// are to be let go.
fn set_trim<M: MetaPages>(
    alloc: Global,
    pages: &mut M,
    at: &CellAt,
    value: &Record,
) -> Result<(), OutOfMemory>
    requires room { HasFirstRoom (M.pages pages.old) at.now }
    requires kind { kind_of value.now ≡ 1 }
    requires allowed { Allowed value.now }
    ensures ok { (cell : Cell) → StandsAt (M.pages pages.old) at.now cell
        → OnOk result (StandsAt (M.pages pages.new) at.now
        (with_two value.now (Pending Trim) cell)) }
    ensures err { OnErr result (M.pages pages.new ≡ M.pages pages.old) }
    ensures others { LeavesOthers (is_at at.now) (M.pages pages.old) (M.pages pages.new) }
    ensures well_formed { KeepsWellFormed (M.pages pages.old) (M.pages pages.new) }
    ensures headers { KeepsHeaders (M.pages pages.old) (M.pages pages.new) }
    ensures elsewhere { (home : HomeOf) → same_home home (home_there at.now) ≡ false
        → M.pages pages.new home ≡ M.pages pages.old home }
    ensures room { M.room pages.new ≡ M.room pages.old }
    ensures before { M.before pages.new ≡ M.before pages.old }
{
    let trim = Record::Pending {
        what: Leftover::Trim,
    };
    set_two_records(alloc, pages, *at, value, &trim)
}

/// Writes in a file's first cell that it has that size and, if there is a number, that it keeps
/// that many pages and that stale ones are to be let go.
fn set_size<M: MetaPages>(
    alloc: Global,
    pages: &mut M,
    at: &CellAt,
    was: &Record,
    size: u64,
    lowered: &Option<u32>,
) -> Result<(), OutOfMemory>
    requires room { HasFirstRoom (M.pages pages.old) at.now }
    requires was { (cell : Cell) → StandsAt (M.pages pages.old) at.now cell
        → record_of 1 cell.records ≡ Some was.now }
    ensures ok { (cell : Cell) → StandsAt (M.pages pages.old) at.now cell
        → OnOk result (StandsAt (M.pages pages.new) at.now
        (says_truncated size lowered.now cell)) }
    ensures err { OnErr result (M.pages pages.new ≡ M.pages pages.old) }
    ensures others { LeavesOthers (is_at at.now) (M.pages pages.old) (M.pages pages.new) }
    ensures well_formed { KeepsWellFormed (M.pages pages.old) (M.pages pages.new) }
    ensures headers { KeepsHeaders (M.pages pages.old) (M.pages pages.new) }
    ensures elsewhere { (home : HomeOf) → same_home home (home_there at.now) ≡ false
        → M.pages pages.new home ≡ M.pages pages.old home }
    ensures room { M.room pages.new ≡ M.room pages.old }
    ensures before { M.before pages.new ≡ M.before pages.old }
{
    let value = with_size(was, size, lowered);
    match lowered {
        Some(keep) => {
            prove!(*keep <= u32::MAX);
            set_trim(alloc, pages, at, &value)
        }
        None => set_first(alloc, pages, at, &value),
    }
}

/// From which page on the pages of the file whose chain begins there are stale once it has that
/// size. Returns None if there are none from there on among those that it keeps.
fn stale_in<M: MetaPages>(
    alloc: Global,
    pages: &M,
    at: &CellAt,
    was: &Record,
    size: u64,
) -> Result<Option<u32>, OutOfMemory>
    requires file { HasFile (M.pages pages.now) at.now }
    requires was { (chain : List PlacedCell) → IsFile (M.pages pages.now) at.now chain
        → first_there 1 chain ≡ Some was.now }
    ensures { (chain : List PlacedCell) → IsFile (M.pages pages.now) at.now chain
        → IfOk result (IsLowered size chain) }
{
    let Some(keep) = read_keep(was) else {
        return Ok(None);
    };
    let map = read_file_map(alloc, pages, *at)?;
    Ok(stale_from(&map, keep, size))
}

/// A cell, if its file has something left to be done.
fn left_at(at: &CellAt, pending: bool, lowered: &Option<u32>) -> Option<CellAt>
    ensures { result ≡ (if pending || is_some lowered.now then Some at.now else None) }
{
    if pending || lowered.is_some() {
        return Some(*at);
    }
    None
}

/// Sets the size of the file whose chain begins there.
fn truncate_at<M: MetaPages>(
    alloc: Global,
    pages: &mut M,
    at: &CellAt,
    was: &Record,
    size: u64,
) -> Result<Option<CellAt>, OutOfMemory>
    requires file { HasFile (M.pages pages.old) at.now }
    requires room { HasFirstRoom (M.pages pages.old) at.now }
    requires was { (chain : List PlacedCell) → IsFile (M.pages pages.old) at.now chain
        → first_there 1 chain ≡ Some was.now }
    ensures ok { (first : PlacedCell) (rest : List PlacedCell)
        → IsFile (M.pages pages.old) at.now (first ∷ rest)
        → IfOk result (TruncatesChain size at.now first rest (M.pages pages.new)) }
    ensures err { OnErr result (M.pages pages.new ≡ M.pages pages.old) }
    ensures others { LeavesOthers (is_at at.now) (M.pages pages.old) (M.pages pages.new) }
    ensures well_formed { KeepsWellFormed (M.pages pages.old) (M.pages pages.new) }
    ensures headers { KeepsHeaders (M.pages pages.old) (M.pages pages.new) }
    ensures elsewhere { (home : HomeOf) → same_home home (home_there at.now) ≡ false
        → M.pages pages.new home ≡ M.pages pages.old home }
    ensures room { M.room pages.new ≡ M.room pages.old }
    ensures before { M.before pages.new ≡ M.before pages.old }
{
    let pending = first_record(pages, at, 6).is_some();
    let lowered = stale_in(alloc, pages, at, was, size)?;
    set_size(alloc, pages, at, was, size, &lowered)?;
    Ok(left_at(at, pending, &lowered))
}

impl Bitfiles {
    /// Sets the size in bytes of the file that a live tag names. The pages after it, from the first
    /// one without a byte of the file on, are stale. If the file has a stale page among those that
    /// it keeps, it keeps fewer from now on, and its first cell says that stale pages are to be let
    /// go. No page goes yet. Returns the first cell if that then says that something is left to be
    /// done, and None if and only if it does not. Every other file stays, and so does the place of
    /// every page. After an error nothing has changed.
    pub fn truncate<M: MetaPages>(
        &self,
        alloc: Global,
        pages: &mut M,
        tag: Tag,
        size: u64,
    ) -> Result<Option<CellAt>, OutOfMemory>
        requires files { HasFiles self.now.fileset self.now.tags (M.pages pages.old) }
        requires live { (chains : Chains)
            → AreFiles self.now.fileset self.now.tags (M.pages pages.old) chains
            → IsLive tag chains }
        ensures ok { (chains : Chains)
            → AreFiles self.now.fileset self.now.tags (M.pages pages.old) chains
            → IfOk result (λ at. Truncates self.now.fileset self.now.tags tag size at chains
            (M.pages pages.new)) }
        ensures together { (space : Spaces) (cells : Cells) (chains : Chains)
            → AreTogether self.now.fileset self.now.tags space cells (M.pages pages.old) chains
            → OnOk result (TruncatesTogether self.now.fileset self.now.tags tag size space cells
            chains (M.pages pages.new)) }
        ensures err { OnErr result (M.pages pages.new ≡ M.pages pages.old) }
        ensures beside { (chains : Chains)
            → AreFiles self.now.fileset self.now.tags (M.pages pages.old) chains
            → ChangesFirst (chains tag) (M.pages pages.old) (M.pages pages.new) }
        ensures well_formed { KeepsWellFormed (M.pages pages.old) (M.pages pages.new) }
        ensures headers { KeepsHeaders (M.pages pages.old) (M.pages pages.new) }
        ensures room { M.room pages.new ≡ M.room pages.old }
        ensures before { M.before pages.new ≡ M.before pages.old }
    {
        let Some(at) = self.live_cell(pages, tag) else {
            return Err(OutOfMemory);
        };
        let Some(was) = first_record(pages, &at, 1) else {
            return Err(OutOfMemory);
        };
        truncate_at(alloc, pages, &at, &was, size)
    }
}
