//! Where each page of a file is, by its runs.
ghost use Rattle.std.specs.Prelude.{◌≡◌, ◌==◌, ◌-◌, ◌<◌, ◌≤◌, ℕ, IfOk, length, if◌then◌else◌};
ghost use Rattle.index_row_faults.specs.extent_maps.Runs.{behind as behind_there, covers, end_of as end_there, place_of, placed};
ghost use Rattle.index_row_faults.specs.extent_maps.declared.run.PagePlace.TheVariants.{Absent};
ghost use Rattle.slot_files.specs.Said.{ListsPlaces, first_there, place_in, place_there, run_there, runs_there};

use crate::said::{SaidFirst, SaidHome, SaidPlace, SaidRun};
use index_row_faults::OutOfMemory;
use std::alloc::Global;

/// The page after those of a run.
fn end_of_run(run: &SaidRun) -> u64
    ensures { result ≡ end_there (run_there run.now) }
{
    u64::from(run.page) + u64::from(run.count)
}

/// The page after all pages of runs.
fn end_of(runs: &[SaidRun]) -> u64
    ensures { (page : ℕ) → result ≤ page → place_of (runs_there runs.now) page ≡ Absent }
{
    let mut end = 0;
    for run in runs {
        end = end_of_run(run).max(end);
    }
    end
}

/// The place of the page that stands `behind` pages after the first of a run.
fn place_behind(first: &SaidFirst, behind: u32) -> SaidPlace
    ensures { place_there result ≡ placed (behind_there behind (first_there first.now)) }
{
    match first {
        SaidFirst::At { vol, page } => SaidPlace::At(SaidHome {
            vol: *vol,
            page: u64::from(*page) + u64::from(behind),
        }),
        SaidFirst::Holes => SaidPlace::Hole,
    }
}

/// Puts a page over another in a list of places, if that reaches to it.
fn set_place(places: &mut Vec<SaidPlace>, page: u64, place: SaidPlace)
    ensures length { length places.new.items ≡ length places.old.items }
    ensures places { (other : ℕ) → other < length places.old.items
        → place_in places.new.items other ≡ (if other == page then place_there place
        else place_in places.old.items other) }
{
    if page < places.len() as u64 {
        places[page as usize] = place;
    }
}

/// Puts the pages of a run over others in a list of places, as far as that reaches.
fn put_run(places: &mut Vec<SaidPlace>, run: &SaidRun)
    ensures length { length places.new.items ≡ length places.old.items }
    ensures places { (page : ℕ) → page < length places.old.items
        → place_in places.new.items page ≡ (if covers (run_there run.now) page
        then placed (behind_there (page - run.now.page) (first_there run.now.first))
        else place_in places.old.items page) }
{
    for behind in 0..run.count {
        let page = u64::from(run.page) + u64::from(behind);
        set_place(places, page, place_behind(&run.first, behind));
    }
}

/// A list of `end` absent pages.
fn absent_pages(alloc: Global, end: u64) -> Result<Vec<SaidPlace>, OutOfMemory>
    ensures length { IfOk result (λ places. length places.items ≡ end) }
    ensures absent { IfOk result (λ places. ListsPlaces (λ page. Absent) places.items) }
{
    let mut places = Vec::new(alloc);
    for _ in 0..end {
        places.push(SaidPlace::Absent)?;
    }
    Ok(places)
}

/// Where each page is, by runs. The first run that has a page counts.
pub(crate) fn places_said(alloc: Global, runs: &[SaidRun]) -> Result<Vec<SaidPlace>, OutOfMemory>
    ensures { IfOk result (λ places. ListsPlaces (place_of (runs_there runs.now)) places.items) }
{
    let mut places = absent_pages(alloc, end_of(runs))?;
    for i in (0..runs.len()).rev() {
        put_run(&mut places, &runs[i]);
    }
    Ok(places)
}
