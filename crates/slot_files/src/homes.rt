//! The home of each page of a file, as a fileset has it.
ghost use Rattle.std.specs.Prelude.{◌≡◌, ℕ, IfOk};
ghost use Rattle.index_row_faults.specs.file_release.Reading.{own_or as own_or_there, read_home as read_there};
ghost use Rattle.index_row_faults.specs.extent_maps.Runs.{home_at};
ghost use Rattle.index_row_faults.specs.extent_records.Writing.{places_before};
ghost use Rattle.slot_files.specs.Said.{home_said, place_in as place_listed, place_there, said_in};

use crate::said::{SaidHome, SaidPlace};
use index_row_faults::OutOfMemory;
use std::alloc::Global;

/// The place of a page in a list, absent after the last.
pub(crate) fn place_in(places: &[SaidPlace], page: usize) -> SaidPlace
    ensures { place_there result ≡ place_listed places.now page }
{
    match places.get(page) {
        Some(place) => *place,
        None => SaidPlace::Absent,
    }
}

/// The home of a place, if it has one.
fn home_of(place: SaidPlace) -> Option<SaidHome>
    ensures { home_said result ≡ home_at (place_there place) }
{
    match place {
        SaidPlace::At(home) => Some(home),
        SaidPlace::Hole | SaidPlace::Absent => None,
    }
}

/// The homes of the pages before a page.
pub(crate) fn homes_before(
    alloc: Global,
    places: &[SaidPlace],
    keep: u32,
) -> Result<Vec<Option<SaidHome>>, OutOfMemory>
    ensures { IfOk result (λ homes. (page : ℕ) → said_in homes.items page
        ≡ home_at (places_before keep (place_listed places.now) page)) }
{
    let end = places.len().min(keep as usize);
    let mut homes = Vec::new(alloc);
    for page in 0..end {
        homes.push(home_of(places[page]))?;
    }
    Ok(homes)
}

/// The home at which a page is read: its own, or the source's if the page is absent and was there
/// when the clone was made.
fn home_read(own: &[SaidPlace], source: &[SaidPlace], frozen: u32, page: usize) -> Option<SaidHome>
    ensures { home_said result ≡ read_there frozen (place_listed own.now)
        (place_listed source.now) page }
{
    match place_in(own, page) {
        SaidPlace::At(home) => Some(home),
        SaidPlace::Hole => None,
        SaidPlace::Absent if page < frozen as usize => home_of(place_in(source, page)),
        SaidPlace::Absent => None,
    }
}

/// For each page that a clone's file has, itself or through its source, the home at which it is
/// read.
pub(crate) fn homes_read(
    alloc: Global,
    own: &[SaidPlace],
    source: &[SaidPlace],
    frozen: u32,
) -> Result<Vec<Option<SaidHome>>, OutOfMemory>
    ensures { IfOk result (λ homes. (page : ℕ) → said_in homes.items page
        ≡ read_there frozen (place_listed own.now) (place_listed source.now) page) }
{
    let end = own.len().max(source.len());
    let mut homes = Vec::new(alloc);
    for page in 0..end {
        homes.push(home_read(own, source, frozen, page))?;
    }
    Ok(homes)
}
