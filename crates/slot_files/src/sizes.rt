//! Whether a directory has a wrong size, a gap in its pages, pages that it does not keep, or more
//! pages than one.
ghost use Rattle.std.specs.Prelude.{◌≡◌, ◌⊎◌, ◌↔◌, ◌%◌, ◌<◌, ◌≤◌, IsSome, IsTrue, length};
ghost use Rattle.index_row_faults.specs.extent_maps.Runs.{home_at};
ghost use Rattle.slot_files.specs.Said.{HasFirst, HasGap, HasTwo, IsLostAt, LosesPage, place_in as place_listed, said_in};

use crate::homes::place_in;
use crate::said::{SaidHome, SaidPlace};

/// Whether a page has a home.
fn has_home(homes: &[Option<SaidHome>], page: usize) -> bool
    ensures { IsTrue result ↔ IsSome (said_in homes.now page) }
{
    match homes.get(page) {
        Some(home) => home.is_some(),
        None => false,
    }
}

/// Whether a page has a home if it is one of the first `count` pages, and none if it is not.
fn is_right_at(homes: &[Option<SaidHome>], count: u64, page: usize) -> bool
    ensures { IsTrue result ↔ (IsSome (said_in homes.now page) ↔ (page < count)) }
{
    if (page as u64) < count {
        has_home(homes, page)
    } else {
        !has_home(homes, page)
    }
}

/// Whether there are at least `count` homes.
fn are_so_many(homes: &[Option<SaidHome>], count: u64) -> bool
    ensures { IsTrue result ↔ (count ≤ length homes.now) }
{
    count <= homes.len() as u64
}

/// Whether exactly the first `count` pages have a home.
fn has_first(homes: &[Option<SaidHome>], count: u64) -> bool
    ensures { IsTrue result ↔ HasFirst homes.now count }
{
    for page in 0..homes.len() {
        if !is_right_at(homes, count, page) {
            return false;
        }
    }
    are_so_many(homes, count)
}

/// Whether a size is that of whole pages.
fn is_of_pages(size: u64) -> bool
    ensures { IsTrue result ↔ (size % 8192 ≡ 0) }
{
    size % 8192 == 0
}

/// Whether a size is not that of the pages that have a home, or these have a gap.
fn has_gap(homes: &[Option<SaidHome>], size: u64) -> bool
    ensures { IsTrue result ↔ HasGap homes.now size }
{
    if !is_of_pages(size) {
        return true;
    }
    !has_first(homes, size / 8192)
}

/// Whether a page has a place at a home.
fn has_place(places: &[SaidPlace], page: usize) -> bool
    ensures { IsTrue result ↔ IsSome (home_at (place_listed places.now page)) }
{
    match place_in(places, page) {
        SaidPlace::At(_) => true,
        SaidPlace::Hole => false,
        SaidPlace::Absent => false,
    }
}

/// Whether a page has a place at a home, but no home among the homes.
fn is_lost(places: &[SaidPlace], homes: &[Option<SaidHome>], page: usize) -> bool
    ensures { IsTrue result ↔ IsLostAt places.now homes.now page }
{
    if has_home(homes, page) {
        return false;
    }
    has_place(places, page)
}

/// Whether some page has a place at a home, but no home among the homes.
fn loses_page(places: &[SaidPlace], homes: &[Option<SaidHome>]) -> bool
    ensures { IsTrue result ↔ LosesPage places.now homes.now }
{
    for page in 0..places.len() {
        if is_lost(places, homes, page) {
            return true;
        }
    }
    false
}

/// Whether a directory's size is not that of its pages, its pages have a gap, or its cells have
/// pages that it does not keep.
pub(crate) fn has_wrong_size(places: &[SaidPlace], homes: &[Option<SaidHome>], size: u64) -> bool
    ensures { IsTrue result ↔ (HasGap homes.now size ⊎ LosesPage places.now homes.now) }
{
    has_gap(homes, size) || loses_page(places, homes)
}

/// Whether at least two pages have a home.
pub(crate) fn has_two(homes: &[Option<SaidHome>]) -> bool
    ensures { IsTrue result ↔ HasTwo homes.now }
{
    let mut has_one = false;
    for home in homes {
        if home.is_some() {
            if has_one {
                return true;
            }
            has_one = true;
        }
    }
    false
}
