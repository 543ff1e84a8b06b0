//! Which record of a chain takes a page.
ghost use Rattle.std.specs.Prelude.{◌≡◌, ◌<◌, ◌↔◌, IfOk, IsTrue, false};
ghost use Rattle.std.specs.List.{AllByRecursion};
ghost use Rattle.extent_maps.specs.declared.run.PagePlace.TheVariants.{At, Hole};
ghost use Rattle.cell_records.specs.Records.{kind_of};
ghost use Rattle.extent_records.specs.Writing.{IsMapRecord, is_of_holes};
ghost use Rattle.extent_records.specs.Chains.{CanTake, Finds, HasExtents, IsChoice, IsNext, Joins, JoinsBefore, Takes};

use crate::changes::{keep_hole, put_page};
use crate::rows::{place_in, row_count};
use cell_records::limits::FILE_PAGES;
use cell_records::{Home, OutOfMemory, Record};
use extent_maps::PagePlace;
use std::alloc::Global;

/// Whether the second place is the one right after the first, or both are holes.
fn is_next(place: &PagePlace, next: &PagePlace) -> bool
    ensures { IsTrue result ↔ IsNext place.now next.now }
{
    match (place, next) {
        (PagePlace::At(a), PagePlace::At(b)) => {
            a.vol == b.vol && u64::from(a.page) + 1 == u64::from(b.page)
        }
        (PagePlace::Hole, PagePlace::Hole) => true,
        _ => false,
    }
}

/// Whether the page continues the one before it.
fn joins_before(value: &Record, page: u32, place: &PagePlace) -> bool
    requires { IsMapRecord value.now }
    ensures { IsTrue result ↔ JoinsBefore page place.now value.now }
{
    match page.checked_sub(1) {
        Some(before) => is_next(&place_in(value, before), place),
        None => false,
    }
}

/// Whether the page continues the one before it, or the one after it continues the page.
fn joins(value: &Record, page: u32, place: &PagePlace) -> bool
    requires is_map { IsMapRecord value.now }
    requires small { page < FILE_PAGES }
    ensures { IsTrue result ↔ Joins page place.now value.now }
{
    joins_before(value, page, place) || is_next(place, &place_in(value, page + 1))
}

/// Whether a record's rows are extents.
fn has_extents(value: &Record) -> bool
    ensures { IsTrue result ↔ HasExtents (kind_of value.now) }
{
    match value {
        Record::Extents { .. }
        | Record::ShortExtents { .. }
        | Record::DenseExtents { .. }
        | Record::ShortDense { .. } => true,
        _ => false,
    }
}

/// Whether a record's rows are holes.
fn has_holes(value: &Record) -> bool
    ensures { result ≡ is_of_holes (kind_of value.now) }
{
    match value {
        Record::Holes { .. } => true,
        _ => false,
    }
}

/// Whether a record can have a page at a home.
fn takes_home(alloc: Global, value: &Record, page: u32, home: &Home) -> Result<bool, OutOfMemory>
    requires value { CanTake page value.now }
    requires small { page < FILE_PAGES }
    ensures { IfOk result (λ takes. IsTrue takes ↔ Takes page (At home.now) value.now) }
{
    if !has_extents(value) {
        return Ok(false);
    }
    let mut copy = *value;
    put_page(alloc, &mut copy, page, *home)
}

/// Whether a record can keep a page as a hole.
fn takes_hole(alloc: Global, value: &Record, page: u32) -> Result<bool, OutOfMemory>
    requires value { CanTake page value.now }
    requires small { page < FILE_PAGES }
    ensures { IfOk result (λ takes. IsTrue takes ↔ Takes page Hole value.now) }
{
    if !has_holes(value) {
        return Ok(false);
    }
    let mut copy = *value;
    keep_hole(alloc, &mut copy, page)
}

/// Whether a record can have a page at a place.
fn takes(alloc: Global, value: &Record, page: u32, place: &PagePlace) -> Result<bool, OutOfMemory>
    requires value { CanTake page value.now }
    requires small { page < FILE_PAGES }
    ensures { IfOk result (λ takes. IsTrue takes ↔ Takes page place.now value.now) }
{
    match place {
        PagePlace::At(home) => takes_home(alloc, value, page, home),
        PagePlace::Hole => takes_hole(alloc, value, page),
        PagePlace::Absent => Ok(false),
    }
}

/// Whether a record can have a page at a place, and it joins a row there.
fn takes_joined(
    alloc: Global,
    value: &Record,
    page: u32,
    place: &PagePlace,
) -> Result<bool, OutOfMemory>
    requires value { CanTake page value.now }
    requires small { page < FILE_PAGES }
    ensures { IfOk result (λ takes. IsTrue takes ↔ (Takes page place.now value.now
        × Joins page place.now value.now)) }
{
    if row_count(value) == 0 || !joins(value, page, place) {
        return Ok(false);
    }
    takes(alloc, value, page, place)
}

/// The first record that can take a page at a place and in which it joins a row.
fn first_joined(
    alloc: Global,
    records: &[Record],
    page: u32,
    place: &PagePlace,
) -> Result<Option<usize>, OutOfMemory>
    requires records { AllByRecursion (CanTake page) records.now }
    requires small { page < FILE_PAGES }
    ensures { IfOk result (Finds (λ r. Takes page place.now r × Joins page place.now r)
        records.now) }
{
    for (i, value) in records.iter().enumerate() {
        if takes_joined(alloc, value, page, place)? {
            return Ok(Some(i));
        }
    }
    Ok(None)
}

/// The first record that can have a page at a place.
fn first_taking(
    alloc: Global,
    records: &[Record],
    page: u32,
    place: &PagePlace,
) -> Result<Option<usize>, OutOfMemory>
    requires records { AllByRecursion (CanTake page) records.now }
    requires small { page < FILE_PAGES }
    ensures { IfOk result (Finds (Takes page place.now) records.now) }
{
    for (i, value) in records.iter().enumerate() {
        if takes(alloc, value, page, place)? {
            return Ok(Some(i));
        }
    }
    Ok(None)
}

/// Which record of a chain takes a page that it does not have: the first in which the page joins a
/// row, else the first that has room, else None.
fn choose(
    alloc: Global,
    records: &[Record],
    page: u32,
    place: &PagePlace,
) -> Result<Option<usize>, OutOfMemory>
    requires records { AllByRecursion (CanTake page) records.now }
    requires small { page < FILE_PAGES }
    ensures { IfOk result (IsChoice page place.now records.now) }
{
    match first_joined(alloc, records, page, place)? {
        Some(i) => Ok(Some(i)),
        None => first_taking(alloc, records, page, place),
    }
}

/// Which record of a chain takes a page at a home, if none of them has that page: the first in
/// which it joins a row, else the first that has room. Returns None if and only if no record of
/// extents among them has room for it.
pub fn record_for(
    alloc: Global,
    records: &[Record],
    page: u32,
    home: Home,
) -> Result<Option<usize>, OutOfMemory>
    requires records { AllByRecursion (CanTake page) records.now }
    requires small { page < FILE_PAGES }
    ensures { IfOk result (IsChoice page (At home) records.now) }
{
    choose(alloc, records, page, &PagePlace::At(home))
}

/// Which record of a chain takes a page that is kept as a hole, if none of them has that page: the
/// first in which it joins a row, else the first that has room. Returns None if and only if no
/// record of holes among them has room for it.
pub fn record_for_hole(
    alloc: Global,
    records: &[Record],
    page: u32,
) -> Result<Option<usize>, OutOfMemory>
    requires records { AllByRecursion (CanTake page) records.now }
    requires small { page < FILE_PAGES }
    ensures { IfOk result (IsChoice page Hole records.now) }
{
    choose(alloc, records, page, &PagePlace::Hole)
}
