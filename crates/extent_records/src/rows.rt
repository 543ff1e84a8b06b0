//! What a record says, read row by row.
ghost use Rattle.std.specs.Prelude.{◌≡◌, ◌+◌, ◌-◌, ◌<◌, ◌≤◌, ◌↔◌, [], IsTrue, length};
ghost use Rattle.std.specs.List.{AllByRecursion, flat_map};
ghost use Rattle.extent_maps.specs.Runs.{place_of};
ghost use Rattle.cell_records.specs.Records.{kind_of};
ghost use Rattle.extent_records.specs.Rows.{IsPlaced, holes_at, runs_at, runs_in};
ghost use Rattle.extent_records.specs.Writing.{IsMapRecord, most_rows, places_in};

use crate::writing::{CHAIN_ROWS, DENSE_ROWS, SHORT_ROWS};
use cell_records::{ExtentField, HoleField, Home, Record, VolIx};
use extent_maps::PagePlace;

/// The place of a page as a row says it.
fn place_at(row: &ExtentField, page: u32) -> PagePlace
    requires { AllByRecursion IsPlaced (runs_at row.now) }
    ensures { result ≡ place_of (runs_at row.now) page }
{
    match VolIx::new(row.vol) {
        Some(vol) if row.page <= page && page - row.page < row.count => PagePlace::At(Home {
            vol,
            page: row.first + (page - row.page),
        }),
        _ => PagePlace::Absent,
    }
}

/// Whether a row of holes keeps a page as a hole.
fn hole_at(row: &HoleField, page: u32) -> PagePlace
    ensures { result ≡ place_of (holes_at row.now) page }
{
    if row.page <= page && page - row.page < row.count {
        PagePlace::Hole
    } else {
        PagePlace::Absent
    }
}

/// The place of a page as the rows say it.
fn place_among(rows: &[ExtentField], page: u32) -> PagePlace
    requires { AllByRecursion IsPlaced (flat_map runs_at rows.now) }
    ensures { result ≡ place_of (flat_map runs_at rows.now) page }
{
    for row in rows {
        match place_at(row, page) {
            PagePlace::Absent => {}
            place => return place,
        }
    }
    PagePlace::Absent
}

/// Whether rows of holes keep a page as a hole.
fn hole_among(rows: &[HoleField], page: u32) -> PagePlace
    ensures { result ≡ place_of (flat_map holes_at rows.now) page }
{
    for row in rows {
        match hole_at(row, page) {
            PagePlace::Absent => {}
            place => return place,
        }
    }
    PagePlace::Absent
}

/// The place of a page as a record says it.
pub fn place_in(value: &Record, page: u32) -> PagePlace
    requires { IsMapRecord value.now }
    ensures { result ≡ places_in value.now page }
{
    match value {
        Record::Extents { rows } => place_among(rows, page),
        Record::ShortExtents { rows } => place_among(rows, page),
        Record::DenseExtents { rows } => place_among(rows, page),
        Record::ShortDense { rows } => place_among(rows, page),
        Record::Holes { rows } => hole_among(rows, page),
        _ => PagePlace::Absent,
    }
}

/// How many rows of extents are used.
fn used_extents(rows: &[ExtentField]) -> usize
    ensures { result ≡ length (flat_map runs_at rows.now) }
{
    let mut used = 0;
    for row in rows {
        if row.count != 0 {
            used += 1;
        }
    }
    used
}

/// How many rows of holes are used.
fn used_holes(rows: &[HoleField]) -> usize
    ensures { result ≡ length (flat_map holes_at rows.now) }
{
    let mut used = 0;
    for row in rows {
        if row.count != 0 {
            used += 1;
        }
    }
    used
}

/// How many rows of a record are used: 0 if it says no page.
pub fn used_rows(value: &Record) -> usize
    ensures { result ≡ length (runs_in value.now) }
{
    match value {
        Record::Extents { rows } => used_extents(rows),
        Record::ShortExtents { rows } => used_extents(rows),
        Record::DenseExtents { rows } => used_extents(rows),
        Record::ShortDense { rows } => used_extents(rows),
        Record::Holes { rows } => used_holes(rows),
        _ => 0,
    }
}

/// How many rows a record has.
pub(crate) fn row_count(value: &Record) -> usize
    ensures { result ≡ most_rows (kind_of value.now) }
{
    match value {
        Record::Extents { .. } | Record::Holes { .. } => CHAIN_ROWS,
        Record::ShortExtents { .. } | Record::ShortDense { .. } => SHORT_ROWS,
        Record::DenseExtents { .. } => DENSE_ROWS,
        _ => 0,
    }
}
