//! The record of a kind that says some runs.
ghost use Rattle.std.specs.Prelude.{◌≡◌, ◌≤◌, ◌<◌, ◌∷◌, [], length, IfNone, IfSome};
ghost use Rattle.extent_maps.specs.Runs.{AreRuns, FitsVolume, IsRun, behind, front_of, rest_from};
ghost use Rattle.cell_records.specs.Records.{kind_of};
ghost use Rattle.extent_records.specs.Rows.{runs_in};
ghost use Rattle.extent_records.specs.Writing.{AllSuit, AreRowsFrom, IsMapRecord, IsRecordOf, chain_kind, extent_of, filled, hole_kind, hole_of, is_dense, no_extent, no_hole, short_kind, most_rows, parts, rows_for};

use cell_records::from_domain_base::Version;
use cell_records::{ExtentField, HoleField, Home, Record};
use extent_maps::{Run, RunPlace};

/// How many rows the record of a primary cell has.
pub(crate) const SHORT_ROWS: usize = 4;

/// How many rows a record of extents or of holes of a chain's cell has.
pub(crate) const CHAIN_ROWS: usize = 16;

/// How many rows it has if they are dense.
pub(crate) const DENSE_ROWS: usize = 22;

/// The most pages that a dense row has: its count has two bytes.
const DENSE_PAGES: u32 = 65_535;

const NO_EXTENT: ExtentField = ExtentField {
    page: 0,
    count: 0,
    vol: 0,
    first: 0,
};

const NO_HOLE: HoleField = HoleField { page: 0, count: 0 };

/// The row of a run. It names nothing if the run's pages are holes.
fn extent_row(run: &Run) -> ExtentField
    ensures { result ≡ extent_of run.now }
{
    match run.first {
        RunPlace::At(home) => ExtentField {
            page: run.page,
            count: run.count,
            vol: home.vol.number(),
            first: home.page,
        },
        RunPlace::Holes => NO_EXTENT,
    }
}

fn hole_row(run: &Run) -> HoleField
    ensures { result ≡ hole_of run.now }
{
    HoleField {
        page: run.page,
        count: run.count,
    }
}

/// Rows of extents, one for each run, followed by rows that name nothing.
fn extent_rows<const N: usize>(runs: &[Run]) -> [ExtentField; N]
    requires { length runs.now ≤ N }
    ensures { result ≡ filled extent_of no_extent N runs.now }
{
    let mut rows = [NO_EXTENT; N];
    for (i, run) in runs.iter().enumerate() {
        rows[i] = extent_row(run);
    }
    rows
}

/// Rows of holes, one for each run, followed by rows that name nothing.
fn hole_rows<const N: usize>(runs: &[Run]) -> [HoleField; N]
    requires { length runs.now ≤ N }
    ensures { result ≡ filled hole_of no_hole N runs.now }
{
    let mut rows = [NO_HOLE; N];
    for (i, run) in runs.iter().enumerate() {
        rows[i] = hole_row(run);
    }
    rows
}

/// Extents of a chain cell, or None if they are more than its rows.
fn extents(rows: &[Run]) -> Option<Record>
    requires { AreRowsFrom 3 0 rows.now }
    ensures { IsRecordOf 3 rows.now result }
{
    if CHAIN_ROWS < rows.len() {
        return None;
    }
    Some(Record::Extents {
        rows: extent_rows(rows),
    })
}

/// Extents of a primary cell.
fn short_extents(rows: &[Run]) -> Option<Record>
    requires { AreRowsFrom 4 0 rows.now }
    ensures { IsRecordOf 4 rows.now result }
{
    if SHORT_ROWS < rows.len() {
        return None;
    }
    Some(Record::ShortExtents {
        rows: extent_rows(rows),
    })
}

/// Holes of a chain's cell.
fn holes(rows: &[Run]) -> Option<Record>
    requires { AreRowsFrom 5 0 rows.now }
    ensures { IsRecordOf 5 rows.now result }
{
    if CHAIN_ROWS < rows.len() {
        return None;
    }
    Some(Record::Holes {
        rows: hole_rows(rows),
    })
}

/// Dense extents of a chain's cell.
fn dense_extents(rows: &[Run]) -> Option<Record>
    requires { AreRowsFrom 13 0 rows.now }
    ensures { IsRecordOf 13 rows.now result }
{
    if DENSE_ROWS < rows.len() {
        return None;
    }
    Some(Record::DenseExtents {
        rows: extent_rows(rows),
    })
}

/// Dense extents of a primary cell.
fn short_dense(rows: &[Run]) -> Option<Record>
    requires { AreRowsFrom 14 0 rows.now }
    ensures { IsRecordOf 14 rows.now result }
{
    if SHORT_ROWS < rows.len() {
        return None;
    }
    Some(Record::ShortDense {
        rows: extent_rows(rows),
    })
}

/// The record of a value's kind with these rows, or None if they are more than it has.
fn with_rows(value: &Record, rows: &[Run]) -> Option<Record>
    requires has_rows { 1 ≤ most_rows (kind_of value.now) }
    requires rows { AreRowsFrom (kind_of value.now) 0 rows.now }
    ensures { IsRecordOf (kind_of value.now) rows.now result }
{
    match value {
        Record::Extents { .. } => extents(rows),
        Record::ShortExtents { .. } => short_extents(rows),
        Record::Holes { .. } => holes(rows),
        Record::DenseExtents { .. } => dense_extents(rows),
        Record::ShortDense { .. } => short_dense(rows),
        _ => None,
    }
}

/// The first pages of a run, as many as a dense row has.
fn front(run: &Run) -> Run
    ensures { result ≡ front_of 65535 run.now }
{
    Run {
        page: run.page,
        count: DENSE_PAGES,
        first: run.first,
    }
}

/// Where the page stands that is as many pages after the first as a dense row has.
fn place_behind(first: RunPlace) -> RunPlace
    requires { FitsVolume 65536 first }
    ensures { result ≡ behind 65535 first }
{
    match first {
        RunPlace::At(home) => RunPlace::At(Home {
            vol: home.vol,
            page: home.page + DENSE_PAGES,
        }),
        RunPlace::Holes => RunPlace::Holes,
    }
}

/// The pages of a run after those that a dense row has.
fn rest(run: &Run) -> Run
    requires run { IsRun run.now }
    requires long { 65535 < run.now.count }
    ensures { result ≡ rest_from 65535 run.now }
{
    Run {
        page: run.page + DENSE_PAGES,
        count: run.count - DENSE_PAGES,
        first: place_behind(run.first),
    }
}

/// The two dense rows of a run that has more pages than one row can have. Such a run has all pages
/// of a file.
fn halves_of(run: &Run) -> Option<[Run; 2]>
    requires { IsRun run.now }
    ensures some { IfSome result (λ halves. halves ≡ parts 65535 (run.now ∷ [])) }
    ensures none { IfNone result (run.now.count ≤ 65535) }
{
    if DENSE_PAGES < run.count {
        Some([front(run), rest(run)])
    } else {
        None
    }
}

/// The dense rows of the runs, if they are not the runs themselves.
fn halves(runs: &[Run]) -> Option<[Run; 2]>
    requires { AreRuns runs.now }
    ensures some { IfSome result (λ halves. halves ≡ parts 65535 runs.now) }
    ensures none { IfNone result (parts 65535 runs.now ≡ runs.now) }
{
    if runs.len() == 1 {
        halves_of(&runs[0])
    } else {
        None
    }
}

/// Whether its rows are dense.
fn has_dense_rows(value: &Record) -> bool
    ensures { result ≡ is_dense (kind_of value.now) }
{
    match value {
        Record::DenseExtents { .. } | Record::ShortDense { .. } => true,
        _ => false,
    }
}

/// The rows of the runs in a record of a value's kind, if they are not the runs themselves.
fn halves_in(value: &Record, runs: &[Run]) -> Option<[Run; 2]>
    requires { AreRuns runs.now }
    ensures some { IfSome result (λ halves. halves ≡ rows_for (kind_of value.now) runs.now) }
    ensures none { IfNone result (rows_for (kind_of value.now) runs.now ≡ runs.now) }
{
    if has_dense_rows(value) {
        halves(runs)
    } else {
        None
    }
}

/// The record of a value's kind that says these runs, or None if they need more rows than it has.
pub(crate) fn with_runs(value: &Record, runs: &[Run]) -> Option<Record>
    requires has_rows { 1 ≤ most_rows (kind_of value.now) }
    requires runs { AreRuns runs.now }
    requires suits { AllSuit (kind_of value.now) runs.now }
    ensures { IsRecordOf (kind_of value.now) (rows_for (kind_of value.now) runs.now) result }
{
    match halves_in(value, runs) {
        Some(halves) => with_rows(value, &halves),
        None => with_rows(value, runs),
    }
}

/// A record of a primary cell that says no page, as that version writes it.
pub fn empty_short(version: Version) -> Record
    ensures kind { kind_of result ≡ short_kind version }
    ensures is_map { IsMapRecord result }
    ensures empty { runs_in result ≡ [] }
{
    match version {
        Version::Three => Record::ShortExtents {
            rows: [NO_EXTENT; 4],
        },
        Version::Four => Record::ShortDense {
            rows: [NO_EXTENT; 4],
        },
    }
}

/// A record of extents of a chain's cell that says no page, as that version writes it.
pub fn empty_extents(version: Version) -> Record
    ensures kind { kind_of result ≡ chain_kind version }
    ensures is_map { IsMapRecord result }
    ensures empty { runs_in result ≡ [] }
{
    match version {
        Version::Three => Record::Extents {
            rows: [NO_EXTENT; 16],
        },
        Version::Four => Record::DenseExtents {
            rows: [NO_EXTENT; 22],
        },
    }
}

/// A record of holes that says no page.
pub fn empty_holes() -> Record
    ensures kind { kind_of result ≡ hole_kind }
    ensures is_map { IsMapRecord result }
    ensures empty { runs_in result ≡ [] }
{
    Record::Holes {
        rows: [NO_HOLE; 16],
    }
}
