//! The map that records say.
ghost use Rattle.std.specs.Prelude.{◌≡◌, ◌+◌, ◌≤◌, ◌^◌, ◌∷◌, [], ◌↔◌, IfOk, IfSome, IfNone, IsSome, IsTrue};
ghost use Rattle.std.specs.List.{flat_map};
ghost use Rattle.cell_records.specs.domain_base.Limits.{file_pages};
ghost use Rattle.extent_records.specs.Rows.{AreOneMap, IsMapOf, IsPlaced, Puts, hole_run, holes_at, run_of, runs_at, runs_in, runs_of};

use cell_records::limits::FILE_PAGES;
use cell_records::{ExtentField, HoleField, Home, OutOfMemory, Record, VolIx};
use extent_maps::{ExtentMap, Run, RunPlace};
use std::alloc::Global;

/// How many pages a volume can have. Their numbers have 32 bits.
const VOLUME_NUMBERS: u64 = 4_294_967_296;

/// Whether the `count` pages from `page` on are one or more pages of a file.
fn is_in_file(page: u32, count: u32) -> bool
    ensures { IsTrue result ↔ ((1 ≤ count) × (page + count ≤ file_pages)) }
{
    1 <= count && u64::from(page) + u64::from(count) <= u64::from(FILE_PAGES)
}

/// Whether the `count` pages from `first` on have numbers that a volume's pages can have.
fn is_on_volume(first: u32, count: u32) -> bool
    ensures { IsTrue result ↔ (first + count ≤ 2 ^ 32) }
{
    u64::from(first) + u64::from(count) <= VOLUME_NUMBERS
}

/// The pages of a row, if they are a file's and stand on one of the volumes 1 to 8.
fn run_at(row: &ExtentField) -> Option<Run>
    ensures some { IfSome result (λ run. (run ≡ run_of row.now) × IsPlaced run) }
    ensures none { IfNone result (IsPlaced (run_of row.now) → ⊥) }
{
    let vol = VolIx::new(row.vol)?;
    if is_in_file(row.page, row.count) && is_on_volume(row.first, row.count) {
        return Some(Run {
            page: row.page,
            count: row.count,
            first: RunPlace::At(Home {
                vol,
                page: row.first,
            }),
        });
    }
    None
}

/// The pages of a row of holes, if they are a file's.
fn hole_at(row: &HoleField) -> Option<Run>
    ensures some { IfSome result (λ run. (run ≡ hole_run row.now) × IsPlaced run) }
    ensures none { IfNone result (IsPlaced (hole_run row.now) → ⊥) }
{
    if is_in_file(row.page, row.count) {
        return Some(Run {
            page: row.page,
            count: row.count,
            first: RunPlace::Holes,
        });
    }
    None
}

/// Puts a run to the map. Returns false if one of its pages is already there.
fn put_run(map: &mut ExtentMap, run: &Run) -> Result<bool, OutOfMemory>
    requires { IsPlaced run.now }
    ensures { IfOk result (Puts (run.now ∷ []) map.old map.new) }
{
    map.put_run(run)
}

/// Puts the pages of a row to the map. Returns false if they have no place, or one of them is
/// already there.
fn put_extent(map: &mut ExtentMap, row: &ExtentField) -> Result<bool, OutOfMemory>
    ensures { IfOk result (Puts (runs_at row.now) map.old map.new) }
{
    if row.count == 0 {
        return Ok(true);
    }
    match run_at(row) {
        Some(run) => put_run(map, &run),
        None => Ok(false),
    }
}

/// Keeps the pages of a row as holes. Returns false if they are no file's, or one of them is
/// already there.
fn put_hole(map: &mut ExtentMap, row: &HoleField) -> Result<bool, OutOfMemory>
    ensures { IfOk result (Puts (holes_at row.now) map.old map.new) }
{
    if row.count == 0 {
        return Ok(true);
    }
    match hole_at(row) {
        Some(run) => put_run(map, &run),
        None => Ok(false),
    }
}

/// Puts the pages of the rows to the map. Returns false if some have no place, or one of them would
/// be there twice.
fn put_extents(map: &mut ExtentMap, rows: &[ExtentField]) -> Result<bool, OutOfMemory>
    ensures { IfOk result (Puts (flat_map runs_at rows.now) map.old map.new) }
{
    for row in rows {
        if !put_extent(map, row)? {
            return Ok(false);
        }
    }
    Ok(true)
}

/// Puts the pages of rows of holes to the map. Returns false if one of them would be there twice,
/// or is no page of a file.
fn put_holes(map: &mut ExtentMap, rows: &[HoleField]) -> Result<bool, OutOfMemory>
    ensures { IfOk result (Puts (flat_map holes_at rows.now) map.old map.new) }
{
    for row in rows {
        if !put_hole(map, row)? {
            return Ok(false);
        }
    }
    Ok(true)
}

/// Puts the pages that a record names to the map. Returns false if some have no place, or one of
/// them would be there twice.
pub(crate) fn put_record(map: &mut ExtentMap, value: &Record) -> Result<bool, OutOfMemory>
    ensures { IfOk result (Puts (runs_in value.now) map.old map.new) }
{
    match value {
        Record::Extents { rows } => put_extents(map, rows),
        Record::ShortExtents { rows } => put_extents(map, rows),
        Record::DenseExtents { rows } => put_extents(map, rows),
        Record::ShortDense { rows } => put_extents(map, rows),
        Record::Holes { rows } => put_holes(map, rows),
        _ => Ok(true),
    }
}

/// Puts the pages that the records name to the map. Returns false if some have no place, or one of
/// them would be there twice.
fn put_records(map: &mut ExtentMap, records: &[Record]) -> Result<bool, OutOfMemory>
    ensures { IfOk result (Puts (runs_of records.now) map.old map.new) }
{
    for value in records {
        if !put_record(map, value)? {
            return Ok(false);
        }
    }
    Ok(true)
}

/// The map that a chain's records say, whatever their order. Returns None if and only if a page
/// stands twice in them, as an extent or a hole, or a row's pages are no file's or have no place:
/// on no volume from 1 to 8, or with numbers that no volume's page has.
pub fn read_map(alloc: Global, records: &[Record]) -> Result<Option<ExtentMap>, OutOfMemory>
    ensures some { IfOk result (λ map. IsSome map ↔ AreOneMap records.now) }
    ensures map { IfOk result (λ map. IfSome map (IsMapOf records.now)) }
{
    let mut map = ExtentMap::new(alloc);
    if put_records(&mut map, records)? {
        Ok(Some(map))
    } else {
        Ok(None)
    }
}
