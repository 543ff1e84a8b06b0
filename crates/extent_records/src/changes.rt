//! Changes of one record.
ghost use Rattle.std.specs.Prelude.{◌≡◌, ℕ, ◌≤◌, ◌<◌, [], ◌↔◌, IfOk, IsSome, IsTrue, OnErr, OnOk, length, true, false};
ghost use Rattle.extent_maps.specs.declared.run.PagePlace.TheVariants.{Absent, At, Hole};
ghost use Rattle.extent_maps.specs.Runs.{SamePlaces, home_at, place_of, with_place};
ghost use Rattle.cell_records.specs.Records.{kind_of};
ghost use Rattle.extent_records.specs.Rows.{runs_in};
ghost use Rattle.extent_records.specs.Writing.{IsLeastRecord, IsMapRecord, Rewrites, Suits, is_of_holes, most_rows, places_before, places_from, places_in, rows_for};

use crate::reading::put_record;
use crate::writing::with_runs;
use cell_records::limits::{FILE_PAGES, MAX_VOLUMES};
use cell_records::{Home, OutOfMemory, Record};
use extent_maps::{ExtentMap, PagePlace};
use std::alloc::Global;

/// The map that a record says.
pub(crate) fn map_of(alloc: Global, value: &Record) -> Result<ExtentMap, OutOfMemory>
    requires { IsMapRecord value.now }
    ensures { IfOk result (SamePlaces (runs_in value.now)) }
{
    let mut map = ExtentMap::new(alloc);
    put_record(&mut map, value)?;
    Ok(map)
}

/// Gives a record the places of a map, or leaves it if no record of its kind has room for them.
fn write_map(value: &mut Record, map: &ExtentMap) -> bool
    requires is_map { IsMapRecord value.old }
    requires suits { (page : ℕ) → Suits (kind_of value.old) (place_of map.now page) }
    ensures written { Rewrites (place_of map.now) value.old value.new result }
    ensures room { length (rows_for (kind_of value.old) map.now) ≤ most_rows (kind_of value.old)
        → IsTrue result }
{
    match with_runs(value, map.runs()) {
        Some(new) => {
            *value = new;
            true
        }
        None => false,
    }
}

/// Puts a page at a home. Returns false if and only if no record of that kind has room for the map
/// with that page there, since it needs more rows than the record has. Then, and after an error,
/// nothing has changed.
pub fn put_page(
    alloc: Global,
    value: &mut Record,
    page: u32,
    home: Home,
) -> Result<bool, OutOfMemory>
    requires is_map { IsMapRecord value.old }
    requires extents { is_of_holes (kind_of value.old) ≡ false }
    requires absent { places_in value.old page ≡ Absent }
    requires small { page < FILE_PAGES }
    ensures ok { IfOk result (Rewrites (with_place page (At home) (places_in value.old)) value.old
        value.new) }
    ensures err { OnErr result (value.new ≡ value.old) }
{
    prove!(home.vol.number() <= MAX_VOLUMES);
    let mut map = map_of(alloc, value)?;
    map.put(page, home)?;
    Ok(write_map(value, &map))
}

/// Keeps a page as a hole, in a record of holes. Returns false if and only if no record of that
/// kind has room for the changed map. Then, and after an error, nothing has changed.
pub fn keep_hole(alloc: Global, value: &mut Record, page: u32) -> Result<bool, OutOfMemory>
    requires is_map { IsMapRecord value.old }
    requires holes { is_of_holes (kind_of value.old) ≡ true }
    requires absent { places_in value.old page ≡ Absent }
    requires small { page < FILE_PAGES }
    ensures ok { IfOk result (Rewrites (with_place page Hole (places_in value.old)) value.old
        value.new) }
    ensures err { OnErr result (value.new ≡ value.old) }
{
    let mut map = map_of(alloc, value)?;
    map.keep_hole(page)?;
    Ok(write_map(value, &map))
}

/// Takes a page off. Returns false if and only if no record of that kind has room for the changed
/// map, since a page taken out of the middle of a row leaves two rows. Then, and after an error,
/// nothing has changed.
pub fn cut_page(alloc: Global, value: &mut Record, page: u32) -> Result<bool, OutOfMemory>
    requires { IsMapRecord value.old }
    ensures ok { IfOk result (Rewrites (with_place page Absent (places_in value.old)) value.old
        value.new) }
    ensures err { OnErr result (value.new ≡ value.old) }
{
    let mut map = map_of(alloc, value)?;
    map.cut(page)?;
    Ok(write_map(value, &map))
}

/// Moves a page that has a home to another one. Returns false if and only if no record of that kind
/// has room for the changed map. Then, and after an error, nothing has changed.
pub fn switch_page(
    alloc: Global,
    value: &mut Record,
    page: u32,
    home: Home,
) -> Result<bool, OutOfMemory>
    requires is_map { IsMapRecord value.old }
    requires there { IsSome (home_at (places_in value.old page)) }
    ensures ok { IfOk result (Rewrites (with_place page (At home) (places_in value.old)) value.old
        value.new) }
    ensures err { OnErr result (value.new ≡ value.old) }
{
    prove!(home.vol.number() <= MAX_VOLUMES);
    let mut map = map_of(alloc, value)?;
    map.switch(page, home)?;
    Ok(write_map(value, &map))
}

/// Takes all pages from one on off. There is always room for what is left. After an error nothing
/// has changed.
pub fn cut_from(alloc: Global, value: &mut Record, from: u32) -> Result<(), OutOfMemory>
    requires { IsMapRecord value.old }
    ensures ok { OnOk result (IsLeastRecord (kind_of value.old)
        (places_before from (places_in value.old)) value.new) }
    ensures err { OnErr result (value.new ≡ value.old) }
{
    let mut map = map_of(alloc, value)?;
    map.split_tail(alloc, from)?;
    write_map(value, &map);
    Ok(())
}

/// Takes all pages before one off. There is always room for what is left. So a copy of a record
/// that has no room for a change takes one of its halves, and `cut_from` leaves it the other. After
/// an error nothing has changed.
pub fn cut_to(alloc: Global, value: &mut Record, to: u32) -> Result<(), OutOfMemory>
    requires { IsMapRecord value.old }
    ensures ok { OnOk result (IsLeastRecord (kind_of value.old)
        (places_from to (places_in value.old)) value.new) }
    ensures err { OnErr result (value.new ≡ value.old) }
{
    let mut map = map_of(alloc, value)?;
    let tail = map.split_tail(alloc, to)?;
    write_map(value, &tail);
    Ok(())
}
