//! Records that are written: by words, one after the other, and for a whole map. A record begins
//! with `short` or `chain` and its version. `3@1:50` puts a page, `-3` takes one off, `3..` takes
//! off the pages from one on, and `..3` those before one.
ghost use Rattle.std.specs.Prelude.{◌≡◌, ◌<◌, IfSome, false};
ghost use Rattle.extent_records.specs.cell_records.Records.{kind_of};
ghost use Rattle.extent_records.specs.Writing.{IsMapRecord, is_of_holes};

use crate::maps::{put_absent, put_run};
use crate::words::{field_of, push_fields, push_holes};
use extent_records::limits::FILE_PAGES;
use extent_records::{
    ExtentField, ExtentMap, Home, OutOfMemory, PagePlace, Record, RunPlace, Version, VolIx,
    as_dense, cut_from, cut_page, cut_to, empty_extents, empty_holes, empty_short, map_records,
    place_in, put_page, read_map, record_for, record_for_hole, used_rows,
};
use std::alloc::Global;

/// The version that a word names.
fn version_of(word: &str) -> Option<Version> {
    Version::from_number(word.parse().ok()?)
}

/// The page of a volume, if it is on one.
fn home_of(field: &ExtentField) -> Option<Home> {
    let vol = VolIx::new(field.vol)?;
    Some(Home {
        vol,
        page: field.first,
    })
}

/// A record of extents with no page.
pub fn empty_of(word: &str) -> Option<Record>
    ensures is_map { IfSome result IsMapRecord }
    ensures extents { IfSome result (λ r. is_of_holes (kind_of r) ≡ false) }
{
    match word {
        "short3" => Some(empty_short(Version::Three)),
        "short4" => Some(empty_short(Version::Four)),
        "chain3" => Some(empty_extents(Version::Three)),
        "chain4" => Some(empty_extents(Version::Four)),
        _ => None,
    }
}

/// Puts an absent page of a file at a volume's page, and tells whether it had room.
fn put(alloc: Global, value: &mut Record, field: &ExtentField) -> Option<bool>
    requires is_map { IsMapRecord value.old }
    requires extents { is_of_holes (kind_of value.old) ≡ false }
    ensures is_map { IfSome result (λ _. IsMapRecord value.new) }
    ensures extents { IfSome result (λ _. is_of_holes (kind_of value.new) ≡ false) }
{
    let home = home_of(field)?;
    let page = field.page;
    if FILE_PAGES <= page {
        return None;
    }
    match place_in(value, page) {
        PagePlace::Absent => {}
        _ => return None,
    }
    match put_page(alloc, value, page, home) {
        Ok(is_put) => Some(is_put),
        Err(_) => None,
    }
}

/// Cuts what one word says, and tells whether there was room.
fn cut(alloc: Global, value: &mut Record, word: &str) -> Option<bool>
    requires is_map { IsMapRecord value.old }
    requires extents { is_of_holes (kind_of value.old) ≡ false }
    ensures is_map { IfSome result (λ _. IsMapRecord value.new) }
    ensures extents { IfSome result (λ _. is_of_holes (kind_of value.new) ≡ false) }
{
    if let Some(from) = word.strip_suffix("..") {
        return match cut_from(alloc, value, from.parse().ok()?) {
            Ok(()) => Some(true),
            Err(_) => None,
        };
    }
    if let Some(to) = word.strip_prefix("..") {
        return match cut_to(alloc, value, to.parse().ok()?) {
            Ok(()) => Some(true),
            Err(_) => None,
        };
    }
    let page = word.strip_prefix('-')?;
    match cut_page(alloc, value, page.parse().ok()?) {
        Ok(is_cut) => Some(is_cut),
        Err(_) => None,
    }
}

/// Does what one word says, and tells whether there was room.
fn step(alloc: Global, value: &mut Record, word: &str) -> Option<bool>
    requires is_map { IsMapRecord value.old }
    requires extents { is_of_holes (kind_of value.old) ≡ false }
    ensures is_map { IfSome result (λ _. IsMapRecord value.new) }
    ensures extents { IfSome result (λ _. is_of_holes (kind_of value.new) ≡ false) }
{
    if word.contains('@') {
        return put(alloc, value, &field_of(word)?);
    }
    cut(alloc, value, word)
}

/// Does what words say, and adds a line for each of them that had no room.
fn step_all(alloc: Global, value: &mut Record, words: &str, refused: &mut String) -> Option<()>
    requires is_map { IsMapRecord value.old }
    requires extents { is_of_holes (kind_of value.old) ≡ false }
    ensures is_map { IfSome result (λ _. IsMapRecord value.new) }
    ensures extents { IfSome result (λ _. is_of_holes (kind_of value.new) ≡ false) }
{
    for word in words.split_terminator(' ') {
        if !step(alloc, value, word)? {
            writeln!(refused, "{word} has no room").ok()?;
        }
    }
    Some(())
}

/// The record that a text says.
fn record_of(alloc: Global, text: &str, refused: &mut String) -> Option<Record>
    ensures { IfSome result IsMapRecord }
{
    if text == "holes" {
        return Some(empty_holes());
    }
    let (kind, words) = text.split_once(' ').unwrap_or((text, ""));
    let mut value = empty_of(kind)?;
    step_all(alloc, &mut value, words, refused)?;
    Some(value)
}

/// A record that a text says, all of whose words have room.
fn whole_record(alloc: Global, text: &str) -> Option<Record>
    ensures { IfSome result IsMapRecord }
{
    let mut refused = String::new(alloc);
    let value = record_of(alloc, text, &mut refused)?;
    if !refused.is_empty() {
        return None;
    }
    Some(value)
}

/// Says the rows that a record uses.
pub fn push_listed(value: &Record, out: &mut String) -> Result<(), OutOfMemory> {
    match value {
        Record::Extents { rows } => push_fields(rows, out),
        Record::ShortExtents { rows } => push_fields(rows, out),
        Record::DenseExtents { rows } => push_fields(rows, out),
        Record::ShortDense { rows } => push_fields(rows, out),
        Record::Holes { rows } => push_holes(rows, out),
        _ => out.push_str("no rows"),
    }
}

/// Says what a record uses after what words say.
pub fn record(alloc: Global, text: &str, out: &mut String) -> Option<()> {
    let value = record_of(alloc, text, out)?;
    push_listed(&value, out).ok()
}

/// Says how many rows there are, used or not, and the used ones.
fn push_of_rows(rows: &[ExtentField], out: &mut String) -> Result<(), OutOfMemory> {
    write!(out, "of {} rows: ", rows.len())?;
    push_fields(rows, out)
}

/// Says how many rows the dense record for a value has, used or not, and its used ones.
fn push_dense(alloc: Global, value: &Record, out: &mut String) -> Result<(), OutOfMemory>
    requires { IsMapRecord value.now }
{
    match &as_dense(alloc, value)? {
        Record::DenseExtents { rows } => push_of_rows(rows, out),
        Record::ShortDense { rows } => push_of_rows(rows, out),
        Record::Holes { rows } => write!(out, "of {} rows: holes", rows.len()),
        _ => out.push_str("no record of the last version"),
    }
}

/// Says a record as the last version has it.
pub fn dense(alloc: Global, text: &str, out: &mut String) -> Option<()> {
    let value = whole_record(alloc, text)?;
    push_dense(alloc, &value, out).ok()
}

/// Puts one run into a new map.
fn put_one(map: &mut ExtentMap, word: &str) -> Option<()> {
    match put_run(map, &field_of(word)?) {
        Some(true) => Some(()),
        _ => None,
    }
}

/// Says the only record of a run, as the last version has it.
pub fn dense_run(alloc: Global, map: &mut ExtentMap, word: &str, out: &mut String) -> Option<()> {
    put_one(map, word)?;
    let Ok(records) = map_records(alloc, map, Version::Three) else {
        return None;
    };
    match records.as_slice() {
        [only] => push_dense(alloc, only, out).ok(),
        _ => None,
    }
}

/// Says the rows of the only record of a run, as a version writes it.
pub fn written(alloc: Global, map: &mut ExtentMap, rest: &str, out: &mut String) -> Option<()> {
    let (version, word) = rest.split_once(' ')?;
    let version = version_of(version)?;
    put_one(map, word)?;
    let records = map_records(alloc, map, version).ok()?;
    match records.as_slice() {
        [only] => push_listed(only, out).ok(),
        _ => None,
    }
}

/// Says which record was chosen, counted from 1.
fn push_choice(choice: Option<usize>, out: &mut String) -> Option<()> {
    out.push_str(match choice {
        Some(0) => "the first",
        Some(1) => "the second",
        Some(_) => "another",
        None => "none",
    })
    .ok()
}

/// Which of two records takes a page that neither has, at a home or as a hole.
fn chosen(
    alloc: Global,
    first: &Record,
    second: &Record,
    page: u32,
    home: Option<Home>,
) -> Result<Option<usize>, OutOfMemory>
    requires first { IsMapRecord first.now }
    requires second { IsMapRecord second.now }
{
    if FILE_PAGES <= page {
        return Ok(None);
    }
    match (place_in(first, page), place_in(second, page)) {
        (PagePlace::Absent, PagePlace::Absent) => match home {
            Some(home) => record_for(alloc, &[*first, *second], page, home),
            None => record_for_hole(alloc, &[*first, *second], page),
        },
        _ => Ok(None),
    }
}

/// Says which of two records takes a page, at the home that a word names or as a hole.
pub fn choose(alloc: Global, rest: &str, out: &mut String) -> Option<()> {
    let (word, text) = rest.split_once(": ")?;
    let field = field_of(word)?;
    let (one, other) = text.split_once(" | ")?;
    let first = whole_record(alloc, one)?;
    let second = whole_record(alloc, other)?;
    let choice = chosen(alloc, &first, &second, field.page, home_of(&field)).ok()?;
    push_choice(choice, out)
}

/// Says whether an empty record that stands alone takes a hole.
pub fn choose_hole_alone(alloc: Global, kind: &str, out: &mut String) -> Option<()> {
    let value = whole_record(alloc, kind)?;
    match place_in(&value, 3) {
        PagePlace::Absent => push_choice(record_for_hole(alloc, &[value], 3).ok()?, out),
        _ => None,
    }
}

/// Puts `homes` pages at homes, every fourth one, and keeps `holes` pages between them as holes.
fn put_scattered(map: &mut ExtentMap, homes: u16, holes: u16) -> Option<()> {
    let vol = VolIx::new(1)?;
    for number in 0..u32::from(homes) {
        let page = 4 * number;
        put_absent(map, page, RunPlace::At(Home { vol, page }))?;
    }
    for number in 0..u32::from(holes) {
        put_absent(map, 4 * number + 2, RunPlace::Holes)?;
    }
    Some(())
}

/// Whether records are read to the runs of a map.
fn are_read(alloc: Global, records: &[Record], map: &ExtentMap) -> Result<bool, OutOfMemory> {
    match read_map(alloc, records)? {
        Some(again) => Ok(again.runs() == map.runs()),
        None => Ok(false),
    }
}

/// Says how many rows each record of a map uses, and whether they are read to the same runs.
fn push_records(
    alloc: Global,
    records: &[Record],
    map: &ExtentMap,
    out: &mut String,
) -> Result<(), OutOfMemory> {
    out.push_str("rows")?;
    for value in records {
        write!(out, " {}", used_rows(value))?;
    }
    let is_same = are_read(alloc, records, map)?;
    write!(out, ", read again: {is_same}")
}

/// Says how many rows each record of a map uses if the map has these numbers of runs of homes and
/// of holes, and whether they are read to the same runs.
pub fn scattered(alloc: Global, map: &mut ExtentMap, rest: &str, out: &mut String) -> Option<()> {
    let (version, rest) = rest.split_once(' ')?;
    let (homes, holes) = rest.split_once(' ')?;
    let version = version_of(version)?;
    put_scattered(map, homes.parse().ok()?, holes.parse().ok()?)?;
    let records = map_records(alloc, map, version).ok()?;
    push_records(alloc, records.as_slice(), map, out).ok()
}
