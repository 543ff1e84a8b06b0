//! Maps that are changed by words. `3@1:50` puts a page, `3` keeps it as a hole, `3+2@1:50` puts a
//! run where none of its pages is, and `-3` takes a page off.
ghost use Rattle.std.specs.Prelude.{◌+◌, ◌^◌, ◌≤◌};
ghost use Rattle.extent_records.specs.extent_maps.Runs.{FitsVolume};

use crate::random::random_calls;
use crate::words::{field_of, place_of, push_map};
use crate::writing::{dense_run, scattered, written};
use extent_records::limits::FILE_PAGES;
use extent_records::{ExtentField, ExtentMap, Home, OutOfMemory, PagePlace, Run, RunPlace, VolIx};
use std::alloc::Global;

/// Where the first of the pages stands.
fn first_place(field: &ExtentField) -> RunPlace
    ensures { field.now.first + field.now.count ≤ 2 ^ 32 → FitsVolume field.now.count result }
{
    match VolIx::new(field.vol) {
        Some(vol) => RunPlace::At(Home {
            vol,
            page: field.first,
        }),
        None => RunPlace::Holes,
    }
}

/// Puts a page of a file at its home, or keeps it as a hole, and tells whether it was absent.
pub fn put(map: &mut ExtentMap, page: u32, place: RunPlace) -> Result<bool, OutOfMemory> {
    if FILE_PAGES <= page {
        return Ok(false);
    }
    match map.home_of(page) {
        PagePlace::Absent => {}
        _ => return Ok(false),
    }
    match place {
        RunPlace::At(home) => map.put(page, home)?,
        RunPlace::Holes => map.keep_hole(page)?,
    }
    Ok(true)
}

/// Puts a page that is absent.
pub fn put_absent(map: &mut ExtentMap, page: u32, place: RunPlace) -> Option<()> {
    match put(map, page, place) {
        Ok(true) => Some(()),
        _ => None,
    }
}

/// Puts a run, and tells whether it had room.
pub fn put_run(map: &mut ExtentMap, field: &ExtentField) -> Option<bool> {
    let ExtentField {
        page,
        count,
        first,
        ..
    } = *field;
    if count == 0 || FILE_PAGES < count || FILE_PAGES - count < page || 100_000 < first {
        return None;
    }
    let run = Run {
        page,
        count,
        first: first_place(field),
    };
    map.put_run(&run).ok()
}

/// Does what one word says, and tells whether there was room.
fn step(map: &mut ExtentMap, word: &str) -> Option<bool> {
    if let Some(page) = word.strip_prefix('-') {
        map.cut(page.parse().ok()?).ok()?;
        return Some(true);
    }
    let field = field_of(word)?;
    if word.contains('+') {
        return put_run(map, &field);
    }
    put_absent(map, field.page, first_place(&field))?;
    Some(true)
}

/// Does what words say, and adds a line for each of them that is refused.
fn step_all(map: &mut ExtentMap, words: &str, refused: &mut String) -> Option<()> {
    for word in words.split(' ') {
        if !step(map, word)? {
            writeln!(refused, "{word} is refused").ok()?;
        }
    }
    Some(())
}

/// Says the runs after what words say.
fn runs(map: &mut ExtentMap, words: &str, out: &mut String) -> Option<()> {
    step_all(map, words, out)?;
    push_map(map, out).ok()
}

/// Says the runs of two maps.
fn push_two(front: &ExtentMap, tail: &ExtentMap, out: &mut String) -> Result<(), OutOfMemory> {
    push_map(front, out)?;
    out.push('\n')?;
    push_map(tail, out)
}

/// Says the two maps that come of parting one at a page.
fn parted(alloc: Global, map: &mut ExtentMap, rest: &str, out: &mut String) -> Option<()> {
    let (page, words) = rest.split_once(' ')?;
    step_all(map, words, out)?;
    let tail = map.split_tail(alloc, page.parse().ok()?).ok()?;
    push_two(map, &tail, out).ok()
}

/// Puts the pages of a whole file one after the other, in that order or from the last on.
fn put_whole(map: &mut ExtentMap, vol: VolIx, first: u32, is_rising: bool) -> Option<()> {
    for number in 0..FILE_PAGES {
        let page = if is_rising {
            number
        } else {
            FILE_PAGES - 1 - number
        };
        let home = Home {
            vol,
            page: first.saturating_add(page),
        };
        put_absent(map, page, RunPlace::At(home))?;
    }
    Some(())
}

/// Says the runs of a whole file.
fn whole_file(map: &mut ExtentMap, place: &str, is_rising: bool, out: &mut String) -> Option<()> {
    let (vol, first) = place_of(place)?;
    put_whole(map, VolIx::new(vol)?, first, is_rising)?;
    push_map(map, out).ok()
}

/// Puts `pairs` pairs of pages, the second of each on another volume.
fn put_pairs(map: &mut ExtentMap, pairs: u16) -> Option<()> {
    for page in 0..2 * u32::from(pairs) {
        let vol = VolIx::new(1 + page % 2)?;
        put_absent(map, page, RunPlace::At(Home { vol, page }))?;
    }
    Some(())
}

/// Cuts the second page of each pair.
fn cut_seconds(map: &mut ExtentMap, pairs: u16) -> Option<()> {
    for pair in 0..u32::from(pairs) {
        map.cut(2 * pair + 1).ok()?;
    }
    Some(())
}

/// Says how many runs some pairs of pages are, the second of each on another volume, and how
/// many are left when the second ones are cut.
fn every_second(map: &mut ExtentMap, pairs: &str, out: &mut String) -> Option<()> {
    let pairs = pairs.parse().ok()?;
    put_pairs(map, pairs)?;
    write!(out, "{} runs, then ", map.runs().len()).ok()?;
    cut_seconds(map, pairs)?;
    write!(out, "{}", map.runs().len()).ok()
}

/// Says what comes of words on a new map.
fn answer_on(
    alloc: Global,
    map: &mut ExtentMap,
    word: &str,
    rest: &str,
    out: &mut String,
) -> Option<()> {
    match word {
        "runs" => runs(map, rest, out),
        "parted" => parted(alloc, map, rest, out),
        "rising" => whole_file(map, rest, true, out),
        "falling" => whole_file(map, rest, false, out),
        "every-second" => every_second(map, rest, out),
        "random-map" => random_calls(alloc, map, rest, out),
        "dense-run" => dense_run(alloc, map, rest, out),
        "written" => written(alloc, map, rest, out),
        "scattered" => scattered(alloc, map, rest, out),
        _ => None,
    }
}

/// Says what comes of words on a map.
pub fn map_answer(alloc: Global, word: &str, rest: &str, out: &mut String) -> Option<()> {
    let mut map = ExtentMap::new(alloc);
    answer_on(alloc, &mut map, word, rest, out)
}
