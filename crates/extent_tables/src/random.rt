//! Random calls on a map: below a row stand the answers of each ten calls, and the runs after them.
ghost use Rattle.std.specs.Prelude.{◌<◌, IfSome};
ghost use Rattle.extent_records.specs.extent_maps.Runs.{IsRun};

use crate::maps::put;
use crate::words::{push_map, two_numbers};
use extent_records::limits::FILE_PAGES;
use extent_records::{ExtentMap, Home, OutOfMemory, PagePlace, Run, RunPlace, VolIx};
use std::alloc::Global;

/// Numbers that are always the same ones.
#[derive(Clone, Copy)]
pub struct Random {
    pub state: u64,
}

impl Random {
    /// The next number, below 32,768.
    pub fn next(&mut self) -> u32
        ensures { result < 32_768 }
    {
        let next = (self.state % 2_147_483_648 * 1_103_515_245 + 12_345) % 2_147_483_648;
        self.state = next;
        (next / 65_536) as u32
    }
}

/// One of the first or the last 48 pages of a file.
pub fn some_page(random: &mut Random) -> u32
    ensures { result < FILE_PAGES }
{
    let number = random.next() % 96;
    if number < 48 { number } else { 65_440 + number }
}

/// A home on one of two volumes: pages one after another often get homes that are so too.
pub fn some_home(random: &mut Random, page: u32) -> Option<Home>
    requires { page < FILE_PAGES }
    ensures { IfSome result (λ home. home.page < 100_000) }
{
    let vol = VolIx::new(1 + random.next() % 2)?;
    let gap = 100 * (random.next() % 2);
    Some(Home {
        vol,
        page: 1_000 + page + gap,
    })
}

/// A word for what is done or is not.
pub fn word(is_done: bool) -> &'static str {
    if is_done { "yes" } else { "no" }
}

/// Adds a word for what is done or is not.
fn push_word(is_done: Result<bool, OutOfMemory>, out: &mut String) -> Result<(), OutOfMemory> {
    out.push_str(word(is_done?))
}

/// Adds a home in words.
fn push_home(home: Result<Option<Home>, OutOfMemory>, out: &mut String) -> Result<(), OutOfMemory> {
    match home? {
        Some(home) => write!(out, "{}:{}", home.vol.number(), home.page),
        None => out.push_str("no"),
    }
}

/// Puts a page that has a home at another one, and tells the old one.
fn switch(map: &mut ExtentMap, page: u32, home: Home) -> Result<Option<Home>, OutOfMemory> {
    match map.home_of(page) {
        PagePlace::At(_) => Ok(Some(map.switch(page, home)?)),
        _ => Ok(None),
    }
}

/// A run of up to eight pages from one on, at the home or as holes.
fn some_run(random: &mut Random, page: u32, home: Home) -> Run
    requires page { page < FILE_PAGES }
    requires home { home.page < 100_000 }
    ensures { IsRun result }
{
    let count = (1 + random.next() % 8).min(FILE_PAGES - page);
    let first = if random.next() % 4 == 0 {
        RunPlace::Holes
    } else {
        RunPlace::At(home)
    };
    Run { page, count, first }
}

/// One call at a page, and what it answers.
fn push_call(
    random: &mut Random,
    map: &mut ExtentMap,
    page: u32,
    home: Home,
    out: &mut String,
) -> Result<(), OutOfMemory>
    requires page { page < FILE_PAGES }
    requires home { home.page < 100_000 }
{
    match random.next() % 16 {
        0..=4 => push_word(put(map, page, RunPlace::At(home)), out),
        5..=7 => push_word(put(map, page, RunPlace::Holes), out),
        8..=10 => push_home(map.cut(page), out),
        11..=12 => push_home(switch(map, page, home), out),
        13..=14 => push_word(map.put_run(&some_run(random, page, home)), out),
        _ => push_word(Ok(false), out),
    }
}

/// One call, and what it answers.
fn step(random: &mut Random, map: &mut ExtentMap, out: &mut String) -> Option<()> {
    let page = some_page(random);
    let home = some_home(random, page)?;
    push_call(random, map, page, home, out).ok()?;
    out.push(' ').ok()
}

/// Says the front of a map that was parted at a page.
fn push_front(map: &ExtentMap, from: u32, out: &mut String) -> Option<()> {
    write!(out, "/ before {from}: ").ok()?;
    push_map(map, out).ok()?;
    out.push('\n').ok()
}

/// Parts the map at a page, goes on with the tail, and says the front.
fn split(alloc: Global, map: &mut ExtentMap, from: u32, out: &mut String) -> Option<()> {
    let tail = map.split_tail(alloc, from).ok()?;
    let is_said = push_front(map, from, out);
    *map = tail;
    is_said
}

/// Says the runs of the map at the end of a line.
fn push_runs(map: &ExtentMap, out: &mut String) -> Result<(), OutOfMemory> {
    out.push_str("| ")?;
    push_map(map, out)?;
    out.push('\n')
}

/// Says what random calls on a map answer, and its runs after each tenth. After every 64th call the
/// map is parted at a random page.
fn push_calls(
    alloc: Global,
    random: &mut Random,
    map: &mut ExtentMap,
    calls: u32,
    out: &mut String,
) -> Option<()> {
    for call in 0..calls {
        step(random, map, out)?;
        if call % 64 == 63 {
            let page = some_page(random);
            split(alloc, map, page, out)?;
        }
        if call % 10 == 9 {
            push_runs(map, out).ok()?;
        }
    }
    Some(())
}

/// Says what random calls on a map answer: a row has the seed and the number of calls.
pub fn random_calls(
    alloc: Global,
    map: &mut ExtentMap,
    rest: &str,
    out: &mut String,
) -> Option<()> {
    let (seed, calls) = two_numbers(rest)?;
    let mut random = Random { state: seed };
    push_calls(alloc, &mut random, map, calls, out)
}
