//! Random calls on a record: below a row stand the answers of each ten calls, and the rows that are
//! used after them.
ghost use Rattle.std.specs.Prelude.{◌≡◌, ◌<◌, OnOk, true, false};
ghost use Rattle.extent_records.specs.cell_records.Records.{kind_of};
ghost use Rattle.extent_records.specs.Writing.{IsMapRecord, is_of_holes};

use crate::random::{Random, some_home, some_page, word};
use crate::words::two_numbers;
use crate::writing::{empty_of, push_listed};
use extent_records::limits::FILE_PAGES;
use extent_records::{
    Home, OutOfMemory, PagePlace, Record, cut_from, cut_page, cut_to, empty_holes, keep_hole,
    place_in, put_page, switch_page,
};
use std::alloc::Global;

/// Puts a page at a home, if it is absent.
fn put(alloc: Global, value: &mut Record, page: u32, home: Home) -> Result<bool, OutOfMemory>
    requires is_map { IsMapRecord value.old }
    requires extents { is_of_holes (kind_of value.old) ≡ false }
    requires small { page < FILE_PAGES }
    ensures is_map { OnOk result (IsMapRecord value.new) }
    ensures kind { OnOk result (kind_of value.new ≡ kind_of value.old) }
{
    match place_in(value, page) {
        PagePlace::Absent => put_page(alloc, value, page, home),
        _ => Ok(false),
    }
}

/// Puts a page that has a home at another.
fn switch(alloc: Global, value: &mut Record, page: u32, home: Home) -> Result<bool, OutOfMemory>
    requires is_map { IsMapRecord value.old }
    ensures is_map { OnOk result (IsMapRecord value.new) }
    ensures kind { OnOk result (kind_of value.new ≡ kind_of value.old) }
{
    match place_in(value, page) {
        PagePlace::At(_) => switch_page(alloc, value, page, home),
        _ => Ok(false),
    }
}

/// Keeps a page as a hole, if it is absent.
fn keep(alloc: Global, value: &mut Record, page: u32) -> Result<bool, OutOfMemory>
    requires is_map { IsMapRecord value.old }
    requires holes { is_of_holes (kind_of value.old) ≡ true }
    requires small { page < FILE_PAGES }
    ensures is_map { OnOk result (IsMapRecord value.new) }
    ensures kind { OnOk result (kind_of value.new ≡ kind_of value.old) }
{
    match place_in(value, page) {
        PagePlace::Absent => keep_hole(alloc, value, page),
        _ => Ok(false),
    }
}

/// Takes off the pages from one on, or those before it.
fn cut_part(alloc: Global, value: &mut Record, page: u32, front: bool) -> Result<bool, OutOfMemory>
    requires { IsMapRecord value.old }
    ensures is_map { OnOk result (IsMapRecord value.new) }
    ensures kind { OnOk result (kind_of value.new ≡ kind_of value.old) }
{
    if front {
        cut_to(alloc, value, page)?;
    } else {
        cut_from(alloc, value, page)?;
    }
    Ok(true)
}

/// One call on a record of extents, and whether it was done.
fn step_extents(alloc: Global, random: &mut Random, value: &mut Record) -> Result<bool, OutOfMemory>
    requires is_map { IsMapRecord value.old }
    requires extents { is_of_holes (kind_of value.old) ≡ false }
    ensures is_map { OnOk result (IsMapRecord value.new) }
    ensures kind { OnOk result (kind_of value.new ≡ kind_of value.old) }
{
    let page = some_page(random);
    let Some(home) = some_home(random, page) else {
        return Ok(false);
    };
    match random.next() % 32 {
        0..=15 => put(alloc, value, page, home),
        16..=23 => cut_page(alloc, value, page),
        24..=29 => switch(alloc, value, page, home),
        30 => cut_part(alloc, value, page, false),
        _ => cut_part(alloc, value, page, true),
    }
}

/// One call on a record of holes, and whether it was done.
fn step_holes(alloc: Global, random: &mut Random, value: &mut Record) -> Result<bool, OutOfMemory>
    requires is_map { IsMapRecord value.old }
    requires holes { is_of_holes (kind_of value.old) ≡ true }
    ensures is_map { OnOk result (IsMapRecord value.new) }
    ensures kind { OnOk result (kind_of value.new ≡ kind_of value.old) }
{
    let page = some_page(random);
    match random.next() % 32 {
        0..=19 => keep(alloc, value, page),
        20..=29 => cut_page(alloc, value, page),
        30 => cut_part(alloc, value, page, false),
        _ => cut_part(alloc, value, page, true),
    }
}

/// Adds an answer, and after every tenth the rows that are used.
fn push_answer(
    call: u32,
    is_done: bool,
    value: &Record,
    out: &mut String,
) -> Result<(), OutOfMemory> {
    out.push_str(word(is_done))?;
    out.push(' ')?;
    if call % 10 == 9 {
        out.push_str("| ")?;
        push_listed(value, out)?;
        out.push('\n')?;
    }
    Ok(())
}

/// Says what random calls on a record of extents answer.
fn random_extents(
    alloc: Global,
    empty: &Record,
    seed: u64,
    calls: u32,
    out: &mut String,
) -> Result<(), OutOfMemory>
    requires is_map { IsMapRecord empty.now }
    requires extents { is_of_holes (kind_of empty.now) ≡ false }
{
    let mut random = Random { state: seed };
    let mut value = *empty;
    for call in 0..calls {
        let is_done = step_extents(alloc, &mut random, &mut value)?;
        push_answer(call, is_done, &value, out)?;
    }
    Ok(())
}

/// Says what random calls on a record of holes answer.
fn random_holes(alloc: Global, seed: u64, calls: u32, out: &mut String) -> Result<(), OutOfMemory> {
    let mut random = Random { state: seed };
    let mut value = empty_holes();
    for call in 0..calls {
        let is_done = step_holes(alloc, &mut random, &mut value)?;
        push_answer(call, is_done, &value, out)?;
    }
    Ok(())
}

/// Says what random calls on a record answer. A row has the kind of the record, the seed and the
/// number of calls.
pub fn random_records(alloc: Global, rest: &str, out: &mut String) -> Option<()> {
    let (kind, rest) = rest.split_once(' ')?;
    let (seed, calls) = two_numbers(rest)?;
    if kind == "holes" {
        return random_holes(alloc, seed, calls, out).ok();
    }
    random_extents(alloc, &empty_of(kind)?, seed, calls, out).ok()
}
