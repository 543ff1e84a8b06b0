//! Random calls on a directory and on a plain list of tags, side by side.
ghost use Rattle.std.specs.Prelude.{◌<◌};
ghost use Rattle.table_tables.specs.Trial.{IsTrial};

use crate::random::{Random, two_numbers};
use crate::trial::Trial;
use fileset_table::Tag;
use std::alloc::Global;

/// A tag that was ever in use, and the page of the cell that it leads to.
#[derive(Clone, Copy)]
struct Entry {
    tag: Tag,
    page: Option<u32>,
}

/// The last sequence of a slot, or 0.
fn last_sequence(list: &[Entry], slot: u32) -> u16 {
    list.iter()
        .filter(|entry| entry.tag.slot == slot)
        .map(|entry| entry.tag.seq)
        .max()
        .unwrap_or(0)
}

/// Whether a tag of the slot is in use.
fn is_used(list: &[Entry], slot: u32) -> bool {
    list.iter()
        .any(|entry| entry.tag.slot == slot && entry.page.is_some())
}

/// Whether the tag's slot is free, and its sequence the next one.
fn is_next(list: &[Entry], tag: Tag) -> bool {
    let next = last_sequence(list, tag.slot).checked_add(1);
    tag.slot != 0 && !is_used(list, tag.slot) && next == Some(tag.seq)
}

/// Adds a tag that leads to the cell of that page.
fn add(list: &mut Vec<Entry>, tag: Tag, page: u32) -> Option<()> {
    let page = Some(page);
    list.push(Entry { tag, page }).ok()
}

/// Enters a cell, and tells whether the tag is one that could be taken.
fn enter(trial: &mut Trial, list: &mut Vec<Entry>, page: u32) -> Option<bool>
    requires { IsTrial trial.old.pages trial.old.dir trial.old.last }
    ensures { IsTrial trial.new.pages trial.new.dir trial.new.last }
{
    let tag = trial.enter(page)?;
    let next = is_next(list, tag);
    add(list, tag, page)?;
    Some(next)
}

/// Enters a cell as a tag of a slot that was never used, and tells whether that was done if
/// and only if there is a page for it.
fn enter_as(
    random: &mut Random,
    trial: &mut Trial,
    list: &mut Vec<Entry>,
    page: u32,
) -> Option<bool>
    requires { IsTrial trial.old.pages trial.old.dir trial.old.last }
    ensures { IsTrial trial.new.pages trial.new.dir trial.new.last }
{
    let slot = trial.last().saturating_add(1 + random.next() % 300);
    let seq = 65_532 + (random.next() % 4) as u16;
    let tag = Tag { slot, seq };
    let is_done = trial.enter_as(tag, page)?;
    if is_done {
        add(list, tag, page)?;
    }
    Some(is_done == matches!(slot / 1_022, 0 | 3 | 7))
}

/// Makes a tag that is in use lead to another cell, or to none.
fn change(trial: &mut Trial, entry: &mut Entry, page: Option<u32>) -> Option<bool>
    requires { IsTrial trial.old.pages trial.old.dir trial.old.last }
    ensures { IsTrial trial.new.pages trial.new.dir trial.new.last }
{
    if entry.page.is_none() {
        return Some(true);
    }
    entry.page = page;
    match page {
        Some(page) => trial.switch(entry.tag, page),
        None => trial.drop_tag(entry.tag),
    }
}

/// Makes a random tag of the list lead to another cell, or to none, if it is in use.
fn change_one(
    random: &mut Random,
    trial: &mut Trial,
    list: &mut [Entry],
    page: Option<u32>,
) -> Option<bool>
    requires { IsTrial trial.old.pages trial.old.dir trial.old.last }
    ensures { IsTrial trial.new.pages trial.new.dir trial.new.last }
{
    if list.is_empty() {
        return Some(true);
    }
    let place = random.next() as usize % list.len();
    change(trial, &mut list[place], page)
}

/// One call on both, and whether what it answered may be.
fn step(random: &mut Random, trial: &mut Trial, list: &mut Vec<Entry>) -> Option<bool>
    requires { IsTrial trial.old.pages trial.old.dir trial.old.last }
    ensures { IsTrial trial.new.pages trial.new.dir trial.new.last }
{
    let page = random.next();
    match random.next() % 16 {
        0..=4 => enter(trial, list, page),
        5..=6 => enter_as(random, trial, list, page),
        7..=9 => change_one(random, trial, list, Some(page)),
        _ => change_one(random, trial, list, None),
    }
}

/// Whether each tag so far leads where the list says.
fn is_same(trial: &Trial, list: &[Entry]) -> bool
    requires { IsTrial trial.now.pages trial.now.dir trial.now.last }
{
    list.iter().all(|entry| trial.look(entry.tag) == entry.page)
}

/// How many of the calls come before the first after which the two are not the same. The directory
/// has pages with the indexes 0, 7 and 3.
fn same_calls(
    alloc: Global,
    random: &mut Random,
    trial: &mut Trial,
    list: &mut Vec<Entry>,
    calls: u32,
) -> Option<u32>
    requires { IsTrial trial.old.pages trial.old.dir trial.old.last }
{
    trial.add(alloc, 0)?;
    trial.add(alloc, 7)?;
    trial.add(alloc, 3)?;
    for call in 0..calls {
        if !step(random, trial, list)? || !is_same(trial, list) {
            return Some(call);
        }
        if call % 64 == 63 && !trial.reopen(alloc)? {
            return Some(call);
        }
    }
    Some(calls)
}

/// Says how many calls both answer alike: a line has the seed and the number of calls.
pub fn random_tags(alloc: Global, line: &str, out: &mut String) -> Option<()> {
    let (seed, calls) = two_numbers(line)?;
    let mut random = Random { state: seed };
    let mut trial = Trial::new(alloc);
    let mut list = Vec::new(alloc);
    let same = same_calls(alloc, &mut random, &mut trial, &mut list, calls)?;
    write!(out, "{same} alike").ok()
}
