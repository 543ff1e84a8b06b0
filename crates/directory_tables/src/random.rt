//! Random calls on a page and on a plain list of rows, side by side.
ghost use Rattle.std.specs.Prelude.{◌<◌};

use crate::text::shown;
use directory_rows::from_directory_pages::{add_row, find_row, remove_row};
use directory_rows::{Kind, Page, Tag, clear_rows, is_row_name, is_row_page};
use std::alloc::{AllocError, Global};

/// Numbers that are always the same ones.
#[derive(Clone, Copy)]
struct Random {
    state: u64,
}

impl Random {
    /// The next number, below 32,768.
    fn next(&mut self) -> u32
        ensures { result < 32_768 }
    {
        let next = (self.state % 2_147_483_648 * 1_103_515_245 + 12_345) % 2_147_483_648;
        self.state = next;
        (next / 65_536) as u32
    }
}

/// A row of the plain list: a slot, and a letter that its name has `times` times.
#[derive(Clone, Copy)]
struct Plain {
    slot: u32,
    letter: u8,
    times: usize,
}

/// One of 150 names of up to 246 bytes, so that not all of them fit into a page.
fn some_row(random: &mut Random) -> Plain {
    Plain {
        slot: random.next(),
        letter: b'a' + (random.next() % 3) as u8,
        times: 1 + 5 * (random.next() % 50) as usize,
    }
}

/// Where the list has a row with the name of this one.
fn place_in(list: &[Plain], row: &Plain) -> Option<usize> {
    list.iter().position(|other| other.letter == row.letter && other.times == row.times)
}

/// The bytes that the rows of a list take.
fn size_of(list: &[Plain]) -> usize {
    let mut size: usize = 0;
    for row in list {
        size = size.saturating_add(8).saturating_add(row.times);
    }
    size
}

/// Adds a row that the list does not have, and tells whether the page lacked it and took it as the
/// list says.
fn add(
    page: &mut Page,
    list: &mut Vec<Plain>,
    row: &Plain,
    name: &[u8],
) -> Result<bool, AllocError> {
    let fits = size_of(list).saturating_add(row.times) <= 8_168;
    let tag = Tag {
        slot: row.slot,
        seq: 7,
    };
    if !is_row_page(page) || !is_row_name(name) || find_row(page, name).is_some() {
        return Ok(false);
    }
    let added = add_row(page, tag, Kind::Directory, name);
    if added {
        list.push(*row)?;
    }
    Ok(added == fits)
}

/// Removes a row that the list has, and tells whether the page had it.
fn remove(page: &mut Page, list: &mut Vec<Plain>, at: usize, name: &[u8]) -> bool {
    if at >= list.len() || !is_row_page(page) {
        return false;
    }
    list.remove(at);
    remove_row(page, name)
}

/// Adds a random row or removes it, and tells whether the page did as the list says.
fn step(
    alloc: Global,
    page: &mut Page,
    list: &mut Vec<Plain>,
    random: &mut Random,
) -> Result<bool, AllocError> {
    let row = some_row(random);
    let name = vec![in alloc; row.letter; row.times]?;
    match place_in(list, &row) {
        None => add(page, list, &row, &name),
        Some(at) => Ok(remove(page, list, at, &name)),
    }
}

/// Adds a row of the list, as one of a page is shown.
fn push_plain(row: &Plain, out: &mut String) -> Result<(), AllocError> {
    if !out.is_empty() {
        out.push(' ')?;
    }
    write!(out, "{}.7 d ", row.slot)?;
    for _ in 0..row.times {
        write!(out, "{:02x}", row.letter)?;
    }
    Ok(())
}

/// Adds the rows of the list, as those of a page are shown.
fn push_list(list: &[Plain], out: &mut String) -> Result<(), AllocError> {
    for row in list {
        push_plain(row, out)?;
    }
    Ok(())
}

/// Whether a page has the rows of a list.
fn is_same(alloc: Global, page: &Page, list: &[Plain]) -> Option<bool> {
    let mut has = String::new(alloc);
    let mut says = String::new(alloc);
    shown(alloc, page, &mut has)?;
    push_list(list, &mut says).ok()?;
    Some(has.as_str() == says.as_str())
}

/// How many of `steps` steps went as the list says.
fn count_right(
    alloc: Global,
    random: &mut Random,
    page: &mut Page,
    list: &mut Vec<Plain>,
    steps: u32,
) -> Result<u32, AllocError> {
    let mut right: u32 = 0;
    for _ in 0..steps {
        if step(alloc, page, list, random)? {
            right = right.saturating_add(1);
        }
    }
    Ok(right)
}

/// Takes so many steps, and says how many of them went as the list says, and whether the page ends
/// as the list does.
fn push_steps(
    alloc: Global,
    random: &mut Random,
    page: &mut Page,
    list: &mut Vec<Plain>,
    steps: u32,
    out: &mut String,
) -> Option<()> {
    clear_rows(page);
    let right = count_right(alloc, random, page, list, steps).ok()?;
    write!(out, "{right} right, ").ok()?;
    out.push_str(if is_same(alloc, page, list)? {
        "the same rows"
    } else {
        "other rows"
    })
    .ok()
}

/// Says how many of the steps from a seed went as the list says, and whether the page ends as the
/// list does.
pub fn random_rows(alloc: Global, line: &str, out: &mut String) -> Option<()> {
    let (seed, steps) = line.split_once(' ')?;
    let mut random = Random {
        state: seed.parse().ok()?,
    };
    let steps = steps.parse().ok()?;
    let mut page = Page::zeros(alloc).ok()?;
    push_steps(
        alloc,
        &mut random,
        &mut page,
        &mut Vec::new(alloc),
        steps,
        out,
    )
}
