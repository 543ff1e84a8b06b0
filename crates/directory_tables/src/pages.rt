//! What a directory page has, and how rows are added and removed in place. `page` begins one of
//! zeros with these bytes, `clear` one without rows that was full of other bytes, and `with` reads
//! the page as it is with other bytes besides.

use crate::blocks::{is_idle, push_answer};
use crate::names::name_of;
use crate::text::{change, letter, push_bytes, push_digits, shown};
use directory_rows::from_directory_pages::{add_row, find_row, remove_row};
use directory_rows::{
    Kind, Page, RowsFault, StoreFault, Tag, clear_rows, count_rows, has_room, is_row_name,
    is_row_page,
};
use std::alloc::Global;

/// A page, and one that was kept.
#[derive(Drop)]
struct Desk {
    page: Page,
    kept: Page,
}

/// Adds a row to a directory page, if the name is one.
fn add(page: &mut Page, slot: u32, kind: Kind, name: &[u8]) -> bool {
    if !is_row_page(page) || !is_row_name(name) {
        return false;
    }
    add_row(page, Tag { slot, seq: 1 }, kind, name)
}

/// Removes a row of a directory page.
fn remove(page: &mut Page, name: &[u8]) -> bool {
    if !is_row_page(page) {
        return false;
    }
    remove_row(page, name)
}

fn push_found(found: Option<(Tag, Kind)>, out: &mut String) -> Option<()> {
    match found {
        Some((tag, kind)) => write!(out, "{}.{} {}", tag.slot, tag.seq, letter(kind)).ok(),
        None => out.push_str("none").ok(),
    }
}

/// Says yes or no.
fn push_yes(is_so: bool, out: &mut String) -> Option<()> {
    out.push_str(if is_so { "yes" } else { "no" }).ok()
}

/// Adds the row that a line tells: a slot, the letter of a kind, and a name.
fn add_told(alloc: Global, page: &mut Page, rest: &str, out: &mut String) -> Option<()> {
    let (slot, rest) = rest.split_once(' ')?;
    let (kind, name) = rest.split_once(' ')?;
    let slot = slot.parse().ok()?;
    let kind = if kind == "d" {
        Kind::Directory
    } else {
        Kind::File
    };
    let name = name_of(alloc, name)?;
    push_yes(add(page, slot, kind, &name), out)
}

/// Removes the row of a name, and says whether there was one.
fn remove_told(alloc: Global, page: &mut Page, name: &str, out: &mut String) -> Option<()> {
    let name = name_of(alloc, name)?;
    push_yes(remove(page, &name), out)
}

/// Says so many bytes from a place on.
fn bytes(page: &Page, rest: &str, out: &mut String) -> Option<()> {
    let (at, count) = rest.split_once(' ')?;
    let (_, after) = page.bytes().split_at_checked(at.parse().ok()?)?;
    let (bytes, _) = after.split_at_checked(count.parse().ok()?)?;
    push_digits(bytes, out).ok()
}

/// Says how the page is read with other bytes besides; it stays as it is.
fn with(alloc: Global, page: &Page, line: &str, out: &mut String) -> Option<()> {
    let mut page = page.copy(alloc).ok()?;
    change(alloc, &mut page, line)?;
    shown(alloc, &page, out)
}

/// Says how many rows the page has, or its row of a name, or whether there is room for one.
fn ask_rows(page: &Page, word: &str, name: &[u8], out: &mut String) -> Option<()> {
    if !is_row_page(page) {
        return out.push_str("no rows").ok();
    }
    match word {
        "count" => write!(out, "{}", count_rows(page)).ok(),
        "find" => push_found(find_row(page, name), out),
        _ => push_yes(is_row_name(name) && has_room(page, name), out),
    }
}

/// Says what the page answers.
fn ask(alloc: Global, desk: &Desk, word: &str, rest: &str, out: &mut String) -> Option<()> {
    match word {
        "rows" => shown(alloc, &desk.page, out),
        "all" => push_bytes(desk.page.bytes(), out),
        "bytes" => bytes(&desk.page, rest, out),
        "with" => with(alloc, &desk.page, rest, out),
        "count" | "find" | "room" => ask_rows(&desk.page, word, &name_of(alloc, rest)?, out),
        "same" => push_yes(desk.page.bytes() == desk.kept.bytes(), out),
        _ => None,
    }
}

/// Begins a page of zeros with these bytes, or one without rows that was full of other bytes
/// before, or keeps the page as it is.
fn set(alloc: Global, desk: &mut Desk, word: &str, line: &str) -> Option<()> {
    match word {
        "keep" => desk.kept = desk.page.copy(alloc).ok()?,
        _ => desk.page = Page::zeros(alloc).ok()?,
    }
    if word == "clear" {
        desk.page.set(0, b"other bytes");
        desk.page.set(8_000, b"and more");
        clear_rows(&mut desk.page);
    }
    change(alloc, &mut desk.page, line)
}

/// Does what a line says.
fn call(alloc: Global, desk: &mut Desk, line: &str, out: &mut String) -> Option<()> {
    let (word, rest) = line.split_once(' ').unwrap_or((line, ""));
    match word {
        "page" | "clear" | "keep" => set(alloc, desk, word, rest),
        "add" => add_told(alloc, &mut desk.page, rest, out),
        "remove" => remove_told(alloc, &mut desk.page, rest, out),
        _ => ask(alloc, desk, word, rest, out),
    }
}

/// Adds a line with what it answers.
fn push_line(
    alloc: Global,
    answers: &mut String,
    desk: &mut Desk,
    line: &str,
) -> Result<(), StoreFault> {
    let mut out = String::new(alloc);
    let is_read = is_idle(line) || call(alloc, desk, line, &mut out).is_some();
    push_answer(answers, line, is_read, out.as_str())
}

/// Adds the lines of pages, with what they answer.
pub fn push_pages(alloc: Global, answers: &mut String, lines: &str) -> Result<(), StoreFault> {
    let page = Page::zeros(alloc)?;
    let kept = Page::zeros(alloc)?;
    let mut desk = Desk { page, kept };
    for line in lines.lines() {
        push_line(alloc, answers, &mut desk, line)?;
    }
    Ok(())
}

/// Says what a fault of rows says.
pub fn fault(word: &str, out: &mut String) -> Option<()> {
    let fault = match word {
        "bad" => RowsFault::Bad,
        "no memory" => RowsFault::OutOfMemory,
        _ => return None,
    };
    write!(out, "{fault}").ok()
}
