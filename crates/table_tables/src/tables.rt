//! The fileset table, read from pages that were written by hand. `page` puts bytes on a page,
//! `with` reads it with other bytes besides, and `read` takes its table, which the other calls ask
//! or change.

use crate::blocks::{is_idle, push_answer};
use crate::lines::{push_bytes, push_cell, push_table, put_line};
use fileset_table::{
    CellAt, FilesetNo, FilesetTable, OutOfMemory, Page, SlotItem, TableFault, a_fileset_changes,
    written_and_read,
};
use std::alloc::Global;

/// How often clones are made at most.
const MOST_MADE: u64 = 0x7fff_ffff_ffff_ffff;

/// A page, and a table that was read of it.
#[derive(Drop)]
struct Desk {
    page: Page,
    table: FilesetTable,
}

/// Takes the table of the page, and says it.
fn read(alloc: Global, desk: &mut Desk, out: &mut String) -> Option<()> {
    match FilesetTable::read(alloc, &desk.page) {
        Ok(table) => {
            desk.table = table;
            push_table(&desk.table, out).ok()
        }
        Err(TableFault::Bad) => out.push_str("bad").ok(),
        Err(TableFault::OutOfMemory) => None,
    }
}

/// Says whether a page is bad once it has other bytes besides.
fn push_with(alloc: Global, page: &mut Page, change: &str, out: &mut String) -> Option<()> {
    put_line(alloc, page, change)?;
    match FilesetTable::read(alloc, page) {
        Ok(_) => out.push_str("a table").ok(),
        Err(TableFault::Bad) => out.push_str("bad").ok(),
        Err(TableFault::OutOfMemory) => None,
    }
}

/// Says whether the page is bad once it has other bytes besides; it stays as it is.
fn with(alloc: Global, page: &Page, change: &str, out: &mut String) -> Option<()> {
    let mut page = page.copy(alloc).ok()?;
    push_with(alloc, &mut page, change, out)
}

fn push_slot(slot: Option<FilesetNo>, out: &mut String) -> Result<(), OutOfMemory> {
    match slot {
        Some(number) => write!(out, "{}", number.number()),
        None => out.push_str("none"),
    }
}

/// Forgets what is to be released of a fileset that is being removed.
fn forget(table: &mut FilesetTable, number: FilesetNo) {
    if let SlotItem::Removed { .. } = table.slot(number) {
        a_fileset_changes();
        let nothing = SlotItem::Removed {
            first_tag: None,
            quota: None,
        };
        table.set_slot(number, nothing);
    }
}

/// Replaces what is to be released of a fileset that is being removed by nothing.
fn replaced(table: &mut FilesetTable, number: FilesetNo) -> Option<SlotItem> {
    if let SlotItem::Removed { .. } = table.slot(number) {
        a_fileset_changes();
        let nothing = SlotItem::Removed {
            first_tag: None,
            quota: None,
        };
        return Some(table.replace_slot(number, nothing));
    }
    None
}

/// The quota cell of a fileset that is being removed.
fn quota_in(item: &Option<SlotItem>) -> Option<CellAt> {
    match item {
        Some(SlotItem::Removed { quota, .. }) => *quota,
        _ => None,
    }
}

/// The slot that a word names.
fn slot_of(word: &str) -> Option<FilesetNo> {
    FilesetNo::new(word.parse().ok()?)
}

/// Says the table after a slot was set.
fn set_slot(table: &mut FilesetTable, word: &str, out: &mut String) -> Option<()> {
    forget(table, slot_of(word)?);
    push_table(table, out).ok()
}

/// Says the quota cell that a slot had, and the table after it was replaced.
fn replace_slot(table: &mut FilesetTable, word: &str, out: &mut String) -> Option<()> {
    let number = slot_of(word)?;
    let quota = quota_in(&replaced(table, number));
    out.push_str("had quota ").ok()?;
    push_cell(&quota, out).ok()?;
    out.push('\n').ok()?;
    push_table(table, out).ok()
}

/// Says the table as it is read after it was written over a page.
fn push_again(
    alloc: Global,
    table: &FilesetTable,
    page: &mut Page,
    out: &mut String,
) -> Option<()> {
    put_line(alloc, page, "0 ffffffff, 16 ffffffff, 144 01")?;
    match written_and_read(alloc, table, page) {
        Ok(again) => push_table(&again, out).ok(),
        Err(_) => None,
    }
}

/// Says the table with another count, as it is read after it was written over another page.
fn again(alloc: Global, table: &mut FilesetTable, made: &str, out: &mut String) -> Option<()> {
    let made: u64 = made.parse().ok()?;
    if MOST_MADE < made {
        return None;
    }
    table.set_made(made);
    let mut page = Page::zeros(alloc).ok()?;
    push_again(alloc, table, &mut page, out)
}

/// Says the bytes of a page whose first 4,200 bytes were 255, after the table was written over it.
fn written(alloc: Global, table: &FilesetTable, out: &mut String) -> Result<(), OutOfMemory> {
    let mut page = Page::zeros(alloc)?;
    page.set(0, &[255; 4200]);
    table.write(&mut page);
    push_bytes(page.bytes(), out)
}

/// Says what a call on the table answers.
fn ask(
    alloc: Global,
    table: &mut FilesetTable,
    word: &str,
    rest: &str,
    out: &mut String,
) -> Option<()> {
    match word {
        "find" => push_slot(table.find(rest.as_bytes()), out).ok(),
        "free" => push_slot(table.free_slot(), out).ok(),
        "set" => set_slot(table, rest, out),
        "replace" => replace_slot(table, rest, out),
        "again" => again(alloc, table, rest, out),
        "write" => written(alloc, table, out).ok(),
        _ => None,
    }
}

/// Does what a line says.
fn call(alloc: Global, desk: &mut Desk, line: &str, out: &mut String) -> Option<()> {
    let (word, rest) = line.split_once(' ').unwrap_or((line, ""));
    match word {
        "page" => put_line(alloc, &mut desk.page, rest),
        "with" => with(alloc, &desk.page, rest, out),
        "read" => read(alloc, desk, out),
        _ => ask(alloc, &mut desk.table, word, rest, out),
    }
}

/// Adds a line with what it answers.
fn push_line(
    alloc: Global,
    answers: &mut String,
    desk: &mut Desk,
    line: &str,
) -> Result<(), OutOfMemory> {
    let mut out = String::new(alloc);
    let is_read = is_idle(line) || call(alloc, desk, line, &mut out).is_some();
    push_answer(answers, line, is_read, out.as_str())
}

/// Adds the lines of a page of zeros and a new table, with what they answer.
pub fn push_tables(alloc: Global, answers: &mut String, lines: &str) -> Result<(), OutOfMemory> {
    let page = Page::zeros(alloc)?;
    let table = FilesetTable::new(alloc)?;
    let mut desk = Desk { page, table };
    for line in lines.lines() {
        push_line(alloc, answers, &mut desk, line)?;
    }
    Ok(())
}
