//! What is read of pages, and what is found of one page.
use crate::cells;
use crate::cells::links_of;
use crate::given::{Given, home};
use crate::pages::push_homes;
use crate::rows::{insert, is_of_rows};
use image_lines::{Told, Words, has_wrong_header, has_wrong_slot, read_pages, table_fault};
use index_row_faults::{
    CellsWay, Home, HomeSet, IndexWay, MetaPages, OutOfMemory, PageWay, ReadPages, TableRead,
    TagsWay, read_table, read_tables,
};
use std::alloc::Global;

/// Tells the pages that are read along a way, and the one that cannot be.
fn tell_along<W: PageWay>(alloc: Global, given: &Given, way: &W, told: &mut Told) {
    match read_pages(alloc, &given.image.pages, &given.frame, way) {
        Ok(ReadPages { homes, unread }) => {
            push_homes(told, &homes);
            if let Some(home) = unread {
                told.push_home(", not ", &home);
            }
        }
        Err(_) => told.check(false),
    }
}

/// Tells the pages of the tables of cells of all members with their places, and those that cannot
/// be read.
fn tell_tables(alloc: Global, given: &Given, told: &mut Told) {
    let Ok(tables) = read_tables(alloc, &given.image.pages, &given.frame) else {
        return told.check(false);
    };
    for page in &tables.read {
        told.push_home(" ", &page.home);
        told.push(" at ");
        told.push_number(page.place as u64);
        told.push(",");
    }
    told.push(" not");
    push_homes(told, &tables.unread);
}

/// Tells what is read of the page of the fileset table.
fn tell_table(alloc: Global, given: &Given, told: &mut Told) {
    match read_table(alloc, &given.image.pages, &given.frame) {
        Ok(TableRead::Unnamed) => told.push("unnamed"),
        Ok(TableRead::There { table }) => {
            told.push("made ");
            told.push_number(table.made());
        }
        Ok(TableRead::Wrong { home }) => {
            told.push("wrong at ");
            told.push_number(u64::from(home.page));
        }
        Err(_) => told.check(false),
    }
}

/// Tells the page of the fileset table that breaks its rule.
fn tell_table_fault(alloc: Global, given: &Given, told: &mut Told) {
    match table_fault(alloc, &given.image.pages, &given.frame) {
        Ok(Some(home)) => told.push_home(", at fault ", &home),
        Ok(None) => told.push(", at fault none"),
        Err(_) => told.check(false),
    }
}

/// Tells whether something is wrong, or right.
pub(crate) fn tell_wrong(is_wrong: bool, told: &mut Told) {
    told.push(if is_wrong { "wrong" } else { "right" });
}

/// Tells whether the first page of cells has a wrong header at a place of its table.
fn tell_header(words: &mut Words, given: &Given, told: &mut Told) {
    let place = usize::from(words.short(' '));
    match given.image.pages.get(home(3)) {
        Some(page) => tell_wrong(has_wrong_header(page, place), told),
        None => told.check(false),
    }
}

/// Whether some slot of the table is wrong.
fn has_slot_fault(alloc: Global, given: &Given) -> Result<bool, OutOfMemory> {
    let links = links_of(alloc, given)?;
    has_wrong_slot(alloc, &given.image.pages, &links, &given.table)
}

/// Tells whether some slot of the table is wrong.
fn tell_slots(alloc: Global, given: &Given, told: &mut Told) {
    match has_slot_fault(alloc, given) {
        Ok(is_wrong) => tell_wrong(is_wrong, told),
        Err(_) => told.check(false),
    }
}

/// Tells the pages of a set, or that there are none.
fn tell_set(found: &HomeSet, told: &mut Told) {
    if found.as_slice().is_empty() {
        told.push("none");
    }
    for (_, home) in found.as_slice() {
        told.push_home(" ", home);
    }
}

/// Tells the pages at which a rule of directories is broken.
fn tell_rows(alloc: Global, asked: &str, words: &mut Words, given: &Given, told: &mut Told) {
    let mut found = HomeSet::new(alloc);
    told.check(insert(alloc, asked, words, given, &mut found).is_ok());
    tell_set(&found, told);
}

/// Tells the pages at which a rule is broken.
fn tell_found(alloc: Global, asked: &str, words: &mut Words, given: &Given, told: &mut Told) {
    if is_of_rows(asked) {
        return tell_rows(alloc, asked, words, given, told);
    }
    match cells::find(alloc, asked, given) {
        Ok(found) => tell_set(&found, told),
        Err(_) => told.check(false),
    }
}

/// Tells what is read of pages, or the pages at which a rule is broken.
pub(crate) fn tell(alloc: Global, asked: &str, words: &mut Words, given: &Given, told: &mut Told) {
    let (frame, vol) = (given.frame, home(0).vol);
    match asked {
        "read-cells" => tell_along(alloc, given, &CellsWay { frame, vol }, told),
        "read-tags" => {
            let first = home(words.number(' '));
            tell_along(alloc, given, &TagsWay { first }, told);
        }
        "read-index" => {
            let first = home(words.number(' '));
            tell_along(alloc, given, &IndexWay { first }, told);
        }
        "read-all" => tell_tables(alloc, given, told),
        "table" => {
            tell_table(alloc, given, told);
            tell_table_fault(alloc, given, told);
        }
        "header" => tell_header(words, given, told),
        "slots" => tell_slots(alloc, given, told),
        _ => tell_found(alloc, asked, words, given, told),
    }
}
