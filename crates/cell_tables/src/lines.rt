//! Pages and what is read from them as lines of text. A line of a page has its volume and its
//! number, a place, and bytes in hexadecimal digits: the place is a byte of the page, or `c` and
//! the number of a cell. What no line says is zeros.

use free_cells::limits::PAGE_BYTES;
use free_cells::{
    CellAt, CellHead, CellKind, ChainFault, Home, Leftover, MemoryPages, MetaPages, OutOfMemory,
    Page, Record, read_chain,
};
use std::alloc::Global;
use table_words::{Told, Words, decode};

/// The home that a word names, as in `1.0`.
pub fn home_of(words: &mut Words) -> Home {
    let vol = words.volume('.');
    Home {
        vol,
        page: words.number(' '),
    }
}

/// The cell that a word names, as in `1.0.27`.
pub fn cell_of(words: &mut Words) -> CellAt {
    let vol = words.volume('.');
    let page = words.number('.');
    CellAt {
        vol,
        page,
        cell: words.byte(' '),
    }
}

/// The byte that a word names.
fn place_of(words: &mut Words) -> usize {
    match words.rest().strip_prefix("c") {
        Some(_) => {
            words.until('c');
            16 + 292 * usize::from(words.byte(' '))
        }
        None => usize::from(words.short(' ')),
    }
}

/// Puts bytes on a page, if it is there and has room for them.
fn put_bytes(pages: &mut MemoryPages, home: &Home, at: usize, bytes: &[u8]) -> bool {
    let is_there = pages.get(*home).is_some();
    let has_room = at <= PAGE_BYTES && bytes.len() <= PAGE_BYTES - at;
    if is_there && has_room {
        pages.set(*home, at, bytes);
    }
    is_there && has_room
}

/// Puts a page of zeros there, if none is.
fn add_page(alloc: Global, pages: &mut MemoryPages, home: &Home) -> Result<(), OutOfMemory> {
    if pages.get(*home).is_none() {
        let page = Page::zeros(alloc)?;
        pages.reserve(alloc, 1)?;
        pages.put(*home, page);
    }
    Ok(())
}

/// Puts the bytes of a word from a place of a page on, and gives the place after them.
fn put_word(
    alloc: Global,
    pages: &mut MemoryPages,
    home: &Home,
    at: usize,
    words: &mut Words,
) -> usize {
    match decode(alloc, words.until(' ')) {
        Ok(bytes) => {
            words.check(put_bytes(pages, home, at, &bytes));
            at.saturating_add(bytes.len())
        }
        Err(_) => {
            words.check(false);
            at
        }
    }
}

/// Does what one line says.
pub fn put_line(alloc: Global, pages: &mut MemoryPages, words: &mut Words) {
    let home = home_of(words);
    let mut at = place_of(words);
    words.check(add_page(alloc, pages, &home).is_ok());
    for _ in 0..words.rest().len() {
        if words.rest().is_empty() {
            break;
        }
        at = put_word(alloc, pages, &home, at, words);
    }
}

fn push_cell(told: &mut Told, at: &CellAt) {
    told.push_number(u64::from(at.vol.number()));
    told.push(".");
    told.push_number(u64::from(at.page));
    told.push(".");
    told.push_number(u64::from(at.cell));
}

fn kind_word(kind: CellKind) -> &'static str {
    match kind {
        CellKind::Primary => "primary ",
        CellKind::Chain => "chain ",
        CellKind::Quota => "quota ",
        CellKind::Volume => "volume ",
    }
}

/// The kind that a word names.
pub fn kind_of(word: &str) -> Option<CellKind> {
    match word {
        "primary" => Some(CellKind::Primary),
        "chain" => Some(CellKind::Chain),
        "quota" => Some(CellKind::Quota),
        "volume" => Some(CellKind::Volume),
        _ => None,
    }
}

/// Tells a head in words: the kind, the next cell, the tag and the fileset.
pub fn push_head(told: &mut Told, head: &CellHead) {
    told.push(kind_word(head.kind));
    match &head.next {
        Some(at) => push_cell(told, at),
        None => told.push("-"),
    }
    told.push(" ");
    told.push_number(u64::from(head.slot));
    told.push(".");
    told.push_number(u64::from(head.seq));
    match head.fileset {
        Some(fileset) => {
            told.push(" ");
            told.push_number(u64::from(fileset.number()));
        }
        None => told.push(" -"),
    }
}

/// Tells numbers, each after a colon.
fn push_numbers(told: &mut Told, word: &str, numbers: &[u64]) {
    told.push(word);
    for number in numbers {
        told.push(":");
        told.push_number(*number);
    }
}

/// Tells a record in words, and of most kinds the kind alone.
fn push_record(told: &mut Told, record: &Record) {
    match record {
        Record::Pending { what } => told.push(match what {
            Leftover::Trim => " trim",
            Leftover::Remove => " remove",
        }),
        Record::UserQuota { id, files, blocks } => {
            push_numbers(told, " user", &[u64::from(*id), *files, *blocks]);
        }
        Record::GroupQuota { id, files, blocks } => {
            push_numbers(told, " group", &[u64::from(*id), *files, *blocks]);
        }
        Record::Parent { slot, seq } => {
            push_numbers(told, " parent", &[u64::from(*slot), u64::from(*seq)]);
        }
        _ => push_numbers(told, " kind", &[u64::from(record.kind())]),
    }
}

/// Tells the records of a chain in words.
fn push_records(told: &mut Told, records: &[Record]) {
    told.push("records");
    for record in records {
        push_record(told, record);
    }
}

/// Tells the records of a chain in words, or where it is broken.
pub fn push_chain(alloc: Global, told: &mut Told, pages: &MemoryPages, at: CellAt) {
    match read_chain(alloc, pages, at) {
        Ok(records) => push_records(told, records.as_slice()),
        Err(ChainFault::Broken { at }) => {
            told.push("broken ");
            push_cell(told, &at);
        }
        Err(ChainFault::OutOfMemory) => told.check(false),
    }
}

/// Tells bytes in groups of eight: the number of each group that is not zeros, and its digits.
pub fn push_bytes(told: &mut Told, bytes: &[u8]) {
    let mut is_first = true;
    for (number, group) in bytes.chunks(8).enumerate() {
        if group.iter().any(|byte| *byte != 0) {
            told.push(if is_first { "" } else { " " });
            told.push_number(number as u64);
            told.push(":");
            told.push_digits(group);
            is_first = false;
        }
    }
}

/// Tells the bytes of the page at a home.
pub fn push_page(told: &mut Told, pages: &MemoryPages, home: &Home) {
    match pages.get(*home) {
        Some(page) => push_bytes(told, page.bytes()),
        None => told.push("no page"),
    }
}
