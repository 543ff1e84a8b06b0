//! Pages and tables as lines of text. A line of a page has a place and bytes in hexadecimal digits;
//! what no line says is zeros. A line of a table has a slot that is not free, and what it has.
use fileset_table::limits::{FILESET_SLOTS, PAGE_BYTES};
use fileset_table::{
    CellAt, FilesetEntry, FilesetNo, FilesetTable, Home, OutOfMemory, Page, SlotItem,
};
use hex::decode;
use std::alloc::Global;

/// Puts bytes on a page, and tells where they end.
fn put_bytes(page: &mut Page, at: usize, bytes: &[u8]) -> Option<usize> {
    if PAGE_BYTES < at || PAGE_BYTES - at < bytes.len() {
        return None;
    }
    page.set(at, bytes);
    Some(at + bytes.len())
}

/// Puts the bytes of a word on a page, and tells where they end.
fn put_word(alloc: Global, page: &mut Page, at: usize, word: &str) -> Option<usize> {
    let bytes = decode(alloc, word).ok()?;
    put_bytes(page, at, &bytes)
}

/// Puts a place's bytes on a page.
fn put_place(alloc: Global, page: &mut Page, text: &str) -> Option<()> {
    let (place, words) = text.split_once(' ')?;
    let mut at = place.parse().ok()?;
    for word in words.split(' ') {
        at = put_word(alloc, page, at, word)?;
    }
    Some(())
}

/// Does what one line says: it has places with a comma between two of them.
pub fn put_line(alloc: Global, page: &mut Page, line: &str) -> Option<()> {
    for text in line.split(", ") {
        put_place(alloc, page, text)?;
    }
    Some(())
}

fn push_home(home: &Option<Home>, out: &mut String) -> Result<(), OutOfMemory> {
    match home {
        Some(home) => write!(out, "{}.{}", home.vol.number(), home.page),
        None => out.push('-'),
    }
}

/// Adds the cell as a text, or `-`.
pub fn push_cell(at: &Option<CellAt>, out: &mut String) -> Result<(), OutOfMemory> {
    match at {
        Some(at) => write!(out, "{}.{}.{}", at.vol.number(), at.page, at.cell),
        None => out.push('-'),
    }
}

/// Adds a name, whose bytes are characters.
fn push_name(bytes: &[u8], out: &mut String) -> Result<(), OutOfMemory> {
    for byte in bytes {
        out.push(char::from(*byte))?;
    }
    Ok(())
}

/// Adds the name of a fileset, its first tag page, its limits and its first quota cell.
fn push_entry(entry: &FilesetEntry, out: &mut String) -> Result<(), OutOfMemory> {
    push_name(entry.name.as_slice(), out)?;
    out.push_str(" first ")?;
    push_home(&Some(entry.first_tag), out)?;
    write!(
        out,
        " limits {} {} quota ",
        entry.files_limit, entry.blocks_limit
    )?;
    push_cell(&entry.quota, out)
}

/// Adds what is to be released of a fileset.
fn push_removed(
    first: &Option<Home>,
    quota: &Option<CellAt>,
    out: &mut String,
) -> Result<(), OutOfMemory> {
    out.push_str("removed first ")?;
    push_home(first, out)?;
    out.push_str(" quota ")?;
    push_cell(quota, out)
}

/// Adds what a slot has in words.
fn push_item(item: &SlotItem, out: &mut String) -> Result<(), OutOfMemory> {
    match item {
        SlotItem::Free => Ok(()),
        SlotItem::Original { entry } => {
            out.push_str("original ")?;
            push_entry(entry, out)
        }
        SlotItem::Clone {
            original,
            number,
            entry,
        } => {
            write!(out, "clone {number} of {} ", original.number())?;
            push_entry(entry, out)
        }
        SlotItem::Removed { first_tag, quota } => push_removed(first_tag, quota, out),
    }
}

/// Adds the line of a slot, if it is not free.
fn push_slot(number: FilesetNo, item: &SlotItem, out: &mut String) -> Result<(), OutOfMemory> {
    if let SlotItem::Free = item {
        return Ok(());
    }
    write!(out, "{} ", number.number())?;
    push_item(item, out)?;
    out.push('\n')
}

/// Adds a table in lines.
pub fn push_table(table: &FilesetTable, out: &mut String) -> Result<(), OutOfMemory> {
    writeln!(out, "made {}", table.made())?;
    for n in 0..FILESET_SLOTS {
        if let Some(number) = FilesetNo::new(n) {
            push_slot(number, table.slot(number), out)?;
        }
    }
    Ok(())
}

/// Adds a group of bytes: its number, and its digits.
fn push_group(number: usize, group: &[u8], out: &mut String) -> Result<(), OutOfMemory> {
    if !out.is_empty() {
        out.push(' ')?;
    }
    write!(out, "{number}:")?;
    for byte in group {
        write!(out, "{byte:02x}")?;
    }
    Ok(())
}

/// Adds the bytes of a page in groups of eight: the number of each group that is not zeros, and its
/// digits.
pub fn push_bytes(bytes: &[u8], out: &mut String) -> Result<(), OutOfMemory> {
    for (number, group) in bytes.chunks(8).enumerate() {
        if group.iter().any(|byte| *byte != 0) {
            push_group(number, group, out)?;
        }
    }
    Ok(())
}
