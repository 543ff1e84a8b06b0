//! Directory pages, and what is read of them, as text. A page is a line of places and bytes in
//! hexadecimal digits, a place being the byte at which the bytes after it begin; what is not told
//! is zeros.

use directory_rows::from_directory_pages::read_rows;
use directory_rows::limits::PAGE_BYTES;
use directory_rows::{Kind, OutOfMemory, Page, Row, RowsFault};
use std::alloc::Global;
use table_words::decode;

/// Puts the bytes of a word on a page, and tells where they end.
fn put_word(alloc: Global, page: &mut Page, at: usize, word: &str) -> Option<usize> {
    let bytes = decode(alloc, word).ok()?;
    if PAGE_BYTES < at || PAGE_BYTES - at < bytes.len() {
        return None;
    }
    page.set(at, &bytes);
    Some(at + bytes.len())
}

/// Changes a page as a line tells.
pub fn change(alloc: Global, page: &mut Page, line: &str) -> Option<()> {
    let mut at: usize = 0;
    for word in line.split_whitespace() {
        at = match word.strip_prefix("@") {
            Some(place) => place.parse().ok()?,
            None => put_word(alloc, page, at, word)?,
        };
    }
    Some(())
}

/// The letter for a kind.
pub fn letter(kind: Kind) -> &'static str {
    match kind {
        Kind::File => "f",
        Kind::Directory => "d",
    }
}

/// Adds the hexadecimal digits of bytes.
pub fn push_digits(bytes: &[u8], out: &mut String) -> Result<(), OutOfMemory> {
    for byte in bytes {
        write!(out, "{byte:02x}")?;
    }
    Ok(())
}

/// Adds a row: its tag, the letter of its kind, and the bytes of its name.
fn push_row(row: &Row, out: &mut String) -> Result<(), OutOfMemory> {
    if !out.is_empty() {
        out.push(' ')?;
    }
    write!(
        out,
        "{}.{} {} ",
        row.tag.slot,
        row.tag.seq,
        letter(row.kind)
    )?;
    push_digits(row.name.as_slice(), out)
}

/// Adds all rows, one after the other.
fn push_list(rows: &[Row], out: &mut String) -> Option<()> {
    for row in rows {
        push_row(row, out).ok()?;
    }
    if rows.is_empty() {
        out.push_str("no rows").ok()?;
    }
    Some(())
}

/// Says all rows of a page, one after the other, or that they are bad.
pub fn shown(alloc: Global, page: &Page, out: &mut String) -> Option<()> {
    match read_rows(alloc, page) {
        Ok(rows) => push_list(rows.as_slice(), out),
        Err(RowsFault::Bad) => out.push_str("bad").ok(),
        Err(RowsFault::OutOfMemory) => None,
    }
}

/// Adds a group of bytes: its number, and its digits.
fn push_group(number: usize, group: &[u8], out: &mut String) -> Result<(), OutOfMemory> {
    if !out.is_empty() {
        out.push(' ')?;
    }
    write!(out, "{number}:")?;
    push_digits(group, out)
}

/// Says bytes in groups of eight: the number of each group that is not zeros, and its digits.
pub fn push_bytes(bytes: &[u8], out: &mut String) -> Option<()> {
    for (number, group) in bytes.chunks(8).enumerate() {
        if group.iter().any(|byte| *byte != 0) {
            push_group(number, group, out).ok()?;
        }
    }
    Some(())
}
