//! Writes on a page what the words of a line tell of it.
use crate::pen::{put, put_number};
use crate::records::put_record;
use crate::words::Words;
use page_faults::Page;
use page_faults::limits::PAGE_BYTES;
use std::alloc::Global;
use table_words::decode;

/// The fileset table: how many clones were made.
fn draw_table(words: &mut Words, page: &mut Page) {
    put(page, 0, b"FSTB");
    put(page, 8, &words.long(' ').to_le_bytes());
}

/// A slot of the table: its number, its state, its name, its first page of tags, its original
/// and 1 more, its number as a clone, its limits of files and blocks, and its first quota cell.
fn draw_slot(words: &mut Words, page: &mut Page) {
    let at = 16 + 128 * usize::from(words.byte(' '));
    let state = words.byte(' ');
    let name = words.until(' ').as_bytes();
    let len = u8::try_from(name.len());
    words.check(len.is_ok());
    put(page, at, &[0; 128]);
    put(page, at, &[state, len.unwrap_or(0)]);
    put(page, at + 2, name);
    put(page, at + 56, &words.page(' '));
    put_number(page, at + 40, words.number(' '));
    put(page, at + 48, &words.long(' ').to_le_bytes());
    put(page, at + 64, &words.long(' ').to_le_bytes());
    put(page, at + 72, &words.long(' ').to_le_bytes());
    put(page, at + 82, &words.cell(' '));
}

/// A page of tags: its index, its next page, and the slot, cell and sequence of each entry.
fn draw_tags(words: &mut Words, page: &mut Page) {
    put(page, 0, b"TAGP");
    put_number(page, 4, words.number(' '));
    put(page, 8, &words.page(' '));
    for _ in 0..words.rest().len() {
        if words.is_at_end() {
            break;
        }
        let at = 16 + 8 * usize::from(words.short('=') % 1022);
        put(page, at + 2, &words.cell(','));
        put(page, at, &words.short(' ').to_le_bytes());
    }
}

/// A page of cells: its index, its next page, and how many of its cells are free.
fn draw_cells(words: &mut Words, page: &mut Page) {
    put(page, 0, b"BMTP");
    put_number(page, 4, words.number(' '));
    put_number(page, 8, words.number(' '));
    put(page, 12, &words.short(' ').to_le_bytes());
}

/// A cell: its number, its kind, its fileset and 1 more, its tag, its next cell, its records.
fn draw_cell(words: &mut Words, page: &mut Page) {
    let at = 16 + 292 * usize::from(words.byte(' '));
    let (kind, fileset) = (words.byte(' '), words.byte(' '));
    put(page, at, &[0; 292]);
    put(page, at + 8, &words.tag(' '));
    put(page, at + 14, &[fileset, kind]);
    put(page, at + 2, &words.cell(' '));
    let size = draw_records(words, page, at + 20);
    put(page, at + 16, &size.to_le_bytes());
}

/// The records of a cell from a place on, and how many bytes they have.
fn draw_records(words: &mut Words, page: &mut Page, start: usize) -> u16 {
    let mut end = start;
    for _ in 0..words.rest().len() {
        if words.is_at_end() {
            break;
        }
        let mut fields = Words::new(words.until(' '));
        end = put_record(&mut fields, page, end);
        words.check(fields.is_right());
    }
    let size = end.saturating_sub(start);
    words.check(size <= 272);
    u16::try_from(size).unwrap_or(0)
}

/// A row of a page of rows: its tag, kind and name. Gives the place after it.
fn draw_name(words: &mut Words, page: &mut Page, at: usize) -> usize {
    let tag = words.tag('=');
    let kind = words.byte(',');
    let name = words.until(' ').as_bytes();
    let len = u8::try_from(name.len());
    words.check(len.is_ok());
    let end = put(page, at, &tag);
    let end = put(page, end, &[kind, len.unwrap_or(0)]);
    put(page, end, name)
}

/// Writes how many bytes the rows of a page have, and how many rows there are.
fn put_counts(words: &mut Words, page: &mut Page, end: usize, count: u16) {
    let size = u16::try_from(end.saturating_sub(16));
    words.check(size.is_ok() && end <= PAGE_BYTES);
    put(page, 4, &size.unwrap_or(0).to_le_bytes());
    put(page, 6, &count.to_le_bytes());
}

/// A page of rows: its rows.
fn draw_names(words: &mut Words, page: &mut Page) {
    let (mut end, mut count) = (16, 0_u16);
    put(page, 0, &[0; PAGE_BYTES]);
    put(page, 0, b"DIRP");
    for _ in 0..words.rest().len() {
        if words.is_at_end() {
            break;
        }
        end = draw_name(words, page, end);
        count = count.saturating_add(1);
    }
    put_counts(words, page, end, count);
}

/// A page of rows: how many of one row, and that row.
fn draw_copies(words: &mut Words, page: &mut Page) {
    let count = words.short(' ');
    let row = words.until(' ');
    let mut end = 16;
    put(page, 0, b"DIRP");
    for _ in 0..count {
        let mut one = Words::new(row);
        end = draw_name(&mut one, page, end);
        words.check(one.is_right());
    }
    put_counts(words, page, end, count);
}

/// A page of an index: its next page, and its entries: the hash and the page of each.
fn draw_index(words: &mut Words, page: &mut Page) {
    let (mut end, mut count) = (16, 0_u32);
    put(page, 0, &[0; PAGE_BYTES]);
    put(page, 0, b"DIRX");
    put(page, 8, &words.page(' '));
    for _ in 0..words.rest().len() {
        if words.is_at_end() {
            break;
        }
        end = put_number(page, end, words.number('@'));
        end = put_number(page, end, words.number(' '));
        count = count.saturating_add(1);
    }
    put_number(page, 4, count);
}

/// A page of a bitmap: how many pages it has bits for, and which runs of them are used. All bits
/// past them are set.
pub(crate) fn draw_bitmap(pages: u32, words: &mut Words, page: &mut Page) {
    for at in (pages / 8) as usize..PAGE_BYTES {
        put(page, at, &[0xff]);
    }
    for _ in 0..words.rest().len() {
        if words.is_at_end() {
            break;
        }
        let mut run = Words::new(words.until(' '));
        let first = run.number('-');
        let last = if run.is_at_end() {
            first
        } else {
            run.number('-')
        };
        for number in first..=last {
            draw_bit(number, page);
        }
        words.check(run.is_right());
    }
}

/// Sets the bit of a page in a bitmap.
fn draw_bit(number: u32, page: &mut Page) {
    let at = (number / 8) as usize;
    let byte = page.bytes().get(at).copied().unwrap_or(0);
    put(page, at, &[byte | 1 << (number % 8)]);
}

/// Letters on a page: the place of the first of them, and all of them.
fn draw_letters(words: &mut Words, page: &mut Page) {
    let at = usize::from(words.short(' '));
    let end = put(page, at, words.until(' ').as_bytes());
    words.check(end <= PAGE_BYTES);
}

/// Bytes on a page: the place of the first of them, and all of them in hexadecimal digits.
fn draw_bytes(alloc: Global, words: &mut Words, page: &mut Page) {
    let at = usize::from(words.short(' '));
    match decode(alloc, words.until(' ')) {
        Ok(bytes) => {
            let end = put(page, at, &bytes);
            words.check(end <= PAGE_BYTES);
        }
        Err(_) => words.check(false),
    }
}

/// Writes what a line of a kind tells.
pub(crate) fn draw(alloc: Global, kind: &str, words: &mut Words, page: &mut Page) {
    match kind {
        "table" => draw_table(words, page),
        "tags" => draw_tags(words, page),
        "cells" => draw_cells(words, page),
        "names" => draw_names(words, page),
        "copies" => draw_copies(words, page),
        "index" => draw_index(words, page),
        "bitmap" => draw_bitmap(words.number(' '), words, page),
        "letters" => draw_letters(words, page),
        "bytes" => draw_bytes(alloc, words, page),
        "slot" => draw_slot(words, page),
        "cell" => draw_cell(words, page),
        _ => words.check(false),
    }
}
