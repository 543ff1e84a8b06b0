//! Records of cells as words: the name of the kind, and what its fields say, with commas between.
//! Each function writes from a place of a page on, and gives the place after what it wrote.
use crate::pen::{put, put_number};
use crate::words::Words;
use page_faults::Page;

/// How far a number of the attributes stands from the beginning of their record.
fn place_of(name: &str) -> Option<usize> {
    match name {
        "uid" => Some(8),
        "gid" => Some(12),
        "logged" => Some(16),
        "keep" => Some(28),
        "links" => Some(32),
        "birth" => Some(36),
        "unsynced" => Some(44),
        _ => None,
    }
}

/// Writes what is said of the attributes beside the kind and the size, as `uid=7`.
fn put_extras(fields: &mut Words, page: &mut Page, at: usize) {
    for _ in 0..fields.rest().len() {
        if fields.is_at_end() {
            break;
        }
        let place = place_of(fields.until('='));
        fields.check(place.is_some());
        let value = fields.number(',');
        put_number(page, at.saturating_add(place.unwrap_or(0)), value);
    }
}

/// The record of attributes: the kind, the size, and what is said beside them. All else is as of a
/// file that was just made: all its pages are kept, and it has one link.
fn put_attributes(kind: u32, fields: &mut Words, page: &mut Page, at: usize) -> usize {
    let size = fields.long(',');
    put(page, at, &[1, 0, 52, 0]);
    put_number(page, at.saturating_add(4), kind);
    put(page, at.saturating_add(20), &size.to_le_bytes());
    put_number(page, at.saturating_add(28), 65536);
    put_number(page, at.saturating_add(32), 1);
    put_extras(fields, page, at);
    at.saturating_add(52)
}

/// The head of a record: its kind, and its length.
fn put_head(kind: u8, len: u8, page: &mut Page, at: usize) -> usize {
    put(page, at, &[kind, 0, len, 0])
}

/// A row of an extent: the first page of the file, how many there are, and the first one's home. A
/// dense row has 12 bytes, and others 16.
fn put_run(is_dense: bool, fields: &mut Words, page: &mut Page, at: usize) -> usize {
    let (first, count) = (fields.short('+'), fields.short('@'));
    let home = fields.page(',');
    let end = if is_dense {
        let middle = put(page, at, &first.to_le_bytes());
        put(page, middle, &count.to_le_bytes())
    } else {
        let middle = put_number(page, at, u32::from(first));
        put_number(page, middle, u32::from(count))
    };
    put(page, end, &home)
}

/// A record of extents of a kind, with its length.
fn put_extents(kind: u8, len: u16, fields: &mut Words, page: &mut Page, at: usize) -> usize {
    let [low, high] = len.to_le_bytes();
    let mut end = put(page, at, &[kind, 0, low, high]);
    for _ in 0..fields.rest().len() {
        if fields.is_at_end() {
            break;
        }
        end = put_run(12 < kind, fields, page, end);
    }
    at.saturating_add(usize::from(len))
}

/// The record of holes: the first page and the number of pages of each.
fn put_holes(fields: &mut Words, page: &mut Page, at: usize) -> usize {
    let mut end = put_head(5, 132, page, at);
    for _ in 0..fields.rest().len() {
        if fields.is_at_end() {
            break;
        }
        end = put_number(page, end, fields.number('+'));
        end = put_number(page, end, fields.number(','));
    }
    at.saturating_add(132)
}

/// What a record has whose fields stand one after another: its kind, its length, and the form of
/// each field, as `put_field` reads it.
fn layout_of(kind: &str) -> Option<(u8, u8, &'static str)> {
    match kind {
        "from" => Some((2, 20, ".cn")),
        "trim" => Some((6, 12, "1")),
        "removal" => Some((6, 12, "2")),
        "user" => Some((7, 28, "n..ll")),
        "group" => Some((8, 28, "n..ll")),
        "index" => Some((9, 20, "pn")),
        "parent" => Some((10, 12, "t")),
        "volume" => Some((12, 16, "nnn")),
        "unknown" => Some((15, 4, "")),
        _ => None,
    }
}

/// Writes a field by the letter of its form: `n` a number of four bytes, `l` one of eight, `p` a
/// page, `c` a cell, `t` a tag, `1` and `2` these numbers; two bytes are left as they are for `.`.
fn put_field(form: u8, fields: &mut Words, page: &mut Page, at: usize) -> usize {
    match form {
        b'n' => put_number(page, at, fields.number(',')),
        b'l' => put(page, at, &fields.long(',').to_le_bytes()),
        b'p' => put(page, at, &fields.page(',')),
        b'c' => put(page, at, &fields.cell(',')),
        b't' => put(page, at, &fields.tag(',')),
        b'1' => put_number(page, at, 1),
        b'2' => put_number(page, at, 2),
        _ => at.saturating_add(2),
    }
}

/// Writes a record of a layout.
fn put_fields(
    layout: (u8, u8, &'static str),
    fields: &mut Words,
    page: &mut Page,
    at: usize,
) -> usize {
    let (kind, len, forms) = layout;
    let mut end = put_head(kind, len, page, at);
    for form in forms.as_bytes() {
        end = put_field(*form, fields, page, end);
    }
    at.saturating_add(usize::from(len))
}

/// Writes the record of a kind that has attributes or pages.
fn put_pages(kind: &str, fields: &mut Words, page: &mut Page, at: usize) -> usize {
    match kind {
        "file" => put_attributes(1, fields, page, at),
        "dir" => put_attributes(2, fields, page, at),
        "runs" => put_extents(3, 260, fields, page, at),
        "short" => put_extents(4, 68, fields, page, at),
        "dense" => put_extents(13, 268, fields, page, at),
        "short_dense" => put_extents(14, 52, fields, page, at),
        "holes" => put_holes(fields, page, at),
        _ => {
            fields.check(false);
            at
        }
    }
}

/// Writes the record that fields tell.
pub(crate) fn put_record(fields: &mut Words, page: &mut Page, at: usize) -> usize {
    let kind = fields.until(',');
    match layout_of(kind) {
        Some(layout) => put_fields(layout, fields, page, at),
        None => put_pages(kind, fields, page, at),
    }
}
