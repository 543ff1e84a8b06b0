//! The rows of a page, read in place.
ghost use Rattle.std.specs.Prelude.{◌≡◌, ◌+◌, ◌≤◌, length};
ghost use Rattle.directory_pages.specs.Rows.{first_row, kind_of, name_len, other_rows};
ghost use Rattle.directory_pages.specs.RowPage.{IsDirPage, rows_of};

use crate::form::ROWS_START;
use cell_records::{Kind, Page, Tag, u8_at, u16_at, u32_at};
use std::marker::Model;

/// A row of a page: its tag and kind, and its name in place.
#[derive(Clone, Copy)]
pub struct RowView<'a> {
    pub tag: Tag,
    pub kind: Kind,
    pub name: &'a [u8],
}

/// The rows of a page, one after the other in their order, seen as the list of those that are left.
/// Takes no memory, and copies no name.
#[derive(Drop)]
pub struct Rows<'a> {
    pub(crate) left: u16,
    pub(crate) bytes: &'a [u8],
}

impl<'a> Model for Rows<'a> {
    ghost use Rattle.std.specs.Prelude.{◌≡◌, List, true};
    ghost use Rattle.directory_pages.specs.declared.row.Row.{Row};
    ghost use Rattle.directory_pages.specs.Rows.{first_rows, fit_rows};

    ghost Value = { List Row };

    ghost view = { λ r. first_rows r.left r.bytes.now };

    ghost invariant = { λ r. fit_rows r.left r.bytes.now ≡ true };
}

/// The kind that a number stands for.
fn read_kind(number: u8) -> Kind
    ensures { result ≡ kind_of number }
{
    if number == 2 {
        Kind::Directory
    } else {
        Kind::File
    }
}

/// The first row, and the bytes after it.
fn split_row<'a>(bytes: &'a [u8]) -> (RowView<'a>, &'a [u8])
    requires { 8 + name_len bytes.now ≤ length bytes.now }
    ensures row { record {
      tag = result.0.tag;
      kind = result.0.kind;
      name = result.0.name.now;
    } ≡ first_row bytes.now }
    ensures others { result.1.now ≡ other_rows bytes.now }
{
    let end = 8 + usize::from(u8_at(bytes, 7));
    let row = RowView {
        tag: Tag {
            slot: u32_at(bytes, 0),
            seq: u16_at(bytes, 4),
        },
        kind: read_kind(u8_at(bytes, 6)),
        name: &bytes[8..end],
    };
    (row, &bytes[end..])
}

impl<'a> Rows<'a> {
    /// The rows of a page.
    pub fn new(page: &'a Page) -> Self
        requires { IsDirPage page.now }
        ensures { result ≡ rows_of page.now }
    {
        let bytes = page.bytes();
        Rows {
            left: u16_at(bytes, 6),
            bytes: &bytes[ROWS_START..],
        }
    }
}

impl<'a> Iterator for Rows<'a> {
    ghost use Rattle.std.specs.Iterator.{YieldsFirstBy, item_count};
    ghost use Rattle.directory_pages.specs.Views.{row_seen};

    type Item = RowView<'a>;

    ghost next_gives = { YieldsFirstBy row_seen (λ rows. rows) };

    ghost remaining = { item_count (λ rows. rows) };

    fn next(&mut self) -> Option<RowView<'a>> {
        if self.left == 0 {
            return None;
        }
        let (row, rest) = split_row(self.bytes);
        self.left -= 1;
        self.bytes = rest;
        Some(row)
    }
}
