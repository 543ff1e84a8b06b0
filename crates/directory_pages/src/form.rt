//! What the bytes of a page must be, and the numbers in them.
ghost use Rattle.std.specs.Prelude.{◌≡◌, ◌+◌, ◌≤◌, List, true, false, length};
ghost use Rattle.std.specs.List.{list_all};
ghost use Rattle.cell_records.specs.Fields.{number_at};
ghost use Rattle.directory_pages.specs.Rows.{are_rows as rows_there, is_dots as dots, is_name_byte as name_byte, is_name_len as name_len, is_row as row_there, is_row_name as row_name};
ghost use Rattle.directory_pages.specs.declared.row.Row.{Row};
ghost use Rattle.directory_pages.specs.RowPage.{IsDirPage, IsRowPage, has_header as header_there};

use cell_records::limits::{MAX_NAME, PAGE_BYTES};
use cell_records::{Page, u8_at, u16_at, u32_at, u64_at};

/// The first bytes of a directory page, `DIRP`, as a number.
pub(crate) const MAGIC: u32 = 0x5052_4944;

/// How many bytes a page begins with before its rows.
pub(crate) const ROWS_START: usize = 16;

/// How many bytes of a row stand before its name.
pub(crate) const ROW_HEAD: usize = 8;

/// Whether a name may have the byte.
fn is_name_byte(byte: u8) -> bool
    ensures { result ≡ name_byte byte }
{
    byte != 0 && byte != b'/'
}

/// Whether a name is only dots, at most two.
fn is_dots(name: &[u8]) -> bool
    ensures { result ≡ dots name.now }
{
    name.len() <= 2 && name.iter().all(|byte| *byte == b'.')
}

/// Whether a name may have this many bytes.
fn is_name_len(len: usize) -> bool
    ensures { result ≡ name_len len }
{
    1 <= len && len <= MAX_NAME
}

/// Whether a name may have each of the bytes.
fn are_name_bytes(bytes: &[u8]) -> bool
    ensures { result ≡ list_all name_byte bytes.now }
{
    bytes.iter().all(|byte| is_name_byte(*byte))
}

/// Whether a row may have the name: it has 1 to 255 bytes, none of them zero or a slash, and is
/// neither one dot nor two.
pub fn is_row_name(name: &[u8]) -> bool
    ensures { result ≡ row_name name.now }
{
    is_name_len(name.len()) && are_name_bytes(name) && !is_dots(name)
}

/// Whether the bytes begin with a well-formed row.
fn is_row(bytes: &[u8]) -> bool
    ensures { result ≡ row_there bytes.now }
{
    if bytes.len() < ROW_HEAD {
        return false;
    }
    let end = ROW_HEAD + usize::from(u8_at(bytes, 7));
    let kind = u8_at(bytes, 6);
    end <= bytes.len() && (1 <= kind && kind <= 2) && is_row_name(&bytes[ROW_HEAD..end])
}

/// Whether the bytes are `count` well-formed rows, and nothing else.
fn are_rows(count: u16, bytes: &[u8]) -> bool
    ensures { result ≡ rows_there count bytes.now }
{
    let mut rest = bytes;
    for _row in 0..count {
        if !is_row(rest) {
            return false;
        }
        let size = ROW_HEAD + usize::from(u8_at(rest, 7));
        rest = &rest[size..];
    }
    rest.is_empty()
}

/// Whether a page begins as a directory page does, and its rows lie within it.
fn has_header(bytes: &[u8]) -> bool
    requires { 16 ≤ length bytes.now }
    ensures { result ≡ header_there bytes.now }
{
    u32_at(bytes, 0) == MAGIC
        && u64_at(bytes, 8) == 0
        && ROWS_START + usize::from(u16_at(bytes, 4)) <= PAGE_BYTES
}

/// Whether bytes are those of a directory page.
fn are_page_bytes(bytes: &[u8]) -> bool
    requires { length bytes.now ≡ 8192 }
    ensures good { result ≡ true → IsDirPage bytes.now }
    ensures bad { result ≡ false → (rows : List Row) → ¬ IsRowPage bytes.now rows }
{
    if !has_header(bytes) {
        return false;
    }
    let end = ROWS_START + usize::from(u16_at(bytes, 4));
    are_rows(u16_at(bytes, 6), &bytes[ROWS_START..end])
}

/// Whether a page is a directory page: `DIRP`, the bytes of the rows, how many rows there are,
/// eight zeros, and the rows, each of them well formed. Two rows may have one name.
pub fn is_row_page(page: &Page) -> bool
    ensures good { result ≡ true → IsDirPage page.now }
    ensures bad { result ≡ false → (rows : List Row) → ¬ IsRowPage page.now rows }
{
    are_page_bytes(page.bytes())
}
