//! Directory pages: rows found, added and removed in place.
ghost use Rattle.std.specs.Prelude.{◌≡◌, ◌+◌, ◌^◌, ◌<◌, ◌≤◌, ◌++◌, [], ◌∷◌, List, true, false, length, drop, IfOk, IfErr, IfSome, IfNone, OnOk};
ghost use Rattle.cell_records.specs.domain_base.Page.{overwritten, zero_bytes};
ghost use Rattle.cell_records.specs.Records.{spelled};
ghost use Rattle.directory_pages.specs.declared.row.Row.{Row as RowItem};
ghost use Rattle.directory_pages.specs.declared.row.RowsFault.TheVariants.{Bad};
ghost use Rattle.directory_pages.specs.Rows.{found, is_named, is_row_name, kind_number as number_of, spelled_row, without};
ghost use Rattle.directory_pages.specs.RowPage.{HasRows, IsDirPage, IsPlace, IsRowPage, behind, fits, header_numbers, header_widths, rows_of, size_of};

use crate::form::{MAGIC, ROW_HEAD, ROWS_START, is_row_page};
use crate::gap::close_gap;
use crate::row::{Row, RowList, RowName, RowsFault};
use crate::rows::Rows;
use cell_records::limits::PAGE_BYTES;
use cell_records::{Kind, OutOfMemory, Page, Tag, put, u16_at};
use std::alloc::Global;

/// The widths of the numbers that a page begins with: `DIRP`, the bytes of the rows, how many rows
/// there are, and a zero.
const HEADER: [u8; 4] = [4, 2, 2, 8];

/// The widths of the numbers of a row: the slot and sequence of its tag, its kind, and how long its
/// name is.
const ROW: [u8; 4] = [4, 2, 1, 1];

/// Where a row stands on a page: the byte at which it begins, and how many bytes it has.
#[derive(Clone, Copy)]
struct RowPlace {
    start: usize,
    size: usize,
}

/// Writes what a page begins with: the bytes of its rows, and how many rows there are.
fn put_header(page: &mut Page, size: usize, count: usize)
    requires size { size ≤ 8176 }
    requires count { count ≤ 8176 }
    ensures value { page.new ≡ overwritten page.old 0 (spelled header_widths (header_numbers size
        count)) }
    ensures len { length page.new ≡ 8192 }
{
    let mut header = [0; 16];
    let numbers = [u64::from(MAGIC), size as u64, count as u64, 0];
    put(&HEADER, &numbers, &mut header);
    page.set(0, &header);
}

/// Makes a page a directory page without rows. All other bytes are zeros.
pub fn clear_rows(page: &mut Page)
    ensures { HasRows [] (zero_bytes 8176) page.new }
{
    let end = page.bytes().len();
    for at in 0..end {
        page.set(at, &[0]);
    }
    put_header(page, 0, 0);
}

/// How many bytes the rows of a page take.
fn rows_size(page: &Page) -> usize
    requires { IsDirPage page.now }
    ensures size { result ≡ size_of page.now }
    ensures small { result ≤ 8176 }
{
    usize::from(u16_at(page.bytes(), 4))
}

/// How many rows a page has.
pub fn count_rows(page: &Page) -> u32
    requires { IsDirPage page.now }
    ensures { result ≡ length (rows_of page.now) }
{
    u32::from(u16_at(page.bytes(), 6))
}

/// The tag and kind of the first row that has the name. Returns None if and only if no row has it.
pub fn find_row(page: &Page, name: &[u8]) -> Option<(Tag, Kind)>
    requires { IsDirPage page.now }
    ensures { result ≡ found name.now (rows_of page.now) }
{
    for view in Rows::new(page) {
        if view.name == name {
            return Some((view.tag, view.kind));
        }
    }
    None
}

/// Whether a row of this name fits after the last row of a page.
pub fn has_room(page: &Page, name: &[u8]) -> bool
    requires page { IsDirPage page.now }
    requires name { is_row_name name.now ≡ true }
    ensures { result ≡ fits name.now page.now }
{
    ROWS_START + rows_size(page) + ROW_HEAD + name.len() <= PAGE_BYTES
}

/// The number that stands for a kind.
fn kind_number(kind: Kind) -> u64
    ensures number { result ≡ number_of kind }
    ensures small { result ≤ 2 }
{
    match kind {
        Kind::File => 1,
        Kind::Directory => 2,
    }
}

/// Writes a row to a page, from a byte on.
fn put_row(page: &mut Page, at: usize, tag: Tag, kind: Kind, name: &[u8])
    requires whole { length page.old ≡ 8192 }
    requires short { length name.now ≤ 255 }
    requires room { at + 8 + length name.now ≤ 8192 }
    ensures value { page.new ≡ overwritten page.old at (spelled_row (record {
      tag = tag;
      kind = kind;
      name = name.now;
    })) }
    ensures slot { tag.slot < 2 ^ 32 }
    ensures seq { tag.seq < 2 ^ 16 }
{
    let mut head = [0; 8];
    let numbers = [
        u64::from(tag.slot),
        u64::from(tag.seq),
        kind_number(kind),
        name.len() as u64,
    ];
    put(&ROW, &numbers, &mut head);
    page.set(at, &head);
    page.set(at + ROW_HEAD, name);
}

/// Adds a row after the last one. Returns false if and only if it does not fit into the page
/// (`has_room`), and then the page is as before. Takes no memory. Looks at no other row: the caller
/// knows whether the name is new.
pub fn add_row(page: &mut Page, tag: Tag, kind: Kind, name: &[u8]) -> bool
    requires page { IsDirPage page.old }
    requires name { is_row_name name.now ≡ true }
    ensures fits { result ≡ fits name.now page.old }
    ensures added { result ≡ true → HasRows (rows_of page.old ++ record {
      tag = tag;
      kind = kind;
      name = name.now;
    } ∷ []) (drop (8 + length name.now) (behind page.old)) page.new }
    ensures full { result ≡ false → page.new ≡ page.old }
    ensures page { IsDirPage page.new }
{
    if !has_room(page, name) {
        return false;
    }
    let size = rows_size(page);
    let count = count_rows(page) as usize;
    put_row(page, ROWS_START + size, tag, kind, name);
    put_header(page, size + ROW_HEAD + name.len(), count + 1);
    true
}

/// Where the first row that has the name stands, if there is one.
fn place_of(page: &Page, name: &[u8]) -> Option<RowPlace>
    requires { IsDirPage page.now }
    ensures some { IfSome result (λ place. IsPlace name.now (rows_of page.now) place.start
        place.size) }
    ensures none { IfNone result (is_named name.now (rows_of page.now) ≡ false) }
{
    let mut start = ROWS_START;
    for row in Rows::new(page) {
        let size = ROW_HEAD + row.name.len();
        if row.name == name {
            return Some(RowPlace { start, size });
        }
        start += size;
    }
    None
}

/// Takes the first row of a name off a page. The rows after it move up to where it stood, and zeros
/// follow the last of them, as many as the row had bytes. Returns whether there was such a row.
/// Without one the page stays as it is. Takes no memory.
pub fn remove_row(page: &mut Page, name: &[u8]) -> bool
    requires { IsDirPage page.old }
    ensures named { result ≡ is_named name.now (rows_of page.old) }
    ensures removed { result ≡ true → HasRows (without name.now (rows_of page.old))
        (zero_bytes (8 + length name.now) ++ behind page.old) page.new }
    ensures missing { result ≡ false → page.new ≡ page.old }
    ensures page { IsDirPage page.new }
{
    let Some(place) = place_of(page, name) else {
        return false;
    };
    let size = rows_size(page);
    let count = count_rows(page) as usize;
    close_gap(page, place.start, place.size, ROWS_START + size);
    put_header(page, size - place.size, count - 1);
    true
}

/// Adds copies of the rows of a page after other rows. After an error some of them may have been
/// added.
pub fn push_rows(alloc: Global, page: &Page, rows: &mut Vec<Row>) -> Result<(), OutOfMemory>
    requires { IsDirPage page.now }
    ensures { OnOk result (rows.new.items ≡ rows.old.items ++ rows_of page.now) }
{
    for row in Rows::new(page) {
        let name = RowName::copy_of(alloc, row.name)?;
        rows.push(Row {
            tag: row.tag,
            kind: row.kind,
            name,
        })?;
    }
    Ok(())
}

/// The rows of a page, in their order. Fails with Bad if and only if the page is no directory page.
pub fn read_rows(alloc: Global, page: &Page) -> Result<RowList, RowsFault>
    ensures ok { IfOk result (IsRowPage page.now) }
    ensures bad { IfErr result (λ fault. fault ≡ Bad
        → (rows : List RowItem) → ¬ IsRowPage page.now rows) }
{
    if !is_row_page(page) {
        return Err(RowsFault::Bad);
    }
    let mut rows = Vec::new(alloc);
    push_rows(alloc, page, &mut rows)?;
    Ok(RowList::from_vec(rows))
}
