//! Cells, written to the pages that they stand on.
ghost use Rattle.std.specs.Prelude.{◌≡◌, ◌+◌, ◌*◌, ◌<◌, ◌≤◌, ◌++◌, length, drop, IfSome, IsSome, Some, false};
ghost use Rattle.byteorder.specs.Endian.{little_bytes};
ghost use Rattle.page_store.specs.domain_base.Page.{zero_bytes};
ghost use Rattle.cell_records.specs.Records.{Allowed, spelling};
ghost use Rattle.page_store.specs.domain_base.declared.place.Home.{Home};
ghost use Rattle.page_store.specs.Pages.{same_home};
ghost use Rattle.metadata_cells.specs.CellPage.{ChangesCell, ChangesPage, HasPlace, KeepsHeaders, KeepsWellFormed, cell_at, free_cells as free_there, home_of as home_there, recounted};
ghost use Rattle.metadata_cells.specs.Chain.{LeavesOthers, StandsAt, is_at};
ghost use Rattle.metadata_cells.specs.Cell.{AreRecords, HasHead, IsAddress, IsCell, IsFileset, IsFreeOrUsed, kind_number as number_there, spellings};

use crate::head::{CellHead, CellKind};
use crate::list::RecordList;
use crate::reading::CELL_BYTES;
use byteorder::{ByteOrder, LittleEndian};
use cell_records::{Record, put, write_record};
use page_store::{CellAt, FilesetNo, Home, MetaPages, Page};

/// How many cells a page has.
pub(crate) const CELLS: usize = 28;

/// The widths of the numbers in a cell's head: a zero, the next cell's volume, cell and page, the
/// slot, the sequence, the fileset, the kind, the size of the records, and a zero.
const HEAD: [u8; 10] = [2, 1, 1, 4, 4, 2, 1, 1, 2, 2];

/// The volume, cell and page of an address, and zeros for none.
fn address_of(next: &Option<CellAt>) -> (u8, u8, u32)
    requires { IfSome next.now (λ at. at.cell < 28) }
    ensures { IsAddress result.0 result.1 result.2 next.now }
{
    match next {
        Some(at) => (at.vol.number() as u8, at.cell, at.page),
        None => (0, 0, 0),
    }
}

/// A fileset's number plus 1, or 0 for none.
fn fileset_number(fileset: &Option<FilesetNo>) -> u8
    ensures { IsFileset result fileset.now }
{
    match fileset {
        Some(fileset) => fileset.number() as u8 + 1,
        None => 0,
    }
}

/// The number that stands for a kind.
fn kind_number(kind: CellKind) -> u8
    ensures value { result ≡ number_there kind }
{
    match kind {
        CellKind::Primary => 1,
        CellKind::Chain => 2,
        CellKind::Quota => 3,
        CellKind::Volume => 4,
    }
}

/// Writes a cell's head to the front of its bytes.
fn put_head(head: &CellHead, size: usize, out: &mut [u8])
    requires next { IfSome head.now.next (λ at. at.cell < 28) }
    requires fits { size ≤ 272 }
    requires room { 20 ≤ length out.old }
    ensures head { HasHead out.new head.now size }
    ensures others { drop 20 out.new ≡ drop 20 out.old }
    ensures len { length out.new ≡ length out.old }
{
    let (vol, cell, page) = address_of(&head.next);
    let numbers = [
        0,
        u64::from(vol),
        u64::from(cell),
        u64::from(page),
        u64::from(head.slot),
        u64::from(head.seq),
        u64::from(fileset_number(&head.fileset)),
        u64::from(kind_number(head.kind)),
        size as u64,
        0,
    ];
    put(&HEAD, &numbers, out);
}

/// Writes a record to the front of the bytes, and returns how many bytes it took.
fn put_record(value: &Record, out: &mut [u8]) -> usize
    requires good { Allowed value.now }
    requires room { length (spelling value.now) ≤ length out.old }
    ensures size { result ≡ length (spelling value.now) }
    ensures written { out.new ≡ spelling value.now ++ drop result out.old }
{
    write_record(value, out)
}

/// Writes records one after the other, and returns how many bytes they took.
fn put_records(records: &[Record], out: &mut [u8]) -> usize
    requires good { AreRecords records.now }
    requires room { length (spellings records.now) ≤ length out.old }
    ensures size { result ≡ length (spellings records.now) }
    ensures written { out.new ≡ spellings records.now ++ drop result out.old }
{
    let mut at = 0;
    for value in records {
        at += put_record(value, &mut out[at..]);
    }
    at
}

/// Turns zeros into the bytes of a cell: its head, its records, and zeros.
fn put_cell(head: &CellHead, records: &[Record], out: &mut [u8])
    requires zeros { out.old ≡ zero_bytes 292 }
    requires room { length out.old ≡ 292 }
    requires next { IfSome head.now.next (λ at. at.cell < 28) }
    requires good { AreRecords records.now }
    requires fits { length (spellings records.now) ≤ 272 }
    ensures cell { IsCell out.new (record { head = head.now; records = records.now }) }
    ensures len { length out.new ≡ 292 }
{
    let size = put_records(records, &mut out[20..]);
    put_head(head, size, out);
}

/// How many cells of a page have the kind of a free one.
fn free_cells(page: &[u8]) -> u16
    requires { length page.now ≡ 8192 }
    ensures { result ≡ free_there page.now }
{
    let mut count = 0;
    for cell in 0..CELLS {
        if page[31 + CELL_BYTES * cell] == 0 {
            count += 1;
        }
    }
    count
}

/// The bytes of the count of a page's free cells.
fn count_of(page: &Page) -> [u8; 2]
    ensures { result ≡ little_bytes 2 (free_there page.now) }
{
    let mut count = [0; 2];
    LittleEndian::write_u16(&mut count, free_cells(page.bytes()));
    count
}

/// Corrects the count of a page's free cells, in place.
fn recount<M: MetaPages>(pages: &mut M, home: &Home)
    requires { IsSome (M.pages pages.old home.now) }
    ensures changes { ChangesPage home.now recounted (M.pages pages.old) (M.pages pages.new) }
    ensures room { M.room pages.new ≡ M.room pages.old }
    ensures before { M.before pages.new ≡ M.before pages.old }
{
    if let Some(page) = pages.get(*home) {
        let count = count_of(page);
        pages.set(*home, 12, &count);
    }
}

/// The home of a cell's page.
fn home_of(at: &CellAt) -> Home
    ensures { result ≡ home_there at.now }
{
    Home {
        vol: at.vol,
        page: at.page,
    }
}

/// Changes the bytes of a cell in place.
fn change_cell<M: MetaPages>(pages: &mut M, at: &CellAt, bytes: &[u8])
    requires place { HasPlace (M.pages pages.old) at.now }
    requires len { length bytes.now ≡ 292 }
    ensures changes { ChangesCell at.now bytes.now (M.pages pages.old) (M.pages pages.new) }
    ensures room { M.room pages.new ≡ M.room pages.old }
    ensures before { M.before pages.new ≡ M.before pages.old }
{
    pages.set(home_of(at), 16 + CELL_BYTES * usize::from(at.cell), bytes);
    recount(pages, &home_of(at));
}

/// Puts these bytes into a cell. Every other cell stays, and so do the index and next page of each
/// page.
fn put_bytes<M: MetaPages>(pages: &mut M, at: &CellAt, bytes: &[u8])
    requires place { HasPlace (M.pages pages.old) at.now }
    requires len { length bytes.now ≡ 292 }
    requires good { IsFreeOrUsed bytes.now }
    ensures there { cell_at (M.pages pages.new) at.now ≡ Some bytes.now }
    ensures others { LeavesOthers (is_at at.now) (M.pages pages.old) (M.pages pages.new) }
    ensures well_formed { KeepsWellFormed (M.pages pages.old) (M.pages pages.new) }
    ensures headers { KeepsHeaders (M.pages pages.old) (M.pages pages.new) }
    ensures elsewhere { (home : Home) → same_home home (home_there at.now) ≡ false
        → M.pages pages.new home ≡ M.pages pages.old home }
    ensures room { M.room pages.new ≡ M.room pages.old }
    ensures before { M.before pages.new ≡ M.before pages.old }
{
    change_cell(pages, at, bytes);
}

/// Writes a cell in use, whatever stood there, and sets the count of its page's free cells to what
/// it then is. Every other cell stays, and so do the index and next page of each page. The page of
/// cells is there, and the records are in their order and have at most 272 bytes together. Takes no
/// memory.
pub fn write_cell<M: MetaPages>(pages: &mut M, at: CellAt, head: &CellHead, records: &RecordList)
    requires place { HasPlace (M.pages pages.old) at }
    requires next { IfSome head.now.next (λ at. at.cell < 28) }
    requires good { AreRecords records.now }
    requires fits { length (spellings records.now) ≤ 272 }
    ensures stands { StandsAt (M.pages pages.new) at (record {
      head = head.now;
      records = records.now;
    }) }
    ensures others { LeavesOthers (is_at at) (M.pages pages.old) (M.pages pages.new) }
    ensures well_formed { KeepsWellFormed (M.pages pages.old) (M.pages pages.new) }
    ensures headers { KeepsHeaders (M.pages pages.old) (M.pages pages.new) }
    ensures elsewhere { (home : Home) → same_home home (home_there at) ≡ false
        → M.pages pages.new home ≡ M.pages pages.old home }
    ensures room { M.room pages.new ≡ M.room pages.old }
    ensures before { M.before pages.new ≡ M.before pages.old }
{
    let mut bytes = [0; CELL_BYTES];
    put_cell(head, records.as_slice(), &mut bytes);
    put_bytes(pages, &at, &bytes);
}

/// Makes a cell a free one, 292 zeros, whatever stood there, and sets the count of its page's free
/// cells to what it then is. Every other cell stays, and so do the index and next page of each
/// page. The page of cells is there. Takes no memory.
pub fn clear_cell<M: MetaPages>(pages: &mut M, at: CellAt)
    requires { HasPlace (M.pages pages.old) at }
    ensures cleared { cell_at (M.pages pages.new) at ≡ Some (zero_bytes CELL_BYTES) }
    ensures others { LeavesOthers (is_at at) (M.pages pages.old) (M.pages pages.new) }
    ensures well_formed { KeepsWellFormed (M.pages pages.old) (M.pages pages.new) }
    ensures headers { KeepsHeaders (M.pages pages.old) (M.pages pages.new) }
    ensures elsewhere { (home : Home) → same_home home (home_there at) ≡ false
        → M.pages pages.new home ≡ M.pages pages.old home }
    ensures room { M.room pages.new ≡ M.room pages.old }
    ensures before { M.before pages.new ≡ M.before pages.old }
{
    put_bytes(pages, &at, &[0; CELL_BYTES]);
}
