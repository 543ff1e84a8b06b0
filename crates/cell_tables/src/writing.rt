//! Cells that are written in place, and chains of them that are read back.
ghost use Rattle.std.specs.Prelude.{◌≡◌, ◌<◌, ◌≤◌, IfOk, IfSome, IsTrue, length};
ghost use Rattle.free_cells.specs.metadata_cells.Cell.{AreRecords, spellings};
ghost use Rattle.free_cells.specs.metadata_cells.CellPage.{HasPlace, is_cell_page as begins};

use crate::lines::{cell_of, kind_of};
use free_cells::{
    CellAt, CellHead, CellKind, ChainFault, FilesetNo, Home, MemoryPages, MetaPages, OutOfMemory,
    Page, Record, RecordList, StoreFault, VolIx, read_chain, u32_at, write_cell,
};
use std::alloc::Global;
use table_words::{Told, Words};

/// Whether the bytes begin as a page of cells does.
fn is_cell_page(bytes: &[u8]) -> bool
    requires { 4 ≤ length bytes.now }
    ensures { result ≡ begins bytes.now }
{
    u32_at(bytes, 0) == 0x5054_4d42
}

/// Whether a page of cells is there that has such a cell.
fn has_place<M: MetaPages>(pages: &M, at: &CellAt) -> bool
    ensures { IsTrue result → HasPlace (M.pages pages.now) at.now }
{
    let home = Home {
        vol: at.vol,
        page: at.page,
    };
    match pages.get(home) {
        Some(page) => is_cell_page(page.bytes()) && at.cell < 28,
        None => false,
    }
}

/// Whether the head leads to no cell, or to one that a page may have.
fn leads_well(head: &CellHead) -> bool
    ensures { IsTrue result → IfSome head.now.next (λ at. at.cell < 28) }
{
    match &head.next {
        Some(at) => at.cell < 28,
        None => true,
    }
}

/// The limits of a user and of a group.
pub fn limits(alloc: Global, user: u32, group: u32) -> Result<RecordList, OutOfMemory>
    ensures good { IfOk result AreRecords }
    ensures fits { IfOk result (λ records. length (spellings records) ≤ 272) }
{
    let mut records = Vec::new(alloc);
    records.push(Record::UserQuota {
        id: user,
        files: 3,
        blocks: 1_024,
    })?;
    records.push(Record::GroupQuota {
        id: group,
        files: 0,
        blocks: 1 << 56,
    })?;
    Ok(RecordList::from_vec(records))
}

/// Writes a cell with two records; whether memory sufficed and there is a place for it.
fn is_written(
    alloc: Global,
    pages: &mut MemoryPages,
    at: &CellAt,
    head: &CellHead,
    user: u32,
) -> bool {
    let Ok(records) = limits(alloc, user, 7) else {
        return false;
    };
    let has_room = has_place(pages, at) && leads_well(head);
    if has_room {
        write_cell(pages, *at, head, &records);
    }
    has_room
}

fn head_of(next: Option<CellAt>, kind: CellKind) -> CellHead {
    CellHead {
        next,
        slot: 10,
        seq: 3,
        fileset: FilesetNo::new(1),
        kind,
    }
}

/// The place of a chain's cell of that number: volumes 1 and 2 in turn, from page 4 on.
fn place_of(number: u32) -> CellAt {
    let vol = if number % 2 == 0 {
        VolIx::new(1).unwrap()
    } else {
        VolIx::new(2).unwrap()
    };
    let place = number / 2;
    CellAt {
        vol,
        page: 4 + place / 28,
        cell: (place % 28) as u8,
    }
}

/// Puts a page of free cells, but for its count of free cells.
fn put_free(alloc: Global, pages: &mut MemoryPages, home: &Home) -> Result<(), OutOfMemory> {
    let mut bytes = Page::zeros(alloc)?;
    bytes.set(0, b"BMTP");
    pages.reserve(alloc, 1)?;
    pages.put(*home, bytes);
    Ok(())
}

/// Puts six such pages on each of two volumes; whether memory sufficed.
fn is_made(alloc: Global, pages: &mut MemoryPages) -> bool {
    for number in 0..12 {
        let CellAt { vol, page, .. } = place_of(number % 2 + number / 2 * 56);
        if put_free(alloc, pages, &Home { vol, page }).is_err() {
            return false;
        }
    }
    true
}

/// The kind of a chain's cell of that number.
fn kind_at(number: u32) -> CellKind {
    if number == 0 {
        CellKind::Primary
    } else {
        CellKind::Chain
    }
}

/// Writes a chain of `cells` cells, the first one last; whether each was written. Each cell has its
/// number for a user.
fn is_chain_written(alloc: Global, pages: &mut MemoryPages, cells: u32) -> bool {
    let mut next = None;
    for number in (0..cells).rev() {
        let at = place_of(number);
        let head = head_of(next, kind_at(number));
        if !is_written(alloc, pages, &at, &head, number) {
            return false;
        }
        next = Some(at);
    }
    true
}

/// Tells how many records of users there are, and whether they are of the users from 0 on.
fn tell_users(records: &[Record], told: &mut Told) {
    let mut count = 0u32;
    let mut in_order = true;
    for record in records {
        if let Record::UserQuota { id, .. } = record {
            in_order = in_order && *id == count;
            count = count.saturating_add(1);
        }
    }
    told.push_number(u64::from(count));
    told.push(if in_order {
        " users in order"
    } else {
        " users in no order"
    });
}

/// Tells the users of the chain on pages.
fn tell_read(alloc: Global, pages: &MemoryPages, told: &mut Told) {
    match read_chain(alloc, pages, place_of(0)) {
        Ok(records) => tell_users(records.as_slice(), told),
        Err(ChainFault::Broken { .. }) => told.push("broken"),
        Err(ChainFault::OutOfMemory) => told.check(false),
    }
}

/// Writes a chain of `cells` cells, and tells how many users its records are of, in their order.
pub fn tell_chain(alloc: Global, cells: u32, told: &mut Told) {
    let mut pages = MemoryPages::new(alloc);
    told.check(is_made(alloc, &mut pages));
    told.check(is_chain_written(alloc, &mut pages, cells));
    tell_read(alloc, &pages, told);
}

/// The next cell that a word names, or none for a dash.
fn next_of(words: &mut Words) -> Option<CellAt> {
    match words.rest().strip_prefix("- ") {
        Some(_) => {
            words.until(' ');
            None
        }
        None => Some(cell_of(words)),
    }
}

/// Writes a cell: a line has the cell, the next one, the kind, and the user.
pub fn write(alloc: Global, pages: &mut MemoryPages, words: &mut Words) {
    let at = cell_of(words);
    let next = next_of(words);
    let kind = kind_of(words.until(' '));
    let user = words.number(' ');
    let is_written = match kind {
        Some(kind) => is_written(alloc, pages, &at, &head_of(next, kind), user),
        None => false,
    };
    words.check(is_written);
}

/// Tells what a fault of a store says.
pub fn tell_fault(word: &str, told: &mut Told) {
    told.push_shown(&match word {
        "no page" => StoreFault::NoPage,
        _ => StoreFault::OutOfMemory,
    });
}
