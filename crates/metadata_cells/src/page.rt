//! Pages of cells: what they begin with, which of their cells are free, and new ones.
ghost use Rattle.std.specs.Prelude.{◌≡◌, ◌<◌, true, false, IfOk, IfSome, IfNone, IsSome, IsSomeAnd};
ghost use Rattle.std.specs.Option.{option_map};
ghost use Rattle.page_store.specs.domain_base.Page.{zero_bytes};
ghost use Rattle.page_store.specs.domain_base.declared.place.CellAt.{CellAt};
ghost use Rattle.page_store.specs.domain_base.declared.place.Home.{Home};
ghost use Rattle.page_store.specs.Pages.{same_home};
ghost use Rattle.metadata_cells.specs.CellPage.{ChangesPage, IsCellPage, IsEmptyPage, KeepsWellFormed, cell_at, index_of, is_cell_page, is_free_in, next_of, with_next};

use crate::reading::{CELL_BYTES, MAGIC};
use crate::writing::CELLS;
use byteorder::{ByteOrder, LittleEndian};
use cell_records::{put, u32_at};
use page_store::{Home, MetaPages, OutOfMemory, Page};
use std::alloc::Global;

/// The head of a page of cells: its index in its volume's table, from 0, and the next page of the
/// table, on the same volume, or 0 for none.
#[derive(Clone, Copy, Debug, PartialEq, Eq)]
pub struct PageHead {
    pub index: u32,
    pub next: u32,
}

/// The widths of the numbers that a page begins with: `BMTP`, the index, the next page, the count
/// of free cells, and a zero.
const HEADER: [u8; 5] = [4, 4, 4, 2, 2];

/// The head of the page of cells that stands there. Returns None if and only if no page of cells
/// stands there.
pub fn read_page_head<M: MetaPages>(pages: &M, home: Home) -> Option<PageHead>
    ensures some { IfSome result (λ head. IsSomeAnd (M.pages pages.now home) (λ page.
        (is_cell_page page ≡ true) × (index_of page ≡ head.index) × (next_of page ≡ head.next))) }
    ensures none { IfNone result (IfSome (M.pages pages.now home) (λ page. is_cell_page page
        ≡ false)) }
{
    let page = pages.get(home)?.bytes();
    if u32_at(page, 0) != MAGIC {
        return None;
    }
    Some(PageHead {
        index: u32_at(page, 4),
        next: u32_at(page, 8),
    })
}

/// Whether a cell of the page has the kind of a free one.
pub fn is_free_cell(page: &Page, cell: u8) -> bool
    requires { cell < 28 }
    ensures { result ≡ is_free_in page.now cell }
{
    page.bytes()[31 + CELL_BYTES * usize::from(cell)] == 0
}

/// Writes to a page of zeros what a page of free cells begins with.
fn put_header(page: &mut Page, index: u32)
    requires { page.old ≡ zero_bytes 8192 }
    ensures { IsEmptyPage index page.new }
{
    let mut header = [0; 16];
    let numbers = [u64::from(MAGIC), u64::from(index), 0, CELLS as u64, 0];
    put(&HEADER, &numbers, &mut header);
    page.set(0, &header);
}

/// A page of the table with this index, no next page, and 28 free cells.
pub fn empty_page(alloc: Global, index: u32) -> Result<Page, OutOfMemory>
    ensures { IfOk result (IsEmptyPage index) }
{
    let mut page = Page::zeros(alloc)?;
    put_header(&mut page, index);
    Ok(page)
}

/// Changes a page's next page in place.
fn change_next<M: MetaPages>(pages: &mut M, home: &Home, next: u32)
    requires { IsSome (M.pages pages.old home.now) }
    ensures changes { ChangesPage home.now (with_next next) (M.pages pages.old)
        (M.pages pages.new) }
    ensures room { M.room pages.new ≡ M.room pages.old }
    ensures before { M.before pages.new ≡ M.before pages.old }
{
    let mut bytes = [0; 4];
    LittleEndian::write_u32(&mut bytes, next);
    pages.set(*home, 8, &bytes);
}

/// Makes `next` the next page of the page that stands there, or gives it none if `next` is 0. Every
/// cell stays, and every other page. Takes no memory.
pub fn set_next<M: MetaPages>(pages: &mut M, home: Home, next: u32)
    requires { IsSomeAnd (M.pages pages.old home) IsCellPage }
    ensures next { IsSomeAnd (M.pages pages.new home) (λ page. next_of page ≡ next) }
    ensures index { option_map index_of (M.pages pages.new home)
        ≡ option_map index_of (M.pages pages.old home) }
    ensures cells { (at : CellAt) → cell_at (M.pages pages.new) at
        ≡ cell_at (M.pages pages.old) at }
    ensures well_formed { KeepsWellFormed (M.pages pages.old) (M.pages pages.new) }
    ensures elsewhere { (h : Home) → same_home h home ≡ false
        → M.pages pages.new h ≡ M.pages pages.old h }
    ensures room { M.room pages.new ≡ M.room pages.old }
    ensures before { M.before pages.new ≡ M.before pages.old }
{
    change_next(pages, &home, next);
}
