//! Tag pages: what they begin with, and their entries.
ghost use Rattle.std.specs.Prelude.{IfOk, ℕ, ◌≡◌, ◌+◌, ◌*◌, ◌<◌, ◌≤◌, true, false, length, IfOk, IfSome, IfNone, IsSome, None, Some};
ghost use Rattle.metadata_cells.specs.domain_base.Page.{zero_bytes};
ghost use Rattle.metadata_cells.specs.cell_records.Fields.{number_at};
ghost use Rattle.metadata_cells.specs.Cell.{IsAddress};
ghost use Rattle.tag_dirs.specs.TagPage.{IsNewPage, IsTagPage, SpellsEntry, SpellsNext, entry_of, index_of, is_takeable, next_of};

use metadata_cells::{CellAt, Home, OutOfMemory, Page, VolIx, put, u8_at, u16_at, u32_at};
use std::alloc::Global;

/// How many entries a page has.
pub(crate) const ENTRIES: usize = 1_022;

/// The first bytes of a tag page, `TAGP`, as a number.
const MAGIC: u32 = 0x5047_4154;

/// The widths of the numbers of an entry: the sequence, and the volume, cell and page of its cell.
const ENTRY: [u8; 4] = [2, 1, 1, 4];

/// The widths of the numbers that a page begins with: `TAGP`, the index, and the volume and page of
/// the next page's home.
const HEADER: [u8; 4] = [4; 4];

/// The widths of the numbers of a home.
const HOME: [u8; 2] = [4; 2];

/// An entry of a tag directory: the sequence with which it was last taken, from 1 on, or 0; and the
/// cell that it leads to, if it is used.
#[derive(Clone, Copy, Debug, PartialEq, Eq)]
pub struct TagEntry {
    pub seq: u16,
    pub at: Option<CellAt>,
}

/// An entry of a tag page.
pub(crate) fn read_entry(page: &Page, entry: usize) -> TagEntry
    requires good { IsTagPage page.now }
    requires place { entry < 1022 }
    ensures { result ≡ entry_of page.now entry }
{
    let bytes = page.bytes();
    let seq = u16_at(bytes, 16 + 8 * entry);
    match VolIx::new(u32::from(u8_at(bytes, 18 + 8 * entry))) {
        Some(vol) => TagEntry {
            seq,
            at: Some(CellAt {
                vol,
                page: u32_at(bytes, 20 + 8 * entry),
                cell: u8_at(bytes, 19 + 8 * entry),
            }),
        },
        None => TagEntry { seq, at: None },
    }
}

/// The index of a tag page.
pub(crate) fn read_index(page: &Page) -> u32
    requires { IsTagPage page.now }
    ensures { result ≡ index_of page.now }
{
    u32_at(page.bytes(), 4)
}

/// The home of the page that follows a tag page, if there is one.
pub(crate) fn read_next(page: &Page) -> Option<Home>
    requires { IsTagPage page.now }
    ensures { result ≡ next_of page.now }
{
    let bytes = page.bytes();
    let vol = VolIx::new(u32_at(bytes, 8))?;
    Some(Home {
        vol,
        page: u32_at(bytes, 12),
    })
}

/// Whether a page says that the next one of its directory stands at that home.
pub(crate) fn leads_to(page: &Page, next: &Home) -> bool
    ensures yes { result ≡ true → next_of page.now ≡ Some next.now }
    ensures no { result ≡ false → ¬ next_of page.now ≡ Some next.now }
{
    let bytes = page.bytes();
    u32_at(bytes, 8) == next.vol.number() && u32_at(bytes, 12) == next.page
}

/// Whether an entry may be taken: it is free, and its sequence can rise.
pub(crate) fn can_take(entry: &TagEntry) -> bool
    ensures { result ≡ is_takeable entry.now }
{
    entry.seq < u16::MAX && entry.at.is_none()
}

/// The first entry of a page, from a place on, that may be taken.
pub(crate) fn find_takeable(page: &Page, first: usize) -> Option<usize>
    requires good { IsTagPage page.now }
    ensures some { IfSome result (λ e. (first ≤ e) × (e < 1022)
        × (is_takeable (entry_of page.now e) ≡ true)) }
    ensures none { IfNone result ((e : ℕ) → first ≤ e → e < 1022
        → is_takeable (entry_of page.now e) ≡ false) }
{
    for entry in first..ENTRIES {
        if can_take(&read_entry(page, entry)) {
            return Some(entry);
        }
    }
    None
}

/// The first entry of a page that is used.
pub(crate) fn find_used(page: &Page) -> Option<usize>
    requires { IsTagPage page.now }
    ensures some { IfSome result (λ e. (e < 1022) × IsSome (entry_of page.now e).at) }
    ensures none { IfNone result ((e : ℕ) → e < 1022 → (entry_of page.now e).at ≡ None) }
{
    for entry in 0..ENTRIES {
        if read_entry(page, entry).at.is_some() {
            return Some(entry);
        }
    }
    None
}

/// The volume, cell and page of an entry's cell, and zeros for none.
fn address_of(at: &Option<CellAt>) -> (u8, u8, u32)
    requires { IfSome at.now (λ cell. cell.cell < 28) }
    ensures { IsAddress result.0 result.1 result.2 at.now }
{
    match at {
        Some(at) => (at.vol.number() as u8, at.cell, at.page),
        None => (0, 0, 0),
    }
}

/// Writes the eight bytes of an entry.
fn spell(entry: &TagEntry, out: &mut [u8])
    requires cell { IfSome entry.now.at (λ at. at.cell < 28) }
    requires len { length out.old ≡ 8 }
    ensures len { length out.new ≡ 8 }
    ensures seq { number_at 2 0 out.new ≡ entry.now.seq }
    ensures at { IsAddress (number_at 1 2 out.new) (number_at 1 3 out.new) (number_at 4 4 out.new)
        entry.now.at }
{
    let (vol, cell, page) = address_of(&entry.at);
    let numbers = [
        u64::from(entry.seq),
        u64::from(vol),
        u64::from(cell),
        u64::from(page),
    ];
    put(&ENTRY, &numbers, out);
}

/// The eight bytes of an entry.
pub(crate) fn entry_bytes(entry: &TagEntry) -> [u8; 8]
    requires { IfSome entry.now.at (λ at. at.cell < 28) }
    ensures { SpellsEntry entry.now result }
{
    let mut bytes = [0; 8];
    spell(entry, &mut bytes);
    bytes
}

/// Writes to a page of zeros what a page with no next one begins with.
fn put_header(page: &mut Page, index: u32)
    requires zeros { page.old ≡ zero_bytes 8192 }
    requires index { index < 4202512 }
    ensures { IsNewPage index page.new }
{
    let mut header = [0; 16];
    let numbers = [u64::from(MAGIC), u64::from(index), 0, 0];
    put(&HEADER, &numbers, &mut header);
    page.set(0, &header);
}

/// A page with this index, no next page, and no entry that was ever used.
pub(crate) fn new_page(alloc: Global, index: u32) -> Result<Page, OutOfMemory>
    requires { index < 4202512 }
    ensures { IfOk result (IsNewPage index) }
{
    let mut page = Page::zeros(alloc)?;
    put_header(&mut page, index);
    Ok(page)
}

/// The eight bytes of a next page's home.
pub(crate) fn next_bytes(next: &Home) -> [u8; 8]
    ensures { SpellsNext next.now result }
{
    let mut bytes = [0; 8];
    let numbers = [u64::from(next.vol.number()), u64::from(next.page)];
    put(&HOME, &numbers, &mut bytes);
    bytes
}
