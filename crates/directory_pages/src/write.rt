//! Index pages made of entries.
ghost use Rattle.std.specs.Prelude.{◌≡◌, ◌+◌, ◌*◌, ◌<◌, ◌≤◌, ◌++◌, length, take, drop, IfOk};
ghost use Rattle.std.specs.List.{AllByRecursion};
ghost use Rattle.cell_records.specs.domain_base.Page.{overwritten};
ghost use Rattle.page_store.specs.Bitfiles.{shown_index};
ghost use Rattle.directory_pages.specs.Index.{Fits, IsPageOf, header, spelled_entry, spelling};

use crate::entry::IndexEntry;
use cell_records::{OutOfMemory, Page, put};
use std::alloc::Global;

/// The first bytes of an index page, `DIRX`, as a number.
const MAGIC: u32 = 0x5852_4944;

/// The widths of the numbers that a page begins with: `DIRX`, how many entries there are, and zeros
/// for the next page.
const HEADER: [u8; 3] = [4, 4, 8];

/// The widths of the numbers of an entry.
const ENTRY: [u8; 2] = [4; 2];

/// Writes the header of a page of `count` entries.
fn put_header(page: &mut Page, count: usize)
    requires { count ≤ 1022 }
    ensures value { page.new ≡ overwritten page.old 0 (header count) }
    ensures len { length page.new ≡ 8192 }
{
    let mut bytes = [0; 16];
    let numbers = [u64::from(MAGIC), count as u64, 0];
    put(&HEADER, &numbers, &mut bytes);
    page.set(0, &bytes);
}

/// Writes an entry of a page.
fn put_entry(page: &mut Page, place: usize, entry: &IndexEntry)
    requires { place < 1022 }
    ensures value { page.new ≡ overwritten page.old (16 + 8 * place) (spelled_entry entry.now) }
    ensures fits { Fits entry.now }
    ensures len { length page.new ≡ 8192 }
{
    let mut bytes = [0; 8];
    let numbers = [u64::from(entry.hash), u64::from(entry.page)];
    put(&ENTRY, &numbers, &mut bytes);
    page.set(16 + 8 * place, &bytes);
}

/// Writes entries to a page, from its first one on.
fn put_entries(page: &mut Page, entries: &[IndexEntry])
    requires whole { length page.old ≡ 8192 }
    requires few { length entries.now ≤ 1022 }
    ensures value { page.new ≡ take 16 page.old ++ spelling entries.now
        ++ drop (16 + 8 * length entries.now) page.old }
    ensures fit { AllByRecursion Fits entries.now }
{
    for (place, entry) in entries.iter().enumerate() {
        put_entry(page, place, entry);
    }
}

/// A page that a set shows as a page of these entries, at most 1,022 of them.
pub(crate) fn entry_page(alloc: Global, entries: &[IndexEntry]) -> Result<Page, OutOfMemory>
    requires { length entries.now ≤ 1022 }
    ensures { IfOk result (λ page. IsPageOf entries.now (shown_index page)) }
{
    let mut page = Page::zeros(alloc)?;
    put_header(&mut page, entries.len());
    put_entries(&mut page, entries);
    Ok(page)
}
