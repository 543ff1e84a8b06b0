//! Index pages and their entries.
ghost use Rattle.std.specs.Prelude.{◌≡◌, ◌+◌, ◌-◌, ◌<◌, ◌≤◌, true, IfOk, length, take, drop};
ghost use Rattle.cell_records.specs.Fields.{number_at};
ghost use Rattle.directory_pages.specs.Entries.{EndsBelow, IsPlace, Rise, first_from};
ghost use Rattle.directory_pages.specs.Index.{IsIndexPage, entries_of, entry_at};

use crate::entry::{IndexEntry, is_below};
use cell_records::{OutOfMemory, Page, u32_at};
use std::alloc::Global;

/// The most entries that a page has.
pub(crate) const ENTRIES: usize = 1_022;

/// How many entries an index page has.
fn count_entries(page: &Page) -> usize
    requires { IsIndexPage page.now }
    ensures count { result ≡ number_at 4 4 page.now }
    ensures most { result ≤ 1022 }
{
    u32_at(page.bytes(), 4) as usize
}

/// An entry of an index page.
fn read_entry(page: &Page, entry: usize) -> IndexEntry
    requires { entry < 1022 }
    ensures { result ≡ entry_at page.now entry }
{
    let bytes = page.bytes();
    IndexEntry {
        hash: u32_at(bytes, 16 + 8 * entry),
        page: u32_at(bytes, 20 + 8 * entry),
    }
}

/// Whether the last entry of a page is below the key. Returns false if the page has none.
pub(crate) fn ends_below(page: &Page, key: &IndexEntry) -> bool
    requires { IsIndexPage page.now }
    ensures { result ≡ true → EndsBelow key.now (entries_of page.now) }
{
    let count = count_entries(page);
    0 < count && is_below(&read_entry(page, count - 1), key)
}

/// The first of the entries of a page from one number to another that is not below the key.
fn first_among(page: &Page, key: &IndexEntry, low: usize, high: usize) -> Option<IndexEntry>
    requires page { IsIndexPage page.now }
    requires rise { Rise (entries_of page.now) }
    requires within { high ≤ number_at 4 4 page.now }
    ensures { result ≡ first_from key.now (take (high - low) (drop low (entries_of page.now))) }
{
    if low >= high {
        return None;
    }
    let middle = low + (high - low) / 2;
    let entry = read_entry(page, middle);
    if is_below(&entry, key) {
        return first_among(page, key, middle + 1, high);
    }
    Some(first_among(page, key, low, middle).unwrap_or(entry))
}

/// The first entry of a page that is not below the key. Each look halves the entries.
pub(crate) fn first_on(page: &Page, key: &IndexEntry) -> Option<IndexEntry>
    requires page { IsIndexPage page.now }
    requires rise { Rise (entries_of page.now) }
    ensures { result ≡ first_from key.now (entries_of page.now) }
{
    first_among(page, key, 0, count_entries(page))
}

/// Copies of the entries of a page.
pub(crate) fn read_entries(alloc: Global, page: &Page) -> Result<Vec<IndexEntry>, OutOfMemory>
    requires { IsIndexPage page.now }
    ensures { IfOk result (λ list. list.items ≡ entries_of page.now) }
{
    let mut list = Vec::new(alloc);
    for entry in 0..count_entries(page) {
        list.push(read_entry(page, entry))?;
    }
    Ok(list)
}

/// How many entries stand before the first that is not below the key.
pub(crate) fn count_below(entries: &[IndexEntry], key: &IndexEntry) -> usize
    ensures { IsPlace key.now entries.now result }
{
    for (place, entry) in entries.iter().enumerate() {
        if !is_below(entry, key) {
            return place;
        }
    }
    entries.len()
}
