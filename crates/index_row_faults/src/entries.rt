//! The entries of an index, as they stand on its pages.
ghost use Rattle.std.specs.Prelude.{◌≡◌, ◌++◌, ◌<◌, ◌≤◌, IfOk, OnOk, length};
ghost use Rattle.page_faults.specs.directory_pages.Index.{entry_at as entry_there};
ghost use Rattle.page_faults.specs.domain_layout.DirectoryRules.{entries_in};
ghost use Rattle.index_row_faults.specs.Entries.{entries_at, entries_on, placed};

use page_faults::{Home, IndexEntry, MetaPages, OutOfMemory, Page, u32_at};
use std::alloc::Global;

/// An entry, and the page on which it stands.
#[derive(Drop)]
pub(crate) struct EntryAt {
    pub home: Home,
    pub entry: IndexEntry,
}

/// How many entries are read of a page: 0 if it says that it has more than a page can have.
fn count_entries(page: &Page) -> usize
    ensures count { result ≡ length (entries_in page.now) }
    ensures most { result ≤ 1022 }
{
    let count = u32_at(page.bytes(), 4);
    if count <= 1022 { count as usize } else { 0 }
}

/// An entry of a page.
fn entry_at(page: &Page, number: usize) -> IndexEntry
    requires { number < 1022 }
    ensures { result ≡ entry_there page.now number }
{
    let bytes = page.bytes();
    IndexEntry {
        hash: u32_at(bytes, 16 + 8 * number),
        page: u32_at(bytes, 20 + 8 * number),
    }
}

/// Appends the entries of a page to others.
fn push_entries(page: &Page, home: &Home, entries: &mut Vec<EntryAt>) -> Result<(), OutOfMemory>
    ensures { OnOk result (entries.new.items
        ≡ entries.old.items ++ placed home.now (entries_in page.now)) }
{
    for number in 0..count_entries(page) {
        let entry = entry_at(page, number);
        entries.push(EntryAt { home: *home, entry })?;
    }
    Ok(())
}

/// Appends the entries of the page at a home to others.
fn push_entries_at<M: MetaPages>(
    pages: &M,
    home: &Home,
    entries: &mut Vec<EntryAt>,
) -> Result<(), OutOfMemory>
    ensures { OnOk result (entries.new.items
        ≡ entries.old.items ++ entries_at (M.pages pages.now) home.now) }
{
    match pages.get(*home) {
        Some(page) => push_entries(page, home, entries),
        None => Ok(()),
    }
}

/// The entries of pages, page after page.
pub(crate) fn read_entries<M: MetaPages>(
    alloc: Global,
    pages: &M,
    homes: &[Home],
) -> Result<Vec<EntryAt>, OutOfMemory>
    ensures { IfOk result (λ entries. entries.items
        ≡ entries_on (M.pages pages.now) homes.now) }
{
    let mut entries = Vec::new(alloc);
    for home in homes {
        push_entries_at(pages, home, &mut entries)?;
    }
    Ok(entries)
}
