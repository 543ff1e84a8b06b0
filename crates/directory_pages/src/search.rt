//! The pages of a directory that have rows of a hash.
ghost use Rattle.std.specs.Prelude.{◌≡◌, ◌+◌, ◌<◌, ◌≤◌, length, IfSome, IfNone};
ghost use Rattle.std.specs.Option.{option_copied};
ghost use Rattle.directory_pages.specs.Changes.{IsPageFor};
ghost use Rattle.directory_pages.specs.Entries.{HasNext, IsNext, first_from};
ghost use Rattle.directory_pages.specs.Index.{IsFirstPage, IsIndex, IsPart, all_entries, index_pages};

use crate::entry::IndexEntry;
use crate::index_page::{ends_below, first_on};
use cell_records::{Page, Tag};
use page_store::BitfileSet;

/// The page of that number of an index, with the entries that it has. Returns None if there is no
/// such page.
pub(crate) fn part_at<S: BitfileSet>(set: &S, dir: Tag, number: u32) -> Option<&Page>
    requires { IsIndex (index_pages (S.files set.now) dir) }
    ensures { IsPart (index_pages (S.files set.now) dir) number (option_copied result) }
{
    set.index_page(dir, number)
}

/// The first page of an index, of those from one number to another, that has an entry which is not
/// below the key. Each look halves the pages. It looks at both halves only if the page between them
/// has no entry.
pub(crate) fn page_from<S: BitfileSet>(
    set: &S,
    dir: Tag,
    key: &IndexEntry,
    low: u32,
    high: u32,
) -> Option<u32>
    requires { IsIndex (index_pages (S.files set.now) dir) }
    ensures { IsFirstPage key.now (index_pages (S.files set.now) dir) low high result }
{
    if low >= high {
        return None;
    }
    let middle = low + (high - low) / 2;
    let Some(page) = part_at(set, dir, middle) else {
        return page_from(set, dir, key, low, middle);
    };
    if ends_below(page, key) {
        return page_from(set, dir, key, middle + 1, high);
    }
    let before = page_from(set, dir, key, low, middle);
    if before.is_some() {
        return before;
    }
    if first_on(page, key).is_some() {
        return Some(middle);
    }
    page_from(set, dir, key, middle + 1, high)
}

/// The page of an index to which an entry goes: the first that has an entry not below it, or the
/// last page.
pub(crate) fn page_for<S: BitfileSet>(set: &S, dir: Tag, key: &IndexEntry) -> u32
    requires { IsIndex (index_pages (S.files set.now) dir) }
    ensures { IsPageFor key.now (index_pages (S.files set.now) dir) result }
{
    let pages = set.index_pages(dir);
    match page_from(set, dir, key, 0, pages) {
        Some(number) => number,
        None => pages - 1,
    }
}

/// The first entry of an index that is not below the key.
fn first_entry<S: BitfileSet>(set: &S, dir: Tag, key: &IndexEntry) -> Option<IndexEntry>
    requires { IsIndex (index_pages (S.files set.now) dir) }
    ensures { result ≡ first_from key.now (all_entries (index_pages (S.files set.now) dir)) }
{
    let pages = set.index_pages(dir);
    let number = page_from(set, dir, key, 0, pages)?;
    let page = part_at(set, dir, number)?;
    first_on(page, key)
}

/// The page on which a name of the hash may stand next: the first of the directory's pages from
/// `from` on for which the index has an entry of that hash. Returns None if it has no such entry.
pub fn next_page<S: BitfileSet>(set: &S, dir: Tag, hash: u32, from: u32) -> Option<u32>
    requires { IsIndex (index_pages (S.files set.now) dir) }
    ensures some { IfSome result (IsNext hash from
        (all_entries (index_pages (S.files set.now) dir))) }
    ensures none { IfNone result (¬ HasNext hash from
        (all_entries (index_pages (S.files set.now) dir))) }
{
    let key = IndexEntry { hash, page: from };
    let entry = first_entry(set, dir, &key)?;
    if entry.hash == hash {
        Some(entry.page)
    } else {
        None
    }
}
