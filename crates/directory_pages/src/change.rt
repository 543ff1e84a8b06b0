//! Changes of an index.
ghost use Rattle.std.specs.Prelude.{◌≡◌, ◌+◌, ◌<◌, ◌≤◌, [], true, is_some, length, IfErr, IfOk, OnErr, OnOk};
ghost use Rattle.page_store.specs.declared.fault.StoreFault.TheVariants.{OutOfMemory as NoMemory};
ghost use Rattle.page_store.specs.Bitfiles.{IsCounted, IsDirectory, count_index};
ghost use Rattle.directory_pages.specs.Changes.{Adds, AddsEntry, Cuts, InsertsPage, OnlyIndex, PutsPage, RemovesEntry, SetsEntries, Spreads};
ghost use Rattle.directory_pages.specs.Entries.{Has, Rise, first_from};
ghost use Rattle.directory_pages.specs.Index.{IsIndex, IsIndexPage, all_entries, entries_of, index_pages, part_count};

use crate::entry::IndexEntry;
use crate::index_page::{ENTRIES, count_below, read_entries};
use crate::search::{page_for, page_from, part_at};
use crate::write::entry_page;
use cell_records::{OutOfMemory, Page, Tag};
use page_store::{BitfileSet, StoreFault};
use std::alloc::Global;

/// Puts an index page of these entries at a number.
fn put_part<S: BitfileSet>(
    set: &mut S,
    alloc: Global,
    dir: Tag,
    number: usize,
    entries: &[IndexEntry],
) -> Result<(), StoreFault>
    requires directory { IsDirectory (S.files set.old) dir }
    requires place { number ≤ count_index (S.files set.old) dir }
    requires few { length entries.now ≤ 1022 }
    ensures ok { OnOk result (PutsPage dir number entries.now (S.files set.old) (S.files set.new)) }
    ensures err { OnErr result (S.files set.new ≡ S.files set.old) }
    ensures no_page { IfErr result (IsCounted (S.missed set.old) (S.missed set.new)) }
    ensures count { S.missed set.old ≤ S.missed set.new }
    ensures changes { S.changes set.new ≤ 1 + S.changes set.old }
    ensures in_place { S.writes_in_place set.old → number < count_index (S.files set.old) dir
        → IfErr result (λ fault. fault ≡ NoMemory) }
    ensures rest { S.leaves_rest set.old set.new }
{
    let Ok(place) = u32::try_from(number) else {
        return Err(StoreFault::OutOfMemory);
    };
    let page = entry_page(alloc, entries)?;
    set.put_index_page(alloc, dir, place, page)
}

/// Puts a new index page of these entries before those from a number on.
fn insert_part<S: BitfileSet>(
    set: &mut S,
    alloc: Global,
    dir: Tag,
    number: usize,
    entries: &[IndexEntry],
) -> Result<(), StoreFault>
    requires directory { IsDirectory (S.files set.old) dir }
    requires place { number ≤ count_index (S.files set.old) dir }
    requires few { length entries.now ≤ 1022 }
    ensures ok { OnOk result (InsertsPage dir number entries.now (S.files set.old)
        (S.files set.new)) }
    ensures err { OnErr result (S.files set.new ≡ S.files set.old) }
    ensures no_page { IfErr result (IsCounted (S.missed set.old) (S.missed set.new)) }
    ensures count { S.missed set.old ≤ S.missed set.new }
    ensures changes { S.changes set.new ≤ 1 + S.changes set.old }
    ensures rest { S.leaves_rest set.old set.new }
{
    let Ok(place) = u32::try_from(number) else {
        return Err(StoreFault::OutOfMemory);
    };
    let page = entry_page(alloc, entries)?;
    set.insert_index_page(alloc, dir, place, page)
}

/// Makes the index of a directory that has none, from entries in rising order. Equal ones may
/// follow each other. After an error nothing but the directory's index may have changed.
pub fn build<S: BitfileSet>(
    set: &mut S,
    alloc: Global,
    dir: Tag,
    entries: &[IndexEntry],
) -> Result<(), StoreFault>
    requires directory { IsDirectory (S.files set.old) dir }
    requires none { index_pages (S.files set.old) dir ≡ [] }
    requires rise { Rise entries.now }
    ensures ok { OnOk result (SetsEntries dir entries.now (S.files set.old) (S.files set.new)) }
    ensures err { OnErr result (OnlyIndex dir (S.files set.old) (S.files set.new)) }
    ensures directory { IsDirectory (S.files set.new) dir }
    ensures no_page { IfErr result (IsCounted (S.missed set.old) (S.missed set.new)) }
    ensures count { S.missed set.old ≤ S.missed set.new }
    ensures changes { S.changes set.new ≤ part_count (length entries.now) + S.changes set.old }
    ensures rest { S.leaves_rest set.old set.new }
{
    let pages = entries.len().div_ceil(ENTRIES).max(1);
    for number in 0..pages {
        let from = ENTRIES * number;
        let end = entries.len().min(from + ENTRIES);
        put_part(set, alloc, dir, number, &entries[from..end])?;
    }
    Ok(())
}

/// The entries of a page without the first one that is not below the key. There is such an entry.
fn entries_without(
    alloc: Global,
    page: &Page,
    key: &IndexEntry,
) -> Result<Vec<IndexEntry>, OutOfMemory>
    requires page { IsIndexPage page.now }
    requires there { is_some (first_from key.now (entries_of page.now)) ≡ true }
    ensures cut { IfOk result (λ list. Cuts key.now (entries_of page.now) list.items) }
    ensures few { IfOk result (λ list. length list.items ≤ 1022) }
{
    let mut list = read_entries(alloc, page)?;
    let place = count_below(list.as_slice(), key);
    list.remove(place);
    Ok(list)
}

/// Takes one entry out of the index of a directory. The entry is there. Of several equal ones, one
/// goes. After an error nothing has changed.
pub fn remove_entry<S: BitfileSet>(
    set: &mut S,
    alloc: Global,
    dir: Tag,
    entry: IndexEntry,
) -> Result<(), StoreFault>
    requires directory { IsDirectory (S.files set.old) dir }
    requires index { IsIndex (index_pages (S.files set.old) dir) }
    requires there { Has (all_entries (index_pages (S.files set.old) dir)) entry.hash entry.page }
    ensures ok { OnOk result (RemovesEntry dir entry (S.files set.old) (S.files set.new)) }
    ensures err { OnErr result (S.files set.new ≡ S.files set.old) }
    ensures directory { IsDirectory (S.files set.new) dir }
    ensures no_page { IfErr result (IsCounted (S.missed set.old) (S.missed set.new)) }
    ensures count { S.missed set.old ≤ S.missed set.new }
    ensures changes { S.changes set.new ≤ 1 + S.changes set.old }
    ensures in_place { S.writes_in_place set.old → IfErr result (λ fault. fault ≡ NoMemory) }
    ensures rest { S.leaves_rest set.old set.new }
{
    let pages = set.index_pages(dir);
    let Some(number) = page_from(set, dir, &entry, 0, pages) else {
        return Ok(());
    };
    let Some(page) = part_at(set, dir, number) else {
        return Ok(());
    };
    let list = entries_without(alloc, page, &entry)?;
    put_part(set, alloc, dir, number as usize, list.as_slice())
}

/// The entries of a page and one more, which stands before the first that is not below it.
fn entries_with(
    alloc: Global,
    page: &Page,
    key: &IndexEntry,
) -> Result<Vec<IndexEntry>, OutOfMemory>
    requires { IsIndexPage page.now }
    ensures adds { IfOk result (λ list. Adds key.now (entries_of page.now) list.items) }
    ensures few { IfOk result (λ list. length list.items ≤ 1023) }
{
    let mut list = read_entries(alloc, page)?;
    let place = count_below(list.as_slice(), key);
    list.insert(place, *key)?;
    Ok(list)
}

/// Puts entries, perhaps one too many for a page, on the page of a number. If there is one too
/// many, the second half goes to a new page after it.
fn spread<S: BitfileSet>(
    set: &mut S,
    alloc: Global,
    dir: Tag,
    number: usize,
    list: &[IndexEntry],
) -> Result<(), StoreFault>
    requires directory { IsDirectory (S.files set.old) dir }
    requires place { number < count_index (S.files set.old) dir }
    requires few { length list.now ≤ 1023 }
    ensures ok { OnOk result (Spreads dir number list.now (S.files set.old) (S.files set.new)) }
    ensures err { OnErr result (OnlyIndex dir (S.files set.old) (S.files set.new)) }
    ensures no_page { IfErr result (IsCounted (S.missed set.old) (S.missed set.new)) }
    ensures count { S.missed set.old ≤ S.missed set.new }
    ensures changes { S.changes set.new ≤ 2 + S.changes set.old }
    ensures rest { S.leaves_rest set.old set.new }
{
    if list.len() <= ENTRIES {
        return put_part(set, alloc, dir, number, list);
    }
    let half = ENTRIES / 2;
    insert_part(set, alloc, dir, number + 1, &list[half..])?;
    put_part(set, alloc, dir, number, &list[..half])
}

/// Adds an entry to the index of a directory, after all that are below it. After an error nothing
/// but the directory's index may have changed.
pub fn add_entry<S: BitfileSet>(
    set: &mut S,
    alloc: Global,
    dir: Tag,
    entry: IndexEntry,
) -> Result<(), StoreFault>
    requires directory { IsDirectory (S.files set.old) dir }
    requires index { IsIndex (index_pages (S.files set.old) dir) }
    ensures ok { OnOk result (AddsEntry dir entry (S.files set.old) (S.files set.new)) }
    ensures err { OnErr result (OnlyIndex dir (S.files set.old) (S.files set.new)) }
    ensures directory { IsDirectory (S.files set.new) dir }
    ensures no_page { IfErr result (IsCounted (S.missed set.old) (S.missed set.new)) }
    ensures count { S.missed set.old ≤ S.missed set.new }
    ensures changes { S.changes set.new ≤ 2 + S.changes set.old }
    ensures rest { S.leaves_rest set.old set.new }
{
    let number = page_for(set, dir, &entry);
    let Some(page) = part_at(set, dir, number) else {
        return Ok(());
    };
    let list = entries_with(alloc, page, &entry)?;
    spread(set, alloc, dir, number as usize, list.as_slice())
}
