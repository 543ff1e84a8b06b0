//! Steps on the index of a directory, each with what the next one asks for.
ghost use Rattle.std.specs.Prelude.{IfOk, OnOk};
ghost use Rattle.directory_rows.specs.directory_pages.Entries.{Rise};
ghost use Rattle.directory_tables.specs.Steps.{HasIndex};

use directory_rows::{
    BitfileSet, IndexEntry, MemoryBitfiles, OutOfMemory, StoreFault, Tag, add_entry, build,
    next_page, remove_entry,
};
use std::alloc::Global;

/// The tag of the root directory.
pub(crate) const ROOT: Tag = Tag { slot: 1, seq: 1 };

/// The root directory alone, with an index of these entries. The numbers are those of the changing
/// calls that find no page.
pub(crate) fn indexed(
    alloc: Global,
    misses: Vec<u64>,
    entries: &[IndexEntry],
) -> Result<MemoryBitfiles, StoreFault>
    requires { Rise entries.now }
    ensures { IfOk result (λ set. HasIndex ROOT (⟦<MemoryBitfiles as BitfileSet>⟧.files set)) }
{
    let mut set = MemoryBitfiles::new(alloc, misses)?;
    build(&mut set, alloc, ROOT, entries)?;
    Ok(set)
}

/// So many entries of page 0, with the hashes from 0 on.
pub(crate) fn rising(alloc: Global, count: u32) -> Result<Vec<IndexEntry>, OutOfMemory>
    ensures { IfOk result (λ list. Rise list.items) }
{
    let mut entries = Vec::new(alloc);
    for hash in 0..count {
        entries.push(IndexEntry { hash, page: 0 })?;
    }
    Ok(entries)
}

/// The least page from one on that an entry of the hash names, or 999 if there is none.
pub(crate) fn page_of<S: BitfileSet>(set: &S, dir: Tag, hash: u32, from: u32) -> u32
    requires { HasIndex dir (S.files set.now) }
{
    next_page(set, dir, hash, from).unwrap_or(999)
}

/// Adds an entry.
pub(crate) fn add<S: BitfileSet>(
    set: &mut S,
    alloc: Global,
    dir: Tag,
    entry: IndexEntry,
) -> Result<(), StoreFault>
    requires { HasIndex dir (S.files set.old) }
    ensures { OnOk result (HasIndex dir (S.files set.new)) }
{
    add_entry(set, alloc, dir, entry)
}

/// Removes an entry, if it is there, and tells whether it was.
pub(crate) fn remove<S: BitfileSet>(
    set: &mut S,
    alloc: Global,
    dir: Tag,
    entry: IndexEntry,
) -> Result<bool, StoreFault>
    requires { HasIndex dir (S.files set.old) }
    ensures { OnOk result (HasIndex dir (S.files set.new)) }
{
    let Some(page) = next_page(set, dir, entry.hash, entry.page) else {
        return Ok(false);
    };
    if page != entry.page {
        return Ok(false);
    }
    remove_entry(set, alloc, dir, entry)?;
    Ok(true)
}

/// The entry of a number: hashes below 1,201, each once for numbers below 1,201.
pub(crate) fn entry_of(number: u32) -> IndexEntry {
    IndexEntry {
        hash: (u64::from(number) * 700 % 1_201) as u32,
        page: number % 4,
    }
}

/// Adds the entries of the first `count` numbers.
pub(crate) fn add_all<S: BitfileSet>(
    set: &mut S,
    alloc: Global,
    dir: Tag,
    count: u32,
) -> Result<(), StoreFault>
    requires { HasIndex dir (S.files set.old) }
    ensures { OnOk result (HasIndex dir (S.files set.new)) }
{
    for number in 0..count {
        add(set, alloc, dir, entry_of(number))?;
    }
    Ok(())
}

/// Removes the entries of the odd ones of the first `count` numbers, and tells how many were there.
pub(crate) fn remove_odd<S: BitfileSet>(
    set: &mut S,
    alloc: Global,
    dir: Tag,
    count: u32,
) -> Result<u32, StoreFault>
    requires { HasIndex dir (S.files set.old) }
    ensures { OnOk result (HasIndex dir (S.files set.new)) }
{
    let mut removed: u32 = 0;
    for number in 0..count {
        if number % 2 == 1 && remove(set, alloc, dir, entry_of(number))? {
            removed = removed.saturating_add(1);
        }
    }
    Ok(removed)
}

/// How many of the entries of the first `count` numbers are found by their hash.
pub(crate) fn count_found<S: BitfileSet>(set: &S, dir: Tag, count: u32) -> u32
    requires { HasIndex dir (S.files set.now) }
{
    let mut found: u32 = 0;
    for number in 0..count {
        let entry = entry_of(number);
        if page_of(set, dir, entry.hash, 0) == entry.page {
            found = found.saturating_add(1);
        }
    }
    found
}
