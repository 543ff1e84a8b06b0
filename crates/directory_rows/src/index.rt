//! The index of a directory after a row was put on its pages or taken off them.
ghost use Rattle.std.specs.Prelude.{◌≡◌, ◌+◌, ◌*◌, ◌⊎◌, ◌++◌, ◌≤◌, [], IfErr, IfOk, OnErr, OnOk, length};
ghost use Rattle.std.specs.List.{AllByRecursion};
ghost use Rattle.directory_pages.specs.page_store.declared.fault.StoreFault.TheVariants.{OutOfMemory as NoMemory};
ghost use Rattle.directory_pages.specs.page_store.Bitfiles.{IsCounted, IsDirectory, count_pages};
ghost use Rattle.directory_pages.specs.RowPage.{IsDirPage};
ghost use Rattle.directory_pages.specs.Changes.{OnlyIndex};
ghost use Rattle.directory_pages.specs.Entries.{Rise};
ghost use Rattle.directory_pages.specs.Index.{index_pages};
ghost use Rattle.directory_rows.specs.Directory.{AreEntriesOf, row_pages, rows_at};
ghost use Rattle.directory_rows.specs.Steps.{CompletesIndex, LacksEntry, SparesEntry, TrimsIndex, entries_for};

use crate::look::has_index;
use directory_pages::{
    BitfileSet, IndexEntry, OutOfMemory, Rows, StoreFault, Tag, add_entry, build, name_hash,
    remove_entry,
};
use std::alloc::Global;

/// Adds the entries of one page's rows after others.
fn push_entries<S: BitfileSet>(
    set: &S,
    dir: Tag,
    number: u32,
    entries: &mut Vec<IndexEntry>,
) -> Result<(), OutOfMemory>
    requires { AllByRecursion IsDirPage (row_pages (S.files set.now) dir) }
    ensures { OnOk result (entries.new.items ≡ entries.old.items
        ++ entries_for number (rows_at number (row_pages (S.files set.now) dir))) }
{
    let Some(page) = set.dir_page(dir, number) else {
        return Ok(());
    };
    for row in Rows::new(page) {
        entries.push(IndexEntry {
            hash: name_hash(row.name),
            page: number,
        })?;
    }
    Ok(())
}

/// The entries of all rows of a directory, page after page.
fn gather_entries<S: BitfileSet>(
    set: &S,
    alloc: Global,
    dir: Tag,
) -> Result<Vec<IndexEntry>, OutOfMemory>
    requires { AllByRecursion IsDirPage (row_pages (S.files set.now) dir) }
    ensures exact { IfOk result (λ list. AreEntriesOf (row_pages (S.files set.now) dir)
        list.items) }
    ensures few { IfOk result (λ list. length list.items ≤ 1022 * count_pages (S.files set.now)
        dir) }
{
    let mut entries = Vec::new(alloc);
    for number in 0..set.dir_pages(dir) {
        push_entries(set, dir, number, &mut entries)?;
    }
    Ok(entries)
}

/// The entries of all rows of a directory, in the order of entries.
fn sorted_entries<S: BitfileSet>(
    set: &S,
    alloc: Global,
    dir: Tag,
) -> Result<Vec<IndexEntry>, OutOfMemory>
    requires { AllByRecursion IsDirPage (row_pages (S.files set.now) dir) }
    ensures exact { IfOk result (λ list. AreEntriesOf (row_pages (S.files set.now) dir)
        list.items) }
    ensures few { IfOk result (λ list. length list.items ≤ 1022 * count_pages (S.files set.now)
        dir) }
    ensures rise { IfOk result (λ list. Rise list.items) }
{
    let mut entries = gather_entries(set, alloc, dir)?;
    entries.sort_by_key(|entry| (entry.hash, entry.page))?;
    Ok(entries)
}

/// Makes the index of a directory that has none.
fn build_index<S: BitfileSet>(set: &mut S, alloc: Global, dir: Tag) -> Result<(), StoreFault>
    requires directory { IsDirectory (S.files set.old) dir }
    requires pages { AllByRecursion IsDirPage (row_pages (S.files set.old) dir) }
    requires some { 2 ≤ length (row_pages (S.files set.old) dir) }
    requires few { length (row_pages (S.files set.old) dir) ≤ 4 }
    requires none { index_pages (S.files set.old) dir ≡ [] }
    ensures ok { OnOk result (CompletesIndex dir (S.files set.old) (S.files set.new)) }
    ensures err { OnErr result (OnlyIndex dir (S.files set.old) (S.files set.new)) }
    ensures no_page { IfErr result (IsCounted (S.missed set.old) (S.missed set.new)) }
    ensures count { S.missed set.old ≤ S.missed set.new }
    ensures changes { S.changes set.new ≤ 4 + S.changes set.old }
    ensures rest { S.leaves_rest set.old set.new }
{
    let entries = sorted_entries(set, alloc, dir)?;
    build(set, alloc, dir, entries.as_slice())
}

/// Adds the entry of a row that was put on a page to the directory's index. A directory of two to
/// four pages without an index gets one.
pub(crate) fn index_row<S: BitfileSet>(
    set: &mut S,
    alloc: Global,
    dir: Tag,
    entry: IndexEntry,
) -> Result<(), StoreFault>
    requires directory { IsDirectory (S.files set.old) dir }
    requires pages { AllByRecursion IsDirPage (row_pages (S.files set.old) dir) }
    requires index { (index_pages (S.files set.old) dir ≡ [])
        ⊎ LacksEntry entry (row_pages (S.files set.old) dir) (index_pages (S.files set.old) dir) }
    ensures ok { OnOk result (CompletesIndex dir (S.files set.old) (S.files set.new)) }
    ensures err { OnErr result (OnlyIndex dir (S.files set.old) (S.files set.new)) }
    ensures no_page { IfErr result (IsCounted (S.missed set.old) (S.missed set.new)) }
    ensures count { S.missed set.old ≤ S.missed set.new }
    ensures changes { S.changes set.new ≤ 4 + S.changes set.old }
    ensures rest { S.leaves_rest set.old set.new }
{
    if has_index(set, dir) {
        return add_entry(set, alloc, dir, entry);
    }
    let pages = set.dir_pages(dir);
    if 2 <= pages && pages <= 4 {
        return build_index(set, alloc, dir);
    }
    Ok(())
}

/// Takes the entry of a row that was taken off a page out of the directory's index, if it has one.
pub(crate) fn forget_row<S: BitfileSet>(
    set: &mut S,
    alloc: Global,
    dir: Tag,
    entry: IndexEntry,
) -> Result<(), StoreFault>
    requires directory { IsDirectory (S.files set.old) dir }
    requires index { (index_pages (S.files set.old) dir ≡ [])
        ⊎ SparesEntry entry (row_pages (S.files set.old) dir) (index_pages (S.files set.old) dir) }
    ensures ok { OnOk result (TrimsIndex dir (S.files set.old) (S.files set.new)) }
    ensures err { OnErr result (OnlyIndex dir (S.files set.old) (S.files set.new)) }
    ensures no_page { IfErr result (IsCounted (S.missed set.old) (S.missed set.new)) }
    ensures count { S.missed set.old ≤ S.missed set.new }
    ensures changes { S.changes set.new ≤ 1 + S.changes set.old }
    ensures in_place { S.writes_in_place set.old → IfErr result (λ fault. fault ≡ NoMemory) }
    ensures rest { S.leaves_rest set.old set.new }
{
    if has_index(set, dir) {
        return remove_entry(set, alloc, dir, entry);
    }
    Ok(())
}
