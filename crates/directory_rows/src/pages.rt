//! Pages of a directory with one row more or less.
ghost use Rattle.std.specs.Prelude.{◌≡◌, [], true, IfErr, IfOk, OnErr, OnOk, ◌≤◌, ◌+◌};
ghost use Rattle.directory_pages.specs.domain_base.Page.{zero_bytes};
ghost use Rattle.directory_pages.specs.page_store.declared.fault.StoreFault.TheVariants.{OutOfMemory as NoMemory};
ghost use Rattle.directory_pages.specs.page_store.Bitfiles.{IsCounted};
ghost use Rattle.directory_pages.specs.RowPage.{HasRows};
ghost use Rattle.directory_pages.specs.Rows.{is_named, is_row_name};
ghost use Rattle.directory_rows.specs.Directory.{IsWellFormed, row_pages, rows_at};
ghost use Rattle.directory_rows.specs.RowChanges.{IsFirstWithRoom, fits_at};
ghost use Rattle.directory_rows.specs.Steps.{IsCopyOf, PutsRowIn, TakesRow};

use directory_pages::limits::FILE_PAGES;
use directory_pages::{BitfileSet, Kind, OutOfMemory, Page, StoreFault, Tag, clear_rows, has_room};
use std::alloc::Global;

/// Whether a row of this name fits on the page of that number, or on a new one if it is not there.
fn has_room_on<S: BitfileSet>(set: &S, dir: Tag, name: &[u8], number: u32) -> bool
    requires good { IsWellFormed (S.files set.now) dir }
    requires name { is_row_name name.now ≡ true }
    ensures { result ≡ fits_at name.now number (row_pages (S.files set.now) dir) }
{
    match set.dir_page(dir, number) {
        Some(page) => has_room(page, name),
        None => true,
    }
}

/// The number of the first page with room for a row of this name, or the number of pages if none
/// has room.
fn page_with_room<S: BitfileSet>(set: &S, dir: Tag, name: &[u8]) -> u32
    requires good { IsWellFormed (S.files set.now) dir }
    requires name { is_row_name name.now ≡ true }
    ensures { IsFirstWithRoom name.now (row_pages (S.files set.now) dir) result }
{
    let pages = set.dir_pages(dir);
    for number in 0..pages {
        if has_room_on(set, dir, name, number) {
            return number;
        }
    }
    pages
}

/// A page without rows.
fn empty_page(alloc: Global) -> Result<Page, OutOfMemory>
    ensures { IfOk result (HasRows [] (zero_bytes 8176)) }
{
    let mut page = Page::zeros(alloc)?;
    clear_rows(&mut page);
    Ok(page)
}

/// A copy of the page of that number, or a page without rows if it is not there.
fn page_copy<S: BitfileSet>(
    set: &S,
    alloc: Global,
    dir: Tag,
    number: u32,
) -> Result<Page, OutOfMemory>
    requires { IsWellFormed (S.files set.now) dir }
    ensures { IfOk result (IsCopyOf number (row_pages (S.files set.now) dir)) }
{
    match set.dir_page(dir, number) {
        Some(page) => page.copy(alloc),
        None => empty_page(alloc),
    }
}

/// Adds a row after those of the first page with room for it, or on a new page, and returns the
/// page's number. Also fails as out of memory if each of 65,536 pages is full.
pub(crate) fn put_row<S: BitfileSet>(
    set: &mut S,
    alloc: Global,
    dir: Tag,
    tag: Tag,
    kind: Kind,
    name: &[u8],
) -> Result<u32, StoreFault>
    requires good { IsWellFormed (S.files set.old) dir }
    requires name { is_row_name name.now ≡ true }
    ensures ok { IfOk result (λ number. PutsRowIn dir (record {
      tag = tag;
      kind = kind;
      name = name.now;
    }) number (S.files set.old) (S.files set.new)) }
    ensures err { OnErr result (S.files set.new ≡ S.files set.old) }
    ensures no_page { IfErr result (IsCounted (S.missed set.old) (S.missed set.new)) }
    ensures count { S.missed set.old ≤ S.missed set.new }
    ensures changes { S.changes set.new ≤ 1 + S.changes set.old }
    ensures rest { S.leaves_rest set.old set.new }
{
    let number = page_with_room(set, dir, name);
    if number >= FILE_PAGES {
        return Err(StoreFault::OutOfMemory);
    }
    let mut page = page_copy(set, alloc, dir, number)?;
    directory_pages::add_row(&mut page, tag, kind, name);
    set.put_dir_page(alloc, dir, number, page)?;
    Ok(number)
}

/// Takes the row of a name off the page of that number, which has that row.
pub(crate) fn take_row<S: BitfileSet>(
    set: &mut S,
    alloc: Global,
    dir: Tag,
    number: u32,
    name: &[u8],
) -> Result<(), StoreFault>
    requires good { IsWellFormed (S.files set.old) dir }
    requires there { is_named name.now (rows_at number (row_pages (S.files set.old) dir)) ≡ true }
    ensures ok { OnOk result (TakesRow dir name.now number (S.files set.old) (S.files set.new)) }
    ensures err { OnErr result (S.files set.new ≡ S.files set.old) }
    ensures no_page { IfErr result (IsCounted (S.missed set.old) (S.missed set.new)) }
    ensures count { S.missed set.old ≤ S.missed set.new }
    ensures changes { S.changes set.new ≤ 1 + S.changes set.old }
    ensures in_place { S.writes_in_place set.old → IfErr result (λ fault. fault ≡ NoMemory) }
    ensures rest { S.leaves_rest set.old set.new }
{
    let mut page = page_copy(set, alloc, dir, number)?;
    directory_pages::remove_row(&mut page, name);
    set.put_dir_page(alloc, dir, number, page)
}
