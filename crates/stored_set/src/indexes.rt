//! Looking at the pages of the indexes of directories, and writing them in place.
ghost use Rattle.std.specs.Prelude.{◌≡◌, ◌+◌, ◌-◌, ◌<◌, ◌≤◌, IfSome, List, OnErr, OnOk, Some, length};
ghost use Rattle.std.specs.Option.{option_and_then, option_copied, option_map};
ghost use Rattle.index_pages.specs.domain_base.Limits.{page_bytes};
ghost use Rattle.index_pages.specs.domain_base.declared.place.Home.{Home as HomeOf};
ghost use Rattle.index_pages.specs.page_store.Bitfiles.{Bitfiles as SetOf, IsDirectory, count_index, index_at, put_index, shown_index, with_change};
ghost use Rattle.index_pages.specs.fileset_files.Files.{Chains};
ghost use Rattle.index_pages.specs.fileset_files.Shown.{index_of};
ghost use Rattle.index_pages.specs.fileset_files.Together.{AreTogether};
ghost use Rattle.index_pages.specs.Homes.{AreIndexHomes, HasIndexHomes, shown_at};
ghost use Rattle.stored_set.specs.Whole.{entries_at as told_at, entries_on as told_on};
ghost use Rattle.stored_set.specs.Sets.{HasSet, StandsAsSet, WritesIndexPage};

use index_pages::{
    Bitfiles, FreeCells, FreeSpace, Home, IndexPlace, MetaPages, OutOfMemory, Page, Tag,
    count_index as count_pages, index_home, put_index_page, u32_at,
};
use std::alloc::Global;

/// How many entries one index page can have.
const PAGE_ENTRIES: u32 = 1_022;

/// How many entries an index page says that it has, or none if it says more than one can have. The
/// contract also says that a page has all its bytes.
pub(crate) fn entries_on(page: &Page) -> u32
    ensures value { result ≡ told_on page.now }
    ensures whole { length page.now ≡ page_bytes }
{
    let count = u32_at(page.bytes(), 4);
    if count <= PAGE_ENTRIES { count } else { 0 }
}

/// How many pages the index of a directory has, or 0 if it has none. Takes no memory.
pub fn count_index_of<M: MetaPages>(
    pages: &M,
    space: &FreeSpace,
    cells: &FreeCells,
    files: &Bitfiles,
    tag: Tag,
) -> u32
    requires set { HasSet files.now.fileset files.now.tags space.now cells.now
        (M.pages pages.now) }
    requires directory { (set : SetOf) → StandsAsSet files.now.fileset files.now.tags space.now
        cells.now (M.pages pages.now) set → IsDirectory set tag }
    ensures { (set : SetOf) → StandsAsSet files.now.fileset files.now.tags space.now cells.now
        (M.pages pages.now) set → result ≡ count_index set tag }
{
    match files.index(pages, tag) {
        Some(index) => count_pages(pages, Some(index.first)),
        None => 0,
    }
}

/// A page of a directory's index, counted from 0. Returns None if and only if the index has no such
/// page. Where the next page stands is the index's own: the contract does not say what the page
/// holds for it. Takes no memory.
pub fn index_page_of<'a, M: MetaPages>(
    pages: &'a M,
    space: &FreeSpace,
    cells: &FreeCells,
    files: &Bitfiles,
    tag: Tag,
    page: u32,
) -> Option<&'a Page>
    requires set { HasSet files.now.fileset files.now.tags space.now cells.now
        (M.pages pages.now) }
    requires directory { (set : SetOf) → StandsAsSet files.now.fileset files.now.tags space.now
        cells.now (M.pages pages.now) set → IsDirectory set tag }
    ensures { (set : SetOf) → StandsAsSet files.now.fileset files.now.tags space.now cells.now
        (M.pages pages.now) set → option_map shown_index (option_copied result)
        ≡ option_map shown_index (index_at set tag page) }
{
    let index = files.index(pages, tag)?;
    pages.get(index_home(pages, Some(index.first), page)?)
}

/// How many entries the page of an index with a number says that it has, or 0 if it has no such
/// page.
fn entries_at<M: MetaPages>(pages: &M, first: &Home, number: u32) -> u32
    requires { HasIndexHomes (M.pages pages.now) (Some first.now) }
    ensures { (homes : List HomeOf) → AreIndexHomes (M.pages pages.now) (Some first.now) homes
        → result ≡ told_at number (shown_at (M.pages pages.now) homes) }
{
    let Some(home) = index_home(pages, Some(*first), number) else {
        return 0;
    };
    match pages.get(home) {
        Some(page) => entries_on(page),
        None => 0,
    }
}

/// How many entries an index has once a page of it with `gone` entries gives way to a page with
/// `new` entries. Returns None if that number does not fit into 32 bits.
fn changed_total(total: u32, gone: u32, new: u32) -> Option<u32>
    requires { gone ≤ total }
    ensures { IfSome result (λ now. now ≡ total - gone + new) }
{
    (total - gone).checked_add(new)
}

/// Puts a page of a directory's index in place of the one at that number, at its home. The first
/// cell says before that how many entries the index then has. Where the next page stands is the
/// index's own, whatever the bytes say of it. Also fails as out of memory if the index would have
/// 2^32 entries. After an error nothing has changed.
pub fn write_index_page<M: MetaPages>(
    alloc: Global,
    pages: &mut M,
    space: &FreeSpace,
    cells: &FreeCells,
    files: &Bitfiles,
    tag: Tag,
    page: u32,
    bytes: Page,
) -> Result<(), OutOfMemory>
    requires set { HasSet files.now.fileset files.now.tags space.now cells.now
        (M.pages pages.old) }
    requires directory { (set : SetOf) → StandsAsSet files.now.fileset files.now.tags space.now
        cells.now (M.pages pages.old) set → IsDirectory set tag }
    requires there { (set : SetOf) → StandsAsSet files.now.fileset files.now.tags space.now
        cells.now (M.pages pages.old) set → page < count_index set tag }
    ensures ok { (set : SetOf) → StandsAsSet files.now.fileset files.now.tags space.now cells.now
        (M.pages pages.old) set → OnOk result (StandsAsSet files.now.fileset files.now.tags
        space.now cells.now (M.pages pages.new)
        (with_change tag (put_index page (shown_index bytes)) set)) }
    ensures err { OnErr result (M.pages pages.new ≡ M.pages pages.old) }
    ensures writes { (chains : Chains) (homes : List HomeOf) → AreTogether files.now.fileset
        files.now.tags space.now cells.now (M.pages pages.old) chains
        → AreIndexHomes (M.pages pages.old) (option_and_then index_of (chains tag)) homes
        → OnOk result (WritesIndexPage files.now.fileset files.now.tags space.now cells.now tag page
        bytes chains homes (M.pages pages.old) (M.pages pages.new)) }
    ensures room { M.room pages.new ≡ M.room pages.old }
    ensures before { M.before pages.new ≡ M.before pages.old }
{
    let Some(index) = files.index(pages, tag) else {
        unreachable!();
    };
    let gone = entries_at(pages, &index.first, page);
    let Some(entries) = changed_total(index.entries, gone, entries_on(&bytes)) else {
        return Err(OutOfMemory);
    };
    let first = index.first;
    let again = index.first;
    files.set_index(alloc, pages, tag, Some(IndexPlace { first, entries }))?;
    put_index_page(pages, again, page, bytes);
    Ok(())
}
