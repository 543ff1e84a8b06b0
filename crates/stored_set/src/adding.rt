//! Directories that get one more page.
ghost use Rattle.std.specs.Prelude.{◌≡◌, ◌+◌, ◌<◌, ◌≤◌, IfErr, IfOk, IsSome, IsSomeAnd, OnErr, OnOk, Some};
ghost use Rattle.index_pages.specs.page_store.Bitfiles.{Bitfiles as SetOf, IsDirectory, count_pages, put_page, with_change};
ghost use Rattle.index_pages.specs.metadata_cells.CellPage.{home_of as home_there};
ghost use Rattle.index_pages.specs.fileset_files.Changes.{ChangesFirst};
ghost use Rattle.index_pages.specs.fileset_files.Files.{AreFiles, Chains};
ghost use Rattle.index_pages.specs.fileset_files.Together.{AreTogether};
ghost use Rattle.stored_set.specs.Sets.{AddsNone, AddsPage, HasSet, StandsAsSet, attributes_at, long};

use index_pages::limits::{FILE_PAGES, PAGE_BYTES};
use index_pages::{
    Attributes, Bitfiles, CellAt, FreeCells, FreeSpace, Home, MetaPages, OutOfMemory, Page,
    StoreFault, Tag, Version, VolIx,
};
use std::alloc::Global;

/// The attributes of a directory that has `count` pages.
fn with_length(was: &Attributes, count: u32) -> Attributes
    ensures { result ≡ long count was.now }
{
    Attributes {
        kind: was.kind,
        uid: was.uid,
        gid: was.gid,
        is_logged: was.is_logged,
        size: u64::from(count) * PAGE_BYTES as u64,
        links: was.links,
    }
}

/// The page on which a cell stands.
pub(crate) fn home_of(at: &CellAt) -> Home
    ensures { result ≡ home_there at.now }
{
    Home {
        vol: at.vol,
        page: at.page,
    }
}

/// A copy of the page at a home.
pub(crate) fn copy_at<M: MetaPages>(
    alloc: Global,
    pages: &M,
    home: &Home,
) -> Result<Page, OutOfMemory>
    requires { IsSome (M.pages pages.now home.now) }
    ensures { IfOk result (λ page. M.pages pages.now home.now ≡ Some page) }
{
    let Some(page) = pages.get(*home) else {
        unreachable!();
    };
    page.copy(alloc)
}

/// Makes a directory one page longer, and gives it that page with these bytes. After an error
/// nothing but its first cell, room and the count of misses has changed.
fn lengthen<M: MetaPages>(
    alloc: Global,
    pages: &mut M,
    space: &mut FreeSpace,
    cells: &mut FreeCells,
    files: &Bitfiles,
    tag: Tag,
    was: &Attributes,
    page: u32,
    bytes: Page,
    prefer: VolIx,
    version: Version,
) -> Result<(), StoreFault>
    requires set { HasSet files.now.fileset files.now.tags space.old cells.old
        (M.pages pages.old) }
    requires directory { (set : SetOf) → StandsAsSet files.now.fileset files.now.tags space.old
        cells.old (M.pages pages.old) set → IsDirectory set tag }
    requires last { (set : SetOf) → StandsAsSet files.now.fileset files.now.tags space.old
        cells.old (M.pages pages.old) set → page ≡ count_pages set tag }
    requires is { (chains : Chains)
        → AreFiles files.now.fileset files.now.tags (M.pages pages.old) chains
        → attributes_at chains tag ≡ Some was.now }
    requires small { page < FILE_PAGES }
    requires room { 2 ≤ M.room pages.old }
    ensures ok { (set : SetOf) → StandsAsSet files.now.fileset files.now.tags space.old cells.old
        (M.pages pages.old) set → OnOk result (StandsAsSet files.now.fileset files.now.tags
        space.new cells.new (M.pages pages.new) (with_change tag (put_page page bytes) set)) }
    ensures adds { (chains : Chains) → AreTogether files.now.fileset files.now.tags space.old
        cells.old (M.pages pages.old) chains → OnOk result (AddsPage files.now.fileset
        files.now.tags tag page bytes prefer version chains space.old space.new cells.old cells.new
        (M.pages pages.old) (M.pages pages.new) was.now) }
    ensures none { (chains : Chains) → AreTogether files.now.fileset files.now.tags space.old
        cells.old (M.pages pages.old) chains
        → IfErr result (AddsNone tag page chains space.old space.new cells.old) }
    ensures first { (chains : Chains)
        → AreFiles files.now.fileset files.now.tags (M.pages pages.old) chains
        → OnErr result (ChangesFirst (chains tag) (M.pages pages.old) (M.pages pages.new)) }
    ensures cells { OnErr result (cells.new ≡ cells.old) }
    ensures spare { OnErr result (M.room pages.old ≤ M.room pages.new + 1) }
    ensures room { M.room pages.old ≤ M.room pages.new + 2 }
    ensures before { M.before pages.new ≡ M.before pages.old }
{
    let value = with_length(was, page + 1);
    files.set_attributes(alloc, pages, tag, &value)?;
    let home = files.give_page(alloc, pages, space, cells, tag, page, prefer, version)?;
    pages.put(home, bytes);
    Ok(())
}

/// Puts a page of a directory after its last one, on a free page, of the preferred volume if that
/// has one. The directory is then one page longer. NoPage is returned only if no page is free, or
/// if one more cell is needed, none is free, and no page is free besides this one. That is a miss.
/// After an error nothing but room and the count of misses has changed, and the set is as it was.
pub fn add_page<M: MetaPages>(
    alloc: Global,
    pages: &mut M,
    space: &mut FreeSpace,
    cells: &mut FreeCells,
    files: &Bitfiles,
    tag: Tag,
    page: u32,
    bytes: Page,
    prefer: VolIx,
    version: Version,
) -> Result<(), StoreFault>
    requires set { HasSet files.now.fileset files.now.tags space.old cells.old
        (M.pages pages.old) }
    requires directory { (set : SetOf) → StandsAsSet files.now.fileset files.now.tags space.old
        cells.old (M.pages pages.old) set → IsDirectory set tag }
    requires last { (set : SetOf) → StandsAsSet files.now.fileset files.now.tags space.old
        cells.old (M.pages pages.old) set → page ≡ count_pages set tag }
    requires small { page < FILE_PAGES }
    ensures ok { (set : SetOf) → StandsAsSet files.now.fileset files.now.tags space.old cells.old
        (M.pages pages.old) set → OnOk result (StandsAsSet files.now.fileset files.now.tags
        space.new cells.new (M.pages pages.new) (with_change tag (put_page page bytes) set)) }
    ensures err { (set : SetOf) → StandsAsSet files.now.fileset files.now.tags space.old cells.old
        (M.pages pages.old) set → OnErr result (StandsAsSet files.now.fileset files.now.tags
        space.new cells.new (M.pages pages.new) set) }
    ensures adds { (chains : Chains) → AreTogether files.now.fileset files.now.tags space.old
        cells.old (M.pages pages.old) chains → OnOk result (IsSomeAnd (attributes_at chains tag)
        (AddsPage files.now.fileset files.now.tags tag page bytes prefer version chains space.old
        space.new cells.old cells.new (M.pages pages.old) (M.pages pages.new))) }
    ensures none { (chains : Chains) → AreTogether files.now.fileset files.now.tags space.old
        cells.old (M.pages pages.old) chains
        → IfErr result (AddsNone tag page chains space.old space.new cells.old) }
    ensures cells { OnErr result (cells.new ≡ cells.old) }
    ensures pages { OnErr result (M.pages pages.new ≡ M.pages pages.old) }
    ensures room { M.room pages.old ≤ M.room pages.new + 2 }
    ensures before { M.before pages.new ≡ M.before pages.old }
{
    let Some(was) = files.attributes(pages, tag) else {
        unreachable!();
    };
    let Some(at) = files.live_cell(pages, tag) else {
        unreachable!();
    };
    let home = home_of(&at);
    let saved = copy_at(alloc, pages, &home)?;
    pages.reserve(alloc, 2)?;
    match lengthen(
        alloc, pages, space, cells, files, tag, &was, page, bytes, prefer, version,
    ) {
        Ok(()) => Ok(()),
        Err(fault) => {
            pages.put(home, saved);
            Err(fault)
        }
    }
}
