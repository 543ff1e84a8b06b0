//! Looking at the pages of directories, and writing them in place.
ghost use Rattle.std.specs.Prelude.{◌≡◌, ◌<◌};
ghost use Rattle.std.specs.Option.{option_copied};
ghost use Rattle.index_pages.specs.page_store.Bitfiles.{Bitfiles as SetOf, IsDirectory, count_pages, page_at, put_page, with_change};
ghost use Rattle.index_pages.specs.domain_base.declared.place.Home.{Home as HomeOf};
ghost use Rattle.index_pages.specs.extent_maps.declared.run.PagePlace.TheVariants.{At};
ghost use Rattle.index_pages.specs.fileset_files.Files.{AreFiles, Chains, place_at};
ghost use Rattle.stored_set.specs.Sets.{HasSet, StandsAsSet};

use index_pages::limits::PAGE_BYTES;
use index_pages::{Bitfiles, FreeCells, FreeSpace, Kind, MetaPages, Page, Tag};

/// How many pages a directory has, or 0 if the tag names none. Takes no memory.
pub fn count_pages_of<M: MetaPages>(
    pages: &M,
    space: &FreeSpace,
    cells: &FreeCells,
    files: &Bitfiles,
    tag: Tag,
) -> u32
    requires { HasSet files.now.fileset files.now.tags space.now cells.now (M.pages pages.now) }
    ensures { (set : SetOf) → StandsAsSet files.now.fileset files.now.tags space.now cells.now
        (M.pages pages.now) set → result ≡ count_pages set tag }
{
    let Some(what) = files.attributes(pages, tag) else {
        return 0;
    };
    match what.kind {
        Kind::File => 0,
        Kind::Directory => (what.size / PAGE_BYTES as u64) as u32,
    }
}

/// A directory's page, counted from 0. Returns None if and only if the directory has no such page.
/// Takes no memory.
pub fn page_of<'a, M: MetaPages>(
    pages: &'a M,
    space: &FreeSpace,
    cells: &FreeCells,
    files: &Bitfiles,
    tag: Tag,
    page: u32,
) -> Option<&'a Page>
    requires set { HasSet files.now.fileset files.now.tags space.now cells.now
        (M.pages pages.now) }
    requires directory { (set : SetOf) → StandsAsSet files.now.fileset files.now.tags space.now
        cells.now (M.pages pages.now) set → IsDirectory set tag }
    ensures { (set : SetOf) → StandsAsSet files.now.fileset files.now.tags space.now cells.now
        (M.pages pages.now) set → option_copied result ≡ page_at set tag page }
{
    pages.get(files.page_home(pages, tag, page).home()?)
}

/// Puts a page of a directory in place of the one at that number, at its home. Every other page
/// stays. Takes no memory.
pub fn write_page<M: MetaPages>(
    pages: &mut M,
    space: &FreeSpace,
    cells: &FreeCells,
    files: &Bitfiles,
    tag: Tag,
    page: u32,
    bytes: Page,
)
    requires set { HasSet files.now.fileset files.now.tags space.now cells.now
        (M.pages pages.old) }
    requires directory { (set : SetOf) → StandsAsSet files.now.fileset files.now.tags space.now
        cells.now (M.pages pages.old) set → IsDirectory set tag }
    requires there { (set : SetOf) → StandsAsSet files.now.fileset files.now.tags space.now
        cells.now (M.pages pages.old) set → page < count_pages set tag }
    ensures put { (set : SetOf) → StandsAsSet files.now.fileset files.now.tags space.now cells.now
        (M.pages pages.old) set → StandsAsSet files.now.fileset files.now.tags space.now cells.now
        (M.pages pages.new) (with_change tag (put_page page bytes) set) }
    ensures elsewhere { (chains : Chains)
        → AreFiles files.now.fileset files.now.tags (M.pages pages.old) chains
        → (home : HomeOf) → ¬ place_at chains tag page ≡ At home
        → M.pages pages.new home ≡ M.pages pages.old home }
    ensures room { M.room pages.new ≡ M.room pages.old }
    ensures before { M.before pages.new ≡ M.before pages.old }
{
    if let Some(home) = files.page_home(pages, tag, page).home() {
        pages.put(home, bytes);
    }
}
