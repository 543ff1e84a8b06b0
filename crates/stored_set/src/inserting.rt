//! Putting pages into the indexes of directories.
ghost use Rattle.std.specs.Prelude.{◌≡◌, ◌+◌, ◌^◌, ◌<◌, ◌≤◌, IfErr, IfSome, List, OnErr, OnOk, Some, length, true};
ghost use Rattle.std.specs.Option.{option_and_then, option_map, option_map_or};
ghost use Rattle.index_pages.specs.domain_base.declared.place.Home.{Home as HomeOf};
ghost use Rattle.index_pages.specs.page_store.Bitfiles.{Bitfiles as SetOf, IsDirectory, count_index, insert_index as with_page_in, shown_index, with_change};
ghost use Rattle.index_pages.specs.fileset_files.Files.{Chains};
ghost use Rattle.index_pages.specs.fileset_files.Shown.{index_of};
ghost use Rattle.index_pages.specs.fileset_files.Together.{AreTogether};
ghost use Rattle.index_pages.specs.Changes.{FindsNoPage};
ghost use Rattle.index_pages.specs.Homes.{AreIndexHomes, HasIndexHomes};
ghost use Rattle.stored_set.specs.Sets.{AddsIndexPage, HasSet, StandsAsSet};

use crate::indexes::entries_on;
use index_pages::{
    Bitfiles, FreeCells, FreeSpace, Home, IndexPlace, MetaPages, Page, StoreFault, Tag, VolIx,
    count_index as count_pages, link_index_page, new_first,
};
use std::alloc::Global;

/// Where an index begins, if there is one.
fn begin_of(index: &Option<IndexPlace>) -> Option<Home>
    ensures { result ≡ option_map (λ place. place.first) index.now }
{
    match index {
        Some(place) => Some(place.first),
        None => None,
    }
}

/// How many entries an index has: 0 if there is none.
fn total_of(index: &Option<IndexPlace>) -> u32
    ensures { result ≡ option_map_or (λ place. place.entries) index.now 0 }
{
    match index {
        Some(place) => place.entries,
        None => 0,
    }
}

/// How many entries an index has with one more page. Returns None if that number does not fit into
/// 32 bits, or the number of its pages would not.
fn total_with<M: MetaPages>(pages: &M, index: &Option<IndexPlace>, more: u32) -> Option<u32>
    requires { HasIndexHomes (M.pages pages.now) (option_map (λ place. place.first) index.now) }
    ensures total { IfSome result (λ now. now
        ≡ option_map_or (λ place. place.entries) index.now 0 + more) }
    ensures fits { (homes : List HomeOf)
        → AreIndexHomes (M.pages pages.now) (option_map (λ place. place.first) index.now) homes
        → IfSome result (λ now. length homes + 1 < 2 ^ 32) }
{
    if count_pages(pages, begin_of(index)) == u32::MAX {
        return None;
    }
    total_of(index).checked_add(more)
}

/// Puts a page into a directory's index, before the one at that number or after the last one, on a
/// free page, of the preferred volume if that has one. The first cell says before that where the
/// index then begins and how many entries it then has. Where the next page stands is the index's
/// own, whatever the bytes say of it. NoPage is returned only if no page is free. That is a miss.
/// OutOfMemory is also returned if the index would have 2^32 pages or entries. After an error
/// nothing but room and the count of misses has changed, and the set is as it was.
pub fn insert_index_page<M: MetaPages>(
    alloc: Global,
    pages: &mut M,
    space: &mut FreeSpace,
    cells: &FreeCells,
    files: &Bitfiles,
    tag: Tag,
    number: u32,
    bytes: Page,
    prefer: VolIx,
) -> Result<(), StoreFault>
    requires set { HasSet files.now.fileset files.now.tags space.old cells.now
        (M.pages pages.old) }
    requires directory { (set : SetOf) → StandsAsSet files.now.fileset files.now.tags space.old
        cells.now (M.pages pages.old) set → IsDirectory set tag }
    requires there { (set : SetOf) → StandsAsSet files.now.fileset files.now.tags space.old
        cells.now (M.pages pages.old) set → number ≤ count_index set tag }
    ensures ok { (set : SetOf) → StandsAsSet files.now.fileset files.now.tags space.old cells.now
        (M.pages pages.old) set → OnOk result (StandsAsSet files.now.fileset files.now.tags
        space.new cells.now (M.pages pages.new)
        (with_change tag (with_page_in number (shown_index bytes)) set)) }
    ensures err { (set : SetOf) → StandsAsSet files.now.fileset files.now.tags space.old cells.now
        (M.pages pages.old) set → OnErr result (StandsAsSet files.now.fileset files.now.tags
        space.new cells.now (M.pages pages.new) set) }
    ensures adds { (chains : Chains) (homes : List HomeOf) → AreTogether files.now.fileset
        files.now.tags space.old cells.now (M.pages pages.old) chains
        → AreIndexHomes (M.pages pages.old) (option_and_then index_of (chains tag)) homes
        → OnOk result (AddsIndexPage files.now.fileset files.now.tags cells.now tag number bytes
        prefer chains homes space.old space.new (M.pages pages.old) (M.pages pages.new)) }
    ensures none { IfErr result (FindsNoPage space.old space.new) }
    ensures pages { OnErr result (M.pages pages.new ≡ M.pages pages.old) }
    ensures room { M.room pages.old ≤ M.room pages.new + 1 }
    ensures before { M.before pages.new ≡ M.before pages.old }
{
    let index = files.index(pages, tag);
    let first = begin_of(&index);
    let Some(entries) = total_with(pages, &index, entries_on(&bytes)) else {
        return Err(StoreFault::OutOfMemory);
    };
    pages.reserve(alloc, 1)?;
    let Some(home) = space.allocate(prefer) else {
        return Err(StoreFault::NoPage);
    };
    let begins = new_first(&first, number, &home);
    let now = Some(IndexPlace {
        first: begins,
        entries,
    });
    match files.set_index(alloc, pages, tag, now) {
        Ok(()) => {
            link_index_page(pages, first, number, bytes, home);
            Ok(())
        }
        Err(_) => {
            space.unreserve(home);
            Err(StoreFault::OutOfMemory)
        }
    }
}
