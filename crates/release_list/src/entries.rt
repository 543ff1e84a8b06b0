//! One step of letting go of an entry's file.
ghost use Rattle.std.specs.Prelude.{◌≡◌, ◌≤◌, ◌+◌, ℕ, IfErr, IfOk, List, OnErr};
ghost use Rattle.file_release.specs.domain_base.declared.version.Version.{Version as VersionOf};
ghost use Rattle.file_release.specs.page_store.declared.fault.StoreFault.TheVariants.{NoPage};
ghost use Rattle.file_release.specs.free_space.Spaces.{Spaces};
ghost use Rattle.file_release.specs.file_chains.Allocated.{FindsNone};
ghost use Rattle.file_release.specs.Sharing.{IsKnown};
ghost use Rattle.release_list.specs.declared.list.Entry.{Entry as EntryOf};
ghost use Rattle.release_list.specs.Cursors.{IsAhead, IsLeftAt};
ghost use Rattle.release_list.specs.Listing.{Listing};
ghost use Rattle.release_list.specs.Standing.{Files};
ghost use Rattle.release_list.specs.Steps.{HasEntry, HasFileEntry, IsEnding, IsEndingWhole, LacksRoom, Leaves, list_after, now_of};

use crate::cursor::{Cursor, cursor_at, place_in};
use crate::ending::{end_reading, end_trim};
use crate::list::Entry;
use crate::looking::{is_of_quotas, left_at, reader_at, stale_at};
use crate::quotas::release_quotas;
use crate::went::Went;
use file_release::{
    FreeCells, FreeSpace, Leftover, MetaPages, OutOfMemory, OwnPages, Released, StoreFault,
    Version, release_tail,
};
use std::alloc::Global;

/// Ends the reading of a clone through what goes as a whole or, if there is no such clone, frees
/// the last cell of what goes.
pub(crate) fn end_whole<M: MetaPages>(
    alloc: Global,
    pages: &mut M,
    cells: &mut FreeCells,
    entry: &Entry,
) -> Result<Went, OutOfMemory>
    requires well { (list : Listing) × (front : List EntryOf) × (files : Files) × (space : Spaces)
        × IsEndingWhole front entry.now (now_of list files space cells.old (M.pages pages.old)) }
    ensures ok { (group : ℕ) (version : VersionOf) (list : Listing) (front : List EntryOf)
        (files : Files) (space : Spaces) → IsEndingWhole front entry.now (now_of list files
        space cells.old (M.pages pages.old)) → IfOk result (λ went. Leaves group version
        (now_of list files space cells.old (M.pages pages.old)) (list_after went front entry.now
        list) space cells.new (M.pages pages.new)) }
    ensures cells { OnErr result (cells.new ≡ cells.old) }
    ensures pages { OnErr result (M.pages pages.new ≡ M.pages pages.old) }
    ensures room { M.room pages.new ≡ M.room pages.old }
    ensures before { M.before pages.new ≡ M.before pages.old }
{
    match entry.clone {
        Some(clone) => {
            end_reading(alloc, pages, &clone)?;
            Ok(Went::Reading)
        }
        None => {
            cells.free_cell(pages, entry.at);
            Ok(Went::File)
        }
    }
}

/// Ends what is left to be done with an entry's file that has nothing stale.
fn end_entry<M: MetaPages>(
    alloc: Global,
    pages: &mut M,
    cells: &mut FreeCells,
    entry: &Entry,
    left: &Option<Leftover>,
) -> Result<Went, OutOfMemory>
    requires well { (list : Listing) × (front : List EntryOf) × (files : Files) × (space : Spaces)
        × IsEnding front entry.now left.now (now_of list files space cells.old
        (M.pages pages.old)) }
    ensures ok { (group : ℕ) (version : VersionOf) (list : Listing) (front : List EntryOf)
        (files : Files) (space : Spaces) → IsEnding front entry.now left.now (now_of list files
        space cells.old (M.pages pages.old)) → IfOk result (λ went. Leaves group version
        (now_of list files space cells.old (M.pages pages.old)) (list_after went front entry.now
        list) space cells.new (M.pages pages.new)) }
    ensures cells { OnErr result (cells.new ≡ cells.old) }
    ensures pages { OnErr result (M.pages pages.new ≡ M.pages pages.old) }
    ensures room { M.room pages.new ≡ M.room pages.old }
    ensures before { M.before pages.new ≡ M.before pages.old }
{
    match left {
        Some(what) => match what {
            Leftover::Trim => {
                end_trim(alloc, pages, &entry.at)?;
                Ok(Went::Last)
            }
            Leftover::Remove => end_whole(alloc, pages, cells, entry),
        },
        None => end_whole(alloc, pages, cells, entry),
    }
}

/// Lets go of something of the file of a list's last entry, and returns what it took off the entry.
fn release_file<M: MetaPages>(
    alloc: Global,
    pages: &mut M,
    space: &mut FreeSpace,
    cells: &mut FreeCells,
    entry: &Entry,
    cursor: &mut Option<Cursor>,
    known: &mut Option<OwnPages>,
    group: u64,
    version: Version,
) -> Result<Went, StoreFault>
    requires well { (list : Listing) × (front : List EntryOf) × (files : Files)
        × HasFileEntry front entry.now (now_of list files space.old cells.old (M.pages pages.old)) }
    requires ahead { IsAhead (M.pages pages.old) cursor.old }
    requires known { IsKnown (M.pages pages.old) known.old }
    ensures ahead { IsAhead (M.pages pages.new) cursor.new }
    ensures known { IsKnown (M.pages pages.new) known.new }
    ensures on { IfOk result (λ went. IsLeftAt entry.now.at went cursor.new) }
    ensures place { OnErr result (cursor.new ≡ cursor.old) }
    ensures same { OnErr result (known.new ≡ known.old) }
    ensures ok { (list : Listing) (front : List EntryOf) (files : Files)
        → HasFileEntry front entry.now (now_of list files space.old cells.old (M.pages pages.old))
        → IfOk result (λ went. Leaves group version (now_of list files space.old cells.old
        (M.pages pages.old)) (list_after went front entry.now list) space.new cells.new
        (M.pages pages.new)) }
    ensures err { IfErr result (FindsNone space.old space.new cells.old) }
    ensures full { (list : Listing) (front : List EntryOf) (files : Files)
        → HasFileEntry front entry.now (now_of list files space.old cells.old (M.pages pages.old))
        → IfErr result (λ fault. fault ≡ NoPage → LacksRoom list files) }
    ensures cells { OnErr result (cells.new ≡ cells.old) }
    ensures pages { OnErr result (M.pages pages.new ≡ M.pages pages.old) }
    ensures room { M.room pages.old ≤ M.room pages.new + 1 }
    ensures before { M.before pages.new ≡ M.before pages.old }
{
    let left = left_at(pages, &entry.at);
    let from = stale_at(pages, &entry.at, &left);
    let reader = reader_at(pages, &entry.clone);
    let mut place = place_in(cursor, &entry.at);
    match release_tail(
        alloc, pages, space, cells, entry.at, &mut place, known, from, &reader, group, version,
    ) {
        Ok(Released::Nothing) => {
            let went = end_entry(alloc, pages, cells, entry, &left)?;
            *cursor = None;
            *known = None;
            Ok(went)
        }
        Ok(Released::Pages) => {
            *cursor = cursor_at(&entry.at, &place);
            Ok(Went::Part)
        }
        Ok(Released::Cell) => {
            *cursor = cursor_at(&entry.at, &place);
            Ok(Went::Part)
        }
        Err(fault) => Err(fault),
    }
}

/// Lets go of something of the file or of the quota cells of a list's last entry, and returns what
/// it took off the entry. After an error nothing but room and the count of misses has changed.
pub(crate) fn release_entry<M: MetaPages>(
    alloc: Global,
    pages: &mut M,
    space: &mut FreeSpace,
    cells: &mut FreeCells,
    entry: &Entry,
    cursor: &mut Option<Cursor>,
    known: &mut Option<OwnPages>,
    group: u64,
    version: Version,
) -> Result<Went, StoreFault>
    requires well { (list : Listing) × (front : List EntryOf) × (files : Files)
        × HasEntry front entry.now (now_of list files space.old cells.old (M.pages pages.old)) }
    requires ahead { IsAhead (M.pages pages.old) cursor.old }
    requires known { IsKnown (M.pages pages.old) known.old }
    ensures ahead { IsAhead (M.pages pages.new) cursor.new }
    ensures known { IsKnown (M.pages pages.new) known.new }
    ensures on { IfOk result (λ went. IsLeftAt entry.now.at went cursor.new) }
    ensures place { OnErr result (cursor.new ≡ cursor.old) }
    ensures same { OnErr result (known.new ≡ known.old) }
    ensures ok { (list : Listing) (front : List EntryOf) (files : Files)
        → HasEntry front entry.now (now_of list files space.old cells.old (M.pages pages.old))
        → IfOk result (λ went. Leaves group version (now_of list files space.old cells.old
        (M.pages pages.old)) (list_after went front entry.now list) space.new cells.new
        (M.pages pages.new)) }
    ensures err { IfErr result (FindsNone space.old space.new cells.old) }
    ensures full { (list : Listing) (front : List EntryOf) (files : Files)
        → HasEntry front entry.now (now_of list files space.old cells.old (M.pages pages.old))
        → IfErr result (λ fault. fault ≡ NoPage → LacksRoom list files) }
    ensures cells { OnErr result (cells.new ≡ cells.old) }
    ensures pages { OnErr result (M.pages pages.new ≡ M.pages pages.old) }
    ensures room { M.room pages.old ≤ M.room pages.new + 1 }
    ensures before { M.before pages.new ≡ M.before pages.old }
{
    if is_of_quotas(pages, &entry.at) {
        let went = release_quotas(alloc, pages, cells, entry)?;
        *cursor = None;
        *known = None;
        return Ok(went);
    }
    release_file(
        alloc, pages, space, cells, entry, cursor, known, group, version,
    )
}
