//! Indexes whose entries are not those of the rows, or which may not be there.
ghost use Rattle.std.specs.Prelude.{◌≡◌, ◌⊎◌, ◌↔◌, ◌*◌, ℕ, List, None, IsTrue, OnOk};
ghost use Rattle.page_faults.specs.domain_base.declared.place.Home.{Home as HomeOf};
ghost use Rattle.page_faults.specs.fileset_table.Table.{Table};
ghost use Rattle.page_faults.specs.page_store.Pages.{Pages};
ghost use Rattle.page_faults.specs.domain_layout.DirectoryRules.{IsWrongIndexOf};
ghost use Rattle.page_faults.specs.domain_layout.Reached.{Frame};
ghost use Rattle.page_faults.specs.sorted_sets.Members.{IsIn};
ghost use Rattle.page_faults.specs.page_ways.Frame.{frame_in};
ghost use Rattle.directory_faults.specs.Rows.{AreRowsIn};
ghost use Rattle.directory_faults.specs.There.{AreFilesIn};
ghost use Rattle.directory_faults.specs.declared.there.FileThere.{FileThere as FileOf};
ghost use Rattle.index_row_faults.specs.There.{AreIndexesIn};
ghost use Rattle.index_row_faults.specs.Totals.{AreGoodPages, IsGoodAt, IsIndexRead, IsWrongBy};
ghost use Rattle.index_row_faults.specs.Wrong.{HasWrongIndex};

use crate::counts::count_keys;
use crate::entries::read_entries;
use crate::late::insert_late;
use crate::rows::{keys_of, read_keys};
use crate::there::IndexThere;
use crate::totals::{insert_surplus, keys_in, lacks_entries};
use crate::undue::insert_undue_indexes;
use directory_faults::RowThere;
use page_faults::{
    DomainFrame, Home, HomeSet, IndexWay, MetaPages, OutOfMemory, ReadPages, is_good_page,
    read_pages,
};
use std::alloc::Global;

/// Whether a good page of an index stands at a home.
fn is_good_at<M: MetaPages>(pages: &M, home: &Home) -> bool
    ensures { IsTrue result ↔ IsGoodAt (M.pages pages.now) home.now }
{
    match pages.get(*home) {
        Some(page) => is_good_page(page),
        None => false,
    }
}

/// Whether a good page of an index stands at each of the homes.
fn are_good<M: MetaPages>(pages: &M, homes: &[Home]) -> bool
    ensures { IsTrue result ↔ AreGoodPages (M.pages pages.now) homes.now }
{
    for home in homes {
        if !is_good_at(pages, home) {
            return false;
        }
    }
    true
}

/// Whether all pages of an index were read.
fn is_whole<M: MetaPages>(pages: &M, read: &ReadPages) -> bool
    ensures { IsTrue result ↔ ((read.now.unread ≡ None)
        × AreGoodPages (M.pages pages.now) read.now.homes.items) }
{
    read.unread.is_none() && are_good(pages, &read.homes)
}

/// Puts into a set the pages of an index on which an entry is below an entry before it, or stands
/// more often than its rows; and the first page, if all pages are read and the total is wrong or a
/// row has no entry.
fn insert_of_index<M: MetaPages>(
    alloc: Global,
    pages: &M,
    frame: &DomainFrame,
    keys: &[(u32, u64)],
    index: &IndexThere,
    found: &mut HomeSet,
) -> Result<(), OutOfMemory>
    ensures read { OnOk result (IsIndexRead (M.pages pages.now) (frame_in frame.now)
        index.now.first) }
    ensures told { OnOk result ((home : HomeOf) → IsIn found.new home ↔ (IsIn found.old home
        ⊎ IsWrongBy (M.pages pages.now) (frame_in frame.now) keys.now index.now home)) }
{
    let way = IndexWay { first: index.first };
    let read = read_pages(alloc, pages, frame, &way)?;
    let entries = read_entries(alloc, pages, &read.homes)?;
    let in_rows = count_keys(alloc, keys)?;
    let in_entries = count_keys(alloc, &keys_in(alloc, &entries)?)?;
    insert_late(&entries, found)?;
    insert_surplus(&in_rows, &in_entries, &entries, found)?;
    let is_wrong = index.total as usize != entries.len()
        || lacks_entries(&in_rows, &in_entries, keys);
    if is_wrong && is_whole(pages, &read) {
        found.insert(&index.first)?;
    }
    Ok(())
}

/// Puts into a set the pages of a fileset's indexes at which a rule of entries is broken, from
/// these and its rows: pages with an entry that is below an entry before it or stands more often
/// than its rows, first pages of indexes whose pages are all read and whose total is wrong or that
/// lack an entry for a row, and first pages of indexes that may not be there.
pub fn insert_wrong_indexes<M: MetaPages>(
    alloc: Global,
    pages: &M,
    frame: &DomainFrame,
    rows: &[RowThere],
    indexes: &[IndexThere],
    found: &mut HomeSet,
) -> Result<(), OutOfMemory>
    ensures { OnOk result ((table : Table) (number : ℕ) (files : List FileOf)
        → AreFilesIn (M.pages pages.now) (frame_in frame.now) table number files
        → AreRowsIn (M.pages pages.now) (frame_in frame.now) table number rows.now
        → AreIndexesIn (M.pages pages.now) table number indexes.now
        → (home : HomeOf) → IsIn found.new home ↔ (IsIn found.old home
        ⊎ HasWrongIndex (M.pages pages.now) (frame_in frame.now) table number home)) }
{
    let keys = read_keys(alloc, rows)?;
    insert_undue_indexes(indexes, found)?;
    for index in indexes {
        insert_of_index(alloc, pages, frame, keys_of(&keys, index.tag), index, found)?;
    }
    Ok(())
}

/// The pages at which an index of a file is wrong, beyond what is asked of every index, are those
/// at which an index of the fileset in some slot is wrong.
pub fn wrong_indexes_by_slot()
    ensures { (pages : Pages) (frame : Frame) (table : Table) (home : HomeOf)
        → IsWrongIndexOf pages frame table home
        ↔ ((number : ℕ) × HasWrongIndex pages frame table number home) }
{}
