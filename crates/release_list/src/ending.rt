//! First cells that say that nothing is left to be done.
ghost use Rattle.std.specs.Prelude.{◌≡◌, ◌++◌, IfOk, None, OnErr, OnOk, Some, false};
ghost use Rattle.file_release.specs.domain_base.declared.place.Home.{Home as HomeOf};
ghost use Rattle.file_release.specs.page_store.Pages.{same_home};
ghost use Rattle.file_release.specs.cell_records.Records.{kind_of};
ghost use Rattle.file_release.specs.metadata_cells.Cell.{Cell};
ghost use Rattle.file_release.specs.metadata_cells.CellPage.{KeepsHeaders, KeepsWellFormed, home_of as home_there};
ghost use Rattle.file_release.specs.metadata_cells.Chain.{LeavesOthers, StandsAt, is_at};
ghost use Rattle.file_release.specs.file_chains.Changes.{above, below, with_kind};
ghost use Rattle.release_list.specs.Steps.{HasRecord, kept_all as kept_there, says_no_source, says_trimmed, without_source as sourceless};

use file_release::limits::FILE_PAGES;
use file_release::{
    CellAt, MetaPages, OutOfMemory, Record, RecordList, find_record, put_among, read_used,
    set_record, write_cell,
};
use std::alloc::Global;

/// The record of attributes that says that all pages are kept.
fn kept_all(was: &Record) -> Record
    ensures { result ≡ kept_there was.now }
{
    match was {
        Record::Attributes {
            kind,
            uid,
            gid,
            flags,
            size,
            links,
            birth,
            unsynced,
            ..
        } => Record::Attributes {
            kind: *kind,
            uid: *uid,
            gid: *gid,
            flags: *flags,
            size: *size,
            keep: FILE_PAGES,
            links: *links,
            birth: *birth,
            unsynced: *unsynced,
        },
        _ => *was,
    }
}

/// The kind of the record that says what is left to be done.
const PENDING: u8 = 6;

/// Appends the records before the one that says what is left to be done.
fn push_below(records: &[Record], found: &mut Vec<Record>) -> Result<(), OutOfMemory>
    ensures { OnOk result (found.new.items ≡ found.old.items ++ below 6 records.now) }
{
    for value in records {
        if value.kind() < PENDING {
            found.push(*value)?;
        }
    }
    Ok(())
}

/// Appends the records after the one that says what is left to be done.
fn push_above(records: &[Record], found: &mut Vec<Record>) -> Result<(), OutOfMemory>
    ensures { OnOk result (found.new.items ≡ found.old.items ++ above 6 records.now) }
{
    for value in records {
        if PENDING < value.kind() {
            found.push(*value)?;
        }
    }
    Ok(())
}

/// The records of a first cell that says that all pages are kept, and that nothing is left to be
/// done.
fn trimmed(alloc: Global, records: &[Record], was: &Record) -> Result<RecordList, OutOfMemory>
    ensures { IfOk result (λ found. found ≡ with_kind 6 None
        (with_kind (kind_of (kept_there was.now)) (Some (kept_there was.now)) records.now)) }
{
    let kept = put_among(alloc, records, &kept_all(was))?;
    let mut found = Vec::new(alloc);
    push_below(kept.as_slice(), &mut found)?;
    push_above(kept.as_slice(), &mut found)?;
    Ok(RecordList::from_vec(found))
}

/// Writes in a file's first cell that all pages are kept and nothing is left to be done, in one
/// write. After an error nothing has changed.
pub(crate) fn end_trim<M: MetaPages>(
    alloc: Global,
    pages: &mut M,
    at: &CellAt,
) -> Result<(), OutOfMemory>
    requires { HasRecord 1 (M.pages pages.old) at.now }
    ensures ok { (cell : Cell) → StandsAt (M.pages pages.old) at.now cell
        → OnOk result (StandsAt (M.pages pages.new) at.now (says_trimmed cell)) }
    ensures err { OnErr result (M.pages pages.new ≡ M.pages pages.old) }
    ensures others { LeavesOthers (is_at at.now) (M.pages pages.old) (M.pages pages.new) }
    ensures well_formed { KeepsWellFormed (M.pages pages.old) (M.pages pages.new) }
    ensures headers { KeepsHeaders (M.pages pages.old) (M.pages pages.new) }
    ensures elsewhere { (home : HomeOf) → same_home home (home_there at.now) ≡ false
        → M.pages pages.new home ≡ M.pages pages.old home }
    ensures room { M.room pages.new ≡ M.room pages.old }
    ensures before { M.before pages.new ≡ M.before pages.old }
{
    let Some(was) = find_record(pages, *at, 1) else {
        return Ok(());
    };
    let Some(used) = read_used(alloc, pages, *at)? else {
        return Ok(());
    };
    let records = trimmed(alloc, used.records.as_slice(), &was)?;
    write_cell(pages, *at, &used.head, &records);
    Ok(())
}

/// The record of a clone's file that says that it reads through none.
fn without_source(was: &Record) -> Record
    ensures { result ≡ sourceless was.now }
{
    match was {
        Record::CloneFile { frozen, .. } => Record::CloneFile {
            source_vol: 0,
            source_cell: 0,
            source_page: 0,
            frozen: *frozen,
        },
        _ => *was,
    }
}

/// Writes in the first cell of a clone's file that it reads through none. After an error nothing
/// has changed.
pub(crate) fn end_reading<M: MetaPages>(
    alloc: Global,
    pages: &mut M,
    at: &CellAt,
) -> Result<(), OutOfMemory>
    requires { HasRecord 2 (M.pages pages.old) at.now }
    ensures ok { (cell : Cell) → StandsAt (M.pages pages.old) at.now cell
        → OnOk result (StandsAt (M.pages pages.new) at.now (says_no_source cell)) }
    ensures err { OnErr result (M.pages pages.new ≡ M.pages pages.old) }
    ensures others { LeavesOthers (is_at at.now) (M.pages pages.old) (M.pages pages.new) }
    ensures well_formed { KeepsWellFormed (M.pages pages.old) (M.pages pages.new) }
    ensures headers { KeepsHeaders (M.pages pages.old) (M.pages pages.new) }
    ensures elsewhere { (home : HomeOf) → same_home home (home_there at.now) ≡ false
        → M.pages pages.new home ≡ M.pages pages.old home }
    ensures room { M.room pages.new ≡ M.room pages.old }
    ensures before { M.before pages.new ≡ M.before pages.old }
{
    match find_record(pages, *at, 2) {
        Some(was) => set_record(alloc, pages, *at, &without_source(&was)),
        None => Ok(()),
    }
}
