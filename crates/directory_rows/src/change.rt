//! Rows added to a directory and removed from it.
ghost use Rattle.std.specs.Prelude.{◌≡◌, ◌+◌, ◌≤◌, true, false, IfErr, OnErr, OnOk};
ghost use Rattle.directory_pages.specs.page_store.declared.fault.StoreFault.TheVariants.{OutOfMemory as NoMemory};
ghost use Rattle.directory_pages.specs.page_store.Bitfiles.{IsCounted};
ghost use Rattle.directory_pages.specs.Rows.{is_named, is_row_name};
ghost use Rattle.directory_rows.specs.Directory.{IsWellFormed, rows_in};
ghost use Rattle.directory_rows.specs.RowChanges.{AddsRow, OnlyDirectory, RemovesRow, adding_changes, removing_changes};

use crate::index::{forget_row, index_row};
use crate::look::place_of;
use crate::pages::{put_row, take_row};
use directory_pages::{BitfileSet, IndexEntry, Kind, StoreFault, Tag, name_hash};
use std::alloc::Global;

/// Adds a row of a new name: after those of the first page with room for it, or on a new page. An
/// index gets its entry. A directory that then has two to four pages and no index gets an index.
/// Also fails as out of memory if each of 65,536 pages is full. After an error some of the
/// directory's pages and its index may have changed, and nothing else.
pub fn add_row<S: BitfileSet>(
    set: &mut S,
    alloc: Global,
    dir: Tag,
    tag: Tag,
    kind: Kind,
    name: &[u8],
) -> Result<(), StoreFault>
    requires good { IsWellFormed (S.files set.old) dir }
    requires name { is_row_name name.now ≡ true }
    requires fresh { is_named name.now (rows_in (S.files set.old) dir) ≡ false }
    ensures ok { OnOk result (AddsRow dir (record {
      tag = tag;
      kind = kind;
      name = name.now;
    }) (S.files set.old) (S.files set.new)) }
    ensures err { OnErr result (OnlyDirectory dir (S.files set.old) (S.files set.new)) }
    ensures no_page { IfErr result (IsCounted (S.missed set.old) (S.missed set.new)) }
    ensures count { S.missed set.old ≤ S.missed set.new }
    ensures changes { S.changes set.new ≤ adding_changes + S.changes set.old }
    ensures rest { S.leaves_rest set.old set.new }
{
    let page = put_row(set, alloc, dir, tag, kind, name)?;
    let hash = name_hash(name);
    index_row(set, alloc, dir, IndexEntry { hash, page })
}

/// Removes the row of a name, which is there. The gap closes, and the row's entry leaves the index.
/// After an error some of the directory's pages and its index may have changed, and nothing else.
pub fn remove_row<S: BitfileSet>(
    set: &mut S,
    alloc: Global,
    dir: Tag,
    name: &[u8],
) -> Result<(), StoreFault>
    requires good { IsWellFormed (S.files set.old) dir }
    requires there { is_named name.now (rows_in (S.files set.old) dir) ≡ true }
    ensures ok { OnOk result (RemovesRow dir name.now (S.files set.old) (S.files set.new)) }
    ensures err { OnErr result (OnlyDirectory dir (S.files set.old) (S.files set.new)) }
    ensures no_page { IfErr result (IsCounted (S.missed set.old) (S.missed set.new)) }
    ensures count { S.missed set.old ≤ S.missed set.new }
    ensures changes { S.changes set.new ≤ removing_changes + S.changes set.old }
    ensures in_place { S.writes_in_place set.old → IfErr result (λ fault. fault ≡ NoMemory) }
    ensures rest { S.leaves_rest set.old set.new }
{
    let Some(place) = place_of(set, dir, name) else {
        return Ok(());
    };
    take_row(set, alloc, dir, place.page, name)?;
    let hash = name_hash(name);
    forget_row(
        set,
        alloc,
        dir,
        IndexEntry {
            hash,
            page: place.page,
        },
    )
}
