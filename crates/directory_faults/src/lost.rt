//! Rows that lead to what a clone has lost.
ghost use Rattle.std.specs.Prelude.{◌⊎◌, ◌↔◌, ◌<◌, ℕ, IsTrue, OnOk};
ghost use Rattle.fileset_shapes.specs.domain_base.declared.place.Home.{Home};
ghost use Rattle.fileset_shapes.specs.fileset_table.Table.{Table};
ghost use Rattle.fileset_shapes.specs.page_store.Pages.{Pages};
ghost use Rattle.fileset_shapes.specs.domain_layout.Reached.{Frame};
ghost use Rattle.fileset_shapes.specs.sorted_sets.Members.{IsIn};
ghost use Rattle.directory_faults.specs.Lost.{AreTooMany, HasLostTwice, IsLost, LeadsLostTwice};
ghost use Rattle.directory_faults.specs.Rows.{AreRowsIn};
ghost use Rattle.directory_faults.specs.There.{AreFilesIn};

use crate::counts::{count_of, count_rows};
use crate::rows::RowThere;
use crate::there::FileThere;
use crate::wrong::{has_kind, other_kind, read_kinds};
use fileset_shapes::from_domain_base::limits::MAX_LINKS;
use fileset_shapes::{HomeSet, Kind, OutOfMemory, Tag};
use std::alloc::Global;
use std::collections::{BTreeMap, BTreeSet};

/// Whether nothing is at a tag.
fn is_lost(kinds: &BTreeSet<(Tag, Kind)>, tag: Tag) -> bool
    ensures { IsTrue result ↔ IsLost kinds.now tag }
{
    !has_kind(kinds, tag, Kind::File) && !has_kind(kinds, tag, Kind::Directory)
}

/// Whether more rows lead to the tag of a row than are allowed: another row, if either leads to a
/// directory, or more rows of its kind than a file may have.
fn are_too_many(counts: &BTreeMap<(Tag, Kind), u64>, row: &RowThere) -> bool
    ensures { IsTrue result ↔ AreTooMany counts.now row.now }
{
    let tag = row.row.tag;
    let kind = row.row.kind;
    let count = count_of(counts, tag, kind);
    0 < count_of(counts, tag, other_kind(kind))
        || (matches!(kind, Kind::Directory) && 1 < count)
        || u64::from(MAX_LINKS) < count
}

/// Puts the page of a row into a set, if the row leads to nothing, and more rows do than are
/// allowed.
fn insert_lost(
    kinds: &BTreeSet<(Tag, Kind)>,
    counts: &BTreeMap<(Tag, Kind), u64>,
    row: &RowThere,
    found: &mut HomeSet,
) -> Result<(), OutOfMemory>
    ensures { OnOk result ((home : Home) → IsIn found.new home ↔ (IsIn found.old home
        ⊎ LeadsLostTwice kinds.now counts.now row.now home)) }
{
    if is_lost(kinds, row.row.tag) && are_too_many(counts, row) {
        found.insert(&row.at.home)?;
    }
    Ok(())
}

/// Puts into a set the pages of a fileset's directories on which a row leads to what is not there,
/// and more rows do than are allowed, from its files, directories and rows.
pub fn insert_lost_twice(
    alloc: Global,
    files: &[FileThere],
    rows: &[RowThere],
    found: &mut HomeSet,
) -> Result<(), OutOfMemory>
    ensures { OnOk result ((pages : Pages) (frame : Frame) (table : Table) (number : ℕ)
        → AreFilesIn pages frame table number files.now
        → AreRowsIn pages frame table number rows.now
        → (home : Home) → IsIn found.new home ↔ (IsIn found.old home
        ⊎ HasLostTwice pages frame table number home)) }
{
    let kinds = read_kinds(alloc, files)?;
    let counts = count_rows(alloc, rows)?;
    for row in rows {
        insert_lost(&kinds, &counts, row, found)?;
    }
    Ok(())
}
