//! Files to which fewer rows lead than they have links.
ghost use Rattle.std.specs.Prelude.{◌≡◌, ◌⊎◌, ◌↔◌, ℕ, IsTrue, OnOk, slice_get};
ghost use Rattle.fileset_shapes.specs.domain_base.declared.place.Home.{Home as HomeOf};
ghost use Rattle.fileset_shapes.specs.fileset_table.Table.{Table};
ghost use Rattle.fileset_shapes.specs.page_store.Pages.{Pages};
ghost use Rattle.fileset_shapes.specs.domain_layout.CellRules.{of_clone};
ghost use Rattle.fileset_shapes.specs.domain_layout.Reached.{Frame};
ghost use Rattle.fileset_shapes.specs.sorted_sets.Members.{IsIn};
ghost use Rattle.directory_faults.specs.Rows.{AreRowsIn};
ghost use Rattle.directory_faults.specs.There.{AreFilesIn};
ghost use Rattle.directory_faults.specs.Few.{HasFewAt, HasFewCounted, HasFewRows};

use crate::tree::read_tree;
use crate::{FileThere, RowThere, count_of, count_rows, home_of};
use fileset_shapes::{HomeSet, Kind, OutOfMemory, Tag};
use std::alloc::Global;
use std::collections::BTreeMap;

/// Whether fewer rows lead to a file than it has links.
fn has_few_rows(counts: &BTreeMap<(Tag, Kind), u64>, file: &FileThere) -> bool
    ensures { IsTrue result ↔ HasFewCounted counts.now file.now }
{
    match file.seen.is.kind {
        Kind::File => count_of(counts, file.tag, Kind::File) < u64::from(file.seen.is.links),
        Kind::Directory => false,
    }
}

/// Puts the page of the first cell of a file into a set, if fewer rows lead to the file than it has
/// links.
fn insert_few(
    counts: &BTreeMap<(Tag, Kind), u64>,
    file: &FileThere,
    found: &mut HomeSet,
) -> Result<(), OutOfMemory>
    ensures { OnOk result ((home : HomeOf) → IsIn found.new home ↔ (IsIn found.old home
        ⊎ HasFewAt counts.now file.now home)) }
{
    if has_few_rows(counts, file) {
        found.insert(&home_of(file))?;
    }
    Ok(())
}

/// Puts into a set the pages of the first cells of those of a fileset's files to which fewer rows
/// lead than they have links, if none of its directories is out of sync, from its files,
/// directories and rows, and whether it is a clone.
pub fn insert_few_rows(
    alloc: Global,
    files: &[FileThere],
    rows: &[RowThere],
    is_clone: bool,
    found: &mut HomeSet,
) -> Result<(), OutOfMemory>
    ensures { OnOk result ((pages : Pages) (frame : Frame) (table : Table) (number : ℕ)
        → AreFilesIn pages frame table number files.now
        → AreRowsIn pages frame table number rows.now
        → of_clone (slice_get table.slots number) ≡ is_clone
        → (home : HomeOf) → IsIn found.new home ↔ (IsIn found.old home
        ⊎ HasFewRows pages frame table number home)) }
{
    let tree = read_tree(alloc, files, rows, is_clone)?;
    if !tree.are_all_read {
        return Ok(());
    }
    let counts = count_rows(alloc, rows)?;
    for file in files {
        insert_few(&counts, file, found)?;
    }
    Ok(())
}
