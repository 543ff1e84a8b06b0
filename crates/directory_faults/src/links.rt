//! Files and directories to which more rows lead than they say, or than are allowed.
ghost use Rattle.std.specs.Prelude.{◌≡◌, ◌⊎◌, ◌↔◌, ℕ, IsTrue, OnOk};
ghost use Rattle.fileset_shapes.specs.domain_base.declared.place.Home.{Home as HomeOf};
ghost use Rattle.fileset_shapes.specs.metadata_cells.CellPage.{home_of as home_there};
ghost use Rattle.fileset_shapes.specs.fileset_table.Table.{Table};
ghost use Rattle.fileset_shapes.specs.page_store.Pages.{Pages};
ghost use Rattle.fileset_shapes.specs.domain_layout.Reached.{Frame};
ghost use Rattle.fileset_shapes.specs.sorted_sets.Members.{IsIn};
ghost use Rattle.directory_faults.specs.Links.{HasWrongLinks, HaveWrongLinks, IsWrongAt};
ghost use Rattle.directory_faults.specs.Rows.{AreRowsIn};
ghost use Rattle.directory_faults.specs.There.{AreFilesIn};

use crate::counts::{count_of, count_rows};
use crate::rows::RowThere;
use crate::there::FileThere;
use crate::wrong::ROOT;
use fileset_shapes::{Home, HomeSet, Kind, OutOfMemory, Tag};
use std::alloc::Global;
use std::collections::BTreeMap;

/// Whether more rows lead to a file than it has links, or it is at the root's tag; or a directory
/// has a number of links other than 1, or more than one row leads to it and it is not the root.
fn has_wrong_links(counts: &BTreeMap<(Tag, Kind), u64>, file: &FileThere) -> bool
    ensures { IsTrue result ↔ HaveWrongLinks counts.now file.now file.now.seen.is.kind }
{
    let is_root = file.tag == ROOT;
    let links = file.seen.is.links;
    let count = count_of(counts, file.tag, file.seen.is.kind);
    match file.seen.is.kind {
        Kind::File => is_root || u64::from(links) < count,
        Kind::Directory => links != 1 || (!is_root && 1 < count),
    }
}

/// The home of the page of the first cell of a file or directory.
pub fn home_of(file: &FileThere) -> Home
    ensures { result ≡ home_there file.now.at }
{
    Home {
        vol: file.at.vol,
        page: file.at.page,
    }
}

/// Puts the page of the first cell of a file or directory into a set, if its links are wrong.
fn insert_wrong(
    counts: &BTreeMap<(Tag, Kind), u64>,
    file: &FileThere,
    found: &mut HomeSet,
) -> Result<(), OutOfMemory>
    ensures { OnOk result ((home : HomeOf) → IsIn found.new home ↔ (IsIn found.old home
        ⊎ IsWrongAt counts.now file.now home)) }
{
    if has_wrong_links(counts, file) {
        found.insert(&home_of(file))?;
    }
    Ok(())
}

/// Puts into a set the pages of the first cells of those of a fileset's files and directories to
/// which more rows lead than they say or than are allowed, from these and the fileset's rows.
pub fn insert_wrong_links(
    alloc: Global,
    files: &[FileThere],
    rows: &[RowThere],
    found: &mut HomeSet,
) -> Result<(), OutOfMemory>
    ensures { OnOk result ((pages : Pages) (frame : Frame) (table : Table) (number : ℕ)
        → AreFilesIn pages frame table number files.now
        → AreRowsIn pages frame table number rows.now
        → (home : HomeOf) → IsIn found.new home ↔ (IsIn found.old home
        ⊎ HasWrongLinks pages frame table number home)) }
{
    let counts = count_rows(alloc, rows)?;
    for file in files {
        insert_wrong(&counts, file, found)?;
    }
    Ok(())
}
