//! Directories that stand in another directory than they say.
ghost use Rattle.std.specs.Prelude.{◌≡◌, ◌⊎◌, ◌↔◌, ℕ, IfOk, IsTrue, OnOk};
ghost use Rattle.fileset_shapes.specs.domain_base.declared.place.Home.{Home as HomeOf};
ghost use Rattle.fileset_shapes.specs.domain_base.declared.place.Tag.{Tag as TagOf};
ghost use Rattle.fileset_shapes.specs.fileset_table.Table.{Table};
ghost use Rattle.fileset_shapes.specs.page_store.Pages.{Pages};
ghost use Rattle.fileset_shapes.specs.domain_layout.Reached.{Frame};
ghost use Rattle.fileset_shapes.specs.sorted_sets.Members.{IsIn};
ghost use Rattle.directory_faults.specs.Parents.{AreAstray, HasAstrayParent, HasPair, HasTag, IsAstrayAt, IsAstrayOf, LeadsAstray, SaysParent, SaysParents};
ghost use Rattle.directory_faults.specs.Rows.{AreRowsIn};
ghost use Rattle.directory_faults.specs.There.{AreFilesIn};

use crate::links::home_of;
use crate::rows::RowThere;
use crate::there::FileThere;
use crate::wrong::ROOT;
use fileset_shapes::{HomeSet, Kind, OutOfMemory, Tag};
use std::alloc::Global;
use std::collections::BTreeSet;

/// Notes the directory that a file or directory says to stand in, if it says one.
fn note_parent(parents: &mut BTreeSet<(Tag, Tag)>, file: &FileThere) -> Result<(), OutOfMemory>
    ensures { OnOk result ((tag dir : TagOf) → HasPair parents.new tag dir
        ↔ (HasPair parents.old tag dir ⊎ SaysParent file.now tag dir)) }
{
    if let Some(parent) = file.parent {
        parents.insert((file.tag, parent))?;
    }
    Ok(())
}

/// The directories that files and directories say to stand in.
fn read_parents(alloc: Global, files: &[FileThere]) -> Result<BTreeSet<(Tag, Tag)>, OutOfMemory>
    ensures { IfOk result (SaysParents files.now) }
{
    let mut parents = BTreeSet::new(alloc);
    for file in files {
        note_parent(&mut parents, file)?;
    }
    Ok(parents)
}

/// Notes the tag to which a row of a directory leads, if nothing there says to stand in the row's
/// directory.
fn note_astray(
    parents: &BTreeSet<(Tag, Tag)>,
    row: &RowThere,
    astray: &mut BTreeSet<Tag>,
) -> Result<(), OutOfMemory>
    ensures { OnOk result ((tag : TagOf) → HasTag astray.new tag
        ↔ (HasTag astray.old tag ⊎ LeadsAstray parents.now row.now tag)) }
{
    if matches!(row.row.kind, Kind::Directory) && !parents.contains(&(row.row.tag, row.at.dir)) {
        astray.insert(row.row.tag)?;
    }
    Ok(())
}

/// The tags to which rows of directories lead although nothing there says to stand in the row's
/// directory.
fn read_astray(
    alloc: Global,
    parents: &BTreeSet<(Tag, Tag)>,
    rows: &[RowThere],
) -> Result<BTreeSet<Tag>, OutOfMemory>
    ensures { IfOk result (AreAstray parents.now rows.now) }
{
    let mut astray = BTreeSet::new(alloc);
    for row in rows {
        note_astray(parents, row, &mut astray)?;
    }
    Ok(astray)
}

/// Whether a directory stands in another directory than it says: the root in any but itself, and
/// any other directory if a row leads to it from there.
fn is_astray(astray: &BTreeSet<Tag>, file: &FileThere) -> bool
    ensures { IsTrue result ↔ IsAstrayOf astray.now file.now }
{
    if matches!(file.seen.is.kind, Kind::File) {
        return false;
    }
    if file.tag == ROOT {
        return file.parent != Some(ROOT);
    }
    astray.contains(&file.tag)
}

/// Puts the page of the first cell of a directory into a set, if it stands in another directory
/// than it says.
fn insert_astray(
    astray: &BTreeSet<Tag>,
    file: &FileThere,
    found: &mut HomeSet,
) -> Result<(), OutOfMemory>
    ensures { OnOk result ((home : HomeOf) → IsIn found.new home ↔ (IsIn found.old home
        ⊎ IsAstrayAt astray.now file.now home)) }
{
    if is_astray(astray, file) {
        found.insert(&home_of(file))?;
    }
    Ok(())
}

/// Puts into a set the pages of the first cells of those of a fileset's directories that stand in
/// another directory than they say, from its files, directories and rows.
pub fn insert_wrong_parents(
    alloc: Global,
    files: &[FileThere],
    rows: &[RowThere],
    found: &mut HomeSet,
) -> Result<(), OutOfMemory>
    ensures { OnOk result ((pages : Pages) (frame : Frame) (table : Table) (number : ℕ)
        → AreFilesIn pages frame table number files.now
        → AreRowsIn pages frame table number rows.now
        → (home : HomeOf) → IsIn found.new home ↔ (IsIn found.old home
        ⊎ HasAstrayParent pages frame table number home)) }
{
    let parents = read_parents(alloc, files)?;
    let astray = read_astray(alloc, &parents, rows)?;
    for file in files {
        insert_astray(&astray, file, found)?;
    }
    Ok(())
}
