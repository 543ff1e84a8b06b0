//! Directories whose size is not that of their pages, or whose pages have a gap.
ghost use Rattle.std.specs.Prelude.{◌⊎◌, ◌↔◌, ℕ, IsTrue, OnOk};
ghost use Rattle.fileset_shapes.specs.domain_base.declared.place.Home.{Home as HomeOf};
ghost use Rattle.fileset_shapes.specs.fileset_table.Table.{Table};
ghost use Rattle.fileset_shapes.specs.page_store.Pages.{Pages};
ghost use Rattle.fileset_shapes.specs.domain_layout.Reached.{Frame};
ghost use Rattle.fileset_shapes.specs.sorted_sets.Members.{IsIn};
ghost use Rattle.directory_faults.specs.Sizes.{HasWrongSizeThere, IsOfWrongSize, IsOfWrongSizeAt};
ghost use Rattle.directory_faults.specs.There.{AreFilesIn};

use crate::links::home_of;
use crate::there::FileThere;
use fileset_shapes::{HomeSet, Kind, OutOfMemory};

/// Whether a directory has a wrong size.
fn is_of_wrong_size(file: &FileThere) -> bool
    ensures { IsTrue result ↔ IsOfWrongSize file.now }
{
    matches!(file.seen.is.kind, Kind::Directory) && file.has_wrong_size
}

/// Puts the page of the first cell of a directory into a set, if it has a wrong size.
fn insert_wrong_size(file: &FileThere, found: &mut HomeSet) -> Result<(), OutOfMemory>
    ensures { OnOk result ((home : HomeOf) → IsIn found.new home ↔ (IsIn found.old home
        ⊎ IsOfWrongSizeAt file.now home)) }
{
    if is_of_wrong_size(file) {
        found.insert(&home_of(file))?;
    }
    Ok(())
}

/// Puts into a set the pages of the first cells of those of a fileset's directories whose size is
/// not that of their pages, whose pages have a gap, or whose cells have pages that they do not
/// keep, from its files and directories.
pub fn insert_wrong_sizes(files: &[FileThere], found: &mut HomeSet) -> Result<(), OutOfMemory>
    ensures { OnOk result ((pages : Pages) (frame : Frame) (table : Table) (number : ℕ)
        → AreFilesIn pages frame table number files.now
        → (home : HomeOf) → IsIn found.new home ↔ (IsIn found.old home
        ⊎ HasWrongSizeThere pages table number home)) }
{
    for file in files {
        insert_wrong_size(file, found)?;
    }
    Ok(())
}
