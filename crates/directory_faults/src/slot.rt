//! All rules of directories that a fileset breaks.
ghost use Rattle.std.specs.Prelude.{◌≡◌, ◌⊎◌, ◌↔◌, ◌*◌, ℕ, OnOk, slice_get};
ghost use Rattle.fileset_shapes.specs.domain_base.declared.place.Home.{Home};
ghost use Rattle.fileset_shapes.specs.fileset_table.Table.{Table};
ghost use Rattle.fileset_shapes.specs.page_store.Pages.{Pages};
ghost use Rattle.fileset_shapes.specs.domain_layout.CellRules.{of_clone};
ghost use Rattle.fileset_shapes.specs.domain_layout.DirectoryRules.{IsDirectoryFault};
ghost use Rattle.fileset_shapes.specs.domain_layout.Reached.{Frame};
ghost use Rattle.fileset_shapes.specs.sorted_sets.Members.{IsIn};
ghost use Rattle.fileset_shapes.specs.page_ways.Frame.{frame_in};
ghost use Rattle.directory_faults.specs.Rows.{AreRowsIn};
ghost use Rattle.directory_faults.specs.There.{AreFilesIn};
ghost use Rattle.directory_faults.specs.Slot.{HasDirectoryFault, HasFileFault, HasRowFault};

use crate::few::insert_few_rows;
use crate::misplaced::insert_misplaced;
use crate::{
    FileThere, RowThere, insert_lost_twice, insert_names_twice, insert_row_pages,
    insert_wrong_links, insert_wrong_parents, insert_wrong_rows, insert_wrong_sizes, read_rows,
};
use fileset_shapes::{DomainFrame, HomeSet, MetaPages, OutOfMemory};
use std::alloc::Global;

/// Puts into a set the pages of a fileset's directories that are not pages of rows or have a row
/// that breaks a rule.
fn insert_row_faults<M: MetaPages>(
    alloc: Global,
    pages: &M,
    frame: &DomainFrame,
    files: &[FileThere],
    rows: &[RowThere],
    is_clone: bool,
    found: &mut HomeSet,
) -> Result<(), OutOfMemory>
    ensures { OnOk result ((table : Table) (number : ℕ)
        → AreFilesIn (M.pages pages.now) (frame_in frame.now) table number files.now
        → AreRowsIn (M.pages pages.now) (frame_in frame.now) table number rows.now
        → of_clone (slice_get table.slots number) ≡ is_clone
        → (home : Home) → IsIn found.new home ↔ (IsIn found.old home
        ⊎ HasRowFault (M.pages pages.now) (frame_in frame.now) table number home)) }
{
    insert_row_pages(pages, frame, files, found)?;
    insert_names_twice(alloc, rows, found)?;
    insert_wrong_rows(alloc, files, rows, is_clone, found)?;
    insert_lost_twice(alloc, files, rows, found)
}

/// Puts into a set the pages of the first cells of those of a fileset's files and directories that
/// break a rule.
fn insert_file_faults(
    alloc: Global,
    files: &[FileThere],
    rows: &[RowThere],
    is_clone: bool,
    found: &mut HomeSet,
) -> Result<(), OutOfMemory>
    ensures { OnOk result ((pages : Pages) (frame : Frame) (table : Table) (number : ℕ)
        → AreFilesIn pages frame table number files.now
        → AreRowsIn pages frame table number rows.now
        → of_clone (slice_get table.slots number) ≡ is_clone
        → (home : Home) → IsIn found.new home ↔ (IsIn found.old home
        ⊎ HasFileFault pages frame table number home)) }
{
    insert_wrong_sizes(files, found)?;
    insert_wrong_links(alloc, files, rows, found)?;
    insert_wrong_parents(alloc, files, rows, found)?;
    insert_misplaced(alloc, files, rows, is_clone, found)?;
    insert_few_rows(alloc, files, rows, is_clone, found)
}

/// Puts into a set the pages at which a fileset breaks a rule of directories, from its files and
/// directories, and whether it is a clone: all pages that have the code 9 in a list of faults
/// because of that fileset.
pub fn insert_directory_faults<M: MetaPages>(
    alloc: Global,
    pages: &M,
    frame: &DomainFrame,
    files: &[FileThere],
    is_clone: bool,
    found: &mut HomeSet,
) -> Result<(), OutOfMemory>
    ensures { OnOk result ((table : Table) (number : ℕ)
        → AreFilesIn (M.pages pages.now) (frame_in frame.now) table number files.now
        → of_clone (slice_get table.slots number) ≡ is_clone
        → (home : Home) → IsIn found.new home ↔ (IsIn found.old home
        ⊎ HasDirectoryFault (M.pages pages.now) (frame_in frame.now) table number home)) }
{
    let rows = read_rows(alloc, pages, frame, files)?;
    insert_row_faults(alloc, pages, frame, files, &rows, is_clone, found)?;
    insert_file_faults(alloc, files, &rows, is_clone, found)
}

/// The pages with the code 9 in a list of faults are those at which the fileset in some slot breaks
/// a rule of directories.
pub fn directory_faults_by_slot()
    ensures { (pages : Pages) (frame : Frame) (table : Table) (home : Home)
        → IsDirectoryFault pages frame table home
        ↔ ((number : ℕ) × HasDirectoryFault pages frame table number home) }
{}
