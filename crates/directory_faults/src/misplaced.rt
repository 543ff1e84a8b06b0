//! Directories that are below themselves or not below the root.
ghost use Rattle.std.specs.Prelude.{◌≡◌, ◌⊎◌, ◌↔◌, ℕ, IfOk, IsTrue, OnOk, slice_get};
ghost use Rattle.fileset_shapes.specs.domain_base.declared.place.Home.{Home as HomeOf};
ghost use Rattle.fileset_shapes.specs.fileset_table.Table.{Table};
ghost use Rattle.fileset_shapes.specs.page_store.Pages.{Pages};
ghost use Rattle.fileset_shapes.specs.domain_layout.CellRules.{of_clone};
ghost use Rattle.fileset_shapes.specs.domain_layout.Reached.{Frame};
ghost use Rattle.fileset_shapes.specs.sorted_sets.Members.{IsIn};
ghost use Rattle.directory_faults.specs.Rows.{AreRowsIn};
ghost use Rattle.directory_faults.specs.There.{AreFilesIn};
ghost use Rattle.directory_faults.specs.Misplaced.{HasMisplaced, IsMisplacedAt, IsMisplacedIn, Rises};
ghost use Rattle.directory_faults.specs.Walk.{IsBelow};

use crate::order::{Order, place_of, read_order};
use crate::tree::{Tree, read_tree};
use crate::walk::walk_below;
use crate::{FileThere, ROOT, RowThere, home_of};
use fileset_shapes::{HomeSet, Kind, OutOfMemory, Tag};
use std::alloc::Global;
use std::collections::BTreeMap;

/// Whether a directory is below itself. A directory with a place in an order that rises is not.
fn is_below_itself(
    alloc: Global,
    children: &BTreeMap<Tag, Vec<Tag>>,
    order: &Order,
    tag: Tag,
) -> Result<bool, OutOfMemory>
    requires { Rises children.now order.now }
    ensures { IfOk result (λ is. IsTrue is ↔ IsBelow children.now tag tag) }
{
    if order.rises && place_of(&order.places, tag).is_some() {
        return Ok(false);
    }
    let below = walk_below(alloc, children, tag)?;
    Ok(below.seen.contains(&tag))
}

/// Whether a directory other than the root is below itself, or is not below the root though all are
/// read.
fn is_misplaced(
    alloc: Global,
    tree: &Tree,
    order: &Order,
    file: &FileThere,
) -> Result<bool, OutOfMemory>
    requires { Rises tree.now.children order.now }
    ensures { IfOk result (λ is. IsTrue is ↔ IsMisplacedIn tree.now file.now) }
{
    if matches!(file.seen.is.kind, Kind::File) || file.tag == ROOT {
        return Ok(false);
    }
    if tree.are_all_read && !tree.reached.contains(&file.tag) {
        return Ok(true);
    }
    is_below_itself(alloc, &tree.children, order, file.tag)
}

/// Puts the page of the first cell of a directory into a set, if the directory is misplaced.
fn insert_one(
    alloc: Global,
    tree: &Tree,
    order: &Order,
    file: &FileThere,
    found: &mut HomeSet,
) -> Result<(), OutOfMemory>
    requires { Rises tree.now.children order.now }
    ensures { OnOk result ((home : HomeOf) → IsIn found.new home ↔ (IsIn found.old home
        ⊎ IsMisplacedAt tree.now file.now home)) }
{
    let is_wrong = is_misplaced(alloc, tree, order, file)?;
    if is_wrong {
        found.insert(&home_of(file))?;
    }
    Ok(())
}

/// Puts into a set the pages of the first cells of those of a fileset's directories, other than the
/// root, that are below themselves, or not below the root though none is out of sync, from its
/// files, directories and rows, and whether it is a clone.
pub fn insert_misplaced(
    alloc: Global,
    files: &[FileThere],
    rows: &[RowThere],
    is_clone: bool,
    found: &mut HomeSet,
) -> Result<(), OutOfMemory>
    ensures { OnOk result ((pages : Pages) (frame : Frame) (table : Table) (number : ℕ)
        → AreFilesIn pages frame table number files.now
        → AreRowsIn pages frame table number rows.now
        → of_clone (slice_get table.slots number) ≡ is_clone
        → (home : HomeOf) → IsIn found.new home ↔ (IsIn found.old home
        ⊎ HasMisplaced pages frame table number home)) }
{
    let tree = read_tree(alloc, files, rows, is_clone)?;
    let order = read_order(alloc, files, rows, &tree.children)?;
    for file in files {
        insert_one(alloc, &tree, &order, file, found)?;
    }
    Ok(())
}
