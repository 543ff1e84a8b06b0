//! Rows that lead to something wrong.
ghost use Rattle.std.specs.Prelude.{◌≡◌, ◌⊎◌, ◌↔◌, ℕ, IfOk, IsTrue, OnOk, slice_get};
ghost use Rattle.fileset_shapes.specs.domain_base.declared.place.Home.{Home};
ghost use Rattle.fileset_shapes.specs.domain_base.declared.place.Kind.{Kind as KindOf};
ghost use Rattle.fileset_shapes.specs.domain_base.declared.place.Tag.{Tag as TagOf};
ghost use Rattle.fileset_shapes.specs.fileset_table.Table.{Table};
ghost use Rattle.fileset_shapes.specs.page_store.Pages.{Pages};
ghost use Rattle.fileset_shapes.specs.domain_layout.CellRules.{of_clone};
ghost use Rattle.fileset_shapes.specs.domain_layout.Reached.{Frame};
ghost use Rattle.fileset_shapes.specs.sorted_sets.Members.{IsIn};
ghost use Rattle.directory_faults.specs.Rows.{AreRowsIn};
ghost use Rattle.directory_faults.specs.There.{AreFilesIn};
ghost use Rattle.directory_faults.specs.Wrong.{HasKind, HasWrongRow, IsAmong, LeadsWrong, other_of};

use crate::rows::RowThere;
use crate::there::FileThere;
use fileset_shapes::{HomeSet, Kind, OutOfMemory, Tag};
use std::alloc::Global;
use std::collections::BTreeSet;

/// The tag of the root directory.
pub const ROOT: Tag = Tag { slot: 1, seq: 1 };

/// The kind that a file or directory is not.
pub(crate) fn other_kind(kind: Kind) -> Kind
    ensures { result ≡ other_of kind }
{
    match kind {
        Kind::File => Kind::Directory,
        Kind::Directory => Kind::File,
    }
}

/// The tags of files and directories with their kinds.
pub(crate) fn read_kinds(
    alloc: Global,
    files: &[FileThere],
) -> Result<BTreeSet<(Tag, Kind)>, OutOfMemory>
    ensures { IfOk result (λ kinds. (tag : TagOf) (of : KindOf)
        → HasKind kinds tag of ↔ IsAmong files.now tag of) }
{
    let mut kinds = BTreeSet::new(alloc);
    for file in files {
        kinds.insert((file.tag, file.seen.is.kind))?;
    }
    Ok(kinds)
}

/// Whether a file or directory of this kind has the tag.
pub(crate) fn has_kind(kinds: &BTreeSet<(Tag, Kind)>, tag: Tag, kind: Kind) -> bool
    ensures { IsTrue result ↔ HasKind kinds.now tag kind }
{
    kinds.contains(&(tag, kind))
}

/// Whether a row of a clone or an original leads to the root, to no file of its kind in an
/// original, or to one of the other kind.
fn leads_wrong(kinds: &BTreeSet<(Tag, Kind)>, is_clone: bool, row: &RowThere) -> bool
    ensures { IsTrue result ↔ LeadsWrong kinds.now is_clone row.now }
{
    let tag = row.row.tag;
    let kind = row.row.kind;
    tag == ROOT
        || (!is_clone && !has_kind(kinds, tag, kind))
        || has_kind(kinds, tag, other_kind(kind))
}

/// Puts the page of a row into a set, if the row leads to something wrong.
fn insert_wrong(
    kinds: &BTreeSet<(Tag, Kind)>,
    is_clone: bool,
    row: &RowThere,
    found: &mut HomeSet,
) -> Result<(), OutOfMemory>
    ensures { OnOk result ((home : Home) → IsIn found.new home ↔ (IsIn found.old home
        ⊎ (LeadsWrong kinds.now is_clone row.now × (home ≡ row.now.at.home)))) }
{
    if leads_wrong(kinds, is_clone, row) {
        found.insert(&row.at.home)?;
    }
    Ok(())
}

/// Puts into a set the pages of a fileset's directories on which a row leads to something wrong,
/// from its files, directories and rows, and whether it is a clone.
pub fn insert_wrong_rows(
    alloc: Global,
    files: &[FileThere],
    rows: &[RowThere],
    is_clone: bool,
    found: &mut HomeSet,
) -> Result<(), OutOfMemory>
    ensures { OnOk result ((pages : Pages) (frame : Frame) (table : Table) (number : ℕ)
        → AreFilesIn pages frame table number files.now
        → AreRowsIn pages frame table number rows.now
        → of_clone (slice_get table.slots number) ≡ is_clone
        → (home : Home) → IsIn found.new home ↔ (IsIn found.old home
        ⊎ HasWrongRow pages frame table number home)) }
{
    let kinds = read_kinds(alloc, files)?;
    for row in rows {
        insert_wrong(&kinds, is_clone, row, found)?;
    }
    Ok(())
}
