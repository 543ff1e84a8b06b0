//! Rows with the name of an earlier one.
ghost use Rattle.std.specs.Prelude.{◌⊎◌, ◌↔◌, ℕ, IfOk, IsTrue, OnOk};
ghost use Rattle.fileset_shapes.specs.domain_base.declared.place.Home.{Home};
ghost use Rattle.fileset_shapes.specs.fileset_table.Table.{Table};
ghost use Rattle.fileset_shapes.specs.page_store.Pages.{Pages};
ghost use Rattle.fileset_shapes.specs.domain_layout.Reached.{Frame};
ghost use Rattle.fileset_shapes.specs.sorted_sets.Members.{IsIn};
ghost use Rattle.directory_faults.specs.Names.{HasNameTwice, IsNamedAlike, IsNoted};
ghost use Rattle.directory_faults.specs.Rows.{AreRowsIn};
ghost use Rattle.directory_faults.specs.declared.rows.RowThere.{RowThere as RowItem};

use crate::rows::RowThere;
use fileset_shapes::{HomeSet, OutOfMemory, Tag};
use std::alloc::Global;
use std::collections::BTreeSet;

/// Notes the name of a row by its directory. Returns whether it was noted before.
fn note_name<'a>(
    names: &mut BTreeSet<(Tag, &'a [u8])>,
    row: &'a RowThere,
) -> Result<bool, OutOfMemory>
    ensures again { IfOk result (λ again. IsTrue again ↔ IsNoted names.old row.now) }
    ensures noted { OnOk result ((other : RowItem) → IsNoted names.new other
        ↔ (IsNoted names.old other ⊎ IsNamedAlike row.now other)) }
{
    let is_new = names.insert((row.at.dir, row.row.name.as_slice()))?;
    Ok(!is_new)
}

/// Puts into a set the pages of a fileset's directories on which a row has the name of an earlier
/// one of its directory, from its rows.
pub fn insert_names_twice(
    alloc: Global,
    rows: &[RowThere],
    found: &mut HomeSet,
) -> Result<(), OutOfMemory>
    ensures { OnOk result ((pages : Pages) (frame : Frame) (table : Table) (number : ℕ)
        → AreRowsIn pages frame table number rows.now
        → (home : Home) → IsIn found.new home ↔ (IsIn found.old home
        ⊎ HasNameTwice pages frame table number home)) }
{
    let mut names = BTreeSet::new(alloc);
    for k in 0..rows.len() {
        let row = &rows[k];
        if note_name(&mut names, row)? {
            found.insert(&row.at.home)?;
        }
    }
    Ok(())
}
