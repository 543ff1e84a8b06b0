//! Indexes of files, and of directories of one page.
ghost use Rattle.std.specs.Prelude.{◌⊎◌, ◌↔◌, ℕ, OnOk};
ghost use Rattle.page_faults.specs.domain_base.declared.place.Home.{Home};
ghost use Rattle.page_faults.specs.fileset_table.Table.{Table};
ghost use Rattle.page_faults.specs.page_store.Pages.{Pages};
ghost use Rattle.page_faults.specs.sorted_sets.Members.{IsIn};
ghost use Rattle.index_row_faults.specs.There.{AreIndexesIn};
ghost use Rattle.index_row_faults.specs.Undue.{HasUndueIndex, IsUndueAt};

use crate::there::IndexThere;
use page_faults::{HomeSet, OutOfMemory};

/// Puts the first page of an index into a set, if it may not be there.
fn insert_undue(index: &IndexThere, found: &mut HomeSet) -> Result<(), OutOfMemory>
    ensures { OnOk result ((home : Home) → IsIn found.new home ↔ (IsIn found.old home
        ⊎ IsUndueAt index.now home)) }
{
    if !index.may_be {
        found.insert(&index.first)?;
    }
    Ok(())
}

/// Puts into a set the first pages of a fileset's indexes that belong to a file, or to a directory
/// of one page.
pub(crate) fn insert_undue_indexes(
    indexes: &[IndexThere],
    found: &mut HomeSet,
) -> Result<(), OutOfMemory>
    ensures { OnOk result ((pages : Pages) (table : Table) (number : ℕ)
        → AreIndexesIn pages table number indexes.now
        → (home : Home) → IsIn found.new home ↔ (IsIn found.old home
        ⊎ HasUndueIndex pages table number home)) }
{
    for index in indexes {
        insert_undue(index, found)?;
    }
    Ok(())
}
