//! Laws of the page of the fileset table.
ghost use Rattle.std.specs.Prelude.{◌≡◌, ◌<◌, ℕ, true, false, List, IfOk, Err, Some, count_by, slice_get};
ghost use Rattle.fileset_table.specs.declared.slot.TableFault.TheVariants as table_fault;
ghost use Rattle.fileset_table.specs.Page.{IsTablePage};
ghost use Rattle.fileset_table.specs.declared.slot.SlotItem.{SlotItem as SlotItemOf};
ghost use Rattle.fileset_table.specs.Table.{IsAllowed, IsSameFileset, IsTable, Table, has_name, is_clone_of, is_fileset, is_original, with_slot};
ghost use Rattle.std.specs.List.{list_any};
ghost use Rattle.std.specs.Option.{option_map_or};
ghost use Rattle.fileset_table.specs.declared.slot.FilesetEntry.{FilesetEntry as FilesetEntryOf};
ghost use Rattle.fileset_table.specs.declared.slot.SlotItem.TheVariants.{Clone, Free, Original};

use crate::slot::TableFault;
use crate::table::FilesetTable;
use metadata_cells::Page;
use std::alloc::Global;

/// The law that a page says at most one table.
pub fn a_page_is_one_table()
    ensures { (page : List ℕ) (a b : Table) → IsTablePage page a → IsTablePage page b → a ≡ b }
{}

/// Writes a table to a page and reads it again. The result is the same. Fails only if memory runs
/// out.
pub fn written_and_read(
    alloc: Global,
    table: &FilesetTable,
    page: &mut Page,
) -> Result<FilesetTable, TableFault>
    ensures same { IfOk result (λ again. again ≡ table.now) }
    ensures fault { ¬ result ≡ Err table_fault.Bad }
{
    table.write(page);
    FilesetTable::read(alloc, page)
}

/// The law that a fileset without a clone may leave its slot, which is then free or that of a
/// fileset being removed, and that the table stays a table.
pub fn a_fileset_leaves()
    ensures { (table : Table) (number : ℕ) (item : SlotItemOf) → IsTable table
        → list_any (is_clone_of number) table.slots ≡ false → is_fileset item ≡ false
        → IsAllowed item → IsTable (with_slot number item table) }
{}

/// The law that an original may come into a free slot: its name is new, and there are fewer than 16
/// filesets.
pub fn an_original_joins()
    ensures { (table : Table) (number : ℕ) (entry : FilesetEntryOf) → IsTable table
        → slice_get table.slots number ≡ Some Free → count_by is_fileset table.slots < 16
        → IsAllowed (Original entry) → list_any (has_name entry.name) table.slots ≡ false
        → IsTable (with_slot number (Original entry) table) }
{}

/// The law that a clone may come into a free slot in the same way, of an original that has none.
pub fn a_clone_joins()
    ensures { (table : Table) (number original n : ℕ) (entry : FilesetEntryOf) → IsTable table
        → slice_get table.slots number ≡ Some Free → count_by is_fileset table.slots < 16
        → IsAllowed (Clone original n entry)
        → list_any (has_name entry.name) table.slots ≡ false
        → option_map_or is_original (slice_get table.slots original) false ≡ true
        → list_any (is_clone_of original) table.slots ≡ false
        → IsTable (with_slot number (Clone original n entry) table) }
{}

/// The law that all of a fileset may change except its name and its kind: where its tag directory
/// begins, its limits, the quota cell, and the number of a clone.
pub fn a_fileset_changes()
    ensures { (table : Table) (number : ℕ) (old item : SlotItemOf) → IsTable table
        → slice_get table.slots number ≡ Some old → IsSameFileset old item → IsAllowed item
        → IsTable (with_slot number item table) }
{}

/// The law that putting back what a slot had, after one other change of the slot, gives the table
/// as it was.
pub fn a_slot_comes_back()
    ensures { (table : Table) (number : ℕ) (had item : SlotItemOf)
        → slice_get table.slots number ≡ Some had
        → with_slot number had (with_slot number item table) ≡ table }
{}
