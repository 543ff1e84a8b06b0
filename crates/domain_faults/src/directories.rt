//! Rules of directories that are broken in the filesets of a domain.
ghost use Rattle.std.specs.Prelude.{◌≡◌, ◌⊎◌, ◌↔◌, IfOk, OnOk, slice_get};
ghost use Rattle.slot_files.specs.domain_base.declared.place.Home.{Home};
ghost use Rattle.slot_files.specs.domain_layout.CellRules.{of_clone};
ghost use Rattle.slot_files.specs.domain_layout.DirectoryRules.{IsDirectoryFault};
ghost use Rattle.slot_files.specs.domain_layout.Faults.{HasNoTablesFault};
ghost use Rattle.slot_files.specs.filesets_reading.Tables.{AreTablesOf};
ghost use Rattle.slot_files.specs.sorted_sets.Members.{IsIn};
ghost use Rattle.slot_files.specs.page_ways.Frame.{frame_in};
ghost use Rattle.slot_files.specs.directory_faults.Slot.{HasDirectoryFault};

use slot_files::{
    DomainFrame, DomainTables, FilesetNo, FilesetTable, HomeSet, MetaPages, OutOfMemory, SlotItem,
    insert_directory_faults, read_slot_files,
};
use std::alloc::Global;

/// Whether a clone is in a slot.
fn is_clone(table: &FilesetTable, number: FilesetNo) -> bool
    ensures { of_clone (slice_get table.now.slots number) ≡ result }
{
    match table.slot(number) {
        SlotItem::Clone { .. } => true,
        _ => false,
    }
}

/// Puts into a set the pages at which the fileset in a slot breaks a rule of directories.
fn insert_slot_faults<M: MetaPages>(
    alloc: Global,
    pages: &M,
    frame: &DomainFrame,
    tables: &DomainTables,
    number: FilesetNo,
    found: &mut HomeSet,
) -> Result<(), OutOfMemory>
    requires tables { AreTablesOf (M.pages pages.now) (frame_in frame.now) tables.now }
    requires no_fault { HasNoTablesFault (M.pages pages.now) (frame_in frame.now) }
    ensures { OnOk result ((home : Home) → IsIn found.new home ↔ (IsIn found.old home
        ⊎ HasDirectoryFault (M.pages pages.now) (frame_in frame.now) tables.now.filesets number
        home)) }
{
    let files = read_slot_files(alloc, pages, frame, tables, number)?;
    insert_directory_faults(
        alloc,
        pages,
        frame,
        &files,
        is_clone(&tables.filesets, number),
        found,
    )
}

/// The pages at which a fileset breaks a rule of directories, each once and in order: those with
/// the code 9 in a list of faults, if no rule of tables is broken.
pub(crate) fn directory_faults<M: MetaPages>(
    alloc: Global,
    pages: &M,
    frame: &DomainFrame,
    tables: &DomainTables,
) -> Result<HomeSet, OutOfMemory>
    requires tables { AreTablesOf (M.pages pages.now) (frame_in frame.now) tables.now }
    requires no_fault { HasNoTablesFault (M.pages pages.now) (frame_in frame.now) }
    ensures { IfOk result (λ found. (home : Home) → IsIn found home
        ↔ IsDirectoryFault (M.pages pages.now) (frame_in frame.now) tables.now.filesets home) }
{
    let mut found = HomeSet::new(alloc);
    for n in 0..32_u32 {
        let Some(number) = FilesetNo::new(n) else {
            unreachable!()
        };
        insert_slot_faults(alloc, pages, frame, tables, number, &mut found)?;
    }
    Ok(found)
}
