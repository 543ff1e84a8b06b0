//! Rules of indexes that are broken in a domain.
ghost use Rattle.std.specs.Prelude.{◌⊎◌, ◌↔◌, IfOk, OnOk};
ghost use Rattle.slot_files.specs.domain_base.declared.place.Home.{Home};
ghost use Rattle.slot_files.specs.domain_layout.DirectoryRules.{IsIndexFault};
ghost use Rattle.slot_files.specs.domain_layout.Faults.{HasNoTablesFault};
ghost use Rattle.slot_files.specs.filesets_reading.Tables.{AreTablesOf};
ghost use Rattle.slot_files.specs.sorted_sets.Members.{IsIn};
ghost use Rattle.slot_files.specs.index_row_faults.Wrong.{HasWrongIndex};
ghost use Rattle.slot_files.specs.page_ways.Frame.{frame_in};

use slot_files::{
    DomainFrame, DomainTables, FilesetNo, HomeSet, MetaPages, OutOfMemory, index_page_faults,
    insert_wrong_indexes, read_rows, read_slot_files, read_slot_indexes,
};
use std::alloc::Global;

/// Puts into a set the pages at which an index of the fileset in a slot is wrong, beyond what is
/// asked of every index.
fn insert_slot_indexes<M: MetaPages>(
    alloc: Global,
    pages: &M,
    frame: &DomainFrame,
    tables: &DomainTables,
    number: FilesetNo,
    found: &mut HomeSet,
) -> Result<(), OutOfMemory>
    requires tables { AreTablesOf (M.pages pages.now) (frame_in frame.now) tables.now }
    requires no_fault { HasNoTablesFault (M.pages pages.now) (frame_in frame.now) }
    ensures { OnOk result ((home : Home) → IsIn found.new home ↔ (IsIn found.old home
        ⊎ HasWrongIndex (M.pages pages.now) (frame_in frame.now) tables.now.filesets number
        home)) }
{
    let files = read_slot_files(alloc, pages, frame, tables, number)?;
    let rows = read_rows(alloc, pages, frame, &files)?;
    let indexes = read_slot_indexes(alloc, pages, &files)?;
    insert_wrong_indexes(alloc, pages, frame, &rows, &indexes, found)
}

/// The pages at which a rule of indexes is broken, each once and in order: those with the code 10
/// in a list of faults, if no rule of tables is broken.
pub(crate) fn faults_of_indexes<M: MetaPages>(
    alloc: Global,
    pages: &M,
    frame: &DomainFrame,
    tables: &DomainTables,
) -> Result<HomeSet, OutOfMemory>
    requires tables { AreTablesOf (M.pages pages.now) (frame_in frame.now) tables.now }
    requires no_fault { HasNoTablesFault (M.pages pages.now) (frame_in frame.now) }
    ensures { IfOk result (λ found. (home : Home) → IsIn found home
        ↔ IsIndexFault (M.pages pages.now) (frame_in frame.now) tables.now.filesets home) }
{
    let mut found = index_page_faults(alloc, pages, frame)?;
    for n in 0..32_u32 {
        let Some(number) = FilesetNo::new(n) else {
            unreachable!()
        };
        insert_slot_indexes(alloc, pages, frame, tables, number, &mut found)?;
    }
    Ok(found)
}
