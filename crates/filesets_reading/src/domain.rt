//! All tables and files of a domain.
ghost use Rattle.std.specs.Prelude.{◌≡◌, IfOk, OnOk, Some, slice_get};
ghost use Rattle.domain_layout.specs.Faults.{HasNoExtentFault};
ghost use Rattle.filesets_reading.specs.Good.{IsNamed, frame_at};
ghost use Rattle.filesets_reading.specs.Domain.{HasFilesOf, HaveAllFiles};
ghost use Rattle.filesets_reading.specs.Tables.{AreTablesOf};

use crate::chains::look_at_files;
use crate::tables::{DomainTables, first_tag, read_tables};
use domain_layout::{Anchor, FilesetNo, MetaPages, OutOfMemory, Version};
use std::alloc::Global;

/// Reads the chains of the files of what is in a slot.
fn look_at_slot<M: MetaPages>(
    alloc: Global,
    pages: &M,
    anchor: &Anchor,
    version: Version,
    tables: &DomainTables,
    number: FilesetNo,
) -> Result<(), OutOfMemory>
    requires tables { AreTablesOf (M.pages pages.now) (frame_at anchor.now version) tables.now }
    requires no_fault { HasNoExtentFault (M.pages pages.now) (frame_at anchor.now version) }
    ensures { OnOk result (HasFilesOf (M.pages pages.now) tables.now number) }
{
    match first_tag(tables.filesets.slot(number)) {
        Some(_) => look_at_files(alloc, pages, number, &tables.tags[number.number() as usize]),
        None => Ok(()),
    }
}

/// The tables of a domain with this anchor. If no rule of tables and extents is broken, its pages
/// are laid out as a domain's are, and each fileset has its files.
pub fn read_domain<M: MetaPages>(
    alloc: Global,
    pages: &M,
    anchor: &Anchor,
    version: Version,
) -> Result<DomainTables, OutOfMemory>
    requires named { IsNamed anchor.now version }
    requires no_fault { HasNoExtentFault (M.pages pages.now) (frame_at anchor.now version) }
    ensures tables { IfOk result (AreTablesOf (M.pages pages.now) (frame_at anchor.now version)) }
    ensures files { IfOk result (HaveAllFiles (M.pages pages.now)) }
{
    let tables = read_tables(alloc, pages, anchor, version)?;
    for n in 0..32_u32 {
        let Some(number) = FilesetNo::new(n) else {
            unreachable!()
        };
        look_at_slot(alloc, pages, anchor, version, &tables, number)?;
    }
    Ok(tables)
}
