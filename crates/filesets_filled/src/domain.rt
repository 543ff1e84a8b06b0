//! All filesets of a domain.
ghost use Rattle.std.specs.Prelude.{◌≡◌, IfOk, Some};
ghost use Rattle.fileset_shapes.specs.domain_base.declared.place.Home.{Home};
ghost use Rattle.fileset_shapes.specs.domain_layout.Read.{ReadsFrom};
ghost use Rattle.fileset_shapes.specs.filesets_reading.Good.{frame_at};
ghost use Rattle.fileset_shapes.specs.page_ways.Frame.{frame_in};
ghost use Rattle.fileset_shapes.specs.Shapes.{IsDomain};
ghost use Rattle.filesets_filled.specs.Slots.{AreFilledUpTo, IsGoodDomain, IsLaidOut};

use crate::slots::{put_found, read_fileset};
use fileset_shapes::{
    Anchor, DomainFrame, DomainTables, FilesetNo, Filesets, MetaPages, OutOfMemory, Version,
    read_domain,
};
use std::alloc::Global;

/// The filesets in all slots of a table.
fn read_tables_filesets<M: MetaPages>(
    alloc: Global,
    pages: &M,
    domain: &DomainFrame,
    tables: &DomainTables,
) -> Result<Filesets, OutOfMemory>
    requires { IsDomain (M.pages pages.now) (frame_in domain.now) tables.now }
    ensures { IfOk result (AreFilledUpTo (M.pages pages.now) tables.now.filesets 32) }
{
    let mut all = Filesets::new(alloc);
    for n in 0..32_u32 {
        let Some(number) = FilesetNo::new(n) else {
            unreachable!()
        };
        put_found(
            read_fileset(alloc, pages, domain, tables, number)?,
            &mut all,
        )?;
    }
    Ok(all)
}

/// The filesets that the pages of a domain with this anchor have, once its log is redone: if its
/// pages break no rule and each page of its volumes is there. So the pages are laid out as a
/// domain's are.
pub fn read_filesets<M: MetaPages>(
    alloc: Global,
    pages: &M,
    anchor: &Anchor,
    version: Version,
) -> Result<Filesets, OutOfMemory>
    requires { IsGoodDomain (M.pages pages.now) anchor.now version }
    ensures filesets { (home : Home) → anchor.now.table ≡ Some home
        → IfOk result (ReadsFrom (M.pages pages.now) home) }
    ensures layout { IfOk result (λ _. IsLaidOut (M.pages pages.now)
        (frame_at anchor.now version)) }
{
    let tables = read_domain(alloc, pages, anchor, version)?;
    let domain = DomainFrame {
        anchor: *anchor,
        version,
    };
    read_tables_filesets(alloc, pages, &domain, &tables)
}
