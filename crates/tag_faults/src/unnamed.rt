//! First cells that no entry names.
ghost use Rattle.std.specs.Prelude.{◌⊎◌, ◌↔◌, IfOk, IsTrue, OnOk};
ghost use Rattle.cell_faults.specs.domain_base.declared.place.CellAt.{CellAt};
ghost use Rattle.cell_faults.specs.domain_base.declared.place.Home.{Home};
ghost use Rattle.cell_faults.specs.page_ways.Frame.{frame_in};
ghost use Rattle.cell_faults.specs.sorted_sets.Members.{IsIn as IsHomeIn};
ghost use Rattle.cell_faults.specs.cell_chains.Members.{IsIn};
ghost use Rattle.cell_faults.specs.Links.{AreLinks};
ghost use Rattle.tag_faults.specs.Unnamed.{HasUnnamed, IsFirstAlone, IsNamed, LeadsToFirst, Stays};

use crate::cells::home_of;
use crate::firsts::{cell_of, is_primary, leads_to_first};
use crate::named::{NamedCell, read_entries};
use crate::removed::is_removed;
use cell_faults::{
    CellAt, CellLink, CellLinks, CellSet, DomainFrame, FilesetTable, HomeSet, MetaPages,
    OutOfMemory, read_used,
};
use std::alloc::Global;

/// Whether no cell that says that all of its file is to be removed stands at a place.
fn stays<M: MetaPages>(alloc: Global, pages: &M, at: &CellAt) -> Result<bool, OutOfMemory>
    ensures { IfOk result (λ stays. IsTrue stays ↔ Stays (M.pages pages.now) at.now) }
{
    let Some(_used) = read_used(alloc, pages, *at)? else {
        return Ok(true);
    };
    Ok(!is_removed(pages, at))
}

/// Puts the cell of an entry into a set, if it is a first cell of the entry's fileset and tag.
fn insert_named<M: MetaPages>(
    pages: &M,
    frame: &DomainFrame,
    links: &CellLinks,
    entry: &NamedCell,
    named: &mut CellSet,
) -> Result<(), OutOfMemory>
    requires { AreLinks (M.pages pages.now) (frame_in frame.now) links.now }
    ensures { OnOk result ((at : CellAt) → IsIn named.new at ↔ (IsIn named.old at
        ⊎ LeadsToFirst (M.pages pages.now) (frame_in frame.now) at entry.now)) }
{
    if !leads_to_first(pages, frame, links, entry) {
        return Ok(());
    }
    if let Some(at) = cell_of(entry) {
        named.insert(&at)?;
    }
    Ok(())
}

/// The first cells that entries of their filesets and tags name.
fn named_cells<M: MetaPages>(
    alloc: Global,
    pages: &M,
    frame: &DomainFrame,
    table: &FilesetTable,
    links: &CellLinks,
) -> Result<CellSet, OutOfMemory>
    requires { AreLinks (M.pages pages.now) (frame_in frame.now) links.now }
    ensures { IfOk result (λ named. (at : CellAt) → IsIn named at
        ↔ IsNamed (M.pages pages.now) (frame_in frame.now) table.now at) }
{
    let entries = read_entries(alloc, pages, frame, table)?;
    let mut named = CellSet::new(alloc);
    for entry in &entries {
        insert_named(pages, frame, links, entry, &mut named)?;
    }
    Ok(named)
}

/// Puts the page of a first cell into a set, if the cell stays and another set does not have it.
fn insert_alone<M: MetaPages>(
    alloc: Global,
    pages: &M,
    named: &CellSet,
    at: &CellAt,
    link: &CellLink,
    found: &mut HomeSet,
) -> Result<(), OutOfMemory>
    ensures { OnOk result ((home : Home) → IsHomeIn found.new home ↔ (IsHomeIn found.old home
        ⊎ IsFirstAlone (M.pages pages.now) named.now home at.now link.now)) }
{
    if !is_primary(link.kind) || named.has(at) {
        return Ok(());
    }
    if stays(alloc, pages, at)? {
        found.insert(&home_of(at))?;
    }
    Ok(())
}

/// The pages with a first cell that is not to be removed, and that no entry of its fileset and tag
/// names, from what was read of all cells in use.
pub fn unnamed_faults<M: MetaPages>(
    alloc: Global,
    pages: &M,
    frame: &DomainFrame,
    table: &FilesetTable,
    links: &CellLinks,
) -> Result<HomeSet, OutOfMemory>
    requires { AreLinks (M.pages pages.now) (frame_in frame.now) links.now }
    ensures { IfOk result (λ found. (home : Home) → IsHomeIn found home
        ↔ HasUnnamed (M.pages pages.now) (frame_in frame.now) table.now home) }
{
    let named = named_cells(alloc, pages, frame, table, links)?;
    let mut found = HomeSet::new(alloc);
    for (_, (at, link)) in links.as_slice() {
        insert_alone(alloc, pages, &named, at, link, &mut found)?;
    }
    Ok(found)
}
