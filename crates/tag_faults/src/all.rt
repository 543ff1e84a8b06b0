//! All rules of tags, of what they name, and of the slots of the fileset table.
ghost use Rattle.std.specs.Prelude.{◌⊎◌, ◌↔◌, IfOk, OnOk};
ghost use Rattle.cell_faults.specs.domain_base.declared.place.Home.{Home};
ghost use Rattle.cell_faults.specs.domain_layout.TagRules.{IsTagsFault};
ghost use Rattle.cell_faults.specs.page_ways.Frame.{frame_in};
ghost use Rattle.cell_faults.specs.sorted_sets.Members.{IsIn as IsHomeIn};
ghost use Rattle.cell_faults.specs.Links.{AreLinks};
ghost use Rattle.tag_faults.specs.All.{IsNamedFault, IsPagesFault, IsSlotFault};

use crate::directories::{directory_faults, insert_one};
use crate::firsts::entry_faults;
use crate::late::late_file_faults;
use crate::quotas::unnamed_quota_faults;
use crate::roots::root_faults;
use crate::slots::has_wrong_slot;
use crate::sources::source_faults;
use crate::unnamed::unnamed_faults;
use cell_faults::{
    CellLinks, DomainFrame, FilesetTable, HomeSet, MetaPages, OutOfMemory, read_links, read_tables,
};
use std::alloc::Global;

/// The pages at which a rule of pages of tag directories, or of their entries, is broken.
fn pages_faults<M: MetaPages>(
    alloc: Global,
    pages: &M,
    frame: &DomainFrame,
    table: &FilesetTable,
    links: &CellLinks,
) -> Result<HomeSet, OutOfMemory>
    requires { AreLinks (M.pages pages.now) (frame_in frame.now) links.now }
    ensures { IfOk result (λ found. (home : Home) → IsHomeIn found home
        ↔ IsPagesFault (M.pages pages.now) (frame_in frame.now) table.now home) }
{
    let mut found = directory_faults(alloc, pages, frame, table)?;
    let entries = entry_faults(alloc, pages, frame, table, links)?;
    let roots = root_faults(alloc, pages, frame, table, links)?;
    found.insert_set(&entries)?;
    found.insert_set(&roots)?;
    Ok(found)
}

/// The pages at which a rule of cells that are named, or that should be named, is broken.
fn named_faults<M: MetaPages>(
    alloc: Global,
    pages: &M,
    frame: &DomainFrame,
    table: &FilesetTable,
    links: &CellLinks,
) -> Result<HomeSet, OutOfMemory>
    requires { AreLinks (M.pages pages.now) (frame_in frame.now) links.now }
    ensures { IfOk result (λ found. (home : Home) → IsHomeIn found home
        ↔ IsNamedFault (M.pages pages.now) (frame_in frame.now) table.now home) }
{
    let mut found = unnamed_faults(alloc, pages, frame, table, links)?;
    let sources = source_faults(alloc, pages, frame, table, links)?;
    let late = late_file_faults(alloc, pages, frame, table, links)?;
    let quotas = unnamed_quota_faults(alloc, links, table)?;
    found.insert_set(&sources)?;
    found.insert_set(&late)?;
    found.insert_set(&quotas)?;
    Ok(found)
}

/// Puts the page of the fileset table into a set, if a rule of slots is broken.
fn insert_slot_fault<M: MetaPages>(
    alloc: Global,
    pages: &M,
    frame: &DomainFrame,
    table: &FilesetTable,
    links: &CellLinks,
    found: &mut HomeSet,
) -> Result<(), OutOfMemory>
    requires { AreLinks (M.pages pages.now) (frame_in frame.now) links.now }
    ensures { OnOk result ((home : Home) → IsHomeIn found.new home ↔ (IsHomeIn found.old home
        ⊎ IsSlotFault (M.pages pages.now) (frame_in frame.now) table.now home)) }
{
    let wrong = has_wrong_slot(alloc, pages, links, table)?;
    if !wrong {
        return Ok(());
    }
    insert_one(&frame.anchor.table, found)?;
    Ok(())
}

/// The pages at which a rule of tags, of what they name, or of the slots of the fileset table is
/// broken, each once and in order: those with the code 6 in a list of faults, if the page of that
/// table breaks no rule and says this table.
pub fn tags_faults<M: MetaPages>(
    alloc: Global,
    pages: &M,
    frame: &DomainFrame,
    table: &FilesetTable,
) -> Result<HomeSet, OutOfMemory>
    ensures { IfOk result (λ found. (home : Home) → IsHomeIn found home
        ↔ IsTagsFault (M.pages pages.now) (frame_in frame.now) table.now home) }
{
    let tables = read_tables(alloc, pages, frame)?;
    let links = read_links(alloc, pages, frame, &tables)?;
    let mut found = pages_faults(alloc, pages, frame, table, &links)?;
    let named = named_faults(alloc, pages, frame, table, &links)?;
    found.insert_set(&named)?;
    insert_slot_fault(alloc, pages, frame, table, &links, &mut found)?;
    Ok(found)
}
