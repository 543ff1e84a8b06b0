//! The rules of files' pages, and those of bitmaps.
ghost use Rattle.std.specs.Prelude.{◌↔◌, IfOk};
ghost use Rattle.tag_faults.specs.domain_base.declared.place.Home.{Home};
ghost use Rattle.tag_faults.specs.page_ways.Frame.{frame_in};
ghost use Rattle.tag_faults.specs.sorted_sets.Members.{IsIn as IsHomeIn};
ghost use Rattle.page_faults.specs.Files.{AreGoodCells, HasWrongBit, HasWrongPage};

use crate::bitmaps::wrong_bitmaps;
use crate::owners::read_owners;
use crate::wrong::wrong_runs;
use std::alloc::Global;
use tag_faults::{DomainFrame, FilesetTable, HomeSet, MetaPages, OutOfMemory};

/// The pages with a cell that places a page of its file outside every member, on a page of label,
/// anchors, bitmap, log or a table, or on the place of another page of a file. Each is there once
/// and in order. If a rule of cells is broken, nothing is said about them: look for those faults
/// first. A page on volume 0 does not belong to a member.
pub fn extent_faults<M: MetaPages>(
    alloc: Global,
    pages: &M,
    frame: &DomainFrame,
    table: &FilesetTable,
) -> Result<HomeSet, OutOfMemory>
    ensures { IfOk result (λ found. AreGoodCells (M.pages pages.now) (frame_in frame.now) table.now
        → (home : Home) → IsHomeIn found home
        ↔ HasWrongPage (M.pages pages.now) (frame_in frame.now) table.now home) }
{
    let owners = read_owners(alloc, pages, frame, table)?;
    let found = wrong_runs(alloc, frame, &owners.homes, &owners.runs)?;
    Ok(found)
}

/// The pages of members' bitmaps with a bit that is 1 where the page belongs to nothing, or 0 where
/// it belongs to something or lies outside the member, each once and in order. If a rule of cells
/// is broken, nothing is said about them: look for those faults first.
pub fn bitmap_faults<M: MetaPages>(
    alloc: Global,
    pages: &M,
    frame: &DomainFrame,
    table: &FilesetTable,
) -> Result<HomeSet, OutOfMemory>
    ensures { IfOk result (λ found. AreGoodCells (M.pages pages.now) (frame_in frame.now) table.now
        → (home : Home) → IsHomeIn found home
        ↔ HasWrongBit (M.pages pages.now) (frame_in frame.now) table.now home) }
{
    let owners = read_owners(alloc, pages, frame, table)?;
    let found = wrong_bitmaps(alloc, pages, frame, &owners.homes, &owners.runs)?;
    Ok(found)
}
