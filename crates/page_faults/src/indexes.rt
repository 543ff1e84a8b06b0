//! The indexes that cells in use name.
ghost use Rattle.std.specs.Prelude.{IfOk, OnOk, Some};
ghost use Rattle.tag_faults.specs.domain_layout.CellRules.{IsPlace};
ghost use Rattle.tag_faults.specs.page_ways.Frame.{frame_in};
ghost use Rattle.tag_faults.specs.cell_faults.Links.{AreLinks};
ghost use Rattle.page_faults.specs.Indexes.{AddsIndex, AreIndexes};

use crate::index_at;
use std::alloc::Global;
use tag_faults::{CellAt, CellLinks, DomainFrame, Home, MetaPages, OutOfMemory};

/// An index: the place of the cell in use that names it, and its first page.
#[derive(Clone, Copy, Debug, PartialEq, Eq)]
pub struct IndexAt {
    pub at: CellAt,
    pub first: Home,
}

/// Appends to others the index that the cell in use at a place names, if it names one.
fn push_index<M: MetaPages>(
    alloc: Global,
    pages: &M,
    frame: &DomainFrame,
    at: &CellAt,
    indexes: &mut Vec<IndexAt>,
) -> Result<(), OutOfMemory>
    requires { IsPlace (M.pages pages.now) (frame_in frame.now) at.now }
    ensures { OnOk result (AddsIndex (M.pages pages.now) (frame_in frame.now) at.now
        indexes.old.items indexes.new.items) }
{
    let Some(first) = index_at(alloc, pages, at)? else {
        return Ok(());
    };
    indexes.push(IndexAt { at: *at, first })?;
    Ok(())
}

/// The indexes of a domain, each with the cell in use that names it, from what was read of all
/// cells in use. No cell names two indexes.
pub fn read_indexes<M: MetaPages>(
    alloc: Global,
    pages: &M,
    frame: &DomainFrame,
    links: &CellLinks,
) -> Result<Vec<IndexAt>, OutOfMemory>
    requires { AreLinks (M.pages pages.now) (frame_in frame.now) links.now }
    ensures { IfOk result (λ indexes. AreIndexes (M.pages pages.now) (frame_in frame.now)
        indexes.items) }
{
    let mut indexes = Vec::new(alloc);
    for (_, (at, _)) in links.as_slice() {
        push_index(alloc, pages, frame, at, &mut indexes)?;
    }
    Ok(indexes)
}
