//! Where a file's chain of cells has its pages.
ghost use Rattle.std.specs.Prelude.{IfOk, IfSome, List, OnOk};
ghost use Rattle.index_row_faults.specs.metadata_cells.Chain.{LinksFrom, PlacedCell};
ghost use Rattle.index_row_faults.specs.file_chains.Files.{places_of};
ghost use Rattle.index_row_faults.specs.domain_layout.Seen.{IsSource};
ghost use Rattle.index_row_faults.specs.filesets_reading.Chains.{HasLinks};
ghost use Rattle.slot_files.specs.Files.{IsWhole};
ghost use Rattle.slot_files.specs.Said.{ListsPlaces, place_in};

use crate::places::places_said;
use crate::runs::runs_said;
use crate::said::SaidPlace;
use index_row_faults::{CellAt, ChainFault, MetaPages, OutOfMemory, look_at_chain, read_chain};
use std::alloc::Global;

/// Where each page is, by the whole chain of cells that begins there.
pub(crate) fn places_at<M: MetaPages>(
    alloc: Global,
    pages: &M,
    at: &CellAt,
) -> Result<Vec<SaidPlace>, OutOfMemory>
    requires { IsWhole (M.pages pages.now) at.now }
    ensures { IfOk result (λ places. (cells : List PlacedCell)
        → LinksFrom (M.pages pages.now) at.now cells
        → ListsPlaces (places_of cells) places.items) }
{
    match read_chain(alloc, pages, *at) {
        Ok(records) => {
            let runs = runs_said(alloc, records.as_slice())?;
            places_said(alloc, &runs)
        }
        Err(ChainFault::OutOfMemory) => Err(OutOfMemory),
        Err(ChainFault::Broken { .. }) => unreachable!(),
    }
}

/// Reads the chain of the source of a clone's file, if it has one, so that it is known to be there.
pub(crate) fn look_at_source<M: MetaPages>(
    alloc: Global,
    pages: &M,
    source: &Option<CellAt>,
) -> Result<(), OutOfMemory>
    requires { IfSome source.now (IsWhole (M.pages pages.now)) }
    ensures { OnOk result (IfSome source.now (HasLinks (M.pages pages.now))) }
{
    match source {
        Some(at) => look_at_chain(alloc, pages, *at),
        None => Ok(()),
    }
}

/// Where the source of a clone's file has its pages; no page if it has no source.
pub(crate) fn source_places<M: MetaPages>(
    alloc: Global,
    pages: &M,
    source: &Option<CellAt>,
) -> Result<Vec<SaidPlace>, OutOfMemory>
    requires whole { IfSome source.now (IsWhole (M.pages pages.now)) }
    requires links { IfSome source.now (HasLinks (M.pages pages.now)) }
    ensures { IfOk result (λ places. IsSource (M.pages pages.now) source.now
        (place_in places.items)) }
{
    match source {
        Some(at) => places_at(alloc, pages, at),
        None => Ok(Vec::new(alloc)),
    }
}
