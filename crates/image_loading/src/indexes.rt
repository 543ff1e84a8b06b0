//! The pages of the indexes that cells name.
ghost use Rattle.std.specs.Prelude.{◌≡◌, OnOk};
ghost use Rattle.slot_files.specs.cell_faults.Links.{AreLinks};
ghost use Rattle.image_loading.specs.Indexes.{HasIndexes};
ghost use Rattle.slot_files.specs.log_ring.Homes.{HasMembers};
ghost use Rattle.image_loading.specs.Loading.{Brings, HasCells, NamesCause};
ghost use Rattle.slot_files.specs.page_ways.Frame.{frame_in};

use crate::{LoadFault, load_way};
use slot_files::{CellLinks, DomainFrame, IndexWay, MetaPages, Rack, read_indexes};
use std::alloc::Global;

/// Brings the pages of each index that a cell in use names, from what was read of all cells in use.
/// The pages of cells are there.
pub fn load_indexes<R: Rack, M: MetaPages>(
    alloc: Global,
    rack: &mut R,
    frame: &DomainFrame,
    links: &CellLinks,
    pages: &mut M,
) -> Result<(), LoadFault>
    requires members { HasMembers (R.disk rack.old).sizes frame.now.anchor }
    requires cells { HasCells (M.pages pages.old) (frame_in frame.now) }
    requires links { AreLinks (M.pages pages.old) (frame_in frame.now) links.now }
    ensures brings { Brings (R.disk rack.old) (R.disk rack.new) (M.pages pages.old)
        (M.pages pages.new) }
    ensures whole { OnOk result (HasIndexes (M.pages pages.new) (frame_in frame.now)) }
    ensures fault { NamesCause (R.disk rack.old) (R.disk rack.new) result }
    ensures before { M.before pages.new ≡ M.before pages.old }
{
    let indexes = read_indexes(alloc, pages, frame, links)?;
    for index in &indexes {
        let first = index.first;
        load_way(alloc, rack, frame, &IndexWay { first }, pages)?;
    }
    Ok(())
}
