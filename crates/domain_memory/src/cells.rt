//! The free cells of all volumes.
ghost use Rattle.std.specs.Prelude.{◌≡◌, ◌+◌, [], length, IfOk, OnOk};
ghost use Rattle.standing_laws.specs.page_ways.Frame.{frame_in};
ghost use Rattle.standing_laws.specs.free_cells.Cells.{table_of};
ghost use Rattle.standing_laws.specs.domain_layout.Layout.{IsLayout, Layout};
ghost use Rattle.standing_laws.specs.domain_layout.Owners.{frame_of};
ghost use Rattle.standing_laws.specs.filesets_reading.Good.{AreGood};
ghost use Rattle.standing_laws.specs.domain_standing.Space.{AreCellsOf};
ghost use Rattle.domain_memory.specs.Tables.{AreRead, AreReadBelow, AreTablePages, ReadsTable};

use standing_laws::{DomainFrame, FreeCells, Home, MetaPages, OutOfMemory, VolIx, read_cell_table};
use std::alloc::Global;

/// The state of a closed member.
const CLOSED: u32 = 2;

/// Reads the pages of a volume's table of cells, in their order.
fn read_pages<M: MetaPages>(
    alloc: Global,
    pages: &M,
    vol: VolIx,
    table: &[u32],
    cells: &mut FreeCells,
) -> Result<(), OutOfMemory>
    requires table { AreTablePages (M.pages pages.now) vol table.now }
    requires none { table_of cells.old vol ≡ [] }
    requires read { AreRead cells.old (M.pages pages.now) }
    ensures { OnOk result (ReadsTable (M.pages pages.now) vol (length table.now) table.now
        cells.old cells.new) }
{
    for place in 0..table.len() {
        let page = table[place];
        cells.read_page(alloc, pages, Home { vol, page })?;
    }
    Ok(())
}

/// Adds the free cells of a volume, if it is a member. Nothing is taken from a closed one.
fn add_volume<M: MetaPages>(
    alloc: Global,
    pages: &M,
    frame: &DomainFrame,
    number: u32,
    cells: &mut FreeCells,
) -> Result<(), OutOfMemory>
    requires good { AreGood (M.pages pages.now) (frame_in frame.now) }
    requires below { AreReadBelow (M.pages pages.now) (frame_in frame.now) number cells.old }
    ensures { OnOk result (AreReadBelow (M.pages pages.now) (frame_in frame.now) (number + 1)
        cells.new) }
{
    let Some(vol) = VolIx::new(number) else {
        return Ok(());
    };
    if !frame.is_member(vol) {
        return Ok(());
    }
    let table = read_cell_table(alloc, pages, &frame.anchor, frame.version, vol)?;
    read_pages(alloc, pages, vol, table.as_slice(), cells)?;
    if frame.member(vol).state == CLOSED {
        cells.close_volume(vol);
    }
    Ok(())
}

/// The free cells of a domain's volumes, read from the tables of cells of its members: cells of
/// closed members are not handed out.
pub fn read_cells<M: MetaPages>(
    alloc: Global,
    pages: &M,
    frame: &DomainFrame,
) -> Result<FreeCells, OutOfMemory>
    requires good { AreGood (M.pages pages.now) (frame_in frame.now) }
    ensures { IfOk result (λ cells. (layout : Layout) → IsLayout (M.pages pages.now) layout
        → frame_of layout ≡ frame_in frame.now → AreCellsOf (M.pages pages.now) layout cells) }
{
    let mut cells = FreeCells::new(alloc)?;
    for number in 1..9_u32 {
        add_volume(alloc, pages, frame, number, &mut cells)?;
    }
    Ok(cells)
}
