//! Reading the memory of a domain from its pages.
ghost use Rattle.std.specs.Prelude.{◌≡◌, ◌≤◌, ℕ, IfOk};
ghost use Rattle.no_faults.specs.domain_base.Limits.{max_volume_pages_4};
ghost use Rattle.no_faults.specs.log_ring.Homes.{IsMember, member_of as member_there};
ghost use Rattle.no_faults.specs.staged_pages.Store.{before_of, pages_of};
ghost use Rattle.no_faults.specs.page_ways.Frame.{frame_in};
ghost use Rattle.no_faults.specs.fileset_table.Table.{IsTable};
ghost use Rattle.no_faults.specs.filesets_reading.Good.{AreGood};
ghost use Rattle.no_faults.specs.domain_layout.Layout.{Layout};
ghost use Rattle.attached_domain.specs.Read.{IsReadAs, IsReadMemory};

use no_faults::{
    CellLinks, DomainFrame, DomainMemory, FilesetTable, OutOfMemory, SlotFiles, StagedPages,
    read_cells, read_list, read_space,
};
use std::alloc::Global;

/// The memory of a domain, from its pages and from what was read of them: the fileset table, what
/// each cell in use leads to, and what is in the slots. No change is laid over it. The free space,
/// the free cells and the list of what is to be let go of are read here. Fails only if memory runs
/// out.
pub fn read_memory(
    alloc: Global,
    pages: StagedPages,
    frame: DomainFrame,
    table: FilesetTable,
    links: &CellLinks,
    slots: Vec<Option<SlotFiles>>,
) -> Result<DomainMemory, OutOfMemory>
    requires settled { pages_of pages ≡ before_of pages }
    requires good { AreGood (pages_of pages) (frame_in frame) }
    requires few { (vol : ℕ) → IsMember frame.anchor vol
        → (member_there frame.anchor vol).pages ≤ max_volume_pages_4 }
    requires table { IsTable table }
    ensures read { IfOk result (λ memory. (layout : Layout)
        → IsReadAs (pages_of pages) (frame_in frame) table links.now slots.items layout
        → IsReadMemory memory layout) }
    ensures pages { IfOk result (λ memory. memory.pages ≡ pages) }
    ensures slots { IfOk result (λ memory. memory.slots ≡ slots) }
{
    let mut space = read_space(alloc, &pages, &frame)?;
    space.keep();
    let mut cells = read_cells(alloc, &pages, &frame)?;
    cells.keep();
    let list = read_list(alloc, &pages, links)?;
    Ok(DomainMemory {
        frame,
        pages,
        space,
        cells,
        table,
        list,
        slots,
        was: None,
        listed: Vec::new(alloc),
    })
}
