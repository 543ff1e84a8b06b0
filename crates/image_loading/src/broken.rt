//! Whether a rule of tables is broken.
ghost use Rattle.std.specs.Prelude.{◌≡◌, ◌↔◌, IfOk, IsTrue, false};
ghost use Rattle.slot_files.specs.domain_base.declared.place.Home.{Home};
ghost use Rattle.slot_files.specs.domain_layout.Faults.{HasNoTablesFault};
ghost use Rattle.slot_files.specs.sorted_sets.Members.{IsIn};
ghost use Rattle.slot_files.specs.page_ways.Frame.{frame_in};
ghost use Rattle.slot_files.specs.cell_faults.Read.{IsWholeTable};

use slot_files::{
    DomainFrame, FilesetTable, HomeSet, MetaPages, OutOfMemory, cells_faults, tags_faults,
};
use std::alloc::Global;

/// Whether no home is in a set.
fn is_empty(set: &HomeSet) -> bool
    ensures { IsTrue result ↔ ((home : Home) → ¬ IsIn set.now home) }
{
    set.as_slice().is_empty()
}

/// Whether a rule of cells or of tags is broken, if the page of the fileset table says this table.
pub(crate) fn has_tables_fault<M: MetaPages>(
    alloc: Global,
    pages: &M,
    frame: &DomainFrame,
    table: &FilesetTable,
) -> Result<bool, OutOfMemory>
    requires { IsWholeTable (M.pages pages.now) (frame_in frame.now) table.now }
    ensures { IfOk result (λ has. (has ≡ false)
        ↔ HasNoTablesFault (M.pages pages.now) (frame_in frame.now)) }
{
    let cells = cells_faults(alloc, pages, frame, table)?;
    if !is_empty(&cells) {
        return Ok(true);
    }
    let tags = tags_faults(alloc, pages, frame, table)?;
    let is_clean = is_empty(&tags);
    Ok(!is_clean)
}
