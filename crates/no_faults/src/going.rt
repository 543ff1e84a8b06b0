//! Whether what is being removed names first quota cells of its own. No rule asks for this.
ghost use Rattle.std.specs.Prelude.{◌≡◌, ◌↔◌, IfOk, IsTrue};
ghost use Rattle.domain_memory.specs.domain_base.declared.place.CellAt.{CellAt};
ghost use Rattle.cell_faults.specs.cell_chains.Members.{IsIn};
ghost use Rattle.cell_faults.specs.Links.{AreLinks};
ghost use Rattle.cell_faults.specs.cell_chains.Heads.{IsLedTo};
ghost use Rattle.domain_memory.specs.domain_layout.Faults.{HasNoTablesFault};
ghost use Rattle.domain_memory.specs.domain_layout.Layout.{IsLayout, Layout};
ghost use Rattle.domain_memory.specs.domain_layout.Owners.{frame_of};
ghost use Rattle.no_faults.specs.Attached.{HaveQuotasToGo};
ghost use Rattle.no_faults.specs.Going.{IsFirstRead, NamesFirst};

use cell_faults::{CellLinks, CellSet, led_cells};
use domain_memory::{
    CellAt, CellKind, FilesetNo, FilesetTable, MetaPages, OutOfMemory, SlotItem, read_head,
};
use std::alloc::Global;

/// Whether a quota cell of a fileset stands at a place to which no quota cell leads. `led` are the
/// places to which one leads.
fn is_first<M: MetaPages>(
    pages: &M,
    links: &CellLinks,
    led: &CellSet,
    number: FilesetNo,
    at: &CellAt,
) -> bool
    requires { (onto : CellAt) → IsIn led.now onto ↔ IsLedTo links.now onto }
    ensures { IsTrue result ↔ IsFirstRead (M.pages pages.now) links.now number at.now }
{
    let Some(head) = read_head(pages, *at) else {
        return false;
    };
    let is_quota = matches!(head.kind, CellKind::Quota);
    is_quota && head.fileset == Some(number) && links.has(at) && !led.has(at)
}

/// Whether a slot of what is being removed names no quota cells, or the first ones of its fileset.
fn names_first<M: MetaPages>(
    pages: &M,
    table: &FilesetTable,
    links: &CellLinks,
    led: &CellSet,
    number: FilesetNo,
) -> bool
    requires { (onto : CellAt) → IsIn led.now onto ↔ IsLedTo links.now onto }
    ensures { IsTrue result ↔ NamesFirst (M.pages pages.now) links.now table.now number }
{
    match table.slot(number) {
        SlotItem::Removed {
            quota: Some(at),
            ..
        } => is_first(pages, links, led, number, at),
        _ => true,
    }
}

/// Whether each slot of what is being removed that names quota cells names the first ones of its
/// fileset. `links` is what is read of each cell in use.
pub fn has_quotas_to_go<M: MetaPages>(
    alloc: Global,
    pages: &M,
    table: &FilesetTable,
    links: &CellLinks,
) -> Result<bool, OutOfMemory>
    ensures { IfOk result (λ has. (layout : Layout) → IsLayout (M.pages pages.now) layout
        → layout.table ≡ table.now
        → HasNoTablesFault (M.pages pages.now) (frame_of layout)
        → AreLinks (M.pages pages.now) (frame_of layout) links.now
        → IsTrue has ↔ HaveQuotasToGo (M.pages pages.now) (frame_of layout) table.now) }
{
    let led = led_cells(alloc, links)?;
    for number in 0..32_u32 {
        if let Some(number) = FilesetNo::new(number) {
            if !names_first(pages, table, links, &led, number) {
                return Ok(false);
            }
        }
    }
    Ok(true)
}
