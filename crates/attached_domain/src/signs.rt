//! What is looked for in the first cells to which tags lead.
ghost use Rattle.std.specs.Prelude.{◌≡◌, ◌↔◌, IfOk, IsTrue};
ghost use Rattle.no_faults.specs.metadata_cells.Cell.{Cell};
ghost use Rattle.no_faults.specs.metadata_cells.Chain.{StandsAt};
ghost use Rattle.no_faults.specs.domain_layout.CellRules.{say_removed};
ghost use Rattle.attached_domain.specs.Signs.{SaysAt, asks, say_cut};

use no_faults::from_domain_base::limits::FILE_PAGES;
use no_faults::{
    CellAt, Leftover, MetaPages, OutOfMemory, Record, SlotItem, find_record, read_used,
};
use std::alloc::Global;

/// What a first cell to which a tag leads may say of its file, though no rule is broken.
#[derive(Clone, Copy)]
pub(crate) enum Sign {
    /// All of the file is to be removed.
    Removed,
    /// It is a directory that is to be cut.
    Cut,
}

/// Whether a sign is looked for in what is in a slot. A file that is to be removed is looked for in
/// each, and a directory that is to be cut only in an original, whose set of files has it.
pub(crate) fn is_asked(sign: Sign, item: &SlotItem) -> bool
    ensures { result ≡ asks sign item.now }
{
    match sign {
        Sign::Removed => true,
        Sign::Cut => matches!(item, SlotItem::Original { .. }),
    }
}

/// Whether the cell that stands at a place says that all of its file is to be removed.
fn is_removed<M: MetaPages>(pages: &M, at: &CellAt) -> bool
    ensures { (cell : Cell) → StandsAt (M.pages pages.now) at.now cell
        → result ≡ say_removed cell.records }
{
    match find_record(pages, *at, 6) {
        Some(Record::Pending { what }) => matches!(what, Leftover::Remove),
        _ => false,
    }
}

/// Whether the cell that stands at a place says a directory that keeps fewer pages than a file can
/// have.
fn is_cut<M: MetaPages>(pages: &M, at: &CellAt) -> bool
    ensures { (cell : Cell) → StandsAt (M.pages pages.now) at.now cell
        → result ≡ say_cut cell.records }
{
    match find_record(pages, *at, 1) {
        Some(Record::Attributes { kind, keep, .. }) => kind == 2 && keep != FILE_PAGES,
        _ => false,
    }
}

/// Whether a cell in use stands at a place and has the sign.
pub(crate) fn says<M: MetaPages>(
    alloc: Global,
    pages: &M,
    sign: Sign,
    at: &CellAt,
) -> Result<bool, OutOfMemory>
    ensures { IfOk result (λ says. IsTrue says ↔ SaysAt (M.pages pages.now) sign at.now) }
{
    let Some(_used) = read_used(alloc, pages, *at)? else {
        return Ok(false);
    };
    Ok(match sign {
        Sign::Removed => is_removed(pages, at),
        Sign::Cut => is_cut(pages, at),
    })
}
