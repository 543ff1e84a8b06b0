//! Reading the books of originals, each into its slot.
ghost use Rattle.std.specs.Prelude.{◌≡◌, OnOk, length};
ghost use Rattle.no_faults.specs.page_ways.Frame.{frame_in};
ghost use Rattle.no_faults.specs.fileset_shapes.Shapes.{IsDomain};
ghost use Rattle.attached_domain.specs.Parts.{GetTheirBooks, GetsItsBook};

use crate::read_slot_book;
use no_faults::{
    DomainFrame, DomainTables, FilesetNo, MetaPages, OutOfMemory, SlotFiles, SlotItem,
};
use std::alloc::Global;

/// Reads the book of the original in a slot, if it has one.
fn set_book<M: MetaPages>(
    alloc: Global,
    pages: &M,
    frame: &DomainFrame,
    tables: &DomainTables,
    number: FilesetNo,
    slot: &mut Option<SlotFiles>,
) -> Result<(), OutOfMemory>
    requires { IsDomain (M.pages pages.now) (frame_in frame.now) tables.now }
    ensures { OnOk result (GetsItsBook (M.pages pages.now) tables.now.filesets number slot.old
        slot.new) }
{
    let SlotItem::Original { entry } = tables.filesets.slot(number) else {
        return Ok(());
    };
    let book = read_slot_book(alloc, pages, frame, tables, number, entry)?;
    if let Some(files) = slot {
        files.book = book;
    }
    Ok(())
}

/// Reads the books of all originals, each into its slot.
pub(crate) fn set_books<M: MetaPages>(
    alloc: Global,
    pages: &M,
    frame: &DomainFrame,
    tables: &DomainTables,
    slots: &mut Vec<Option<SlotFiles>>,
) -> Result<(), OutOfMemory>
    requires domain { IsDomain (M.pages pages.now) (frame_in frame.now) tables.now }
    requires count { length slots.old.items ≡ 32 }
    ensures { OnOk result (GetTheirBooks (M.pages pages.now) tables.now.filesets slots.old.items
        slots.new.items) }
{
    for n in 0..32_u32 {
        let Some(number) = FilesetNo::new(n) else {
            unreachable!()
        };
        set_book(alloc, pages, frame, tables, number, &mut slots[n as usize])?;
    }
    Ok(())
}
