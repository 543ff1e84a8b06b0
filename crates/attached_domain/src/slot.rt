//! The book of the original in a slot.
ghost use Rattle.std.specs.Prelude.{◌≡◌, IfOk, Some, slice_get};
ghost use Rattle.no_faults.specs.fileset_table.declared.slot.SlotItem.TheVariants as slots;
ghost use Rattle.no_faults.specs.page_ways.Frame.{frame_in};
ghost use Rattle.no_faults.specs.fileset_shapes.Shapes.{IsDomain};
ghost use Rattle.attached_domain.specs.Books.{IsBookOfSlot};

use crate::book::read_book;
use no_faults::{
    DomainFrame, DomainTables, FilesetEntry, FilesetNo, MetaPages, OutOfMemory, QuotaBook,
    read_slot,
};
use std::alloc::Global;

/// The quota book of the original in a slot, read from the pages of a domain without a fault. The
/// book is kept. Fails only if memory runs out, or if a sum is 2^64 or more, for which no domain
/// has the pages.
pub fn read_slot_book<M: MetaPages>(
    alloc: Global,
    pages: &M,
    domain: &DomainFrame,
    tables: &DomainTables,
    number: FilesetNo,
    entry: &FilesetEntry,
) -> Result<QuotaBook, OutOfMemory>
    requires domain { IsDomain (M.pages pages.now) (frame_in domain.now) tables.now }
    requires original { slice_get tables.now.filesets.slots number
        ≡ Some (slots.Original entry.now) }
    ensures book { IfOk result (λ books. IsBookOfSlot (M.pages pages.now) number entry.now
        books.book) }
    ensures kept { IfOk result (λ books. books.kept ≡ books.book) }
{
    let Some(found) = read_slot(alloc, pages, domain, tables, number)? else {
        unreachable!()
    };
    read_book(alloc, entry, &found)
}
