//! The book of an original.
ghost use Rattle.std.specs.Prelude.{◌≡◌, None, IfOk};
ghost use Rattle.no_faults.specs.page_store.Pages.{Pages};
ghost use Rattle.no_faults.specs.fileset_model.declared.fileset.FilesetSlot.{FilesetSlot};
ghost use Rattle.no_faults.specs.quota_book.Sums.{IsBookOf};
ghost use Rattle.no_faults.specs.domain_layout.Filled.{Contents, Fills};
ghost use Rattle.no_faults.specs.domain_layout.Shape.{FilesetShape};
ghost use Rattle.no_faults.specs.fileset_shapes.Found.{SeesShape};

use crate::charges::charge_files;
use crate::limits::limits_alone;
use no_faults::{FilesetEntry, FilesetSeen, OutOfMemory, QuotaBook};
use std::alloc::Global;

/// The quota book of the original in a slot, from what was read of it: what the user, the group and
/// the fileset use by its files and directories except the root, and the limits that its quota
/// cells and its slot say. The book is kept. Fails only if memory runs out, or if a sum is 2^64 or
/// more, for which no domain has the pages.
pub fn read_book(
    alloc: Global,
    entry: &FilesetEntry,
    found: &FilesetSeen,
) -> Result<QuotaBook, OutOfMemory>
    requires { (pages : Pages) × (shape : FilesetShape)
        × SeesShape pages entry.now shape found.now }
    ensures book { IfOk result (λ books. (pages : Pages) (shape : FilesetShape)
        (contents : Contents) (slot : FilesetSlot) → SeesShape pages entry.now shape found.now
        → shape.original ≡ None → Fills contents shape slot → IsBookOf books.book slot.tree) }
    ensures kept { IfOk result (λ books. books.kept ≡ books.book) }
{
    let mut book = limits_alone(alloc, entry, found.quotas.as_slice())?;
    charge_files(&mut book, found.files.as_slice())?;
    book.keep();
    Ok(book)
}
