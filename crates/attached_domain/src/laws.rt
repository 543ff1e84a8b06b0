//! A law of the books of all slots, as the contract of a function without a body.
ghost use Rattle.std.specs.Prelude.{◌≡◌, ℕ, Some, IsSomeAnd, slice_get};
ghost use Rattle.std.specs.FinMap.{get};
ghost use Rattle.no_faults.specs.page_store.Pages.{Pages};
ghost use Rattle.no_faults.specs.fileset_model.Filesets.{FilesetMap};
ghost use Rattle.no_faults.specs.fileset_table.Table.{Table};
ghost use Rattle.no_faults.specs.fileset_table.declared.slot.FilesetEntry.{FilesetEntry};
ghost use Rattle.no_faults.specs.fileset_table.declared.slot.SlotItem.TheVariants as slots;
ghost use Rattle.no_faults.specs.quota_book.Book.{Book};
ghost use Rattle.no_faults.specs.quota_book.Sums.{IsBookOf};
ghost use Rattle.no_faults.specs.domain_layout.Filled.{AreFilled, Contents};
ghost use Rattle.no_faults.specs.domain_layout.Shape.{AreShapesOf, Shapes};
ghost use Rattle.attached_domain.specs.Books.{IsBookOfSlot};

/// If each slot's book is that of any fileset to which the slot's pages are filled, then the books
/// are those of the filesets of a domain with these pages.
pub fn books_are_of_the_filesets()
    ensures { (pages : Pages) (table : Table) (shapes : Shapes) (contents : Contents)
        (all : FilesetMap) (books : ℕ → Book) → AreShapesOf pages table shapes
        → AreFilled contents shapes all
        → ((number : ℕ) (entry : FilesetEntry)
        → slice_get table.slots number ≡ Some (slots.Original entry)
        → IsBookOfSlot pages number entry (books number))
        → (number : ℕ) (entry : FilesetEntry)
        → slice_get table.slots number ≡ Some (slots.Original entry)
        → IsSomeAnd (get all entry.name) (λ fileset. IsBookOf (books number) fileset.tree) }
{}
