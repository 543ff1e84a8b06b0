//! Laws of memory that is read from pages without a fault.
ghost use Rattle.std.specs.Prelude.{◌≡◌, ℕ, List, [], Option, None, IfSome, slice_get};
ghost use Rattle.no_faults.specs.page_store.Pages.{Pages};
ghost use Rattle.no_faults.specs.fileset_model.Filesets.{FilesetMap};
ghost use Rattle.no_faults.specs.fileset_table.Table.{IsTable, Table};
ghost use Rattle.no_faults.specs.staged_pages.Store.{before_of};
ghost use Rattle.no_faults.specs.domain_layout.Filled.{AreFilled};
ghost use Rattle.no_faults.specs.domain_layout.Layout.{IsLayout, Layout};
ghost use Rattle.no_faults.specs.domain_layout.Read.{contents_of};
ghost use Rattle.no_faults.specs.domain_layout.Shape.{AreShapesOf, Shapes};
ghost use Rattle.no_faults.specs.domain_standing.Standing.{AreBooksOf};
ghost use Rattle.no_faults.specs.domain_memory.Memory.{StandsFor, books_in, kept_in};
ghost use Rattle.no_faults.specs.domain_memory.Staged.{IsSettled, MayGoBack};
ghost use Rattle.no_faults.specs.domain_memory.declared.memory.DomainMemory.{DomainMemory};
ghost use Rattle.no_faults.specs.domain_memory.Slots.{HasNumber, places_in, slot_in};
ghost use Rattle.no_faults.specs.domain_memory.declared.slots.SlotFiles.{SlotFiles};
ghost use Rattle.attached_domain.specs.Read.{IsReadMemory, IsSettledSlot, MayBeAttached};
ghost use Rattle.attached_domain.specs.Slots.{AreReadSlots};

/// Memory that has what pages without a fault say, with the books of their filesets, stands for
/// these filesets. No change is laid over it, and a change may be taken back.
pub fn read_memory_stands_for()
    ensures stands { (memory : DomainMemory) (layout : Layout) (shapes : Shapes) (all : FilesetMap)
        → IsReadMemory memory layout → MayBeAttached (before_of memory.pages) layout
        → AreShapesOf (before_of memory.pages) layout.table shapes
        → AreFilled (contents_of (before_of memory.pages)) shapes all
        → AreBooksOf (books_in memory) (kept_in memory) all → StandsFor memory all }
    ensures settled { (memory : DomainMemory) (layout : Layout) → IsReadMemory memory layout
        → MayBeAttached (before_of memory.pages) layout → IsSettled memory }
    ensures back { (memory : DomainMemory) (layout : Layout) → IsReadMemory memory layout
        → MayBeAttached (before_of memory.pages) layout → MayGoBack memory }
{}

/// What is read for the slots of a table has the pages of the tag directories that a layout with
/// this table has, and the slots' numbers. Nothing in it waits to be kept.
pub fn read_slots_have_their_pages()
    ensures pages { (pages : Pages) (layout : Layout) (slots : List (Option SlotFiles))
        → IsLayout pages layout → IsTable layout.table → AreReadSlots pages layout.table slots
        → ((number : ℕ) → slice_get layout.table.slots number ≡ None → layout.tags number ≡ [])
        → (number : ℕ) → places_in (slot_in slots number) ≡ layout.tags number }
    ensures settled { (pages : Pages) (table : Table) (slots : List (Option SlotFiles))
        → AreReadSlots pages table slots
        → (number : ℕ) → IfSome (slot_in slots number) IsSettledSlot }
    ensures numbered { (pages : Pages) (table : Table) (slots : List (Option SlotFiles))
        → AreReadSlots pages table slots
        → (number : ℕ) → IfSome (slot_in slots number) (HasNumber number) }
{}
