//! What is in the slots of the fileset table.
ghost use Rattle.std.specs.Prelude.{◌≡◌, ℕ, None, IfOk, IfSome, length, replicate};
ghost use Rattle.domain_memory.specs.Slots.{CanGoBack, ChangesSlot, ChangesSlots, IsKept, IsTakenBack, slot_in};

use standing_laws::limits::FILESET_SLOTS;
use standing_laws::{Bitfiles, OutOfMemory, QuotaBook};
use std::alloc::Global;

/// What is in a slot of the fileset table, except for a clone.
#[derive(Drop)]
pub struct SlotFiles {
    /// The fileset's number and its tag directory.
    pub files: Bitfiles,
    /// What owners use of the fileset, and their limits.
    pub book: QuotaBook,
    /// How many pages the tag directory had when that was last kept.
    pub tag_pages: usize,
}

impl SlotFiles {
    /// Keeps all as it is. It takes no memory.
    fn keep(&mut self)
        ensures { IsKept self.old self.new }
    {
        self.book.keep();
        self.tag_pages = self.files.tag_places().len();
    }

    /// Puts everything back as it was when it was last kept. Pages that the tag directory got since
    /// then no longer belong to it. It takes no memory.
    fn take_back(&mut self)
        requires { CanGoBack self.old }
        ensures { IsTakenBack self.old self.new }
    {
        self.book.take_back();
        for _ in self.tag_pages..self.files.tag_places().len() {
            self.files.forget_tag_page();
        }
    }
}

/// The 32 slots of a table, with nothing in them. Fails only if memory runs out.
pub fn free_slots(alloc: Global) -> Result<Vec<Option<SlotFiles>>, OutOfMemory>
    ensures { IfOk result (λ slots. slots.items ≡ replicate 32 None) }
{
    let mut slots = Vec::with_capacity(alloc, FILESET_SLOTS as usize)?;
    for _ in 0..FILESET_SLOTS {
        slots.push(None)?;
    }
    Ok(slots)
}

/// Keeps what is in a slot as it is.
fn keep_slot(slot: &mut Option<SlotFiles>)
    ensures { ChangesSlot IsKept slot.old slot.new }
{
    if let Some(files) = slot {
        files.keep();
    }
}

/// Keeps what is in each slot as it is. It takes no memory, and the time of what has changed.
pub fn keep_slots(slots: &mut Vec<Option<SlotFiles>>)
    ensures { ChangesSlots IsKept slots.old.items slots.new.items }
{
    for slot in slots.iter_mut() {
        keep_slot(slot);
    }
}

/// Puts what is in a slot back as it was when it was last kept.
fn take_back_slot(slot: &mut Option<SlotFiles>)
    requires { IfSome slot.old CanGoBack }
    ensures { ChangesSlot IsTakenBack slot.old slot.new }
{
    if let Some(files) = slot {
        files.take_back();
    }
}

/// Puts what is in each slot back as it was when it was last kept. It takes no memory, and the time
/// of what has changed.
pub fn take_back_slots(slots: &mut Vec<Option<SlotFiles>>)
    requires { (number : ℕ) → IfSome (slot_in slots.old.items number) CanGoBack }
    ensures { ChangesSlots IsTakenBack slots.old.items slots.new.items }
{
    for slot in slots.iter_mut() {
        take_back_slot(slot);
    }
}
