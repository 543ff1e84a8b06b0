//! Lending the files of a fileset, and handing them back.
ghost use Rattle.std.specs.Prelude.{◌≡◌, ◌<◌, ℕ, Some, length, slice_get, true};
ghost use Rattle.domain_memory.specs.domain_layout.CellRules.{of_original};
ghost use Rattle.domain_memory.specs.Staged.{IsStagedForSome, MayGoBack};
ghost use Rattle.domain_memory.specs.Slots.{slot_in};
ghost use Rattle.fileset_lending.specs.Chosen.{Lends};

use crate::rest::MemoryRest;
use crate::{CallSettings, StoredBitfiles, StoredParts};
use domain_memory::{DomainMemory, FilesetNo, SlotFiles, StagedPages};

/// The files of a fileset, chosen for calls on a set of files and directories.
#[derive(Drop)]
pub struct Chosen {
    /// The set. What calls take away is listed after what the change had left already.
    pub set: StoredBitfiles<StagedPages>,
    pub(crate) rest: MemoryRest,
}

/// Takes what is in a slot out of it.
fn take_slot(slots: &mut Vec<Option<SlotFiles>>, number: FilesetNo) -> Option<SlotFiles>
    requires { number < length slots.old.items }
    ensures was { result ≡ slot_in slots.old.items number }
    ensures others { (n : ℕ) → ¬ n ≡ number
        → slot_in slots.new.items n ≡ slot_in slots.old.items n }
    ensures count { length slots.new.items ≡ length slots.old.items }
{
    slots[number.number() as usize].take()
}

/// Puts this into a slot.
fn put_slot(slots: &mut Vec<Option<SlotFiles>>, number: FilesetNo, files: SlotFiles)
    requires { number < length slots.old.items }
    ensures is { slot_in slots.new.items number ≡ Some files }
    ensures others { (n : ℕ) → ¬ n ≡ number
        → slot_in slots.new.items n ≡ slot_in slots.old.items n }
    ensures count { length slots.new.items ≡ length slots.old.items }
{
    slots[number.number() as usize] = Some(files);
}

/// Lends the files of the original in a slot, with all that calls on them need. The calls get these
/// settings. It takes no memory.
pub fn choose(memory: DomainMemory, number: FilesetNo, settings: CallSettings) -> Chosen
    requires stands { ∥ IsStagedForSome memory ∥₁ }
    requires back { ∥ MayGoBack memory ∥₁ }
    requires original { of_original (slice_get memory.table.slots number) ≡ true }
    ensures { Lends memory number settings result }
{
    let DomainMemory {
        frame,
        pages,
        space,
        cells,
        table,
        list,
        slots,
        was,
        listed,
    } = memory;
    let mut slots = slots;
    let Some(
        SlotFiles {
            files,
            book,
            tag_pages,
        },
    ) = take_slot(&mut slots, number)
    else {
        unreachable!()
    };
    let parts = StoredParts {
        pages,
        space,
        cells,
        files,
        removed: listed,
    };
    let set = StoredBitfiles::new(parts, settings);
    let rest = MemoryRest {
        frame,
        table,
        list,
        slots,
        was,
        number,
        book,
        tag_pages,
    };
    Chosen { set, rest }
}

impl Chosen {
    /// Hands everything back, as calls have left it.
    pub fn back(self) -> DomainMemory
        ensures { Lends result self.rest.number self.set.settings self }
    {
        let Chosen { set, rest } = self;
        let MemoryRest {
            frame,
            table,
            list,
            slots,
            was,
            number,
            book,
            tag_pages,
            ..
        } = rest;
        let StoredParts {
            pages,
            space,
            cells,
            files,
            removed,
        } = set.into_parts();
        let mut slots = slots;
        let lent = SlotFiles {
            files,
            book,
            tag_pages,
        };
        put_slot(&mut slots, number, lent);
        DomainMemory {
            frame,
            pages,
            space,
            cells,
            table,
            list,
            slots,
            was,
            listed: removed,
        }
    }
}
