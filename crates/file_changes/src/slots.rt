//! The files of a slot.
ghost use Rattle.std.specs.Prelude.{◌≡◌, IsSome, Some};
ghost use Rattle.domain_memory.specs.Slots.{slot_in};

use domain_memory::{FilesetNo, SlotFiles};

/// What is in a slot that is not empty.
pub(crate) fn files_in(slots: &[Option<SlotFiles>], number: FilesetNo) -> &SlotFiles
    requires { IsSome (slot_in slots.now number) }
    ensures { slot_in slots.now number ≡ Some result.now }
{
    let Some(files) = &slots[number.number() as usize] else {
        unreachable!()
    };
    files
}
