//! The slots of the fileset table by their numbers.
ghost use Rattle.std.specs.Prelude.{◌≡◌, ◌<◌, length};

use cell_faults::{FilesetNo, FilesetTable};

/// The slot of that number.
pub fn slot_number(number: u32) -> FilesetNo
    requires { number < 32 }
    ensures { result ≡ number }
{
    let Some(slot) = FilesetNo::new(number) else {
        unreachable!()
    };
    slot
}

/// How many slots the table has.
pub fn count_slots(table: &FilesetTable) -> u32
    ensures value { result ≡ 32 }
    ensures whole { length table.now.slots ≡ 32 }
{
    let _first = table.slot(slot_number(0));
    32
}
