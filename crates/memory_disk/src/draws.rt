//! What a stop leaves of calls that are not synced, as a pick draws it.
ghost use Rattle.std.specs.Prelude.{◌≡◌, length};

use volume_disk::limits::OPEN_GATE;

/// What is left of one half of a block.
#[derive(Clone, Copy)]
enum Part {
    /// What the call wrote.
    Written,
    /// What was there before.
    Before,
    /// This byte, throughout.
    Filled(u8),
}

impl Part {
    /// Leaves this part of a half over which these bytes were written.
    fn leave(self, half: &mut [u8], bytes: &[u8])
        requires { length half.old ≡ length bytes.now }
        ensures { length half.new ≡ length half.old }
    {
        match self {
            Part::Written => half.copy_from_slice(bytes),
            Part::Before => {}
            Part::Filled(byte) => half.fill(byte),
        }
    }

    /// Whether all of it lasted or none of it, as this number decides. One in four numbers says
    /// each.
    fn of_whole(number: u64) -> Option<Self> {
        match number % 4 {
            0 => Some(Part::Written),
            1 => Some(Part::Before),
            _ => None,
        }
    }

    /// What this number leaves of a half of a torn block.
    fn of_half(number: u64) -> Self {
        match Part::of_whole(number) {
            Some(part) => part,
            None => Part::Filled(torn_byte(number / 4)),
        }
    }
}

/// The byte that this number leaves. One in four numbers gives the byte of an open gate, and one in
/// four that of a closed gate.
fn torn_byte(number: u64) -> u8 {
    match number % 4 {
        0 => OPEN_GATE,
        1 => 0,
        _ => (number / 4 % 256) as u8,
    }
}

/// What is left of a block.
#[derive(Clone, Copy)]
pub struct Fate {
    first: Part,
    last: Part,
}

impl Fate {
    fn whole(part: Part) -> Self {
        Fate {
            first: part,
            last: part,
        }
    }

    /// Leaves this of a block over which these bytes were written.
    pub fn leave(self, block: &mut [u8], bytes: &[u8])
        requires { length block.old ≡ length bytes.now }
        ensures { length block.new ≡ length block.old }
    {
        let half = block.len() / 2;
        self.first.leave(&mut block[..half], &bytes[..half]);
        self.last.leave(&mut block[half..], &bytes[half..]);
    }
}

/// What a pick draws for one call: whether it lasted as a whole, in each page and in each block,
/// and what the halves of a torn block hold. At pick 1 nothing lasts.
#[derive(Clone, Copy)]
pub struct Draws {
    pick: u64,
    call: u64,
}

impl Draws {
    pub fn new(pick: u64, call: u64) -> Self {
        Draws { pick, call }
    }

    /// What is left of a block of the call.
    pub fn fate(self, block: usize) -> Fate {
        if self.pick == 1 {
            return Fate::whole(Part::Before);
        }
        let block = block as u64;
        if let Some(part) = Part::of_whole(self.number(0)) {
            return Fate::whole(part);
        }
        if let Some(part) = Part::of_whole(self.number(
            (block / 16).wrapping_mul(2).wrapping_add(1),
        )) {
            return Fate::whole(part);
        }
        let drawn = self.number(block.wrapping_mul(2).wrapping_add(2));
        match Part::of_whole(drawn) {
            Some(part) => Fate::whole(part),
            None => Fate {
                first: Part::of_half(drawn >> 8),
                last: Part::of_half(drawn >> 32),
            },
        }
    }

    /// The number that the pick draws for a part of the call: 0 for the whole of it, odd numbers
    /// for its pages, and the other even ones for its blocks.
    fn number(self, part: u64) -> u64 {
        mixed(mixed(mixed(self.pick) ^ self.call) ^ part)
    }
}

/// A number whose bits each depend on all bits of the given number.
fn mixed(number: u64) -> u64 {
    let sum = number.wrapping_add(0x9e37_79b9_7f4a_7c15);
    let once = (sum ^ sum >> 30).wrapping_mul(0xbf58_476d_1ce4_e5b9);
    let twice = (once ^ once >> 27).wrapping_mul(0x94d0_49bb_1331_11eb);
    twice ^ twice >> 31
}
