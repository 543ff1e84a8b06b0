//! Lines of calls: a word, and numbers after it.
ghost use Rattle.std.specs.Prelude.{◌≤◌};

use log_recovery::{Home, VolIx};
use table_words::{Told, Words};

/// Reads the numbers that are left of a line, 16 at most: how many there are.
pub fn read_numbers(words: &mut Words, numbers: &mut [u64; 16]) -> usize
    ensures { result ≤ 16 }
{
    let mut count: usize = 0;
    for place in 0..16 {
        if !words.is_at_end() {
            numbers[place] = words.long(' ');
            count = place + 1;
        }
    }
    count.min(16)
}

/// The number at a place; 0 if there are fewer.
pub fn at(numbers: &[u64], place: usize) -> u64 {
    numbers.get(place).copied().unwrap_or(0)
}

/// The number at a place, in 32 bits.
pub fn small(numbers: &[u64], place: usize) -> u32 {
    u32::try_from(at(numbers, place)).unwrap_or(u32::MAX)
}

/// The number at a place, in a byte.
pub fn byte(numbers: &[u64], place: usize) -> u8 {
    u8::try_from(at(numbers, place)).unwrap_or(u8::MAX)
}

/// A page of a volume.
pub fn home_at(vol: u32, page: u32) -> Option<Home> {
    let vol = VolIx::new(vol)?;
    Some(Home { vol, page })
}

/// A page and the byte that it is full of.
#[derive(Clone, Copy)]
pub struct Filled {
    pub vol: u32,
    pub page: u32,
    pub byte: u8,
}

/// A page and its byte, by three numbers from a place on.
pub fn filled_by(numbers: &[u64], from: usize) -> Filled {
    let from = from.min(8);
    Filled {
        vol: small(numbers, from),
        page: small(numbers, from + 1),
        byte: byte(numbers, from + 2),
    }
}

/// Says numbers, after a colon.
pub fn say_numbers(told: &mut Told, numbers: &[u64]) {
    told.push(":");
    for number in numbers {
        told.push(" ");
        told.push_number(*number);
    }
}

/// Says of each of some things whether it is so, after a colon.
pub fn say_whether(told: &mut Told, all: &[bool]) {
    told.push(":");
    for is_so in all {
        told.push(if *is_so { " yes" } else { " no" });
    }
}
