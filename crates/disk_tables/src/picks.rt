//! What the picks of an image leave of calls that were not synced.

use crate::calls::{Halves, image, look};
use crate::telling::push_whether;
use disk_label::OutOfMemory;
use memory_disk::MemoryRack;
use std::alloc::Global;
use table_words::Told;

/// Halves that are full of these bytes.
fn halves(first: u8, last: u8) -> Halves {
    [Some(first), Some(last)]
}

/// How many blocks of a page of volume 1 have these halves.
fn count(rack: &mut MemoryRack, page: u32, wanted: Halves) -> usize {
    let mut found: usize = 0;
    for block in 0..16 {
        if look(rack, 1, page.saturating_mul(16).saturating_add(block)) == wanted {
            found = found.saturating_add(1);
        }
    }
    found
}

/// How many of the pages 0 to 3 are full of a byte.
fn full_pages(rack: &mut MemoryRack, byte: u8) -> usize {
    let mut found: usize = 0;
    for page in 0..4 {
        if count(rack, page, halves(byte, byte)) == 16 {
            found = found.saturating_add(1);
        }
    }
    found
}

fn is_between(part: Option<u8>, least: u8, most: u8) -> bool {
    match part {
        Some(byte) => least <= byte && byte <= most,
        None => false,
    }
}

/// Whether some half of a block of page 0 is full of a byte from one on up to another.
fn has_half(rack: &mut MemoryRack, least: u8, most: u8) -> bool {
    for block in 0..16 {
        let [first, last] = look(rack, 1, block);
        if is_between(first, least, most) || is_between(last, least, most) {
            return true;
        }
    }
    false
}

/// Of pages 0 to 3 with ones that were synced, and then twos: all of a call lasted; none of it; a
/// page of it lasted and another did not; a block lasted beside one that did not; the first half of
/// a block lasted; the last half.
fn lasting(left: &mut MemoryRack) -> [bool; 6] {
    let new = full_pages(left, 2);
    let old = full_pages(left, 1);
    let blocks = count(left, 0, halves(2, 2));
    let others = count(left, 0, halves(1, 1));
    let first = count(left, 0, halves(2, 1));
    let last = count(left, 0, halves(1, 2));
    [
        new == 4,
        old == 4,
        new > 0 && old > 0,
        blocks > 0 && others > 0,
        first > 0,
        last > 0,
    ]
}

/// A half is that of an open gate; that of a closed one; another byte; of page 4 with threes and
/// fours what was written over came back; of page 5 what a failed write of fives was to write
/// lasted; none of that.
fn shows_odd(left: &mut MemoryRack) -> [bool; 6] {
    let other = has_half(left, 3, 0xa4) || has_half(left, 0xa6, 0xff);
    let open = has_half(left, 0xa5, 0xa5);
    let closed = has_half(left, 0, 0);
    let back = count(left, 4, halves(3, 3));
    let fives = count(left, 5, halves(5, 5));
    let none = count(left, 5, halves(0, 0));
    [open, closed, other, back > 0, fives > 0, none == 16]
}

/// Adds what one pick shows to what others have shown.
fn add(found: &mut [bool; 6], seen: [bool; 6]) {
    for shape in 0..6 {
        found[shape] |= seen[shape];
    }
}

/// Tells what one of the picks 2 to 65 shows at least, after a stop right after a call.
pub fn shapes(
    rack: &MemoryRack,
    alloc: Global,
    call: u64,
    told: &mut Told,
) -> Result<(), OutOfMemory> {
    let mut found = [false; 6];
    let mut odd = [false; 6];
    for pick in 2..66 {
        let mut left = image(rack, alloc, call, pick)?;
        add(&mut found, lasting(&mut left));
        add(&mut odd, shows_odd(&mut left));
    }
    push_whether(told, &found);
    push_whether(told, &odd);
    Ok(())
}

/// Whether each of the first 16 blocks of volume 1 is full of ones.
fn lasted(left: &mut MemoryRack) -> [bool; 16] {
    let mut lasted = [false; 16];
    for block in 0..16 {
        lasted[block] = look(left, 1, block as u32) == halves(1, 1);
    }
    lasted
}

/// How many of the picks 2 to 257 after the first call leave ones in each block, and how many leave
/// them in a block and not in the one 8 further, or the other way round.
fn lasting_picks(rack: &MemoryRack, alloc: Global) -> Result<([u32; 16], [u32; 8]), OutOfMemory> {
    let mut ones = [0_u32; 16];
    let mut unlike = [0_u32; 8];
    for pick in 2..258 {
        let mut left = image(rack, alloc, 1, pick)?;
        let seen = lasted(&mut left);
        for block in 0..16 {
            ones[block] = ones[block].saturating_add(u32::from(seen[block]));
        }
        for block in 0..8 {
            unlike[block] = unlike[block].saturating_add(u32::from(seen[block] != seen[block + 8]));
        }
    }
    Ok((ones, unlike))
}

/// Tells of each of 16 blocks whether it lasts in 84 to 144 of 256 picks, and of each of the first
/// 8 whether it and the one 8 further are unlike in 12 to 60.
pub fn even(rack: &MemoryRack, alloc: Global, told: &mut Told) -> Result<(), OutOfMemory> {
    let (ones, unlike) = lasting_picks(rack, alloc)?;
    push_whether(told, &ones.map(|n| 84 <= n && n <= 144));
    push_whether(told, &unlike.map(|n| 12 <= n && n <= 60));
    Ok(())
}

/// Whether a write of ones to block 3 of a volume is torn by one of the picks 2 to 65, after a stop
/// right after a call.
pub fn is_torn(rack: &MemoryRack, alloc: Global, vol: u32, call: u64) -> Result<bool, OutOfMemory> {
    for pick in 2..66 {
        let mut left = image(rack, alloc, call, pick)?;
        let seen = look(&mut left, vol, 3);
        if seen != halves(1, 1) && seen != halves(0, 0) {
            return Ok(true);
        }
    }
    Ok(false)
}
