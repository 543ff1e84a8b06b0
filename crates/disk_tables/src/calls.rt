//! Calls of a rack by plain numbers, whose answers are plain values.
ghost use Rattle.std.specs.Prelude.{◌≡◌, true};
ghost use Rattle.disk_label.specs.volume_disk.Disk.{AreBlocks};

use crate::telling::{push_number, push_numbers, push_whether};
use disk_label::{OutOfMemory, Rack, VolIx};
use memory_disk::MemoryRack;
use std::alloc::Global;
use table_words::{Told, Words};

/// The bytes that both halves of a block are full of, None for one that is full of none.
pub type Halves = [Option<u8>; 2];

fn is_there<R: Rack>(rack: &R, vol: VolIx, block: u32, size: usize) -> bool
    ensures { result ≡ true → AreBlocks (R.disk rack.now) vol block size }
{
    let end = 512_u64
        .saturating_mul(block as u64)
        .saturating_add(size as u64);
    vol.number() <= rack.volumes()
        && size % 512 == 0
        && size > 0
        && end <= 8_192 * rack.pages(vol) as u64
}

/// Puts bytes on a volume; false if that fails, or no such blocks are there.
fn put<R: Rack>(rack: &mut R, vol: u32, block: u32, bytes: &[u8]) -> bool {
    let Some(vol) = VolIx::new(vol) else {
        return false;
    };
    is_there(rack, vol, block, bytes.len()) && rack.write(vol, block, bytes).is_ok()
}

/// Syncs a volume; false if that fails, or it is not there.
fn sync<R: Rack>(rack: &mut R, vol: u32) -> bool {
    let Some(vol) = VolIx::new(vol) else {
        return false;
    };
    vol.number() <= rack.volumes() && rack.sync(vol).is_ok()
}

/// Reads a block; false if that fails, or no such block is there.
pub fn get<R: Rack>(rack: &mut R, vol: u32, block: u32, out: &mut [u8; 512]) -> bool {
    let Some(vol) = VolIx::new(vol) else {
        return false;
    };
    is_there(rack, vol, block, out.len()) && rack.read(vol, block, out).is_ok()
}

/// Fills a block, a page or four pages of a volume with a byte, beginning at a block.
fn fill<R: Rack>(rack: &mut R, vol: u32, block: u32, count: u64, byte: u8) -> bool {
    match count {
        1 => put(rack, vol, block, &[byte; 512]),
        16 => put(rack, vol, block, &[byte; 8_192]),
        64 => put(rack, vol, block, &[byte; 32_768]),
        _ => false,
    }
}

/// The byte that the half of a block from `from` on is full of.
fn half(block: &[u8; 512], from: usize) -> Option<u8> {
    if from > 256 {
        return None;
    }
    let byte = block[from];
    for k in from..from + 256 {
        if block[k] != byte {
            return None;
        }
    }
    Some(byte)
}

/// What the halves of a block are full of; nothing if it cannot be read.
pub fn look<R: Rack>(rack: &mut R, vol: u32, block: u32) -> Halves {
    let mut out = [0; 512];
    if !get(rack, vol, block, &mut out) {
        return [None; 2];
    }
    [half(&out, 0), half(&out, 256)]
}

/// The rack after a stop; one without a volume if the rack does not tell that moment.
pub fn image(
    rack: &MemoryRack,
    alloc: Global,
    call: u64,
    pick: u64,
) -> Result<MemoryRack, OutOfMemory> {
    if !rack.keeps_calls() || call > rack.calls() {
        return MemoryRack::new(alloc, &[], &[], false);
    }
    rack.image(alloc, call, pick)
}

/// Tells the byte that a half is full of, or that it is full of none.
pub fn push_half(told: &mut Told, byte: Option<u8>) {
    match byte {
        Some(byte) => push_number(told, u64::from(byte)),
        None => told.push(" none"),
    }
}

fn push_halves(told: &mut Told, seen: &Halves) {
    told.push(":");
    push_half(told, seen[0]);
    push_half(told, seen[1]);
}

/// The clock and, of a volume, the pages and the counts of faults: reads and writes.
fn counts<R: Rack>(rack: &R, vol: u32) -> [u64; 4] {
    let Some(vol) = VolIx::new(vol) else {
        return [rack.calls(), 0, 0, 0];
    };
    [
        rack.calls(),
        u64::from(rack.pages(vol)),
        rack.read_faults(vol),
        rack.write_faults(vol),
    ]
}

/// Tells bytes of a block: the volume, the block, the first one's place and how many they are.
fn push_bytes<R: Rack>(rack: &mut R, words: &mut Words, told: &mut Told) {
    let mut block = [0; 512];
    let (vol, number) = (words.number_if_any(' '), words.number_if_any(' '));
    words.check(get(rack, vol, number, &mut block));
    let (first, count) = (
        words.number_if_any(' ') as usize,
        words.number_if_any(' ') as usize,
    );
    told.push(":");
    for byte in block.iter().skip(first).take(count) {
        push_number(told, u64::from(*byte));
    }
}

/// Fills blocks as numbers say: the volume, the block, how many blocks, and the byte.
fn is_filled<R: Rack>(rack: &mut R, words: &mut Words) -> bool {
    let (vol, block) = (words.number_if_any(' '), words.number_if_any(' '));
    let count = words.long_if_any(' ');
    fill(rack, vol, block, count, words.byte_if_any(' '))
}

/// Reads a block as numbers say: the volume and the block.
fn is_read<R: Rack>(rack: &mut R, words: &mut Words) -> bool {
    let (vol, block) = (words.number_if_any(' '), words.number_if_any(' '));
    get(rack, vol, block, &mut [0; 512])
}

/// What the halves of a block are full of that numbers say: the volume and the block.
fn look_by<R: Rack>(rack: &mut R, words: &mut Words) -> Halves {
    let (vol, block) = (words.number_if_any(' '), words.number_if_any(' '));
    look(rack, vol, block)
}

/// Whether blocks are full of a byte, as numbers say: the volume, the first block, how many blocks,
/// and the byte.
fn are_full<R: Rack>(rack: &mut R, words: &mut Words) -> bool {
    let (vol, first) = (words.number_if_any(' '), words.number_if_any(' '));
    let (count, byte) = (words.number_if_any(' '), words.byte_if_any(' '));
    for block in first..first.saturating_add(count) {
        if look(rack, vol, block) != [Some(byte), Some(byte)] {
            return false;
        }
    }
    true
}

/// Makes a call, and tells whether it passed or what it told.
pub fn make_call<R: Rack>(rack: &mut R, word: &str, words: &mut Words, told: &mut Told) {
    match word {
        "put" => push_whether(told, &[is_filled(rack, words)]),
        "sync" => push_whether(told, &[sync(rack, words.number_if_any(' '))]),
        "get" => push_whether(told, &[is_read(rack, words)]),
        "full" => push_whether(told, &[are_full(rack, words)]),
        "look" => push_halves(told, &look_by(rack, words)),
        "counts" => push_numbers(told, &counts(rack, words.number_if_any(' '))),
        "bytes" => push_bytes(rack, words, told),
        _ => words.check(false),
    }
}

/// Makes the call of a line, and tells whether it passed or what it told.
pub fn tell_call<R: Rack>(rack: &mut R, line: &str, told: &mut Told) {
    let mut words = Words::new(line);
    let word = words.until(' ');
    make_call(rack, word, &mut words, told);
    told.check(words.is_right());
}
