//! Racks in memory with labels and the first anchor, and what is written on them by hand.
ghost use Rattle.std.specs.Prelude.{◌≡◌};
ghost use Rattle.log_recovery.specs.volume_disk.Disk.{Tells};

use crate::counting::{CountRack, NO_CALLS};
use crate::logs::NONE;
use crate::reading::{at, byte, small};
use file_pages::MetaLog;
use log_recovery::gate::open_block;
use log_recovery::limits::{BLOCKS_PER_PAGE, LOG_PAGES, MAX_VOLUME_PAGES, PAGE_BYTES};
use log_recovery::{
    Anchor, Home, Member, Rack, Version, VolIx, is_whole, read_blocks, write_anchor, write_label,
};
use std::alloc::Global;

/// The pages of volumes 1 and 2; there is no volume 3.
pub const SIZES: [u32; 3] = [160, 80, 0];

/// The first anchor: its log begins at page 6 of volume 1, which has so many pages, with a group of
/// number 9 at this place.
fn first_anchor(start: u32, pages: u32) -> Anchor
    ensures start { result.start ≡ start }
    ensures slot { result.slot ≡ 0 }
    ensures page { result.log_page ≡ 6 }
    ensures group { result.group ≡ 9 }
{
    let first = Member { pages, state: 1 };
    let second = Member {
        pages: 80,
        state: 1,
    };
    let table = match VolIx::new(1) {
        Some(vol) => Some(Home { vol, page: 150 }),
        None => None,
    };
    Anchor {
        number: 1,
        version: 3,
        log_vol: 1,
        log_page: 6,
        log_pages: LOG_PAGES,
        start,
        group: 9,
        table,
        members: [first, second, NONE, NONE, NONE, NONE, NONE, NONE],
        slot: 0,
    }
}

fn write_first<R: Rack>(rack: &mut R, anchor: &Anchor) -> bool
    requires { ¬ Tells (R.disk rack.old) }
{
    let Some(vol) = VolIx::new(anchor.log_vol) else {
        return false;
    };
    vol.number() <= rack.volumes()
        && rack.pages(vol) >= 2
        && is_whole(anchor)
        && write_anchor(rack, anchor).is_ok()
}

fn write_labels<R: Rack>(rack: &mut R) {
    for number in 1..4 {
        let Some(vol) = VolIx::new(number) else {
            return;
        };
        let pages = rack.pages(vol);
        if vol.number() <= rack.volumes() && 1 <= pages && pages <= MAX_VOLUME_PAGES {
            let _ = write_label(rack, vol, pages, Version::Three);
        }
    }
}

/// A rack with labels and the first anchor, on volumes of these sizes, of which each page in memory
/// holds `fold`, and on which these calls fail; and its log. The first two volumes are members,
/// with 80 pages of the second.
pub fn started(
    alloc: Global,
    sizes: &[u32; 3],
    fold: u32,
    start: u32,
    fails: &[u64],
) -> Option<(CountRack, MetaLog)> {
    let anchor = first_anchor(start % LOG_PAGES, sizes[0]);
    let log = MetaLog::new(alloc, &anchor).ok()?;
    let mut rack = CountRack::new(alloc, sizes, fold, fails)?;
    write_labels(&mut rack);
    let _ = write_first(&mut rack, &anchor);
    rack.counts = NO_CALLS;
    Some((rack, log))
}

// Writing by hand.

/// Puts bytes into others from a place on, as far as they reach.
fn lay(bytes: &mut [u8], first: usize, value: &[u8]) {
    for (k, byte) in value.iter().enumerate() {
        let place = first.saturating_add(k);
        if place < bytes.len() {
            bytes[place] = *byte;
        }
    }
}

/// Writes a page of a volume, if the rack has it.
fn write_page(rack: &mut CountRack, vol: u32, page: u32, bytes: &[u8; PAGE_BYTES]) {
    let Some(vol) = VolIx::new(vol) else {
        return;
    };
    if vol.number() <= rack.volumes() && page < rack.pages(vol) && page < 1_000 {
        let _ = rack.write(vol, BLOCKS_PER_PAGE * page, bytes);
    }
}

/// Writes a page of a volume and syncs that, if the rack has it.
fn put_page(rack: &mut CountRack, vol: u32, page: u32, bytes: &[u8; PAGE_BYTES]) {
    write_page(rack, vol, page, bytes);
    let Some(vol) = VolIx::new(vol) else {
        return;
    };
    if vol.number() <= rack.volumes() {
        let _ = rack.sync(vol);
    }
}

/// The page at a place of the log, which is on volume 1 from page 6 on.
fn ring_page(place: u32) -> u32 {
    6 + place % LOG_PAGES
}

/// Closes the gate of a place of the log.
pub fn put_closed(rack: &mut CountRack, place: u32) {
    put_page(rack, 1, ring_page(place), &[0; PAGE_BYTES]);
}

/// Writes the header of a group with an open gate at a place, byte by byte: its number, and the
/// volumes and pages of its images by turns.
fn put_header(rack: &mut CountRack, place: u32, number: u64, homes: &[u64]) {
    let mut bytes = [0; PAGE_BYTES];
    lay(&mut bytes, 0, &open_block());
    lay(&mut bytes, 512, &number.to_le_bytes());
    lay(&mut bytes, 520, &[(homes.len() / 2).min(255) as u8]);
    for k in 0..homes.len() {
        let first = k.saturating_mul(4).saturating_add(528);
        lay(&mut bytes, first, &small(homes, k).to_le_bytes());
    }
    put_page(rack, 1, ring_page(place), &bytes);
}

/// Writes a header alone at a place: its number, and how many homes on volume 2 it has, 61 at most.
pub fn put_header_of(rack: &mut CountRack, numbers: &[u64]) {
    let mut homes = [2; 122];
    for k in 0..61 {
        homes[2 * k + 1] = 10 + k as u64;
    }
    let count = at(numbers, 2).min(61) as usize;
    put_header(rack, small(numbers, 0), at(numbers, 1), &homes[..2 * count]);
}

/// Writes a group by hand: its place, its number, the byte that its first image is full of, and the
/// volumes and pages of its images by turns. Each further image is full of the next byte.
pub fn put_group(rack: &mut CountRack, numbers: &[u64]) {
    let homes = &numbers[numbers.len().min(3)..];
    let (place, first) = (small(numbers, 0), byte(numbers, 2));
    for k in 0..homes.len() / 2 {
        let next = place.saturating_add(1).saturating_add(k.min(60) as u32);
        let bytes = [first.saturating_add(k.min(60) as u8); PAGE_BYTES];
        write_page(rack, 1, ring_page(next), &bytes);
    }
    put_header(rack, place, at(numbers, 1), homes);
}

/// Puts bytes into a page of a volume, from a place of that on.
fn put_bytes(rack: &mut CountRack, place: (u32, u32), first: usize, value: &[u8]) {
    let mut bytes = [0; PAGE_BYTES];
    if let Some(vol) = VolIx::new(place.0) {
        let page = place.1;
        if vol.number() <= rack.volumes() && page < rack.pages(vol) && page < 1_000 {
            let _ = read_blocks(rack, vol, BLOCKS_PER_PAGE * page, &mut bytes);
        }
    }
    lay(&mut bytes, first, value);
    put_page(rack, place.0, place.1, &bytes);
}

/// Puts bytes into a page by hand: its volume, its number, the place of the first byte, and the
/// bytes.
pub fn put_bytes_of(rack: &mut CountRack, numbers: &[u64]) {
    let mut value = [0; 16];
    let count = numbers.len().saturating_sub(3).min(16);
    for k in 0..16 {
        value[k] = byte(numbers, 3 + k);
    }
    let place = (small(numbers, 0), small(numbers, 1));
    put_bytes(rack, place, small(numbers, 2) as usize, &value[..count]);
}

/// Writes the label of volume 2 for so many pages, of version 3, and says the same in the anchor.
pub fn put_label(rack: &mut CountRack, pages: u32) {
    let mut label = [0; PAGE_BYTES];
    lay(&mut label, 0, b"ADVFSLAB");
    lay(&mut label, 8, &[3, 0, 0, 0, 2, 0, 0, 0]);
    lay(&mut label, 16, &pages.to_le_bytes());
    lay(&mut label, 20, &[1]);
    put_page(rack, 2, 0, &label);
    put_bytes(rack, (1, 1), 568, &pages.to_le_bytes());
}
