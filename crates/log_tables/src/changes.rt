//! Changes and headers: what they hold, and what is made of them.

use crate::reading::{at, byte, home_at, say_numbers, say_whether, small};
use log_recovery::limits::{BLOCK_BYTES, PAGE_BYTES};
use log_recovery::{
    Change, HeaderRead, Home, MemoryPages, MetaPages, Page, VolIx, read_header, write_header,
};
use std::alloc::Global;
use table_words::Told;

/// A page that is full of a byte.
pub fn full_page(alloc: Global, byte: u8) -> Option<Page> {
    let mut page = Page::zeros(alloc).ok()?;
    page.set(0, &[byte; PAGE_BYTES]);
    Some(page)
}

/// Puts a page full of a byte, if the change has room for it: whether memory sufficed.
fn put(change: &mut Change, alloc: Global, home: &Home, byte: u8) -> bool {
    if change.len() >= 32 {
        return true;
    }
    match full_page(alloc, byte) {
        Some(page) => {
            change.put(*home, page);
            true
        }
        None => false,
    }
}

/// Puts pages of a volume, pages and bytes by turns: whether memory sufficed.
fn put_all(change: &mut Change, alloc: Global, vol: VolIx, pairs: &[u64]) -> bool {
    let mut all = true;
    for pair in 0..pairs.len() / 2 {
        let page = small(pairs, 2 * pair);
        all = put(
            change,
            alloc,
            &Home { vol, page },
            byte(pairs, 2 * pair + 1),
        ) && all;
    }
    all
}

/// A change that puts pages of a volume that are full of a byte: pages and bytes by turns. None if
/// memory ran out, or there is no such volume.
pub fn change_of(alloc: Global, vol: u32, pairs: &[u64]) -> Option<Change> {
    let vol = VolIx::new(vol)?;
    match Change::new(alloc) {
        Ok(mut change) => {
            let is_put = put_all(&mut change, alloc, vol, pairs);
            if is_put { Some(change) } else { None }
        }
        Err(_) => None,
    }
}

fn first_byte(page: Option<&Page>) -> u64 {
    match page {
        Some(page) => u64::from(page.bytes()[0]),
        None => 255,
    }
}

/// The first byte that a change puts at a page of volume 2, 255 if it puts none.
fn byte_of(change: &Change, page: u32) -> u64 {
    match home_at(2, page) {
        Some(home) => first_byte(change.get(home)),
        None => 255,
    }
}

/// The first byte that pages hold at a page of volume 2, 255 if they have none.
fn stored_byte(pages: &MemoryPages, page: u32) -> u64 {
    match home_at(2, page) {
        Some(home) => first_byte(pages.get(home)),
        None => 255,
    }
}

/// Says of a change whether it is empty, how many pages it puts and how many images it has, and the
/// first bytes of the pages 10 to 13.
pub fn say_change(alloc: Global, numbers: &[u64], told: &mut Told) {
    match change_of(alloc, 2, numbers) {
        Some(change) => {
            say_whether(told, &[change.is_empty()]);
            say_numbers(told, &[change.len() as u64, change.images().len() as u64]);
            let (first, second) = (byte_of(&change, 10), byte_of(&change, 11));
            let (third, fourth) = (byte_of(&change, 12), byte_of(&change, 13));
            say_numbers(told, &[first, second, third, fourth]);
        }
        None => told.check(false),
    }
}

/// Installs a change over pages, if there is room: whether there was.
fn install(change: Change, pages: &mut MemoryPages) -> bool {
    if pages.spare() < change.len() {
        return false;
    }
    change.install(pages);
    true
}

/// Installs a change of pages of volume 2 over pages, which are given room for so many more before
/// that: whether there was room.
pub fn lay_over(alloc: Global, pages: &mut MemoryPages, room: u64, pairs: &[u64]) -> bool {
    let room = usize::try_from(room).unwrap_or(0);
    if pages.reserve(alloc, room).is_err() {
        return false;
    }
    match change_of(alloc, 2, pairs) {
        Some(change) => install(change, pages),
        None => false,
    }
}

/// Installs a change over pages, with room for so many more: it says whether there was room, and
/// the first bytes of the pages 10 to 13.
pub fn say_laid(alloc: Global, pages: &mut MemoryPages, numbers: &[u64], told: &mut Told) {
    let pairs = &numbers[numbers.len().min(1)..];
    let is_laid = lay_over(alloc, pages, at(numbers, 0), pairs);
    say_whether(told, &[is_laid]);
    let (first, second) = (stored_byte(pages, 10), stored_byte(pages, 11));
    let (third, fourth) = (stored_byte(pages, 12), stored_byte(pages, 13));
    say_numbers(told, &[first, second, third, fourth]);
}

// Headers.

/// The page of a group of number 7 with two images, byte by byte: the gate's first byte, the rest,
/// and then other bytes, each by its place and the byte. None if memory ran out.
fn spelled(alloc: Global, gate: u8, numbers: &[u64]) -> Option<Page> {
    let mut page = Page::zeros(alloc).ok()?;
    page.set(0, &[gate]);
    page.set(512, &[7, 0, 0, 0, 0, 0, 0, 0, 2, 0, 0, 0]);
    page.set(528, &[2, 0, 0, 0, 4, 1, 0, 0, 2, 0, 0, 0, 5, 0, 0, 0]);
    for pair in 0..numbers.len() / 2 {
        let place = small(numbers, 2 * pair) as usize;
        if place < PAGE_BYTES {
            page.set(place, &[byte(numbers, 2 * pair + 1)]);
        }
    }
    Some(page)
}

/// Says what is read of a header: its gate is closed, it has a group of a number and two homes on
/// these pages, or it is none.
fn say_read(read: &HeaderRead, told: &mut Told) {
    match read {
        HeaderRead::Closed => told.push(": closed"),
        HeaderRead::Bad => told.push(": bad"),
        HeaderRead::Group(header) => match header.homes.as_slice() {
            [first, second] => {
                let (first, second) = (u64::from(first.page), u64::from(second.page));
                say_numbers(told, &[header.number, first, second]);
            }
            _ => told.push(": other homes"),
        },
    }
}

/// Says what is read of a page that is spelled with these bytes, after its gate's first byte.
pub fn say_header(alloc: Global, numbers: &[u64], told: &mut Told) {
    let rest = &numbers[numbers.len().min(1)..];
    match spelled(alloc, byte(numbers, 0), rest) {
        Some(page) => match read_header(alloc, &page) {
            Ok(read) => say_read(&read, told),
            Err(_) => told.check(false),
        },
        None => told.check(false),
    }
}

/// Writes the header of a page into another one: whether there is one.
fn write_read(alloc: Global, from: &Page, to: &mut Page) -> bool {
    match read_header(alloc, from) {
        Ok(HeaderRead::Group(header)) => {
            write_header(&header, to);
            true
        }
        _ => false,
    }
}

/// Whether a page has a byte in each place of its gate.
fn has_gate(page: &Page, gate: u8) -> bool {
    page.bytes()
        .iter()
        .take(BLOCK_BYTES)
        .all(|byte| *byte == gate)
}

/// Whether two pages have the same bytes after their gates.
fn has_rest_of(page: &Page, other: &Page) -> bool {
    let (bytes, wanted) = (page.bytes(), other.bytes());
    let (bytes, wanted) = (&bytes[BLOCK_BYTES..], &wanted[BLOCK_BYTES..]);
    bytes == wanted
}

/// Says of a page that is spelled so whether it has a header, and whether that is written into
/// another page after the gate alone.
pub fn say_header_again(alloc: Global, told: &mut Told) {
    match (spelled(alloc, 0xa5, &[]), full_page(alloc, 0xee)) {
        (Some(wanted), Some(mut page)) => {
            let is_written = write_read(alloc, &wanted, &mut page);
            let is_right = has_gate(&page, 0xee) && has_rest_of(&page, &wanted);
            say_whether(told, &[is_written, is_right]);
        }
        _ => told.check(false),
    }
}
