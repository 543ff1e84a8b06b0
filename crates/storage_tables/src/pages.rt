//! Pages of 8,192 bytes, gates, and what a version allows.

use cell_records::limits::PAGE_BYTES;
use free_space::{OutOfMemory, Page, Version, gate};
use std::alloc::Global;
use table_words::{Told, Words, decode};

/// Tells how many bytes of a page are zeros.
fn tell_zeros(page: &Page, told: &mut Told) {
    let zeros = page.bytes().iter().filter(|byte| **byte == 0).count();
    told.push_number(zeros as u64);
    told.push(" zeros, then ");
}

/// Tells the last five bytes of a page's copy in digits.
fn tell_copy(alloc: Global, page: &Page, told: &mut Told) {
    match page.copy(alloc) {
        Ok(copy) => told.push_digits(copy.bytes().get(8_187..).unwrap_or(&[])),
        Err(_) => told.check(false),
    }
    told.push(" at the end");
}

/// Tells how many bytes of a new page are zeros, and the end of its copy after bytes were written
/// from a place on.
fn tell_written(
    alloc: Global,
    at: usize,
    bytes: &[u8],
    told: &mut Told,
) -> Result<(), OutOfMemory> {
    let mut page = Page::zeros(alloc)?;
    tell_zeros(&page, told);
    if at <= PAGE_BYTES && bytes.len() <= PAGE_BYTES - at {
        page.set(at, bytes);
    }
    tell_copy(alloc, &page, told);
    Ok(())
}

/// Tells a new page, and its copy once the bytes of a row were written from a place on.
pub fn tell_page(alloc: Global, words: &mut Words, told: &mut Told) {
    let at = words.number(' ') as usize;
    match decode(alloc, words.rest()) {
        Ok(bytes) => {
            let is_told = tell_written(alloc, at, &bytes, told).is_ok();
            told.check(is_told);
        }
        Err(_) => words.check(false),
    }
}

/// Tells the block of an open gate or of a closed one: whether it says that it is open, and its
/// last byte.
pub fn tell_block(word: &str, told: &mut Told) {
    let block = if word == "open" {
        gate::open_block()
    } else {
        gate::closed_block()
    };
    told.push(if gate::is_open(&block) {
        "open, "
    } else {
        "closed, "
    });
    told.push_digits(&[block[511]]);
    told.push(" at the end");
}

/// Tells how many pages a volume may have by a version, and how many the bitmap of a volume has of
/// the size that is said.
pub fn tell_volume_pages(words: &mut Words, told: &mut Told) {
    let version = Version::from_number(words.number(' '));
    let pages = words.number(' ');
    let Some(version) = version else {
        return words.check(false);
    };
    told.push("at most ");
    told.push_number(u64::from(version.max_volume_pages()));
    told.push(", ");
    told.push_number(u64::from(version.bitmap_pages(pages)));
    told.push(" of the bitmap");
}
