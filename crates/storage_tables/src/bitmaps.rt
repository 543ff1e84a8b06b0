//! Bitmaps of volumes. A row has the number of pages and calls: `use:0..10` and `free:20` change
//! pages, `run:10` asks for the first run of ten pages, and `run:10:2` for that from page 2 on.

use free_space::Bitmap;
use std::alloc::Global;
use table_words::{Told, Words};

/// Marks the pages from one to another as used.
fn use_pages(map: &mut Bitmap, words: &mut Words) {
    let from = words.number('.');
    words.until('.');
    for page in from..words.number(' ') {
        if page < map.pages() {
            map.set(page);
        }
    }
}

/// Frees the page, if it is the volume's.
fn free_page(map: &mut Bitmap, page: u32) {
    if page < map.pages() {
        map.clear(page);
    }
}

/// The first run of the number of pages that words say, from a page on if one is named.
fn run(map: &Bitmap, words: &mut Words) -> Option<u32> {
    let count = words.number(':');
    if words.rest().is_empty() {
        map.first_run(count)
    } else {
        map.first_run_from(words.number(' '), count)
    }
}

/// Tells how many bytes there are, the first ten of them, and how many of the others are all ones.
fn tell_bytes(map: &Bitmap, told: &mut Told) {
    let bytes = map.bytes();
    let (front, rest) = bytes.split_at_checked(10).unwrap_or((bytes, &[]));
    let ones = rest.iter().filter(|byte| **byte == 0xff).count();
    told.push_number(bytes.len() as u64);
    told.push(" bytes, ");
    told.push_digits(front);
    told.push(", ");
    told.push_number(ones as u64);
    told.push(" of ones");
}

/// Tells how many pages are free, and how many of them stand in a row.
fn tell_count(map: &Bitmap, told: &mut Told) {
    told.push_number(u64::from(map.count_free()));
    told.push(" free, ");
    told.push_number(u64::from(map.longest_run()));
    told.push(" in a row");
}

/// Tells what is asked of the bitmap.
fn tell_asked(map: &Bitmap, word: &str, words: &mut Words, told: &mut Told) {
    match word {
        "run" => told.push_some(run(map, words)),
        "bytes" => tell_bytes(map, told),
        "size" => told.push_number(map.bytes().len() as u64),
        "count" => tell_count(map, told),
        _ => words.check(false),
    }
}

/// Makes a call, and tells a line of what it answers.
fn call(map: &mut Bitmap, text: &str, told: &mut Told) {
    let mut words = Words::new(text);
    match words.until(':') {
        "use" => use_pages(map, &mut words),
        "free" => free_page(map, words.number(' ')),
        word => {
            told.push(text);
            told.push(": ");
            tell_asked(map, word, &mut words, told);
            told.push("\n");
        }
    }
    told.check(words.is_right());
}

/// Tells what the calls on a bitmap answer.
pub fn tell_bitmap(alloc: Global, words: &mut Words, told: &mut Told) {
    let Ok(mut map) = Bitmap::new(alloc, words.number(' ')) else {
        return told.check(false);
    };
    for text in words.rest().split(' ') {
        call(&mut map, text, told);
    }
}
