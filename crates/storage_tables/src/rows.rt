//! Rows: a word for what is done, and what it is done with.

use crate::bitmaps::tell_bitmap;
use crate::cache::tell_cache;
use crate::keeping::tell_changes;
use crate::pages::{tell_block, tell_page, tell_volume_pages};
use crate::random_cache::tell_random_cache;
use crate::random_staged::tell_random_staged;
use crate::records::tell_record;
use crate::spaces::tell_space;
use crate::staged::tell_staged;
use std::alloc::Global;
use table_words::{Told, Words};

/// Tells what comes of a row.
fn tell_row(alloc: Global, row: &str, told: &mut Told) {
    let mut words = Words::new(row);
    match words.until(' ') {
        "record" => tell_record(alloc, &mut words, told),
        "bitmap" => tell_bitmap(alloc, &mut words, told),
        "space" => tell_space(alloc, &mut words, told),
        "changes" => tell_changes(alloc, words.rest(), told),
        "cache" => tell_cache(alloc, words.rest(), told),
        "staged" => tell_staged(alloc, words.rest(), told),
        "random-cache" => tell_random_cache(alloc, words.number(' '), told),
        "random-staged" => tell_random_staged(alloc, &mut words, told),
        "page" => tell_page(alloc, &mut words, told),
        "block" => tell_block(words.rest(), told),
        "pages" => tell_volume_pages(&mut words, told),
        _ => words.check(false),
    }
    told.check(words.is_right());
}

/// Tells a row, and below it what comes of it, each line after two blanks. A comment and an empty
/// row stand for themselves.
pub fn push_row(alloc: Global, told: &mut Told, row: &str) {
    let mut below = Told::new(alloc);
    if !row.is_empty() && !row.starts_with('#') {
        tell_row(alloc, row, &mut below);
    }
    told.push(row);
    told.push("\n");
    for line in below.text().lines() {
        told.push("  ");
        told.push(line);
        told.push("\n");
    }
    told.check(below.is_right());
}
