//! Calls on a cache that are drawn without a pattern. Below a row follows what is seen of ten calls
//! at a time: the mark that was shown, or how many frames are dirty and which home is written next;
//! and then the marks of all homes.
ghost use Rattle.std.specs.Prelude.{◌<◌};

use crate::cache::{clean, forget, is_kept, is_written, shown};
use page_cache::{Home, PageCache, VolIx};
use std::alloc::Global;
use table_words::Told;

/// How many homes the calls name, about twice as many as a cache keeps frames.
const HOMES: u32 = 2_000;

/// A home of that number; they go round the volumes.
fn home_of(number: u32) -> Home {
    let vol = match VolIx::new(1 + number % 8) {
        Some(vol) => vol,
        None => VolIx::new(1).unwrap(),
    };
    Home {
        vol,
        page: number / 8,
    }
}

/// Keeps a page if no frame of the home is kept, unless all are dirty, and writes it otherwise;
/// whether that passed.
fn is_put(alloc: Global, cache: &mut PageCache, home: &Home, mark: u8, group: u64) -> bool {
    if cache.is_kept(*home) {
        is_written(alloc, cache, home, mark, group)
    } else {
        cache.dirty() >= 1_024 || is_kept(alloc, cache, home, mark)
    }
}

/// Makes the next home clean whose group is durable.
fn flush(cache: &mut PageCache, durable: u64) {
    if let Some(home) = cache.next_flush(durable) {
        clean(cache, &home);
    }
}

/// Tells how many frames are dirty, and which home is written next.
fn tell_standing(cache: &PageCache, durable: u64, told: &mut Told) {
    told.push_number(cache.dirty() as u64);
    told.push(">");
    match cache.next_flush(durable) {
        Some(home) => told.push_home("", &home),
        None => told.push("none"),
    }
}

/// Makes a call, and tells what is seen then.
fn call(alloc: Global, cache: &mut PageCache, drawn: u32, told: &mut Told) {
    let home = home_of(drawn / 16 % HOMES);
    let mark = (drawn / 7 % 256) as u8;
    let group = u64::from(drawn / 64 % 32);
    match drawn % 16 {
        0..=7 => told.check(is_put(alloc, cache, &home, mark, group)),
        8..=10 => flush(cache, group),
        11 => {
            let _ = forget(cache, &home);
        }
        _ => return told.push_some(shown(cache, &home)),
    }
    tell_standing(cache, group, told);
}

/// Fills a cache, half of whose frames are dirty, which are the oldest; whether that passed.
fn is_filled(alloc: Global, cache: &mut PageCache) -> bool {
    for number in 0..1_024 {
        let home = home_of(number);
        if !is_put(alloc, cache, &home, 1, 1) {
            return false;
        }
        if number < 512 && !is_put(alloc, cache, &home, 2, u64::from(number % 32)) {
            return false;
        }
    }
    true
}

/// Tells what comes after a word, if `to_a_line` of them stand on a line.
fn end_word(number: u32, to_a_line: u32, told: &mut Told)
    requires { 0 < to_a_line }
{
    let is_last = number % to_a_line == to_a_line - 1;
    told.push(if is_last { "\n" } else { " " });
}

/// Tells what is seen of `calls` calls, and the marks of all homes then.
fn tell_calls(alloc: Global, cache: &mut PageCache, calls: u32, told: &mut Told) {
    let mut drawn = 1u32;
    for number in 0..calls {
        drawn = drawn.wrapping_mul(1_664_525).wrapping_add(1_013_904_223);
        call(alloc, cache, drawn / 65_536 * 31, told);
        end_word(number, 10, told);
    }
    for number in 0..HOMES {
        told.push_some(shown(cache, &home_of(number)));
        end_word(number, 20, told);
    }
}

/// Tells what is seen of `calls` calls on a new cache that was filled.
pub fn tell_random_cache(alloc: Global, calls: u32, told: &mut Told) {
    let Ok(mut cache) = PageCache::new(alloc) else {
        return told.check(false);
    };
    told.check(is_filled(alloc, &mut cache));
    tell_calls(alloc, &mut cache, calls, told);
}
