//! Pages that are kept in memory. A row has calls on a new cache: `keep:2:70:5` keeps page 70 of
//! volume 2 with mark 5 at its end, `write:2:70:6:9` writes it for group 9, `show:2:70` shows its
//! mark, `waits:2:70` the group that it waits for, `drop:2:70` forgets it and shows the mark of the
//! page that is handed back, and `flush:9` writes the next home that is durable by that group.
//! `fill:2` fills the cache with the pages of volume 1 and writes the first two.
ghost use Rattle.std.specs.Prelude.{◌<◌};

use crate::callers::write_and_show;
use page_cache::{Home, OutOfMemory, Page, PageCache, VolIx};
use std::alloc::Global;
use table_words::{Told, Words};

/// A page with a byte at that place.
fn page_with(alloc: Global, at: usize, mark: u8) -> Result<Page, OutOfMemory>
    requires { at < 8_192 }
{
    let mut page = Page::zeros(alloc)?;
    page.set(at, &[mark]);
    Ok(page)
}

/// A page with that byte at its end.
pub fn page_of(alloc: Global, mark: u8) -> Result<Page, OutOfMemory> {
    page_with(alloc, 8_191, mark)
}

/// The byte at a page's end.
pub fn mark_of(page: &Page) -> u8 {
    page.bytes()[8_191]
}

/// The mark that is shown of a home.
pub fn shown(cache: &mut PageCache, home: &Home) -> Option<u32> {
    match cache.frame(*home) {
        Some(page) => Some(u32::from(mark_of(page))),
        None => None,
    }
}

/// A home, and up to two numbers more, zeros if they are not told.
#[derive(Clone, Copy)]
struct Call {
    home: Home,
    mark: u8,
    group: u64,
}

/// What the words of a call tell.
fn call_of(words: &mut Words) -> Call {
    let vol = words.volume(':');
    let page = words.number(':');
    let mark = words.byte_if_any(':');
    Call {
        home: Home { vol, page },
        mark,
        group: u64::from(words.number_if_any(' ')),
    }
}

/// Keeps a page of a home that has none; whether there was room, and memory sufficed.
pub fn is_kept(alloc: Global, cache: &mut PageCache, home: &Home, mark: u8) -> bool {
    let Ok(page) = page_of(alloc, mark) else {
        return false;
    };
    if cache.is_kept(*home) || cache.dirty() >= 1_024 {
        return false;
    }
    cache.keep(*home, page).is_ok()
}

/// Writes a home that is kept; whether it was, and memory sufficed.
pub fn is_written(alloc: Global, cache: &mut PageCache, home: &Home, mark: u8, group: u64) -> bool {
    let Ok(page) = page_of(alloc, mark) else {
        return false;
    };
    let is_kept = cache.is_kept(*home);
    if is_kept {
        cache.write(*home, page, group);
    }
    is_kept
}

/// Writes a page with that first byte to a kept home, and tells what stands there then.
fn write_first(alloc: Global, cache: &mut PageCache, call: &Call, told: &mut Told) {
    let Ok(page) = page_with(alloc, 0, call.mark) else {
        return told.check(false);
    };
    if !cache.is_kept(call.home) {
        return told.check(false);
    }
    let shown = write_and_show(cache, &call.home, page, call.group);
    told.push_some(shown.map(u32::from));
}

/// Makes a kept home clean.
pub fn clean(cache: &mut PageCache, home: &Home) {
    if cache.is_kept(*home) {
        cache.written(*home);
    }
}

/// Forgets a home, and gives the mark of the page that its frame hands back, if it was kept.
pub fn forget(cache: &mut PageCache, home: &Home) -> Option<u32> {
    if !cache.is_kept(*home) {
        return None;
    }
    let page = cache.drop_frame(*home);
    Some(u32::from(mark_of(&page)))
}

/// Tells the group that a home's frame waits for.
fn tell_wait(cache: &PageCache, home: &Home, told: &mut Told) {
    match cache.waits(*home) {
        Some(group) => told.push_number(group),
        None => told.push("none"),
    }
}

/// Writes the next home that is durable, and tells which it was.
fn flush(cache: &mut PageCache, durable: u64, told: &mut Told) {
    match cache.next_flush(durable) {
        Some(home) => {
            clean(cache, &home);
            told.push_home("", &home);
        }
        None => told.push("none"),
    }
}

/// A page of volume 1.
fn first_volume(page: u32) -> Home {
    Home {
        vol: VolIx::new(1).unwrap(),
        page,
    }
}

/// Fills a cache with the pages of volume 1, and writes the first `written` of them once they are
/// kept; whether that passed.
fn is_filled(alloc: Global, cache: &mut PageCache, written: u32) -> bool {
    for page in 0..1_024 {
        let home = first_volume(page);
        if !is_kept(alloc, cache, &home, 1) {
            return false;
        }
        if page < written && !is_written(alloc, cache, &home, 2, 1) {
            return false;
        }
    }
    true
}

/// Tells which of the first five pages of volume 1 are kept.
fn tell_first_five(cache: &PageCache, told: &mut Told) {
    told.push("pages");
    for page in 0..5 {
        if cache.is_kept(first_volume(page)) {
            told.push(" ");
            told.push_number(u64::from(page));
        }
    }
}

/// Tells what a call answers.
fn tell_call(alloc: Global, cache: &mut PageCache, word: &str, words: &mut Words, told: &mut Told) {
    match word {
        "show" => told.push_some(shown(cache, &call_of(words).home)),
        "waits" => tell_wait(cache, &call_of(words).home, told),
        "drop" => told.push_some(forget(cache, &call_of(words).home)),
        "write-first" => write_first(alloc, cache, &call_of(words), told),
        "flush" => flush(cache, u64::from(words.number(' ')), told),
        "dirty" => told.push_number(cache.dirty() as u64),
        "first-five" => tell_first_five(cache, told),
        _ => words.check(false),
    }
}

/// Keeps a page, or writes one, as words say; whether that passed.
fn is_put(alloc: Global, cache: &mut PageCache, word: &str, words: &mut Words) -> bool {
    let Call { home, mark, group } = call_of(words);
    if word == "keep" {
        is_kept(alloc, cache, &home, mark)
    } else {
        is_written(alloc, cache, &home, mark, group)
    }
}

/// Makes a call, and tells a line of what it answers, if it answers anything.
fn make_call(alloc: Global, cache: &mut PageCache, text: &str, told: &mut Told) {
    let mut words = Words::new(text);
    match words.until(':') {
        "fill" => told.check(is_filled(alloc, cache, words.number(' '))),
        word => {
            if word == "keep" || word == "write" {
                told.check(is_put(alloc, cache, word, &mut words));
            } else {
                told.push(text);
                told.push(": ");
                tell_call(alloc, cache, word, &mut words, told);
                told.push("\n");
            }
        }
    }
    told.check(words.is_right());
}

/// Tells what the calls on a cache answer.
pub fn tell_cache(alloc: Global, calls: &str, told: &mut Told) {
    let Ok(mut cache) = PageCache::new(alloc) else {
        return told.check(false);
    };
    for text in calls.split(' ') {
        make_call(alloc, &mut cache, text, told);
    }
}
