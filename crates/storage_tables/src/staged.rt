//! Calls on three pages of a volume with a change laid over them: `put:0:5` puts page 0 with that
//! first byte, `set:0:7` sets it, `forget:0` forgets the page, `keep` keeps the change, and `back`
//! takes it back.

use page_cache::{Home, MetaPages, OutOfMemory, Page, VolIx};
use staged_pages::StagedPages;
use std::alloc::Global;
use table_words::{Told, Words};

/// A call: on a page, by its number, with the first byte that it has then, or on the change.
#[derive(Clone, Copy, Debug)]
pub enum Step {
    Put(u32, u8),
    Set(u32, u8),
    Forget(u32),
    Keep,
    TakeBack,
}

/// The page of the volume with that number.
fn home_at(page: u32) -> Home {
    Home {
        vol: VolIx::new(1).unwrap(),
        page,
    }
}

/// Puts a page with that first byte.
fn put(alloc: Global, pages: &mut StagedPages, page: u32, byte: u8) -> Result<(), OutOfMemory> {
    let mut value = Page::zeros(alloc)?;
    value.set(0, &[byte]);
    pages.reserve(alloc, 1)?;
    pages.put(home_at(page), value);
    Ok(())
}

/// Sets the first byte of a page, if it is there.
fn set(pages: &mut StagedPages, home: &Home, byte: u8) {
    if pages.get(*home).is_some() {
        pages.set(*home, 0, &[byte]);
    }
}

/// Takes one step.
pub fn take_step(alloc: Global, pages: &mut StagedPages, step: Step) -> Result<(), OutOfMemory> {
    match step {
        Step::Put(page, byte) => put(alloc, pages, page, byte)?,
        Step::Set(page, byte) => set(pages, &home_at(page), byte),
        Step::Forget(page) => pages.forget(home_at(page)),
        Step::Keep => pages.keep(),
        Step::TakeBack => pages.take_back(),
    }
    Ok(())
}

/// The first byte of a page, and 0 for none.
fn first_byte(page: Option<&Page>) -> u8 {
    match page {
        Some(page) => page.bytes()[0],
        None => 0,
    }
}

/// How often a home is on a list: 0, 1, or 2 for more.
fn times_on(homes: &[Home], home: Home) -> u8 {
    let mut times = 0;
    for other in homes {
        if *other == home && times < 2 {
            times += 1;
        }
    }
    times
}

/// What a page is: its first byte now, the one before the change, and how often the change lists
/// it.
pub fn look_at(pages: &StagedPages, page: u32) -> [u8; 3] {
    [
        first_byte(pages.get(home_at(page))),
        first_byte(pages.before(home_at(page))),
        times_on(pages.changed(), home_at(page)),
    ]
}

/// The step that a word names; it keeps the change if it is none.
fn step_of(words: &mut Words) -> Step {
    let word = words.until(':');
    let page = words.number_if_any(':');
    let byte = words.byte_if_any(' ');
    match word {
        "put" => Step::Put(page, byte),
        "set" => Step::Set(page, byte),
        "forget" => Step::Forget(page),
        "back" => Step::TakeBack,
        _ => {
            words.check(word == "keep");
            Step::Keep
        }
    }
}

/// Tells a line of what a page is.
fn tell_page(pages: &StagedPages, page: u32, told: &mut Told) {
    let [now, before, times] = look_at(pages, page);
    told.push_pair("", u64::from(page), ": ", u64::from(now));
    told.push_pair(
        " now, ",
        u64::from(before),
        " before, listed ",
        u64::from(times),
    );
    told.push("\n");
}

/// Tells what the first three pages are once the steps are taken, none being there before: a line
/// for each.
pub fn tell_staged(alloc: Global, steps: &str, told: &mut Told) {
    let mut pages = StagedPages::new(alloc);
    for step in steps.split(' ') {
        let mut words = Words::new(step);
        let is_taken = take_step(alloc, &mut pages, step_of(&mut words)).is_ok();
        told.check(is_taken && words.is_right());
    }
    for page in 0..3 {
        tell_page(&pages, page, told);
    }
}
