//! Free space of volumes. A row has a volume, how many pages it has and how many of these are used,
//! and calls.
ghost use Rattle.std.specs.Prelude.{◌≡◌, ◌≤◌, IfOk};

use cell_records::{Home, OutOfMemory, VolIx};
use free_space::{Bitmap, FreeSpace, PageUse};
use std::alloc::Global;
use table_words::{Told, Words};

/// A bitmap of `pages` pages, the first `used` of them used.
fn used_below(alloc: Global, pages: u32, used: u32) -> Result<Bitmap, OutOfMemory>
    ensures { IfOk result (λ map. map.pages ≡ pages) }
{
    let mut map = Bitmap::new(alloc, pages)?;
    for page in 0..used.min(pages) {
        map.set(page);
    }
    Ok(map)
}

/// The free space of one volume of `pages` pages, the first `used` of them used.
pub fn one_volume(
    alloc: Global,
    vol: VolIx,
    pages: u32,
    used: u32,
) -> Result<FreeSpace, OutOfMemory>
    requires { pages ≤ 64 }
{
    let map = used_below(alloc, pages, used)?;
    let mut space = FreeSpace::new(alloc)?;
    match space.add_volume(alloc, vol, map) {
        Ok(()) => Ok(space),
        Err(_) => Err(OutOfMemory),
    }
}

/// Takes a page of the volume and lets it wait.
pub fn take_and_give_back(
    space: &mut FreeSpace,
    vol: VolIx,
    kind: PageUse,
    group: u64,
) -> Option<u32> {
    let home = space.allocate_on(vol)?;
    let page = home.page;
    space.give_back(home, kind, group);
    Some(page)
}

/// Takes a page of the volume and frees it at once.
pub fn take_and_leave(space: &mut FreeSpace, vol: VolIx) -> Option<u32> {
    let home = space.allocate_on(vol)?;
    let page = home.page;
    space.unreserve(home);
    Some(page)
}

/// Takes a page of the volume.
pub fn take(space: &mut FreeSpace, vol: VolIx) -> Option<u32> {
    let home = space.allocate_on(vol)?;
    Some(home.page)
}

/// Takes `count` pages and frees each at once; the last of them.
fn leave_all(space: &mut FreeSpace, vol: VolIx, count: u32) -> Option<u32> {
    let mut last = None;
    for _ in 0..count {
        last = take_and_leave(space, vol);
    }
    last
}

/// Takes a page for each group from one to another and lets it wait; the last of them.
fn give_back_all(space: &mut FreeSpace, vol: VolIx, words: &mut Words) -> Option<u32> {
    let from = words.number('.');
    words.until('.');
    let mut last = None;
    for group in from..words.number(' ') {
        last = take_and_give_back(space, vol, PageUse::Data, u64::from(group));
    }
    last
}

/// Tells a home, or that there is none.
fn tell_home(home: Option<Home>, told: &mut Told) {
    match home {
        Some(home) => told.push_home("", &home),
        None => told.push("none"),
    }
}

/// Takes a page, or pages, as a word says.
fn take_by(space: &mut FreeSpace, vol: VolIx, word: &str, words: &mut Words) -> Option<u32> {
    match word {
        "on" => take(space, vol),
        "leave" => leave_all(space, vol, words.number(' ')),
        "data" => take_and_give_back(space, vol, PageUse::Data, u64::from(words.number(' '))),
        "metadata" => {
            let group = u64::from(words.number(' '));
            take_and_give_back(space, vol, PageUse::Metadata, group)
        }
        "groups" => give_back_all(space, vol, words),
        _ => {
            words.check(false);
            None
        }
    }
}

/// Tells how many pages are free, wait and are used, and the longest run of free ones.
fn tell_counts(space: &FreeSpace, vol: VolIx, told: &mut Told) {
    told.push_number(space.free_now() as u64);
    told.push(" free, ");
    told.push_number(space.waiting() as u64);
    told.push(" waiting, ");
    told.push_number(space.used_on(vol) as u64);
    told.push(" used, ");
    told.push_number(space.longest_run(vol) as u64);
    told.push(" in a row");
}

/// Tells how many pages were taken, freed and given back.
fn tell_changed(space: &FreeSpace, vol: VolIx, told: &mut Told) {
    told.push_number(space.taken(vol).len() as u64);
    told.push(" taken, ");
    told.push_number(space.freed(vol).len() as u64);
    told.push(" freed, ");
    told.push_number(space.given_back(vol).len() as u64);
    told.push(" given back");
}

/// Tells the runs of free pages: the volume and the page at which each begins, and how many pages
/// it has.
fn tell_runs(alloc: Global, space: &FreeSpace, told: &mut Told) {
    let Ok(runs) = space.runs(alloc) else {
        return told.check(false);
    };
    let mut is_first = true;
    for run in &runs {
        told.push(if is_first { "" } else { ", " });
        told.push_home("", &run.first);
        told.push("+");
        told.push_number(run.count as u64);
        is_first = false;
    }
    if runs.is_empty() {
        told.push("none");
    }
}

/// Tells what a call answers.
fn tell_call(
    alloc: Global,
    space: &mut FreeSpace,
    vol: VolIx,
    word: &str,
    words: &mut Words,
    told: &mut Told,
) {
    match word {
        "counts" => tell_counts(space, vol, told),
        "runs" => tell_runs(alloc, space, told),
        "changed" => tell_changed(space, words.volume(' '), told),
        "free" => {
            told.push_number(space.free_now() as u64);
            told.push(" and ");
            told.push_number(space.waiting() as u64);
            told.push(" waiting");
        }
        "misses" => told.push_number(space.misses()),
        "reserve" => {
            let page = words.number(' ');
            told.push(if space.reserve(Home { vol, page }) {
                "reserved"
            } else {
                "not reserved"
            });
        }
        "take" => tell_home(space.allocate(words.volume(' ')), told),
        "run" => tell_home(space.allocate_run(vol, words.number(' ')), told),
        _ => told.push_some(take_by(space, vol, word, words)),
    }
}

/// Makes a call that answers nothing, and tells whether it is one.
fn is_done(space: &mut FreeSpace, vol: VolIx, word: &str, words: &mut Words) -> bool {
    match word {
        "close" => space.close_volume(vol),
        "open" => space.activate(vol),
        "drop" => space.drop_volume(vol),
        "keep" => space.keep(),
        "back" => space.take_back(),
        "durable" => space.made_durable(u64::from(words.number(' '))),
        "passed" => space.log_passed(u64::from(words.number(' '))),
        _ => return false,
    }
    true
}

/// Makes a call, and tells a line of what it answers.
fn call(alloc: Global, space: &mut FreeSpace, vol: VolIx, text: &str, told: &mut Told) {
    let mut words = Words::new(text);
    let word = words.until(':');
    if !is_done(space, vol, word, &mut words) {
        told.push(text);
        told.push(": ");
        tell_call(alloc, space, vol, word, &mut words, told);
        told.push("\n");
    }
    told.check(words.is_right());
}

/// Tells what the calls on a volume answer.
pub fn tell_space(alloc: Global, words: &mut Words, told: &mut Told) {
    let vol = words.volume(' ');
    let pages = words.number(' ');
    let used = words.number(' ');
    if 64 < pages {
        return words.check(false);
    }
    let Ok(mut space) = one_volume(alloc, vol, pages, used) else {
        return told.check(false);
    };
    for text in words.rest().split(' ') {
        call(alloc, &mut space, vol, text, told);
    }
}
