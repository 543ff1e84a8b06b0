//! Pages in memory beside a plain list of the same.

use free_cells::{Home, MemoryPages, MetaPages, OutOfMemory, Page, VolIx};
use std::alloc::Global;
use table_words::Told;

/// One of twelve homes: three pages of each of four volumes, one of them the last that there may
/// be.
fn home_of(number: u32) -> Option<Home> {
    let vol = VolIx::new(1 + number % 4 * 2)?;
    let page = match number / 4 % 3 {
        0 => 0,
        1 => 1,
        _ => u32::MAX,
    };
    Some(Home { vol, page })
}

/// A page with that byte at its end.
fn page_of(alloc: Global, mark: u8) -> Result<Page, OutOfMemory> {
    let mut page = Page::zeros(alloc)?;
    page.set(8_191, &[mark]);
    Ok(page)
}

fn mark_of(page: &Page) -> u8 {
    page.bytes()[8_191]
}

/// The mark at a home.
fn mark_at(pages: &MemoryPages, home: &Home) -> Option<u8> {
    match pages.get(*home) {
        Some(page) => Some(mark_of(page)),
        None => None,
    }
}

/// The mark at a home in the plain list.
fn plain_mark(marks: &[(u32, u8)], number: u32) -> Option<u8> {
    for (home, mark) in marks {
        if *home == number {
            return Some(*mark);
        }
    }
    None
}

/// Puts a page, and says whether the room fell by one if the home was new, and not else.
fn put(alloc: Global, pages: &mut MemoryPages, home: &Home, mark: u8) -> Result<bool, OutOfMemory> {
    let page = page_of(alloc, mark)?;
    let new = pages.get(*home).is_none();
    pages.reserve(alloc, 1)?;
    let before = pages.spare();
    pages.put(*home, page);
    let fell = before.saturating_sub(pages.spare());
    Ok(fell == usize::from(new))
}

/// Forgets a page, and says which mark it had, and whether the room rose by one if there was one,
/// and not else.
fn take(pages: &mut MemoryPages, home: &Home) -> (Option<u8>, bool) {
    let before = pages.spare();
    let mark = pages.get(*home).map(mark_of);
    pages.forget(*home);
    let rose = pages.spare().saturating_sub(before);
    (mark, rose == usize::from(mark.is_some()))
}

/// Takes an entry from the plain list, and puts one with a mark there, if one is given.
fn change_marks(
    marks: &mut Vec<(u32, u8)>,
    number: u32,
    mark: Option<u8>,
) -> Result<(), OutOfMemory> {
    marks.retain(|entry| entry.0 != number);
    if let Some(mark) = mark {
        marks.push((number, mark))?;
    }
    Ok(())
}

/// Whether a call on the pages answers as the plain list does, whose mark is `plain`: it puts a
/// mark if one is given, and forgets the page otherwise.
fn is_alike(
    alloc: Global,
    pages: &mut MemoryPages,
    home: &Home,
    plain: Option<u8>,
    mark: Option<u8>,
) -> bool {
    match mark {
        Some(mark) => put(alloc, pages, home, mark).unwrap_or(false),
        None => take(pages, home) == (plain, true),
    }
}

/// One call at both, and whether they answer alike.
fn call(alloc: Global, pages: &mut MemoryPages, marks: &mut Vec<(u32, u8)>, number: u32) -> bool {
    let at = number % 12;
    let plain = plain_mark(marks, at);
    let mark = if number % 5 < 2 {
        None
    } else {
        Some((number / 16 % 256) as u8)
    };
    if change_marks(marks, at, mark).is_err() {
        return false;
    }
    match home_of(at) {
        Some(home) => is_alike(alloc, pages, &home, plain, mark),
        None => false,
    }
}

/// Whether both have the same at all homes.
fn are_alike(pages: &MemoryPages, marks: &[(u32, u8)]) -> bool {
    for number in 0..12 {
        let mark = match home_of(number) {
            Some(home) => mark_at(pages, &home),
            None => None,
        };
        if mark != plain_mark(marks, number) {
            return false;
        }
    }
    true
}

/// Tells how many of `calls` random calls both answer alike before they first differ. They are
/// drawn by a rule that has no pattern.
pub fn tell_random(alloc: Global, calls: u32, told: &mut Told) {
    let mut pages = MemoryPages::new(alloc);
    let mut marks = Vec::new(alloc);
    let mut drawn = 1u32;
    let mut same = 0u64;
    for _ in 0..calls {
        drawn = drawn.wrapping_mul(1_664_525).wrapping_add(1_013_904_223);
        if !call(alloc, &mut pages, &mut marks, drawn / 65_536) || !are_alike(&pages, &marks) {
            break;
        }
        same = same.saturating_add(1);
    }
    told.push_number(same);
    told.push(" alike");
}
