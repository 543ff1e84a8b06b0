//! What free space keeps before a change, and what is taken back. A row has a letter for each
//! change of a volume with eight pages, two of them used; a line of the answer has the letter,
//! how many pages are free, held and waiting, and which were taken, freed and given back to wait.

use crate::spaces::{one_volume, take, take_and_give_back, take_and_leave};
use cell_records::{OutOfMemory, VolIx};
use free_space::{FreeSpace, PageUse};
use std::alloc::Global;
use table_words::Told;

/// Takes a page, keeps that, and frees it at once.
fn take_keep_and_leave(space: &mut FreeSpace, vol: VolIx) -> Option<u32> {
    let home = space.allocate_on(vol)?;
    let page = home.page;
    space.keep();
    space.unreserve(home);
    Some(page)
}

/// Takes a page, keeps that, and lets it wait.
fn take_keep_and_give_back(space: &mut FreeSpace, vol: VolIx) -> Option<u32> {
    let home = space.allocate_on(vol)?;
    let page = home.page;
    space.keep();
    space.give_back(home, PageUse::Metadata, 5);
    Some(page)
}

/// Takes two pages, and frees the first at once. The second is given.
fn take_two_and_leave_one(space: &mut FreeSpace, vol: VolIx) -> Option<u32> {
    let first = space.allocate_on(vol)?;
    let second = space.allocate_on(vol)?;
    let page = second.page;
    space.unreserve(first);
    Some(page)
}

/// Makes the change that a letter stands for, and gives its page: it is [t]aken, taken and given
/// [b]ack to wait, taken and [l]eft, [f]reed after it was kept, given back to [w]ait after it was
/// kept, or taken after [o]ne that is left.
fn make_change(space: &mut FreeSpace, vol: VolIx, letter: u8) -> Option<u32> {
    match letter {
        b't' => take(space, vol),
        b'b' => take_and_give_back(space, vol, PageUse::Metadata, 5),
        b'l' => take_and_leave(space, vol),
        b'f' => take_keep_and_leave(space, vol),
        b'w' => take_keep_and_give_back(space, vol),
        b'o' => take_two_and_leave_one(space, vol),
        _ => None,
    }
}

/// Makes a step: a capital [K]eeps, takes back what was kept ([B]), or [P]asses what waits. Whether
/// a page was free, if one is taken.
fn is_made(space: &mut FreeSpace, vol: VolIx, letter: u8) -> bool {
    match letter {
        b'K' => space.keep(),
        b'B' => space.take_back(),
        b'P' => space.log_passed(5),
        _ => return make_change(space, vol, letter).is_some(),
    }
    true
}

/// Tells pages in rising order, or a dash.
fn tell_sorted(pages: &mut [u32], told: &mut Told) {
    pages.sort_unstable();
    for page in pages.iter() {
        told.push(" ");
        told.push_number(u64::from(*page));
    }
    if pages.is_empty() {
        told.push(" -");
    }
}

/// Tells pages in rising order after a word.
fn tell_pages(alloc: Global, word: &str, pages: &[u32], told: &mut Told) {
    told.push(word);
    match Vec::from_slice(alloc, pages) {
        Ok(mut pages) => tell_sorted(pages.as_mut_slice(), told),
        Err(_) => told.check(false),
    }
}

/// The pages that were given back.
fn given_back(alloc: Global, space: &FreeSpace, vol: VolIx) -> Result<Vec<u32>, OutOfMemory> {
    let mut pages = Vec::new(alloc);
    for waiting in space.given_back(vol) {
        pages.push(waiting.page)?;
    }
    Ok(pages)
}

/// Tells how the volume stands.
fn tell_space(alloc: Global, space: &FreeSpace, vol: VolIx, told: &mut Told) {
    let (free, held) = (space.free_now() as u64, space.used_on(vol) as u64);
    told.push_pair("", free, " ", held);
    told.push(" ");
    told.push_number(space.waiting() as u64);
    tell_pages(alloc, ", taken", space.taken(vol), told);
    tell_pages(alloc, ", freed", space.freed(vol), told);
    match given_back(alloc, space, vol) {
        Ok(pages) => tell_pages(alloc, ", waiting", &pages, told),
        Err(_) => told.check(false),
    }
}

/// Tells how a volume stands after each of the changes.
fn tell_letters(alloc: Global, space: &mut FreeSpace, vol: VolIx, letters: &str, told: &mut Told) {
    for letter in letters.bytes() {
        told.check(is_made(space, vol, letter));
        told.push_letter(letter);
        told.push(": ");
        tell_space(alloc, space, vol, told);
        told.push("\n");
    }
}

/// Tells how a new volume stands after each of the changes.
pub fn tell_changes(alloc: Global, letters: &str, told: &mut Told) {
    let Some(vol) = VolIx::new(4) else {
        return told.check(false);
    };
    match one_volume(alloc, vol, 8, 2) {
        Ok(mut space) => tell_letters(alloc, &mut space, vol, letters, told),
        Err(_) => told.check(false),
    }
}
