//! Pages in place in frames, over a rack with its log, by plain numbers. Calls are made if their
//! conditions hold.
ghost use Rattle.std.specs.Prelude.{IsSome, IsTrue};
ghost use Rattle.file_pages.specs.InPlace.{IsDurable};
ghost use Rattle.file_pages.specs.page_cache.Cache.{frames_of};
ghost use Rattle.file_pages.specs.page_cache.Frames.{groups};

use crate::answers::{Answer, is_done};
use crate::changes::full_page;
use crate::counting::CountRack;
use crate::logged::{has_passed, is_home};
use crate::reading::{at, byte, home_at, small};
use crate::seen::full_of;
use file_pages::{FilePages, FrameFault, LoggedRack};
use log_recovery::{Home, Page, is_loggable};
use std::alloc::Global;

/// What bringing a page answers, by its fault.
fn answer_of(fault: &FrameFault) -> Answer {
    match fault {
        FrameFault::Read { vol } => Answer::Failed(vol.number()),
        FrameFault::OutOfMemory => Answer::NoMemory,
    }
}

/// Lends a page in place, for which it may have to be read.
pub fn bring(
    held: &mut FilePages,
    rack: &mut LoggedRack<CountRack>,
    alloc: Global,
    home: &Home,
) -> Answer {
    if !has_passed(rack) || !is_home(rack.rack(), home) || rack.has_image(*home) {
        return Answer::Unfit;
    }
    if !held.is_lent(*home) && held.lent() >= 4 {
        return Answer::Unfit;
    }
    if !held.is_kept(*home) && held.dirty() > 1_020 {
        return Answer::Unfit;
    }
    match held.bring(rack, alloc, *home) {
        Ok(()) => Answer::Done(0),
        Err(fault) => answer_of(&fault),
    }
}

/// Lends a page that has a frame.
pub fn lend(held: &mut FilePages, home: &Home) -> Answer {
    if !held.is_kept(*home) || (!held.is_lent(*home) && held.lent() >= 4) {
        return Answer::Unfit;
    }
    held.lend(*home);
    Answer::Done(0)
}

/// Keeps a page for a home that has no frame, and lends it.
fn keep_page(held: &mut FilePages, home: &Home, page: Page) -> Answer {
    if held.is_kept(*home) || held.lent() >= 4 || held.dirty() > 1_020 {
        return Answer::Unfit;
    }
    match held.keep(*home, page) {
        Ok(()) => Answer::Done(0),
        Err(_) => Answer::NoMemory,
    }
}

/// Keeps a page that is full of a byte.
pub fn keep(held: &mut FilePages, alloc: Global, home: &Home, byte: u8) -> Answer {
    match full_page(alloc, byte) {
        Some(page) => keep_page(held, home, page),
        None => Answer::NoMemory,
    }
}

/// The byte that a lent page is full of.
pub fn lent_byte(held: &FilePages, home: &Home) -> Option<u64> {
    match held.get(*home) {
        Some(page) => Some(u64::from(full_of(page.bytes()))),
        None => None,
    }
}

/// Puts a page full of a byte into the frame of a home, to wait for a group.
pub fn put(held: &mut FilePages, alloc: Global, home: &Home, byte: u8, group: u64) -> Answer {
    if !held.is_kept(*home) {
        return Answer::Unfit;
    }
    match full_page(alloc, byte) {
        Some(page) => {
            held.put(*home, page, group);
            Answer::Done(0)
        }
        None => Answer::NoMemory,
    }
}

/// Whether the frame of a home is dirty, and its group durable.
fn is_due(held: &FilePages, rack: &LoggedRack<CountRack>, home: &Home) -> bool
    ensures dirty { IsTrue result → IsSome (groups (frames_of held.now.cache) home.now) }
    ensures due { IsTrue result
        → IsDurable (groups (frames_of held.now.cache) home.now) rack.now.log }
{
    match held.waits(*home) {
        Some(group) => {
            let log = rack.log();
            group < log.next_number() || (group == 0 && !log.is_pending())
        }
        None => false,
    }
}

/// Writes the frame of a home there, if its group is durable and the log has no image of the home.
pub fn flush(held: &mut FilePages, rack: &mut LoggedRack<CountRack>, home: &Home) -> Answer {
    if !has_passed(rack) || !is_due(held, rack, home) {
        return Answer::Unfit;
    }
    if !is_loggable(rack.log().anchor(), home) || rack.has_image(*home) {
        return Answer::Unfit;
    }
    match held.flush(rack, *home) {
        Ok(()) => Answer::Done(0),
        Err(vol) => Answer::Failed(vol.number()),
    }
}

/// Forgets the frame of a home, if its page is not lent: the byte that the page is full of.
pub fn drop_frame(held: &mut FilePages, home: &Home) -> Option<u64> {
    if !held.is_kept(*home) || held.is_lent(*home) {
        return None;
    }
    let page = held.drop_frame(*home);
    Some(u64::from(full_of(page.bytes())))
}

// Runs of pages of volume 1: the first page, and how many they are.

/// Keeps each of them, full of 1, and hands it back: how many are kept by that.
pub fn keep_run(held: &mut FilePages, alloc: Global, numbers: &[u64]) -> u64 {
    let mut count: u64 = 0;
    for k in 0..small(numbers, 1) {
        if let Some(home) = home_at(1, small(numbers, 0).saturating_add(k)) {
            if is_done(keep(held, alloc, &home, 1)) {
                count = count.saturating_add(1);
            }
        }
        held.hand_back();
    }
    count
}

/// Puts a byte into the frame of each of them, to wait for a group: how many are put.
pub fn put_run(held: &mut FilePages, alloc: Global, numbers: &[u64]) -> u64 {
    let mut count: u64 = 0;
    for k in 0..small(numbers, 1) {
        if let Some(home) = home_at(1, small(numbers, 0).saturating_add(k)) {
            if is_done(put(held, alloc, &home, byte(numbers, 2), at(numbers, 3))) {
                count = count.saturating_add(1);
            }
        }
    }
    count
}

/// Writes the frame of each of them home: how many are written.
pub fn flush_run(held: &mut FilePages, rack: &mut LoggedRack<CountRack>, numbers: &[u64]) -> u64 {
    let mut count: u64 = 0;
    for k in 0..small(numbers, 1) {
        if let Some(home) = home_at(1, small(numbers, 0).saturating_add(k)) {
            if is_done(flush(held, rack, &home)) {
                count = count.saturating_add(1);
            }
        }
    }
    count
}
