//! A rack with its log, by plain numbers: pages of a store are logged, and others are read and
//! written in place. Its calls are made if their conditions hold, so none once one has failed.
ghost use Rattle.std.specs.Prelude.{◌≡◌, IsTrue, None};
ghost use Rattle.log_recovery.specs.log_ring.Homes.{IsHomeOf};

use crate::answers::Answer;
use crate::changes::full_page;
use crate::counting::CountRack;
use crate::logs::{has_members, has_number_left, has_ring};
use crate::racks::started;
use crate::reading::{Filled, home_at};
use crate::seen::full_of;
use crate::stores::{are_distinct, has_all, may_be_logged, set_homes, store_of};
use file_pages::LoggedRack;
use log_recovery::limits::MAX_VOLUME_PAGES_4;
use log_recovery::{Home, MetaPages, Page, Rack, VolIx, is_loggable, is_whole};
use std::alloc::Global;

/// A rack with its log, on volumes of these sizes, of which each page in memory holds `fold`, whose
/// log begins at a place and on which these calls fail. None if the log does not lie in it, or
/// memory ran out.
pub fn logged(
    alloc: Global,
    sizes: &[u32; 3],
    fold: u32,
    start: u32,
    fails: &[u64],
) -> Option<LoggedRack<CountRack>> {
    match started(alloc, sizes, fold, start, fails) {
        Some((rack, log)) => {
            if has_ring(&rack, log.anchor()) && has_members(&rack, log.anchor()) {
                Some(LoggedRack::new(rack, log))
            } else {
                None
            }
        }
        None => None,
    }
}

/// How many calls such a rack has made at first.
fn calls_at_first(alloc: Global, sizes: &[u32; 3], fold: u32, start: u32) -> u64 {
    match logged(alloc, sizes, fold, start, &[]) {
        Some(rack) => rack.rack().calls(),
        None => 0,
    }
}

/// Such a rack, of which the call of that number fails, counted from 1 and from now on.
pub fn logged_with_fault(
    alloc: Global,
    sizes: &[u32; 3],
    fold: u32,
    start: u32,
    number: u64,
) -> Option<LoggedRack<CountRack>> {
    let call = calls_at_first(alloc, sizes, fold, start).saturating_add(number);
    logged(alloc, sizes, fold, start, &[call])
}

/// Whether no call has failed.
pub fn has_passed(rack: &LoggedRack<CountRack>) -> bool
    ensures { IsTrue result → rack.now.failed ≡ None }
{
    match rack.failed() {
        Some(_) => false,
        None => true,
    }
}

/// Appends the pages that stand at homes in a store.
fn append_at<M: MetaPages>(rack: &mut LoggedRack<CountRack>, store: &M, homes: &[Home]) -> Answer {
    if !has_passed(rack) || homes.is_empty() || homes.len() > 32 || !are_distinct(homes) {
        return Answer::Unfit;
    }
    let may = may_be_logged(rack.log().anchor(), homes) && has_number_left(rack.log());
    if !may || !has_all(store, homes) {
        return Answer::Unfit;
    }
    if !rack.takes(homes) {
        return Answer::Full;
    }
    Answer::Group(rack.append(store, homes))
}

/// Appends pages of volume 2 of a store that are full of bytes, pages and bytes by turns, 32 at
/// most.
pub fn append(rack: &mut LoggedRack<CountRack>, alloc: Global, pairs: &[u64]) -> Answer {
    let Some(vol) = VolIx::new(2) else {
        return Answer::Unfit;
    };
    let mut homes = [Home { vol, page: 0 }; 32];
    set_homes(&mut homes, vol, pairs);
    let count = (pairs.len() / 2).min(32);
    match store_of(alloc, pairs) {
        Some(store) => append_at(rack, &store, &homes[..count]),
        None => Answer::NoMemory,
    }
}

/// Whether the log takes a change of these pages of volume 2: pages and bytes by turns, 32 at most.
pub fn takes(rack: &LoggedRack<CountRack>, pairs: &[u64]) -> bool {
    let Some(vol) = VolIx::new(2) else {
        return false;
    };
    let mut homes = [Home { vol, page: 0 }; 32];
    set_homes(&mut homes, vol, pairs);
    let homes = &homes[..(pairs.len() / 2).min(32)];
    are_distinct(homes) && rack.takes(homes)
}

/// Forces the log: the number of the last durable group.
pub fn force(rack: &mut LoggedRack<CountRack>) -> Answer {
    if !has_passed(rack) {
        return Answer::Unfit;
    }
    match rack.force() {
        Ok(number) => Answer::Done(number),
        Err(vol) => Answer::Failed(vol.number()),
    }
}

/// Brings the log home: the number of the anchor.
pub fn checkpoint(rack: &mut LoggedRack<CountRack>) -> Answer {
    let log = rack.log();
    let anchor = log.anchor();
    if !has_passed(rack) || log.is_pending() || anchor.number >= 1 << 60 || !is_whole(anchor) {
        return Answer::Unfit;
    }
    match rack.checkpoint() {
        Ok(number) => Answer::Done(number),
        Err(vol) => Answer::Failed(vol.number()),
    }
}

/// Whether a page of the rack stands at a home.
pub fn is_home<R: Rack>(rack: &R, home: &Home) -> bool
    ensures { IsTrue result → IsHomeOf (R.disk rack.now).sizes home.now }
{
    home.vol.number() <= rack.volumes()
        && 2 <= home.page
        && home.page < rack.pages(home.vol)
        && home.page < MAX_VOLUME_PAGES_4
}

/// Reads a page into one that is given.
fn read_into(rack: &mut LoggedRack<CountRack>, home: &Home, page: &mut Page) -> Answer {
    if !has_passed(rack) || !is_home(rack.rack(), home) {
        return Answer::Unfit;
    }
    match rack.read_home(*home, page) {
        Ok(()) => Answer::Done(0),
        Err(vol) => Answer::Failed(vol.number()),
    }
}

/// Reads a page: the byte that it is full of, 255 if it is not full of a byte. A read that fails
/// leaves 9 there, of which the page is full before.
pub fn read_home(rack: &mut LoggedRack<CountRack>, alloc: Global, home: &Home) -> (Answer, u8) {
    match full_page(alloc, 9) {
        Some(mut page) => {
            let answer = read_into(rack, home, &mut page);
            (answer, full_of(page.bytes()))
        }
        None => (Answer::NoMemory, 0),
    }
}

/// Writes a page in place, if the log has no image of it.
fn write_page(rack: &mut LoggedRack<CountRack>, home: &Home, page: &Page) -> Answer {
    if !has_passed(rack) || !is_loggable(rack.log().anchor(), home) || rack.has_image(*home) {
        return Answer::Unfit;
    }
    match rack.write_home(*home, page) {
        Ok(()) => Answer::Done(0),
        Err(vol) => Answer::Failed(vol.number()),
    }
}

/// Writes a page full of a byte in place.
pub fn write_home(rack: &mut LoggedRack<CountRack>, alloc: Global, filled: &Filled) -> Answer {
    match (
        full_page(alloc, filled.byte),
        home_at(filled.vol, filled.page),
    ) {
        (Some(page), Some(home)) => write_page(rack, &home, &page),
        _ => Answer::Unfit,
    }
}

/// Syncs the volumes that were written.
pub fn sync_written(rack: &mut LoggedRack<CountRack>) -> Answer {
    if !has_passed(rack) {
        return Answer::Unfit;
    }
    match rack.sync_written() {
        Ok(()) => Answer::Done(0),
        Err(vol) => Answer::Failed(vol.number()),
    }
}
