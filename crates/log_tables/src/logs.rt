//! Logs by plain numbers, on racks in memory, whose calls are made where their conditions hold.
ghost use Rattle.std.specs.Prelude.{◌≡◌, ◌+◌, ◌^◌, ◌<◌, [], IsTrue};
ghost use Rattle.log_recovery.specs.log_ring.Homes.{AreLoggable, HasMembers};
ghost use Rattle.log_recovery.specs.log_ring.Ring.{IsRing};
ghost use Rattle.file_pages.specs.meta_log.Log.{next_number};
ghost use Rattle.log_tables.specs.Calls.{HasMember, MayAppend, MayBringHome};
ghost use Rattle.log_tables.specs.Moves.{MayMoveTo};

use crate::answers::{Answer, answer_of};
use crate::changes::change_of;
use crate::counting::CountRack;
use file_pages::{LogFull, MetaLog};
use log_recovery::limits::{LOG_PAGES, MAX_VOLUME_PAGES_4, MAX_VOLUMES};
use log_recovery::{Anchor, Change, Member, PageImage, Rack, VolIx, is_loggable, is_whole};
use std::alloc::Global;

pub const NONE: Member = Member { pages: 0, state: 0 };

// What the calls ask for.

fn are_loggable(anchor: &Anchor, images: &[PageImage]) -> bool
    ensures { IsTrue result → AreLoggable anchor.now images.now }
{
    for image in images {
        if !is_loggable(anchor, &image.home) {
            return false;
        }
    }
    true
}

pub fn has_number_left(log: &MetaLog) -> bool
    ensures { IsTrue result → next_number log.now + 1 < 2 ^ 63 }
{
    match log.last_durable() {
        Some(number) => number < 1 << 60,
        None => true,
    }
}

pub fn may_append(log: &MetaLog, change: &Change) -> bool
    ensures { IsTrue result → MayAppend log.now change.now }
{
    has_number_left(log) && !change.is_empty() && are_loggable(log.anchor(), change.images())
}

pub fn has_ring<R: Rack>(rack: &R, anchor: &Anchor) -> bool
    ensures { IsTrue result → IsRing (R.disk rack.now).sizes anchor.now }
{
    let Some(vol) = VolIx::new(anchor.log_vol) else {
        return false;
    };
    let end = u64::from(anchor.log_page) + u64::from(LOG_PAGES);
    vol.number() <= rack.volumes()
        && 2 <= anchor.log_page
        && end <= u64::from(rack.pages(vol))
        && end <= u64::from(MAX_VOLUME_PAGES_4)
}

fn has_member<R: Rack>(rack: &R, anchor: &Anchor, vol: VolIx) -> bool
    ensures { IsTrue result → HasMember (R.disk rack.now).sizes anchor.now vol }
{
    let member = anchor.members[vol.index()];
    let is_none = member.state < 1 || member.state > 2;
    let fits = member.pages <= rack.pages(vol) && member.pages <= MAX_VOLUME_PAGES_4;
    is_none || (vol.number() <= rack.volumes() && fits)
}

pub fn has_members<R: Rack>(rack: &R, anchor: &Anchor) -> bool
    ensures { IsTrue result → HasMembers (R.disk rack.now).sizes anchor.now }
{
    for number in 1..MAX_VOLUMES + 1 {
        let Some(vol) = VolIx::new(number) else {
            return false;
        };
        if !has_member(rack, anchor, vol) {
            return false;
        }
    }
    true
}

fn may_bring_home<R: Rack>(log: &MetaLog, rack: &R) -> bool
    ensures { IsTrue result → MayBringHome (R.disk rack.now) log.now log.now.anchor }
{
    // called to learn what holds of every log
    let _room = log.room();
    let anchor = log.anchor();
    !log.is_pending()
        && anchor.number < 1 << 60
        && is_whole(anchor)
        && has_ring(rack, anchor)
        && has_members(rack, anchor)
}

// Calls.

/// Appends a change.
fn append_change(log: &mut MetaLog, change: &Change) -> Answer {
    if !may_append(log, change) {
        return Answer::Unfit;
    }
    match log.append(change) {
        Ok(number) => Answer::Group(number),
        Err(LogFull) => Answer::Full,
    }
}

/// Appends pages of a volume that are full of a byte: pages and bytes by turns.
pub fn append(log: &mut MetaLog, alloc: Global, vol: u32, pairs: &[u64]) -> Answer {
    match change_of(alloc, vol, pairs) {
        Some(change) => append_change(log, &change),
        None => Answer::NoMemory,
    }
}

/// Forces a log: the number of the last durable group.
pub fn force(log: &mut MetaLog, rack: &mut CountRack) -> Answer {
    if !has_ring(rack, log.anchor()) {
        return Answer::Unfit;
    }
    answer_of(log.force(rack))
}

/// Brings a log home on its ring: the number of the anchor.
pub fn bring_home(log: &mut MetaLog, rack: &mut CountRack) -> Answer {
    if !may_bring_home(log, rack) {
        return Answer::Unfit;
    }
    let anchor = *log.anchor();
    answer_of(log.checkpoint(rack, &anchor))
}

/// The log's anchor with volume 3 as one more member, of so many pages, and the log on it.
pub fn moved(old: &Anchor, pages: u32) -> Anchor {
    let [first, second, _third, ..] = old.members;
    let open = Member { pages, state: 1 };
    Anchor {
        log_vol: 3,
        members: [first, second, open, NONE, NONE, NONE, NONE, NONE],
        ..*old
    }
}

/// Whether a log may be brought home for an anchor whose log is on a volume that was no member.
fn may_move<R: Rack>(log: &MetaLog, rack: &R, anchor: &Anchor) -> bool
    ensures { IsTrue result → MayBringHome (R.disk rack.now) log.now anchor.now }
{
    // called to learn what holds of every log
    let _room = log.room();
    let Some(vol) = VolIx::new(anchor.log_vol) else {
        return false;
    };
    let was = log.anchor().members[vol.index()];
    was.state == 0
        && !log.is_pending()
        && log.anchor().number < 1 << 60
        && is_whole(anchor)
        && has_ring(rack, anchor)
        && has_members(rack, log.anchor())
}

/// Whether a log may be moved to the volume of an anchor by the calls that leave what recovery
/// takes.
pub fn may_move_to<R: Rack>(log: &MetaLog, rack: &R, anchor: &Anchor) -> bool
    ensures { IsTrue result → MayMoveTo (R.disk rack.now).sizes log.now anchor.now }
{
    anchor.log_vol != log.anchor().log_vol
        && anchor.log_pages == LOG_PAGES
        && log.anchor().number < 1 << 60
        && is_whole(anchor)
        && has_ring(rack, anchor)
        && has_members(rack, anchor)
}

/// Brings a log home and moves it to volume 3: the number of the anchor.
pub fn move_home(log: &mut MetaLog, rack: &mut CountRack, pages: u32) -> Answer {
    let anchor = moved(log.anchor(), pages);
    if !may_move(log, rack, &anchor) {
        return Answer::Unfit;
    }
    answer_of(log.checkpoint(rack, &anchor))
}

/// Moves a log without groups to a ring at another page of its volume: the number of the anchor.
fn move_empty(log: &mut MetaLog, rack: &mut CountRack, page: u32) -> Answer
    requires empty { log.old.logged ≡ [] }
    requires forced { log.old.pending ≡ [] }
{
    let anchor = Anchor {
        log_page: page,
        ..*log.anchor()
    };
    if anchor.number >= 1 << 60
        || !is_whole(&anchor)
        || !has_ring(rack, &anchor)
        || !has_members(rack, log.anchor())
    {
        return Answer::Unfit;
    }
    answer_of(log.checkpoint(rack, &anchor))
}

/// Begins a log anew after this one, which is home, and moves it to a ring at another page of its
/// volume: the number of the anchor.
pub fn move_ring(log: &mut MetaLog, rack: &mut CountRack, alloc: Global, page: u32) -> Answer {
    // called to learn what holds of every log
    let _room = log.room();
    match MetaLog::new(alloc, log.anchor()) {
        Ok(mut moving) => {
            let answer = move_empty(&mut moving, rack, page);
            *log = moving;
            answer
        }
        Err(_) => Answer::NoMemory,
    }
}
