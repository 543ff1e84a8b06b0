//! What stops leave of pages in place, and of a log that is settled after a stop.

use crate::answers::is_done;
use crate::counting::CountRack;
use crate::reading::Filled;
use crate::seen::{Seen, byte_on, leaves, look_at};
use crate::settling::{make_ready, recover_and_settle};
use log_recovery::{Rack, VolIx};
use std::alloc::Global;

/// Whether a stop right after a call leaves fewer groups than these, or a page that is full of its
/// byte.
fn leaves_it(
    rack: &CountRack,
    alloc: Global,
    stop: (u64, u64),
    groups: u64,
    filled: &Filled,
) -> bool {
    let Some(vol) = VolIx::new(filled.vol) else {
        return false;
    };
    match rack.image(alloc, stop.0, stop.1) {
        Some(mut image) => {
            let found = look_at(&mut image, alloc).groups;
            found < groups || byte_on(&mut image, vol, filled.page) == filled.byte
        }
        None => false,
    }
}

/// Whether each stop from a call on, by such picks, that leaves so many groups leaves a page
/// full of its byte.
pub fn lasts(
    picks: (u64, u64),
    rack: &CountRack,
    alloc: Global,
    start: u64,
    groups: u64,
    filled: &Filled,
) -> bool {
    let mut all = true;
    for call in start..rack.calls().saturating_add(1) {
        let is_new = call == start || rack.is_change(call);
        for pick in picks.0..picks.1 {
            all = all && (!is_new || leaves_it(rack, alloc, (call, pick), groups, filled));
        }
    }
    all
}

/// Makes slots ready and settles the log: whether that passes, stops meanwhile by two picks leave
/// one of two, and stops after that leave the second.
fn settles(rack: &mut CountRack, alloc: Global, allowed: (Seen, Seen)) -> bool {
    let start = rack.calls();
    let done = make_ready(rack) && is_done(recover_and_settle(rack, alloc));
    let end = rack.calls();
    let last = (end, end.saturating_add(1));
    done && leaves((1, 3), rack, alloc, (start, end), allowed)
        && leaves((1, 3), rack, alloc, last, (allowed.1, allowed.1))
}

/// Whether one of two is seen on a rack that starts again, its log is settled, and stops meanwhile
/// leave what was seen and a page in place, if there is one that was synced.
fn settles_from(
    rack: &mut CountRack,
    alloc: Global,
    allowed: &(Seen, Seen),
    filled: Option<Filled>,
) -> bool {
    let was = look_at(rack, alloc);
    let home = Seen { groups: 0, ..was };
    let is_settled = settles(rack, alloc, (was, home));
    let is_left = match filled {
        Some(filled) => lasts((1, 3), rack, alloc, 0, 0, &filled),
        None => true,
    };
    (was == allowed.0 || was == allowed.1) && is_settled && is_left
}

/// Whether that is so after a stop right after a call.
fn settles_after(
    rack: &CountRack,
    alloc: Global,
    stop: (u64, u64),
    allowed: &(Seen, Seen),
    filled: Option<Filled>,
) -> bool {
    match rack.image(alloc, stop.0, stop.1) {
        Some(mut image) => settles_from(&mut image, alloc, allowed, filled),
        None => false,
    }
}

/// Whether that is so after a stop right after the first of these calls, and after each write and
/// sync from there on, by so many picks.
pub fn settles_again(
    picks: u64,
    rack: &CountRack,
    alloc: Global,
    calls: (u64, u64),
    allowed: (Seen, Seen),
    filled: Option<Filled>,
) -> bool {
    let mut all = true;
    for call in calls.0..calls.1 {
        let is_new = call == calls.0 || rack.is_change(call);
        for pick in 0..picks {
            all = all && (!is_new || settles_after(rack, alloc, (call, pick), &allowed, filled));
        }
    }
    all
}
