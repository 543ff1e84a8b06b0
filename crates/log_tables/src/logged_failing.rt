//! Each call of a rack with its log that fails in turn.

use crate::answers::{Answer, is_done, volume_of};
use crate::counting::CountRack;
use crate::failing::{FOLD, is_named};
use crate::logged::{append, checkpoint, force, logged, sync_written, write_home};
use crate::racks::SIZES;
use crate::reading::Filled;
use crate::seen::{Seen, leaves};
use crate::stops::{lasts, settles_again};
use file_pages::LoggedRack;
use log_recovery::Rack;
use std::alloc::Global;

/// What is seen at first, and once each step is done: a group of two pages and one of two more,
/// pages in place, and all of it at home.
static STAGES: [Seen; 5] = [
    Seen {
        groups: 0,
        bytes: [0, 0, 0],
    },
    Seen {
        groups: 1,
        bytes: [1, 2, 0],
    },
    Seen {
        groups: 2,
        bytes: [1, 3, 4],
    },
    Seen {
        groups: 2,
        bytes: [1, 3, 4],
    },
    Seen {
        groups: 0,
        bytes: [1, 3, 4],
    },
];

/// Pages of both volumes that are written in place.
static IN_PLACE: [Filled; 2] = [
    Filled {
        vol: 1,
        page: 140,
        byte: 7,
    },
    Filled {
        vol: 2,
        page: 40,
        byte: 7,
    },
];

/// Logs two pages of volume 2, pages and bytes by turns, as one group.
fn log_two(rack: &mut LoggedRack<CountRack>, alloc: Global, pairs: &[u64]) -> Answer {
    let _ = append(rack, alloc, pairs);
    force(rack)
}

/// Writes a page of each volume in place, and syncs both.
fn write_two(rack: &mut LoggedRack<CountRack>, alloc: Global) -> Answer {
    for filled in IN_PLACE.iter() {
        let answer = write_home(rack, alloc, filled);
        if !is_done(answer) {
            return answer;
        }
    }
    sync_written(rack)
}

/// Makes the four steps up to the first call that fails: how many passed, and the volume of the
/// failed call, 0 if none failed.
fn run_until_fault(rack: &mut LoggedRack<CountRack>, alloc: Global) -> (usize, u32) {
    for number in 0..4 {
        let answer = match number {
            0 => log_two(rack, alloc, &[10, 1, 11, 2]),
            1 => log_two(rack, alloc, &[11, 3, 12, 4]),
            2 => write_two(rack, alloc),
            _ => checkpoint(rack),
        };
        if !is_done(answer) {
            return (number, volume_of(answer));
        }
    }
    (4, 0)
}

/// The volume that has failed, 0 if none has.
pub fn failed(rack: &LoggedRack<CountRack>) -> u32 {
    match rack.failed() {
        Some(vol) => vol.number(),
        None => 0,
    }
}

/// Whether stops after the last call leave so many of the pages in place, from the first on.
fn in_place_lasts(rack: &CountRack, alloc: Global, count: usize) -> bool {
    let mut all = true;
    for filled in &IN_PLACE[..count.min(2)] {
        all = all && lasts((0, 8), rack, alloc, rack.calls(), 0, filled);
    }
    all
}

/// How many of the pages in place are synced: both after the step that syncs them, and the first
/// once that has come to the sync of the second.
fn synced_after(rack: &CountRack, done: usize) -> usize {
    let [_, of_second] = rack.counts.syncs;
    if done > 2 {
        2
    } else if done == 2 && of_second > 0 {
        1
    } else {
        0
    }
}

/// Whether what is left after the last call is what was done, or one step more, the log may be
/// settled then, and pages in place that were synced have their bytes.
fn is_left_well(rack: &CountRack, alloc: Global, done: usize) -> bool {
    if done > 3 {
        return false;
    }
    let end = rack.calls();
    let last = (end, end.saturating_add(1));
    let allowed = (STAGES[done], STAGES[done + 1]);
    let count = synced_after(rack, done);
    let synced = if count > 0 { Some(IN_PLACE[0]) } else { None };
    leaves((0, 8), rack, alloc, last, allowed)
        && settles_again(2, rack, alloc, last, allowed, synced)
        && in_place_lasts(rack, alloc, count)
}

/// Whether the failed call is named by its volume, also by the rack, and what is left then is what
/// it is to be.
fn fails_well(rack: &mut LoggedRack<CountRack>, alloc: Global) -> bool {
    let (done, vol) = run_until_fault(rack, alloc);
    failed(rack) == vol && is_named(rack.rack(), vol) && is_left_well(rack.rack(), alloc, done)
}

/// Whether that is so of each call from one on and up to another.
fn each_fails_well(alloc: Global, start: u64, end: u64) -> bool {
    let mut all = true;
    for call in start..end {
        let is_well = match logged(alloc, &SIZES, FOLD, 126, &[call.saturating_add(1)]) {
            Some(mut rack) => fails_well(&mut rack, alloc),
            None => false,
        };
        all = all && is_well;
    }
    all
}

/// How many calls the four steps take, and whether each of them is told when it fails.
pub fn each_logged_call_fails(alloc: Global) -> (u64, bool) {
    match logged(alloc, &SIZES, FOLD, 126, &[]) {
        Some(mut rack) => {
            let start = rack.rack().calls();
            let passed = run_until_fault(&mut rack, alloc) == (4, 0);
            let end = rack.rack().calls();
            let all = passed && each_fails_well(alloc, start, end);
            (end.saturating_sub(start), all)
        }
        None => (0, false),
    }
}
