//! Each call of an order that fails in turn, and a second stop after each call of a first run.

use crate::answers::{Answer, is_done, volume_of};
use crate::counting::CountRack;
use crate::logs::{append, bring_home, force};
use crate::racks::{SIZES, put_group, started};
use crate::seen::{Seen, faults_of, leaves};
use crate::settling::{make_ready, recover_and_settle};
use crate::stops::settles_again;
use file_pages::MetaLog;
use log_recovery::{Rack, RecoverFault, VolIx, recover};
use std::alloc::Global;

/// Three groups that are written by hand, the first of which begins at place 126, so that the log
/// wraps: of each its place, its number, the byte of its first image, and the volumes and pages of
/// its images.
static BY_HAND: [&[u64]; 3] = [
    &[126, 9, 1, 2, 10],
    &[128, 10, 2, 2, 11, 2, 10],
    &[131, 11, 4, 1, 147, 2, 12],
];

/// What is seen of them, and the same once they are home.
const REDONE: Seen = Seen {
    groups: 3,
    bytes: [3, 2, 5],
};

const REDONE_AT_HOME: Seen = Seen {
    groups: 0,
    bytes: [3, 2, 5],
};

/// How many pages of volumes share one in memory, if stops are many.
pub const FOLD: u32 = 5;

/// A rack with the three groups, on which these calls fail, and whose volumes are folded so often.
pub fn by_hand(alloc: Global, fold: u32, fails: &[u64]) -> Option<CountRack> {
    match started(alloc, &SIZES, fold, 126, fails) {
        Some((mut rack, _log)) => {
            for group in BY_HAND.iter() {
                put_group(&mut rack, group);
            }
            Some(rack)
        }
        None => None,
    }
}

/// The last call of a rack, and the one after it.
fn last_of(rack: &CountRack) -> (u64, u64) {
    let end = rack.calls();
    (end, end.saturating_add(1))
}

/// Whether the failed call is told of the volume that was named, and of no other.
pub fn is_named(rack: &CountRack, vol: u32) -> bool {
    faults_of(rack, vol) == 1 && faults_of(rack, 3 - vol.clamp(1, 2)) == 0
}

// Recovery.

/// The volume of which a read failed, 0 if another fault was found.
fn volume_of_fault(fault: &RecoverFault) -> u32 {
    match fault {
        RecoverFault::Fault { vol } => vol.number(),
        _ => 0,
    }
}

/// The volume of which a read failed in recovery, 0 if none did.
fn unread(rack: &mut CountRack, alloc: Global) -> u32 {
    match recover(alloc, rack) {
        Ok(_redone) => 0,
        Err(fault) => volume_of_fault(&fault),
    }
}

/// Whether a read that fails in recovery is named by its volume.
fn read_is_named(rack: &mut CountRack, alloc: Global) -> bool {
    match VolIx::new(unread(rack, alloc)) {
        Some(vol) => rack.read_faults(vol) == 1,
        None => false,
    }
}

/// Whether each read that fails in recovery is named by its volume, from a call on and up to
/// another.
fn reads_are_named(alloc: Global, start: u64, end: u64) -> bool {
    let mut all = true;
    for call in start..end {
        let is_well = match by_hand(alloc, FOLD, &[call.saturating_add(1)]) {
            Some(mut rack) => read_is_named(&mut rack, alloc),
            None => false,
        };
        all = all && is_well;
    }
    all
}

/// Whether each read that fails in recovery is named by its volume.
pub fn each_read_fails(alloc: Global) -> bool {
    match by_hand(alloc, FOLD, &[]) {
        Some(mut rack) => {
            let start = rack.calls();
            unread(&mut rack, alloc) == 0 && reads_are_named(alloc, start, rack.calls())
        }
        None => false,
    }
}

// Settling.

/// Whether a call of making slots ready that fails is answered as one, and stops then leave what
/// was there.
fn fails_unready(rack: &mut CountRack, alloc: Global) -> bool {
    let start = rack.calls();
    let is_ready = make_ready(rack);
    let end = rack.calls().saturating_add(1);
    !is_ready && leaves((0, 8), rack, alloc, (start, end), (REDONE, REDONE))
}

/// Whether that is so of each call from one on and up to another.
fn each_fails_unready(alloc: Global, start: u64, end: u64) -> bool {
    let mut all = true;
    for call in start..end {
        let is_well = match by_hand(alloc, FOLD, &[call.saturating_add(1)]) {
            Some(mut rack) => fails_unready(&mut rack, alloc),
            None => false,
        };
        all = all && is_well;
    }
    all
}

/// How many calls make both slots ready, and whether each of them is told when it fails.
pub fn each_ready_call_fails(alloc: Global) -> (u64, bool) {
    match by_hand(alloc, FOLD, &[]) {
        Some(mut rack) => {
            let start = rack.calls();
            let is_ready = make_ready(&mut rack);
            let end = rack.calls();
            let all = is_ready && each_fails_unready(alloc, start, end);
            (end.saturating_sub(start), all)
        }
        None => (0, false),
    }
}

/// Whether a write or a sync of settling that fails is named by its volume, what is left then means
/// the same, and the log may be settled again.
fn settling_fails_well(rack: &mut CountRack, alloc: Global) -> bool {
    let is_ready = make_ready(rack);
    let answer = recover_and_settle(rack, alloc);
    let allowed = (REDONE, REDONE_AT_HOME);
    let is_left = leaves((0, 8), rack, alloc, last_of(rack), allowed);
    let named = is_named(rack, volume_of(answer));
    let is_home = make_ready(rack) && is_done(recover_and_settle(rack, alloc));
    [is_ready, is_left, named, is_home] == [true; 4]
}

/// Whether that is so of each call from one on and up to another.
fn each_settling_fails_well(alloc: Global, start: u64, end: u64) -> bool {
    let mut all = true;
    for call in start..end {
        let is_well = match by_hand(alloc, FOLD, &[call.saturating_add(1)]) {
            Some(mut rack) => settling_fails_well(&mut rack, alloc),
            None => false,
        };
        all = all && is_well;
    }
    all
}

/// Whether each of the last twelve calls of settling is told when it fails.
pub fn each_settling_call_fails(alloc: Global) -> bool {
    match by_hand(alloc, FOLD, &[]) {
        Some(mut rack) => {
            let is_home = make_ready(&mut rack) && is_done(recover_and_settle(&mut rack, alloc));
            let end = rack.calls();
            is_home && each_settling_fails_well(alloc, end.saturating_sub(12), end)
        }
        None => false,
    }
}

/// Whether, after a stop at each write and sync of settling, a log is settled again, and what stops
/// leave then means the same.
pub fn second_stops(alloc: Global) -> bool {
    match by_hand(alloc, FOLD, &[]) {
        Some(mut rack) => {
            let is_ready = make_ready(&mut rack);
            let first = rack.calls();
            let is_home = is_done(recover_and_settle(&mut rack, alloc));
            let calls = (first, rack.calls());
            let allowed = (REDONE, REDONE_AT_HOME);
            is_ready && is_home && settles_again(4, &rack, alloc, calls, allowed, None)
        }
        None => false,
    }
}

// Forces.

/// Three groups of pages of volume 2: pages and bytes by turns.
static GROUPS: [&[u64]; 3] = [&[10, 1, 11, 2], &[11, 3, 12, 4], &[10, 5]];

/// What is seen once so many of them are durable, and once they are home.
static STAGES: [Seen; 5] = [
    Seen {
        groups: 0,
        bytes: [0, 0, 0],
    },
    Seen {
        groups: 1,
        bytes: [1, 2, 0],
    },
    Seen {
        groups: 2,
        bytes: [1, 3, 4],
    },
    Seen {
        groups: 3,
        bytes: [5, 3, 4],
    },
    Seen {
        groups: 0,
        bytes: [5, 3, 4],
    },
];

/// Appends and forces a group, or brings all of them home.
fn step(rack: &mut CountRack, log: &mut MetaLog, alloc: Global, number: usize) -> Answer {
    if number >= 3 {
        return bring_home(log, rack);
    }
    let _ = append(log, alloc, 2, GROUPS[number]);
    force(log, rack)
}

/// Makes the four steps up to the first call that fails: how many passed, and the volume of the
/// failed call, 0 if none failed.
fn run_until_fault(rack: &mut CountRack, log: &mut MetaLog, alloc: Global) -> (usize, u32) {
    for number in 0..4 {
        let answer = step(rack, log, alloc, number);
        if !is_done(answer) {
            return (number, volume_of(answer));
        }
    }
    (4, 0)
}

/// Whether the failed call is named by its volume, and what is left then is what was answered, or
/// one group more, or all of it at home.
fn forces_fail_well(rack: &mut CountRack, log: &mut MetaLog, alloc: Global) -> bool {
    let (done, vol) = run_until_fault(rack, log, alloc);
    if done > 3 {
        return false;
    }
    let allowed = (STAGES[done], STAGES[done + 1]);
    is_named(rack, vol)
        && leaves((0, 8), rack, alloc, last_of(rack), allowed)
        && settles_again(2, rack, alloc, last_of(rack), allowed, None)
}

/// Whether that is so of each call from one on and up to another.
fn each_force_fails_well(alloc: Global, start: u64, end: u64) -> bool {
    let mut all = true;
    for call in start..end {
        let is_well = match started(alloc, &SIZES, FOLD, 126, &[call.saturating_add(1)]) {
            Some((mut rack, mut log)) => forces_fail_well(&mut rack, &mut log, alloc),
            None => false,
        };
        all = all && is_well;
    }
    all
}

/// How many calls three forces and bringing them home take, and whether each of them is told when
/// it fails.
pub fn each_force_call_fails(alloc: Global) -> (u64, bool) {
    match started(alloc, &SIZES, FOLD, 126, &[]) {
        Some((mut rack, mut log)) => {
            let start = rack.calls();
            let passed = run_until_fault(&mut rack, &mut log, alloc) == (4, 0);
            let end = rack.calls();
            let all = passed && each_force_fails_well(alloc, start, end);
            (end.saturating_sub(start), all)
        }
        None => (0, false),
    }
}
