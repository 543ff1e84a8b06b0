//! The rack and the log that lines speak of, and the calls that each word names.

use crate::answers::{Answer, is_done, say_answer};
use crate::changes::{say_change, say_header, say_header_again, say_laid};
use crate::counting::{CountRack, NO_CALLS};
use crate::failing::{
    by_hand, each_force_call_fails, each_read_fails, each_ready_call_fails,
    each_settling_call_fails, second_stops,
};
use crate::frame_lines::answer_of_frames;
use crate::logged::{logged, logged_with_fault};
use crate::logged_failing::each_logged_call_fails;
use crate::logged_lines::{answer_of_logged, set_run};
use crate::logs::{append, bring_home, force, move_home, move_ring};
use crate::orders::{after_stop, moving};
use crate::racks::{SIZES, put_bytes_of, put_closed, put_group, put_header_of, put_label, started};
use crate::reading::{at, byte, filled_by, read_numbers, say_numbers, say_whether, small};
use crate::seen::{Seen, leaves, look_at};
use crate::settling::{
    has_no_number_left, make_ready, recover_and_settle, recovered, say_found, say_frame_faults,
    say_recovery_faults, say_settled, settle_whole,
};
use crate::stops::{lasts, settles_again};
use file_pages::{FilePages, LogFull, LoggedRack, MetaLog};
use log_recovery::{MemoryPages, Rack};
use std::alloc::Global;
use table_words::{Told, Words};

/// A rack and its log, or a rack that has its log with frames of its pages, the call at which an
/// order began, and pages in memory; and of the next rack the sizes of its volumes, how many of
/// their pages share one in memory, and which call fails, counted from the first on, 0 if none
/// does.
#[derive(Drop)]
pub struct Scene {
    rack: CountRack,
    log: MetaLog,
    logged: Option<LoggedRack<CountRack>>,
    held: FilePages,
    pages: MemoryPages,
    start: u64,
    sizes: [u32; 3],
    fold: u32,
    fails: u64,
}

impl Scene {
    /// A rack of volumes of 160 and 80 pages, whose log begins at place 0. None if memory ran out.
    pub fn new(alloc: Global) -> Option<Scene> {
        match (started(alloc, &SIZES, 1, 0, &[]), FilePages::new(alloc)) {
            (Some((rack, log)), Ok(held)) => Some(Scene {
                rack,
                log,
                logged: None,
                held,
                pages: MemoryPages::new(alloc),
                start: 0,
                sizes: SIZES,
                fold: 1,
                fails: 0,
            }),
            _ => None,
        }
    }

    /// Begins anew with a rack whose log begins at a place: whether memory sufficed.
    fn begin(&mut self, alloc: Global, place: u32) -> bool {
        let begun = started(alloc, &self.sizes, self.fold, place, &[]);
        self.sizes = SIZES;
        self.logged = None;
        match begun {
            Some((rack, log)) => {
                self.rack = rack;
                self.log = log;
                true
            }
            None => false,
        }
    }

    /// Takes frames anew: whether memory sufficed.
    fn take_frames(&mut self, alloc: Global) -> bool {
        match FilePages::new(alloc) {
            Ok(held) => {
                self.held = held;
                true
            }
            Err(_) => false,
        }
    }

    /// Begins anew with a rack that has its log, which begins at a place: whether it has.
    fn begin_logged(&mut self, alloc: Global, place: u32) -> bool {
        self.logged = if self.fails == 0 {
            logged(alloc, &self.sizes, self.fold, place, &[])
        } else {
            logged_with_fault(alloc, &self.sizes, self.fold, place, self.fails)
        };
        self.sizes = SIZES;
        self.fails = 0;
        self.take_frames(alloc) && self.logged.is_some()
    }

    /// The rack that was begun last.
    fn last_rack(&self) -> &CountRack {
        match &self.logged {
            Some(logged) => logged.rack(),
            None => &self.rack,
        }
    }

    /// How many calls it has made since the mark.
    fn calls_since(&self) -> u64 {
        self.last_rack().calls().saturating_sub(self.start)
    }

    /// The sizes of the volumes of the next rack.
    fn set_sizes(&mut self, numbers: &[u64]) {
        let sizes = [small(numbers, 0), small(numbers, 1), small(numbers, 2)];
        self.sizes = sizes;
    }
}

/// Answers a line, which is told as it stands: one that begins with # is a heading.
pub fn answer(alloc: Global, scene: &mut Scene, told: &mut Told, line: &str) {
    told.push(line);
    let mut words = Words::new(line);
    let word = words.until(' ');
    if word == "" || word == "#" {
        return;
    }
    let mut numbers = [0; 16];
    let count = read_numbers(&mut words, &mut numbers);
    told.check(words.is_right() && words.is_at_end());
    answer_of_racks(alloc, scene, told, word, &numbers[..count]);
}

/// Answers a line of racks.
fn answer_of_racks(alloc: Global, scene: &mut Scene, told: &mut Told, word: &str, numbers: &[u64]) {
    let first = small(numbers, 0);
    match word {
        "sizes" => scene.set_sizes(numbers),
        "fold" => scene.fold = first,
        "fails" => scene.fails = at(numbers, 0),
        "rack" => told.check(scene.begin(alloc, first)),
        "logged" => say_whether(told, &[scene.begin_logged(alloc, first)]),
        "count-anew" => scene.rack.counts = NO_CALLS,
        "counts" => say_counts(scene.last_rack(), told),
        "mark" => scene.start = scene.last_rack().calls(),
        "calls-since" => say_numbers(told, &[scene.calls_since()]),
        "during" => say_whether(told, &[during(alloc, scene, numbers)]),
        "after" => say_whether(told, &[after(alloc, scene, numbers)]),
        "lasts" => say_whether(told, &[lasts_by(alloc, scene, numbers)]),
        "stops-and-settling" => say_whether(told, &[stops(alloc, scene, numbers)]),
        _ => answer_of_calls(alloc, scene, told, word, numbers),
    }
}

/// Answers a line of the calls of a rack that has its log, or of another log.
fn answer_of_calls(alloc: Global, scene: &mut Scene, told: &mut Told, word: &str, numbers: &[u64]) {
    let is_answered = match &mut scene.logged {
        Some(rack) => {
            answer_of_logged(alloc, rack, told, word, numbers)
                || answer_of_frames(alloc, &mut scene.held, rack, told, word, numbers)
        }
        None => false,
    };
    if !is_answered {
        answer_of_logs(alloc, scene, told, word, numbers);
    }
}

/// How often a rack was called: writes of more than a block, writes of a block, and syncs of
/// volumes 1 and 2.
fn say_counts(rack: &CountRack, told: &mut Told) {
    let counts = rack.counts;
    let [first, second] = counts.syncs;
    let (pages, gates) = (u64::from(counts.pages), u64::from(counts.gates));
    say_numbers(told, &[pages, gates, u64::from(first), u64::from(second)]);
}

// What stops leave.

/// What is seen, by four numbers from a place on: how many groups, and the bytes of three pages.
fn seen_by(numbers: &[u64], from: usize) -> Seen {
    let from = from.min(8);
    Seen {
        groups: at(numbers, from),
        bytes: [
            byte(numbers, from + 1),
            byte(numbers, from + 2),
            byte(numbers, from + 3),
        ],
    }
}

/// Whether stops since the mark, before the last call, leave one of two, by eight picks.
fn during(alloc: Global, scene: &Scene, numbers: &[u64]) -> bool {
    let rack = scene.last_rack();
    let calls = (scene.start, rack.calls());
    let allowed = (seen_by(numbers, 0), seen_by(numbers, 4));
    leaves((0, 8), rack, alloc, calls, allowed)
}

/// Whether stops right after the last call leave this, by eight picks.
fn after(alloc: Global, scene: &Scene, numbers: &[u64]) -> bool {
    let rack = scene.last_rack();
    let end = rack.calls();
    let calls = (end, end.saturating_add(1));
    let allowed = (seen_by(numbers, 0), seen_by(numbers, 0));
    leaves((0, 8), rack, alloc, calls, allowed)
}

/// Whether stops since the mark that leave so many groups leave a page full of a byte: the groups,
/// the volume, the page and the byte.
fn lasts_by(alloc: Global, scene: &Scene, numbers: &[u64]) -> bool {
    let filled = filled_by(numbers, 1);
    lasts(
        (0, 8),
        scene.last_rack(),
        alloc,
        scene.start,
        at(numbers, 0),
        &filled,
    )
}

/// Whether a log is settled after stops since the mark that leave one of two, and what stops leave
/// meanwhile is what was left; also a page full of a byte, if three more numbers name one.
fn stops(alloc: Global, scene: &Scene, numbers: &[u64]) -> bool {
    let rack = scene.last_rack();
    let calls = (scene.start, rack.calls().saturating_add(1));
    let allowed = (seen_by(numbers, 0), seen_by(numbers, 4));
    let filled = if numbers.len() > 8 {
        Some(filled_by(numbers, 8))
    } else {
        None
    };
    settles_again(4, rack, alloc, calls, allowed, filled)
}

// Logs.

/// Appends a run of pages to a log: the first one, how many they are, and their byte.
fn append_run(alloc: Global, log: &mut MetaLog, numbers: &[u64]) -> Answer {
    let mut pairs = [0; 64];
    let end = set_run(&mut pairs, numbers);
    append(log, alloc, 2, &pairs[..end])
}

/// Goes on with the log that is recovered, if one is: whether it is.
fn go_on(alloc: Global, scene: &mut Scene) -> bool {
    match recovered(&mut scene.rack, alloc) {
        Some(log) => {
            scene.log = log;
            true
        }
        None => false,
    }
}

/// Where a log stands: the volume, where it starts, the group there, and the anchor's slot.
fn say_anchor(log: &MetaLog, told: &mut Told) {
    let anchor = log.anchor();
    let (vol, start) = (u64::from(anchor.log_vol), u64::from(anchor.start));
    say_numbers(told, &[vol, start, anchor.group, u64::from(anchor.slot)]);
}

fn say_seen(told: &mut Told, seen: &Seen) {
    let [first, second, third] = seen.bytes;
    let (first, second) = (u64::from(first), u64::from(second));
    say_numbers(told, &[seen.groups, first, second, u64::from(third)]);
}

/// Answers a line of logs.
fn answer_of_logs(alloc: Global, scene: &mut Scene, told: &mut Told, word: &str, numbers: &[u64]) {
    let first = small(numbers, 0);
    let pairs = &numbers[numbers.len().min(1)..];
    match word {
        "append" => say_answer(told, append(&mut scene.log, alloc, first, pairs)),
        "append-run" => say_answer(told, append_run(alloc, &mut scene.log, numbers)),
        "force" => say_answer(told, force(&mut scene.log, &mut scene.rack)),
        "home" => say_answer(told, bring_home(&mut scene.log, &mut scene.rack)),
        "move" => say_answer(told, move_home(&mut scene.log, &mut scene.rack, first)),
        "ring" => {
            let answer = move_ring(&mut scene.log, &mut scene.rack, alloc, first);
            say_whether(told, &[is_done(answer)]);
        }
        "go-on" => say_whether(told, &[go_on(alloc, scene)]),
        "anchor" => say_anchor(&scene.log, told),
        "seen" => say_seen(told, &look_at(&mut scene.rack, alloc)),
        "lay" => say_laid(alloc, &mut scene.pages, numbers, told),
        _ => answer_of_recovery(alloc, &mut scene.rack, told, word, numbers),
    }
}

/// Answers a line of what is written by hand and recovered.
fn answer_of_recovery(
    alloc: Global,
    rack: &mut CountRack,
    told: &mut Told,
    word: &str,
    numbers: &[u64],
) {
    let first = small(numbers, 0);
    match word {
        "group" => put_group(rack, numbers),
        "header" => put_header_of(rack, numbers),
        "closed" => put_closed(rack, first),
        "bytes" => put_bytes_of(rack, numbers),
        "label" => put_label(rack, first),
        "found" => say_found(rack, alloc, told),
        "ready" => say_whether(told, &[make_ready(rack)]),
        "settle" => say_settled(told, recover_and_settle(rack, alloc)),
        "settle-whole" => say_settled(told, settle_whole(rack, alloc)),
        "no-number-left" => say_whether(told, &[has_no_number_left(rack, alloc)]),
        _ => answer_of_orders(alloc, told, word, numbers),
    }
}

// Orders that are made of themselves.

/// Says how many calls there were, and whether each fails as it is to.
fn say_failing(told: &mut Told, seen: (u64, bool)) {
    say_numbers(told, &[seen.0]);
    say_whether(told, &[seen.1]);
}

/// Opens, changes and closes the log of three groups by hand on a rack that starts again: how many
/// steps pass, and what is seen then.
fn say_order(alloc: Global, told: &mut Told) {
    match by_hand(alloc, 1, &[]) {
        Some(rack) => {
            let (steps, seen) = after_stop(&rack, alloc);
            say_numbers(told, &[u64::from(steps)]);
            say_seen(told, &seen);
        }
        None => told.check(false),
    }
}

/// Says the text of the error of a log that is full.
fn say_full(told: &mut Told) {
    told.push(": ");
    told.push_shown(&LogFull);
}

/// Answers a line of whole orders, or of texts.
fn answer_of_orders(alloc: Global, told: &mut Told, word: &str, numbers: &[u64]) {
    match word {
        "each-read-fails" => say_whether(told, &[each_read_fails(alloc)]),
        "each-ready-call-fails" => say_failing(told, each_ready_call_fails(alloc)),
        "each-settling-call-fails" => say_whether(told, &[each_settling_call_fails(alloc)]),
        "each-force-call-fails" => say_failing(told, each_force_call_fails(alloc)),
        "each-logged-call-fails" => say_failing(told, each_logged_call_fails(alloc)),
        "second-stops" => say_whether(told, &[second_stops(alloc)]),
        "order" => say_order(alloc, told),
        "moving-order" => say_numbers(told, &moving(alloc)),
        "faults-of-recovery" => say_recovery_faults(told),
        "faults-of-frames" => say_frame_faults(told),
        "full-log" => say_full(told),
        _ => answer_of_changes(alloc, told, word, numbers),
    }
}

/// Answers a line of changes and headers; any other line is wrong.
fn answer_of_changes(alloc: Global, told: &mut Told, word: &str, numbers: &[u64]) {
    match word {
        "change" => say_change(alloc, numbers, told),
        "read-header" => say_header(alloc, numbers, told),
        "write-header" => say_header_again(alloc, told),
        _ => told.check(false),
    }
}
