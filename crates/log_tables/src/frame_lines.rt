//! Lines of pages in place in frames.

use crate::answers::{is_done, say_answer};
use crate::counting::CountRack;
use crate::frames::{
    bring, drop_frame, flush, flush_run, keep, keep_run, lend, lent_byte, put, put_run,
};
use crate::reading::{at, byte, home_at, say_numbers, say_whether, small};
use file_pages::{FilePages, LoggedRack};
use log_recovery::Home;
use std::alloc::Global;
use table_words::Told;

/// Says a number, or that there is none.
fn say_found(told: &mut Told, found: Option<u64>) {
    match found {
        Some(number) => say_numbers(told, &[number]),
        None => told.push(": none"),
    }
}

/// Says the home of the next frame that is flushed, or that there is none.
fn say_next(told: &mut Told, home: Option<Home>) {
    match home {
        Some(home) => {
            let numbers = [u64::from(home.vol.number()), u64::from(home.page)];
            say_numbers(told, &numbers);
        }
        None => say_found(told, None),
    }
}

/// Brings a page, and says its byte once it is lent.
fn say_brought(
    alloc: Global,
    held: &mut FilePages,
    rack: &mut LoggedRack<CountRack>,
    home: &Home,
    told: &mut Told,
) {
    let answer = bring(held, rack, alloc, home);
    if is_done(answer) {
        say_found(told, lent_byte(held, home));
    } else {
        say_answer(told, answer);
    }
}

/// Says of pages, by volumes and numbers by turns, whether they have frames.
fn say_kept(held: &FilePages, numbers: &[u64], told: &mut Told) {
    told.push(":");
    for pair in 0..numbers.len() / 2 {
        let home = home_at(small(numbers, 2 * pair), small(numbers, 2 * pair + 1));
        let is_kept = match home {
            Some(home) => held.is_kept(home),
            None => false,
        };
        told.push(if is_kept { " yes" } else { " no" });
    }
}

/// Answers a line of the frame of a home: whether it is one.
fn answer_of_frame(
    alloc: Global,
    held: &mut FilePages,
    rack: &mut LoggedRack<CountRack>,
    told: &mut Told,
    word: &str,
    numbers: &[u64],
) -> bool {
    let Some(home) = home_at(small(numbers, 0), small(numbers, 1)) else {
        return false;
    };
    let (mark, group) = (byte(numbers, 2), at(numbers, 3));
    match word {
        "bring" => say_brought(alloc, held, rack, &home, told),
        "lend" => say_answer(told, lend(held, &home)),
        "keep" => say_answer(told, keep(held, alloc, &home, mark)),
        "lent" => say_found(told, lent_byte(held, &home)),
        "put" => say_answer(told, put(held, alloc, &home, mark, group)),
        "waits" => say_found(told, held.waits(home)),
        "flush" => say_answer(told, flush(held, rack, &home)),
        "drop" => say_found(told, drop_frame(held, &home)),
        _ => return false,
    }
    true
}

/// Answers a line of frames: whether it is one.
pub fn answer_of_frames(
    alloc: Global,
    held: &mut FilePages,
    rack: &mut LoggedRack<CountRack>,
    told: &mut Told,
    word: &str,
    numbers: &[u64],
) -> bool {
    match word {
        "hand-back" => held.hand_back(),
        "dirty" => say_numbers(told, &[u64::from(held.dirty())]),
        "lent-count" => say_numbers(told, &[held.lent() as u64]),
        "next-flush" => say_next(told, held.next_flush(at(numbers, 0))),
        "kept" => say_kept(held, numbers, told),
        "keep-run" => say_numbers(told, &[keep_run(held, alloc, numbers)]),
        "put-run" => say_numbers(told, &[put_run(held, alloc, numbers)]),
        "flush-run" => say_numbers(told, &[flush_run(held, rack, numbers)]),
        _ => return answer_of_frame(alloc, held, rack, told, word, numbers),
    }
    true
}
