//! Lines of a rack with its log.
ghost use Rattle.std.specs.Prelude.{◌≤◌};

use crate::answers::{Answer, say_answer};
use crate::counting::CountRack;
use crate::logged::{append, checkpoint, force, read_home, sync_written, takes, write_home};
use crate::logged_failing::failed;
use crate::reading::{at, filled_by, home_at, say_numbers, say_whether, small};
use file_pages::LoggedRack;
use std::alloc::Global;
use table_words::Told;

/// Whether the log has an image of a page of volume 2.
fn has_image(rack: &LoggedRack<CountRack>, page: u32) -> bool {
    match home_at(2, page) {
        Some(home) => rack.has_image(home),
        None => false,
    }
}

/// Says what a read of a page answers, and the byte that the page is full of.
fn say_read(alloc: Global, rack: &mut LoggedRack<CountRack>, numbers: &[u64], told: &mut Told) {
    let Some(home) = home_at(small(numbers, 0), small(numbers, 1)) else {
        return say_answer(told, Answer::Unfit);
    };
    let (answer, byte) = read_home(rack, alloc, &home);
    say_answer(told, answer);
    say_numbers(told, &[u64::from(byte)]);
}

/// Sets pages and bytes by turns to a run of pages: the first page, how many they are, 32 at most,
/// and their byte. It says where they end.
pub fn set_run(pairs: &mut [u64; 64], numbers: &[u64]) -> usize
    ensures { result ≤ 64 }
{
    for k in 0..32 {
        pairs[2 * k] = at(numbers, 0).saturating_add(k as u64);
        pairs[2 * k + 1] = at(numbers, 2);
    }
    2 * at(numbers, 1).min(32) as usize
}

/// Appends a run of pages of a store.
fn append_run(alloc: Global, rack: &mut LoggedRack<CountRack>, numbers: &[u64]) -> Answer {
    let mut pairs = [0; 64];
    let end = set_run(&mut pairs, numbers);
    append(rack, alloc, &pairs[..end])
}

/// Whether the log takes a change of these pages of volume 2.
fn takes_pages(rack: &LoggedRack<CountRack>, numbers: &[u64]) -> bool {
    let mut pairs = [0; 32];
    for place in 0..16 {
        pairs[2 * place] = at(numbers, place);
    }
    takes(rack, &pairs[..2 * numbers.len().min(16)])
}

/// Whether the log takes a change of a run of pages.
fn takes_run(rack: &LoggedRack<CountRack>, numbers: &[u64]) -> bool {
    let mut pairs = [0; 64];
    let end = set_run(&mut pairs, numbers);
    takes(rack, &pairs[..end])
}

/// Answers a line of calls of a rack with its log that change nothing: whether it is one.
fn answer_of_looks(
    rack: &LoggedRack<CountRack>,
    told: &mut Told,
    word: &str,
    numbers: &[u64],
) -> bool {
    match word {
        "takes" => say_whether(told, &[takes_pages(rack, numbers)]),
        "takes-run" => say_whether(told, &[takes_run(rack, numbers)]),
        "has-image" => say_whether(told, &[has_image(rack, small(numbers, 0))]),
        "next" => say_numbers(told, &[rack.log().next_number()]),
        "failed" => say_numbers(told, &[u64::from(failed(rack))]),
        _ => return false,
    }
    true
}

/// Answers a line of a rack with its log: whether it is one.
pub fn answer_of_logged(
    alloc: Global,
    rack: &mut LoggedRack<CountRack>,
    told: &mut Told,
    word: &str,
    numbers: &[u64],
) -> bool {
    match word {
        "append-from" => say_answer(told, append(rack, alloc, numbers)),
        "append-run-from" => say_answer(told, append_run(alloc, rack, numbers)),
        "force" => say_answer(told, force(rack)),
        "home" => say_answer(told, checkpoint(rack)),
        "write" => say_answer(told, write_home(rack, alloc, &filled_by(numbers, 0))),
        "read" => say_read(alloc, rack, numbers, told),
        "sync" => say_answer(told, sync_written(rack)),
        _ => return answer_of_looks(rack, told, word, numbers),
    }
    true
}
