//! Rows: a word for what is done, and what it is done with.

use crate::changes::random_records;
use crate::maps::map_answer;
use crate::records::read;
use crate::writing::{choose, choose_hole_alone, dense, record};
use extent_records::OutOfMemory;
use std::alloc::Global;

/// Says what comes of words.
fn answer(alloc: Global, word: &str, rest: &str, out: &mut String) -> Option<()> {
    match word {
        "read" => read(alloc, rest, out),
        "record" => record(alloc, rest, out),
        "dense" => dense(alloc, rest, out),
        "choose" | "choose-hole" => choose(alloc, rest, out),
        "choose-hole-alone" => choose_hole_alone(alloc, rest, out),
        "random-record" => random_records(alloc, rest, out),
        _ => map_answer(alloc, word, rest, out),
    }
}

/// What comes of a row; a row that is not read is reported.
fn row_answer(alloc: Global, row: &str) -> Result<String, OutOfMemory> {
    let (word, rest) = row.split_once(' ').unwrap_or((row, ""));
    let mut out = String::new(alloc);
    if answer(alloc, word, rest, &mut out).is_none() {
        out.push_str("\na row that is not read")?;
    }
    Ok(out)
}

/// Adds lines, each after two blanks.
fn push_below(answers: &mut String, lines: &str) -> Result<(), OutOfMemory> {
    for line in lines.lines() {
        answers.push_str("  ")?;
        answers.push_str(line)?;
        answers.push('\n')?;
    }
    Ok(())
}

/// Adds a row, and below it what comes of it. A comment and an empty row stand for themselves.
pub fn push_row(alloc: Global, answers: &mut String, row: &str) -> Result<(), OutOfMemory> {
    answers.push_str(row)?;
    answers.push('\n')?;
    if row.is_empty() || row.starts_with('#') {
        return Ok(());
    }
    push_below(answers, row_answer(alloc, row)?.as_str())
}
