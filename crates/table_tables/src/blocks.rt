//! Blocks of lines, and what is answered.

use crate::books::random_books;
use crate::quotas::push_quotas;
use crate::random::random_tables;
use crate::tables::push_tables;
use crate::tag_random::random_tags;
use crate::tags::{push_tags, unlinked};
use fileset_table::OutOfMemory;
use std::alloc::Global;

/// Says what a line answers by itself.
fn answer(alloc: Global, kind: &str, line: &str, out: &mut String) -> Option<()> {
    match kind {
        "random quotas" => random_books(alloc, line, out),
        "random tables" => random_tables(alloc, line, out),
        "random tags" => random_tags(alloc, line, out),
        "unlinked" => unlinked(alloc, line, out),
        _ => None,
    }
}

/// Adds a line that stands alone, with what it answers.
fn push_single(
    alloc: Global,
    answers: &mut String,
    kind: &str,
    line: &str,
) -> Result<(), OutOfMemory> {
    let mut out = String::new(alloc);
    let is_read = is_idle(line) || answer(alloc, kind, line, &mut out).is_some();
    push_answer(answers, line, is_read, out.as_str())
}

/// Adds lines that stand alone, each with what it answers.
fn push_singles(
    alloc: Global,
    answers: &mut String,
    kind: &str,
    lines: &str,
) -> Result<(), OutOfMemory> {
    for line in lines.lines() {
        push_single(alloc, answers, kind, line)?;
    }
    Ok(())
}

/// Adds a block with what it answers. Its first line begins with its kind and a colon.
pub fn push_block(alloc: Global, answers: &mut String, block: &str) -> Result<(), OutOfMemory> {
    let (head, lines) = block.split_once('\n').unwrap_or((block, ""));
    let (kind, _) = head.split_once(": ").unwrap_or((head, ""));
    answers.push_str(head)?;
    answers.push('\n')?;
    match kind {
        "quotas" => push_quotas(alloc, answers, lines),
        "table" => push_tables(alloc, answers, lines),
        "tags" => push_tags(alloc, answers, lines),
        _ => push_singles(alloc, answers, kind, lines),
    }
}

/// Whether nothing is to be done at a line: it is empty, or a comment.
pub fn is_idle(line: &str) -> bool {
    line.is_empty() || line.starts_with('#')
}

/// Adds lines, each after two blanks on a line of its own.
fn push_below(answers: &mut String, lines: &str) -> Result<(), OutOfMemory> {
    for line in lines.lines() {
        answers.push_str("\n  ")?;
        answers.push_str(line)?;
    }
    Ok(())
}

/// Adds an answer: below its line if it has lines of its own, and else after an arrow.
fn push_told(answers: &mut String, answer: &str) -> Result<(), OutOfMemory> {
    if answer.contains('\n') {
        return push_below(answers, answer);
    }
    answers.push_str(" -> ")?;
    answers.push_str(answer)
}

/// Adds a line and its answer, if it has one; a line that is not read is reported.
pub fn push_answer(
    answers: &mut String,
    line: &str,
    is_read: bool,
    answer: &str,
) -> Result<(), OutOfMemory> {
    answers.push_str(line)?;
    if !is_read {
        answers.push_str(" is not read")?;
    } else if !answer.is_empty() {
        push_told(answers, answer)?;
    }
    answers.push('\n')
}
