//! Blocks of lines, and what is answered.

use crate::indexes::{hash, missed_entry, push_index};
use crate::names::name_form;
use crate::pages::{fault, push_pages};
use crate::random::random_rows;
use crate::rows::{missed_row, push_rows};
use directory_rows::StoreFault;
use std::alloc::Global;

/// Says what a line answers by itself.
fn answer(alloc: Global, kind: &str, line: &str, out: &mut String) -> Option<()> {
    match kind {
        "names" => name_form(alloc, line, out),
        "faults" => fault(line, out),
        "hashes" => hash(alloc, line, out),
        "missed row" => missed_row(alloc, line.parse().ok()?, out).ok(),
        "missed entry" => missed_entry(alloc, line.parse().ok()?, out).ok(),
        "random rows" => random_rows(alloc, line, out),
        _ => None,
    }
}

/// Adds lines that stand alone, each with what it answers.
fn push_singles(
    alloc: Global,
    answers: &mut String,
    kind: &str,
    lines: &str,
) -> Result<(), StoreFault> {
    for line in lines.lines() {
        let mut out = String::new(alloc);
        let is_read = is_idle(line) || answer(alloc, kind, line, &mut out).is_some();
        push_answer(answers, line, is_read, out.as_str())?;
    }
    Ok(())
}

/// Adds a block with what it answers. Its first line begins with its kind and a colon.
pub fn push_block(alloc: Global, answers: &mut String, block: &str) -> Result<(), StoreFault> {
    let (head, lines) = block.split_once('\n').unwrap_or((block, ""));
    let (kind, _) = head.split_once(": ").unwrap_or((head, ""));
    answers.push_str(head)?;
    answers.push('\n')?;
    match kind {
        "page" => push_pages(alloc, answers, lines),
        "rows" => push_rows(alloc, answers, lines),
        "index" => push_index(alloc, answers, lines),
        _ => push_singles(alloc, answers, kind, lines),
    }
}

/// Whether nothing is to be done at a line: it is empty, or a comment.
pub fn is_idle(line: &str) -> bool {
    line.is_empty() || line.starts_with('#')
}

/// Adds a line and its answer, if it has one; a line that is not read is reported.
pub fn push_answer(
    answers: &mut String,
    line: &str,
    is_read: bool,
    answer: &str,
) -> Result<(), StoreFault> {
    let answer = if is_read { answer } else { "not read" };
    answers.push_str(line)?;
    if !answer.is_empty() {
        answers.push_str(" -> ")?;
        answers.push_str(answer)?;
    }
    answers.push('\n')?;
    Ok(())
}
