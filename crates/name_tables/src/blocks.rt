//! Blocks of lines, and what is answered.

use crate::filesets::fileset;
use crate::looking::looked_along;
use crate::lost::refusal_along;
use crate::misses::push_misses;
use crate::runs::push_names;
use crate::steps::fault;
use crate::stored::{last_parent, push_stored};
use std::alloc::Global;
use std::test::Fail;

/// Says what a line answers by itself.
fn answer(alloc: Global, kind: &str, line: &str, out: &mut String) -> Result<(), Fail> {
    match kind {
        "lost" => refusal_along(alloc, line, out),
        "looks" => looked_along(alloc, line, out),
        "filesets" => fileset(alloc, line, out),
        "parents" => last_parent(alloc, line, out),
        "faults" => fault(line, out),
        _ => Err(Fail::from("no such block")),
    }
}

/// Adds a line that stands alone, with what it answers.
fn push_single(alloc: Global, answers: &mut String, kind: &str, line: &str) -> Result<(), Fail> {
    if is_idle(line) {
        return push_answer(answers, line, "");
    }
    let mut out = String::new(alloc);
    answer(alloc, kind, line, &mut out)?;
    push_answer(answers, line, out.as_str())
}

/// Adds lines that stand alone, each with what it answers.
fn push_singles(alloc: Global, answers: &mut String, kind: &str, lines: &str) -> Result<(), Fail> {
    for line in lines.lines() {
        push_single(alloc, answers, kind, line)?;
    }
    Ok(())
}

/// Adds a block with what it answers. Its first line begins with its kind and a colon.
pub fn push_block(alloc: Global, answers: &mut String, block: &str) -> Result<(), Fail> {
    let (head, lines) = block.split_once('\n').unwrap_or((block, ""));
    let (kind, _) = head.split_once(": ").unwrap_or((head, ""));
    answers.push_str(head)?;
    answers.push('\n')?;
    match kind {
        "names" => push_names(alloc, answers, lines),
        "misses" => push_misses(alloc, answers, lines),
        "stored" => push_stored(alloc, answers, lines),
        _ => push_singles(alloc, answers, kind, lines),
    }
}

/// Whether nothing is to be done at a line: it is empty, or a comment.
pub fn is_idle(line: &str) -> bool {
    line.is_empty() || line.starts_with('#')
}

/// Adds lines, each after two blanks on a line of its own.
fn push_below(answers: &mut String, lines: &str) -> Result<(), Fail> {
    for line in lines.lines() {
        answers.push_str("\n  ")?;
        answers.push_str(line)?;
    }
    Ok(())
}

/// Adds a line and its answer, which stands below it if it has lines of its own.
pub fn push_answer(answers: &mut String, line: &str, answer: &str) -> Result<(), Fail> {
    answers.push_str(line)?;
    if answer.contains('\n') {
        push_below(answers, answer)?;
    } else if !answer.is_empty() {
        answers.push_str(" -> ")?;
        answers.push_str(answer)?;
    }
    answers.push('\n')?;
    Ok(())
}
