//! Blocks of lines, and what is answered.

use crate::bitfiles::push_files;
use crate::cells::push_cells;
use crate::free::tell_free;
use crate::pages::tell_random;
use crate::writing::{tell_chain, tell_fault};
use std::alloc::Global;
use table_words::{Told, Words};

/// Tells what a line answers by itself.
fn answer(alloc: Global, kind: &str, line: &str, told: &mut Told) {
    let mut words = Words::new(line);
    match kind {
        "free cells" => tell_free(alloc, &mut words, told),
        "chains" => tell_chain(alloc, words.number(' '), told),
        "faults" => tell_fault(words.rest(), told),
        "random pages" => tell_random(alloc, words.number(' '), told),
        _ => words.check(false),
    }
    told.check(words.is_right());
}

/// Tells lines that stand alone, each with what it answers.
fn push_single(alloc: Global, told: &mut Told, kind: &str, lines: &str) {
    for line in lines.lines() {
        let mut told_of = Told::new(alloc);
        if !is_idle(line) {
            answer(alloc, kind, line, &mut told_of);
        }
        push_answer(told, line, &told_of);
    }
}

/// Tells a block with what it answers.
pub fn push_block(alloc: Global, told: &mut Told, block: &str) {
    let (head, lines) = block.split_once('\n').unwrap_or((block, ""));
    let (kind, _) = head.split_once(": ").unwrap_or(("", ""));
    told.push(head);
    told.push("\n");
    match kind {
        "cells" => push_cells(alloc, told, lines),
        "files" => push_files(alloc, told, lines),
        _ => push_single(alloc, told, kind, lines),
    }
}

/// Whether nothing is to be done at a line: it is empty, or a comment.
pub fn is_idle(line: &str) -> bool {
    line.is_empty() || line.starts_with('#')
}

/// Tells a line and its answer. An answer of several lines stands below it, each line after two
/// blanks.
pub fn push_answer(told: &mut Told, line: &str, answer: &Told) {
    told.push(line);
    let text = answer.text();
    let sign = if text.contains('\n') { "\n  " } else { " -> " };
    for part in text.lines() {
        told.push(sign);
        told.push(part);
    }
    told.push("\n");
    told.check(answer.is_right());
}
