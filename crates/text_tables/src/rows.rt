//! Rows: a word for what is read, and its text.

use crate::entries::{command, line, reply};
use crate::scripts::{read, script, sections};
use crate::spelling::spelled;
use std::alloc::{AllocError, Global};

/// Says what comes of a text.
fn answer(alloc: Global, word: &str, text: &[u8], out: &mut String) -> Option<()> {
    match word {
        "script" => script(alloc, text, out),
        "read" => read(alloc, text, out),
        "sections" => sections(alloc, text, out),
        "line" => line(alloc, text, out),
        "command" => command(alloc, text, out),
        "reply" => reply(alloc, text, out),
        _ => None,
    }
}

/// Says what comes of a row.
fn answer_row(alloc: Global, row: &str, out: &mut String) -> Option<()> {
    let (word, text) = row.split_once(' ').unwrap_or((row, ""));
    let text = spelled(alloc, text)?;
    answer(alloc, word, text.as_slice(), out)
}

/// What comes of a row; a row that cannot be read is reported.
fn row_answer(alloc: Global, row: &str) -> Result<String, AllocError> {
    let mut out = String::new(alloc);
    if answer_row(alloc, row, &mut out).is_none() {
        out.push_str("a row that is not read")?;
    }
    Ok(out)
}

/// Adds lines, each after two blanks.
fn push_below(answers: &mut String, lines: &str) -> Result<(), AllocError> {
    for line in lines.lines() {
        answers.push_str("  ")?;
        answers.push_str(line)?;
        answers.push('\n')?;
    }
    Ok(())
}

/// A row, and below it what comes of it.
pub fn row_lines(alloc: Global, row: &str) -> Result<String, AllocError> {
    let mut lines = String::new(alloc);
    lines.push_str(row)?;
    lines.push('\n')?;
    push_below(&mut lines, row_answer(alloc, row)?.as_str())?;
    Ok(lines)
}
