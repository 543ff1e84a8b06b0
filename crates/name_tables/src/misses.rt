//! Commands where one changing call finds no page. A block has the lines that stand before each
//! command, and then lines `at` with the number of the call that finds none, from 0 on.
ghost use Rattle.fileset_lending.specs.name_space.Changes.{HasOriginal};

use crate::blocks::{is_idle, push_answer};
use crate::reading::{command, number_of, push_reply};
use crate::runs::said_all;
use crate::steps::{answer, empty_set};
use fileset_lending::{BitfileSet, Command, MemoryBitfiles, StoreFault};
use std::alloc::Global;
use std::test::Fail;

/// Says what a set answers to a command.
fn push_answered<S: BitfileSet>(
    set: &mut S,
    alloc: Global,
    command: &Command,
    out: &mut String,
) -> Result<(), Fail>
    requires { HasOriginal (S.files set.old) }
{
    match answer(set, alloc, command) {
        Ok(reply) => push_reply(&reply, out),
        Err(StoreFault::NoPage) => Ok(out.push_str("no page")?),
        Err(StoreFault::OutOfMemory) => Err(Fail::from("out of memory")),
    }
}

/// Says what a set answers to the command of a line.
fn push_line_answered<S: BitfileSet>(
    set: &mut S,
    alloc: Global,
    line: &str,
    out: &mut String,
) -> Result<(), Fail>
    requires { HasOriginal (S.files set.old) }
{
    let command = command(alloc, line)?;
    push_answered(set, alloc, &command, out)
}

/// Says what a command answers after these lines, and how often no page was found.
fn push_told(
    set: &mut MemoryBitfiles,
    alloc: Global,
    before: &str,
    line: &str,
    out: &mut String,
) -> Result<(), Fail>
    requires { HasOriginal (⟦<MemoryBitfiles as BitfileSet>⟧.files set.old) }
{
    said_all(set, alloc, before, &mut String::new(alloc))?;
    push_line_answered(set, alloc, line, out)?;
    Ok(write!(out, ", {} misses", set.misses())?)
}

/// Says what a command answers where one changing call finds no page, and how often none was found.
fn push_missed(alloc: Global, before: &str, line: &str, out: &mut String) -> Result<(), Fail> {
    let line = line.strip_prefix("at ").unwrap_or(line);
    let (call, line) = line.split_once(' ').ok_or("a number")?;
    let call = u64::from(number_of(call).ok_or("a number")?);
    let mut set = empty_set(alloc, vec![in alloc; call]?)?;
    push_told(&mut set, alloc, before, line, out)
}

/// Adds a line with what its command answers.
fn push_line(alloc: Global, answers: &mut String, before: &str, line: &str) -> Result<(), Fail> {
    if is_idle(line) {
        return push_answer(answers, line, "");
    }
    let mut out = String::new(alloc);
    push_missed(alloc, before, line, &mut out)?;
    push_answer(answers, line, out.as_str())
}

/// Adds the lines of a block, with what the commands answer.
pub fn push_misses(alloc: Global, answers: &mut String, lines: &str) -> Result<(), Fail> {
    let (before, rest) = lines.split_once("\nat ").ok_or("a command")?;
    answers.push_str(before)?;
    answers.push_str("\nat ")?;
    for line in rest.lines() {
        push_line(alloc, answers, before, line)?;
    }
    Ok(())
}
