//! Lines of commands, given to plain filesets, to a set in memory and to one that stands in pages.
ghost use Rattle.std.specs.Prelude.{OnOk};
ghost use Rattle.fileset_lending.specs.name_space.Changes.{HasOriginal};

use crate::blocks::{is_idle, push_answer};
use crate::reading::{command, home, push_reply};
use crate::roots::root_alone;
use crate::steps::{answer, empty_set};
use fileset_lending::{BitfileSet, Command, Filesets, OutOfMemory, apply};
use std::alloc::Global;
use std::test::Fail;

/// Plain filesets with one that is empty.
fn one_fileset(alloc: Global) -> Result<Filesets, OutOfMemory> {
    let mut filesets = Filesets::new(alloc);
    let make = Command::Mkfset {
        fileset: home(alloc)?,
    };
    let _ = apply(alloc, &mut filesets, &make);
    Ok(filesets)
}

/// Says what the plain filesets say to a command.
fn plain_answer(
    alloc: Global,
    filesets: &mut Filesets,
    command: &Command,
    out: &mut String,
) -> Result<(), Fail> {
    let reply = apply(alloc, filesets, command);
    push_reply(&reply, out)
}

/// Says what the plain filesets say to the command of a line.
fn plain_line_said(
    alloc: Global,
    filesets: &mut Filesets,
    line: &str,
    out: &mut String,
) -> Result<(), Fail> {
    let command = command(alloc, line)?;
    plain_answer(alloc, filesets, &command, out)
}

/// Adds a line with what the plain filesets say to it.
fn push_plain(
    alloc: Global,
    filesets: &mut Filesets,
    line: &str,
    text: &mut String,
) -> Result<(), Fail> {
    if is_idle(line) {
        return push_answer(text, line, "");
    }
    let mut out = String::new(alloc);
    plain_line_said(alloc, filesets, line, &mut out)?;
    push_answer(text, line, out.as_str())
}

/// Adds all lines with what plain filesets say to them.
fn plain_said(alloc: Global, lines: &str, text: &mut String) -> Result<(), Fail> {
    let mut filesets = one_fileset(alloc)?;
    for line in lines.lines() {
        push_plain(alloc, &mut filesets, line, text)?;
    }
    Ok(())
}

/// Says what the set answers to a command.
fn push_answered<S: BitfileSet>(
    set: &mut S,
    alloc: Global,
    command: &Command,
    out: &mut String,
) -> Result<(), Fail>
    requires { HasOriginal (S.files set.old) }
    ensures { OnOk result (HasOriginal (S.files set.new)) }
{
    let reply = answer(set, alloc, command)?;
    push_reply(&reply, out)
}

/// Says what the set answers to the command of a line.
fn line_said<S: BitfileSet>(
    set: &mut S,
    alloc: Global,
    line: &str,
    out: &mut String,
) -> Result<(), Fail>
    requires { HasOriginal (S.files set.old) }
    ensures { OnOk result (HasOriginal (S.files set.new)) }
{
    let command = command(alloc, line)?;
    push_answered(set, alloc, &command, out)
}

/// Adds a line with what the set says to it.
fn push_said<S: BitfileSet>(
    set: &mut S,
    alloc: Global,
    line: &str,
    text: &mut String,
) -> Result<(), Fail>
    requires { HasOriginal (S.files set.old) }
    ensures { OnOk result (HasOriginal (S.files set.new)) }
{
    if is_idle(line) {
        return push_answer(text, line, "");
    }
    let mut out = String::new(alloc);
    line_said(set, alloc, line, &mut out)?;
    push_answer(text, line, out.as_str())
}

/// Adds all lines with what the set says to them.
pub fn said_all<S: BitfileSet>(
    set: &mut S,
    alloc: Global,
    lines: &str,
    text: &mut String,
) -> Result<(), Fail>
    requires { HasOriginal (S.files set.old) }
    ensures { OnOk result (HasOriginal (S.files set.new)) }
{
    for line in lines.lines() {
        push_said(set, alloc, line, text)?;
    }
    Ok(())
}

/// Adds what a set says where plain filesets say otherwise.
fn push_other<S: BitfileSet>(
    set: &mut S,
    alloc: Global,
    answers: &mut String,
    lines: &str,
    plain: &str,
) -> Result<(), Fail>
    requires { HasOriginal (S.files set.old) }
{
    let mut text = String::new(alloc);
    said_all(set, alloc, lines, &mut text)?;
    if text.as_str() != plain {
        answers.push_str("otherwise:\n")?;
        answers.push_str(text.as_str())?;
    }
    Ok(())
}

/// Adds what the root directory alone in memory, and in pages, say to lines where plain filesets
/// say otherwise.
fn push_others(alloc: Global, answers: &mut String, lines: &str, plain: &str) -> Result<(), Fail> {
    push_other(
        &mut empty_set(alloc, Vec::new(alloc))?,
        alloc,
        answers,
        lines,
        plain,
    )?;
    push_other(&mut root_alone(alloc)?, alloc, answers, lines, plain)
}

/// Adds lines with what plain filesets say to them, and the root directory alone in memory and in
/// pages.
pub fn push_names(alloc: Global, answers: &mut String, lines: &str) -> Result<(), Fail> {
    let mut plain = String::new(alloc);
    plain_said(alloc, lines, &mut plain)?;
    answers.push_str(plain.as_str())?;
    push_others(alloc, answers, lines, plain.as_str())
}
