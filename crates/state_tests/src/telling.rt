//! Lines of commands that are answered in a domain.
ghost use Rattle.client_commands.specs.domain_memory.Staged.{IsSettled};

use crate::answering::answered;
use client_commands::from_fileset_values::Command;
use client_commands::{Domain, Opening, Rack, Told};
use command_text::{command, known_verb};
use std::alloc::Global;

/// The command that a line has; none also if memory is short.
pub fn command_in(alloc: Global, line: &str) -> Option<Command> {
    let mut words = line.split(' ');
    let verb = known_verb(words.next()?.as_bytes())?;
    let mut more = Vec::new(alloc);
    for word in words {
        more.push(word.as_bytes()).ok()?;
    }
    command(alloc, verb, more.as_slice()).ok()
}

/// Answers the command of a line; a line without one has no answer.
fn told_by<R: Rack + Drop, O: Opening>(
    domain: Domain<R, O>,
    alloc: Global,
    line: &str,
) -> Domain<R, O>
    requires rests { ⟦<Domain<R, O> as Told>⟧.rests domain }
    requires settled { IsSettled domain.memory }
    ensures rests { ⟦<Domain<R, O> as Told>⟧.rests result }
    ensures settled { IsSettled result.memory }
{
    match command_in(alloc, line) {
        Some(command) => answered(domain, alloc, command),
        None => domain,
    }
}

/// Answers the commands of these lines, one after another.
pub fn all_told<R: Rack + Drop, O: Opening>(
    domain: Domain<R, O>,
    alloc: Global,
    lines: &[&str],
) -> Domain<R, O>
    requires rests { ⟦<Domain<R, O> as Told>⟧.rests domain }
    requires settled { IsSettled domain.memory }
    ensures rests { ⟦<Domain<R, O> as Told>⟧.rests result }
    ensures settled { IsSettled result.memory }
{
    match lines {
        [] => domain,
        [first, rest @ ..] => all_told(told_by(domain, alloc, first), alloc, rest),
    }
}
