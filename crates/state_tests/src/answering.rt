//! Commands of a client that are answered in a domain.
ghost use Rattle.std.specs.Prelude.{◌≤◌};
ghost use Rattle.client_commands.specs.domain_memory.Staged.{IsSettled};
ghost use Rattle.client_commands.specs.name_commands.Ending.{IsServed};

use client_commands::from_fileset_values::Command;
use client_commands::{Domain, Opening, Rack, Told, VolIx, command, is_served};
use std::alloc::Global;

/// Answers a command for which the history has room, and ends its event.
fn answered_with<R: Rack + Drop, O: Opening>(
    domain: Domain<R, O>,
    alloc: Global,
    asked: Command,
    prefer: VolIx,
) -> Domain<R, O>
    requires rests { ⟦<Domain<R, O> as Told>⟧.rests domain }
    requires room { 1 ≤ ⟦<Domain<R, O> as Told>⟧.room domain }
    requires settled { IsSettled domain.memory }
    requires served { IsServed asked }
    ensures rests { ⟦<Domain<R, O> as Told>⟧.rests result }
    ensures settled { IsSettled result.memory }
{
    let mut domain = command(domain, alloc, 1, asked, prefer);
    domain.end_event();
    domain
}

/// Makes room in the history for a command, and answers it; if memory is short nothing is answered.
fn answered_if_room<R: Rack + Drop, O: Opening>(
    domain: Domain<R, O>,
    alloc: Global,
    asked: Command,
) -> Domain<R, O>
    requires rests { ⟦<Domain<R, O> as Told>⟧.rests domain }
    requires settled { IsSettled domain.memory }
    requires served { IsServed asked }
    ensures rests { ⟦<Domain<R, O> as Told>⟧.rests result }
    ensures settled { IsSettled result.memory }
{
    let mut domain = domain;
    let room = domain.reserve_history(1);
    match (VolIx::new(1), room) {
        (Some(prefer), Ok(())) => answered_with(domain, alloc, asked, prefer),
        _ => domain,
    }
}

/// Answers a command, and ends its event. Nothing is answered if memory is short, or if it is no
/// command that is answered so far.
pub fn answered<R: Rack + Drop, O: Opening>(
    domain: Domain<R, O>,
    alloc: Global,
    asked: Command,
) -> Domain<R, O>
    requires rests { ⟦<Domain<R, O> as Told>⟧.rests domain }
    requires settled { IsSettled domain.memory }
    ensures rests { ⟦<Domain<R, O> as Told>⟧.rests result }
    ensures settled { IsSettled result.memory }
{
    if is_served(&asked) {
        answered_if_room(domain, alloc, asked)
    } else {
        domain
    }
}
