//! Answering a command of a client.
ghost use Rattle.std.specs.Prelude.{◌≡◌, ◌+◌, ◌≤◌, true};
ghost use Rattle.file_commands.specs.domain_memory.Staged.{IsSettled};
ghost use Rattle.file_commands.specs.name_commands.Ending.{IsServed};
ghost use Rattle.client_commands.specs.Shown.{AddsEntry};

use crate::answering::take_back;
use crate::showing_volumes::shows_volumes;
use crate::telling_volumes::tell;
use crate::wanting::{answer_drained, answer_found, lay, wants_page};
use file_commands::{Command, Domain, Opening, Rack, Told, VolIx};
use std::alloc::Global;

/// Answers a command of a client, and adds it to the history with its change. The command is
/// refused as the rules of filesets say, in their order, or answered out-of-memory, and then
/// nothing changes. A command that shows volumes tells of the domain's own volumes, and changes
/// nothing.
///
/// If a command needs a page and none is free, the domain is drained, and the command is laid over
/// it once more. If it lacks a page again, it is answered no-space, with the number of free pages
/// and of those that it may need, as long as fewer are free and nothing is left to be given up;
/// otherwise it is answered out-of-memory. It is answered out-of-memory, too, if its change would
/// leave more than 24 more pages held. After a command that changes something, things on the list
/// are let go of.
///
/// Pages and cells are taken from the preferred volume first.
pub fn command<R: Rack, O: Opening>(
    domain: Domain<R, O>,
    alloc: Global,
    client: u8,
    command: Command,
    prefer: VolIx,
) -> Domain<R, O>
    requires first { ⟦<Domain<R, O> as Told>⟧.rests domain }
    requires room { 1 ≤ ⟦<Domain<R, O> as Told>⟧.room domain }
    requires settled { IsSettled domain.memory }
    requires served { IsServed command }
    ensures adds { AddsEntry client command domain.memory result.memory
        (⟦<Domain<R, O> as Told>⟧.history domain) (⟦<Domain<R, O> as Told>⟧.history result) }
    ensures settled { IsSettled result.memory }
    ensures begun { ⟦<Domain<R, O> as Told>⟧.begun result ≡ ⟦<Domain<R, O> as Told>⟧.begun domain }
    ensures room { ⟦<Domain<R, O> as Told>⟧.room domain
        ≤ ⟦<Domain<R, O> as Told>⟧.room result + 1 }
    ensures rack { result.history.rack ≡ domain.history.rack }
    ensures durable { result.history.durable ≡ domain.history.durable }
    ensures added { result.history.added ≡ true }
{
    if shows_volumes(&command) {
        return tell(domain, alloc, client, command, prefer);
    }
    let (domain, staged) = lay(domain, alloc, &command, prefer);
    if wants_page(&staged) {
        answer_drained(take_back(domain), alloc, client, command, prefer)
    } else {
        answer_found(domain, alloc, client, command, staged)
    }
}
