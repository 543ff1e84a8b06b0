//! What a client is told of a domain's volumes, added to the domain's history.
ghost use Rattle.std.specs.Prelude.{◌≡◌, ◌+◌, ◌≤◌, true};
ghost use Rattle.file_commands.specs.fileset_model.Filesets.{FilesetMap};
ghost use Rattle.file_commands.specs.domain_memory.Memory.{StandsFor};
ghost use Rattle.file_commands.specs.domain_memory.Staged.{IsSettled};
ghost use Rattle.file_commands.specs.domain_memory.declared.memory.DomainMemory.{DomainMemory as MemoryOf};
ghost use Rattle.file_commands.specs.fileset_values.declared.command.Command.{Command as CommandOf};
ghost use Rattle.client_commands.specs.Shown.{
  AddsReply,
  AddsShown,
  IsShowing,
  IsShownIfMemory,
  ShowsAs,
};

use crate::showing_volumes::show_volumes;
use file_commands::{
    Actor, Command, Domain, Entry, Opening, Rack, Refusal, Reply, Stop, Told, VolIx,
};
use std::alloc::Global;

/// Looks at the volumes of a domain for a command that shows them. The domain stays as it is.
fn look<R: Rack, O: Opening>(
    domain: Domain<R, O>,
    alloc: Global,
    command: &Command,
    prefer: VolIx,
) -> (Domain<R, O>, Result<Reply, Stop>)
    requires settled { IsSettled domain.memory }
    requires showing { IsShowing command.now }
    ensures stands { (all : FilesetMap) → StandsFor domain.memory all
        → StandsFor result.0.memory all }
    ensures settled { IsSettled result.0.memory }
    ensures shown { (all : FilesetMap) → StandsFor result.0.memory all
        → ShowsAs result.0.memory all command.now result.1 }
    ensures was { (all : FilesetMap) → StandsFor domain.memory all
        → ShowsAs domain.memory all command.now result.1 }
    ensures history { result.0.history ≡ domain.history }
{
    let (memory, history) = domain.apart();
    let (memory, shown) = show_volumes(memory, alloc, command, prefer);
    (Domain::together(memory, history), shown)
}

/// The reply to a command that shows this, or that is stopped.
fn reply_of(shown: Result<Reply, Stop>) -> Reply
    ensures { (memory : MemoryOf) (all : FilesetMap) (command : CommandOf)
        → ShowsAs memory all command shown → IsShownIfMemory memory all command result }
{
    match shown {
        Ok(reply) => reply,
        Err(stop) => match stop {
            Stop::Refused(refusal) => Reply::Refused(refusal),
            Stop::NoPage | Stop::OutOfMemory => Reply::Refused(Refusal::OutOfMemory),
        },
    }
}

/// Adds a client's command that shows volumes to a domain's history, with its reply.
fn add_shown<R: Rack, O: Opening>(
    domain: Domain<R, O>,
    client: u8,
    command: Command,
    reply: Reply,
) -> Domain<R, O>
    requires first { ⟦<Domain<R, O> as Told>⟧.rests domain }
    requires room { 1 ≤ ⟦<Domain<R, O> as Told>⟧.room domain }
    requires showing { IsShowing command }
    requires shown { (all : FilesetMap) → StandsFor domain.memory all
        → IsShownIfMemory domain.memory all command reply }
    ensures adds { AddsReply client command reply (⟦<Domain<R, O> as Told>⟧.history domain)
        (⟦<Domain<R, O> as Told>⟧.history result) }
    ensures memory { result.memory ≡ domain.memory }
    ensures begun { ⟦<Domain<R, O> as Told>⟧.begun result ≡ ⟦<Domain<R, O> as Told>⟧.begun domain }
    ensures room { ⟦<Domain<R, O> as Told>⟧.room domain
        ≤ ⟦<Domain<R, O> as Told>⟧.room result + 1 }
    ensures rack { result.history.rack ≡ domain.history.rack }
    ensures durable { result.history.durable ≡ domain.history.durable }
    ensures added { result.history.added ≡ true }
{
    let stamp = domain.calls();
    let mut domain = domain;
    domain.commit_unchanged(Entry {
        actor: Actor::Client(client),
        command,
        reply,
        stamp,
    });
    domain
}

/// Answers a command of a client that shows volumes, and adds it to the domain's history. The
/// domain stays as it is.
pub(crate) fn tell<R: Rack, O: Opening>(
    domain: Domain<R, O>,
    alloc: Global,
    client: u8,
    command: Command,
    prefer: VolIx,
) -> Domain<R, O>
    requires first { ⟦<Domain<R, O> as Told>⟧.rests domain }
    requires room { 1 ≤ ⟦<Domain<R, O> as Told>⟧.room domain }
    requires settled { IsSettled domain.memory }
    requires showing { IsShowing command }
    ensures adds { AddsShown client command domain.memory result.memory
        (⟦<Domain<R, O> as Told>⟧.history domain) (⟦<Domain<R, O> as Told>⟧.history result) }
    ensures settled { IsSettled result.memory }
    ensures begun { ⟦<Domain<R, O> as Told>⟧.begun result ≡ ⟦<Domain<R, O> as Told>⟧.begun domain }
    ensures room { ⟦<Domain<R, O> as Told>⟧.room domain
        ≤ ⟦<Domain<R, O> as Told>⟧.room result + 1 }
    ensures rack { result.history.rack ≡ domain.history.rack }
    ensures durable { result.history.durable ≡ domain.history.durable }
    ensures added { result.history.added ≡ true }
{
    let (domain, shown) = look(domain, alloc, &command, prefer);
    add_shown(domain, client, command, reply_of(shown))
}
