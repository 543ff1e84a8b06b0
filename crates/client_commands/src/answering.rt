//! Adding the answer to a client's command, with the change that is laid over a domain.
ghost use Rattle.std.specs.Prelude.{◌≡◌, ◌≢◌, ◌⊎◌, ◌≤◌, ◌+◌, false, true, Err, Some};
ghost use Rattle.file_commands.specs.fileset_model.Apply.{refusal_of};
ghost use Rattle.file_commands.specs.fileset_model.Filesets.{FilesetMap};
ghost use Rattle.file_commands.specs.fileset_values.declared.reply.Refusal.TheVariants.{OutOfMemory};
ghost use Rattle.file_commands.specs.legal_histories.VolumeReply.{is_movers};
ghost use Rattle.file_commands.specs.domain_memory.Memory.{StandsFor};
ghost use Rattle.file_commands.specs.domain_memory.Staged.{IsSettled};
ghost use Rattle.file_commands.specs.domain_state.Room.{HoldsFew};
ghost use Rattle.file_commands.specs.name_commands.Coming.{AddsNone, AddsAnswer, IsAnswered};
ghost use Rattle.file_commands.specs.name_commands.Ending.{EndsAs};
ghost use Rattle.file_commands.specs.name_commands.declared.stop.Stop.TheVariants.{NoPage};

use crate::room::holds_few;
use file_commands::{Actor, Command, Domain, Entry, Opening, Rack, Refusal, Reply, Stop, Told};

/// Adds a client's command with its answer to a domain's history, with the change that is laid over
/// the domain.
fn add_answer<R: Rack, O: Opening>(
    domain: Domain<R, O>,
    client: u8,
    command: Command,
    reply: Reply,
) -> Domain<R, O>
    requires first { ⟦<Domain<R, O> as Told>⟧.rests domain }
    requires room { 1 ≤ ⟦<Domain<R, O> as Told>⟧.room domain }
    requires clients { is_movers command ≡ false }
    requires few { HoldsFew domain.memory }
    requires answered { (all : FilesetMap) → StandsFor domain.memory all
        → IsAnswered domain.memory all command reply }
    ensures adds { AddsAnswer client command domain.memory result.memory
        (⟦<Domain<R, O> as Told>⟧.history domain) (⟦<Domain<R, O> as Told>⟧.history result) }
    ensures settled { IsSettled result.memory }
    ensures begun { ⟦<Domain<R, O> as Told>⟧.begun result ≡ ⟦<Domain<R, O> as Told>⟧.begun domain }
    ensures room { ⟦<Domain<R, O> as Told>⟧.room domain
        ≤ ⟦<Domain<R, O> as Told>⟧.room result + 1 }
    ensures rack { result.history.rack ≡ domain.history.rack }
    ensures durable { result.history.durable ≡ domain.history.durable }
    ensures added { result.history.added ≡ true }
{
    let stamp = domain.calls();
    let mut domain = domain;
    domain.commit(Entry {
        actor: Actor::Client(client),
        command,
        reply,
        stamp,
    });
    domain
}

/// Takes back the change that is laid over a domain.
pub(crate) fn take_back<R: Rack, O: Opening>(domain: Domain<R, O>) -> Domain<R, O>
    ensures none { AddsNone domain.memory result.memory
        (⟦<Domain<R, O> as Told>⟧.history domain) (⟦<Domain<R, O> as Told>⟧.history result) }
    ensures was { (all : FilesetMap) → StandsFor result.memory all
        → StandsFor domain.memory all }
    ensures rests { ⟦<Domain<R, O> as Told>⟧.rests domain
        → ⟦<Domain<R, O> as Told>⟧.rests result }
    ensures begun { ⟦<Domain<R, O> as Told>⟧.begun result ≡ ⟦<Domain<R, O> as Told>⟧.begun domain }
    ensures room { ⟦<Domain<R, O> as Told>⟧.room result ≡ ⟦<Domain<R, O> as Told>⟧.room domain }
    ensures rack { result.history.rack ≡ domain.history.rack }
    ensures durable { result.history.durable ≡ domain.history.durable }
{
    let mut domain = domain;
    domain.discard();
    domain
}

/// Takes back the change that is laid over a domain, and adds a client's command to its history
/// with a refusal: that of the rules of filesets, or out-of-memory.
pub(crate) fn add_refusal<R: Rack, O: Opening>(
    domain: Domain<R, O>,
    client: u8,
    command: Command,
    refusal: Refusal,
) -> Domain<R, O>
    requires first { ⟦<Domain<R, O> as Told>⟧.rests domain }
    requires room { 1 ≤ ⟦<Domain<R, O> as Told>⟧.room domain }
    requires clients { is_movers command ≡ false }
    requires refused { (all : FilesetMap) → StandsFor domain.memory all
        → (refusal_of all command ≡ Some refusal) ⊎ (refusal ≡ OutOfMemory) }
    ensures adds { AddsAnswer client command domain.memory result.memory
        (⟦<Domain<R, O> as Told>⟧.history domain) (⟦<Domain<R, O> as Told>⟧.history result) }
    ensures settled { IsSettled result.memory }
    ensures begun { ⟦<Domain<R, O> as Told>⟧.begun result ≡ ⟦<Domain<R, O> as Told>⟧.begun domain }
    ensures room { ⟦<Domain<R, O> as Told>⟧.room domain
        ≤ ⟦<Domain<R, O> as Told>⟧.room result + 1 }
    ensures rack { result.history.rack ≡ domain.history.rack }
    ensures durable { result.history.durable ≡ domain.history.durable }
    ensures added { result.history.added ≡ true }
{
    add_answer(take_back(domain), client, command, Reply::Refused(refusal))
}

/// Adds a client's command with its answer, with the change that is laid over the domain. If the
/// change leaves more than 24 more pages held, it is taken back, and the answer is out-of-memory.
fn add_if_few<R: Rack, O: Opening>(
    domain: Domain<R, O>,
    client: u8,
    command: Command,
    reply: Reply,
) -> Domain<R, O>
    requires first { ⟦<Domain<R, O> as Told>⟧.rests domain }
    requires room { 1 ≤ ⟦<Domain<R, O> as Told>⟧.room domain }
    requires clients { is_movers command ≡ false }
    requires answered { (all : FilesetMap) → StandsFor domain.memory all
        → IsAnswered domain.memory all command reply }
    ensures adds { AddsAnswer client command domain.memory result.memory
        (⟦<Domain<R, O> as Told>⟧.history domain) (⟦<Domain<R, O> as Told>⟧.history result) }
    ensures settled { IsSettled result.memory }
    ensures begun { ⟦<Domain<R, O> as Told>⟧.begun result ≡ ⟦<Domain<R, O> as Told>⟧.begun domain }
    ensures room { ⟦<Domain<R, O> as Told>⟧.room domain
        ≤ ⟦<Domain<R, O> as Told>⟧.room result + 1 }
    ensures rack { result.history.rack ≡ domain.history.rack }
    ensures durable { result.history.durable ≡ domain.history.durable }
    ensures added { result.history.added ≡ true }
{
    let is_few = holds_few(domain.memory());
    if is_few {
        add_answer(domain, client, command, reply)
    } else {
        let short = Refusal::OutOfMemory;
        add_refusal(domain, client, command, short)
    }
}

/// Ends a client's command that found the pages that it needs, with the change that is laid over a
/// domain. It is added to the history with its answer. Nothing changes if it is refused, if memory
/// ran out, or if more than 24 more pages would be held.
pub(crate) fn answer<R: Rack, O: Opening>(
    domain: Domain<R, O>,
    client: u8,
    command: Command,
    staged: Result<Reply, Stop>,
) -> Domain<R, O>
    requires first { ⟦<Domain<R, O> as Told>⟧.rests domain }
    requires room { 1 ≤ ⟦<Domain<R, O> as Told>⟧.room domain }
    requires clients { is_movers command ≡ false }
    requires found { staged ≢ Err NoPage }
    requires ends { (all : FilesetMap) → StandsFor domain.memory all
        → EndsAs domain.memory all command staged }
    ensures adds { AddsAnswer client command domain.memory result.memory
        (⟦<Domain<R, O> as Told>⟧.history domain) (⟦<Domain<R, O> as Told>⟧.history result) }
    ensures settled { IsSettled result.memory }
    ensures begun { ⟦<Domain<R, O> as Told>⟧.begun result ≡ ⟦<Domain<R, O> as Told>⟧.begun domain }
    ensures room { ⟦<Domain<R, O> as Told>⟧.room domain
        ≤ ⟦<Domain<R, O> as Told>⟧.room result + 1 }
    ensures rack { result.history.rack ≡ domain.history.rack }
    ensures durable { result.history.durable ≡ domain.history.durable }
    ensures added { result.history.added ≡ true }
{
    match staged {
        Ok(reply) => add_if_few(domain, client, command, reply),
        Err(stop) => match stop {
            Stop::Refused(refusal) => add_refusal(domain, client, command, refusal),
            Stop::OutOfMemory => {
                let short = Refusal::OutOfMemory;
                add_refusal(domain, client, command, short)
            }
            Stop::NoPage => unreachable!(),
        },
    }
}
