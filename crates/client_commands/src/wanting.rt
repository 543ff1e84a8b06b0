//! A command that finds no page: the domain is drained, and the command is laid over it once more.
ghost use Rattle.std.specs.Prelude.{◌≡◌, ◌≢◌, ◌+◌, ◌<◌, ◌≤◌, false, true, Err, IfErr, IfSome, None};
ghost use Rattle.file_commands.specs.fileset_model.Apply.{refusal_of};
ghost use Rattle.file_commands.specs.fileset_model.Filesets.{FilesetMap};
ghost use Rattle.file_commands.specs.legal_histories.Room.{need};
ghost use Rattle.file_commands.specs.legal_histories.Step.{TakesSpace};
ghost use Rattle.file_commands.specs.legal_histories.VolumeReply.{is_movers};
ghost use Rattle.file_commands.specs.domain_memory.Memory.{StandsFor};
ghost use Rattle.file_commands.specs.domain_memory.Staged.{IsSettled, MayGoBack};
ghost use Rattle.file_commands.specs.domain_memory.Going.{NoneWaits, NothingGoes, free_in};
ghost use Rattle.file_commands.specs.domain_state.History.{StandsForSome};
ghost use Rattle.file_commands.specs.name_commands.Coming.{AddsAnswer, AddsNoSpace, AddsOne};
ghost use Rattle.file_commands.specs.name_commands.Ending.{EndsAs, IsLaid, LacksPage};
ghost use Rattle.client_commands.specs.Wanting.{MayTake};
ghost use Rattle.file_commands.specs.name_commands.declared.stop.Stop.TheVariants.{NoPage};

use crate::answering::{add_refusal, answer, take_back};
use crate::releasing::{drain, release};
use crate::room::{may_take, need_of};
use file_commands::{
    Actor, Command, Domain, DomainMemory, Entry, Opening, Rack, Refusal, Reply, Stop, Told, VolIx,
    stage,
};
use release_changes::{may_empty, may_let_go};
use std::alloc::Global;

/// Lays a client's command over a domain.
pub(crate) fn lay<R: Rack, O: Opening>(
    domain: Domain<R, O>,
    alloc: Global,
    command: &Command,
    prefer: VolIx,
) -> (Domain<R, O>, Result<Reply, Stop>)
    requires settled { IsSettled domain.memory }
    requires served { IsLaid command.now }
    ensures ends { (all : FilesetMap) → StandsFor result.0.memory all
        → EndsAs result.0.memory all command.now result.1 }
    ensures stands { (all : FilesetMap) → StandsFor domain.memory all
        → StandsFor result.0.memory all }
    ensures stood { (all : FilesetMap) → StandsFor result.0.memory all
        → StandsFor domain.memory all }
    ensures history { result.0.history ≡ domain.history }
    ensures cause { IfErr result.1 (λ stop. stop ≡ NoPage
        → LacksPage command.now domain.memory) }
{
    let (memory, history) = domain.apart();
    let (memory, staged) = stage(memory, alloc, command, prefer);
    (Domain::together(memory, history), staged)
}

/// Whether a command that was laid over a domain found no page.
pub(crate) fn wants_page(staged: &Result<Reply, Stop>) -> bool
    ensures wants { result ≡ true → staged.now ≡ Err NoPage }
    ensures found { result ≡ false → staged.now ≢ Err NoPage }
{
    matches!(staged, Err(Stop::NoPage))
}

/// Whether a command changes nothing in any fileset, whatever it is answered.
fn only_looks(command: &Command) -> bool {
    matches!(
        command,
        Command::Showfsets
            | Command::Showquota { .. }
            | Command::Read { .. }
            | Command::Links { .. }
            | Command::List { .. }
            | Command::Stat { .. }
            | Command::Fsync { .. }
            | Command::Sync
            | Command::Cancel
    )
}

/// Lets go of some of the things on a domain's list, unless a command only looked at filesets. If
/// memory runs out, nothing is let go of.
fn release_unless<R: Rack, O: Opening>(
    domain: Domain<R, O>,
    alloc: Global,
    looks: bool,
) -> Domain<R, O>
    requires settled { IsSettled domain.memory }
    ensures stands { (all : FilesetMap) → StandsFor domain.memory all
        → StandsFor result.memory all }
    ensures settled { IsSettled result.memory }
    ensures history { result.history ≡ domain.history }
{
    if looks {
        domain
    } else {
        let (domain, _) = release(domain, alloc);
        domain
    }
}

/// Ends a command that found the pages that it needs. After a command that changes filesets,
/// something on the domain's list is let go of.
pub(crate) fn answer_found<R: Rack, O: Opening>(
    domain: Domain<R, O>,
    alloc: Global,
    client: u8,
    command: Command,
    staged: Result<Reply, Stop>,
) -> Domain<R, O>
    requires first { ⟦<Domain<R, O> as Told>⟧.rests domain }
    requires room { 1 ≤ ⟦<Domain<R, O> as Told>⟧.room domain }
    requires clients { is_movers command ≡ false }
    requires found { staged ≢ Err NoPage }
    requires ends { (all : FilesetMap) → StandsFor domain.memory all
        → EndsAs domain.memory all command staged }
    ensures adds { AddsAnswer client command domain.memory result.memory
        (⟦<Domain<R, O> as Told>⟧.history domain) (⟦<Domain<R, O> as Told>⟧.history result) }
    ensures settled { IsSettled result.memory }
    ensures begun { ⟦<Domain<R, O> as Told>⟧.begun result ≡ ⟦<Domain<R, O> as Told>⟧.begun domain }
    ensures room { ⟦<Domain<R, O> as Told>⟧.room domain
        ≤ ⟦<Domain<R, O> as Told>⟧.room result + 1 }
    ensures rack { result.history.rack ≡ domain.history.rack }
    ensures durable { result.history.durable ≡ domain.history.durable }
    ensures added { result.history.added ≡ true }
{
    let looks = only_looks(&command);
    let domain = answer(domain, client, command, staged);
    release_unless(domain, alloc, looks)
}

/// How many pages are free, and how many a command may need.
#[derive(Clone, Copy)]
struct Want {
    free: u64,
    need: u64,
}

/// Whether no page of any volume waits.
fn none_waits(memory: &DomainMemory) -> bool
    ensures { result ≡ true → NoneWaits memory.now.space }
{
    memory.space.waiting() == 0
}

/// Whether fewer pages are free than are needed, no page of a domain waits, and nothing on its list
/// may be let go of, nor anything of what is being removed from slots.
fn is_short(memory: &DomainMemory, want: Want) -> bool
    requires settled { IsSettled memory.now }
    requires stands { ∥ StandsForSome memory.now ∥₁ }
    requires back { ∥ MayGoBack memory.now ∥₁ }
    ensures few { result ≡ true → want.free < want.need }
    ensures waits { result ≡ true → NoneWaits memory.now.space }
    ensures goes { result ≡ true → NothingGoes memory.now }
{
    want.free < want.need && none_waits(memory) && !may_let_go(memory) && !may_empty(memory)
}

/// Whether a command that finds no page may be answered no-space: it takes space, and the domain is
/// short of pages.
fn may_refuse(memory: &DomainMemory, command: &Command, want: Want) -> bool
    requires settled { IsSettled memory.now }
    requires stands { ∥ StandsForSome memory.now ∥₁ }
    requires back { ∥ MayGoBack memory.now ∥₁ }
    ensures few { result ≡ true → want.free < want.need }
    ensures waits { result ≡ true → NoneWaits memory.now.space }
    ensures goes { result ≡ true → NothingGoes memory.now }
    ensures takes { result ≡ true → MayTake command.now }
{
    may_take(command) && is_short(memory, want)
}

/// How many pages are free in a domain, and how many a command may need; None if these do not fit a
/// number of 64 bits.
fn want_of(memory: &DomainMemory, command: &Command) -> Option<Want>
    ensures free { IfSome result (λ want. want.free ≡ free_in memory.now) }
    ensures need { IfSome result (λ want. want.need ≡ need command.now) }
{
    let need = need_of(command)?;
    let free = u64::from(memory.space.free_now());
    Some(Want { free, need })
}

/// Adds a client's command that is answered no-space to a domain's history.
fn add_no_space<R: Rack, O: Opening>(
    domain: Domain<R, O>,
    client: u8,
    command: Command,
    want: Want,
) -> Domain<R, O>
    requires first { ⟦<Domain<R, O> as Told>⟧.rests domain }
    requires room { 1 ≤ ⟦<Domain<R, O> as Told>⟧.room domain }
    requires settled { IsSettled domain.memory }
    requires free { want.free ≡ free_in domain.memory }
    requires need { want.need ≡ need command }
    requires few { want.free < want.need }
    requires waits { NoneWaits domain.memory.space }
    requires goes { NothingGoes domain.memory }
    requires may { MayTake command }
    requires takes { (all : FilesetMap) → StandsFor domain.memory all → TakesSpace all command }
    requires allowed { (all : FilesetMap) → StandsFor domain.memory all
        → refusal_of all command ≡ None }
    ensures adds { AddsNoSpace client command domain.memory result.memory
        (⟦<Domain<R, O> as Told>⟧.history domain) (⟦<Domain<R, O> as Told>⟧.history result) }
    ensures memory { result.memory ≡ domain.memory }
    ensures begun { ⟦<Domain<R, O> as Told>⟧.begun result ≡ ⟦<Domain<R, O> as Told>⟧.begun domain }
    ensures room { ⟦<Domain<R, O> as Told>⟧.room domain
        ≤ ⟦<Domain<R, O> as Told>⟧.room result + 1 }
    ensures rack { result.history.rack ≡ domain.history.rack }
    ensures durable { result.history.durable ≡ domain.history.durable }
    ensures added { result.history.added ≡ true }
{
    let stamp = domain.calls();
    let mut domain = domain;
    domain.commit_unchanged(Entry {
        actor: Actor::Client(client),
        command,
        reply: Reply::Refused(Refusal::NoSpace {
            free: want.free,
            need: want.need,
        }),
        stamp,
    });
    domain
}

/// Ends a client's command that no rule refuses, and that found no page in a domain that was
/// drained. The answer is no-space, or out-of-memory if no-space is not allowed.
fn refuse_want<R: Rack, O: Opening>(
    domain: Domain<R, O>,
    client: u8,
    command: Command,
    want: Want,
) -> Domain<R, O>
    requires first { ⟦<Domain<R, O> as Told>⟧.rests domain }
    requires room { 1 ≤ ⟦<Domain<R, O> as Told>⟧.room domain }
    requires settled { IsSettled domain.memory }
    requires clients { is_movers command ≡ false }
    requires free { want.free ≡ free_in domain.memory }
    requires need { want.need ≡ need command }
    requires takes { MayTake command → (all : FilesetMap) → StandsFor domain.memory all
        → TakesSpace all command }
    requires allowed { (all : FilesetMap) → StandsFor domain.memory all
        → refusal_of all command ≡ None }
    ensures adds { AddsOne client command domain.memory result.memory
        (⟦<Domain<R, O> as Told>⟧.history domain) (⟦<Domain<R, O> as Told>⟧.history result) }
    ensures settled { IsSettled result.memory }
    ensures begun { ⟦<Domain<R, O> as Told>⟧.begun result ≡ ⟦<Domain<R, O> as Told>⟧.begun domain }
    ensures room { ⟦<Domain<R, O> as Told>⟧.room domain
        ≤ ⟦<Domain<R, O> as Told>⟧.room result + 1 }
    ensures rack { result.history.rack ≡ domain.history.rack }
    ensures durable { result.history.durable ≡ domain.history.durable }
    ensures added { result.history.added ≡ true }
{
    let is_refused = may_refuse(domain.memory(), &command, want);
    if is_refused {
        add_no_space(domain, client, command, want)
    } else {
        add_refusal(domain, client, command, Refusal::OutOfMemory)
    }
}

/// Refuses a command that finds no page in a domain that was drained, once what it may need is
/// counted.
fn refuse_for_want<R: Rack, O: Opening>(
    domain: Domain<R, O>,
    client: u8,
    command: Command,
) -> Domain<R, O>
    requires first { ⟦<Domain<R, O> as Told>⟧.rests domain }
    requires room { 1 ≤ ⟦<Domain<R, O> as Told>⟧.room domain }
    requires settled { IsSettled domain.memory }
    requires clients { is_movers command ≡ false }
    requires takes { MayTake command → (all : FilesetMap) → StandsFor domain.memory all
        → TakesSpace all command }
    requires allowed { (all : FilesetMap) → StandsFor domain.memory all
        → refusal_of all command ≡ None }
    ensures adds { AddsOne client command domain.memory result.memory
        (⟦<Domain<R, O> as Told>⟧.history domain) (⟦<Domain<R, O> as Told>⟧.history result) }
    ensures settled { IsSettled result.memory }
    ensures begun { ⟦<Domain<R, O> as Told>⟧.begun result ≡ ⟦<Domain<R, O> as Told>⟧.begun domain }
    ensures room { ⟦<Domain<R, O> as Told>⟧.room domain
        ≤ ⟦<Domain<R, O> as Told>⟧.room result + 1 }
    ensures rack { result.history.rack ≡ domain.history.rack }
    ensures durable { result.history.durable ≡ domain.history.durable }
    ensures added { result.history.added ≡ true }
{
    let want = want_of(domain.memory(), &command);
    match want {
        Some(want) => refuse_want(domain, client, command, want),
        None => add_refusal(domain, client, command, Refusal::OutOfMemory),
    }
}

/// Lays a client's command over a domain that was drained, and ends it.
fn answer_last<R: Rack, O: Opening>(
    domain: Domain<R, O>,
    alloc: Global,
    client: u8,
    command: Command,
    prefer: VolIx,
) -> Domain<R, O>
    requires first { ⟦<Domain<R, O> as Told>⟧.rests domain }
    requires room { 1 ≤ ⟦<Domain<R, O> as Told>⟧.room domain }
    requires settled { IsSettled domain.memory }
    requires served { IsLaid command }
    ensures adds { AddsOne client command domain.memory result.memory
        (⟦<Domain<R, O> as Told>⟧.history domain) (⟦<Domain<R, O> as Told>⟧.history result) }
    ensures settled { IsSettled result.memory }
    ensures begun { ⟦<Domain<R, O> as Told>⟧.begun result ≡ ⟦<Domain<R, O> as Told>⟧.begun domain }
    ensures room { ⟦<Domain<R, O> as Told>⟧.room domain
        ≤ ⟦<Domain<R, O> as Told>⟧.room result + 1 }
    ensures rack { result.history.rack ≡ domain.history.rack }
    ensures durable { result.history.durable ≡ domain.history.durable }
    ensures added { result.history.added ≡ true }
{
    let (domain, staged) = lay(domain, alloc, &command, prefer);
    if wants_page(&staged) {
        refuse_for_want(take_back(domain), client, command)
    } else {
        answer_found(domain, alloc, client, command, staged)
    }
}

/// Lays a client's command over a domain once more, after a first time that found no page, and ends
/// it. The domain is drained before that, so that no page waits. If memory runs out for this, the
/// answer is out-of-memory.
pub(crate) fn answer_drained<R: Rack, O: Opening>(
    domain: Domain<R, O>,
    alloc: Global,
    client: u8,
    command: Command,
    prefer: VolIx,
) -> Domain<R, O>
    requires first { ⟦<Domain<R, O> as Told>⟧.rests domain }
    requires room { 1 ≤ ⟦<Domain<R, O> as Told>⟧.room domain }
    requires settled { IsSettled domain.memory }
    requires served { IsLaid command }
    ensures adds { AddsOne client command domain.memory result.memory
        (⟦<Domain<R, O> as Told>⟧.history domain) (⟦<Domain<R, O> as Told>⟧.history result) }
    ensures settled { IsSettled result.memory }
    ensures begun { ⟦<Domain<R, O> as Told>⟧.begun result ≡ ⟦<Domain<R, O> as Told>⟧.begun domain }
    ensures room { ⟦<Domain<R, O> as Told>⟧.room domain
        ≤ ⟦<Domain<R, O> as Told>⟧.room result + 1 }
    ensures rack { result.history.rack ≡ domain.history.rack }
    ensures durable { result.history.durable ≡ domain.history.durable }
    ensures added { result.history.added ≡ true }
{
    let (domain, drained) = drain(domain, alloc);
    if drained.is_err() {
        add_refusal(domain, client, command, Refusal::OutOfMemory)
    } else {
        answer_last(domain, alloc, client, command, prefer)
    }
}
