//! Answering the commands of clients in turn.
ghost use Rattle.std.specs.Prelude.{◌≡◌, ◌+◌, ◌≤◌, ◌∷◌, ◌++◌, [], All, flat_map, length, map, sum_by};
ghost use Rattle.domain_attaching.specs.fileset_values.declared.command.Actor.TheVariants.{Client};
ghost use Rattle.client_commands.specs.name_commands.Ending.{IsServed};
ghost use Rattle.domain_attaching.specs.domain_memory.Staged.{IsSettled};
ghost use Rattle.run_parts.specs.script_text.Turns.{turn_of, turns_of};
ghost use Rattle.advfs_run.specs.Quiet.{TellNoFault};

use crate::gates::Gate;
use client_commands::command;
use domain_attaching::{Command, Domain, Opening, Rack, Told, VolIx};
use run_parts::Section;
use std::alloc::Global;

/// Answers a command of a client, and ends its event. The history has one more entry for it. The
/// entry's stamp is how many calls the rack has had, and its reply tells of no volume that failed,
/// since no call to a device is made.
pub fn take_turn<R: Rack, O: Opening>(
    domain: Domain<R, O>,
    alloc: Global,
    client: u8,
    asked: Command,
    prefer: VolIx,
) -> Domain<R, O>
    requires rests { ⟦<Domain<R, O> as Told>⟧.rests domain }
    requires room { 1 ≤ ⟦<Domain<R, O> as Told>⟧.room domain }
    requires settled { IsSettled domain.memory }
    requires served { IsServed asked }
    ensures turn { map turn_of (⟦<Domain<R, O> as Told>⟧.history result)
        ≡ map turn_of (⟦<Domain<R, O> as Told>⟧.history domain) ++ (Client client, asked) ∷ [] }
    ensures quiet { TellNoFault (⟦<Domain<R, O> as Told>⟧.history domain)
        → TellNoFault (⟦<Domain<R, O> as Told>⟧.history result) }
    ensures stamps { All (λ e. e.stamp ≡ (R.disk domain.history.rack).calls)
        (⟦<Domain<R, O> as Told>⟧.history domain)
        → All (λ e. e.stamp ≡ (R.disk domain.history.rack).calls)
        (⟦<Domain<R, O> as Told>⟧.history result) }
    ensures rests { ⟦<Domain<R, O> as Told>⟧.rests result }
    ensures settled { IsSettled result.memory }
    ensures room { ⟦<Domain<R, O> as Told>⟧.room domain
        ≤ ⟦<Domain<R, O> as Told>⟧.room result + 1 }
    ensures begun { ⟦<Domain<R, O> as Told>⟧.begun result ≡ ⟦<Domain<R, O> as Told>⟧.begun domain }
    ensures rack { result.history.rack ≡ domain.history.rack }
    ensures durable { result.history.durable ≡ domain.history.durable }
{
    let mut domain = command(domain, alloc, client, asked, prefer);
    domain.end_event();
    domain
}

/// Answers commands of a client, one after another. The gate is passed before each, and after the
/// last. The history has room for all of them.
fn answer_commands<R: Rack, O: Opening, G: Gate>(
    domain: Domain<R, O>,
    alloc: Global,
    client: u8,
    commands: Vec<Command>,
    prefer: VolIx,
    gate: &G,
) -> Domain<R, O>
    requires rests { ⟦<Domain<R, O> as Told>⟧.rests domain }
    requires room { length commands.items ≤ ⟦<Domain<R, O> as Told>⟧.room domain }
    requires settled { IsSettled domain.memory }
    requires served { All IsServed commands.items }
    ensures turns { map turn_of (⟦<Domain<R, O> as Told>⟧.history result)
        ≡ map turn_of (⟦<Domain<R, O> as Told>⟧.history domain)
        ++ map (λ command. (Client client, command)) commands.items }
    ensures quiet { TellNoFault (⟦<Domain<R, O> as Told>⟧.history domain)
        → TellNoFault (⟦<Domain<R, O> as Told>⟧.history result) }
    ensures stamps { All (λ e. e.stamp ≡ (R.disk domain.history.rack).calls)
        (⟦<Domain<R, O> as Told>⟧.history domain)
        → All (λ e. e.stamp ≡ (R.disk domain.history.rack).calls)
        (⟦<Domain<R, O> as Told>⟧.history result) }
    ensures rests { ⟦<Domain<R, O> as Told>⟧.rests result }
    ensures settled { IsSettled result.memory }
    ensures room { ⟦<Domain<R, O> as Told>⟧.room domain
        ≤ ⟦<Domain<R, O> as Told>⟧.room result + length commands.items }
    ensures begun { ⟦<Domain<R, O> as Told>⟧.begun result ≡ ⟦<Domain<R, O> as Told>⟧.begun domain }
    ensures rack { result.history.rack ≡ domain.history.rack }
    ensures durable { result.history.durable ≡ domain.history.durable }
{
    let actor = u32::from(client).saturating_sub(1);
    let mut domain = domain;
    for asked in commands {
        gate.pass(actor, domain.committed());
        let next = take_turn(domain, alloc, client, asked, prefer);
        domain = next;
    }
    gate.pass(actor, domain.committed());
    domain
}

/// Answers the commands of a client's section, one after another.
fn answer_section<R: Rack, O: Opening, G: Gate>(
    domain: Domain<R, O>,
    alloc: Global,
    section: Section,
    prefer: VolIx,
    gate: &G,
) -> Domain<R, O>
    requires rests { ⟦<Domain<R, O> as Told>⟧.rests domain }
    requires room { length section.commands ≤ ⟦<Domain<R, O> as Told>⟧.room domain }
    requires settled { IsSettled domain.memory }
    requires served { All IsServed section.commands }
    ensures turns { map turn_of (⟦<Domain<R, O> as Told>⟧.history result)
        ≡ map turn_of (⟦<Domain<R, O> as Told>⟧.history domain) ++ turns_of section }
    ensures quiet { TellNoFault (⟦<Domain<R, O> as Told>⟧.history domain)
        → TellNoFault (⟦<Domain<R, O> as Told>⟧.history result) }
    ensures stamps { All (λ e. e.stamp ≡ (R.disk domain.history.rack).calls)
        (⟦<Domain<R, O> as Told>⟧.history domain)
        → All (λ e. e.stamp ≡ (R.disk domain.history.rack).calls)
        (⟦<Domain<R, O> as Told>⟧.history result) }
    ensures rests { ⟦<Domain<R, O> as Told>⟧.rests result }
    ensures settled { IsSettled result.memory }
    ensures room { ⟦<Domain<R, O> as Told>⟧.room domain
        ≤ ⟦<Domain<R, O> as Told>⟧.room result + length section.commands }
    ensures begun { ⟦<Domain<R, O> as Told>⟧.begun result ≡ ⟦<Domain<R, O> as Told>⟧.begun domain }
    ensures rack { result.history.rack ≡ domain.history.rack }
    ensures durable { result.history.durable ≡ domain.history.durable }
{
    let client = section.number;
    let commands = section.commands.into_vec();
    answer_commands(domain, alloc, client, commands, prefer, gate)
}

/// Answers the commands of clients' sections, one section after another; each new entry has as its
/// stamp how many calls the rack has had. The gate is passed before each command, and after the
/// last of a section, with the client's number less one. The history has room for all of them.
pub fn answer_sections<R: Rack, O: Opening, G: Gate>(
    domain: Domain<R, O>,
    alloc: Global,
    sections: Vec<Section>,
    prefer: VolIx,
    gate: &G,
) -> Domain<R, O>
    requires rests { ⟦<Domain<R, O> as Told>⟧.rests domain }
    requires room { sum_by (λ section. length section.commands) sections.items
        ≤ ⟦<Domain<R, O> as Told>⟧.room domain }
    requires settled { IsSettled domain.memory }
    requires served { All (λ section. All IsServed section.commands) sections.items }
    ensures turns { map turn_of (⟦<Domain<R, O> as Told>⟧.history result)
        ≡ map turn_of (⟦<Domain<R, O> as Told>⟧.history domain)
        ++ flat_map turns_of sections.items }
    ensures quiet { TellNoFault (⟦<Domain<R, O> as Told>⟧.history domain)
        → TellNoFault (⟦<Domain<R, O> as Told>⟧.history result) }
    ensures stamps { All (λ e. e.stamp ≡ (R.disk domain.history.rack).calls)
        (⟦<Domain<R, O> as Told>⟧.history domain)
        → All (λ e. e.stamp ≡ (R.disk domain.history.rack).calls)
        (⟦<Domain<R, O> as Told>⟧.history result) }
    ensures rests { ⟦<Domain<R, O> as Told>⟧.rests result }
    ensures settled { IsSettled result.memory }
    ensures begun { ⟦<Domain<R, O> as Told>⟧.begun result ≡ ⟦<Domain<R, O> as Told>⟧.begun domain }
    ensures rack { result.history.rack ≡ domain.history.rack }
    ensures durable { result.history.durable ≡ domain.history.durable }
{
    let mut domain = domain;
    for section in sections {
        let next = answer_section(domain, alloc, section, prefer, gate);
        domain = next;
    }
    domain
}
