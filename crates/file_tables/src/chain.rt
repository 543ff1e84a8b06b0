//! A fileset's chain of quota cells, changed by lines of text: an owner, then numbers of files and
//! of blocks.
ghost use Rattle.std.specs.Prelude.{◌≡◌, ◌≤◌, ◌^◌, IfOk, None, OnErr, Some};
ghost use Rattle.release_steps.specs.fileset_values.declared.command.Owner.TheVariants.{Fileset};
ghost use Rattle.file_tables.specs.Chains.{HasChain};

use file_world::world::{World, new_world, volume};
use release_steps::{CellAt, FilesetNo, Limits, Owner, StoreFault, set_limits, take_cell};
use std::alloc::Global;
use std::test::Fail;

/// A world without a chain.
pub fn new_scene(alloc: Global, count: u32) -> Result<World, Fail>
    requires low { 3 ≤ count }
    requires high { count ≤ 2 ^ 20 }
    ensures { IfOk result (λ world. HasChain world None) }
{
    new_world(alloc, count)
}

/// The user or the group that a word and an id name.
fn owner_of(word: &str, id: u32) -> Result<Owner, Fail>
    ensures { IfOk result (λ who. ¬ who ≡ Fileset) }
{
    match word {
        "user" => Ok(Owner::User(id)),
        "group" => Ok(Owner::Group(id)),
        _ => Err(Fail::from("a user or a group")),
    }
}

/// A word and what follows it.
fn word_of(text: &str) -> Result<(&str, &str), Fail> {
    Ok(text.split_once(' ').ok_or("a word")?)
}

/// Sets an owner's limits in the chain that begins there, and answers where it begins then.
fn set(
    alloc: Global,
    world: &mut World,
    first: Option<CellAt>,
    who: Owner,
    limits: Limits,
) -> Result<Result<CellAt, StoreFault>, Fail>
    requires chain { HasChain world.old first }
    requires named { ¬ who ≡ Fileset }
    ensures ok { IfOk result (λ set. IfOk set (λ start. HasChain world.new (Some start))) }
    ensures err { IfOk result (λ set. OnErr set (HasChain world.new first)) }
{
    let fileset = FilesetNo::new(1).ok_or("a fileset")?;
    Ok(set_limits(
        alloc,
        &mut world.pages,
        &mut world.space,
        &mut world.cells,
        fileset,
        first,
        who,
        limits,
        volume(),
    ))
}

/// Sets the limits that a line says.
pub fn set_line(
    alloc: Global,
    world: &mut World,
    first: Option<CellAt>,
    line: &str,
) -> Result<Result<CellAt, StoreFault>, Fail>
    requires { HasChain world.old first }
    ensures ok { IfOk result (λ set. IfOk set (λ start. HasChain world.new (Some start))) }
    ensures err { IfOk result (λ set. OnErr set (HasChain world.new first)) }
{
    let (word, rest) = word_of(line)?;
    let (id, rest) = word_of(rest)?;
    let (files, blocks) = word_of(rest)?;
    let who = owner_of(word, id.parse()?)?;
    let limits = Limits {
        files: files.parse()?,
        blocks: blocks.parse()?,
    };
    set(alloc, world, first, who, limits)
}

/// Takes `count` cells for something else, if no chain has begun.
pub fn use_cells(alloc: Global, world: &mut World, count: u32) -> Result<(), Fail>
    requires { HasChain world.old None }
    ensures { IfOk result (λ _. HasChain world.new None) }
{
    for _ in 0..count {
        take_cell(
            alloc,
            &mut world.pages,
            &mut world.space,
            &mut world.cells,
            volume(),
        )?;
    }
    Ok(())
}
