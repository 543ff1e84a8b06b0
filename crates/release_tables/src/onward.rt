//! Lists whose steps go on where those of an earlier call were, with files made between the
//! calls.
ghost use Rattle.std.specs.Prelude.{IfOk};
ghost use Rattle.release_tables.specs.Onward.{GoesOnFrom};
ghost use Rattle.release_tables.specs.Stood.{HasStood};

use crate::going::counts;
use crate::making::{give_pages, make};
use crate::removing::{cut_listed, make_with, new_scene};
use crate::seen::say_counts;
use file_world::reading::say_numbers;
use file_world::world::World;
use release_steps::{Deferred, Kind, Tag, Version};
use std::alloc::Global;
use std::test::Fail;

/// Makes nine files of three pages each, which are all cut to one page and listed.
fn nine_cut(alloc: Global, world: &mut World, list: &mut Deferred) -> Result<(), Fail>
    requires { HasStood world.old list.old.list }
    ensures { IfOk result (λ _. HasStood world.new list.new.list) }
{
    for _ in 0..9_u32 {
        let tag = make_with(alloc, world, list, Kind::File, &[0, 1, 2])?;
        cut_listed(alloc, world, list, tag, 8_192)?;
    }
    Ok(())
}

/// Makes a file of one page, while steps go on where they were.
fn make_between(alloc: Global, world: &mut World, list: &Deferred) -> Result<Tag, Fail>
    requires { GoesOnFrom world.old list.now }
    ensures { IfOk result (λ _. GoesOnFrom world.new list.now) }
{
    let tag = make(alloc, world, Kind::File, Version::Four)?;
    give_pages(alloc, world, tag, &[0], Version::Four)?;
    Ok(tag)
}

/// Lets go of things of a list with group 5, in one call that goes on where the one before it was:
/// how many steps were done.
fn go_on(alloc: Global, world: &mut World, list: &mut Deferred) -> Result<u32, Fail>
    requires { GoesOnFrom world.old list.old }
    ensures { IfOk result (λ _. GoesOnFrom world.new list.new) }
{
    list.forget_clone();
    Ok(list.release_some(
        alloc,
        &mut world.pages,
        &mut world.space,
        &mut world.cells,
        5,
        Version::Four,
        30,
    )?)
}

/// Lets go of all of a list in two calls, with a file made between them, and no step looks from the
/// start of a file that an earlier call let something go of: how many steps each was, and the free
/// and waiting pages after each.
fn in_two_calls(
    alloc: Global,
    world: &mut World,
    list: &mut Deferred,
) -> Result<[(u32, [u32; 2]); 2], Fail>
    requires { HasStood world.old list.old.list }
    ensures { IfOk result (λ _. HasStood world.new list.new.list) }
{
    list.start_over();
    let one = go_on(alloc, world, list)?;
    let after_one = counts(world);
    make_between(alloc, world, list)?;
    let two = go_on(alloc, world, list)?;
    if !list.is_empty() {
        return Err(Fail::from("an empty list"));
    }
    Ok([(one, after_one), (two, counts(world))])
}

/// Makes nine files that are cut, and says what two calls are on their list, with a file made
/// between them.
fn say_nine_in(
    alloc: Global,
    world: &mut World,
    list: &mut Deferred,
    out: &mut String,
) -> Result<(), Fail>
    requires { HasStood world.old list.old.list }
{
    nine_cut(alloc, world, list)?;
    let [(one, after_one), (two, after_two)] = in_two_calls(alloc, world, list)?;
    say_numbers(out, &[u64::from(one)])?;
    say_counts(out, after_one)?;
    say_numbers(out, &[u64::from(two)])?;
    say_counts(out, after_two)
}

/// Says what two calls are on a list of nine files that were cut.
pub fn say_nine_files(alloc: Global, out: &mut String) -> Result<(), Fail> {
    let (mut world, mut list) = new_scene(alloc, 64)?;
    say_nine_in(alloc, &mut world, &mut list, out)
}
