//! A fileset that is removed: its tags are taken out of use, some at a time, and what they named is
//! let go of, and then the page of its tag directory.
ghost use Rattle.std.specs.Prelude.{◌≤◌, IfOk};
ghost use Rattle.release_tables.specs.Going.{HasWell};
ghost use Rattle.release_tables.specs.Stood.{HasStood};

use crate::again::is_trimmed;
use crate::going::{counts, release_all};
use crate::making::{cut, give_pages, make};
use crate::seen::{say_counts, say_times};
use file_world::reading::say_numbers;
use file_world::world::{World, new_world};
use release_steps::{Deferred, Kind, Tag, Version, find_record};
use std::alloc::Global;
use std::test::Fail;

/// A world with no file, and a list on which nothing is.
pub fn new_scene(alloc: Global, count: u32) -> Result<(World, Deferred), Fail>
    requires low { 3 ≤ count }
    requires high { count ≤ 1000 }
    ensures { IfOk result (λ scene. HasStood scene.0 scene.1.list) }
{
    let world = new_world(alloc, count)?;
    Ok((world, Deferred::new(alloc)))
}

/// Makes a file or a directory of these pages.
pub fn make_with(
    alloc: Global,
    world: &mut World,
    list: &Deferred,
    kind: Kind,
    pages: &[u32],
) -> Result<Tag, Fail>
    requires { HasStood world.old list.now.list }
    ensures { IfOk result (λ _. HasStood world.new list.now.list) }
{
    let tag = make(alloc, world, kind, Version::Four)?;
    give_pages(alloc, world, tag, pages, Version::Four)?;
    Ok(tag)
}

/// Sets the size of a file, and lists it to be trimmed.
pub fn cut_listed(
    alloc: Global,
    world: &mut World,
    list: &mut Deferred,
    tag: Tag,
    size: u64,
) -> Result<(), Fail>
    requires { HasStood world.old list.old.list }
    ensures { IfOk result (λ _. HasStood world.new list.new.list) }
{
    let at = cut(alloc, world, tag, size)?.ok_or("a trim")?;
    if !is_trimmed(world, &at) {
        return Err(Fail::from("a file that was cut"));
    }
    list.add(at, None)?;
    Ok(())
}

/// Takes a tag out of use, and lists what it named: whether one was in use.
fn take_out(alloc: Global, world: &mut World, list: &mut Deferred) -> Result<bool, Fail>
    requires { HasStood world.old list.old.list }
    ensures { IfOk result (λ _. HasStood world.new list.new.list) }
{
    let Some(tag) = world.files.tag_on(&world.pages, 0) else {
        return Ok(false);
    };
    if world.files.attributes(&world.pages, tag).is_none() {
        return Err(Fail::from("a live tag"));
    }
    let at = world.files.remove(alloc, &mut world.pages, tag)?;
    list.add(at, None)?;
    Ok(true)
}

/// Lets go of things of a list with group 5, in one call: how many steps were done.
fn release_some(alloc: Global, world: &mut World, list: &mut Deferred) -> Result<u32, Fail>
    requires { HasStood world.old list.old.list }
    ensures { IfOk result (λ _. HasStood world.new list.new.list) }
{
    list.start_over();
    Ok(list.release_some(
        alloc,
        &mut world.pages,
        &mut world.space,
        &mut world.cells,
        5,
        Version::Four,
        30,
    )?)
}

/// Lists the one page of the tag directory.
fn list_tag_page(world: &World, list: &mut Deferred) -> Result<(), Fail>
    requires { HasStood world.now list.old.list }
    ensures { IfOk result (λ _. HasWell world.now list.new.list) }
{
    let places = world.files.tag_places();
    if places.len() != 1 {
        return Err(Fail::from("a page of tags"));
    }
    list.add_tag_page(places[0].home)?;
    Ok(())
}

/// Where the tag of a slot with sequence 1 leads.
fn lead_of(world: &World, list: &Deferred, slot: u32) -> &'static str
    requires { HasStood world.now list.now.list }
{
    match world.files.live_cell(&world.pages, Tag { slot, seq: 1 }) {
        Some(at) => match find_record(&world.pages, at, 1) {
            Some(_) => " file",
            None => " free-cell",
        },
        None => " nowhere",
    }
}

/// Says where the first four tags lead, and the free and waiting pages.
fn say_look(world: &World, list: &Deferred, out: &mut String) -> Result<(), Fail>
    requires { HasStood world.now list.now.list }
{
    out.push(':')?;
    for slot in 1..5 {
        out.push_str(lead_of(world, list, slot))?;
    }
    say_counts(out, counts(world))
}

/// Makes a file of six pages, one of six that is cut to two, whose others are on the list,
/// and a directory of three pages.
fn make_three(alloc: Global, world: &mut World, list: &mut Deferred) -> Result<(), Fail>
    requires { HasStood world.old list.old.list }
    ensures { IfOk result (λ _. HasStood world.new list.new.list) }
{
    make_with(alloc, world, list, Kind::File, &[0, 1, 2, 3, 4, 5])?;
    let tag = make_with(alloc, world, list, Kind::File, &[0, 1, 2, 3, 4, 5])?;
    make_with(alloc, world, list, Kind::Directory, &[0, 1, 2])?;
    cut_listed(alloc, world, list, tag, 16_384)
}

/// Takes up to `most` tags out of use, and then lets go of things in one call: it says how many
/// tags and steps that were, and what is seen then.
fn go_on(
    alloc: Global,
    world: &mut World,
    list: &mut Deferred,
    most: u32,
    out: &mut String,
) -> Result<(), Fail>
    requires { HasStood world.old list.old.list }
    ensures { IfOk result (λ _. HasStood world.new list.new.list) }
{
    let mut tags = 0;
    for _ in 0..most {
        if take_out(alloc, world, list)? {
            tags += 1;
        }
    }
    let steps = release_some(alloc, world, list)?;
    say_numbers(out, &[tags, steps].map(u64::from))?;
    say_look(world, list, out)
}

/// Lists the page of the tag directory, and lets go of all: it says the free and waiting pages
/// then, once the group is durable, and once the log has passed it.
fn end(alloc: Global, world: &mut World, list: &mut Deferred, out: &mut String) -> Result<(), Fail>
    requires { HasStood world.old list.old.list }
{
    list_tag_page(world, list)?;
    release_all(alloc, world, list, Version::Four)?;
    if !list.is_empty() {
        return Err(Fail::from("an empty list"));
    }
    say_times(world, out)
}

/// Makes a fileset of three files and removes it, two tags at a time: it says what is seen before,
/// after each time with the tags and steps, and at the end.
fn say_removed_in(
    alloc: Global,
    world: &mut World,
    list: &mut Deferred,
    out: &mut String,
) -> Result<(), Fail>
    requires { HasStood world.old list.old.list }
{
    make_three(alloc, world, list)?;
    say_look(world, list, out)?;
    go_on(alloc, world, list, 2, out)?;
    go_on(alloc, world, list, 2, out)?;
    go_on(alloc, world, list, 2, out)?;
    end(alloc, world, list, out)
}

/// Says what is seen of a fileset of three files that is removed.
pub fn say_removed_fileset(alloc: Global, out: &mut String) -> Result<(), Fail> {
    let (mut world, mut list) = new_scene(alloc, 64)?;
    say_removed_in(alloc, &mut world, &mut list, out)
}
