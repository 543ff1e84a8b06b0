//! A volume without a free page: a directory gets no page, and no index.
ghost use Rattle.std.specs.Prelude.{None, OnErr};
ghost use Rattle.release_steps.specs.domain_base.declared.place.Kind.TheVariants.{Directory};
ghost use Rattle.file_tables.specs.Worlds.{IsSet, only_new};

use crate::sets::{length_told, make_one, world_of};
use file_world::reading::{say_numbers, say_whether};
use file_world::world::{World, volume};
use release_steps::{Kind, Page, StoreFault, Tag, Version};
use std::alloc::Global;
use std::test::Fail;
use stored_set::{add_page, insert_index_page, one_set_is_shown};

/// Tries to give the only directory its first page.
fn try_add(alloc: Global, world: &mut World, tag: Tag) -> Result<(), StoreFault>
    requires { IsSet world.old (only_new Directory tag) }
    ensures { OnErr result (IsSet world.new (only_new Directory tag)) }
{
    one_set_is_shown();
    let page = Page::zeros(alloc)?;
    add_page(
        alloc,
        &mut world.pages,
        &mut world.space,
        &mut world.cells,
        &world.files,
        tag,
        0,
        page,
        volume(),
        Version::Four,
    )
}

/// Tries to put the first page into the directory's index.
fn try_index(alloc: Global, world: &mut World, tag: Tag) -> Result<(), StoreFault>
    requires { IsSet world.old (only_new Directory tag) }
    ensures { OnErr result (IsSet world.new (only_new Directory tag)) }
{
    one_set_is_shown();
    let page = Page::zeros(alloc)?;
    insert_index_page(
        alloc,
        &mut world.pages,
        &mut world.space,
        &world.cells,
        &world.files,
        tag,
        0,
        page,
        volume(),
    )
}

fn say_fault(out: &mut String, fault: &StoreFault) -> Result<(), Fail> {
    out.push_str(match fault {
        StoreFault::NoPage => ": no page",
        StoreFault::OutOfMemory => ": no memory",
    })?;
    Ok(())
}

/// Says the length of the directory, whether it has an index, and how often no page was found.
fn say_left(world: &World, tag: Tag, out: &mut String) -> Result<(), Fail>
    requires { IsSet world.now (only_new Directory tag) }
{
    let (pages, size) = length_told(world, tag)?;
    say_numbers(out, &[u64::from(pages), size])?;
    say_whether(out, &[world.files.index(&world.pages, tag).is_some()])?;
    say_numbers(out, &[world.space.misses()])
}

/// Tries both, and says the two faults, and what is told of the directory then.
fn say_refused_in(alloc: Global, world: &mut World, out: &mut String) -> Result<(), Fail>
    requires { IsSet world.old (λ t. None) }
{
    let tag = make_one(alloc, world, Kind::Directory)?;
    let Err(page) = try_add(alloc, world, tag) else {
        return Err(Fail::from("a page was found"));
    };
    say_fault(out, &page)?;
    let Err(index) = try_index(alloc, world, tag) else {
        return Err(Fail::from("a page of an index was found"));
    };
    say_fault(out, &index)?;
    say_left(world, tag, out)
}

/// Says what is refused on a volume whose pages are all used.
pub fn say_refused(alloc: Global, out: &mut String) -> Result<(), Fail> {
    let mut world = world_of(alloc, 3)?;
    say_refused_in(alloc, &mut world, out)
}
