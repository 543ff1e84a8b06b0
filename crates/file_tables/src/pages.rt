//! The pages of a directory: added, written anew, told and counted.
ghost use Rattle.std.specs.Prelude.{◌+◌, ◌<◌, IfOk, None, OnOk};
ghost use Rattle.release_steps.specs.domain_base.Limits.{file_pages};
ghost use Rattle.file_tables.specs.Worlds.{HasPages, IsSet};

use crate::sets::{empty_world, make_one};
use file_world::world::{World, volume};
use release_steps::{Kind, Page, Tag, Version};
use std::alloc::Global;
use std::test::Fail;
use stored_set::{add_page, count_pages_of, one_set_is_shown, page_of, write_page};

/// A page whose first byte is this one.
fn page_with(alloc: Global, byte: u8) -> Result<Page, Fail> {
    let mut page = Page::zeros(alloc)?;
    page.set(0, &[byte]);
    Ok(page)
}

/// Makes the one directory, which has no page.
fn start(alloc: Global, world: &mut World) -> Result<Tag, Fail>
    requires { IsSet world.old (λ t. None) }
    ensures { IfOk result (λ tag. HasPages world.new tag 0) }
{
    let tag = make_one(alloc, world, Kind::Directory)?;
    Ok(tag)
}

/// Adds a page to the directory, which has `count`.
fn add(alloc: Global, world: &mut World, tag: Tag, count: u32, byte: u8) -> Result<(), Fail>
    requires pages { HasPages world.old tag count }
    requires small { count < file_pages }
    ensures { OnOk result (HasPages world.new tag (count + 1)) }
{
    one_set_is_shown();
    let page = page_with(alloc, byte)?;
    add_page(
        alloc,
        &mut world.pages,
        &mut world.space,
        &mut world.cells,
        &world.files,
        tag,
        count,
        page,
        volume(),
        Version::Four,
    )?;
    Ok(())
}

/// Writes a page of the directory anew.
fn write(
    alloc: Global,
    world: &mut World,
    tag: Tag,
    count: u32,
    number: u32,
    byte: u8,
) -> Result<(), Fail>
    requires pages { HasPages world.old tag count }
    requires there { number < count }
    ensures { OnOk result (HasPages world.new tag count) }
{
    one_set_is_shown();
    let page = page_with(alloc, byte)?;
    write_page(
        &mut world.pages,
        &world.space,
        &world.cells,
        &world.files,
        tag,
        number,
        page,
    );
    Ok(())
}

/// The first byte of a page of the directory; 0 if it has no such page.
fn first_of(world: &World, tag: Tag, count: u32, number: u32) -> u8
    requires { HasPages world.now tag count }
{
    one_set_is_shown();
    match page_of(
        &world.pages,
        &world.space,
        &world.cells,
        &world.files,
        tag,
        number,
    ) {
        Some(page) => page.bytes()[0],
        None => 0,
    }
}

/// How many pages the directory has, and the first bytes of its first four, 0 if it has fewer.
fn tell(world: &World, tag: Tag, count: u32) -> (u32, [u8; 4])
    requires { HasPages world.now tag count }
{
    let pages = count_pages_of(&world.pages, &world.space, &world.cells, &world.files, tag);
    let first = [
        first_of(world, tag, count, 0),
        first_of(world, tag, count, 1),
        first_of(world, tag, count, 2),
        first_of(world, tag, count, 3),
    ];
    (pages, first)
}

/// What is told of the directory before its second page is written anew, and after.
fn told_in(alloc: Global, world: &mut World) -> Result<[(u32, [u8; 4]); 2], Fail>
    requires { IsSet world.old (λ t. None) }
{
    let tag = start(alloc, world)?;
    add(alloc, world, tag, 0, 10)?;
    add(alloc, world, tag, 1, 20)?;
    add(alloc, world, tag, 2, 30)?;
    let before = tell(world, tag, 3);
    write(alloc, world, tag, 3, 1, 25)?;
    Ok([before, tell(world, tag, 3)])
}

/// A directory that gets three pages, the second then written anew: what is told of it before that
/// and after.
pub fn told(alloc: Global) -> Result<[(u32, [u8; 4]); 2], Fail> {
    let mut world = empty_world(alloc)?;
    told_in(alloc, &mut world)
}
