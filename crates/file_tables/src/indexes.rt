//! The index of a directory: pages put in, written anew, told and counted.
ghost use Rattle.std.specs.Prelude.{◌+◌, ◌<◌, ◌≤◌, IfOk, None, OnOk};
ghost use Rattle.file_tables.specs.Worlds.{HasIndex, IsSet, IsSomeSet};

use crate::sets::{empty_world, make_one};
use file_world::world::{World, volume};
use release_steps::{Kind, Page, Tag};
use std::alloc::Global;
use std::test::Fail;
use stored_set::{
    count_index_of, index_page_of, insert_index_page, one_set_is_shown, remove, write_index_page,
};

/// A page that says that it has `entries` entries, and whose first entry's hash is that number too.
pub fn index_page(alloc: Global, entries: u8) -> Result<Page, Fail> {
    let mut page = Page::zeros(alloc)?;
    page.set(4, &[entries]);
    page.set(16, &[entries]);
    Ok(page)
}

/// Makes the one directory, which has no index.
fn start(alloc: Global, world: &mut World) -> Result<Tag, Fail>
    requires { IsSet world.old (λ t. None) }
    ensures { IfOk result (λ tag. HasIndex world.new tag 0) }
{
    let tag = make_one(alloc, world, Kind::Directory)?;
    Ok(tag)
}

/// Puts a page with `entries` entries into the index, which has `count` pages.
fn put_in(
    alloc: Global,
    world: &mut World,
    tag: Tag,
    count: u32,
    number: u32,
    entries: u8,
) -> Result<(), Fail>
    requires index { HasIndex world.old tag count }
    requires there { number ≤ count }
    ensures { OnOk result (HasIndex world.new tag (count + 1)) }
{
    one_set_is_shown();
    let page = index_page(alloc, entries)?;
    insert_index_page(
        alloc,
        &mut world.pages,
        &mut world.space,
        &world.cells,
        &world.files,
        tag,
        number,
        page,
        volume(),
    )?;
    Ok(())
}

/// Writes a page of the index anew.
fn write(
    alloc: Global,
    world: &mut World,
    tag: Tag,
    count: u32,
    number: u32,
    entries: u8,
) -> Result<(), Fail>
    requires index { HasIndex world.old tag count }
    requires there { number < count }
    ensures { OnOk result (HasIndex world.new tag count) }
{
    one_set_is_shown();
    let page = index_page(alloc, entries)?;
    write_index_page(
        alloc,
        &mut world.pages,
        &world.space,
        &world.cells,
        &world.files,
        tag,
        number,
        page,
    )?;
    Ok(())
}

/// The byte of the first entry of a page of the index; 0 if it has no such page.
fn first_of(world: &World, tag: Tag, count: u32, number: u32) -> u8
    requires { HasIndex world.now tag count }
{
    one_set_is_shown();
    match index_page_of(
        &world.pages,
        &world.space,
        &world.cells,
        &world.files,
        tag,
        number,
    ) {
        Some(page) => page.bytes()[16],
        None => 0,
    }
}

/// What is told of an index: how many pages it has, how many entries its first cell says that it
/// has, and the first entries of its first five pages, 0 if it has fewer.
fn tell(world: &World, tag: Tag, count: u32) -> Result<(u32, u32, [u8; 5]), Fail>
    requires { HasIndex world.now tag count }
{
    one_set_is_shown();
    let pages = count_index_of(&world.pages, &world.space, &world.cells, &world.files, tag);
    let index = world.files.index(&world.pages, tag).ok_or("an index")?;
    let first = [
        first_of(world, tag, count, 0),
        first_of(world, tag, count, 1),
        first_of(world, tag, count, 2),
        first_of(world, tag, count, 3),
        first_of(world, tag, count, 4),
    ];
    Ok((pages, index.entries, first))
}

/// What is told of an index before its last page is written anew, and after.
fn told_in(alloc: Global, world: &mut World) -> Result<[(u32, u32, [u8; 5]); 2], Fail>
    requires { IsSet world.old (λ t. None) }
{
    let tag = start(alloc, world)?;
    put_in(alloc, world, tag, 0, 0, 10)?;
    put_in(alloc, world, tag, 1, 1, 20)?;
    put_in(alloc, world, tag, 2, 0, 30)?;
    put_in(alloc, world, tag, 3, 1, 40)?;
    let before = tell(world, tag, 4)?;
    write(alloc, world, tag, 4, 3, 5)?;
    Ok([before, tell(world, tag, 4)?])
}

/// An index that gets its first page, one after it, one before both and one between. Its last page
/// is then written anew: what is told of it before that and after.
pub fn told(alloc: Global) -> Result<[(u32, u32, [u8; 5]); 2], Fail> {
    let mut world = empty_world(alloc)?;
    told_in(alloc, &mut world)
}

/// Takes the directory away, with its index, whose pages wait for group 9.
fn take_away(alloc: Global, world: &mut World, tag: Tag, count: u32) -> Result<(), Fail>
    requires { HasIndex world.old tag count }
    ensures { OnOk result (IsSomeSet world.new) }
{
    one_set_is_shown();
    remove(
        alloc,
        &mut world.pages,
        &mut world.space,
        &world.cells,
        &mut world.files,
        tag,
        9,
    )?;
    Ok(())
}

/// How many pages are free, and how many wait.
fn space_told(world: &World) -> (u32, u32) {
    (world.space.free_now(), world.space.waiting())
}

/// What is told of free space before the directory is taken away, and three times after that.
fn told_away_in(alloc: Global, world: &mut World) -> Result<[(u32, u32); 4], Fail>
    requires { IsSet world.old (λ t. None) }
{
    let tag = start(alloc, world)?;
    put_in(alloc, world, tag, 0, 0, 10)?;
    put_in(alloc, world, tag, 1, 1, 20)?;
    put_in(alloc, world, tag, 2, 0, 30)?;
    let before = space_told(world);
    take_away(alloc, world, tag, 3)?;
    let then = space_told(world);
    world.space.log_passed(8);
    let early = space_told(world);
    world.space.log_passed(9);
    Ok([before, then, early, space_told(world)])
}

/// A directory with an index of three pages that is taken away: what is told of free space before
/// that, then, once the log has passed the group before that of the pages, and once it has passed
/// that.
pub fn told_away(alloc: Global) -> Result<[(u32, u32); 4], Fail> {
    let mut world = empty_world(alloc)?;
    told_away_in(alloc, &mut world)
}
