//! A directory made and given a page, and a file made, linked and taken away.
ghost use Rattle.std.specs.Prelude.{◌^◌, ◌≤◌, IfOk, None, OnOk};
ghost use Rattle.release_steps.specs.domain_base.declared.place.Kind.TheVariants.{Directory, File};
ghost use Rattle.file_tables.specs.Worlds.{HasTag, IsSet, IsSomeSet, only_new, with_first_page};

use file_world::world::{World, new_world, volume};
use release_steps::{Kind, Page, Tag, Version};
use std::alloc::Global;
use std::test::Fail;
use stored_set::{
    add_page, count_pages_of, kind_of, links_of, make, one_set_is_shown, page_of, remove, set_links,
};

/// A world without a file, of `count` pages, the first three used.
pub fn world_of(alloc: Global, count: u32) -> Result<World, Fail>
    requires low { 3 ≤ count }
    requires high { count ≤ 2 ^ 20 }
    ensures { IfOk result (λ world. IsSet world (λ t. None)) }
{
    new_world(alloc, count)
}

/// A world without a file, of 64 pages, the first three used.
pub fn empty_world(alloc: Global) -> Result<World, Fail>
    ensures { IfOk result (λ world. IsSet world (λ t. None)) }
{
    world_of(alloc, 64)
}

/// Makes a file or a directory, the only one.
pub fn make_one(alloc: Global, world: &mut World, kind: Kind) -> Result<Tag, Fail>
    requires { IsSet world.old (λ t. None) }
    ensures { IfOk result (λ tag. IsSet world.new (only_new kind tag)) }
{
    let tag = make(
        alloc,
        &mut world.pages,
        &mut world.space,
        &mut world.cells,
        &mut world.files,
        kind,
        11,
        12,
        7,
        Version::Four,
        volume(),
    )?;
    Ok(tag)
}

/// Gives the only directory its first page.
fn add_first(alloc: Global, world: &mut World, tag: Tag, bytes: Page) -> Result<(), Fail>
    requires { IsSet world.old (only_new Directory tag) }
    ensures { OnOk result (IsSet world.new (with_first_page tag bytes)) }
{
    one_set_is_shown();
    add_page(
        alloc,
        &mut world.pages,
        &mut world.space,
        &mut world.cells,
        &world.files,
        tag,
        0,
        bytes,
        volume(),
        Version::Four,
    )?;
    Ok(())
}

/// A page whose first byte is 7.
fn first_page(alloc: Global) -> Result<Page, Fail> {
    let mut page = Page::zeros(alloc)?;
    page.set(0, &[7]);
    Ok(page)
}

/// The first byte of the directory's page 0, and whether it has a page 1.
fn pages_told(world: &World, tag: Tag, bytes: &Page) -> (Option<u8>, bool)
    requires { IsSet world.now (with_first_page tag bytes.now) }
{
    one_set_is_shown();
    let first = page_of(
        &world.pages,
        &world.space,
        &world.cells,
        &world.files,
        tag,
        0,
    );
    let second = page_of(
        &world.pages,
        &world.space,
        &world.cells,
        &world.files,
        tag,
        1,
    );
    (first_byte(first), second.is_some())
}

fn first_byte(page: Option<&Page>) -> Option<u8> {
    match page {
        Some(page) => page.bytes().first().copied(),
        None => None,
    }
}

/// How many pages the directory has, and how many bytes long it says that it is.
pub fn length_told(world: &World, tag: Tag) -> Result<(u32, u64), Fail>
    requires { IsSomeSet world.now }
{
    let count = count_pages_of(&world.pages, &world.space, &world.cells, &world.files, tag);
    let what = world
        .files
        .attributes(&world.pages, tag)
        .ok_or("a live tag")?;
    Ok((count, what.size))
}

/// How long a directory is before it has a page and after, where its page begins with 7.
fn told_pages_in(alloc: Global, world: &mut World) -> Result<[(u32, u64); 2], Fail>
    requires { IsSet world.old (λ t. None) }
{
    let tag = make_one(alloc, world, Kind::Directory)?;
    let empty = length_told(world, tag)?;
    let bytes = first_page(alloc)?;
    let again = bytes.copy(alloc)?;
    add_first(alloc, world, tag, bytes)?;
    if pages_told(world, tag, &again) != (Some(7), false) {
        return Err(Fail::from("one page, which begins with 7"));
    }
    Ok([empty, length_told(world, tag)?])
}

/// A directory without a page, and then of one: how long it is.
pub fn told_pages(alloc: Global) -> Result<[(u32, u64); 2], Fail> {
    let mut world = empty_world(alloc)?;
    told_pages_in(alloc, &mut world)
}

/// Sets three links of the only file.
fn link_thrice(alloc: Global, world: &mut World, tag: Tag) -> Result<(), Fail>
    requires { IsSet world.old (only_new File tag) }
    ensures { OnOk result (HasTag world.new tag) }
{
    one_set_is_shown();
    set_links(
        alloc,
        &mut world.pages,
        &world.space,
        &world.cells,
        &world.files,
        tag,
        3,
    )?;
    Ok(())
}

/// Takes a tag's file away.
fn take_away(alloc: Global, world: &mut World, tag: Tag) -> Result<(), Fail>
    requires { HasTag world.old tag }
    ensures { OnOk result (IsSomeSet world.new) }
{
    one_set_is_shown();
    remove(
        alloc,
        &mut world.pages,
        &mut world.space,
        &world.cells,
        &mut world.files,
        tag,
        1,
    )?;
    Ok(())
}

/// What a tag names, and how many rows name it.
fn tell(world: &World, tag: Tag) -> (Option<Kind>, u32)
    requires { IsSomeSet world.now }
{
    let kind = kind_of(&world.pages, &world.space, &world.cells, &world.files, tag);
    let links = links_of(&world.pages, &world.space, &world.cells, &world.files, tag);
    (kind, links)
}

/// What is told of a file once it is made, once it has three links, and once it is taken away.
fn told_in(alloc: Global, world: &mut World) -> Result<[(Option<Kind>, u32); 3], Fail>
    requires { IsSet world.old (λ t. None) }
{
    let tag = make_one(alloc, world, Kind::File)?;
    let made = tell(world, tag);
    link_thrice(alloc, world, tag)?;
    let linked = tell(world, tag);
    take_away(alloc, world, tag)?;
    Ok([made, linked, tell(world, tag)])
}

/// What is told of a file that is made, linked and taken away.
pub fn told(alloc: Global) -> Result<[(Option<Kind>, u32); 3], Fail> {
    let mut world = empty_world(alloc)?;
    told_in(alloc, &mut world)
}
