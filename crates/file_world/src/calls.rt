//! Calls on the files of a world, each of which keeps `AreTogether`.
ghost use Rattle.std.specs.Prelude.{IfOk};
ghost use Rattle.index_pages.specs.page_store.Homes.{pages_of};
ghost use Rattle.index_pages.specs.fileset_files.Creation.{IsNewDirectory};
ghost use Rattle.file_world.specs.Worlds.{IsWorld};

use crate::world::{World, new_world, volume};
use index_pages::limits::FILE_PAGES;
use index_pages::{CellAt, Home, Kind, PagePlace, Record, StoreFault, Tag, Version, find_record};
use std::alloc::Global;
use std::test::Fail;

/// Makes a file or a directory, born at clone 7, or is told why none is made.
pub fn make(alloc: Global, world: &mut World, kind: Kind) -> Result<Tag, StoreFault>
    requires { IsWorld world.old }
    ensures { IsWorld world.new }
{
    world.files.create(
        alloc,
        &mut world.pages,
        &mut world.space,
        &mut world.cells,
        kind,
        11,
        12,
        7,
        Version::Four,
        volume(),
    )
}

/// Gives a page to a file that keeps it and does not have it, of the last version.
pub fn give(
    alloc: Global,
    world: &mut World,
    tag: Tag,
    page: u32,
) -> Result<Result<Home, StoreFault>, Fail>
    requires { IsWorld world.old }
    ensures { IfOk result (λ _. IsWorld world.new) }
{
    let keep = world.files.keep(&world.pages, tag).ok_or("a live tag")?;
    if keep <= page || FILE_PAGES <= page {
        return Err(Fail::from("a page that is kept"));
    }
    match world.files.page_home(&world.pages, tag, page) {
        PagePlace::Absent => {}
        _ => return Err(Fail::from("an absent page")),
    }
    Ok(
        world.files.give_page(
            alloc,
            &mut world.pages,
            &mut world.space,
            &mut world.cells,
            tag,
            page,
            volume(),
            Version::Four,
        ),
    )
}

/// Sets the size of a file: whether something is left to be done then.
pub fn cut(alloc: Global, world: &mut World, tag: Tag, size: u64) -> Result<bool, Fail>
    requires { IsWorld world.old }
    ensures { IfOk result (λ _. IsWorld world.new) }
{
    if world.files.attributes(&world.pages, tag).is_none() {
        return Err(Fail::from("a live tag"));
    }
    let left = world.files.truncate(alloc, &mut world.pages, tag, size)?;
    Ok(left.is_some())
}

/// Moves a page of a file, of the last version, to a page that is free.
pub fn move_page(
    alloc: Global,
    world: &mut World,
    tag: Tag,
    page: u32,
) -> Result<Result<Home, StoreFault>, Fail>
    requires { IsWorld world.old }
    ensures { IfOk result (λ _. IsWorld world.new) }
{
    if world.files.attributes(&world.pages, tag).is_none() {
        return Err(Fail::from("a live tag"));
    }
    if world
        .files
        .page_home(&world.pages, tag, page)
        .home()
        .is_none()
    {
        return Err(Fail::from("a page with a home"));
    }
    let Some(home) = world.space.allocate(volume()) else {
        return Err(Fail::from("a free page"));
    };
    Ok(
        world.files.switch_page(
            alloc,
            &mut world.pages,
            &mut world.space,
            &mut world.cells,
            tag,
            page,
            home,
            Version::Four,
        ),
    )
}

/// Makes the root directory of a fileset without a file.
fn make_root(alloc: Global, world: &mut World) -> Result<(), Fail>
    requires world { IsWorld world.old }
    requires fresh { IsNewDirectory (pages_of world.old.pages.entries.items) world.old.files.tags }
    ensures { IfOk result (λ _. IsWorld world.new) }
{
    Ok(
        world.files.create_root(
            alloc,
            &mut world.pages,
            &mut world.space,
            &mut world.cells,
            7,
            Version::Four,
            volume(),
        )?,
    )
}

/// A world of 64 pages whose fileset has a root directory alone.
pub fn world_with_root(alloc: Global) -> Result<World, Fail>
    ensures { IfOk result (λ world. IsWorld world) }
{
    let mut world = new_world(alloc, 64)?;
    make_root(alloc, &mut world)?;
    Ok(world)
}

/// How many pages of tags a new fileset has once its only one is forgotten.
pub fn pages_left(alloc: Global) -> Result<usize, Fail> {
    let mut world = new_world(alloc, 64)?;
    world.files.forget_tag_page();
    Ok(world.files.tag_places().len())
}

/// How many cells of the first page say that their directory stands in the one of that slot.
pub fn count_in(world: &World, slot: u32) -> u32 {
    let mut count = 0;
    for cell in 0..28 {
        let at = CellAt {
            vol: volume(),
            page: 1,
            cell,
        };
        if stands_in(find_record(&world.pages, at, 10), slot) {
            count += 1;
        }
    }
    count
}

/// Whether a record says that a directory stands in the one of that slot.
fn stands_in(value: Option<Record>, slot: u32) -> bool {
    match value {
        Some(Record::Parent { slot: parent, .. }) => parent == slot,
        _ => false,
    }
}
