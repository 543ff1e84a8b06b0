//! An index on one volume.
ghost use Rattle.std.specs.Prelude.{◌≤◌, ◌^◌, IfOk};
ghost use Rattle.index_pages.specs.page_store.Homes.{pages_of};
ghost use Rattle.index_pages.specs.Homes.{HasIndexHomes};
ghost use Rattle.file_world.specs.IndexPageWorlds.{IsIndexOn};

use index_pages::{
    Bitmap, FreeSpace, Home, MemoryPages, Page, StoreFault, VolIx, count_index, drop_index_page,
    insert_index_page, put_index_page,
};
use std::alloc::Global;
use std::test::Fail;

/// The pages of an index, the free pages of its volume, and where it begins.
#[derive(Drop)]
pub struct World {
    pub pages: MemoryPages,
    pub space: FreeSpace,
    pub first: Option<Home>,
}

/// The volume.
fn volume() -> VolIx {
    VolIx::new(1).unwrap()
}

/// A volume of `count` free pages, and an index that has none.
pub fn new_world(alloc: Global, count: u32) -> Result<World, Fail>
    requires { count ≤ 2 ^ 20 }
    ensures { IfOk result (λ world. IsIndexOn (pages_of world.pages.entries.items) world.space
        world.first) }
{
    let map = Bitmap::new(alloc, count)?;
    let mut space = FreeSpace::new(alloc)?;
    if space.add_volume(alloc, volume(), map).is_err() {
        return Err(Fail::from("memory"));
    }
    Ok(World {
        pages: MemoryPages::new(alloc),
        space,
        first: None,
    })
}

/// Puts a page before that of a number, or after the last one; false if there is no such
/// place.
pub fn insert(
    alloc: Global,
    world: &mut World,
    number: u32,
    bytes: Page,
) -> Result<bool, StoreFault>
    requires { IsIndexOn (pages_of world.old.pages.entries.items) world.old.space world.old.first }
    ensures { IsIndexOn (pages_of world.new.pages.entries.items) world.new.space world.new.first }
{
    if number > count_index(&world.pages, world.first) {
        return Ok(false);
    }
    let made = insert_index_page(
        alloc,
        &mut world.pages,
        &mut world.space,
        world.first,
        number,
        bytes,
        volume(),
    )?;
    world.first = Some(made.first);
    Ok(true)
}

/// Writes the page of a number; false if there is none.
pub fn put(world: &mut World, number: u32, bytes: Page) -> bool
    requires { IsIndexOn (pages_of world.old.pages.entries.items) world.old.space world.old.first }
    ensures { IsIndexOn (pages_of world.new.pages.entries.items) world.new.space world.new.first }
{
    let Some(first) = world.first else {
        return false;
    };
    if number >= count_index(&world.pages, world.first) {
        return false;
    }
    put_index_page(&mut world.pages, first, number, bytes);
    true
}

/// Takes the first page off; false if there is none.
pub fn drop_first(world: &mut World, group: u64) -> bool
    requires { IsIndexOn (pages_of world.old.pages.entries.items) world.old.space world.old.first }
    ensures { HasIndexHomes (pages_of world.new.pages.entries.items) world.new.first }
{
    let Some(first) = world.first else {
        return false;
    };
    world.first = drop_index_page(&mut world.pages, &mut world.space, first, group);
    true
}
