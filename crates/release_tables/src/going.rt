//! Lists of files and pages that are let go of.
ghost use Rattle.std.specs.Prelude.{◌≡◌, ◌≤◌, IfOk, IsSome, IsTrue, List, None};
ghost use Rattle.release_steps.specs.page_store.Homes.{pages_of};
ghost use Rattle.release_steps.specs.metadata_cells.Chain.{PlacedCell};
ghost use Rattle.release_steps.specs.file_chains.Files.{IsFile};
ghost use Rattle.release_steps.specs.fileset_files.Files.{first_record};
ghost use Rattle.release_steps.specs.file_release.Sharing.{IsKnown};
ghost use Rattle.release_steps.specs.release_list.Cursors.{IsAhead};
ghost use Rattle.release_steps.specs.release_list.Standing.{source_of};
ghost use Rattle.file_world.specs.Worlds.{IsWorld};
ghost use Rattle.release_tables.specs.Going.{HasGoing, HasWell, HasWellBy};

use file_world::world::{World, volume};
use release_steps::{
    CellAt, Deferred, FreeCells, FreeSpace, MetaPages, Record, StoreFault, Version, find_record,
};
use std::alloc::Global;
use std::test::Fail;

/// Whether a file's first cell says that something is left to be done.
fn is_pending(world: &World, at: &CellAt) -> bool
    ensures { (chain : List PlacedCell) → IsFile (pages_of world.now.pages.entries.items) at.now
        chain → IsTrue result → IsSome (first_record 6 chain) }
{
    match find_record(&world.pages, *at, 6) {
        Some(Record::Pending { .. }) => true,
        _ => false,
    }
}

/// Whether a file is that of a clone.
fn is_of_clone(world: &World, at: &CellAt) -> bool
    ensures { (chain : List PlacedCell) → IsFile (pages_of world.now.pages.entries.items) at.now
        chain → ¬ IsTrue result → source_of chain ≡ None }
{
    find_record(&world.pages, *at, 2).is_some()
}

/// Whether something is left to be done with a file, and it is of no clone.
pub fn may_go(world: &World, at: &CellAt) -> bool
    ensures alone { (chain : List PlacedCell)
        → IsFile (pages_of world.now.pages.entries.items) at.now chain → IsTrue result
        → source_of chain ≡ None }
    ensures says { (chain : List PlacedCell)
        → IsFile (pages_of world.now.pages.entries.items) at.now chain → IsTrue result
        → IsSome (first_record 6 chain) }
{
    if is_of_clone(world, at) {
        return false;
    }
    is_pending(world, at)
}

/// A list of this file alone.
pub fn listed(alloc: Global, world: &World, at: &CellAt) -> Result<Deferred, Fail>
    requires { HasGoing world.now at.now }
    ensures { IfOk result (λ list. HasWell world.now list.list) }
{
    if !may_go(world, at) {
        return Err(Fail::from("a file that goes, of no clone"));
    }
    let mut list = Deferred::new(alloc);
    list.add(*at, None)?;
    Ok(list)
}

/// A list of a page of a tag directory, which is taken for it.
pub fn listed_page(alloc: Global, world: &mut World) -> Result<Deferred, Fail>
    requires { IsWorld world.old }
    ensures { IfOk result (λ list. HasWell world.new list.list) }
{
    let Some(home) = world.space.allocate(volume()) else {
        return Err(Fail::from("a free page"));
    };
    let mut list = Deferred::new(alloc);
    list.add_tag_page(home)?;
    Ok(list)
}

/// Lets go of things of a list with group 5, in one call: how many steps were done.
pub fn release_by<M: MetaPages>(
    alloc: Global,
    pages: &mut M,
    space: &mut FreeSpace,
    cells: &mut FreeCells,
    list: &mut Deferred,
    version: Version,
) -> Result<u32, StoreFault>
    requires well { HasWellBy (M.pages pages.old) space.old cells.old list.old.list }
    requires ahead { IsAhead (M.pages pages.old) list.old.cursor }
    requires known { IsKnown (M.pages pages.old) list.old.known }
    ensures ahead { IsAhead (M.pages pages.new) list.new.cursor }
    ensures known { IsKnown (M.pages pages.new) list.new.known }
    ensures most { IfOk result (λ count. count ≤ 16) }
    ensures well { HasWellBy (M.pages pages.new) space.new cells.new list.new.list }
{
    list.release_some(alloc, pages, space, cells, 5, version, 30)
}

/// Lets go of things of a list of a world in one call, whose first step looks from a file's first
/// cell on.
pub fn release(
    alloc: Global,
    world: &mut World,
    list: &mut Deferred,
    version: Version,
) -> Result<u32, StoreFault>
    requires { HasWell world.old list.old.list }
    ensures most { IfOk result (λ count. count ≤ 16) }
    ensures well { HasWell world.new list.new.list }
{
    list.start_over();
    release_by(
        alloc,
        &mut world.pages,
        &mut world.space,
        &mut world.cells,
        list,
        version,
    )
}

/// Lets go of things of a list of a world in 20 calls.
pub fn release_all(
    alloc: Global,
    world: &mut World,
    list: &mut Deferred,
    version: Version,
) -> Result<u32, StoreFault>
    requires { HasWell world.old list.old.list }
    ensures { HasWell world.new list.new.list }
{
    let mut steps = 0;
    for _ in 0..20_u32 {
        match release(alloc, world, list, version) {
            Ok(count) => steps += count,
            Err(fault) => return Err(fault),
        }
    }
    Ok(steps)
}

/// How many pages are free, and how many wait.
pub fn counts(world: &World) -> [u32; 2] {
    [world.space.free_now(), world.space.waiting()]
}
