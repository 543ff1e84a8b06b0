//! Files that are made, given pages, cut and removed.
ghost use Rattle.std.specs.Prelude.{◌≡◌, ◌<◌, ◌≤◌, IfOk, IfSome};
ghost use Rattle.release_steps.specs.domain_base.declared.version.Version.{Version as VersionOf};
ghost use Rattle.release_steps.specs.fileset_files.Files.{Chains};
ghost use Rattle.release_steps.specs.release_list.Listing.{Listing};
ghost use Rattle.release_steps.specs.release_list.Standing.{Files};
ghost use Rattle.release_steps.specs.Calls.{FilesetNow, StandsWell};
ghost use Rattle.file_world.specs.Worlds.{IsWorld};
ghost use Rattle.release_tables.specs.Called.{HasCalled, HasCut, fileset_in, parts_of};
ghost use Rattle.release_tables.specs.Going.{HasGoing};

use file_world::world::{World, volume};
use release_steps::from_domain_base::limits::FILE_PAGES;
use release_steps::{CellAt, Home, Kind, PagePlace, StoreFault, Tag, Version};
use std::alloc::Global;
use std::test::Fail;

/// Makes a file or a directory, born at clone 7.
pub fn make(alloc: Global, world: &mut World, kind: Kind, version: Version) -> Result<Tag, Fail>
    requires { IsWorld world.old }
    ensures world { IfOk result (λ _. IsWorld world.new) }
    ensures fileset { world.new.files.fileset ≡ world.old.files.fileset }
    ensures calls { (list : Listing) (files : Files) (chains : Chains)
        → StandsWell world.old.files.fileset (fileset_in (parts_of world.old list) files chains)
        → IfOk result (λ tag. HasCalled world.old.files.fileset version tag
        (fileset_in (parts_of world.old list) files chains) (parts_of world.new list)) }
{
    Ok(
        world.files.create(
            alloc,
            &mut world.pages,
            &mut world.space,
            &mut world.cells,
            kind,
            11,
            12,
            7,
            version,
            volume(),
        )?,
    )
}

/// Gives a page to a file that keeps it and does not have it.
fn give(
    alloc: Global,
    world: &mut World,
    tag: Tag,
    page: u32,
    version: Version,
) -> Result<Result<Home, StoreFault>, Fail>
    requires { IsWorld world.old }
    ensures world { IfOk result (λ _. IsWorld world.new) }
    ensures fileset { world.new.files.fileset ≡ world.old.files.fileset }
    ensures calls { (first : FilesetNow) (list : Listing)
        → StandsWell world.old.files.fileset first
        → HasCalled world.old.files.fileset version tag first (parts_of world.old list)
        → IfOk result (λ _. HasCalled world.new.files.fileset version tag first
        (parts_of world.new list)) }
{
    let keep = world.files.keep(&world.pages, tag).ok_or("a live tag")?;
    if keep <= page || FILE_PAGES <= page {
        return Err(Fail::from("a page that is kept"));
    }
    match world.files.page_home(&world.pages, tag, page) {
        PagePlace::Absent => {}
        _ => return Err(Fail::from("an absent page")),
    }
    Ok(
        world.files.give_page(
            alloc,
            &mut world.pages,
            &mut world.space,
            &mut world.cells,
            tag,
            page,
            volume(),
            version,
        ),
    )
}

/// Gives a file these pages.
pub fn give_pages(
    alloc: Global,
    world: &mut World,
    tag: Tag,
    pages: &[u32],
    version: Version,
) -> Result<(), Fail>
    requires { IsWorld world.old }
    ensures world { IfOk result (λ _. IsWorld world.new) }
    ensures fileset { world.new.files.fileset ≡ world.old.files.fileset }
    ensures calls { (first : FilesetNow) (list : Listing)
        → StandsWell world.old.files.fileset first
        → HasCalled world.old.files.fileset version tag first (parts_of world.old list)
        → IfOk result (λ _. HasCalled world.new.files.fileset version tag first
        (parts_of world.new list)) }
{
    for page in pages {
        if give(alloc, world, tag, *page, version)?.is_err() {
            return Err(Fail::from("a free page"));
        }
    }
    Ok(())
}

/// Makes a file of these pages.
pub fn make_of(
    alloc: Global,
    world: &mut World,
    pages: &[u32],
    version: Version,
) -> Result<Tag, Fail>
    requires { IsWorld world.old }
    ensures { IfOk result (λ _. IsWorld world.new) }
{
    let tag = make(alloc, world, Kind::File, version)?;
    give_pages(alloc, world, tag, pages, version)?;
    Ok(tag)
}

/// Which pages a file has: the first ones, or every second one, from the first one on or from the
/// last one on, or every second one and those from page 40,000 on by turns.
#[derive(Clone, Copy)]
pub enum Way {
    First,
    Second,
    SecondDown,
    Mixed,
}

/// The page that comes at a place among `count`.
fn page_at(way: Way, place: u32, count: u32) -> u32
    requires there { place < count }
    requires few { count ≤ 65536 }
{
    match way {
        Way::First => place,
        Way::Second => 2 * place,
        Way::SecondDown => 2 * (count - 1 - place),
        Way::Mixed => place / 2 * 2 + place % 2 * 40_000,
    }
}

/// The `count` pages in their order.
fn pages_by(alloc: Global, way: Way, count: u32) -> Result<Vec<u32>, Fail>
    requires { count ≤ 65536 }
{
    let mut pages = Vec::new(alloc);
    for place in 0..count {
        pages.push(page_at(way, place, count))?;
    }
    Ok(pages)
}

/// Makes a file of `count` pages.
pub fn make_by(
    alloc: Global,
    world: &mut World,
    way: Way,
    count: u32,
    version: Version,
) -> Result<Tag, Fail>
    requires world { IsWorld world.old }
    requires few { count ≤ 65536 }
    ensures { IfOk result (λ _. IsWorld world.new) }
{
    let pages = pages_by(alloc, way, count)?;
    make_of(alloc, world, pages.as_slice(), version)
}

/// Sets the size of a file: its first cell, if something is left to be done then.
pub fn cut(alloc: Global, world: &mut World, tag: Tag, size: u64) -> Result<Option<CellAt>, Fail>
    requires { IsWorld world.old }
    ensures world { IfOk result (λ _. IsWorld world.new) }
    ensures fileset { world.new.files.fileset ≡ world.old.files.fileset }
    ensures going { IfOk result (λ left. IfSome left (HasGoing world.new)) }
    ensures calls { (version : VersionOf) (first : FilesetNow) (list : Listing)
        → StandsWell world.old.files.fileset first
        → HasCalled world.old.files.fileset version tag first (parts_of world.old list)
        → IfOk result (HasCut world.new.files.fileset version tag first (parts_of world.new list)) }
{
    if world.files.attributes(&world.pages, tag).is_none() {
        return Err(Fail::from("a live tag"));
    }
    Ok(world.files.truncate(alloc, &mut world.pages, tag, size)?)
}

/// Takes the name of a file: its first cell.
pub fn remove(alloc: Global, world: &mut World, tag: Tag) -> Result<CellAt, Fail>
    requires { IsWorld world.old }
    ensures world { IfOk result (λ _. IsWorld world.new) }
    ensures going { IfOk result (HasGoing world.new) }
{
    if world.files.attributes(&world.pages, tag).is_none() {
        return Err(Fail::from("a live tag"));
    }
    Ok(world.files.remove(alloc, &mut world.pages, tag)?)
}

/// Cuts a file to a size, or takes its name if that is 0: its first cell. Something is left to be
/// done then.
pub fn cut_or_remove(alloc: Global, world: &mut World, tag: Tag, size: u64) -> Result<CellAt, Fail>
    requires { IsWorld world.old }
    ensures world { IfOk result (λ _. IsWorld world.new) }
    ensures going { IfOk result (HasGoing world.new) }
{
    if size == 0 {
        return remove(alloc, world, tag);
    }
    Ok(cut(alloc, world, tag, size)?.ok_or("a trim")?)
}
