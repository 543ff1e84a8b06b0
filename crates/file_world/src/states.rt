//! The files of a world as one map from their tags, which each call changes at its tag alone.
ghost use Rattle.std.specs.Prelude.{◌≡◌, IfOk, None, OnOk, Some};
ghost use Rattle.std.specs.Option.{option_map};
ghost use Rattle.index_pages.specs.page_store.Homes.{pages_of};
ghost use Rattle.index_pages.specs.extent_maps.declared.run.PagePlace.TheVariants.{At};
ghost use Rattle.index_pages.specs.fileset_files.State.{FileState, States, with_changed, with_state, without_state};
ghost use Rattle.index_pages.specs.fileset_files.States.{CutsFile, described as described_so, indexed, live_at, new_state, placed, put_in as standing_in};
ghost use Rattle.file_world.specs.Worlds.{AreStates, IsWorld, HasIndexAlone, new_directory};

use crate::world::{World, home_at, new_world, volume};
use index_pages::limits::FILE_PAGES;
use index_pages::{
    Attributes, Home, IndexPlace, Kind, PagePlace, Stripe, Tag, Version, files_are_told,
    one_file_is_cut, one_file_is_described, one_file_is_made, one_file_is_removed,
    one_index_is_set, one_page_is_placed, one_parent_is_set, one_stripe_is_set,
};
use std::alloc::Global;
use std::test::Fail;

/// Makes a directory, born at clone 7.
pub fn make_directory(alloc: Global, world: &mut World) -> Result<Tag, Fail>
    requires { IsWorld world.old }
    ensures world { IfOk result (λ _. IsWorld world.new) }
    ensures map { (states : States) → AreStates world.old states
        → IfOk result (λ tag. AreStates world.new
        (with_state tag (new_state new_directory tag) states)) }
{
    let tag = world.files.create(
        alloc,
        &mut world.pages,
        &mut world.space,
        &mut world.cells,
        Kind::Directory,
        11,
        12,
        7,
        Version::Four,
        volume(),
    )?;
    one_file_is_made();
    Ok(tag)
}

/// What a live tag's file is.
pub fn attributes_of(world: &World, tag: Tag) -> Option<Attributes>
    requires { IsWorld world.now }
    ensures { (states : States) → AreStates world.now states
        → result ≡ option_map (λ (state : FileState). state.attributes) (live_at states tag) }
{
    files_are_told();
    world.files.attributes(&world.pages, tag)
}

/// What a file is once it is another's, is logged, and has 9 bytes and 3 links.
pub fn described(kind: Kind) -> Attributes
    ensures kind { result.kind ≡ kind }
    ensures links { result.links ≡ 3 }
{
    Attributes {
        kind,
        uid: 21,
        gid: 22,
        is_logged: true,
        size: 9,
        links: 3,
    }
}

/// Says this of a live tag's file, and answers it.
pub fn describe(alloc: Global, world: &mut World, tag: Tag) -> Result<Attributes, Fail>
    requires { IsWorld world.old }
    ensures world { IfOk result (λ _. IsWorld world.new) }
    ensures map { (states : States) → AreStates world.old states
        → IfOk result (λ value. AreStates world.new
        (with_changed tag (described_so value) states)) }
{
    let Some(was) = world.files.attributes(&world.pages, tag) else {
        return Err(Fail::from("a live tag"));
    };
    let value = described(was.kind);
    world
        .files
        .set_attributes(alloc, &mut world.pages, tag, &value)?;
    one_file_is_described();
    Ok(value)
}

/// An index of `entries` entries that begins at that page of the volume, or none for page 0.
pub fn index_at(page: u32, entries: u32) -> Option<IndexPlace> {
    if page == 0 {
        return None;
    }
    Some(IndexPlace {
        first: home_at(page),
        entries,
    })
}

/// Says of a live tag's directory where its index begins.
pub fn say_index(
    alloc: Global,
    world: &mut World,
    tag: Tag,
    index: Option<IndexPlace>,
) -> Result<(), Fail>
    requires { IsWorld world.old }
    ensures world { OnOk result (IsWorld world.new) }
    ensures map { (states : States) → AreStates world.old states
        → OnOk result (AreStates world.new (with_changed tag (indexed index) states)) }
{
    if world.files.attributes(&world.pages, tag).is_none() {
        return Err(Fail::from("a live tag"));
    }
    world.files.set_index(alloc, &mut world.pages, tag, index)?;
    one_index_is_set();
    Ok(())
}

/// Puts a live tag's directory into another one.
pub fn put_in(alloc: Global, world: &mut World, tag: Tag, parent: Tag) -> Result<(), Fail>
    requires { IsWorld world.old }
    ensures world { OnOk result (IsWorld world.new) }
    ensures map { (states : States) → AreStates world.old states
        → OnOk result (AreStates world.new (with_changed tag (standing_in parent) states)) }
{
    if world.files.attributes(&world.pages, tag).is_none() {
        return Err(Fail::from("a live tag"));
    }
    world
        .files
        .set_parent(alloc, &mut world.pages, tag, parent)?;
    one_parent_is_set();
    Ok(())
}

/// Says of a live tag's file how it is striped.
pub fn set_stripe(alloc: Global, world: &mut World, tag: Tag, stripe: Stripe) -> Result<(), Fail>
    requires { IsWorld world.old }
    ensures world { OnOk result (IsWorld world.new) }
    ensures map { (states : States) → AreStates world.old states
        → OnOk result (AreStates world.new states) }
{
    if world.files.attributes(&world.pages, tag).is_none() {
        return Err(Fail::from("a live tag"));
    }
    world
        .files
        .set_stripe(alloc, &mut world.pages, tag, stripe)?;
    one_stripe_is_set();
    Ok(())
}

/// Takes a live tag out of use.
pub fn take_out(alloc: Global, world: &mut World, tag: Tag) -> Result<(), Fail>
    requires { IsWorld world.old }
    ensures world { OnOk result (IsWorld world.new) }
    ensures map { (states : States) → AreStates world.old states
        → OnOk result (AreStates world.new (without_state tag states)) }
{
    if world.files.attributes(&world.pages, tag).is_none() {
        return Err(Fail::from("a live tag"));
    }
    world.files.remove(alloc, &mut world.pages, tag)?;
    one_file_is_removed();
    Ok(())
}

/// Sets the size of a live tag's file.
pub fn cut_to(alloc: Global, world: &mut World, tag: Tag, size: u64) -> Result<(), Fail>
    requires { IsWorld world.old }
    ensures { (states : States) → AreStates world.old states
        → OnOk result (CutsFile world.old.files.fileset world.old.files.tags world.old.space
        world.old.cells tag size states (pages_of world.new.pages.entries.items)) }
{
    if world.files.attributes(&world.pages, tag).is_none() {
        return Err(Fail::from("a live tag"));
    }
    world.files.truncate(alloc, &mut world.pages, tag, size)?;
    one_file_is_cut();
    Ok(())
}

/// Gives a page to a file that keeps it and does not have it.
pub fn give_one(alloc: Global, world: &mut World, tag: Tag, page: u32) -> Result<Home, Fail>
    requires { IsWorld world.old }
    ensures { (states : States) → AreStates world.old states
        → IfOk result (λ home. AreStates world.new
        (with_changed tag (placed page (At home)) states)) }
{
    let keep = world.files.keep(&world.pages, tag).ok_or("a live tag")?;
    if keep <= page || FILE_PAGES <= page {
        return Err(Fail::from("a page that is kept"));
    }
    match world.files.page_home(&world.pages, tag, page) {
        PagePlace::Absent => {}
        _ => return Err(Fail::from("an absent page")),
    }
    let home = world.files.give_page(
        alloc,
        &mut world.pages,
        &mut world.space,
        &mut world.cells,
        tag,
        page,
        volume(),
        Version::Four,
    )?;
    one_page_is_placed();
    Ok(home)
}

/// Moves a page of a live tag's file that has a home to a free one, which it answers.
pub fn move_one(alloc: Global, world: &mut World, tag: Tag, page: u32) -> Result<Home, Fail>
    requires { IsWorld world.old }
    ensures { (states : States) → AreStates world.old states
        → IfOk result (λ home. AreStates world.new
        (with_changed tag (placed page (At home)) states)) }
{
    if world.files.attributes(&world.pages, tag).is_none() {
        return Err(Fail::from("a live tag"));
    }
    if world
        .files
        .page_home(&world.pages, tag, page)
        .home()
        .is_none()
    {
        return Err(Fail::from("a page with a home"));
    }
    let Some(home) = world.space.allocate(volume()) else {
        return Err(Fail::from("a free page"));
    };
    let target = home;
    world.files.switch_page(
        alloc,
        &mut world.pages,
        &mut world.space,
        &mut world.cells,
        tag,
        page,
        home,
        Version::Four,
    )?;
    one_page_is_placed();
    Ok(target)
}

/// A world of one directory whose index begins there.
pub fn world_with_index(alloc: Global, index: Option<IndexPlace>) -> Result<(World, Tag), Fail>
    ensures { IfOk result (λ (made : World × Tag). HasIndexAlone made.0 made.1 index) }
{
    let mut world = new_world(alloc, 64)?;
    let tag = make_directory(alloc, &mut world)?;
    say_index(alloc, &mut world, tag, index)?;
    Ok((world, tag))
}
