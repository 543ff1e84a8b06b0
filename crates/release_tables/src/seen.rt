//! What is seen of files and pages that are let go of.
ghost use Rattle.file_world.specs.Worlds.{IsWorld};
ghost use Rattle.release_tables.specs.Going.{HasWell};

use crate::going::{counts, listed, listed_page, release_all};
use crate::making::{Way, cut, give_pages, make, make_by, remove};
use file_world::reading::{say_numbers, say_whether};
use file_world::world::World;
use release_steps::{CellAt, Deferred, Kind, Record, Version, find_record};
use std::alloc::Global;
use std::test::Fail;

/// How many of its first pages a file keeps, and whether something is left to be done with it.
pub fn kept(world: &World, at: &CellAt) -> (u32, bool) {
    let keep = match find_record(&world.pages, *at, 1) {
        Some(Record::Attributes { keep, .. }) => keep,
        _ => 0,
    };
    (keep, find_record(&world.pages, *at, 6).is_some())
}

/// Says how many pages are free, and how many wait.
pub fn say_counts(out: &mut String, counts: [u32; 2]) -> Result<(), Fail> {
    say_numbers(out, &counts.map(u64::from))
}

/// Says the free and waiting pages now, once group 5 is durable, and once the log has passed it.
pub fn say_times(world: &mut World, out: &mut String) -> Result<(), Fail> {
    say_counts(out, counts(world))?;
    world.space.made_durable(5);
    say_counts(out, counts(world))?;
    world.space.log_passed(5);
    say_counts(out, counts(world))
}

/// Says how many pages a file keeps, and whether something is left to be done with it.
pub fn say_kept(out: &mut String, kept: (u32, bool)) -> Result<(), Fail> {
    say_numbers(out, &[u64::from(kept.0)])?;
    say_whether(out, &[kept.1])
}

fn version_of(number: u64) -> Version {
    if number == 3 {
        Version::Three
    } else {
        Version::Four
    }
}

/// Lets go of what was cut of a file, and says the steps, the pages that are kept and whether
/// something is left to be done, before and after; and the free and waiting pages before, after,
/// and once the group is durable.
fn say_trimmed(
    alloc: Global,
    world: &mut World,
    list: &mut Deferred,
    at: &CellAt,
    version: Version,
    out: &mut String,
) -> Result<(), Fail>
    requires { HasWell world.old list.old.list }
{
    let first = (kept(world, at), counts(world));
    let steps = release_all(alloc, world, list, version)?;
    let after = counts(world);
    world.space.log_passed(9);
    world.space.made_durable(4);
    if !list.is_empty() || counts(world) != after {
        return Err(Fail::from("an empty list, and data that waits for its group alone"));
    }
    world.space.made_durable(5);
    say_numbers(out, &[u64::from(steps)])?;
    say_kept(out, first.0)?;
    say_kept(out, kept(world, at))?;
    say_counts(out, first.1)?;
    say_counts(out, after)?;
    say_counts(out, counts(world))
}

/// Lets go of what is on a list, and says the steps, and the free and waiting pages after; if it is
/// a page, once the group is durable too, and once the log has passed it.
fn say_released(
    alloc: Global,
    world: &mut World,
    list: &mut Deferred,
    version: Version,
    is_page: bool,
    out: &mut String,
) -> Result<(), Fail>
    requires { HasWell world.old list.old.list }
{
    let steps = release_all(alloc, world, list, version)?;
    say_numbers(out, &[u64::from(steps)])?;
    if is_page {
        say_times(world, out)
    } else {
        say_counts(out, counts(world))
    }
}

/// Makes a file of 70 extents, each second page of 139, cuts it to a size, and lets go of the rest.
pub fn say_trim(
    alloc: Global,
    world: &mut World,
    version: u64,
    size: u64,
    out: &mut String,
) -> Result<(), Fail>
    requires { IsWorld world.old }
{
    let version = version_of(version);
    let tag = make_by(alloc, world, Way::Second, 70, version)?;
    let at = cut(alloc, world, tag, size)?.ok_or("a trim")?;
    let mut list = listed(alloc, world, &at)?;
    say_trimmed(alloc, world, &mut list, &at, version, out)
}

/// Makes a file of 70 extents, removes it, and lets go of it.
pub fn say_many_removed(
    alloc: Global,
    world: &mut World,
    version: u64,
    out: &mut String,
) -> Result<(), Fail>
    requires { IsWorld world.old }
{
    let version = version_of(version);
    let tag = make_by(alloc, world, Way::Second, 70, version)?;
    let at = remove(alloc, world, tag)?;
    let mut list = listed(alloc, world, &at)?;
    say_released(alloc, world, &mut list, version, false, out)
}

/// Lets go of all that is on a list, and says the steps, and the free and waiting pages before,
/// after, once the group is durable, and once the log has passed it.
pub fn say_all_gone(
    alloc: Global,
    world: &mut World,
    list: &mut Deferred,
    out: &mut String,
) -> Result<(), Fail>
    requires { HasWell world.old list.old.list }
{
    let first = counts(world);
    let steps = release_all(alloc, world, list, Version::Four)?;
    if !list.is_empty() {
        return Err(Fail::from("an empty list"));
    }
    say_numbers(out, &[u64::from(steps)])?;
    say_counts(out, first)?;
    say_times(world, out)
}

/// Lets go of a removed file, and says whether its cell is the same that had something left to be
/// done, and the free and waiting pages before, after, once the group is durable, and once the log
/// has passed it.
fn say_gone(
    alloc: Global,
    world: &mut World,
    list: &mut Deferred,
    is_same: bool,
    out: &mut String,
) -> Result<(), Fail>
    requires { HasWell world.old list.old.list }
{
    let first = counts(world);
    release_all(alloc, world, list, Version::Four)?;
    say_whether(out, &[is_same && list.is_empty()])?;
    say_counts(out, first)?;
    say_times(world, out)
}

/// Cuts a file or directory of the pages 0 to 5 to a size and then removes it, and lets go of it.
pub fn say_removed(
    alloc: Global,
    world: &mut World,
    kind: Kind,
    size: u64,
    out: &mut String,
) -> Result<(), Fail>
    requires { IsWorld world.old }
{
    let tag = make(alloc, world, kind, Version::Four)?;
    give_pages(alloc, world, tag, &[0, 1, 2, 3, 4, 5], Version::Four)?;
    let left = cut(alloc, world, tag, size)?;
    let at = remove(alloc, world, tag)?;
    let mut list = listed(alloc, world, &at)?;
    say_gone(alloc, world, &mut list, left == Some(at), out)
}

/// Lets go of a page of a tag directory.
pub fn say_tag_page(alloc: Global, world: &mut World, out: &mut String) -> Result<(), Fail>
    requires { IsWorld world.old }
{
    let mut list = listed_page(alloc, world)?;
    say_released(alloc, world, &mut list, Version::Four, true, out)
}
