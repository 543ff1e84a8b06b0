//! What letting go costs, and what finding a page costs, counted in looks at pages of metadata and
//! in changes of them.
ghost use Rattle.std.specs.Prelude.{◌≤◌, IfOk};
ghost use Rattle.file_world.specs.Worlds.{IsWorld};
ghost use Rattle.release_tables.specs.Going.{HasWell, HasWellBy};

use crate::clones::listed_beside;
use crate::going::{listed, release_by};
use crate::looks::Counted;
use crate::making::{Way, cut_or_remove, make_by};
use file_world::reading::small;
use file_world::world::{World, new_world};
use release_steps::{Deferred, FreeCells, FreeSpace, MetaPages, StoreFault, Tag, Version};
use std::alloc::Global;
use std::test::Fail;

/// Lets go of all on a list in at most sixty calls: how many steps were done.
fn release_counted(
    alloc: Global,
    pages: &mut Counted,
    space: &mut FreeSpace,
    cells: &mut FreeCells,
    list: &mut Deferred,
) -> Result<u32, StoreFault>
    requires { HasWellBy (⟦<Counted as MetaPages>⟧.pages pages.old) space.old cells.old
        list.old.list }
{
    list.start_over();
    let mut steps = 0;
    for _ in 0..60_u32 {
        match release_by(alloc, pages, space, cells, list, Version::Four) {
            Ok(count) => steps += count,
            Err(fault) => return Err(fault),
        }
    }
    Ok(steps)
}

/// What letting go takes: the steps, the looks and the changes.
#[derive(Clone, Copy)]
pub struct Cost {
    pub steps: u32,
    pub looks: u32,
    pub changes: u32,
}

/// Whether one number is at most another and a few more.
fn is_at_most(one: u32, other: u32) -> bool {
    u64::from(one) <= u64::from(other) + 64
}

/// Whether a third number is above the second by at most twice what that is above the first, and
/// by a few more.
fn adds_at_most_twice(first: u32, second: u32, third: u32) -> bool {
    u64::from(third) + 2 * u64::from(first) <= 3 * u64::from(second) + 8
}

impl Cost {
    /// Whether this is at most the cost of another, and a few steps, looks and changes more.
    pub fn is_at_most(&self, other: &Cost) -> bool {
        is_at_most(self.steps, other.steps)
            && is_at_most(self.looks, other.looks)
            && is_at_most(self.changes, other.changes)
    }

    /// Whether this adds to a cost at most twice the steps, looks and changes which that adds to
    /// another one, and a few more. So what a call takes however little it does is not counted; and
    /// a few are fewer than the looks at one cell that is passed once more.
    pub fn adds_at_most_twice(&self, second: &Cost, first: &Cost) -> bool {
        adds_at_most_twice(first.steps, second.steps, self.steps)
            && adds_at_most_twice(first.looks, second.looks, self.looks)
            && adds_at_most_twice(first.changes, second.changes, self.changes)
    }
}

/// What letting go of all on a list takes.
fn cost_in(
    alloc: Global,
    pages: &mut Counted,
    space: &mut FreeSpace,
    cells: &mut FreeCells,
    list: &mut Deferred,
) -> Result<Cost, Fail>
    requires { HasWellBy (⟦<Counted as MetaPages>⟧.pages pages.old) space.old cells.old
        list.old.list }
{
    let steps = release_counted(alloc, pages, space, cells, list)?;
    if !list.is_empty() {
        return Err(Fail::from("an empty list"));
    }
    let [looks, changes] = pages.told();
    Ok(Cost {
        steps,
        looks,
        changes,
    })
}

/// What letting go of a listed file takes.
fn cost_of(alloc: Global, world: World, mut list: Deferred) -> Result<Cost, Fail>
    requires { HasWell world list.list }
{
    let World {
        pages,
        mut space,
        mut cells,
        ..
    } = world;
    let mut counted = Counted::new(pages);
    cost_in(alloc, &mut counted, &mut space, &mut cells, &mut list)
}

/// The pages of the file that a word says: each second one, from the first one on or from the last
/// one on (down).
fn way_of(word: &str) -> Way {
    match word {
        "trimmed-down" => Way::SecondDown,
        _ => Way::Second,
    }
}

/// A list of a file of `count` pages that is cut to a size, or removed if that is 0.
fn listed_of(
    alloc: Global,
    world: &mut World,
    way: Way,
    count: u32,
    size: u64,
) -> Result<Deferred, Fail>
    requires world { IsWorld world.old }
    requires few { count ≤ 2000 }
    ensures { IfOk result (λ list. HasWell world.new list.list) }
{
    let tag = make_by(alloc, world, way, count, Version::Four)?;
    let at = cut_or_remove(alloc, world, tag, size)?;
    listed(alloc, world, &at)
}

/// A list of the file that a line says. Its numbers are the extents of the file, or half of them if
/// they are given by turns (mixed), and the pages that a trim leaves; or the file is removed beside
/// a clone's file, which has the second number of extents of its own, and reads its frozen pages
/// through it.
fn listed_by(
    alloc: Global,
    world: &mut World,
    word: &str,
    numbers: &[u64],
) -> Result<Deferred, Fail>
    requires { IsWorld world.old }
    ensures { IfOk result (λ list. HasWell world.new list.list) }
{
    let (extents, other) = (small(numbers, 0).min(1_000), small(numbers, 1));
    let size = 8_192 * u64::from(other);
    match word {
        "removed-beside" => {
            listed_beside(alloc, world, extents, other.min(1_000), small(numbers, 2))
        }
        "trimmed-mixed" => listed_of(alloc, world, Way::Mixed, 2 * extents, size),
        _ => listed_of(alloc, world, way_of(word), extents, size),
    }
}

/// What it takes to let go of the file that a line says, on a volume of 4,096 pages.
pub fn cost_of_line(alloc: Global, word: &str, numbers: &[u64]) -> Result<Cost, Fail> {
    let mut world = new_world(alloc, 4_096)?;
    let list = listed_by(alloc, &mut world, word, numbers)?;
    cost_of(alloc, world, list)
}

/// What it takes to find where a page of a file stands, as a write does before it changes the page.
fn cost_of_page(world: World, tag: Tag, page: u32) -> Result<Cost, Fail>
    requires { IsWorld world }
{
    let World { pages, files, .. } = world;
    let counted = Counted::new(pages);
    if files.page_home(&counted, tag, page).home().is_none() {
        return Err(Fail::from("a page that is there"));
    }
    let [looks, changes] = counted.told();
    Ok(Cost {
        steps: 0,
        looks,
        changes,
    })
}

/// What it takes to find where the last page of a file stands that has so many pages, each one or
/// each second one from the first on, on a volume of 131,072 pages.
pub fn cost_of_look(alloc: Global, word: &str, numbers: &[u64]) -> Result<Cost, Fail> {
    let count = small(numbers, 0).min(65_536);
    let (way, each) = if word == "found" {
        (Way::First, 1)
    } else {
        (Way::Second, 2)
    };
    let mut world = new_world(alloc, 131_072)?;
    let tag = make_by(alloc, &mut world, way, count, Version::Four)?;
    cost_of_page(world, tag, each * count.saturating_sub(1))
}
