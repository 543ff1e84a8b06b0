//! A file that is made, cut and written again, beside all else that a domain has.
ghost use Rattle.std.specs.Prelude.{◌≡◌, IfOk, IsTrue, List, Some};
ghost use Rattle.release_steps.specs.cell_records.declared.record.Leftover.TheVariants.{Trim};
ghost use Rattle.release_steps.specs.page_store.Homes.{pages_of};
ghost use Rattle.release_steps.specs.metadata_cells.Chain.{PlacedCell};
ghost use Rattle.release_steps.specs.file_chains.Files.{IsFile};
ghost use Rattle.release_steps.specs.fileset_files.Files.{Chains};
ghost use Rattle.release_steps.specs.release_list.Listed.{left_of};
ghost use Rattle.release_steps.specs.release_list.Standing.{Files};
ghost use Rattle.release_steps.specs.Calls.{FilesetNow, StandsWell};
ghost use Rattle.release_tables.specs.Called.{HasLetGo, HasNoClone, IsCut, IsWrittenAgain, fileset_in, parts_of};

use crate::clones::{rows, say_rows};
use crate::going::counts;
use crate::making::{cut, give_pages, make};
use crate::seen::{kept, say_counts, say_kept};
use file_world::reading::say_numbers;
use file_world::world::{World, new_world};
use release_steps::{CellAt, Deferred, Kind, Leftover, Record, Tag, Version, find_record};
use std::alloc::Global;
use std::test::Fail;

/// Whether pages of a file are to be let go of after those that it keeps.
pub fn is_trimmed(world: &World, at: &CellAt) -> bool
    ensures { (chain : List PlacedCell) → IsFile (pages_of world.now.pages.entries.items) at.now
        chain → IsTrue result → left_of chain ≡ Some Trim }
{
    match find_record(&world.pages, *at, 6) {
        Some(Record::Pending { what }) => what == Leftover::Trim,
        _ => false,
    }
}

/// Puts a file that was cut on a list, and lets go of things of that in at most 16 steps: how many.
fn let_go(
    alloc: Global,
    world: &mut World,
    list: &mut Deferred,
    tag: Tag,
    at: &CellAt,
    version: Version,
) -> Result<u32, Fail>
    requires { (first : FilesetNow) × IsCut world.old.files.fileset version tag at.now first
        (parts_of world.old list.old.list) }
    ensures fileset { world.new.files.fileset ≡ world.old.files.fileset }
    ensures went { (first : FilesetNow)
        → IsCut world.old.files.fileset version tag at.now first (parts_of world.old list.old.list)
        → IfOk result (λ _. HasLetGo world.new.files.fileset version tag first
        (parts_of world.new list.new.list)) }
{
    if !is_trimmed(world, at) {
        return Err(Fail::from("a file that was cut"));
    }
    list.add(*at, None)?;
    list.start_over();
    Ok(list.release_some(
        alloc,
        &mut world.pages,
        &mut world.space,
        &mut world.cells,
        5,
        version,
        30,
    )?)
}

/// Makes a file of the pages 0 to 5, cuts it to one page, lets go of what was cut with what else is
/// on the list, and gives it page 9: its tag, its first cell, and how many steps were done.
///
/// It needs to know of the domain that all belongs together, and that no file reads through
/// another. All belongs together at the end, each other file of the fileset is as it was but for
/// those on the list, and it is known which pages are held.
pub fn write_again(
    alloc: Global,
    world: &mut World,
    list: &mut Deferred,
    version: Version,
) -> Result<(Tag, CellAt, u32), Fail>
    requires { (files : Files) × (chains : Chains) × HasNoClone files
        × StandsWell world.old.files.fileset
        (fileset_in (parts_of world.old list.old.list) files chains) }
    ensures { (files : Files) (chains : Chains) → HasNoClone files
        → StandsWell world.old.files.fileset
        (fileset_in (parts_of world.old list.old.list) files chains)
        → IfOk result (λ done. IsWrittenAgain world.new.files.fileset version done.0
        (fileset_in (parts_of world.old list.old.list) files chains)
        (parts_of world.new list.new.list)) }
{
    let tag = make(alloc, world, Kind::File, version)?;
    give_pages(alloc, world, tag, &[0, 1, 2, 3, 4, 5], version)?;
    let at = cut(alloc, world, tag, 8_192)?.ok_or("a trim")?;
    let steps = let_go(alloc, world, list, tag, &at, version)?;
    give_pages(alloc, world, tag, &[9], version)?;
    Ok((tag, at, steps))
}

/// Says the steps, the file's runs, how many pages it keeps and whether something is left to be
/// done, and the free and waiting pages.
fn say_written(world: &World, at: &CellAt, steps: u32, out: &mut String) -> Result<(), Fail> {
    say_numbers(out, &[u64::from(steps)])?;
    say_rows(out, rows(world, at))?;
    say_kept(out, kept(world, at))?;
    say_counts(out, counts(world))
}

/// Writes a file again on a volume of 64 pages with no other file, and says what is seen of it.
pub fn say_rewritten(alloc: Global, out: &mut String) -> Result<(), Fail> {
    let mut world = new_world(alloc, 64)?;
    let mut list = Deferred::new(alloc);
    let (_, at, steps) = write_again(alloc, &mut world, &mut list, Version::Four)?;
    say_written(&world, &at, steps, out)
}
