//! Files that a clone's file reads through, let go of.
ghost use Rattle.std.specs.Prelude.{◌≤◌, IfOk, IfSome};
ghost use Rattle.file_world.specs.Worlds.{IsWorld};
ghost use Rattle.release_tables.specs.Going.{HasWell};
ghost use Rattle.release_tables.specs.Pairs.{HasPair, HasTwo, IsCloneOf};

use crate::going::{counts, may_go, release, release_all};
use crate::making::{Way, make, make_by, make_of};
use crate::pair::Pair;
use crate::seen::{say_all_gone, say_counts};
use file_world::reading::{all_small, at, say_numbers, say_whether, small};
use file_world::world::{World, volume};
use release_steps::{
    CellAt, Deferred, Entry, ExtentField, Kind, Record, StoreFault, Tag, Version, find_record,
    set_record,
};
use std::alloc::Global;
use std::test::Fail;

/// Takes the names of two files.
fn remove_two(alloc: Global, world: &mut World, file: Tag, clone: Tag) -> Result<Pair, Fail>
    requires { IsWorld world.old }
    ensures { IfOk result (HasTwo world.new) }
{
    if file.slot == clone.slot {
        return Err(Fail::from("two tags"));
    }
    if world.files.attributes(&world.pages, clone).is_none() {
        return Err(Fail::from("a live tag"));
    }
    let clone_at = world.files.remove(alloc, &mut world.pages, clone)?;
    if world.files.attributes(&world.pages, file).is_none() {
        return Err(Fail::from("a live tag"));
    }
    let at = world.files.remove(alloc, &mut world.pages, file)?;
    Ok(Pair {
        at,
        clone: clone_at,
    })
}

/// Takes the name of the second of two files, and sets the size of the first, which then has
/// something to be let go of.
fn remove_and_cut(
    alloc: Global,
    world: &mut World,
    file: Tag,
    clone: Tag,
    size: u64,
) -> Result<Pair, Fail>
    requires { IsWorld world.old }
    ensures { IfOk result (HasTwo world.new) }
{
    if file.slot == clone.slot {
        return Err(Fail::from("two tags"));
    }
    if world.files.attributes(&world.pages, clone).is_none() {
        return Err(Fail::from("a live tag"));
    }
    let clone_at = world.files.remove(alloc, &mut world.pages, clone)?;
    if world.files.attributes(&world.pages, file).is_none() {
        return Err(Fail::from("a live tag"));
    }
    let left = world.files.truncate(alloc, &mut world.pages, file, size)?;
    let at = left.ok_or("a trim")?;
    Ok(Pair {
        at,
        clone: clone_at,
    })
}

/// The record of a clone's file that reads through the one that begins there, with `frozen`
/// pages frozen. None if no cell has that number.
fn clone_record(at: CellAt, frozen: u32) -> Option<Record>
    ensures { IfSome result (IsCloneOf at frozen) }
{
    if 28 <= at.cell {
        return None;
    }
    Some(Record::CloneFile {
        source_vol: at.vol.number() as u8,
        source_cell: at.cell,
        source_page: at.page,
        frozen,
    })
}

/// Says of the second file that it reads through the first, with `frozen` pages frozen; with an
/// empty list.
fn unlisted_pair(
    alloc: Global,
    world: &mut World,
    pair: &Pair,
    frozen: u32,
) -> Result<Deferred, Fail>
    requires { HasTwo world.old pair.now }
    ensures { IfOk result (λ list. HasPair world.new pair.now list.list) }
{
    if !may_go(world, &pair.clone) || !may_go(world, &pair.at) {
        return Err(Fail::from("two files that go and are of no clone"));
    }
    let record = clone_record(pair.at, frozen).ok_or("a cell")?;
    set_record(alloc, &mut world.pages, pair.clone, &record)?;
    Ok(Deferred::new(alloc))
}

/// Which files are put on a list: the one that is read through alone, or the clone's that reads
/// through it as well, before it or after it.
#[derive(Clone, Copy, PartialEq, Eq)]
enum Listed {
    First,
    SecondThenFirst,
    FirstThenSecond,
}

/// Puts a clone's file on a list, if it is to be there.
fn list_second(world: &World, list: &mut Deferred, pair: &Pair, is_listed: bool) -> Result<(), Fail>
    requires { HasPair world.now pair.now list.old.list }
    ensures { IfOk result (λ _. HasPair world.now pair.now list.new.list) }
{
    if is_listed {
        list.add(pair.clone, None)?;
    }
    Ok(())
}

/// Puts the file on a list through which the clone's reads.
fn list_first(world: &World, list: &mut Deferred, pair: &Pair) -> Result<(), Fail>
    requires { HasPair world.now pair.now list.old.list }
    ensures { IfOk result (λ _. HasPair world.now pair.now list.new.list) }
{
    list.add(pair.at, Some(pair.clone))?;
    Ok(())
}

/// Puts the files of a pair on a list.
fn list_pair(world: &World, list: &mut Deferred, pair: &Pair, listed: Listed) -> Result<(), Fail>
    requires { HasPair world.now pair.now list.old.list }
    ensures { IfOk result (λ _. HasPair world.now pair.now list.new.list) }
{
    list_second(world, list, pair, listed == Listed::SecondThenFirst)?;
    list_first(world, list, pair)?;
    list_second(world, list, pair, listed == Listed::FirstThenSecond)
}

/// Says of the second file that it reads through the first, with `frozen` pages frozen, and lists
/// them.
fn listed_pair(
    alloc: Global,
    world: &mut World,
    pair: &Pair,
    frozen: u32,
    listed: Listed,
) -> Result<Deferred, Fail>
    requires { HasTwo world.old pair.now }
    ensures { IfOk result (λ list. HasWell world.new list.list) }
{
    let mut list = unlisted_pair(alloc, world, pair, frozen)?;
    list_pair(world, &mut list, pair, listed)?;
    Ok(list)
}

/// A list of two files, neither reading through the other, and of a page of a tag directory,
/// which is taken for it.
fn listed_unrelated(alloc: Global, world: &mut World, pair: &Pair) -> Result<Deferred, Fail>
    requires { HasTwo world.old pair.now }
    ensures { IfOk result (λ list. HasWell world.new list.list) }
{
    if !may_go(world, &pair.at) || !may_go(world, &pair.clone) {
        return Err(Fail::from("two files that go and are of no clone"));
    }
    let Some(home) = world.space.allocate(volume()) else {
        return Err(Fail::from("a free page"));
    };
    let mut list = Deferred::new(alloc);
    list.add(pair.at, None)?;
    list.add(pair.clone, None)?;
    list.add_tag_page(home)?;
    Ok(list)
}

/// Lets go of two removed files of the pages 0 to 5 and 0 to 2 and of a page of a tag directory
/// that are on one list.
pub fn say_unrelated(alloc: Global, world: &mut World, out: &mut String) -> Result<(), Fail>
    requires { IsWorld world.old }
{
    let file = make_of(alloc, world, &[0, 1, 2, 3, 4, 5], Version::Four)?;
    let other = make_of(alloc, world, &[0, 1, 2], Version::Four)?;
    let pair = remove_two(alloc, world, file, other)?;
    let mut list = listed_unrelated(alloc, world, &pair)?;
    say_all_gone(alloc, world, &mut list, out)
}

/// A run of a file's pages: the first one, its home's number, and how many they are.
pub type Row = [u32; 3];

fn row(field: &ExtentField) -> Row {
    [field.page, field.first, field.count]
}

/// The runs that a file's first cell names.
pub fn rows(world: &World, at: &CellAt) -> [Row; 4] {
    match find_record(&world.pages, *at, 14) {
        Some(Record::ShortDense { rows }) => {
            [row(&rows[0]), row(&rows[1]), row(&rows[2]), row(&rows[3])]
        }
        _ => [[0; 3]; 4],
    }
}

/// The first runs that a record of a cell after a file's first one names.
fn rows_in(value: &Option<Record>) -> Option<[Row; 4]> {
    match value {
        Some(Record::DenseExtents { rows }) => {
            Some([row(&rows[0]), row(&rows[1]), row(&rows[2]), row(&rows[3])])
        }
        _ => None,
    }
}

/// The first runs that a cell of page 13 names, if one of them is a cell after a file's first one.
fn rows_on_page_13(world: &World) -> [Row; 4] {
    for cell in 0..28 {
        let at = CellAt {
            vol: volume(),
            page: 13,
            cell,
        };
        if let Some(found) = rows_in(&find_record(&world.pages, at, 13)) {
            return found;
        }
    }
    [[0; 3]; 4]
}

/// Says runs, up to the first that has no page.
pub fn say_rows(out: &mut String, rows: [Row; 4]) -> Result<(), Fail> {
    for row in rows {
        if row[2] == 0 {
            return Ok(());
        }
        say_numbers(out, &row.map(u64::from))?;
    }
    Ok(())
}

/// Whether a file reads through another.
fn reads_through(world: &World, at: &CellAt) -> bool {
    match find_record(&world.pages, *at, 2) {
        Some(Record::CloneFile { source_vol, .. }) => source_vol != 0,
        _ => false,
    }
}

/// Says how many steps were done, or why one was not.
fn say_steps(out: &mut String, answer: &Result<u32, StoreFault>) -> Result<(), Fail> {
    match answer {
        Ok(steps) => say_numbers(out, &[u64::from(*steps)]),
        Err(StoreFault::NoPage) => Ok(out.push_str(": no page")?),
        Err(StoreFault::OutOfMemory) => Ok(out.push_str(": no memory")?),
    }
}

/// Makes `count` files.
fn make_all(alloc: Global, world: &mut World, count: u32) -> Result<(), Fail>
    requires { IsWorld world.old }
    ensures { IfOk result (λ _. IsWorld world.new) }
{
    for _ in 0..count {
        make(alloc, world, Kind::File, Version::Four)?;
    }
    Ok(())
}

/// `others` other files, a file of `own` pages, and one that reads its frozen pages through it;
/// which of the two are listed, and whether a first call is stopped for want of room.
#[derive(Clone, Copy)]
struct Scene {
    others: u32,
    own: u32,
    frozen: u32,
    listed: Listed,
    is_stopped: bool,
}

/// The two files: the first cut to a size, or removed if the size is 0, and the second removed.
fn made_by(
    alloc: Global,
    world: &mut World,
    scene: &Scene,
    own: &[u32],
    size: u64,
) -> Result<Pair, Fail>
    requires { IsWorld world.old }
    ensures { IfOk result (HasTwo world.new) }
{
    make_all(alloc, world, scene.others)?;
    let file = make_by(
        alloc,
        world,
        Way::First,
        scene.own.min(1_000),
        Version::Four,
    )?;
    let clone = make_of(alloc, world, own, Version::Four)?;
    if size == 0 {
        remove_two(alloc, world, file, clone)
    } else {
        remove_and_cut(alloc, world, file, clone, size)
    }
}

/// A file of `extents` extents that is on a list, beside a clone's file with `own` extents of its
/// own, which reads its frozen pages through it.
pub fn listed_beside(
    alloc: Global,
    world: &mut World,
    extents: u32,
    own: u32,
    frozen: u32,
) -> Result<Deferred, Fail>
    requires world { IsWorld world.old }
    requires extents { extents ≤ 1000 }
    requires own { own ≤ 1000 }
    ensures { IfOk result (λ list. HasWell world.new list.list) }
{
    let file = make_by(alloc, world, Way::Second, extents, Version::Four)?;
    let clone = make_by(alloc, world, Way::Second, own, Version::Four)?;
    let pair = remove_two(alloc, world, file, clone)?;
    listed_pair(alloc, world, &pair, frozen, Listed::First)
}

/// Says the runs of both files, whether the second still reads through the first, the free and
/// waiting pages, and the misses.
fn say_pair(world: &World, pair: &Pair, out: &mut String) -> Result<(), Fail> {
    out.push_str(": file")?;
    say_rows(out, rows(world, &pair.at))?;
    out.push_str(": clone")?;
    say_rows(out, rows(world, &pair.clone))?;
    out.push_str(": reads")?;
    say_whether(out, &[reads_through(world, &pair.clone)])?;
    say_counts(out, counts(world))?;
    say_numbers(out, &[world.space.misses()])
}

/// Lets go of the first of two files, and says the steps, and what is seen of both then; and the
/// runs that a cell of page 13 names, if other files fill the cells before it.
fn say_handed_by(
    alloc: Global,
    world: &mut World,
    list: &mut Deferred,
    pair: &Pair,
    has_others: bool,
    out: &mut String,
) -> Result<(), Fail>
    requires { HasWell world.old list.old.list }
{
    let answer = release_all(alloc, world, list, Version::Four);
    if list.is_empty() != answer.is_ok() {
        return Err(Fail::from("an empty list where all was let go of"));
    }
    say_steps(out, &answer)?;
    say_pair(world, pair, out)?;
    if has_others {
        out.push_str(": page 13")?;
        say_rows(out, rows_on_page_13(world))?;
    }
    Ok(())
}

/// Whether the last entry of a list is that of a pair.
fn is_left(list: &Deferred, pair: &Pair) -> bool {
    list.last()
        == Some(Entry {
            at: pair.at,
            clone: Some(pair.clone),
        })
}

/// Lets go of the first of two files in two calls, the first without room for its second step, and
/// says its steps, whether the entry is left, the runs of its file, the second call's
/// answer, the free and waiting pages, and the misses.
fn say_stopped_by(
    alloc: Global,
    world: &mut World,
    list: &mut Deferred,
    pair: &Pair,
    out: &mut String,
) -> Result<(), Fail>
    requires { HasWell world.old list.old.list }
{
    say_steps(out, &release(alloc, world, list, Version::Four))?;
    say_whether(out, &[is_left(list, pair)])?;
    say_rows(out, rows(world, &pair.at))?;
    say_steps(out, &release(alloc, world, list, Version::Four))?;
    say_counts(out, counts(world))?;
    say_numbers(out, &[world.space.misses()])
}

/// The scene of five numbers: the pages of the volume, the other files, the pages of the file, how
/// many of them were frozen, and which files are listed: 0 for the first alone, 1 for the clone's
/// before it, and 2 for the clone's after it.
fn scene_of(numbers: &[u64], is_stopped: bool) -> Scene {
    Scene {
        others: small(numbers, 1),
        own: small(numbers, 2),
        frozen: small(numbers, 3),
        listed: match at(numbers, 4) {
            0 => Listed::First,
            1 => Listed::SecondThenFirst,
            _ => Listed::FirstThenSecond,
        },
        is_stopped,
    }
}

/// Says what is seen of the two files of a scene that are let go of, in as many calls as it takes,
/// or in two, the first of which is stopped. The first file is cut to a size, or removed if that is
/// 0.
fn say_scene(
    alloc: Global,
    world: &mut World,
    scene: &Scene,
    own: &[u32],
    size: u64,
    out: &mut String,
) -> Result<(), Fail>
    requires { IsWorld world.old }
{
    let pair = made_by(alloc, world, scene, own, size)?;
    let mut list = listed_pair(alloc, world, &pair, scene.frozen, scene.listed)?;
    if scene.is_stopped {
        say_stopped_by(alloc, world, &mut list, &pair, out)
    } else {
        say_handed_by(alloc, world, &mut list, &pair, scene.others > 0, out)
    }
}

/// Says what is seen of the two files that numbers say: a scene, the size to which the first is
/// cut, and the pages of the clone's.
pub fn say_handed(
    alloc: Global,
    world: &mut World,
    numbers: &[u64],
    is_stopped: bool,
    out: &mut String,
) -> Result<(), Fail>
    requires { IsWorld world.old }
{
    let scene = scene_of(numbers, is_stopped);
    let own = all_small(alloc, numbers, 6)?;
    say_scene(alloc, world, &scene, own.as_slice(), at(numbers, 5), out)
}
