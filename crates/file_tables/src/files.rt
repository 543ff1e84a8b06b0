//! Lines of calls on the files of one world.
ghost use Rattle.std.specs.Prelude.{IfOk};
ghost use Rattle.file_world.specs.Worlds.{IsWorld};

use crate::set_lines::{is_idle, say_line};
use file_world::calls::{count_in, cut, give, make, move_page, pages_left, world_with_root};
use file_world::reading::{at, numbers_of, say_numbers, say_whether, small, word_of};
use file_world::states::{describe, index_at, put_in, say_index, set_stripe, take_out};
use file_world::world::{World, new_world};
use file_world::{Attributes, PagePlace, RunPlace, Stripe};
use release_steps::{Home, Kind, StoreFault, Tag};
use std::alloc::Global;
use std::test::Fail;

/// Answers lines of calls on a world of 64 pages, until they begin another one.
pub fn answer_all(alloc: Global, lines: &str, out: &mut String) -> Result<(), Fail> {
    let mut world = new_world(alloc, 64)?;
    for line in lines.lines() {
        answer(alloc, &mut world, line, out)?;
    }
    Ok(())
}

/// Answers a line of a word and numbers.
fn answer_line(alloc: Global, world: &mut World, line: &str, out: &mut String) -> Result<(), Fail>
    requires { IsWorld world.old }
    ensures { IfOk result (λ _. IsWorld world.new) }
{
    let numbers = numbers_of(alloc, line)?;
    answer_of_changes(alloc, world, word_of(line), numbers.as_slice(), out)
}

/// Answers a line, which is said as it stands: one that begins with # is a heading.
fn answer(alloc: Global, world: &mut World, line: &str, out: &mut String) -> Result<(), Fail>
    requires { IsWorld world.old }
    ensures { IfOk result (λ _. IsWorld world.new) }
{
    if is_idle(line) {
        return say_line(out, line);
    }
    out.push_str(line)?;
    answer_line(alloc, world, line, out)?;
    out.push('\n')?;
    Ok(())
}

/// The tag of a slot that was not used before.
fn tag_of(numbers: &[u64]) -> Tag {
    Tag {
        slot: small(numbers, 0),
        seq: 1,
    }
}

/// Answers a line of a call that changes the world.
fn answer_of_changes(
    alloc: Global,
    world: &mut World,
    word: &str,
    numbers: &[u64],
    out: &mut String,
) -> Result<(), Fail>
    requires { IsWorld world.old }
    ensures { IfOk result (λ _. IsWorld world.new) }
{
    match word {
        "volume" => begin(alloc, world, small(numbers, 0)),
        "root" => begin_with_root(alloc, world),
        "file" => say_slot(out, &make(alloc, world, Kind::File)),
        "directory" => say_slot(out, &make(alloc, world, Kind::Directory)),
        "files" => make_all(alloc, world, small(numbers, 0)),
        "spent" => spend_all(alloc, world, small(numbers, 0)),
        "give" => say_home(
            out,
            &give(alloc, world, tag_of(numbers), small(numbers, 1))?,
        ),
        "give-every-second" => give_all(alloc, world, numbers, out),
        "move" => say_home(
            out,
            &move_page(alloc, world, tag_of(numbers), small(numbers, 1))?,
        ),
        "cut" => say_whether(out, &[cut(alloc, world, tag_of(numbers), at(numbers, 1))?]),
        _ => answer_of_words(alloc, world, word, numbers, out),
    }
}

/// Answers a line of a call that says something of a file, or takes its tag out of use.
fn answer_of_words(
    alloc: Global,
    world: &mut World,
    word: &str,
    numbers: &[u64],
    out: &mut String,
) -> Result<(), Fail>
    requires { IsWorld world.old }
    ensures { IfOk result (λ _. IsWorld world.new) }
{
    match word {
        "parent" => put_by(alloc, world, numbers),
        "stripe" => stripe_by(alloc, world, numbers),
        "describe" => describe_by(alloc, world, tag_of(numbers)),
        "index" => index_by(alloc, world, numbers),
        "take-out" => take_out(alloc, world, tag_of(numbers)),
        _ => answer_of_looks(alloc, world, word, numbers, out),
    }
}

/// Begins anew with a volume of `count` pages, the first three used.
fn begin(alloc: Global, world: &mut World, count: u32) -> Result<(), Fail>
    ensures { IfOk result (λ _. IsWorld world.new) }
{
    if count < 3 || 1_000 < count {
        return Err(Fail::new("a volume of 3 to 1,000 pages"));
    }
    *world = new_world(alloc, count)?;
    Ok(())
}

/// Begins anew with a volume of 64 pages whose fileset has its root.
fn begin_with_root(alloc: Global, world: &mut World) -> Result<(), Fail>
    ensures { IfOk result (λ _. IsWorld world.new) }
{
    *world = world_with_root(alloc)?;
    Ok(())
}

/// Makes `count` files.
fn make_all(alloc: Global, world: &mut World, count: u32) -> Result<(), Fail>
    requires { IsWorld world.old }
    ensures { IfOk result (λ _. IsWorld world.new) }
{
    for _ in 0..count {
        make(alloc, world, Kind::File)?;
    }
    Ok(())
}

/// Makes `count` files and takes the name of each again: their cells stay in use.
fn spend_all(alloc: Global, world: &mut World, count: u32) -> Result<(), Fail>
    requires { IsWorld world.old }
    ensures { IfOk result (λ _. IsWorld world.new) }
{
    for _ in 0..count {
        let tag = make(alloc, world, Kind::File)?;
        take_out(alloc, world, tag)?;
    }
    Ok(())
}

/// Gives a file a number of pages, every second one: how many were given.
fn give_all(alloc: Global, world: &mut World, numbers: &[u64], out: &mut String) -> Result<(), Fail>
    requires { IsWorld world.old }
    ensures { IfOk result (λ _. IsWorld world.new) }
{
    let mut given: u64 = 0;
    for number in 0..small(numbers, 1).min(100) {
        if give(alloc, world, tag_of(numbers), 2 * number)?.is_ok() {
            given = given.saturating_add(1);
        }
    }
    say_numbers(out, &[given])
}

/// Puts a directory into that of another tag.
fn put_by(alloc: Global, world: &mut World, numbers: &[u64]) -> Result<(), Fail>
    requires { IsWorld world.old }
    ensures { IfOk result (λ _. IsWorld world.new) }
{
    let parent = Tag {
        slot: small(numbers, 1),
        seq: 1,
    };
    put_in(alloc, world, tag_of(numbers), parent)
}

/// Stripes a file over a number of volumes with a mark, and says the first three of them.
fn stripe_by(alloc: Global, world: &mut World, numbers: &[u64]) -> Result<(), Fail>
    requires { IsWorld world.old }
    ensures { IfOk result (λ _. IsWorld world.new) }
{
    let mut vols = [0; 8];
    vols[0] = byte(numbers, 3);
    vols[1] = byte(numbers, 4);
    vols[2] = byte(numbers, 5);
    let stripe = Stripe {
        width: byte(numbers, 1),
        mark: byte(numbers, 2),
        vols,
    };
    set_stripe(alloc, world, tag_of(numbers), stripe)
}

/// The number at a place, if it is a byte, and else the greatest byte.
fn byte(numbers: &[u64], place: usize) -> u8 {
    u8::try_from(at(numbers, place)).unwrap_or(u8::MAX)
}

/// Says of a file that it is another's, is logged, and has 9 bytes and 3 links.
fn describe_by(alloc: Global, world: &mut World, tag: Tag) -> Result<(), Fail>
    requires { IsWorld world.old }
    ensures { IfOk result (λ _. IsWorld world.new) }
{
    describe(alloc, world, tag)?;
    Ok(())
}

/// Says of a directory that its index begins at a page of the volume and has a number of entries,
/// or that it has none.
fn index_by(alloc: Global, world: &mut World, numbers: &[u64]) -> Result<(), Fail>
    requires { IsWorld world.old }
    ensures { IfOk result (λ _. IsWorld world.new) }
{
    let index = index_at(small(numbers, 1), small(numbers, 2));
    say_index(alloc, world, tag_of(numbers), index)
}

// What is told.

/// Answers a line that asks what a world holds.
fn answer_of_looks(
    alloc: Global,
    world: &World,
    word: &str,
    numbers: &[u64],
    out: &mut String,
) -> Result<(), Fail>
    requires { IsWorld world.now }
{
    match word {
        "free" => say_numbers(out, &[u64::from(world.space.free_now())]),
        "misses" => say_numbers(out, &[world.space.misses()]),
        "tell" => tell(world, tag_of(numbers), out),
        "home" => say_place(
            out,
            &world.files.page_home(&world.pages, tag_of(numbers), 1),
        ),
        "kept" => say_kept(world, tag_of(numbers), out),
        "told-index" => say_told_index(world, tag_of(numbers), out),
        "told-stripe" => say_stripe(world, tag_of(numbers), out),
        "runs" => say_runs(alloc, world, tag_of(numbers), out),
        "count-runs" => count_runs(alloc, world, tag_of(numbers), out),
        "count-there" => count_there(world, numbers, out),
        "homes" => say_homes(world, tag_of(numbers), out),
        "standing-in" => say_numbers(out, &[u64::from(count_in(world, small(numbers, 0)))]),
        "pages-of-tags-left" => say_numbers(out, &[pages_left(alloc)? as u64]),
        _ => Err(Fail::new("a line that is not known")),
    }
}

/// Says the width and the mark of a stripe, and its first three volumes.
fn say_told_stripe(stripe: &Stripe, out: &mut String) -> Result<(), Fail> {
    let vols = stripe.vols;
    say_numbers(
        out,
        &[stripe.width, stripe.mark, vols[0], vols[1], vols[2]].map(u64::from),
    )
}

/// Says the stripe of a file.
fn say_stripe(world: &World, tag: Tag, out: &mut String) -> Result<(), Fail>
    requires { IsWorld world.now }
{
    match world.files.stripe(&world.pages, tag) {
        Some(stripe) => say_told_stripe(&stripe, out),
        None => Ok(out.push_str(": none")?),
    }
}

/// Says the slot of a tag that was made, or why none was.
fn say_slot(out: &mut String, answer: &Result<Tag, StoreFault>) -> Result<(), Fail> {
    match answer {
        Ok(tag) => say_numbers(out, &[u64::from(tag.slot)]),
        Err(fault) => say_fault(out, fault),
    }
}

/// Says the number of a home, or why there is none.
fn say_home(out: &mut String, answer: &Result<Home, StoreFault>) -> Result<(), Fail> {
    match answer {
        Ok(home) => say_numbers(out, &[u64::from(home.page)]),
        Err(fault) => say_fault(out, fault),
    }
}

fn say_fault(out: &mut String, fault: &StoreFault) -> Result<(), Fail> {
    out.push_str(match fault {
        StoreFault::NoPage => ": no page",
        StoreFault::OutOfMemory => ": no memory",
    })?;
    Ok(())
}

/// Says where a page stands, by the number of its home.
fn say_place(out: &mut String, place: &PagePlace) -> Result<(), Fail> {
    match place {
        PagePlace::At(home) => say_numbers(out, &[u64::from(home.page)]),
        _ => Ok(out.push_str(": nowhere")?),
    }
}

fn say_attributes(out: &mut String, what: &Attributes) -> Result<(), Fail> {
    out.push_str(match what.kind {
        Kind::File => ": file",
        Kind::Directory => ": directory",
    })?;
    say_numbers(out, &[u64::from(what.uid), u64::from(what.gid)])?;
    say_whether(out, &[what.is_logged])?;
    say_numbers(out, &[what.size, u64::from(what.links)])
}

/// Says what a tag's file is: its kind, the ids of its owner, whether it is logged, its size and
/// its links.
fn tell(world: &World, tag: Tag, out: &mut String) -> Result<(), Fail>
    requires { IsWorld world.now }
{
    match world.files.attributes(&world.pages, tag) {
        Some(what) => say_attributes(out, &what),
        None => Ok(out.push_str(": none")?),
    }
}

/// Says how many pages a tag's file keeps.
fn say_kept(world: &World, tag: Tag, out: &mut String) -> Result<(), Fail>
    requires { IsWorld world.now }
{
    match world.files.keep(&world.pages, tag) {
        Some(keep) => say_numbers(out, &[u64::from(keep)]),
        None => Ok(out.push_str(": none")?),
    }
}

/// Says where a tag's index begins, and how many entries it has.
fn say_told_index(world: &World, tag: Tag, out: &mut String) -> Result<(), Fail>
    requires { IsWorld world.now }
{
    match world.files.index(&world.pages, tag) {
        Some(index) => say_numbers(
            out,
            &[u64::from(index.first.page), u64::from(index.entries)],
        ),
        None => Ok(out.push_str(": none")?),
    }
}

/// The number of a run's first home, 0 if it has none.
fn first_of(place: &RunPlace) -> u64 {
    match place {
        RunPlace::At(home) => u64::from(home.page),
        _ => 0,
    }
}

/// Says the runs of a file: the first page, how many they are, and the first home.
fn say_runs(alloc: Global, world: &World, tag: Tag, out: &mut String) -> Result<(), Fail>
    requires { IsWorld world.now }
{
    let runs = world.files.runs(alloc, &world.pages, tag)?;
    for run in runs.as_slice() {
        say_numbers(
            out,
            &[
                u64::from(run.page),
                u64::from(run.count),
                first_of(&run.first),
            ],
        )?;
    }
    Ok(())
}

fn count_runs(alloc: Global, world: &World, tag: Tag, out: &mut String) -> Result<(), Fail>
    requires { IsWorld world.now }
{
    let runs = world.files.runs(alloc, &world.pages, tag)?;
    say_numbers(out, &[runs.len() as u64])
}

/// Says of the first pages of a file how many have a home.
fn count_there(world: &World, numbers: &[u64], out: &mut String) -> Result<(), Fail>
    requires { IsWorld world.now }
{
    let mut there: u64 = 0;
    for page in 0..small(numbers, 1) {
        if world.files.page_home(&world.pages, tag_of(numbers), page) != PagePlace::Absent {
            there = there.saturating_add(1);
        }
    }
    say_numbers(out, &[there])
}

/// The number of a page's home: 0 if it stands nowhere.
fn number_of(world: &World, tag: Tag, page: u32) -> u32
    requires { IsWorld world.now }
{
    match world.files.page_home(&world.pages, tag, page) {
        PagePlace::At(home) => home.page,
        _ => 0,
    }
}

/// Says the numbers of the first 16 pages' homes.
fn say_homes(world: &World, tag: Tag, out: &mut String) -> Result<(), Fail>
    requires { IsWorld world.now }
{
    out.push(':')?;
    for page in 0..16 {
        write!(out, " {}", number_of(world, tag, page))?;
    }
    Ok(())
}
