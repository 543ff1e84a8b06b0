//! Lines of calls on the pages of one index.
ghost use Rattle.std.specs.Prelude.{IfOk};
ghost use Rattle.release_steps.specs.page_store.Homes.{pages_of};
ghost use Rattle.stored_set.specs.index_pages.Homes.{HasIndexHomes};
ghost use Rattle.file_world.specs.IndexPageWorlds.{IsIndexOn};

use crate::set_lines::{is_idle, say_line};
use file_world::index_page_world::{World, drop_first, insert, new_world, put};
use file_world::reading::{at, byte, numbers_of, say_numbers, say_whether, small, word_of};
use file_world::{count_index, index_home};
use release_steps::{Home, MemoryPages, MetaPages, OutOfMemory, Page, StoreFault};
use std::alloc::Global;
use std::test::Fail;

/// Answers lines of calls on an index on a volume of 64 pages, until they begin another one.
pub fn answer_all(alloc: Global, lines: &str, out: &mut String) -> Result<(), Fail> {
    let mut world = new_world(alloc, 64)?;
    for line in lines.lines() {
        answer(alloc, &mut world, line, out)?;
    }
    Ok(())
}

/// Answers a line of a word and numbers.
fn answer_line(alloc: Global, world: &mut World, line: &str, out: &mut String) -> Result<(), Fail>
    requires { IsIndexOn (pages_of world.old.pages.entries.items) world.old.space world.old.first }
    ensures { IfOk result (λ _. IsIndexOn (pages_of world.new.pages.entries.items) world.new.space
        world.new.first) }
{
    let numbers = numbers_of(alloc, line)?;
    answer_of_words(alloc, world, word_of(line), numbers.as_slice(), out)
}

/// Answers a line, which is said as it stands: one that begins with # is a heading.
fn answer(alloc: Global, world: &mut World, line: &str, out: &mut String) -> Result<(), Fail>
    requires { IsIndexOn (pages_of world.old.pages.entries.items) world.old.space world.old.first }
    ensures { IfOk result (λ _. IsIndexOn (pages_of world.new.pages.entries.items) world.new.space
        world.new.first) }
{
    if is_idle(line) {
        return say_line(out, line);
    }
    out.push_str(line)?;
    answer_line(alloc, world, line, out)?;
    out.push('\n')?;
    Ok(())
}

/// Answers a line of a call.
fn answer_of_words(
    alloc: Global,
    world: &mut World,
    word: &str,
    numbers: &[u64],
    out: &mut String,
) -> Result<(), Fail>
    requires { IsIndexOn (pages_of world.old.pages.entries.items) world.old.space world.old.first }
    ensures { IfOk result (λ _. IsIndexOn (pages_of world.new.pages.entries.items) world.new.space
        world.new.first) }
{
    match word {
        "volume" => begin(alloc, world, small(numbers, 0)),
        "insert" => insert_by(alloc, world, numbers, out),
        "put" => put_by(alloc, world, numbers, out),
        "marks" => say_marks(&world.pages, &world.first, out),
        "free" => say_numbers(out, &[u64::from(world.space.free_now())]),
        "misses" => say_numbers(out, &[world.space.misses()]),
        "first-page-goes" => first_page_goes(alloc, numbers, out),
        _ => Err(Fail::new("a line that is not known")),
    }
}

/// Begins anew with a volume of `count` free pages, and an index that has none.
fn begin(alloc: Global, world: &mut World, count: u32) -> Result<(), Fail>
    ensures { IfOk result (λ _. IsIndexOn (pages_of world.new.pages.entries.items) world.new.space
        world.new.first) }
{
    *world = new_world(alloc, count.min(1_000))?;
    Ok(())
}

/// A page with this mark, whose bytes name page 9 of volume 9 as the next one.
fn marked(alloc: Global, mark: u8) -> Result<Page, OutOfMemory> {
    let mut page = Page::zeros(alloc)?;
    page.set(8, &[9, 0, 0, 0, 9, 0, 0, 0]);
    page.set(16, &[mark]);
    Ok(page)
}

/// Puts a page before that of a number, or after the last one, with a mark: whether there is
/// such a place, or why no page was found.
fn insert_by(
    alloc: Global,
    world: &mut World,
    numbers: &[u64],
    out: &mut String,
) -> Result<(), Fail>
    requires { IsIndexOn (pages_of world.old.pages.entries.items) world.old.space world.old.first }
    ensures { IfOk result (λ _. IsIndexOn (pages_of world.new.pages.entries.items) world.new.space
        world.new.first) }
{
    let page = marked(alloc, byte(numbers, 1))?;
    say_inserted(out, &insert(alloc, world, small(numbers, 0), page))
}

fn say_inserted(out: &mut String, answer: &Result<bool, StoreFault>) -> Result<(), Fail> {
    out.push_str(match answer {
        Ok(true) => ": yes",
        Ok(false) => ": no",
        Err(StoreFault::NoPage) => ": no page",
        Err(StoreFault::OutOfMemory) => ": no memory",
    })?;
    Ok(())
}

/// Writes the page of a number, with a mark: whether there is one.
fn put_by(alloc: Global, world: &mut World, numbers: &[u64], out: &mut String) -> Result<(), Fail>
    requires { IsIndexOn (pages_of world.old.pages.entries.items) world.old.space world.old.first }
    ensures { IfOk result (λ _. IsIndexOn (pages_of world.new.pages.entries.items) world.new.space
        world.new.first) }
{
    let page = marked(alloc, byte(numbers, 1))?;
    say_whether(out, &[put(world, small(numbers, 0), page)])
}

/// The mark of an index's page, 255 if there is none.
fn mark_at(pages: &MemoryPages, first: &Option<Home>, number: u32) -> u8
    requires { HasIndexHomes (pages_of pages.now.entries.items) first.now }
{
    let Some(home) = index_home(pages, *first, number) else {
        return 255;
    };
    match pages.get(home) {
        Some(page) => page.bytes()[16],
        None => 254,
    }
}

/// Says the marks of the first four pages, 255 if there is none, and how many pages there are.
fn say_marks(pages: &MemoryPages, first: &Option<Home>, out: &mut String) -> Result<(), Fail>
    requires { HasIndexHomes (pages_of pages.now.entries.items) first.now }
{
    out.push(':')?;
    for number in 0..4 {
        write!(out, " {}", mark_at(pages, first, number))?;
    }
    say_numbers(out, &[u64::from(count_index(pages, *first))])
}

/// Of an index of two pages with these marks, the first one goes and waits for a group: it says
/// whether that is done, the marks then, how many pages wait once a later group is durable, and how
/// many wait and are free once the log has passed the group.
fn say_page_gone(world: &mut World, numbers: &[u64], out: &mut String) -> Result<(), Fail>
    requires { IsIndexOn (pages_of world.old.pages.entries.items) world.old.space world.old.first }
{
    let group = at(numbers, 2);
    say_whether(out, &[drop_first(world, group)])?;
    say_marks(&world.pages, &world.first, out)?;
    world.space.made_durable(at(numbers, 3));
    say_numbers(out, &[u64::from(world.space.waiting())])?;
    world.space.log_passed(group);
    say_numbers(
        out,
        &[world.space.waiting(), world.space.free_now()].map(u64::from),
    )
}

/// Puts two pages with these marks into a new index, and then lets the first one go.
fn first_page_goes_in(
    alloc: Global,
    world: &mut World,
    numbers: &[u64],
    out: &mut String,
) -> Result<(), Fail>
    requires { IsIndexOn (pages_of world.old.pages.entries.items) world.old.space world.old.first }
{
    insert(alloc, world, 0, marked(alloc, byte(numbers, 0))?)?;
    insert(alloc, world, 1, marked(alloc, byte(numbers, 1))?)?;
    say_page_gone(world, numbers, out)
}

/// Says what is seen if the first page of an index goes, on a volume of 64.
fn first_page_goes(alloc: Global, numbers: &[u64], out: &mut String) -> Result<(), Fail> {
    let mut world = new_world(alloc, 64)?;
    first_page_goes_in(alloc, &mut world, numbers, out)
}
