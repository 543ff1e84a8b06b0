//! Lines of limits that are written into one chain of quota cells.
ghost use Rattle.std.specs.Prelude.{IfOk};
ghost use Rattle.file_tables.specs.Chains.{HasChain};

use crate::chain::{new_scene, set_line, use_cells};
use crate::looks::say_cells;
use crate::set_lines::{is_idle, say_line};
use file_world::reading::{numbers_of, say_numbers, small, word_of};
use file_world::world::World;
use release_steps::{CellAt, StoreFault};
use std::alloc::Global;
use std::test::Fail;

/// A world, and where its chain begins.
#[derive(Drop)]
pub struct Scene {
    pub world: World,
    pub first: Option<CellAt>,
}

/// Answers lines of limits on a volume of 40 pages, until they begin another one.
pub fn answer_all(alloc: Global, lines: &str, out: &mut String) -> Result<(), Fail> {
    let mut scene = Scene {
        world: new_scene(alloc, 40)?,
        first: None,
    };
    for line in lines.lines() {
        answer(alloc, &mut scene, line, out)?;
    }
    Ok(())
}

/// Answers a line, which is said as it stands: one that begins with # is a heading.
fn answer(alloc: Global, scene: &mut Scene, line: &str, out: &mut String) -> Result<(), Fail>
    requires { HasChain scene.old.world scene.old.first }
    ensures { IfOk result (λ _. HasChain scene.new.world scene.new.first) }
{
    if is_idle(line) {
        return say_line(out, line);
    }
    out.push_str(line)?;
    answer_of_words(alloc, scene, line, out)?;
    out.push('\n')?;
    Ok(())
}

fn answer_of_words(
    alloc: Global,
    scene: &mut Scene,
    line: &str,
    out: &mut String,
) -> Result<(), Fail>
    requires { HasChain scene.old.world scene.old.first }
    ensures { IfOk result (λ _. HasChain scene.new.world scene.new.first) }
{
    match word_of(line) {
        "volume" => begin(alloc, scene, line),
        "user" | "group" => set(alloc, scene, line, out),
        "cells" => say_cells(alloc, &scene.world, &scene.first, out),
        "misses" => say_numbers(out, &[scene.world.space.misses()]),
        _ => Err(Fail::new("a line that is not known")),
    }
}

/// The first two numbers of a line.
fn two_numbers(alloc: Global, line: &str) -> Result<(u32, u32), Fail> {
    let numbers = numbers_of(alloc, line)?;
    Ok((small(numbers.as_slice(), 0), small(numbers.as_slice(), 1)))
}

/// Begins anew with a volume without a chain. The line says how many pages it has, and how many of
/// its cells are used for something else.
fn begin(alloc: Global, scene: &mut Scene, line: &str) -> Result<(), Fail>
    ensures { IfOk result (λ _. HasChain scene.new.world scene.new.first) }
{
    let (count, used) = two_numbers(alloc, line)?;
    if count < 3 || 1_000 < count {
        return Err(Fail::new("a volume of 3 to 1,000 pages"));
    }
    let mut world = new_scene(alloc, count)?;
    use_cells(alloc, &mut world, used)?;
    scene.world = world;
    scene.first = None;
    Ok(())
}

/// Sets the limits that a line says: it says so, or why they are refused.
fn set(alloc: Global, scene: &mut Scene, line: &str, out: &mut String) -> Result<(), Fail>
    requires { HasChain scene.old.world scene.old.first }
    ensures { IfOk result (λ _. HasChain scene.new.world scene.new.first) }
{
    match set_line(alloc, &mut scene.world, scene.first, line)? {
        Ok(first) => {
            scene.first = Some(first);
            Ok(out.push_str(": set")?)
        }
        Err(StoreFault::NoPage) => Ok(out.push_str(": no page")?),
        Err(StoreFault::OutOfMemory) => Ok(out.push_str(": no memory")?),
    }
}
