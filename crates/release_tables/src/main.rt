//! Pages, cells and files that are let go of little by little: a program that does what the lines
//! that it reads name, and prints each line with its answer. Its input covers what no
//! clause says; the functions with contracts are callers that show what the calls promise one after
//! the other.
#![tactic(auto)]

ghost use Rattle.std.specs.Prelude.{◌≤◌};
ghost use Rattle.file_world.specs.Worlds.{IsWorld};

mod again;
mod beside;
mod clones;
mod cost;
mod going;
mod looks;
mod making;
mod onward;
mod pair;
mod removing;
mod room;
mod seen;

use crate::again::say_rewritten;
use crate::beside::made_in_both;
use crate::clones::{say_handed, say_unrelated};
use crate::cost::{Cost, cost_of_line, cost_of_look};
use crate::onward::say_nine_files;
use crate::removing::say_removed_fileset;
use crate::room::last_of_three;
use crate::seen::{say_many_removed, say_removed, say_tag_page, say_trim};
use file_world::reading::{at, numbers_of, say_numbers, say_whether, small, word_of};
use file_world::world::{World, new_world};
use release_steps::Kind;
use std::alloc::Global;
use std::test::Fail;

/// Answers a line of a word and numbers.
fn answer_of_words(
    alloc: Global,
    costs: &mut Vec<Cost>,
    line: &str,
    out: &mut String,
) -> Result<(), Fail> {
    let numbers = numbers_of(alloc, line)?;
    answer_of_costs(alloc, costs, word_of(line), numbers.as_slice(), out)
}

/// Answers a line, which is said as it stands: one that begins with # is a heading.
fn answer(alloc: Global, costs: &mut Vec<Cost>, line: &str, out: &mut String) -> Result<(), Fail> {
    out.push_str(line)?;
    if !line.is_empty() && !line.starts_with('#') {
        answer_of_words(alloc, costs, line, out)?;
    }
    out.push('\n')?;
    Ok(())
}

/// Answers a line of costs: what something takes is kept, and the last two or three are compared.
fn answer_of_costs(
    alloc: Global,
    costs: &mut Vec<Cost>,
    word: &str,
    numbers: &[u64],
    out: &mut String,
) -> Result<(), Fail> {
    match word {
        "adds-at-most-twice" | "is-at-most" => {
            say_whether(out, &[is_low(costs.as_slice(), word)])
        }
        "removed" | "trimmed-up" | "trimmed-down" | "trimmed-mixed" | "removed-beside" => {
            Ok(costs.push(cost_of_line(alloc, word, numbers)?)?)
        }
        "found" | "found-apart" => Ok(costs.push(cost_of_look(alloc, word, numbers)?)?),
        _ => answer_of_steps(alloc, word, numbers, out),
    }
}

/// Whether the last of two costs is at most the first, or the last of three adds to the second at
/// most twice what that adds to the first.
fn is_low(costs: &[Cost], word: &str) -> bool {
    if word == "is-at-most" {
        return match costs {
            [.., first, second] => second.is_at_most(first),
            _ => false,
        };
    }
    match costs {
        [.., first, second, third] => third.adds_at_most_twice(second, first),
        _ => false,
    }
}

/// Answers a line of what is let go of.
fn answer_of_steps(
    alloc: Global,
    word: &str,
    numbers: &[u64],
    out: &mut String,
) -> Result<(), Fail> {
    match word {
        "fileset-removed" => say_removed_fileset(alloc, out),
        "nine-files" => say_nine_files(alloc, out),
        "written-again" => say_rewritten(alloc, out),
        "two-filesets" => say_whether(out, &made_in_both(alloc)?),
        "last-of-three" => say_last(alloc, out),
        _ => answer_on_volume(alloc, word, numbers, out),
    }
}

/// How many pages the volume of a line has.
fn pages_of(word: &str, numbers: &[u64]) -> u32
    ensures low { 3 ≤ result }
    ensures high { result ≤ 128 }
{
    match word {
        "trim" | "many-removed" => 128,
        "handed" | "stopped" => small(numbers, 0).max(3).min(128),
        _ => 64,
    }
}

/// Answers a line of what is let go of on a volume with no other file.
fn answer_on_volume(
    alloc: Global,
    word: &str,
    numbers: &[u64],
    out: &mut String,
) -> Result<(), Fail> {
    let mut world = new_world(alloc, pages_of(word, numbers))?;
    answer_in(alloc, &mut world, word, numbers, out)
}

/// Answers a line of what is let go of in a world with no other file.
fn answer_in(
    alloc: Global,
    world: &mut World,
    word: &str,
    numbers: &[u64],
    out: &mut String,
) -> Result<(), Fail>
    requires { IsWorld world.old }
{
    let (first, second) = (at(numbers, 0), at(numbers, 1));
    match word {
        "trim" => say_trim(alloc, world, first, second, out),
        "many-removed" => say_many_removed(alloc, world, first, out),
        "file-removed" => say_removed(alloc, world, Kind::File, first, out),
        "directory-removed" => say_removed(alloc, world, Kind::Directory, first, out),
        "tag-page" => say_tag_page(alloc, world, out),
        "unrelated" => say_unrelated(alloc, world, out),
        "handed" => say_handed(alloc, world, numbers, false, out),
        "stopped" => say_handed(alloc, world, numbers, true, out),
        _ => Err(Fail::new("a line that is not known")),
    }
}

/// Says the cell that stands last on a list of three.
fn say_last(alloc: Global, out: &mut String) -> Result<(), Fail> {
    let last = last_of_three(alloc)?.ok_or("an entry")?;
    say_numbers(out, &[u64::from(last)])
}

fn main(rt: HostRuntime) -> Result<(), Fail> {
    let mut costs = Vec::new(rt.alloc());
    let mut out = String::new(rt.alloc());
    for line in rt.lines(rt.alloc()) {
        answer(rt.alloc(), &mut costs, line?.as_str(), &mut out)?;
    }
    print!(rt; "{out}")?;
    Ok(())
}
