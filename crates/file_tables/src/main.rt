//! Files, sets of files, indexes and chains of quota cells over pages in memory: a program that
//! makes the calls of the lines that it reads, and prints each line with its answer. A heading with
//! `##` names the room that the lines after it speak of. Its input covers what no clause
//! says; the functions with contracts are callers that show what the calls promise one after the
//! other.
#![tactic(auto)]

mod chain;
mod files;
mod index_lines;
mod indexes;
mod looks;
mod pages;
mod quotas;
mod refused;
mod set_lines;
mod sets;

use std::alloc::Global;
use std::io;
use std::test::Fail;

/// Answers the lines of a room by its name.
fn answer_room(alloc: Global, name: &str, lines: &str, out: &mut String) -> Result<(), Fail> {
    match name {
        "files" => files::answer_all(alloc, lines, out),
        "pages of an index" => index_lines::answer_all(alloc, lines, out),
        "sets" => set_lines::answer_all(alloc, lines, out),
        "quotas" => quotas::answer_all(alloc, lines, out),
        _ => Err(Fail::new("a room that is not known")),
    }
}

/// Says the heading of a room, and answers its lines.
fn say_room(alloc: Global, room: &str, out: &mut String) -> Result<(), Fail> {
    let (heading, lines) = room.split_once('\n').unwrap_or((room, ""));
    let name = heading.trim_start_matches("## ");
    write!(out, "## {name}\n")?;
    answer_room(alloc, name, lines, out)
}

fn main(rt: HostRuntime) -> Result<(), Fail> {
    let text = io::read_to_string(rt.alloc(), rt.reader())?;
    let mut out = String::new(rt.alloc());
    for room in text.as_str().split("\n## ") {
        say_room(rt.alloc(), room, &mut out)?;
    }
    rt.print(out.as_str())?;
    Ok(())
}
