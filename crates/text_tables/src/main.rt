//! Scripts and lines of histories, a row each, with what is read of them; and what the plain
//! programs answer: commands of clients over filesets, none at first, and commands on volumes over
//! lists of members. The first word of a line tells what the line means: see `sheet`.
#![tactic(auto)]

mod commands;
mod entries;
mod filesets;
mod rows;
mod scripts;
mod sheet;
mod spelling;
mod volumes;

use sheet::Desk;
use std::io;
use std::io::Write;

fn main(rt: HostRuntime) -> io::Result<()> {
    let alloc = rt.alloc();
    let mut desk = Desk::new(alloc);
    for line in rt.lines(alloc) {
        desk.read(alloc, line?.as_str())?;
    }
    io::writer(&rt).write_all(desk.text())
}
