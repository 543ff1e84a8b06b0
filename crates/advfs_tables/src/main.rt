//! Whole runs of the program in tables of text: standard input has scripts, images and the calls on
//! them, and for each call its status and what it prints are printed. The first byte of a line
//! tells what the line means: see `sheet`.
#![tactic(auto)]

mod calls;
mod desk;
mod help;
mod image;
mod plain;
mod recorder;
mod script;
mod sheet;
mod texts;
mod views;

use sheet::answered;
use std::io;
use std::io::Write;

fn main(rt: HostRuntime) -> io::Result<()> {
    let alloc = rt.alloc();
    let mut desk = desk::Desk::new(alloc);
    let mut image = image::zeros(alloc, 1, &[])?;
    for line in rt.lines(alloc) {
        image = answered(alloc, &mut desk, image, line?.as_str())?;
    }
    io::writer(&rt).write_all(desk.text.as_slice())
}
