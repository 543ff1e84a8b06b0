//! Tells which rules are broken on pages that are written as lines. Each row of a table names what
//! is asked, an image of the table, and lines that change the image, and is printed with the
//! answer. A line that begins with a `#` says what the rows below it show.
#![tactic(auto)]

mod asking;
mod cells;
mod files;
mod given;
mod pages;
mod reading;
mod rows;
mod tags;

use asking::Faults;
use image_lines::answers;
use std::io::{self, Lock};
use std::process::ExitCode;

fn main(rt: HostRuntime) -> ExitCode {
    let alloc = rt.alloc();
    let Ok(table) = io::read_to_string(alloc, rt.stdin().lock()) else {
        return ExitCode::FAILURE;
    };
    answers(alloc, &Faults, table.as_str()).print(&rt)
}
