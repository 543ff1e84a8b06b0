//! Tells which pages of images are brought from racks. Each row of a table names an image of the
//! table, what is brought of it in turn, and lines that change the image, and is printed with the
//! answer. A line that begins with a `#` says what the row below it shows.
#![tactic(auto)]

mod asking;
mod loading;

use asking::Loads;
use image_lines::answers;
use std::io::{self, Lock};
use std::process::ExitCode;

fn main(rt: HostRuntime) -> ExitCode {
    let alloc = rt.alloc();
    let Ok(table) = io::read_to_string(alloc, rt.stdin().lock()) else {
        return ExitCode::FAILURE;
    };
    answers(alloc, &Loads, table.as_str()).print(&rt)
}
