//! Tells of images that are written as lines: their faults, what they mean, and what is brought of
//! them from a rack. Each row of a table names what is asked, an image of the table, and lines that
//! change the image, and is printed with the answer. A line that begins with a `#` says what the
//! rows below it show.
#![tactic(auto)]

mod asking;
mod attached;
mod brought;
mod faults;
mod fetched;
mod filesets;
mod left;
mod meant;

use asking::Images;
use image_lines::answers;
use std::io::{self, Lock};
use std::process::ExitCode;

fn main(rt: HostRuntime) -> ExitCode {
    let alloc = rt.alloc();
    let Ok(table) = io::read_to_string(alloc, rt.stdin().lock()) else {
        return ExitCode::FAILURE;
    };
    answers(alloc, &Images, table.as_str()).print(&rt)
}
