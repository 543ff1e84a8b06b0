//! Records, bitmaps, free space, and pages that are kept in memory or staged, called by rows of
//! words. The answer follows below each row.
#![tactic(auto)]

mod bitmaps;
mod cache;
mod callers;
mod keeping;
mod pages;
mod random_cache;
mod random_staged;
mod records;
mod rows;
mod spaces;
mod staged;

use rows::push_row;
use std::io::{self, Lock};
use std::process::ExitCode;
use table_words::Told;

fn main(rt: HostRuntime) -> ExitCode {
    let Ok(text) = io::read_to_string(rt.alloc(), rt.stdin().lock()) else {
        return ExitCode::FAILURE;
    };
    let mut told = Told::new(rt.alloc());
    for row in text.as_str().lines() {
        push_row(rt.alloc(), &mut told, row);
    }
    told.print(&rt)
}
