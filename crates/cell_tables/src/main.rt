//! Cells and the pages below them, each a block of lines: its first line says what it is, and each
//! call that answers has its answer after an arrow.
#![tactic(auto)]

mod bitfiles;
mod blocks;
mod cells;
mod free;
mod lines;
mod pages;
mod writing;

use blocks::push_block;
use std::io::{self, Lock};
use std::process::ExitCode;
use table_words::Told;

fn main(rt: HostRuntime) -> ExitCode {
    let Ok(text) = io::read_to_string(rt.alloc(), rt.stdin().lock()) else {
        return ExitCode::FAILURE;
    };
    let mut told = Told::new(rt.alloc());
    for block in text.as_str().split_inclusive("\n\n") {
        push_block(rt.alloc(), &mut told, block);
    }
    told.print(&rt)
}
