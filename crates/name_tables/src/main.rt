//! Commands on names over sets of files, each a block of lines: its first line says what it is, and
//! each line has its answer after an arrow.
#![tactic(auto)]

mod blocks;
mod filesets;
mod looking;
mod lost;
mod misses;
mod parts;
mod reading;
mod roots;
mod runs;
mod steps;
mod stored;

use blocks::push_block;
use std::io;
use std::test::Fail;

fn main(rt: HostRuntime) -> Result<(), Fail> {
    let text = io::read_to_string(rt.alloc(), rt.reader())?;
    let mut answers = String::new(rt.alloc());
    for block in text.as_str().split_inclusive("\n\n") {
        push_block(rt.alloc(), &mut answers, block)?;
    }
    rt.print(answers.as_str())?;
    Ok(())
}
