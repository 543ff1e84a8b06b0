//! Tables of filesets, books of quotas and directories of tags, each a block of lines: its first
//! line says what it is, and each call that answers has its answer after an arrow.
#![tactic(auto)]

mod blocks;
mod books;
mod lines;
mod quotas;
mod random;
mod tables;
mod tag_random;
mod tags;
mod trial;

use blocks::push_block;
use std::io;

fn main(rt: HostRuntime) -> io::Result<()> {
    let text = io::read_to_string(rt.alloc(), rt.reader())?;
    let mut answers = String::new(rt.alloc());
    for block in text.as_str().split_inclusive("\n\n") {
        push_block(rt.alloc(), &mut answers, block)?;
    }
    rt.print(answers.as_str())?;
    Ok(())
}
