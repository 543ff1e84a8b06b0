//! Directory pages, the rows of a directory and its index, each a block of lines: its first line
//! says what it is, and each call that answers has its answer after an arrow.
#![tactic(auto)]

mod bare;
mod blocks;
mod index_steps;
mod indexes;
mod names;
mod pages;
mod random;
mod row_steps;
mod rows;
mod text;

use blocks::push_block;
use std::io;
use std::test::Fail;

fn main(rt: HostRuntime) -> Result<(), Fail> {
    let text = io::read_to_string(rt.alloc(), rt.reader())?;
    let mut answers = String::new(rt.alloc());
    for block in text.as_str().split_inclusive("\n\n") {
        push_block(rt.alloc(), &mut answers, block)?;
    }
    rt.print(answers.as_str())?;
    Ok(())
}
