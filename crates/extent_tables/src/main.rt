//! Where the pages of a file stand: maps and records of extents that are changed by rows of words.
//! The answer follows below each row.
#![tactic(auto)]

mod changes;
mod maps;
mod random;
mod records;
mod rows;
mod words;
mod writing;

use rows::push_row;
use std::io;

fn main(rt: HostRuntime) -> io::Result<()> {
    let mut answers = String::new(rt.alloc());
    for row in rt.lines(rt.alloc()) {
        push_row(rt.alloc(), &mut answers, row?.as_str())?;
    }
    rt.print(answers.as_str())?;
    Ok(())
}
