//! The program on stored command lines, images and scripts: standard input has them as lines, and
//! what each command prints is printed, with the number with which it ends; it ends itself with that
//! of the last one. See `sheet`.
#![tactic(auto)]

mod sheet;
mod stage;
mod works;

use sheet::Sheet;
use std::io;
use std::io::Read;
use std::process::ExitCode;

fn main(rt: HostRuntime) -> io::Result<ExitCode> {
    let mut text = String::new(rt.alloc());
    rt.reader().read_to_string(&mut text)?;
    let mut sheet = Sheet::new(&rt, rt.alloc());
    for line in text.as_str().split_inclusive('\n') {
        sheet.take(line)?;
    }
    sheet.end()
}
