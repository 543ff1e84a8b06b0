//! A sheet of command lines, by the first bytes of their lines.
//!
//! - `$ WORDS`: runs the program with these words.
//! - `= WORDS`, the last one: runs the whole program with these words, and ends as it does.
//! - `: WORDS`: does something beside the program: see `works`.
//! - every other line: a line of standard input for the command, or of text for the work, after
//!   which it stands.
//!
//! A command line is printed, then what it prints itself, with `! ` before each line that it tells
//! on standard error, and then `-> NUMBER` with the number with which it ends.

use crate::stage::Stage;
use crate::works::Works;
use advfs_program::{perform, program};
use std::alloc::Global;
use std::process::ExitCode;
use std::{io, mem};

/// What was read since the last command line or work, which is not done yet.
#[derive(Drop)]
pub struct Sheet<'a> {
    rt: &'a HostRuntime,
    alloc: Global,
    head: &'a str,
    text: Vec<u8>,
    works: Works,
}

impl<'a> Sheet<'a> {
    /// Nothing was read.
    pub fn new(rt: &'a HostRuntime, alloc: Global) -> Sheet<'a> {
        Sheet {
            rt,
            alloc,
            head: "",
            text: Vec::new(alloc),
            works: Works::new(),
        }
    }

    /// Takes the next line. If a command or a work begins with it, what was read before is done.
    pub fn take(&mut self, line: &'a str) -> io::Result<()> {
        if line.starts_with("$ ") || line.starts_with("= ") || line.starts_with(": ") {
            self.perform()?;
            self.head = line.trim_end();
            return Ok(());
        }
        self.text.extend_from_slice(line.as_bytes())?;
        Ok(())
    }

    /// Does what was read last, by the whole program if it is a command for that.
    pub fn end(&mut self) -> io::Result<ExitCode> {
        if !self.head.starts_with("= ") {
            self.perform()?;
            return Ok(ExitCode::SUCCESS);
        }
        println!(self.rt; "{}", self.head)?;
        let stage = Stage::new(self.rt, self.alloc, self.head, self.text.as_slice());
        let code = program(&stage, self.alloc);
        stage.end_line()?;
        Ok(code)
    }

    /// Does the command or the work that was read last.
    fn perform(&mut self) -> io::Result<()> {
        let text = mem::replace(&mut self.text, Vec::new(self.alloc));
        let head = self.head;
        if head.is_empty() {
            return Ok(());
        }
        println!(self.rt; "{head}")?;
        if !head.starts_with("$ ") {
            return self.works.perform(self.rt, head, text.as_slice());
        }
        let stage = Stage::new(self.rt, self.alloc, head, text.as_slice());
        let number = perform(&stage, self.alloc);
        stage.end_line()?;
        println!(self.rt; "-> {number}")
    }
}
