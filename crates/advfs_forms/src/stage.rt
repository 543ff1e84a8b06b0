//! The machine for one run of the program: its words and standard input are given, its files are
//! those of this machine, and what it prints and tells goes to standard output.

use advfs_program::Host;
use std::alloc::{Allocator, Global};
use std::env::FillError;
use std::fmt::Display;
use std::fs::{File, Metadata, OpenOptions};
use std::io;
use std::io::{BufRead, Lines};
use std::rt::{Env, Files};
use std::sync::atomic::{AtomicBool, Ordering};

/// What a run of the program has around it.
#[derive(Drop)]
pub struct Stage<'a> {
    rt: &'a HostRuntime,
    alloc: Global,
    /// The words, with a mark in place of the program's name.
    line: &'a str,
    /// Standard input.
    text: &'a [u8],
    /// Whether the last line that was printed has its end.
    is_ended: AtomicBool,
}

impl<'a> Stage<'a> {
    /// A stage with the words of a line and this standard input.
    pub fn new(rt: &'a HostRuntime, alloc: Global, line: &'a str, text: &'a [u8]) -> Stage<'a> {
        Stage {
            rt,
            alloc,
            line,
            text,
            is_ended: AtomicBool::new(true),
        }
    }

    /// Prints bytes.
    fn print_bytes(&self, bytes: &[u8]) -> io::Result<()> {
        if let Some(last) = bytes.last() {
            self.is_ended.store(*last == b'\n', Ordering::Relaxed);
        }
        Print::write_all(self.rt, bytes)
    }

    /// Ends the line that was printed last, if it has no end.
    pub fn end_line(&self) -> io::Result<()> {
        if self.is_ended.load(Ordering::Relaxed) {
            return Ok(());
        }
        self.print_bytes(b"\n")
    }

    /// Prints what is told on standard error, each line after a mark.
    fn tell(&self, text: &str) -> io::Result<()> {
        self.end_line()?;
        for line in text.lines() {
            println!(self.rt; "! {line}")?;
        }
        Ok(())
    }
}

impl Print for Stage<'_> {
    fn print<D: Display + Drop>(&self, value: D) -> io::Result<()> {
        let text = format!(in self.alloc; "{value}")?;
        self.print_bytes(text.as_bytes())
    }

    fn println<D: Display + Drop>(&self, value: D) -> io::Result<()> {
        let text = format!(in self.alloc; "{value}\n")?;
        self.print_bytes(text.as_bytes())
    }

    fn write_all(&self, bytes: &[u8]) -> io::Result<()> {
        self.print_bytes(bytes)
    }
}

impl Eprint for Stage<'_> {
    fn eprint<D: Display + Drop>(&self, value: D) -> io::Result<()> {
        let text = format!(in self.alloc; "{value}")?;
        self.tell(text.as_str())
    }

    fn eprintln<D: Display + Drop>(&self, value: D) -> io::Result<()> {
        let text = format!(in self.alloc; "{value}")?;
        self.tell(text.as_str())
    }
}

impl<'a> Input for Stage<'a> {
    type Reader = &'a [u8];

    fn read_line<A: Allocator + Clone>(&self, buf: &mut String<A>) -> io::Result<usize> {
        let mut reader = self.text;
        reader.read_line(buf)
    }

    fn lines<A: Allocator>(&self, alloc: A) -> Lines<&'a [u8], A> {
        self.text.lines(alloc)
    }

    fn reader(&self) -> &'a [u8] {
        self.text
    }
}

impl Env for Stage<'_> {
    fn arg(&self, i: usize, buf: &mut [u8]) -> Result<usize, FillError> {
        let Some(word) = self.line.split_ascii_whitespace().nth(i) else {
            return Err(FillError::NotPresent);
        };
        let bytes = word.as_bytes();
        if bytes.len() > buf.len() {
            return Err(FillError::TooLong);
        }
        buf[..bytes.len()].copy_from_slice(bytes);
        Ok(bytes.len())
    }

    fn var(&self, _name: &str, _buf: &mut [u8]) -> Result<usize, FillError> {
        Err(FillError::NotPresent)
    }

    fn var_at(&self, _i: usize, _buf: &mut [u8]) -> Result<usize, FillError> {
        Err(FillError::NotPresent)
    }
}

impl Files for Stage<'_> {
    type File = File;

    type Dir = <HostRuntime as Files>::Dir;

    fn open_file(&self, how: &OpenOptions, path: &str) -> io::Result<File> {
        self.rt.open_file(how, path)
    }

    fn open_dir(&self, path: &str) -> io::Result<<HostRuntime as Files>::Dir> {
        self.rt.open_dir(path)
    }

    fn metadata(&self, path: &str) -> io::Result<Metadata> {
        self.rt.metadata(path)
    }

    fn symlink_metadata(&self, path: &str) -> io::Result<Metadata> {
        self.rt.symlink_metadata(path)
    }

    fn copy(&self, from: &str, to: &str) -> io::Result<u64> {
        self.rt.copy(from, to)
    }

    fn rename(&self, from: &str, to: &str) -> io::Result<()> {
        self.rt.rename(from, to)
    }

    fn remove_file(&self, path: &str) -> io::Result<()> {
        self.rt.remove_file(path)
    }

    fn create_dir(&self, path: &str) -> io::Result<()> {
        self.rt.create_dir(path)
    }

    fn remove_dir(&self, path: &str) -> io::Result<()> {
        self.rt.remove_dir(path)
    }

    fn remove_dir_all<B: Allocator>(&self, alloc: B, path: &str) -> io::Result<()> {
        self.rt.remove_dir_all(alloc, path)
    }
}

impl Host for Stage<'_> {
    fn terminal(&self) -> Option<&HostRuntime> {
        None
    }
}
