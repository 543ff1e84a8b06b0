//! What is done beside the program, by the words after `: `.
//!
//! - `zeros FILE PAGES`: makes a file of so many pages of zeros.
//! - `grow FILE PAGES`: gives a file so many pages, of which the new ones are zeros.
//! - `text FILE`: makes a file of the lines that follow.
//! - `bytes FILE AT HEX COUNT`: writes bytes from a place of a file on, so many times.
//! - `copy FILE OTHER`: makes the other file, with the same bytes.
//! - `same FILE OTHER`: prints whether they have the same bytes.
//! - `shared FILE` and `alone FILE`: hold a lock on a file as another program would, which others
//!   may share or not, until `free`.
//! - `note WORDS`: nothing; it is a heading.

use std::fs::{File, OpenOptions};
use std::io::Write;
use std::os::unix::fs::FileExt;
use std::{fs, io};

/// The bytes of a page of an image.
const PAGE_BYTES: u64 = 8_192;

/// What a work has changed for the commands after it.
#[derive(Drop)]
pub struct Works {
    /// A file on which a lock is held.
    held: Option<File>,
}

/// Opens a new file to be written, or one that is emptied.
fn new_file(rt: &HostRuntime, name: &str) -> io::Result<File> {
    OpenOptions::new()
        .write(true)
        .create(true)
        .truncate(true)
        .open(rt, name)
}

/// Gives a file so many pages.
fn set_pages(file: &File, pages: &str) -> io::Result<()> {
    file.set_len(number(pages).saturating_mul(PAGE_BYTES))
}

/// Gives a file that is there so many pages.
fn grow(rt: &HostRuntime, name: &str, pages: &str) -> io::Result<()> {
    let file = OpenOptions::new().write(true).open(rt, name)?;
    set_pages(&file, pages)
}

/// A word as a number, or 0 if it is none.
fn number(word: &str) -> u64 {
    word.parse::<u64>().unwrap_or(0)
}

/// The value of a hexadecimal digit.
fn digit(byte: u8) -> u8 {
    match char::from(byte).to_digit(16) {
        Some(value) => u8::try_from(value).unwrap_or(0),
        None => 0,
    }
}

/// Bytes that a file gets: from which place on, in hexadecimal digits, and how often in a row.
#[derive(Clone, Copy)]
struct Patch<'a> {
    at: &'a str,
    hex: &'a str,
    count: &'a str,
}

impl Patch<'_> {
    /// Writes the bytes into a file.
    fn write(&self, rt: &HostRuntime, name: &str) -> io::Result<()> {
        let file = OpenOptions::new().write(true).open(rt, name)?;
        let mut at = number(self.at);
        for _ in 0..number(self.count) {
            for pair in self.hex.as_bytes().chunks(2) {
                if let [high, low] = pair {
                    file.write_all_at(&[digit(*high) << 4 | digit(*low)], at)?;
                    at = at.saturating_add(1);
                }
            }
        }
        Ok(())
    }
}

/// Prints whether two files have the same bytes.
fn print_same(rt: &HostRuntime, name: &str, other: &str) -> io::Result<()> {
    let (one, two) = (fs::read(rt, name)?, fs::read(rt, other)?);
    let told = if one.as_slice() == two.as_slice() {
        "the same"
    } else {
        "not the same"
    };
    println!(rt; "{told}")
}

impl Works {
    /// Nothing was done.
    pub fn new() -> Works {
        Works { held: None }
    }

    /// Takes a lock on a file.
    fn hold(&mut self, rt: &HostRuntime, name: &str, is_shared: bool) -> io::Result<()> {
        let file = OpenOptions::new().read(true).open(rt, name)?;
        let locked = if is_shared {
            file.try_lock_shared()
        } else {
            file.try_lock()
        };
        match locked {
            Ok(()) => {
                self.held = Some(file);
                Ok(())
            }
            Err(_) => println!(rt; "there is another lock"),
        }
    }

    /// Does the work of a line.
    pub fn perform(&mut self, rt: &HostRuntime, line: &str, text: &[u8]) -> io::Result<()> {
        let mut words = line.split_ascii_whitespace().skip(1);
        let work = words.next().unwrap_or("");
        let name = words.next().unwrap_or("");
        let other = words.next().unwrap_or("");
        match work {
            "zeros" => return set_pages(&new_file(rt, name)?, other),
            "grow" => return grow(rt, name, other),
            "bytes" => {
                let (hex, count) = (words.next().unwrap_or(""), words.next().unwrap_or(""));
                let at = other;
                return Patch { at, hex, count }.write(rt, name);
            }
            "text" => return new_file(rt, name)?.write_all(text),
            "same" => return print_same(rt, name, other),
            "shared" => return self.hold(rt, name, true),
            "alone" => return self.hold(rt, name, false),
            "copy" => {
                let _ = fs::copy(rt, name, other)?;
            }
            "free" => self.held = None,
            _ => {}
        }
        Ok(())
    }
}
