//! What the program tells about itself.
use crate::desk::Desk;
use advfs_run::{HELP, VERSION};
use std::alloc::{AllocError, Global};
use std::str::SplitWhitespace;

/// Whether the help has a word.
fn is_told(word: &str) -> bool {
    for told in HELP.split_whitespace() {
        if told == word {
            return true;
        }
    }
    false
}

/// Prints those words that the help has.
pub fn told(
    alloc: Global,
    desk: &mut Desk,
    words: &mut SplitWhitespace<'_>,
) -> Result<(), AllocError> {
    let mut line = String::from_str(alloc, "told:")?;
    for word in words {
        if is_told(word) {
            line.push_str(" ")?;
            line.push_str(word)?;
        }
    }
    desk.say(line.as_str())
}

/// Whether a text fits on a screen of 24 lines of 80 columns.
fn fits_screen(text: &str) -> bool {
    let mut count: u32 = 0;
    for line in text.lines() {
        if line.len() > 80 || count >= 24 {
            return false;
        }
        count += 1;
    }
    true
}

/// Prints the version, whether the help is too large for a screen, and how it begins and ends.
pub fn shape(desk: &mut Desk) -> Result<(), AllocError> {
    desk.say(VERSION.trim_end())?;
    if !fits_screen(HELP) {
        desk.say("too large for a screen")?;
    }
    let mut lines = HELP.lines();
    desk.say(lines.next().unwrap_or(""))?;
    let (_, last) = HELP.rsplit_once("\n\n").unwrap_or(("", ""));
    desk.say(last.trim_end())
}
