//! The lines of a table, by their first words.
//!
//! - `script TEXT`, `read TEXT`, `sections TEXT`: what is read of a script.
//! - `line TEXT`, `command TEXT`, `reply TEXT`: what is read of a line of a history.
//! - `# TEXT`: a heading, at which filesets begin anew.
//! - `c1 COMMAND`: a command of a client over the filesets.
//! - `mark CLONE ORIGINAL PATHS`: marks what stands at these paths of a clone as out of sync.
//! - `sizes PAGES`: the pages of the volumes of a rack.
//! - `members LINES`: members, as `showfdmn` shows them.
//! - `m COMMAND`: a command on volumes, as these answer it.
//! - `log VOLUME`: whether a domain with its log there may show these members.
//! - `extents RUNS`: whether these, as `showfile` shows them, are a file with the pages 0, 1 and 5.
//!
//! Headings, settings and empty lines are printed, texts with what is read of them below, and
//! commands with their replies.
use crate::rows::row_lines;
use crate::{filesets, volumes};
use plain_program::{Filesets, VolumeItem};
use std::alloc::{AllocError, Global};

/// What is at hand while tables are read, and what is to be printed.
#[derive(Drop)]
pub struct Desk {
    text: Vec<u8>,
    filesets: Filesets,
    sizes: Vec<u32>,
    members: Vec<VolumeItem>,
}

/// The numbers that words say.
fn numbers(alloc: Global, words: &str) -> Result<Vec<u32>, AllocError> {
    let mut all = Vec::new(alloc);
    for word in words.split_whitespace() {
        all.push(word.parse::<u32>().unwrap_or(0))?;
    }
    Ok(all)
}

/// The answer to a question, as it is printed after its line.
fn said(answer: bool) -> &'static str {
    if answer { " -> yes" } else { " -> no" }
}

/// A text that is read, and below it what comes of it.
fn text_lines(alloc: Global, line: &str) -> Option<Vec<u8>> {
    Some(row_lines(alloc, line).ok()?.into_bytes())
}

/// A line with its answer.
fn line_with(alloc: Global, line: &str, answer: &str) -> Option<Vec<u8>> {
    let mut text = Vec::from_slice(alloc, line.as_bytes()).ok()?;
    text.extend_from_slice(answer.as_bytes()).ok()?;
    text.push(b'\n').ok()?;
    Some(text)
}

impl Desk {
    /// There are no filesets and no members.
    pub fn new(alloc: Global) -> Desk {
        Desk {
            text: Vec::new(alloc),
            filesets: Filesets::new(alloc),
            sizes: Vec::new(alloc),
            members: Vec::new(alloc),
        }
    }

    /// What is to be printed.
    pub fn text(&self) -> &[u8] {
        self.text.as_slice()
    }

    /// Begins with no filesets, under a heading.
    fn begin(&mut self, alloc: Global, line: &str) -> Option<Vec<u8>> {
        self.filesets = Filesets::new(alloc);
        line_with(alloc, line, "")
    }

    /// Sets the pages of the volumes of a rack.
    fn set_sizes(&mut self, alloc: Global, words: &str) -> Option<()> {
        self.sizes = numbers(alloc, words).ok()?;
        Some(())
    }

    /// Sets the members.
    fn set_members(&mut self, alloc: Global, words: &str) -> Option<()> {
        self.members = volumes::members_of(alloc, words)?;
        Some(())
    }

    /// Does what a setting says.
    fn set(&mut self, alloc: Global, word: &str, words: &str) -> Option<()> {
        match word {
            "mark" => filesets::mark(alloc, &mut self.filesets, words),
            "sizes" => self.set_sizes(alloc, words),
            "members" => self.set_members(alloc, words),
            _ => None,
        }
    }

    /// Whether a domain with its log on a volume may show the members, after the line that asks it.
    fn log_line(&self, alloc: Global, line: &str, words: &str) -> Option<Vec<u8>> {
        let log_volume = words.parse::<u32>().ok()?;
        line_with(
            alloc,
            line,
            said(volumes::are_shown(&self.members, log_volume)),
        )
    }

    /// Whether extents show the file, after the line that asks it.
    fn extents_line(&self, alloc: Global, line: &str, words: &str) -> Option<Vec<u8>> {
        let is_file = volumes::is_file(alloc, &self.members, words)?;
        line_with(alloc, line, said(is_file))
    }

    /// Does what a line says, and gives the line with its answer, if it has one.
    fn told(&mut self, alloc: Global, line: &str) -> Option<Vec<u8>> {
        let (word, words) = line.split_once(' ').unwrap_or((line, ""));
        match word {
            "" => line_with(alloc, line, ""),
            "#" => self.begin(alloc, line),
            "script" | "read" | "sections" | "line" | "command" | "reply" => {
                text_lines(alloc, line)
            }
            "c1" => filesets::answered(alloc, &mut self.filesets, words),
            "m" => volumes::answered(alloc, &self.sizes, &self.members, words),
            "log" => self.log_line(alloc, line, words),
            "extents" => self.extents_line(alloc, line, words),
            _ => {
                self.set(alloc, word, words)?;
                line_with(alloc, line, "")
            }
        }
    }

    /// Reads a line; a line that cannot be read is reported.
    pub fn read(&mut self, alloc: Global, line: &str) -> Result<(), AllocError> {
        match self.told(alloc, line) {
            Some(text) => self.text.extend_from_slice(text.as_slice()),
            None => self.text.extend_from_slice(b"a line that is not read\n"),
        }
    }
}
