//! The words of a line.
use crate::places::{cell_bytes, numbers, page_bytes, tag_bytes};
use page_faults::{Home, VolIx};

/// What is left to read of a line. After a word that is missing or does not have its form, which
/// is read as zeros, the words are not right any more.
#[derive(Drop)]
pub struct Words<'a> {
    rest: &'a str,
    is_right: bool,
}

impl<'a> Words<'a> {
    /// The words of a line.
    pub fn new(line: &'a str) -> Words<'a> {
        Words {
            rest: line,
            is_right: true,
        }
    }

    /// Whether all words that were read were there and had their form.
    pub fn is_right(&self) -> bool {
        self.is_right
    }

    /// Says that a word is not right, unless this holds.
    pub fn check(&mut self, holds: bool) {
        self.is_right = self.is_right && holds;
    }

    /// What is left to read.
    pub fn rest(&self) -> &'a str {
        self.rest
    }

    /// Whether nothing is left to read.
    pub fn is_at_end(&self) -> bool {
        self.rest.is_empty()
    }

    /// The text up to the next one of these signs, or all that is left.
    pub fn until(&mut self, sign: char) -> &'a str {
        let (word, rest) = self.rest.split_once(sign).unwrap_or((self.rest, ""));
        self.rest = rest;
        word
    }

    /// What was found of a word; if that is nothing, this in its place.
    fn found<T: Copy>(&mut self, found: Option<T>, none: T) -> T {
        self.check(found.is_some());
        found.unwrap_or(none)
    }

    /// A number of one byte up to the next one of these signs.
    pub fn byte(&mut self, sign: char) -> u8 {
        let word = self.until(sign);
        self.found(word.parse().ok(), 0)
    }

    /// A number of two bytes up to the next one of these signs.
    pub fn short(&mut self, sign: char) -> u16 {
        let word = self.until(sign);
        self.found(word.parse().ok(), 0)
    }

    /// A number of four bytes up to the next one of these signs.
    pub fn number(&mut self, sign: char) -> u32 {
        let word = self.until(sign);
        self.found(word.parse().ok(), 0)
    }

    /// A number of eight bytes up to the next one of these signs.
    pub fn long(&mut self, sign: char) -> u64 {
        let word = self.until(sign);
        self.found(word.parse().ok(), 0)
    }

    /// The address of a page.
    pub(crate) fn page(&mut self, sign: char) -> [u8; 8] {
        let word = self.until(sign);
        self.found(page_bytes(word), [0; 8])
    }

    /// The end of the address of a cell.
    pub(crate) fn cell(&mut self, sign: char) -> [u8; 6] {
        let word = self.until(sign);
        self.found(cell_bytes(word), [0; 6])
    }

    /// A tag.
    pub(crate) fn tag(&mut self, sign: char) -> [u8; 6] {
        let word = self.until(sign);
        self.found(tag_bytes(word), [0; 6])
    }

    /// The page that a word names, if it names one.
    pub fn home(&mut self, sign: char) -> Option<Home> {
        let word = self.until(sign);
        let (vol, page) = self.found(numbers(word), (0, 0));
        let vol = VolIx::new(vol)?;
        Some(Home { vol, page })
    }
}
