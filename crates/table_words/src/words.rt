//! The words of a line.
use page_store::VolIx;

/// What is left to read of a line. After a word that is missing or is no number where one is
/// wanted, which is read as 0, the words are not right any more.
#[derive(Drop)]
pub struct Words<'a> {
    rest: &'a str,
    is_right: bool,
}

impl<'a> Words<'a> {
    /// The words of a line.
    pub fn new(line: &'a str) -> Words<'a> {
        Words {
            rest: line,
            is_right: true,
        }
    }

    /// Whether all words that were read are right.
    pub fn is_right(&self) -> bool {
        self.is_right
    }

    /// Says that a word is wrong, unless this holds.
    pub fn check(&mut self, holds: bool) {
        self.is_right = self.is_right && holds;
    }

    /// What is left to read.
    pub fn rest(&self) -> &'a str {
        self.rest
    }

    /// Whether nothing is left to read.
    pub fn is_at_end(&self) -> bool {
        self.rest.is_empty()
    }

    /// The text up to the next one of these signs, or all that is left.
    pub fn until(&mut self, sign: char) -> &'a str {
        let (word, rest) = self.rest.split_once(sign).unwrap_or((self.rest, ""));
        self.rest = rest;
        word
    }

    /// The number of eight bytes up to the next one of these signs.
    pub fn long(&mut self, sign: char) -> u64 {
        let number = self.until(sign).parse().ok();
        self.check(number.is_some());
        number.unwrap_or(0)
    }

    /// The number of four bytes up to the next one of these signs.
    pub fn number(&mut self, sign: char) -> u32 {
        let number = u32::try_from(self.long(sign)).ok();
        self.check(number.is_some());
        number.unwrap_or(0)
    }

    /// The number of two bytes up to the next one of these signs.
    pub fn short(&mut self, sign: char) -> u16 {
        let number = u16::try_from(self.long(sign)).ok();
        self.check(number.is_some());
        number.unwrap_or(0)
    }

    /// The number of one byte up to the next one of these signs.
    pub fn byte(&mut self, sign: char) -> u8 {
        let number = u8::try_from(self.long(sign)).ok();
        self.check(number.is_some());
        number.unwrap_or(0)
    }

    /// The number of eight bytes up to the next one of these signs; 0 if nothing is left.
    pub fn long_if_any(&mut self, sign: char) -> u64 {
        if self.rest.is_empty() {
            0
        } else {
            self.long(sign)
        }
    }

    /// The number of four bytes up to the next one of these signs; 0 if nothing is left.
    pub fn number_if_any(&mut self, sign: char) -> u32 {
        if self.rest.is_empty() {
            0
        } else {
            self.number(sign)
        }
    }

    /// The number of one byte up to the next one of these signs; 0 if nothing is left.
    pub fn byte_if_any(&mut self, sign: char) -> u8 {
        if self.rest.is_empty() {
            0
        } else {
            self.byte(sign)
        }
    }

    /// The volume of the number up to the next one of these signs; the first one if there is none
    /// of that number.
    pub fn volume(&mut self, sign: char) -> VolIx {
        let vol = VolIx::new(self.number(sign));
        self.check(vol.is_some());
        match vol {
            Some(vol) => vol,
            None => VolIx::new(1).unwrap(),
        }
    }
}
