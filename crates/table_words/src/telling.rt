//! What is told, one word after another.
use hex::encode;
use page_store::Home;
use std::alloc::Global;
use std::fmt::Display;
use std::process::ExitCode;

/// Text that grows; it is not right any more once memory is short, or something is wrong.
#[derive(Drop)]
pub struct Told {
    alloc: Global,
    text: String,
    is_right: bool,
}

impl Told {
    /// No text.
    pub fn new(alloc: Global) -> Told {
        Told {
            alloc,
            text: String::new(alloc),
            is_right: true,
        }
    }

    /// The text so far.
    pub fn text(&self) -> &str {
        self.text.as_str()
    }

    /// Whether all was right so far.
    pub fn is_right(&self) -> bool {
        self.is_right
    }

    /// Says that something is wrong, unless this holds.
    pub fn check(&mut self, holds: bool) {
        self.is_right = self.is_right && holds;
    }

    /// Tells a word.
    pub fn push(&mut self, word: &str) {
        let is_pushed = self.text.push_str(word).is_ok();
        self.check(is_pushed);
    }

    /// Tells a byte as the letter that it stands for.
    pub fn push_letter(&mut self, letter: u8) {
        let is_pushed = self.text.push(char::from(letter)).is_ok();
        self.check(is_pushed);
    }

    /// Tells a value as it is shown.
    pub fn push_shown<T: Display>(&mut self, shown: &T) {
        let is_pushed = write!(self.text, "{shown}").is_ok();
        self.check(is_pushed);
    }

    /// Tells a number.
    pub fn push_number(&mut self, number: u64) {
        self.push_shown(&number);
    }

    /// Tells a number, or that there is none.
    pub fn push_some(&mut self, number: Option<u32>) {
        match number {
            Some(number) => self.push_number(u64::from(number)),
            None => self.push("none"),
        }
    }

    /// Tells two numbers, each after a word.
    pub fn push_pair(&mut self, before: &str, first: u64, between: &str, second: u64) {
        self.push(before);
        self.push_number(first);
        self.push(between);
        self.push_number(second);
    }

    /// Tells a page after a word, by its volume and its number.
    pub fn push_home(&mut self, before: &str, home: &Home) {
        let vol = u64::from(home.vol.number());
        self.push_pair(before, vol, ":", u64::from(home.page));
    }

    /// Tells bytes in hexadecimal digits.
    pub fn push_digits(&mut self, bytes: &[u8]) {
        match encode(self.alloc, bytes) {
            Ok(digits) => self.push(digits.as_str()),
            Err(_) => self.check(false),
        }
    }

    /// Prints the text, and gives the status of a program that told it: a failure if it is not
    /// right.
    pub fn print(&self, rt: &HostRuntime) -> ExitCode {
        let is_printed = rt.print(self.text.as_str()).is_ok();
        if is_printed && self.is_right {
            ExitCode::SUCCESS
        } else {
            ExitCode::FAILURE
        }
    }
}
