//! Scripts that are written line by line, also with lines that are repeated many times.
use std::alloc::{AllocError, Global};

/// How often lines are repeated, and the number that each time has.
#[derive(Clone, Copy, Drop)]
pub struct Times {
    pub count: u32,
    pub first: u64,
    pub step: u64,
}

impl Times {
    /// The number that the lines have at one of the times, counted from 0.
    fn number(self, time: u32) -> u64 {
        self.first
            .saturating_add(self.step.saturating_mul(u64::from(time)))
    }
}

/// A script, and lines that are to be repeated in it.
#[derive(Drop)]
pub struct Draft {
    bytes: Vec<u8>,
    times: Option<Times>,
    lines: Vec<String>,
}

/// Adds a line with this number in the place of each `@`.
fn push_line(
    alloc: Global,
    bytes: &mut Vec<u8>,
    line: &str,
    number: u64,
) -> Result<(), AllocError> {
    let digits = format!(in alloc; "{number}")?;
    for (place, part) in line.split('@').enumerate() {
        if place > 0 {
            bytes.extend_from_slice(digits.as_bytes())?;
        }
        bytes.extend_from_slice(part.as_bytes())?;
    }
    bytes.push(b'\n')?;
    Ok(())
}

impl Draft {
    /// An empty one.
    pub fn new(alloc: Global) -> Draft {
        Draft {
            bytes: Vec::new(alloc),
            times: None,
            lines: Vec::new(alloc),
        }
    }

    /// Adds a line as it stands, or keeps it to be repeated.
    pub fn push(&mut self, alloc: Global, line: &str) -> Result<(), AllocError> {
        if self.times.is_some() {
            self.lines.push(String::from_str(alloc, line)?)?;
            return Ok(());
        }
        self.bytes.extend_from_slice(line.as_bytes())?;
        self.bytes.push(b'\n')?;
        Ok(())
    }

    /// The lines that come now are repeated.
    pub fn begin(&mut self, times: Times) {
        self.times = Some(times);
    }

    /// Adds the lines that came since then, so many times.
    pub fn end(&mut self, alloc: Global) -> Result<(), AllocError> {
        let Some(times) = self.times.take() else {
            return Ok(());
        };
        for time in 0..times.count {
            for line in self.lines.iter() {
                push_line(alloc, &mut self.bytes, line.as_str(), times.number(time))?;
            }
        }
        self.lines.clear();
        Ok(())
    }

    /// Takes the last byte away.
    pub fn chop(&mut self) {
        let _ = self.bytes.pop();
    }

    /// Puts other bytes in the script's place.
    pub fn set(&mut self, bytes: Vec<u8>) {
        self.bytes = bytes;
    }

    /// Gives the script away, and begins another.
    pub fn take(&mut self, alloc: Global) -> Vec<u8> {
        std::mem::replace(&mut self.bytes, Vec::new(alloc))
    }
}
