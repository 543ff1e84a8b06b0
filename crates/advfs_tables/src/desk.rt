//! What is at hand while a table of runs is read.
use crate::calls::Outcome;
use crate::script::Draft;
use std::alloc::{AllocError, Global};

/// What the lines so far have set, how the last call came out, and what is to be printed.
#[derive(Drop)]
pub struct Desk {
    /// What is to be printed.
    pub text: Vec<u8>,
    /// The script of the next call, and which calls of its source and of its sink are refused.
    pub draft: Draft,
    pub source_fails: Vec<u64>,
    pub sink_fails: Vec<u64>,
    /// The script that the last call was given, and how it came out.
    pub script: Vec<u8>,
    pub last: Outcome,
    /// What the image held when it was kept, and when it was last looked at.
    pub kept: Vec<u8>,
    pub before: Vec<u8>,
    /// How many calls a rack had had, or a run had made, when that was noted.
    pub noted: u64,
}

impl Desk {
    /// Nothing is set, and there was no call.
    pub fn new(alloc: Global) -> Desk {
        Desk {
            text: Vec::new(alloc),
            draft: Draft::new(alloc),
            source_fails: Vec::new(alloc),
            sink_fails: Vec::new(alloc),
            script: Vec::new(alloc),
            last: Outcome {
                told: Vec::new(alloc),
                passed: 0,
                calls: 0,
            },
            kept: Vec::new(alloc),
            before: Vec::new(alloc),
            noted: 0,
        }
    }

    /// Adds a line to what is to be printed.
    pub fn say(&mut self, line: &str) -> Result<(), AllocError> {
        self.text.extend_from_slice(line.as_bytes())?;
        self.text.push(b'\n')?;
        Ok(())
    }
}
