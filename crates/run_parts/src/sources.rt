//! Where a script comes from.
ghost use Rattle.std.specs.Prelude.{◌≡◌, ℕ, ◌≤◌, ◌↔◌, ◌+◌, List, Option, Some, None, OnErr, IsErr, Contains, min, length, drop};
ghost use Rattle.std.specs.Io.{ReadsAtMost};
ghost use Rattle.std.specs.Io.KnownBytes.{ReadConsumes};
ghost use Rattle.domain_faults.specs.domain_base.Counts.{HasRisen, raised};

use domain_faults::Failed;
use std::io::Read;
use std::marker::Model;

/// An input of bytes, read piece by piece. It has ended once a call with room for a byte returns 0.
pub trait Source {
    /// What is still to come. A source whose bytes contracts do not see has None.
    ghost left: { Self → Option (List ℕ) };

    /// How many calls were refused.
    ghost faults: { Self → ℕ };

    /// Fills `out` from its start with the next bytes, as many as come, and returns how many. A
    /// refused call loses nothing: the next call goes on at the same byte.
    fn read(&mut self, out: &mut [u8]) -> Result<usize, Failed>
        ensures bound { ReadsAtMost result out.new }
        ensures bytes { ReadConsumes (left self.old) (left self.new) result out.new }
        ensures never_falls { faults self.old ≤ faults self.new }
        ensures failed { OnErr result (HasRisen (faults self.old) (faults self.new)) };

    /// How many calls were refused so far. The number only rises, and stops at 2^64 - 1.
    fn faults(&self) -> u64
        ensures { result ≡ faults self.now };
}

/// A source that gives bytes from memory, and refuses the calls that it was told to refuse.
#[derive(Debug, Drop)]
pub struct MemorySource {
    bytes: Vec<u8>,
    taken: usize,
    fails: Vec<u64>,
    calls: u64,
    faults: u64,
}

impl Model for MemorySource {
    ghost use Rattle.std.specs.Prelude.{◌≤◌, drop, vec_len};
    ghost use Rattle.run_parts.specs.Scripted.{Supply};

    ghost Value = { Supply };

    ghost view = { λ s. record {
      left = drop s.taken s.bytes.items;
      fails = s.fails.items;
      calls = s.calls;
      faults = s.faults;
    } };

    ghost invariant = { λ s. s.taken ≤ vec_len s.bytes };
}

impl MemorySource {
    /// A source that gives these bytes. `fails` lists the calls that it refuses, counted from 1.
    pub fn new(bytes: Vec<u8>, fails: Vec<u64>) -> Self
        ensures { result
            ≡ record { left = bytes.items; fails = fails.items; calls = 0; faults = 0 } }
    {
        MemorySource {
            bytes,
            taken: 0,
            fails,
            calls: 0,
            faults: 0,
        }
    }

    /// All bytes that it had when it was made, the read ones too.
    pub fn into_bytes(self) -> Vec<u8> {
        let MemorySource { bytes, .. } = self;
        bytes
    }
}

impl Source for MemorySource {
    ghost left = { λ s. Some s.left };

    ghost faults = { λ s. s.faults };

    fn read(&mut self, out: &mut [u8]) -> Result<usize, Failed>
        ensures bound { ReadsAtMost result out.new }
        ensures bytes { ReadConsumes (Some self.old.left) (Some self.new.left) result out.new }
        ensures never_falls { self.old.faults ≤ self.new.faults }
        ensures failed { OnErr result (HasRisen self.old.faults self.new.faults) }
        ensures listed { IsErr result ↔ Contains self.old.fails (raised self.old.calls) }
        ensures calls { self.new.calls ≡ raised self.old.calls }
        ensures same_fails { self.new.fails ≡ self.old.fails }
    {
        self.calls = self.calls.saturating_add(1);
        if self.fails.contains(&self.calls) {
            self.faults = self.faults.saturating_add(1);
            return Err(Failed);
        }
        let left = &self.bytes[self.taken..];
        let count = left.len().min(out.len());
        out[..count].copy_from_slice(&left[..count]);
        self.taken += count;
        Ok(count)
    }

    fn faults(&self) -> u64 {
        self.faults
    }
}

/// Makes a source of a reader, such as standard input. Contracts see none of its bytes.
#[derive(Debug, Drop)]
pub struct ReaderSource<T> {
    reader: T,
    faults: u64,
}

impl<T> ReaderSource<T> {
    /// A source of what the reader gives, with no call refused so far.
    pub fn new(reader: T) -> Self
        ensures kept { result.reader ≡ reader }
        ensures faults { result.faults ≡ 0 }
    {
        ReaderSource { reader, faults: 0 }
    }
}

impl<T: Read> Source for ReaderSource<T> {
    ghost left = { λ _. None };

    ghost faults = { λ s. s.faults };

    fn read(&mut self, out: &mut [u8]) -> Result<usize, Failed> {
        let read = self.reader.read(out);
        match read {
            Ok(count) => Ok(count),
            Err(_) => {
                self.faults = self.faults.saturating_add(1);
                Err(Failed)
            }
        }
    }

    fn faults(&self) -> u64 {
        self.faults
    }
}
