//! Where a history is printed.
ghost use Rattle.std.specs.Prelude.{◌≡◌, ℕ, ◌≤◌, ◌<◌, ◌+◌, List, [], Option, Some, None, OnOk, IfOk, OnErr, IsErr, Contains, min, length};
ghost use Rattle.std.specs.Io.{WritesAtMost};
ghost use Rattle.std.specs.Io.KnownBytes.{WriteAppends};
ghost use Rattle.domain_faults.specs.domain_base.Counts.{HasRisen, raised};

use domain_faults::Failed;
use std::alloc::Global;
use std::io::Write;
use std::marker::Model;

/// An output of bytes, written piece by piece.
pub trait Sink {
    /// What was written so far. A sink whose bytes contracts do not see has None.
    ghost held: { Self → Option (List ℕ) };

    /// How many calls were refused.
    ghost faults: { Self → ℕ };

    /// Writes a prefix of `bytes` and returns its length, which is 0 only if `bytes` is empty. A
    /// refused call writes nothing.
    fn write(&mut self, bytes: &[u8]) -> Result<usize, Failed>
        ensures bound { WritesAtMost result bytes.now }
        ensures takes { IfOk result (λ count. 0 < length bytes.now → 0 < count) }
        ensures bytes { WriteAppends (held self.old) (held self.new) result bytes.now }
        ensures never_falls { faults self.old ≤ faults self.new }
        ensures failed { OnErr result (HasRisen (faults self.old) (faults self.new)) };

    /// How many calls were refused so far. The number only rises, and stops at 2^64 - 1.
    fn faults(&self) -> u64
        ensures { result ≡ faults self.now };
}

/// A sink that keeps its bytes in memory. It refuses the calls that it was told to refuse, and any
/// call for which memory runs out.
#[derive(Debug, Drop)]
pub struct MemorySink {
    bytes: Vec<u8>,
    fails: Vec<u64>,
    calls: u64,
    faults: u64,
}

impl Model for MemorySink {
    ghost use Rattle.run_parts.specs.Scripted.{Store};

    ghost Value = { Store };

    ghost view = { λ s. record {
      held = s.bytes.items;
      fails = s.fails.items;
      calls = s.calls;
      faults = s.faults;
    } };
}

impl MemorySink {
    /// An empty sink. `fails` lists the calls that it refuses, counted from 1.
    pub fn new(alloc: Global, fails: Vec<u64>) -> Self
        ensures { result ≡ record { held = []; fails = fails.items; calls = 0; faults = 0 } }
    {
        MemorySink {
            bytes: Vec::new(alloc),
            fails,
            calls: 0,
            faults: 0,
        }
    }

    /// All that was written so far.
    pub fn bytes(&self) -> &[u8]
        ensures { result.now ≡ self.now.held }
    {
        self.bytes.as_slice()
    }
}

impl Sink for MemorySink {
    ghost held = { λ s. Some s.held };

    ghost faults = { λ s. s.faults };

    fn write(&mut self, bytes: &[u8]) -> Result<usize, Failed>
        ensures bound { WritesAtMost result bytes.now }
        ensures takes { IfOk result (λ count. 0 < length bytes.now → 0 < count) }
        ensures bytes { WriteAppends (Some self.old.held) (Some self.new.held) result bytes.now }
        ensures never_falls { self.old.faults ≤ self.new.faults }
        ensures failed { OnErr result (HasRisen self.old.faults self.new.faults) }
        ensures listed { Contains self.old.fails (raised self.old.calls) → IsErr result }
        ensures calls { self.new.calls ≡ raised self.old.calls }
        ensures same_fails { self.new.fails ≡ self.old.fails }
    {
        self.calls = self.calls.saturating_add(1);
        if self.fails.contains(&self.calls) || self.bytes.extend_from_slice(bytes).is_err() {
            self.faults = self.faults.saturating_add(1);
            return Err(Failed);
        }
        Ok(bytes.len())
    }

    fn faults(&self) -> u64 {
        self.faults
    }
}

/// Makes a sink of a writer, such as standard output. Contracts see none of its bytes.
#[derive(Debug, Drop)]
pub struct WriterSink<T> {
    writer: T,
    faults: u64,
}

impl<T> WriterSink<T> {
    /// A sink that passes everything on to the writer, with no call refused so far.
    pub fn new(writer: T) -> Self
        ensures kept { result.writer ≡ writer }
        ensures faults { result.faults ≡ 0 }
    {
        WriterSink { writer, faults: 0 }
    }
}

impl<T: Write> Sink for WriterSink<T> {
    ghost held = { λ _. None };

    ghost faults = { λ s. s.faults };

    fn write(&mut self, bytes: &[u8]) -> Result<usize, Failed> {
        let written = self.writer.write(bytes);
        match written {
            Ok(count) if count > 0 || bytes.is_empty() => Ok(count),
            _ => {
                self.faults = self.faults.saturating_add(1);
                Err(Failed)
            }
        }
    }

    fn faults(&self) -> u64 {
        self.faults
    }
}

/// Which codes stand in the lines of faults that were printed.
#[derive(Clone, Copy, Debug)]
pub struct FaultCodes {
    seen: [bool; 16],
    number: u32,
}

impl FaultCodes {
    /// No line yet.
    fn new() -> FaultCodes {
        FaultCodes {
            seen: [false; 16],
            number: 0,
        }
    }

    /// Whether a line ended with this code.
    pub fn has(&self, code: usize) -> bool {
        match self.seen.get(code) {
            Some(seen) => *seen,
            None => false,
        }
    }

    /// Marks the code with which a line ended.
    fn end_line(&mut self) {
        if let Some(seen) = self.seen.get_mut(self.number as usize) {
            *seen = true;
        }
        self.number = 0;
    }

    /// Looks at one more byte of the lines: a code is the last number of its line.
    fn note(&mut self, byte: u8) {
        if byte == b'\n' {
            self.end_line();
        } else if byte.is_ascii_digit() {
            let digit = u32::from(byte.saturating_sub(b'0'));
            self.number = self.number.saturating_mul(10).saturating_add(digit);
        } else {
            self.number = 0;
        }
    }

    /// Looks at more bytes of the lines.
    fn note_all(&mut self, bytes: &[u8]) {
        for byte in bytes {
            self.note(*byte);
        }
    }
}

/// A sink that passes the lines of faults on to another one, and notes their codes.
#[derive(Drop)]
pub struct CodeSink<K> {
    sink: K,
    codes: FaultCodes,
}

impl<K> CodeSink<K> {
    /// A sink over this one, with no code noted.
    pub fn new(sink: K) -> Self
        ensures { result.sink ≡ sink }
    {
        CodeSink {
            sink,
            codes: FaultCodes::new(),
        }
    }

    /// The codes of the lines that were passed on.
    pub fn codes(&self) -> &FaultCodes {
        &self.codes
    }
}

impl<K: Sink> Sink for CodeSink<K> {
    ghost held = { λ s. K.held s.sink };

    ghost faults = { λ s. K.faults s.sink };

    fn write(&mut self, bytes: &[u8]) -> Result<usize, Failed> {
        match self.sink.write(bytes) {
            Ok(count) => {
                self.codes.note_all(&bytes[..count]);
                Ok(count)
            }
            Err(Failed) => Err(Failed),
        }
    }

    fn faults(&self) -> u64 {
        self.sink.faults()
    }
}
