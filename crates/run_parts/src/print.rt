//! Printing a history.
ghost use Rattle.std.specs.Prelude.{◌≡◌, ◌≤◌, [], ◌++◌, OnOk, OnErr};
ghost use Rattle.std.specs.Io.KnownBytes.{Appends};
ghost use Rattle.domain_faults.specs.domain_base.Counts.{HasRisen};
ghost use Rattle.script_text.specs.History.{history_text, line_of};
ghost use Rattle.run_parts.specs.Transfer.{AppendsFront, AppendsPart, HandsOn};

use crate::sinks::Sink;
use crate::transfer::write_all;
use domain_faults::{Entry, Failed};
use script_text::history_line;
use std::alloc::{AllocError, Global};
use std::error::Error;
use std::fmt;

/// A buffer is written once it has this many bytes.
const BUFFER_BYTES: usize = 65_536;

/// Why a history was not printed whole.
#[derive(Clone, Copy, Debug, PartialEq, Eq)]
pub enum PrintError {
    /// The sink failed.
    SinkFault,
    /// Memory ran out.
    OutOfMemory,
}

impl fmt::Display for PrintError {
    fn fmt<W: fmt::Write>(&self, f: &mut fmt::Formatter<W>) -> fmt::Result {
        f.write_str(match self {
            PrintError::SinkFault => "the sink failed",
            PrintError::OutOfMemory => "out of memory",
        })
    }
}

impl Error for PrintError {}

impl From<Failed> for PrintError {
    ghost use Rattle.std.specs.Prelude.{◌≡◌};
    ghost use Rattle.run_parts.specs.declared.print.PrintError.TheVariants.{SinkFault};

    ghost from_gives = { λ _ e. e ≡ SinkFault };

    fn from(_failed: Failed) -> PrintError {
        PrintError::SinkFault
    }
}

impl From<AllocError> for PrintError {
    ghost use Rattle.std.specs.Prelude.{◌≡◌};
    ghost use Rattle.run_parts.specs.declared.print.PrintError.TheVariants.{OutOfMemory};

    ghost from_gives = { λ _ e. e ≡ OutOfMemory };

    fn from(_refused: AllocError) -> PrintError {
        PrintError::OutOfMemory
    }
}

/// Writes what waits in the buffer, and empties it. After a failure the sink has received a prefix
/// of what waited.
fn flush<K: Sink>(sink: &mut K, buffer: &mut Vec<u8>) -> Result<(), Failed>
    ensures ok { OnOk result (Appends (K.held sink.old) (K.held sink.new) buffer.old.items) }
    ensures empty { OnOk result (buffer.new.items ≡ []) }
    ensures err { OnErr result (AppendsFront (K.held sink.old) (K.held sink.new) buffer.old.items) }
    ensures never_falls { K.faults sink.old ≤ K.faults sink.new }
    ensures failed { OnErr result (HasRisen (K.faults sink.old) (K.faults sink.new)) }
{
    write_all(sink, buffer.as_slice())?;
    buffer.clear();
    Ok(())
}

/// Adds the line of an entry to the buffer, which is written once it is full. After an error the
/// sink has received a prefix of what waited and of the line; if memory ran out, nothing of them.
fn push_line<K: Sink>(
    alloc: Global,
    sink: &mut K,
    buffer: &mut Vec<u8>,
    entry: &Entry,
) -> Result<(), PrintError>
    ensures ok { OnOk result (HandsOn (K.held sink.old) (K.held sink.new)
        (buffer.old.items ++ line_of entry.now) buffer.new.items) }
    ensures err { OnErr result (AppendsFront (K.held sink.old) (K.held sink.new)
        (buffer.old.items ++ line_of entry.now)) }
    ensures out_of_memory { result ≡ Err PrintError.OutOfMemory
        → K.held sink.new ≡ K.held sink.old }
    ensures never_falls { K.faults sink.old ≤ K.faults sink.new }
    ensures sink_fault { result ≡ Err PrintError.SinkFault
        → HasRisen (K.faults sink.old) (K.faults sink.new) }
{
    let line = history_line(alloc, entry)?;
    buffer.extend_from_slice(line.as_slice())?;
    if buffer.len() >= BUFFER_BYTES {
        flush(sink, buffer)?;
    }
    Ok(())
}

/// Prints a history, a line for each entry, in pieces of 65,536 bytes and more. Returns `SinkFault`
/// if a call of the sink was refused, and `OutOfMemory` if memory ran out before the text was
/// whole. After an error the sink has received a prefix of the text.
pub fn print_history<K: Sink>(
    alloc: Global,
    sink: &mut K,
    history: &[Entry],
) -> Result<(), PrintError>
    ensures ok { OnOk result
        (Appends (K.held sink.old) (K.held sink.new) (history_text history.now)) }
    ensures err { OnErr result
        (AppendsFront (K.held sink.old) (K.held sink.new) (history_text history.now)) }
    ensures out_of_memory { result ≡ Err PrintError.OutOfMemory
        → AppendsPart (K.held sink.old) (K.held sink.new) (history_text history.now) }
    ensures never_falls { K.faults sink.old ≤ K.faults sink.new }
    ensures sink_fault { result ≡ Err PrintError.SinkFault
        → HasRisen (K.faults sink.old) (K.faults sink.new) }
{
    let mut buffer = Vec::new(alloc);
    for entry in history {
        push_line(alloc, sink, &mut buffer, entry)?;
    }
    flush(sink, &mut buffer)?;
    Ok(())
}
