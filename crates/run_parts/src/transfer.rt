//! Whole inputs and whole texts, over sources and sinks that give and take pieces.
ghost use Rattle.std.specs.Prelude.{◌≡◌, ℕ, ◌≤◌, ◌<◌, ◌+◌, ◌^◌, List, OnOk, OnErr, IfOk, MatchResult, length, vec_len};
ghost use Rattle.std.specs.Io.KnownBytes.{Appends, Consumes, IsAtEnd};
ghost use Rattle.domain_faults.specs.domain_base.Counts.{HasRisen};
ghost use Rattle.run_parts.specs.Transfer.{AppendsFront, StopsAfter};

use crate::sinks::Sink;
use crate::sources::Source;
use domain_faults::Failed;
use std::alloc::{AllocError, Global};
use std::error::Error;
use std::fmt;

/// How many bytes one call of a source is asked for at most.
const PIECE_BYTES: usize = 65_536;

/// Why an input could not be read whole.
#[derive(Clone, Copy, Debug, PartialEq, Eq)]
pub enum ReadError {
    /// The source failed.
    SourceFault,
    /// More bytes were read than the limit.
    TooLong,
    /// Memory ran out.
    OutOfMemory,
}

impl fmt::Display for ReadError {
    fn fmt<W: fmt::Write>(&self, f: &mut fmt::Formatter<W>) -> fmt::Result {
        f.write_str(match self {
            ReadError::SourceFault => "the source failed",
            ReadError::TooLong => "the input is too long",
            ReadError::OutOfMemory => "out of memory",
        })
    }
}

impl Error for ReadError {}

impl From<Failed> for ReadError {
    ghost use Rattle.std.specs.Prelude.{◌≡◌};
    ghost use Rattle.run_parts.specs.declared.transfer.ReadError.TheVariants.{SourceFault};

    ghost from_gives = { λ _ e. e ≡ SourceFault };

    fn from(_failed: Failed) -> ReadError {
        ReadError::SourceFault
    }
}

impl From<AllocError> for ReadError {
    ghost use Rattle.std.specs.Prelude.{◌≡◌};
    ghost use Rattle.run_parts.specs.declared.transfer.ReadError.TheVariants.{OutOfMemory};

    ghost from_gives = { λ _ e. e ≡ OutOfMemory };

    fn from(_refused: AllocError) -> ReadError {
        ReadError::OutOfMemory
    }
}

/// A vector of `count` zero bytes. Fails only if memory runs out.
pub fn zeros(alloc: Global, count: usize) -> Result<Vec<u8>, AllocError>
    ensures { IfOk result (λ bytes. vec_len bytes ≡ count) }
{
    vec![in alloc; 0; count]
}

/// Reads a source to its end. Returns `TooLong` if more than `limit` bytes were read, `SourceFault`
/// if a call was refused, and `OutOfMemory` if memory ran out.
pub fn read_all<S: Source>(
    alloc: Global,
    source: &mut S,
    limit: usize,
) -> Result<Vec<u8>, ReadError>
    requires { limit < usize.MAX }
    // At Ok, what was taken from the source is what is returned, and nothing is left.
    ensures taken { (read : List ℕ) × Consumes (S.left source.old) (S.left source.new) read
        × MatchResult result
        (λ bytes. (bytes.items ≡ read) × (length read ≤ limit))
        (λ e. StopsAfter limit e read) }
    ensures ended { OnOk result (IsAtEnd (S.left source.new)) }
    ensures never_falls { S.faults source.old ≤ S.faults source.new }
    ensures source_fault { result ≡ Err ReadError.SourceFault
        → HasRisen (S.faults source.old) (S.faults source.new) }
{
    let mut bytes = Vec::new(alloc);
    let mut piece = zeros(alloc, PIECE_BYTES)?;
    while bytes.len() <= limit {
        let room = (limit + 1 - bytes.len()).min(PIECE_BYTES);
        let front = &mut piece[..room];
        let taken = source.read(front)?;
        if taken == 0 {
            return Ok(bytes);
        }
        bytes.extend_from_slice(&front[..taken])?;
    }
    Err(ReadError::TooLong)
}

/// Writes a whole text to a sink. After a failure the sink has received a prefix of it.
pub fn write_all<K: Sink>(sink: &mut K, text: &[u8]) -> Result<(), Failed>
    ensures ok { OnOk result (Appends (K.held sink.old) (K.held sink.new) text.now) }
    ensures err { OnErr result (AppendsFront (K.held sink.old) (K.held sink.new) text.now) }
    ensures never_falls { K.faults sink.old ≤ K.faults sink.new }
    ensures failed { OnErr result (HasRisen (K.faults sink.old) (K.faults sink.new)) }
{
    let mut written = 0;
    while written < text.len() {
        written += sink.write(&text[written..])?;
    }
    Ok(())
}
