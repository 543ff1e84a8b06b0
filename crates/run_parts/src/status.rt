//! How a run ends.
ghost use Rattle.std.specs.Prelude.{◌≡◌};
ghost use Rattle.run_parts.specs.Exit.{exit_number};

use crate::print::PrintError;
use crate::transfer::ReadError;
use script_text::{FaultKind, ScriptFault};
use std::alloc::AllocError;
use std::fmt;

/// Why a domain that breaks no rule is still not attached.
#[derive(Clone, Copy, Debug, PartialEq, Eq)]
pub enum Unattached {
    /// It has a clone.
    Cloned,
    /// A file is read through another one, though no slot has a clone.
    ReadThrough,
    /// What is being removed names quota cells that are not the first ones of its fileset.
    WrongQuotas,
    /// A tag leads to a file that is to be removed whole.
    RemovedFile,
    /// A tag leads to a directory that is to be cut.
    CutDirectory,
    /// Its log has no numbers left.
    NoNumbers,
}

impl fmt::Display for Unattached {
    fn fmt<W: fmt::Write>(&self, f: &mut fmt::Formatter<W>) -> fmt::Result {
        f.write_str(match self {
            Unattached::Cloned => "it has a clone",
            Unattached::ReadThrough => "a file is read through another one",
            Unattached::WrongQuotas => "a fileset being removed names quota cells of another one",
            Unattached::RemovedFile => "a tag leads to a file that is to be removed",
            Unattached::CutDirectory => "a directory has a pending truncation",
            Unattached::NoNumbers => "its log has no numbers left",
        })
    }
}

/// How a run ended.
#[derive(Clone, Copy, Debug, PartialEq, Eq)]
pub enum Status {
    /// The script was run, and its whole history is in the sink.
    Ok,
    /// The command line is not understood. `word` words stand before the first one that is out of
    /// place; if the line stops too early, these are all of its words.
    Usage { word: u32 },
    /// A call of the source was refused, so the script is not known.
    SourceFault,
    /// The script has more than 33,554,432 bytes.
    TooLong,
    /// What `read_script` finds wrong with the script: which line, the first being 1, and which
    /// kind of fault.
    BadScript { line: u32, kind: FaultKind },
    /// There is no domain: at this page of this volume the first of its rules is broken.
    NotADomain { vol: u32, at: u32 },
    /// A read, a write or a sync of this volume was refused while a domain was made, attached,
    /// closed or verified.
    VolumeFault { vol: u32 },
    /// A call of the sink was refused. What was written before it is a prefix of the text, and
    /// nothing else.
    SinkFault,
    /// The image that was verified has `faults` faults, at least one, and each is in the sink.
    Found { faults: u64 },
    /// Memory ran out, at any point of the run.
    OutOfMemory,
    /// The volume on which a domain was to be made has only `pages` pages, fewer than 160.
    VolumeSmall { pages: u32 },
    /// The volume on which a domain was to be made holds something: this is the first of its pages
    /// that is not all zeros, of those that each domain uses.
    Occupied { page: u32 },
    /// There is a domain that breaks no rule, but it is not attached.
    Unfit { why: Unattached },
}

impl Status {
    /// The number with which the program ends.
    pub fn exit_number(self) -> u8
        ensures { result ≡ exit_number self }
    {
        match self {
            Status::Ok => 0,
            Status::Usage { .. } => 2,
            Status::SourceFault => 3,
            Status::TooLong => 4,
            Status::BadScript { .. } => 5,
            Status::NotADomain { .. } => 6,
            Status::VolumeFault { .. } => 7,
            Status::SinkFault => 8,
            Status::Found { .. } => 9,
            Status::OutOfMemory => 10,
            Status::VolumeSmall { .. } => 11,
            Status::Occupied { .. } => 13,
            Status::Unfit { .. } => 15,
        }
    }
}

impl fmt::Display for Status {
    fn fmt<W: fmt::Write>(&self, f: &mut fmt::Formatter<W>) -> fmt::Result {
        match self {
            Status::Ok => f.write_str("Ok"),
            Status::Usage { word } => write!(f, "Usage {word}"),
            Status::SourceFault => f.write_str("SourceFault"),
            Status::TooLong => f.write_str("TooLong"),
            Status::BadScript { line, kind } => {
                let number = kind.number();
                write!(f, "BadScript {line} {number}")
            }
            Status::NotADomain { vol, at } => write!(f, "NotADomain {vol} {at}"),
            Status::VolumeFault { vol } => write!(f, "VolumeFault {vol}"),
            Status::SinkFault => f.write_str("SinkFault"),
            Status::Found { faults } => write!(f, "Found {faults}"),
            Status::OutOfMemory => f.write_str("OutOfMemory"),
            Status::VolumeSmall { pages } => write!(f, "VolumeSmall {pages}"),
            Status::Occupied { page } => write!(f, "Occupied {page}"),
            Status::Unfit { why } => write!(f, "Unfit: {why}"),
        }
    }
}

impl From<ReadError> for Status {
    ghost use Rattle.std.specs.Prelude.{◌≡◌};
    ghost use Rattle.run_parts.specs.Exit.{status_of_read};

    ghost from_gives = { λ e s. s ≡ status_of_read e };

    fn from(error: ReadError) -> Status {
        match error {
            ReadError::SourceFault => Status::SourceFault,
            ReadError::TooLong => Status::TooLong,
            ReadError::OutOfMemory => Status::OutOfMemory,
        }
    }
}

impl From<ScriptFault> for Status {
    ghost use Rattle.std.specs.Prelude.{◌≡◌};
    ghost use Rattle.run_parts.specs.Exit.{status_of_fault};

    ghost from_gives = { λ e s. s ≡ status_of_fault e };

    fn from(fault: ScriptFault) -> Status {
        match fault {
            ScriptFault::Bad { line, kind } => Status::BadScript { line, kind },
            ScriptFault::OutOfMemory => Status::OutOfMemory,
        }
    }
}

impl From<PrintError> for Status {
    ghost use Rattle.std.specs.Prelude.{◌≡◌};
    ghost use Rattle.run_parts.specs.Exit.{status_of_print};

    ghost from_gives = { λ e s. s ≡ status_of_print e };

    fn from(error: PrintError) -> Status {
        match error {
            PrintError::SinkFault => Status::SinkFault,
            PrintError::OutOfMemory => Status::OutOfMemory,
        }
    }
}

impl From<AllocError> for Status {
    ghost use Rattle.std.specs.Prelude.{◌≡◌};
    ghost use Rattle.run_parts.specs.declared.status.Status.TheVariants.{OutOfMemory};

    ghost from_gives = { λ _ s. s ≡ OutOfMemory };

    fn from(_refused: AllocError) -> Status {
        Status::OutOfMemory
    }
}
