ghost use Rattle.std.specs.Prelude.{◌≡◌};
ghost use Rattle.script_text.specs.Script.{kind_number};
ghost use Rattle.script_text.specs.declared.fault.LineFault.TheVariants as line;

use command_text::OutOfMemory;
use std::alloc::AllocFailed;
use std::fmt;

/// What is wrong with a line, in the order in which faults are looked for.
#[derive(Clone, Copy, Debug, PartialEq, Eq)]
pub enum FaultKind {
    /// A byte that is neither printable ASCII nor a tab.
    OtherByte = 1,
    /// A command before the first section.
    NoSection = 2,
    /// A first word that is not known.
    UnknownWord = 3,
    /// A command that belongs in the other kind of section.
    OtherSection = 4,
    /// Fewer or more words than the form has.
    WordCount = 5,
    /// A word that is not of its form, or beyond its limit.
    WordForm = 6,
    /// One more section.
    SectionTwice = 7,
    /// A command after the 2,000th of its section.
    TooManyCommands = 8,
}

impl FaultKind {
    /// The number of this kind of fault.
    pub fn number(self) -> u8
        ensures { result ≡ kind_number self }
    {
        self as u8
    }
}

impl fmt::Display for FaultKind {
    fn fmt<W: fmt::Write>(&self, f: &mut fmt::Formatter<W>) -> fmt::Result {
        f.write_str(match self {
            FaultKind::OtherByte => "a byte that is neither printable ASCII nor a tab",
            FaultKind::NoSection => "no section yet",
            FaultKind::UnknownWord => "unknown first word",
            FaultKind::OtherSection => "command of the other kind of section",
            FaultKind::WordCount => "wrong number of words",
            FaultKind::WordForm => "a word that is not of its form, or beyond its limit",
            FaultKind::SectionTwice => "section given twice",
            FaultKind::TooManyCommands => "more than 2000 commands in a section",
        })
    }
}

/// Why a line was not read.
#[derive(Clone, Copy, Debug, PartialEq, Eq)]
pub enum LineFault {
    /// This is wrong with it.
    Kind(FaultKind),
    /// Memory ran out.
    OutOfMemory,
}

impl From<OutOfMemory> for LineFault {
    ghost from_gives = { λ _ fault. fault ≡ line.OutOfMemory };

    fn from(_fault: OutOfMemory) -> LineFault {
        LineFault::OutOfMemory
    }
}

impl<T: Drop> From<AllocFailed<T>> for LineFault {
    ghost from_gives = { λ _ fault. fault ≡ line.OutOfMemory };

    fn from(_fault: AllocFailed<T>) -> LineFault {
        LineFault::OutOfMemory
    }
}
