use crate::fault::FaultKind;
use command_text::{CommandList, Listing};
use std::error::Error;
use std::fmt;

/// The commands of one client, or of the mover, whose number is 0.
#[derive(Drop)]
pub struct Section {
    pub number: u8,
    pub commands: CommandList,
}

/// Sections in the order of the script.
pub type SectionList = Listing<Section>;

/// What a script says.
#[derive(Drop)]
pub struct Script {
    pub clients: SectionList,
    pub mover: Option<Section>,
}

/// Why a script was not read.
#[derive(Clone, Copy, Debug, PartialEq, Eq)]
pub enum ScriptFault {
    /// The first bad line, counted from 1, and what is wrong with it. A line beyond 4,294,967,295
    /// is given as that number.
    Bad { line: u32, kind: FaultKind },
    /// Memory ran out.
    OutOfMemory,
}

impl fmt::Display for ScriptFault {
    fn fmt<W: fmt::Write>(&self, f: &mut fmt::Formatter<W>) -> fmt::Result {
        match self {
            ScriptFault::Bad { line, kind } => write!(f, "line {line}: {kind}"),
            ScriptFault::OutOfMemory => write!(f, "out of memory"),
        }
    }
}

impl Error for ScriptFault {}
