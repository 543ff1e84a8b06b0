//! The texts of statuses, of the kinds of bad lines, and of errors.
use crate::desk::Desk;
use advfs_run::{FaultKind, PrintError, ReadError, ScriptFault, Status, Unattached};
use std::alloc::{AllocError, Global};

static KINDS: [FaultKind; 8] = [
    FaultKind::OtherByte,
    FaultKind::NoSection,
    FaultKind::UnknownWord,
    FaultKind::OtherSection,
    FaultKind::WordCount,
    FaultKind::WordForm,
    FaultKind::SectionTwice,
    FaultKind::TooManyCommands,
];

static STATUSES: [Status; 13] = [
    Status::Ok,
    Status::Usage { word: 3 },
    Status::SourceFault,
    Status::TooLong,
    Status::BadScript {
        line: 2,
        kind: FaultKind::WordCount,
    },
    Status::NotADomain { vol: 1, at: 3 },
    Status::VolumeFault { vol: 1 },
    Status::SinkFault,
    Status::Found { faults: 12 },
    Status::OutOfMemory,
    Status::VolumeSmall { pages: 159 },
    Status::Occupied { page: 2 },
    Status::Unfit {
        why: Unattached::Cloned,
    },
];

/// Prints the kinds of bad lines, each with its number.
pub fn kinds(alloc: Global, desk: &mut Desk) -> Result<(), AllocError> {
    for kind in KINDS.iter() {
        let number = kind.number();
        let line = format!(in alloc; "{number} {kind}")?;
        desk.say(line.as_str())?;
    }
    Ok(())
}

/// Prints statuses, each with its number.
pub fn statuses(alloc: Global, desk: &mut Desk) -> Result<(), AllocError> {
    for status in STATUSES.iter() {
        let number = status.exit_number();
        let line = format!(in alloc; "{number} {status}")?;
        desk.say(line.as_str())?;
    }
    Ok(())
}

/// Prints what errors say.
pub fn errors(alloc: Global, desk: &mut Desk) -> Result<(), AllocError> {
    let fault = ReadError::SourceFault;
    let long = ReadError::TooLong;
    let memory = ReadError::OutOfMemory;
    let line = format!(in alloc; "{fault}, {long}, {memory}")?;
    desk.say(line.as_str())?;
    let fault = PrintError::SinkFault;
    let memory = PrintError::OutOfMemory;
    let bad = ScriptFault::Bad {
        line: 7,
        kind: FaultKind::NoSection,
    };
    let refused = ScriptFault::OutOfMemory;
    let line = format!(in alloc; "{fault}, {memory}, {bad}, {refused}")?;
    desk.say(line.as_str())
}
