//! What the plain program for filesets without volumes answers to the commands of a script.
use advfs_run::{Actor, Command, Entry, Filesets, Section, apply, history_line, read_script};
use std::alloc::{AllocError, Global};

/// The line in a history of a client's command over filesets.
fn answered(
    alloc: Global,
    filesets: &mut Filesets,
    number: u8,
    command: Command,
) -> Result<Vec<u8>, AllocError> {
    let reply = apply(alloc, filesets, &command);
    let entry = Entry {
        actor: Actor::Client(number),
        command,
        reply,
        stamp: 0,
    };
    history_line(alloc, &entry)
}

/// The history of one client's commands, over no filesets at first.
fn section_history(alloc: Global, section: Section) -> Result<Vec<u8>, AllocError> {
    let Section { number, commands } = section;
    let mut filesets = Filesets::new(alloc);
    let mut history = Vec::new(alloc);
    for command in commands.into_vec() {
        let line = answered(alloc, &mut filesets, number, command)?;
        history.extend_from_slice(line.as_slice())?;
    }
    Ok(history)
}

/// How the run of a script with one section has to end; None if it is no script.
pub fn told(alloc: Global, script: &[u8]) -> Result<Option<Vec<u8>>, AllocError> {
    let Ok(script) = read_script(alloc, script) else {
        return Ok(None);
    };
    let mut told = Vec::from_slice(alloc, b"Ok 0\n")?;
    for section in script.clients.into_vec() {
        let history = section_history(alloc, section)?;
        told.extend_from_slice(history.as_slice())?;
    }
    Ok(Some(told))
}
