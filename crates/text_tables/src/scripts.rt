//! What scripts say, and the first bad line of bad ones.

use history_reading::{Actor, Command, Entry, Reply, ScriptFault, history_line, read_script};
use std::alloc::Global;
use std::str::from_utf8;

/// Says what is wrong with a text.
pub fn push_fault(fault: ScriptFault, out: &mut String) -> Option<()> {
    match fault {
        ScriptFault::Bad { line, kind } => write!(out, "line {line}: {kind:?}").ok(),
        ScriptFault::OutOfMemory => None,
    }
}

/// The line that a history has of an entry.
fn push_line(alloc: Global, entry: &Entry, out: &mut String) -> Option<()> {
    let line = history_line(alloc, entry).ok()?;
    out.push_str(from_utf8(line.as_slice()).ok()?).ok()
}

/// The line of a client's command that is done.
fn push_done(alloc: Global, number: u8, command: Command, out: &mut String) -> Option<()> {
    let entry = Entry {
        actor: Actor::Client(number),
        command,
        reply: Reply::Done,
        stamp: 0,
    };
    push_line(alloc, &entry, out)
}

/// The lines of a client's commands that are all done.
fn push_all(alloc: Global, number: u8, commands: Vec<Command>, out: &mut String) -> Option<()> {
    for command in commands {
        push_done(alloc, number, command, out)?;
    }
    Some(())
}

/// Says the commands of a script as a history has them if all are done, or its first bad line.
pub fn script(alloc: Global, text: &[u8], out: &mut String) -> Option<()> {
    let clients = match read_script(alloc, text) {
        Ok(script) => script.clients.into_vec(),
        Err(fault) => return push_fault(fault, out),
    };
    for section in clients {
        push_all(alloc, section.number, section.commands.into_vec(), out)?;
    }
    if out.is_empty() {
        out.push_str("no command").ok()?;
    }
    Some(())
}

/// Says whether a text is read as a script, or its first bad line.
pub fn read(alloc: Global, text: &[u8], out: &mut String) -> Option<()> {
    match read_script(alloc, text) {
        Ok(_) => out.push_str("read").ok(),
        Err(fault) => push_fault(fault, out),
    }
}

/// Says the clients of a script in the order of their sections, and whether the mover has one.
pub fn sections(alloc: Global, text: &[u8], out: &mut String) -> Option<()> {
    let script = read_script(alloc, text).ok()?;
    out.push_str("clients").ok()?;
    for section in script.clients.as_slice() {
        write!(out, " {}", section.number).ok()?;
    }
    let mover = if script.mover.is_some() { "a" } else { "no" };
    write!(out, ", {mover} mover").ok()
}
