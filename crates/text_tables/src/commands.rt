//! The commands that lines of histories have, also those on roots, which no script can say.
use history_reading::{Actor, Command, Entry, Path, Place, Reply, history_line, read_line};
use std::alloc::Global;
use std::str::SplitWhitespace;

/// The command of a client that a history would have refused in these words.
fn said(alloc: Global, words: &str) -> Option<Command> {
    let line = format!(in alloc; "c1 {words} -> E1 no-fileset\n").ok()?;
    Some(read_line(alloc, line.as_bytes()).ok()?.command)
}

/// The place that a word says, which may be a root.
fn place_of(alloc: Global, word: &str) -> Option<Place> {
    let words = format!(in alloc; "stat {word}").ok()?;
    match said(alloc, words.as_str())? {
        Command::Stat { place } => Some(place),
        _ => None,
    }
}

/// The path that a word says; `/` alone is the root's.
pub fn path_of(alloc: Global, word: &str) -> Option<Path> {
    let word = format!(in alloc; "any:{word}").ok()?;
    Some(place_of(alloc, word.as_str())?.path)
}

/// The next word as a number.
fn number(words: &mut SplitWhitespace<'_>) -> Option<u32> {
    words.next()?.parse::<u32>().ok()
}

/// The next two words as a user and a group.
fn owner(words: &mut SplitWhitespace<'_>) -> Option<(u32, u32)> {
    let uid = number(words)?;
    let gid = number(words)?;
    Some((uid, gid))
}

/// The path that the next word says.
fn next_path(alloc: Global, words: &mut SplitWhitespace<'_>) -> Option<Path> {
    path_of(alloc, words.next()?)
}

/// Makes a file at a place, which may be a root.
fn create(place: Place, words: &mut SplitWhitespace<'_>) -> Option<Command> {
    match owner(words) {
        Some((uid, gid)) => Some(Command::Create { place, uid, gid }),
        None => None,
    }
}

/// Makes a directory at a place, which may be a root.
fn mkdir(place: Place, words: &mut SplitWhitespace<'_>) -> Option<Command> {
    match owner(words) {
        Some((uid, gid)) => Some(Command::Mkdir { place, uid, gid }),
        None => None,
    }
}

/// Renames what is at a place, which may be a root.
fn rename(alloc: Global, place: Place, words: &mut SplitWhitespace<'_>) -> Option<Command> {
    match next_path(alloc, words) {
        Some(to) => Some(Command::Rename { place, to }),
        None => None,
    }
}

/// Removes what is at a place, which may be a root.
fn removal(verb: &str, place: Place) -> Option<Command> {
    match verb {
        "unlink" => Some(Command::Unlink { place }),
        "rmdir" => Some(Command::Rmdir { place }),
        _ => None,
    }
}

/// A command at a place, which may be a root.
fn root_command(
    alloc: Global,
    verb: &str,
    place: Place,
    words: &mut SplitWhitespace<'_>,
) -> Option<Command> {
    match verb {
        "create" => create(place, words),
        "mkdir" => mkdir(place, words),
        "rename" => rename(alloc, place, words),
        _ => removal(verb, place),
    }
}

/// The command on a root that a line has.
fn said_of_root(alloc: Global, line: &str) -> Option<Command> {
    let mut words = line.split_whitespace();
    let verb = words.next()?;
    let place = place_of(alloc, words.next()?)?;
    root_command(alloc, verb, place, &mut words)
}

/// The command that a line has.
pub fn command_in(alloc: Global, line: &str) -> Option<Command> {
    match said(alloc, line) {
        Some(command) => Some(command),
        None => said_of_root(alloc, line),
    }
}

/// The line in a history of a command with its reply.
pub fn answer_line(alloc: Global, actor: Actor, command: Command, reply: Reply) -> Option<Vec<u8>> {
    let entry = Entry {
        actor,
        command,
        reply,
        stamp: 0,
    };
    history_line(alloc, &entry).ok()
}
