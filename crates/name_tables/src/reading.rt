//! Lines of commands on names, and what is answered. In a line `{253 0}` is 253 noughts.

use fileset_lending::{
    Command, FilesetName, Name, NameList, OutOfMemory, Path, Place, Refusal, Reply,
};
use std::alloc::Global;
use std::str::from_utf8;
use std::test::Fail;

/// The name of the one fileset.
pub fn home(alloc: Global) -> Result<FilesetName, OutOfMemory> {
    Ok(FilesetName::from_vec(Vec::from_slice(alloc, b"home")?))
}

/// Adds the names that stand after a `/` each.
fn push_names(alloc: Global, text: &str, names: &mut Vec<Name>) -> Result<(), OutOfMemory> {
    for name in text.split('/') {
        if !name.is_empty() {
            names.push(Name::from_vec(Vec::from_slice(alloc, name.as_bytes())?))?;
        }
    }
    Ok(())
}

/// The path whose names stand after a `/` each; `/` alone is the root's.
pub fn path(alloc: Global, text: &str) -> Result<Path, OutOfMemory> {
    let mut names = Vec::new(alloc);
    push_names(alloc, text, &mut names)?;
    Ok(Path::from_vec(names))
}

/// The number that digits say.
pub fn number_of(text: &str) -> Option<u32> {
    let mut number: u32 = 0;
    for byte in text.as_bytes() {
        if *byte < b'0' || b'9' < *byte {
            return None;
        }
        let digit = u32::from(*byte - b'0');
        number = number.saturating_mul(10).saturating_add(digit);
    }
    Some(number)
}

/// Adds a part that is repeated, and what follows it.
fn push_repeated(text: &mut String, part: &str) -> Result<(), Fail> {
    let (repeated, rest) = part.split_once('}').ok_or("a closing brace")?;
    let (times, once) = repeated.split_once(' ').ok_or("how often")?;
    for _ in 0..number_of(times).ok_or("a number")? {
        text.push_str(once)?;
    }
    text.push_str(rest)?;
    Ok(())
}

/// Adds a line, its repeated parts written out.
fn push_spelled(text: &mut String, line: &str) -> Result<(), Fail> {
    let mut parts = line.split('{');
    text.push_str(parts.next().unwrap_or(""))?;
    for part in parts {
        push_repeated(text, part)?;
    }
    Ok(())
}

/// The command of a verb. What is made is of user 1 and group 2.
fn command_of(verb: &str, place: Place, to: Path) -> Result<Command, Fail> {
    let (uid, gid) = (1, 2);
    match verb {
        "create" => Ok(Command::Create { place, uid, gid }),
        "mkdir" => Ok(Command::Mkdir { place, uid, gid }),
        "unlink" => Ok(Command::Unlink { place }),
        "rmdir" => Ok(Command::Rmdir { place }),
        "rename" => Ok(Command::Rename { place, to }),
        "link" => Ok(Command::Link { place, to }),
        "links" => Ok(Command::Links { place }),
        "list" => Ok(Command::List { place }),
        _ => Err(Fail::from("no such command")),
    }
}

/// The place of a path in the one fileset.
fn place_of(alloc: Global, text: &str) -> Result<Place, OutOfMemory> {
    let path = path(alloc, text)?;
    let fileset = home(alloc)?;
    Ok(Place { fileset, path })
}

/// The command of a line without repeated parts.
fn plain_command(alloc: Global, line: &str) -> Result<Command, Fail> {
    let (verb, rest) = line.split_once(' ').ok_or("a path")?;
    let (first, second) = rest.split_once(' ').unwrap_or((rest, ""));
    let to = path(alloc, second)?;
    let place = place_of(alloc, first)?;
    command_of(verb, place, to)
}

/// The command of a line: a verb, a path, and a second path if it has one.
pub fn command(alloc: Global, line: &str) -> Result<Command, Fail> {
    let mut text = String::new(alloc);
    push_spelled(&mut text, line)?;
    plain_command(alloc, text.as_str())
}

fn refusal_word(refusal: Refusal) -> &'static str {
    match refusal {
        Refusal::NoPath => "no-path",
        Refusal::Exists => "exists",
        Refusal::NotDirectory => "not-directory",
        Refusal::IsDirectory => "is-directory",
        Refusal::NotEmpty => "not-empty",
        Refusal::IntoItself => "into-itself",
        Refusal::LinksFull => "links-full",
        _ => "refused",
    }
}

/// Says a list: a space between two names, and a `/` after that of a directory.
fn push_listed(list: &NameList, out: &mut String) -> Result<(), Fail> {
    for item in list.as_slice() {
        if !out.is_empty() {
            out.push(' ')?;
        }
        out.push_str(from_utf8(item.name.as_slice())?)?;
        if item.directory {
            out.push('/')?;
        }
    }
    if out.is_empty() {
        out.push_str("no name")?;
    }
    Ok(())
}

/// Says a reply, if nothing was said before.
pub fn push_reply(reply: &Reply, out: &mut String) -> Result<(), Fail> {
    match reply {
        Reply::Done => Ok(out.push_str("ok")?),
        Reply::Refused(refusal) => Ok(out.push_str(refusal_word(*refusal))?),
        Reply::Count(count) => Ok(write!(out, "{count}")?),
        Reply::Names(list) => push_listed(list, out),
        _ => Ok(out.push_str("other")?),
    }
}
