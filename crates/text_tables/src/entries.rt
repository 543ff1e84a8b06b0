//! Lines of histories that are read back.

use crate::scripts::push_fault;
use history_reading::{Command, Entry, FilesetItem, Place, Reply, history_line, read_line};
use std::alloc::Global;
use std::str::from_utf8;

/// Says whether an entry is new and written as the line that it was read from.
fn push_written(
    alloc: Global,
    entry: &Entry,
    is_new: bool,
    line: &[u8],
    out: &mut String,
) -> Option<()> {
    let written = history_line(alloc, entry).ok()?;
    out.push_str(if is_new && written.as_slice() == line {
        "written again"
    } else {
        "written otherwise"
    })
    .ok()
}

/// Says whether an entry that was read has stamp 0, and is written as the line whatever its stamp.
fn write_again(alloc: Global, mut entry: Entry, line: &[u8], out: &mut String) -> Option<()> {
    let is_new = entry.stamp == 0;
    entry.stamp = 7;
    push_written(alloc, &entry, is_new, line, out)
}

/// Says whether a line is read and written again as it was, or what is wrong with it.
pub fn line(alloc: Global, text: &[u8], out: &mut String) -> Option<()> {
    match read_line(alloc, text) {
        Ok(entry) => write_again(alloc, entry, text, out),
        Err(fault) => push_fault(fault, out),
    }
}

/// A place, its names' bytes as characters.
fn push_place(place: &Place, out: &mut String) -> Option<()> {
    out.push_str(from_utf8(place.fileset.as_slice()).ok()?)
        .ok()?;
    for name in place.path.as_slice() {
        let name = from_utf8(name.as_slice()).ok()?;
        write!(out, ", {name:?}").ok()?;
    }
    Some(())
}

/// A read of bytes of a place.
fn push_read(place: &Place, offset: u64, count: u32, out: &mut String) -> Option<()> {
    out.push_str("read ").ok()?;
    push_place(place, out)?;
    write!(out, ", {offset}, {count}").ok()
}

fn push_stat(place: &Place, out: &mut String) -> Option<()> {
    out.push_str("stat ").ok()?;
    push_place(place, out)
}

/// The parts of a command.
fn push_command(command: &Command, out: &mut String) -> Option<()> {
    match command {
        Command::Read {
            place,
            offset,
            count,
        } => push_read(place, *offset, *count, out),
        Command::Stat { place } => push_stat(place, out),
        Command::Setquota {
            fileset,
            who,
            files,
            blocks,
        } => {
            let fileset = from_utf8(fileset.as_slice()).ok()?;
            write!(out, "setquota {fileset}, {who:?}, {files}, {blocks}").ok()
        }
        _ => None,
    }
}

/// Who gives a command, and its parts.
fn push_given(entry: &Entry, out: &mut String) -> Option<()> {
    write!(out, "{:?}: ", entry.actor).ok()?;
    push_command(&entry.command, out)
}

/// Says who gives the command of a line, and its parts.
pub fn command(alloc: Global, text: &[u8], out: &mut String) -> Option<()> {
    let entry = read_line(alloc, text).ok()?;
    push_given(&entry, out)
}

/// A fileset and its original.
fn push_fileset(item: &FilesetItem, out: &mut String) -> Option<()> {
    out.push_str(from_utf8(item.fileset.as_slice()).ok()?).ok()?;
    if let Some(original) = &item.original {
        let original = from_utf8(original.as_slice()).ok()?;
        write!(out, " of {original}").ok()?;
    }
    out.push('\n').ok()
}

fn push_filesets(filesets: &[FilesetItem], out: &mut String) -> Option<()> {
    for item in filesets {
        push_fileset(item, out)?;
    }
    Some(())
}

/// A line for each volume: its number, its pages, used and free ones, whether it has the log, and
/// whether it is closed.
fn push_volumes(reply: &Reply, out: &mut String) -> Option<()> {
    let Reply::Volumes(volumes) = reply else {
        return None;
    };
    for item in volumes.as_slice() {
        write!(out, "{}, {}, {}, ", item.vol, item.pages, item.used).ok()?;
        writeln!(out, "{}, {}, {}", item.free, item.has_log, item.closed).ok()?;
    }
    Some(())
}

/// Bytes that were read, as characters.
fn push_text(bytes: &[u8], out: &mut String) -> Option<()> {
    write!(out, "{:?}", from_utf8(bytes).ok()?).ok()
}

/// What a reply has: bytes that were read, a refusal, or what is shown.
fn push_reply(reply: &Reply, out: &mut String) -> Option<()> {
    match reply {
        Reply::Read(bytes) => push_text(bytes.as_slice(), out),
        Reply::Refused(refusal) => write!(out, "{refusal:?}").ok(),
        Reply::FileStat {
            uid,
            gid,
            size,
            pages,
            logged,
        } => write!(out, "{uid}, {gid}, {size}, {pages}, {logged}").ok(),
        Reply::Quota {
            files,
            files_limit,
            blocks,
            blocks_limit,
        } => write!(out, "{files}, {files_limit}, {blocks}, {blocks_limit}").ok(),
        Reply::Filesets(filesets) => push_filesets(filesets.as_slice(), out),
        _ => push_volumes(reply, out),
    }
}

/// Says what the reply of a line has.
pub fn reply(alloc: Global, text: &[u8], out: &mut String) -> Option<()> {
    let entry = read_line(alloc, text).ok()?;
    push_reply(&entry.reply, out)
}
