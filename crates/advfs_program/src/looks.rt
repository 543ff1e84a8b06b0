//! What a domain has, as tables for people: its volumes, its filesets, and the names of a
//! directory.
ghost use Rattle.std.specs.Prelude.{◌<◌, ◌≤◌, ◌^◌};

use crate::opening::Refused;
use crate::telling::{first_image, word_at};
use crate::transfers::{answer_refused, answers_to, look, new_script, push_words};
use advfs_run::limits::PAGE_BYTES;
use advfs_run::{Entry, FileRack, OutOfMemory, Reply, Status, WriterSink, history_line, run_text};
use std::alloc::Global;
use std::{fmt, io, str};

/// Bytes, in the largest unit of which there is a whole one.
#[derive(Clone, Copy)]
struct Amount(u64);

/// Writes bytes in a unit, with a tenth.
fn write_in<W: fmt::Write>(
    f: &mut fmt::Formatter<W>,
    bytes: u64,
    unit: u64,
    name: &str,
) -> fmt::Result
    requires some { 0 < unit }
    requires least { unit ≤ 2 ^ 30 }
{
    let (whole, tenth) = (bytes / unit, bytes % unit * 10 / unit);
    write!(f, "{whole}.{tenth} {name}")
}

impl fmt::Display for Amount {
    fn fmt<W: fmt::Write>(&self, f: &mut fmt::Formatter<W>) -> fmt::Result {
        let Amount(bytes) = *self;
        if bytes < 1_024 {
            return write!(f, "{bytes} B");
        }
        if bytes < 1_048_576 {
            return write_in(f, bytes, 1_024, "KiB");
        }
        if bytes < 1_073_741_824 {
            return write_in(f, bytes, 1_048_576, "MiB");
        }
        write_in(f, bytes, 1_073_741_824, "GiB")
    }
}

/// So many pages in bytes.
fn pages(alloc: Global, count: u32) -> Result<String, OutOfMemory> {
    size_text(alloc, u64::from(count) * PAGE_BYTES as u64)
}

fn size_text(alloc: Global, bytes: u64) -> Result<String, OutOfMemory> {
    let amount = Amount(bytes);
    Ok(format!(in alloc; "{amount}")?)
}

/// Whether a line of a table was printed.
fn printed(answer: io::Result<()>) -> Result<(), Refused> {
    match answer {
        Ok(()) => Ok(()),
        Err(_) => Err(Refused::Ended(Status::SinkFault)),
    }
}

/// The reply to a look that is the only command of its history.
fn only(history: &[Entry]) -> Result<&Entry, Refused> {
    match history.first() {
        Some(entry) => Ok(entry),
        None => Err(Refused::Ended(Status::OutOfMemory)),
    }
}

/// Prints the line that a history has for a look.
pub(crate) fn print_lines(
    rt: &impl Print,
    alloc: Global,
    command: &str,
    word: &str,
    rack: FileRack,
) -> Result<(), Refused> {
    let mut sink = WriterSink::new(io::writer(rt));
    let ended = run_text(alloc, look(alloc, command, word)?, rack, &mut sink);
    if ended.status != Status::Ok {
        return Err(Refused::Ended(ended.status));
    }
    let entry = only(ended.history.as_slice())?;
    match entry.reply {
        Reply::Refused(_) => Err(answer_refused(alloc, entry)),
        _ => Ok(()),
    }
}

/// What a volume is used for.
fn use_of(has_log: bool, closed: bool) -> &'static str {
    match (has_log, closed) {
        (true, true) => "log, closed",
        (true, false) => "log",
        (false, true) => "closed",
        (false, false) => "-",
    }
}

/// Shows the volumes of a domain.
pub(crate) fn show_volumes(
    rt: &impl Print,
    alloc: Global,
    words: &[String],
    rack: FileRack,
) -> Result<(), Refused> {
    let (_, history) = answers_to(alloc, look(alloc, "showfdmn", "")?, rack)?;
    let entry = only(history.as_slice())?;
    let Reply::Volumes(volumes) = &entry.reply else {
        return Err(answer_refused(alloc, entry));
    };
    printed(println!(rt; "volume       size       used       free  use          image"))?;
    for item in volumes.as_slice() {
        let vol = item.vol;
        let (size, used) = (pages(alloc, item.pages)?, pages(alloc, item.used)?);
        let (free, purpose) = (pages(alloc, item.free)?, use_of(item.has_log, item.closed));
        let place = first_image(words).saturating_add(vol as usize);
        let image = word_at(words, place.saturating_sub(1));
        printed(println!(rt; "{vol:>6} {size:>10} {used:>10} {free:>10}  {purpose:<11}  {image}"))?;
    }
    Ok(())
}

/// A limit, of which 0 is none.
fn limit(alloc: Global, limit: u64) -> Result<String, OutOfMemory> {
    match limit {
        0 => Ok(format!(in alloc; "-")?),
        _ => Ok(format!(in alloc; "{limit}")?),
    }
}

/// The bytes of so many blocks of 512 bytes.
fn blocks(alloc: Global, count: u64) -> Result<String, OutOfMemory> {
    size_text(alloc, count.saturating_mul(512))
}

/// A limit of blocks, of which 0 is none.
fn blocks_limit(alloc: Global, limit: u64) -> Result<String, OutOfMemory> {
    match limit {
        0 => Ok(format!(in alloc; "-")?),
        _ => blocks(alloc, limit),
    }
}

/// A word of bytes that are text.
fn text(bytes: &[u8]) -> &str {
    str::from_utf8(bytes).unwrap_or("?")
}

/// A script that asks for the usage of each fileset of a list.
fn usage_script(alloc: Global, listed: &Entry) -> Result<Vec<u8>, OutOfMemory> {
    let mut script = new_script(alloc)?;
    if let Reply::Filesets(filesets) = &listed.reply {
        for item in filesets.as_slice() {
            push_words(&mut script, "showquota", text(item.fileset.as_slice()))?;
            script.extend_from_slice(b" fileset 0\n")?;
        }
    }
    Ok(script)
}

/// Shows a fileset with what it uses.
fn show_fileset(rt: &impl Print, alloc: Global, name: &str, usage: &Entry) -> Result<(), Refused> {
    let Reply::Quota {
        files,
        files_limit,
        blocks: used,
        blocks_limit: most,
    } = usage.reply
    else {
        return printed(println!(rt; "{name:<31} a clone"));
    };
    let (files_most, size) = (limit(alloc, files_limit)?, blocks(alloc, used)?);
    let size_most = blocks_limit(alloc, most)?;
    printed(println!(rt; "{name:<31} {files:>8} {files_most:>8} {size:>10} {size_most:>10}"))
}

/// Shows the filesets of a domain.
pub(crate) fn show_filesets(rt: &impl Print, alloc: Global, rack: FileRack) -> Result<(), Refused> {
    let (rack, history) = answers_to(alloc, look(alloc, "showfsets", "")?, rack)?;
    let entry = only(history.as_slice())?;
    let Reply::Filesets(filesets) = &entry.reply else {
        return Err(answer_refused(alloc, entry));
    };
    let (_, usages) = answers_to(alloc, usage_script(alloc, entry)?, rack)?;
    let line = "fileset                            files    limit       size      limit";
    printed(println!(rt; "{line}"))?;
    for (item, usage) in filesets.as_slice().iter().zip(usages.as_slice()) {
        show_fileset(rt, alloc, text(item.fileset.as_slice()), usage)?;
    }
    Ok(())
}

/// The words of a reply with names, as its line has them.
fn names_in(line: &[u8]) -> &str {
    match text(line).split_once(" -> ok") {
        Some((_, names)) => names,
        None => "",
    }
}

/// A script that asks what each of so many names is, and stands in a directory.
fn stat_script(
    alloc: Global,
    place: &str,
    names: &str,
    from: usize,
) -> Result<Vec<u8>, OutOfMemory> {
    let slash = if place.ends_with('/') { "" } else { "/" };
    let mut script = new_script(alloc)?;
    for name in names
        .split_ascii_whitespace()
        .skip(from)
        .take(NAMES_AT_ONCE)
    {
        let name = name.trim_end_matches('/');
        push_words(&mut script, "stat", place)?;
        script.extend_from_slice(slash.as_bytes())?;
        script.extend_from_slice(name.as_bytes())?;
        script.push(b'\n')?;
    }
    Ok(script)
}

/// About how many names of a directory one script asks.
const NAMES_AT_ONCE: usize = 500;

/// Shows a name with what it is.
fn show_name(rt: &impl Print, alloc: Global, name: &str, found: &Entry) -> Result<(), Refused> {
    match found.reply {
        Reply::FileStat { uid, gid, size, .. } => {
            let size = size_text(alloc, size)?;
            printed(println!(rt; "file {uid:>10} {gid:>10} {size:>12}  {name}"))
        }
        Reply::DirStat { uid, gid, rows } => {
            let rows = format!(in alloc; "{rows} names");
            let Ok(rows) = rows else {
                return Err(Refused::Ended(Status::OutOfMemory));
            };
            printed(println!(rt; "dir  {uid:>10} {gid:>10} {rows:>12}  {name}"))
        }
        _ => Err(answer_refused(alloc, found)),
    }
}

/// Shows the names of a directory with what each is.
pub(crate) fn list(
    rt: &impl Print,
    alloc: Global,
    place: &str,
    rack: FileRack,
) -> Result<(), Refused> {
    let (rack, history) = answers_to(alloc, look(alloc, "list", place)?, rack)?;
    let entry = only(history.as_slice())?;
    let Reply::Names(listed) = &entry.reply else {
        return Err(answer_refused(alloc, entry));
    };
    let Ok(line) = history_line(alloc, entry) else {
        return Err(Refused::Ended(Status::OutOfMemory));
    };
    let names = names_in(line.as_slice());
    printed(println!(rt; "type        uid        gid         size  name"))?;
    let mut rack = rack;
    for number in 0..listed.as_slice().len().div_ceil(NAMES_AT_ONCE) {
        let from = NAMES_AT_ONCE.saturating_mul(number);
        let (back, found) = answers_to(alloc, stat_script(alloc, place, names, from)?, rack)?;
        rack = back;
        let asked = names.split_ascii_whitespace().skip(from);
        for (name, entry) in asked.zip(found.as_slice()) {
            show_name(rt, alloc, name, entry)?;
        }
    }
    Ok(())
}
