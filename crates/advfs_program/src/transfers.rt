//! Files that are put into a domain and taken out of it, by scripts of the commands `create`,
//! `truncate`, `write` and `read`.

use crate::errands::FileOwner;
use crate::opening::Refused;
use crate::progress::Progress;
use advfs_run::limits::{FILE_BYTES, FILE_PAGES, PAGE_BYTES};
use advfs_run::{
    Command, Ended, Entry, OutOfMemory, Rack, ReaderSource, Refusal, Reply, Status, WriterSink,
    history_line, push_number, read_all, run_text, write_all,
};
use std::alloc::Global;
use std::io;

/// With how many commands a script ends, and with how many bytes: a few less than a client's
/// section and a script may have.
const COMMANDS: usize = 1_990;

const SCRIPT_BYTES: usize = 16_777_216;

/// Runs a script over the domain in images. Its history is not printed.
pub(crate) fn answers_to<R: Rack + Drop>(
    alloc: Global,
    script: Vec<u8>,
    rack: R,
) -> Result<(R, Vec<Entry>), Refused> {
    let mut sink = WriterSink::new(io::sink());
    let Ended {
        status,
        rack,
        history,
        ..
    } = run_text(alloc, script, rack, &mut sink);
    match status {
        Status::Ok => Ok((rack, history)),
        status => Err(Refused::Ended(status)),
    }
}

/// What is told of a command that was refused: its line of a history.
pub(crate) fn answer_refused(alloc: Global, entry: &Entry) -> Refused {
    match history_line(alloc, entry) {
        Ok(line) => Refused::Answer(line),
        Err(OutOfMemory) => Refused::Ended(Status::OutOfMemory),
    }
}

/// A script with the section of a client, and no command yet.
pub(crate) fn new_script(alloc: Global) -> Result<Vec<u8>, OutOfMemory> {
    let mut script = Vec::new(alloc);
    script.extend_from_slice(b"client 1\n")?;
    Ok(script)
}

/// Adds a command and its first word after it, which may be empty.
pub(crate) fn push_words(
    script: &mut Vec<u8>,
    command: &str,
    word: &str,
) -> Result<(), OutOfMemory> {
    script.extend_from_slice(command.as_bytes())?;
    script.push(b' ')?;
    script.extend_from_slice(word.as_bytes())?;
    Ok(())
}

/// A script with one command.
pub(crate) fn look(alloc: Global, command: &str, word: &str) -> Result<Vec<u8>, OutOfMemory> {
    let mut script = new_script(alloc)?;
    push_words(&mut script, command, word)?;
    script.push(b'\n')?;
    Ok(script)
}

/// Adds a number after a space.
fn push_next(script: &mut Vec<u8>, number: u64) -> Result<(), OutOfMemory> {
    script.push(b' ')?;
    push_number(script, number)
}

/// One of the sixteen hexadecimal digits.
fn digit(value: u8) -> u8 {
    match b"0123456789abcdef".get(usize::from(value)) {
        Some(digit) => *digit,
        None => b'0',
    }
}

/// Adds a byte that stands so many times in a row, after a dot if it is not the first of its word.
fn push_run(script: &mut Vec<u8>, byte: u8, count: u64) -> Result<(), OutOfMemory> {
    if script.last() != Some(&b' ') {
        script.push(b'.')?;
    }
    script.push(digit(byte / 16))?;
    script.push(digit(byte % 16))?;
    if count > 1 {
        script.push(b'x')?;
        push_number(script, count)?;
    }
    Ok(())
}

/// Adds bytes as a word of a script: a byte that stands more than once in a row is written once.
fn push_bytes(script: &mut Vec<u8>, bytes: &[u8]) -> Result<(), OutOfMemory> {
    let mut run: Option<(u8, u64)> = None;
    for byte in bytes {
        run = match run {
            Some((last, count)) if last == *byte => Some((last, count.saturating_add(1))),
            Some((last, count)) => {
                push_run(script, last, count)?;
                Some((*byte, 1))
            }
            None => Some((*byte, 1)),
        };
    }
    match run {
        Some((last, count)) => push_run(script, last, count),
        None => Ok(()),
    }
}

/// Adds the commands after which a file is there and has no bytes: a new one with this owner, or
/// the one that was there.
fn push_beginning(script: &mut Vec<u8>, place: &str, owner: FileOwner) -> Result<(), OutOfMemory> {
    push_words(script, "create", place)?;
    push_next(script, u64::from(owner.uid))?;
    push_next(script, u64::from(owner.gid))?;
    script.push(b'\n')?;
    push_words(script, "truncate", place)?;
    push_next(script, 0)?;
    script.push(b'\n')?;
    Ok(())
}

/// Adds the command that writes bytes into a file from an offset on.
fn push_write(
    script: &mut Vec<u8>,
    place: &str,
    offset: u64,
    bytes: &[u8],
) -> Result<(), OutOfMemory> {
    push_words(script, "write", place)?;
    push_next(script, offset)?;
    script.push(b' ')?;
    push_bytes(script, bytes)?;
    script.push(b'\n')?;
    Ok(())
}

/// Whether a command was refused, unless it would have made a file that was there already.
fn is_refused(entry: &Entry) -> bool {
    match entry.reply {
        Reply::Refused(Refusal::Exists) => !matches!(entry.command, Command::Create { .. }),
        Reply::Refused(_) => true,
        _ => false,
    }
}

/// Runs a script that puts a part of a file.
fn put_part<R: Rack + Drop>(
    alloc: Global,
    script: Vec<u8>,
    rack: R,
    progress: &Progress<'_>,
) -> Result<R, Refused> {
    let (rack, history) = answers_to(alloc, script, rack)?;
    progress.count_answers(history.len());
    for entry in history.as_slice() {
        if is_refused(entry) {
            return Err(answer_refused(alloc, entry));
        }
    }
    Ok(rack)
}

/// Puts bytes into the file at a place, which is made if it is not there; what it held is lost.
pub(crate) fn put<R: Rack + Drop>(
    alloc: Global,
    place: &str,
    owner: FileOwner,
    bytes: &[u8],
    rack: R,
    progress: &Progress<'_>,
) -> Result<(), Refused> {
    let mut rack = rack;
    let mut script = new_script(alloc)?;
    push_beginning(&mut script, place, owner)?;
    let mut count: usize = 2;
    let mut offset: u64 = 0;
    for page in bytes.chunks(PAGE_BYTES) {
        if count >= COMMANDS || script.len() >= SCRIPT_BYTES {
            rack = put_part(alloc, script, rack, progress)?;
            progress.tell_file(offset, bytes.len() as u64);
            script = new_script(alloc)?;
            count = 0;
        }
        push_write(&mut script, place, offset, page)?;
        count = count.saturating_add(1);
        offset = offset.saturating_add(PAGE_BYTES as u64);
    }
    let _ = put_part(alloc, script, rack, progress)?;
    Ok(())
}

/// The bytes of standard input, as many as a file may have.
pub(crate) fn bytes_given(rt: &impl Input, alloc: Global) -> Result<Vec<u8>, Refused> {
    let mut source = ReaderSource::new(rt.reader());
    match read_all(alloc, &mut source, FILE_BYTES as usize) {
        Ok(bytes) => Ok(bytes),
        Err(error) => Err(Refused::Ended(Status::from(error))),
    }
}

/// A script that reads so many pages of a file from an offset on, or as many as it has room for.
fn reading_script(
    alloc: Global,
    place: &str,
    offset: u64,
    pages: u64,
) -> Result<Vec<u8>, OutOfMemory> {
    let mut script = new_script(alloc)?;
    let mut offset = offset;
    for _ in 0..pages.min(COMMANDS as u64) {
        if script.len() >= SCRIPT_BYTES {
            return Ok(script);
        }
        push_words(&mut script, "read", place)?;
        push_next(&mut script, offset)?;
        push_next(&mut script, PAGE_BYTES as u64)?;
        script.push(b'\n')?;
        offset = offset.saturating_add(PAGE_BYTES as u64);
    }
    Ok(script)
}

/// How many pages a file has to be read: those of its size, or one if it has no size, so that the
/// read tells why.
fn pages_to_read(asked: Option<&Entry>) -> u64 {
    match asked {
        Some(entry) => match entry.reply {
            Reply::FileStat { size, .. } => size.div_ceil(PAGE_BYTES as u64),
            _ => 1,
        },
        None => 1,
    }
}

/// Prints what reads of pages gave. Returns how many bytes they were.
fn print_pages(rt: &impl Print, alloc: Global, history: &[Entry]) -> Result<u64, Refused> {
    let mut sink = WriterSink::new(io::writer(rt));
    let mut count: u64 = 0;
    for entry in history {
        let Reply::Read(bytes) = &entry.reply else {
            return Err(answer_refused(alloc, entry));
        };
        if write_all(&mut sink, bytes.as_slice()).is_err() {
            return Err(Refused::Ended(Status::SinkFault));
        }
        count = count.saturating_add(PAGE_BYTES as u64);
    }
    Ok(count)
}

/// Prints the bytes of the file at a place.
pub(crate) fn get<R: Rack + Drop>(
    rt: &impl Print,
    alloc: Global,
    place: &str,
    rack: R,
    progress: &Progress<'_>,
) -> Result<(), Refused> {
    let (mut rack, asked) = answers_to(alloc, look(alloc, "stat", place)?, rack)?;
    let end = pages_to_read(asked.as_slice().first()).saturating_mul(PAGE_BYTES as u64);
    let mut offset: u64 = 0;
    for _ in 0..FILE_PAGES {
        if offset >= end {
            return Ok(());
        }
        let pages = (end - offset).div_ceil(PAGE_BYTES as u64);
        let script = reading_script(alloc, place, offset, pages)?;
        let (back, history) = answers_to(alloc, script, rack)?;
        rack = back;
        progress.count_answers(history.len());
        offset = offset.saturating_add(print_pages(rt, alloc, history.as_slice())?);
        progress.tell_file(offset, end);
    }
    Ok(())
}
