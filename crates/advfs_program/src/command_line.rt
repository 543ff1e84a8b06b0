//! The program around `run`: its words, the rack that they ask for, standard input and output, and
//! the exit number.
ghost use Rattle.std.specs.Prelude.{◌≡◌, Ok, map, string_bytes};
ghost use Rattle.advfs_run.specs.run_parts.Usage.{form_of};
ghost use Rattle.advfs_run.specs.run_parts.declared.words.Form.TheVariants.{Make, Run, Try, Verify};
ghost use Rattle.std.specs.Process.{exit_status};
ghost use Rattle.advfs_program.specs.Exits.{IsExit, number_of};

use crate::errands::{Verb, do_errand};
use crate::host::Host;
use crate::images::Access;
use crate::opening::{
    Refused, only_looks, open_images, open_one, script_given, script_named, sizes_of,
};
use crate::progress::{Progress, Watched};
use crate::telling::{
    first_image, only_reads, script_word, tell, tell_codes, tell_longer, tell_look_fault,
    tell_making, tell_refused, tell_sound, word_at,
};
use advfs_run::{
    BadLine, CodeSink, Form, HELP, MemorySource, NoGate, OutOfMemory, ReaderSource, Status,
    VERSION, Version, WriterSink, form_asked, new_rack, run, write_all, zeros,
};
use std::alloc::Global;
use std::env::FillError;
use std::fs::{File, OpenOptions};
use std::process::ExitCode;
use std::rt::{Env, Files};
use std::{io, str};

/// How many bytes a word of the command line may have at most.
const WORD_BYTES: usize = 131_072;

/// The words after the program's name. A word that is not UTF-8, or too long for any form, becomes
/// an empty word, which no form has.
fn words_given(rt: &impl Env, alloc: Global) -> Result<Vec<String>, OutOfMemory> {
    let mut buffer = zeros(alloc, WORD_BYTES)?;
    let mut words = Vec::new(alloc);
    for i in 1..usize::MAX {
        let length = match rt.arg(i, &mut buffer) {
            Ok(length) => length,
            Err(FillError::TooLong) => 0,
            Err(FillError::NotPresent) => break,
        };
        let word = str::from_utf8(&buffer[..length]).unwrap_or("");
        words.push(String::from_str(alloc, word)?)?;
    }
    Ok(words)
}

/// What is printed for a lone word that asks about the program itself.
fn text_asked(words: &[String]) -> Option<&'static str> {
    match words.first()?.as_str() {
        "--help" if words.len() == 1 => Some(HELP),
        "--version" if words.len() == 1 => Some(VERSION),
        _ => None,
    }
}

/// Tells how a run of a script ended; of a bad line also its text and its words.
fn tell_script(
    rt: &impl Eprint,
    alloc: Global,
    words: &[String],
    status: Status,
    text: &[u8],
) -> io::Result<()> {
    match status {
        Status::VolumeFault { vol } if !only_reads(words) && only_looks(text) => {
            return tell_look_fault(rt, words, vol);
        }
        _ => tell(rt, words, status)?,
    }
    match status {
        Status::BadScript { line, kind } => match BadLine::of(alloc, text, line, kind) {
            Ok(bad) => eprintln!(rt; "{bad}"),
            Err(_) => Ok(()),
        },
        _ => Ok(()),
    }
}

/// Runs a script over a domain in images.
fn start_script(rt: &impl Host, alloc: Global, words: &[String]) -> Result<Status, Refused>
    requires { Ok Run ≡ form_of (map string_bytes words.now) }
{
    let text = script_named(rt, alloc, words, script_word(words))?;
    let looks = only_reads(words) || only_looks(text.as_slice());
    let access = if looks { Access::Reads } else { Access::Writes };
    let images = open_images(rt, alloc, words, first_image(words)..words.len(), access)?;
    let sizes = sizes_of(alloc, &images)?;
    let rack = images.into_rack(alloc)?;
    let mut source = MemorySource::new(text, Vec::new(alloc));
    let mut sink = WriterSink::new(io::writer(rt));
    let progress = Progress::new(rt.terminal(), access);
    let rack = Watched::new(rack, &progress);
    let ended = run(alloc, words, &mut source, rack, &mut sink, &progress);
    let status = ended.status;
    let text = source.into_bytes();
    let _ = tell_script(rt, alloc, words, status, text.as_slice());
    if status == Status::Ok {
        let _ = tell_longer(rt, words, ended.rack.into_rack(), sizes.as_slice());
    }
    Ok(status)
}

/// Runs a script from standard input over a new domain in memory, on a volume of `pages` pages.
fn start_new(rt: &impl Host, alloc: Global, words: &[String], pages: u32) -> Result<Status, Refused>
    requires { Ok (Try pages) ≡ form_of (map string_bytes words.now) }
{
    let text = script_given(rt, alloc)?;
    let rack = new_rack(alloc, pages)?;
    let mut source = MemorySource::new(text, Vec::new(alloc));
    let mut sink = WriterSink::new(io::writer(rt));
    let ended = run(alloc, words, &mut source, rack, &mut sink, &NoGate);
    let text = source.into_bytes();
    let _ = tell_script(rt, alloc, words, ended.status, text.as_slice());
    Ok(ended.status)
}

/// Makes an empty domain in an image, which is the last word.
fn start_make(
    rt: &impl Host,
    alloc: Global,
    words: &[String],
    version: Version,
    overwrites: bool,
) -> Result<Status, Refused>
    requires { Ok (Make version overwrites) ≡ form_of (map string_bytes words.now) }
{
    let word = first_image(words);
    let images = open_one(rt, alloc, words, word)?;
    let sizes = sizes_of(alloc, &images)?;
    let rack = images.into_rack(alloc)?;
    let mut source = ReaderSource::new(rt.reader());
    let mut sink = WriterSink::new(io::writer(rt));
    let ended = run(alloc, words, &mut source, rack, &mut sink, &NoGate);
    let status = ended.status;
    let _ = tell_making(rt, words, status, ended.rack, sizes.as_slice());
    Ok(status)
}

/// Verifies images.
fn start_verify(rt: &impl Host, alloc: Global, words: &[String]) -> Result<Status, Refused>
    requires { Ok Verify ≡ form_of (map string_bytes words.now) }
{
    let images = open_images(
        rt,
        alloc,
        words,
        first_image(words)..words.len(),
        Access::Reads,
    )?;
    let sizes = sizes_of(alloc, &images)?;
    let rack = images.into_rack(alloc)?;
    let mut source = ReaderSource::new(rt.reader());
    let mut sink = CodeSink::new(WriterSink::new(io::writer(rt)));
    let progress = Progress::new(rt.terminal(), Access::Reads);
    let rack = Watched::new(rack, &progress);
    let ended = run(alloc, words, &mut source, rack, &mut sink, &progress);
    let (status, counts) = (ended.status, ended.counts);
    if status == Status::Ok {
        let _ = tell_sound(rt, words, ended.rack.into_rack(), sizes.as_slice(), counts);
    }
    let _ = tell(rt, words, status);
    let _ = tell_codes(rt, sink.codes());
    Ok(status)
}

/// Does what the words ask for, over standard input and output.
fn start(rt: &impl Host, alloc: Global, words: &[String]) -> Result<Status, Refused> {
    if let Some(text) = text_asked(words) {
        return Ok(print_text(rt, words, text));
    }
    if let Some(verb) = Verb::of(word_at(words, 0)) {
        do_errand(rt, alloc, words, verb)?;
        return Ok(Status::Ok);
    }
    match form_asked(words) {
        Err(word) => Err(Refused::Ended(Status::Usage { word })),
        Ok(Form::Try { pages }) => start_new(rt, alloc, words, pages),
        Ok(Form::Run) => start_script(rt, alloc, words),
        Ok(
            Form::Make {
                version,
                overwrites,
            },
        ) => start_make(rt, alloc, words, version, overwrites),
        Ok(Form::Verify) => start_verify(rt, alloc, words),
    }
}

/// Prints what a lone word asks about the program itself.
fn print_text(rt: &impl Host, words: &[String], text: &str) -> Status {
    let mut sink = WriterSink::new(io::writer(rt));
    let status = match write_all(&mut sink, text.as_bytes()) {
        Ok(()) => Status::Ok,
        Err(_) => Status::SinkFault,
    };
    let _ = tell(rt, words, status);
    status
}

/// The exit number if a file is not taken.
const NOT_TAKEN: u8 = 12;

/// The exit number if a command was refused of a script that the program made.
const NOT_ANSWERED: u8 = 14;

/// The number with which the program ends, by what it did or why it did not begin.
fn number_of(done: &Result<Status, Refused>) -> u8
    ensures { result ≡ number_of done.now }
{
    match done {
        Ok(status) => status.exit_number(),
        Err(Refused::Ended(status)) => status.exit_number(),
        Err(Refused::Answer(_)) => NOT_ANSWERED,
        Err(Refused::Script { .. }) => NOT_TAKEN,
        Err(Refused::Image { .. }) => NOT_TAKEN,
    }
}

/// The root directory, open for reading: it gives no bytes and takes none. It keeps the number of a
/// standard stream that is closed from the files that are opened after it.
fn held_number(rt: &impl Files<File = File>) -> Option<File> {
    OpenOptions::new().read(true).open(rt, "/").ok()
}

/// Does what the words of the command line ask for. It returns the number with which the program
/// ends: that of a status; 12 if a script or an image that the words name is not taken; or 14 if a
/// command was refused of a script that it made itself.
pub fn perform(rt: &impl Host, alloc: Global) -> u8
    ensures { IsExit result }
{
    let Ok(words) = words_given(rt, alloc) else {
        return Status::OutOfMemory.exit_number();
    };
    let done = start(rt, alloc, &words);
    if let Err(refused) = &done {
        let _ = tell_refused(rt, &words, refused);
    }
    number_of(&done)
}

/// The whole program: `perform`, with standard streams that are closed kept from its files.
pub fn program(rt: &impl Host, alloc: Global) -> ExitCode
    ensures { IsExit (exit_status result) }
{
    let _input = held_number(rt);
    let _output = held_number(rt);
    let _error = held_number(rt);
    ExitCode::from(perform(rt, alloc))
}
