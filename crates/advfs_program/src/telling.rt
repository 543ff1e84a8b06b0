//! What the program tells on standard error: the status of a run, and in words what is so and what
//! to do next.

use crate::errands::{LINES_WORD, OWNER_WORD};
use crate::images::{ImageLabel, free_pages, label_of};
use crate::opening::Refused;
use advfs_run::{DomainCounts, FaultCodes, FileRack, LOOK_WORD, OVER_WORD, Status, Unattached};
use std::fs::File;
use std::{fmt, io, str};

/// The word after `word` others, or an empty one if there are no more.
pub(crate) fn word_at(words: &[String], word: usize) -> &str {
    match words.get(word) {
        Some(name) => name.as_str(),
        None => "",
    }
}

/// Whether `run` opens its images for reading alone because it is told so.
pub(crate) fn only_reads(words: &[String]) -> bool {
    word_at(words, 0) == "run" && word_at(words, 1) == LOOK_WORD
}

/// The place of the word that names the script of `run`.
pub(crate) fn script_word(words: &[String]) -> usize {
    if only_reads(words) { 2 } else { 1 }
}

/// The place of the word that names the first image.
pub(crate) fn first_image(words: &[String]) -> usize {
    let option = word_at(words, 1);
    match word_at(words, 0) {
        "run" => script_word(words).saturating_add(1),
        "put" if option == OWNER_WORD => 3,
        "list" | "showfdmn" | "showfsets" if option == LINES_WORD => 2,
        "verify" | "put" | "get" | "list" | "showfdmn" | "showfsets" => 1,
        _ => words.len().saturating_sub(1),
    }
}

/// The name of the image that is a volume.
fn volume_name(words: &[String], vol: u32) -> &str {
    if word_at(words, 0) == "try" {
        return "the volume in memory";
    }
    word_at(
        words,
        first_image(words)
            .saturating_add(vol as usize)
            .saturating_sub(1),
    )
}

/// What a script is called: by its name, or as standard input.
fn script_name(words: &[String]) -> &str {
    let name = word_at(words, script_word(words));
    if word_at(words, 0) != "run" || name == "-" {
        return "standard input";
    }
    name
}

/// The forms of a command.
fn form_line(verb: &str) -> Option<&'static str> {
    match verb {
        "mkfdmn" => Some("advfs mkfdmn [-3] [-o] IMAGE"),
        "run" => Some("advfs run [-r] SCRIPT IMAGE.., with one to eight images"),
        "verify" => Some("advfs verify IMAGE.., with one to eight images"),
        "put" => Some("advfs put [--owner UID:GID] IMAGE.. FS:/PATH < FILE"),
        "get" => Some("advfs get IMAGE.. FS:/PATH > FILE"),
        "list" => Some("advfs list [-m] IMAGE.. FS:/PATH"),
        "showfdmn" => Some("advfs showfdmn [-m] IMAGE.., with one to eight images"),
        "showfsets" => Some("advfs showfsets [-m] IMAGE.., with one to eight images"),
        "try" => Some("advfs try PAGES < SCRIPT, with 160 to 65536 pages"),
        _ => None,
    }
}

/// The first words of the forms.
const VERBS: [&str; 9] = [
    "mkfdmn",
    "run",
    "verify",
    "put",
    "get",
    "list",
    "showfdmn",
    "showfsets",
    "try",
];

/// Tells the forms whose first word begins as this one does, which is no first word.
fn tell_nearest(rt: &impl Eprint, word: &str) -> io::Result<()> {
    eprintln!(rt; "`{word}` is not a command of advfs.")?;
    for verb in VERBS.iter() {
        if verb.as_bytes().first() == word.as_bytes().first() {
            if let Some(form) = form_line(*verb) {
                eprintln!(rt; "The form of {verb} is: {form}")?;
            }
        }
    }
    Ok(())
}

/// Tells where options stand, if there is a word that looks like one.
fn tell_options(rt: &impl Eprint, words: &[String]) -> io::Result<()> {
    for word in words.iter().skip(1) {
        let odd = word.as_str();
        if odd.starts_with('-') && odd != "-" {
            return eprintln!(rt; "Options stand first, in the order of the form: look at `{odd}`.");
        }
    }
    Ok(())
}

/// Tells which word is out of place, and the forms that come nearest.
fn tell_usage(rt: &impl Eprint, words: &[String], word: usize) -> io::Result<()> {
    let verb = word_at(words, 0);
    let Some(form) = form_line(verb) else {
        if !verb.is_empty() {
            tell_nearest(rt, verb)?;
        }
        return eprintln!(rt; "advfs --help lists the commands and their words.");
    };
    if word >= words.len() {
        return eprintln!(rt; "A word is missing at the end. The form is: {form}");
    }
    tell_options(rt, words)?;
    let there = word_at(words, word);
    eprintln!(rt; "`{there}` does not fit as word {word}. The form is: {form}")
}

/// Tells what is wrong with a page at which a domain was looked for.
fn tell_no_domain(rt: &impl Eprint, words: &[String], vol: u32, at: u32) -> io::Result<()> {
    let name = volume_name(words, vol);
    match at {
        0 if name.is_empty() => eprintln!(rt; "No image is named for volume {vol} of the domain.")?,
        0 => eprintln!(rt; "{name}: page 0 is not the label of volume {vol} of the domain.")?,
        1 => eprintln!(rt;
            "{name}: no anchor counts: there is no domain, an image of it is not named, or its images \
            stand in another order."
        )?,
        _ => eprintln!(rt; "{name}: page {at} breaks a rule of domains.")?,
    }
    eprintln!(rt; "Nothing was written. `advfs verify` prints all faults of the image.")
}

/// Tells of an image that is open for reading alone, and of which a call failed.
fn tell_unsettled(rt: &impl Eprint) -> io::Result<()> {
    eprintln!(rt;
        "It is open for reading alone, so nothing was written. If its log is not settled, run a \
        script with `sync` over it first."
    )
}

/// Tells of a volume that is open for reading alone, since the script only looks, and of which a
/// call failed.
pub(crate) fn tell_look_fault(rt: &impl Eprint, words: &[String], vol: u32) -> io::Result<()> {
    let (status, name) = (Status::VolumeFault { vol }, volume_name(words, vol));
    eprintln!(rt; "advfs: {status}")?;
    eprintln!(rt; "{name}: the operating system refused a read, a write or a sync.")?;
    tell_unsettled(rt)
}

/// Tells of a volume whose reads, writes or syncs failed.
fn tell_volume_fault(rt: &impl Eprint, words: &[String], vol: u32) -> io::Result<()> {
    let name = volume_name(words, vol);
    eprintln!(rt; "{name}: the operating system refused a read, a write or a sync.")?;
    match word_at(words, 0) {
        "verify" => eprintln!(rt; "Nothing was written. Check the device."),
        "mkfdmn" => eprintln!(rt;
            "Check the device. Without -o nothing was written if a read failed; else what the \
            image held is lost, and the domain has to be made again."
        ),
        "put" => eprintln!(rt;
            "The file may be missing or incomplete: `advfs verify` tells whether the image is \
            still a domain."
        ),
        "get" | "list" | "showfdmn" | "showfsets" => tell_unsettled(rt),
        _ if only_reads(words) => eprintln!(rt;
            "It is open read-only because of -r, so nothing was written. If the script only \
            looks, its log may not be settled: run one with `sync` first."
        ),
        _ => eprintln!(rt;
            "If replies were printed, a part of them may be written: `advfs verify` \
            tells whether the image is still a domain."
        ),
    }
}

/// Tells that standard output took not everything.
fn tell_sink_fault(rt: &impl Eprint, words: &[String]) -> io::Result<()> {
    eprintln!(rt; "Standard output could not be written: a full device, or a closed pipe.")?;
    match word_at(words, 0) {
        "run" => eprintln!(rt;
            "The commands may have been done all the same: ask the image with \
            another script."
        ),
        _ => Ok(()),
    }
}

/// Tells that memory ran out.
fn tell_no_memory(rt: &impl Eprint, words: &[String]) -> io::Result<()> {
    match word_at(words, 0) {
        "run" => eprintln!(rt;
            "There was not enough memory. The commands were not done, or only \
            their text had no room: ask the image with another script."
        ),
        "put" => eprintln!(rt;
            "There was not enough memory. The file may be incomplete, and what it held before \
            lost: put it again."
        ),
        _ => eprintln!(rt; "There was not enough memory."),
    }
}

/// Tells that an input has more bytes than it may have.
fn tell_too_long(rt: &impl Eprint, words: &[String]) -> io::Result<()> {
    let name = script_name(words);
    match word_at(words, 0) {
        "put" => eprintln!(rt; "{name} has more than 536870912 bytes, and no file may."),
        _ => eprintln!(rt;
            "{name} has more than 33554432 bytes: cut it into several scripts. A script is named \
            before the images."
        ),
    }
}

/// Tells that a domain without a fault is not taken.
fn tell_unfit(rt: &impl Eprint, words: &[String], why: Unattached) -> io::Result<()> {
    let name = volume_name(words, 1);
    match why {
        Unattached::NoNumbers => eprintln!(rt;
            "{name}: the numbers of its log are used up. What the image means is as before: copy \
            its files with the program that made it."
        ),
        _ => eprintln!(rt;
            "{name}: the domain has no fault, but this program does not take it yet. Nothing was \
            written. It can be looked at with `advfs verify` only."
        ),
    }
}

/// Tells that an image in which a domain was to be made holds something.
fn tell_occupied(rt: &impl Eprint, words: &[String], page: u32) -> io::Result<()> {
    let name = volume_name(words, 1);
    let version = if word_at(words, 1) == "-3" { "-3 " } else { "" };
    eprintln!(rt;
        "{name} is not empty: page {page} is not all zeros. Nothing was written. \
        `advfs mkfdmn {version}{OVER_WORD} {name}` overwrites what it holds."
    )
}

/// Tells in words what a status means, and what to do next.
fn tell_words(rt: &impl Eprint, words: &[String], status: Status) -> io::Result<()> {
    match status {
        Status::Ok | Status::Found { .. } | Status::BadScript { .. } => Ok(()),
        Status::Occupied { page } => tell_occupied(rt, words, page),
        Status::Usage { word } => tell_usage(rt, words, word as usize),
        Status::SourceFault => {
            let name = script_name(words);
            eprintln!(rt; "{name} could not be read, so nothing was done.")
        }
        Status::TooLong => tell_too_long(rt, words),
        Status::NotADomain { vol, at } => tell_no_domain(rt, words, vol, at),
        Status::VolumeFault { vol } => tell_volume_fault(rt, words, vol),
        Status::SinkFault => tell_sink_fault(rt, words),
        Status::OutOfMemory => tell_no_memory(rt, words),
        Status::VolumeSmall { pages } => {
            let name = volume_name(words, 1);
            eprintln!(rt;
                "{name} has {pages} whole pages, and a domain needs 160: `truncate -s 1310720 \
                {name}` makes it so large."
            )
        }
        Status::Unfit { why } => tell_unfit(rt, words, why),
    }
}

/// Tells how a run ended, unless it ended well.
pub(crate) fn tell(rt: &impl Eprint, words: &[String], status: Status) -> io::Result<()> {
    if status == Status::Ok {
        return Ok(());
    }
    eprintln!(rt; "advfs: {status}")?;
    tell_words(rt, words, status)
}

/// What each code of a fault means, from code 1 on.
const CODE_WORDS: [&str; 10] = [
    "the label of a volume: no image is named for it, or the wrong file, an incomplete one, or \
    volumes in another order",
    "no anchor counts: there is no domain, an image of it is not named, or its images stand in \
    another order",
    "a group of the log: keep the image, and take a copy from your backup",
    "the table of filesets: the list of files cannot be trusted",
    "cells: the list of files cannot be trusted",
    "tags: the list of files cannot be trusted",
    "pages of files: do not write to the image, and copy your files away",
    "bitmaps: do not write to the image, and copy your files away",
    "directories: some names are wrong, the bytes of files are not in doubt",
    "indexes of directories: names may not be found, the bytes of files are not in doubt",
];

/// Tells what the codes mean that stand in the lines of faults.
pub(crate) fn tell_codes(rt: &impl Eprint, codes: &FaultCodes) -> io::Result<()> {
    for (i, meaning) in CODE_WORDS.iter().enumerate() {
        let code = i.saturating_add(1);
        if codes.has(code) {
            eprintln!(rt; "code {code}: {meaning}")?;
        }
    }
    Ok(())
}

/// A number with a comma before each three digits: at most 999,999,999.
#[derive(Clone, Copy)]
struct Grouped(u32);

impl fmt::Display for Grouped {
    fn fmt<W: fmt::Write>(&self, f: &mut fmt::Formatter<W>) -> fmt::Result {
        let Grouped(number) = *self;
        let (millions, rest) = (number / 1_000_000, number % 1_000_000);
        let (thousands, ones) = (rest / 1_000, rest % 1_000);
        if millions > 0 {
            return write!(f, "{millions},{thousands:03},{ones:03}");
        }
        if thousands > 0 {
            return write!(f, "{thousands},{ones:03}");
        }
        write!(f, "{ones}")
    }
}

/// How a word ends that stands after this number.
fn plural(count: u64) -> &'static str {
    if count == 1 { "" } else { "s" }
}

/// What is told of an image before its pages: how it is, its version, and what was counted.
#[derive(Clone, Copy)]
struct Heading {
    is_sound: bool,
    version: u32,
    counts: Option<DomainCounts>,
}

impl fmt::Display for Heading {
    fn fmt<W: fmt::Write>(&self, f: &mut fmt::Formatter<W>) -> fmt::Result {
        if self.is_sound {
            f.write_str("sound; ")?;
        }
        let version = self.version;
        write!(f, "version {version}, ")?;
        match self.counts {
            Some(DomainCounts { filesets, files }) => {
                let (set_end, file_end) = (plural(filesets), plural(files));
                write!(f, "{filesets} fileset{set_end}, {files} file{file_end}, ")
            }
            None => Ok(()),
        }
    }
}

/// Tells of an image what stands in it.
fn tell_image(
    rt: &impl Eprint,
    name: &str,
    heading: Heading,
    label: ImageLabel,
    free: u32,
) -> io::Result<()> {
    let (whole, tenth) = (label.pages / 128, label.pages % 128 * 10 / 128);
    let (used, free) = (Grouped(label.pages), Grouped(free));
    eprintln!(rt; "{name}: {heading}{used} pages ({whole}.{tenth} MiB), {free} free")
}

/// Tells of an image that it has more pages than its domain uses.
fn tell_rest(rt: &impl Eprint, name: &str, label: ImageLabel, pages: u32) -> io::Result<()> {
    if pages <= label.pages {
        return Ok(());
    }
    let (pages, used) = (Grouped(pages), Grouped(label.pages));
    eprintln!(rt; "{name}: it has {pages} pages, and the domain uses the first {used}")
}

/// Tells of each image that has more pages than the domain uses.
pub(crate) fn tell_longer(
    rt: &impl Eprint,
    words: &[String],
    rack: FileRack,
    sizes: &[u32],
) -> io::Result<()> {
    let files = rack.into_files();
    for (i, (file, pages)) in files.iter().zip(sizes).enumerate() {
        let name = word_at(words, first_image(words).saturating_add(i));
        if let Some(label) = label_of(file)? {
            tell_rest(rt, name, label, *pages)?;
        }
    }
    Ok(())
}

/// Tells of each image of a domain what its label and its bitmap say, and of the first one also
/// what was counted of the domain.
fn tell_images(
    rt: &impl Eprint,
    words: &[String],
    rack: FileRack,
    sizes: &[u32],
    is_sound: bool,
    counts: Option<DomainCounts>,
) -> io::Result<()> {
    let files = rack.into_files();
    for (i, (file, pages)) in files.iter().zip(sizes).enumerate() {
        let name = word_at(words, first_image(words).saturating_add(i));
        let Some(label) = label_of(file)? else {
            continue;
        };
        let heading = Heading {
            is_sound,
            version: label.version,
            counts: if i == 0 { counts } else { None },
        };
        tell_image(rt, name, heading, label, free_pages(file, label.pages)?)?;
        tell_rest(rt, name, label, *pages)?;
    }
    Ok(())
}

/// Tells of each image that is a volume of a domain which domain that is.
fn tell_labels(rt: &impl Eprint, words: &[String], rack: FileRack) -> io::Result<()> {
    let files = rack.into_files();
    for (i, file) in files.iter().enumerate() {
        let name = word_at(words, first_image(words).saturating_add(i));
        if let Some(label) = label_of(file)? {
            let (number, version, pages) = (label.number, label.version, Grouped(label.pages));
            eprintln!(rt;
                "{name} holds volume {number} of a domain of version {version}, with {pages} pages."
            )?;
        }
    }
    Ok(())
}

/// Tells what was made, or why nothing was.
pub(crate) fn tell_making(
    rt: &impl Eprint,
    words: &[String],
    status: Status,
    rack: FileRack,
    sizes: &[u32],
) -> io::Result<()> {
    tell(rt, words, status)?;
    match status {
        Status::Ok => tell_images(rt, words, rack, sizes, false, None),
        Status::Occupied { .. } => tell_labels(rt, words, rack),
        _ => Ok(()),
    }
}

/// Tells of a domain without a fault what it has.
pub(crate) fn tell_sound(
    rt: &impl Eprint,
    words: &[String],
    rack: FileRack,
    sizes: &[u32],
    counts: Option<DomainCounts>,
) -> io::Result<()> {
    tell_images(rt, words, rack, sizes, true, counts)
}

/// The bytes of a command that are shown at most: of `write` there may be many more.
const SHOWN_BYTES: usize = 200;

/// Tells a command with its reply, without the end of a long command.
fn tell_line(rt: &impl Eprint, answer: &str) -> io::Result<()> {
    match (answer.get(..SHOWN_BYTES), answer.rsplit_once(" -> ")) {
        (Some(front), Some((_, reply))) => eprintln!(rt; "advfs: {front} .. -> {reply}"),
        _ => eprintln!(rt; "advfs: {answer}"),
    }
}

/// Tells which command was refused, with its reply. A line of a history begins with its client.
fn tell_answer(rt: &impl Eprint, words: &[String], line: &[u8]) -> io::Result<()> {
    let line = str::from_utf8(line).unwrap_or("");
    let answer = match line.split_once(' ') {
        Some((_, answer)) => answer.trim_end(),
        None => line,
    };
    tell_line(rt, answer)?;
    match word_at(words, 0) {
        "put" => eprintln!(rt;
            "If the file was made or emptied, it holds only a part of standard input, and what it \
            held before is lost."
        ),
        _ => Ok(()),
    }
}

/// Tells what was not done, and why.
pub(crate) fn tell_refused(
    rt: &impl Eprint,
    words: &[String],
    refused: &Refused,
) -> io::Result<()> {
    match refused {
        Refused::Script { word, error } => {
            let name = word_at(words, *word);
            eprintln!(rt; "advfs: {name} cannot be opened: {error}")
        }
        Refused::Image { word, fault } => {
            let name = word_at(words, *word);
            eprintln!(rt; "advfs: {name} {fault}")
        }
        Refused::Ended(status) => tell(rt, words, *status),
        Refused::Answer(line) => tell_answer(rt, words, line.as_slice()),
    }
}
