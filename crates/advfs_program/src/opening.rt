//! The files that the words name: a script, and images.
ghost use Rattle.std.specs.Prelude.{◌≡◌, IfOk};
ghost use Rattle.advfs_program.specs.Images.{image_count};

use crate::images::{Access, ImageFault, Images};
use crate::telling::word_at;
use advfs_run::limits::MAX_SCRIPT_BYTES;
use advfs_run::{OutOfMemory, ReaderSource, Source, Status, read_all};
use std::alloc::Global;
use std::fs::{File, OpenOptions};
use std::ops::Range;
use std::rt::Files;
use std::{io, str};

/// Why a run does not begin.
#[derive(Drop)]
pub(crate) enum Refused {
    /// The script that is named after `word` words cannot be opened.
    Script { word: usize, error: io::Error },
    /// The image that is named after `word` words is not taken.
    Image { word: usize, fault: ImageFault },
    /// What was to be done first ended with this status.
    Ended(Status),
    /// A command of a script that the program made was refused: its line of a history.
    Answer(Vec<u8>),
}

impl From<OutOfMemory> for Refused {
    ghost use Rattle.std.specs.Prelude.{◌≡◌};
    ghost use Rattle.advfs_run.specs.run_parts.declared.status.Status.TheVariants as status;
    ghost use Rattle.advfs_program.specs.declared.opening.Refused.TheVariants.{Ended};

    ghost from_gives = { λ _ refused. refused ≡ Ended status.OutOfMemory };

    fn from(_refused: OutOfMemory) -> Refused {
        Refused::Ended(Status::OutOfMemory)
    }
}

/// The bytes of a script.
fn text_of<S: Source>(alloc: Global, source: &mut S) -> Result<Vec<u8>, Refused> {
    match read_all(alloc, source, MAX_SCRIPT_BYTES) {
        Ok(text) => Ok(text),
        Err(error) => Err(Refused::Ended(Status::from(error))),
    }
}

/// The bytes of the script on standard input.
pub(crate) fn script_given(rt: &impl Input, alloc: Global) -> Result<Vec<u8>, Refused> {
    let mut source = ReaderSource::new(rt.reader());
    text_of(alloc, &mut source)
}

/// The bytes of the script that is named after `word` words: a file, or standard input if its name
/// is a hyphen.
pub(crate) fn script_named(
    rt: &(impl Input + Files<File = File>),
    alloc: Global,
    words: &[String],
    word: usize,
) -> Result<Vec<u8>, Refused> {
    let name = word_at(words, word);
    if name == "-" {
        return script_given(rt, alloc);
    }
    match OpenOptions::new().read(true).open(rt, name) {
        Ok(file) => {
            let mut source = ReaderSource::new(file);
            text_of(alloc, &mut source)
        }
        Err(error) => Err(Refused::Script { word, error }),
    }
}

/// The first words of lines after which a domain is as it was before.
const LOOKS: [&str; 9] = [
    "client",
    "links",
    "list",
    "read",
    "showfdmn",
    "showfile",
    "showfsets",
    "showquota",
    "stat",
];

/// Whether a line has no command, or one that only looks.
fn line_only_looks(line: &str) -> bool {
    match line.split_ascii_whitespace().next() {
        Some(word) => word.starts_with('#') || LOOKS.contains(&word),
        None => true,
    }
}

/// Whether a script has only commands that look. If it is bad or has other commands, it may not.
pub(crate) fn only_looks(text: &[u8]) -> bool {
    match str::from_utf8(text) {
        Ok(text) => text.lines().all(|line| line_only_looks(line)),
        Err(_) => false,
    }
}

/// The pages of each image.
pub(crate) fn sizes_of(alloc: Global, images: &Images) -> Result<Vec<u32>, OutOfMemory> {
    let mut sizes = Vec::new(alloc);
    for image in images.list() {
        sizes.push(image.pages())?;
    }
    Ok(sizes)
}

/// Opens the images that are named by the words at these places.
pub(crate) fn open_images(
    rt: &impl Files<File = File>,
    alloc: Global,
    words: &[String],
    places: Range<usize>,
    access: Access,
) -> Result<Images, Refused> {
    let mut images = Images::new(alloc);
    for word in places {
        match images.add(rt, word_at(words, word), access) {
            Ok(()) => {}
            Err(fault) => return Err(Refused::Image { word, fault }),
        }
    }
    Ok(images)
}

/// Opens the one image that is named after `word` words.
pub(crate) fn open_one(
    rt: &impl Files<File = File>,
    alloc: Global,
    words: &[String],
    word: usize,
) -> Result<Images, Refused>
    ensures { IfOk result (λ images. image_count images ≡ 1) }
{
    let mut images = Images::new(alloc);
    match images.add(rt, word_at(words, word), Access::Writes) {
        Ok(()) => Ok(images),
        Err(fault) => Err(Refused::Image { word, fault }),
    }
}
