//! Errands: commands of the program that make their scripts themselves. They put files into a
//! domain and take them out, and show what it has.

use crate::host::Host;
use crate::images::{Access, Images};
use crate::opening::{Refused, open_images};
use crate::progress::{Progress, Watched};
use crate::telling::{first_image, word_at};
use crate::{looks, transfers};
use advfs_run::limits::MAX_VOLUMES;
use advfs_run::{Status, halves, is_place, small_number};
use std::alloc::Global;
use std::fs::File;
use std::rt::Files;

/// What an errand does.
#[derive(Clone, Copy, Debug, PartialEq, Eq)]
pub(crate) enum Verb {
    /// Makes a file of standard input.
    Put,
    /// Prints the bytes of a file.
    Get,
    /// Shows the names of a directory.
    List,
    /// Shows the volumes.
    Showfdmn,
    /// Shows the filesets.
    Showfsets,
}

impl Verb {
    /// The errand for which this is the first word.
    pub(crate) fn of(word: &str) -> Option<Verb> {
        match word {
            "put" => Some(Verb::Put),
            "get" => Some(Verb::Get),
            "list" => Some(Verb::List),
            "showfdmn" => Some(Verb::Showfdmn),
            "showfsets" => Some(Verb::Showfsets),
            _ => None,
        }
    }

    /// How many names its last word has at least, which is a place in the domain; None if it names
    /// no place.
    fn least_names(self) -> Option<usize> {
        match self {
            Verb::Put | Verb::Get => Some(1),
            Verb::List => Some(0),
            Verb::Showfdmn | Verb::Showfsets => None,
        }
    }
}

/// The word of a look that has the lines of histories printed in place of a table.
pub(crate) const LINES_WORD: &str = "-m";

/// The word of `put` before the owner of a new file.
pub(crate) const OWNER_WORD: &str = "--owner";

/// Who owns a file that is new.
#[derive(Clone, Copy, Debug)]
pub(crate) struct FileOwner {
    pub uid: u32,
    pub gid: u32,
}

/// The owner that a word names by the numbers of a user and a group.
fn owner_in(word: &str) -> Option<FileOwner> {
    let (user, group) = halves(word.as_bytes(), b':');
    let uid = small_number(user)?;
    let gid = small_number(group)?;
    Some(FileOwner { uid, gid })
}

/// The status for a word that is out of place, after so many others.
fn misplaced(word: usize) -> Status {
    Status::Usage {
        word: u32::try_from(word).unwrap_or(u32::MAX),
    }
}

/// The owner that the words of `put` name: the superuser if they name none.
fn owner_asked(words: &[String]) -> Result<FileOwner, Status> {
    if word_at(words, 0) != "put" || word_at(words, 1) != OWNER_WORD {
        return Ok(FileOwner { uid: 0, gid: 0 });
    }
    match owner_in(word_at(words, 2)) {
        Some(owner) => Ok(owner),
        None => Err(misplaced(2)),
    }
}

/// How many words stand before the place, or how many there are if they name none.
fn end_of_images(words: &[String], verb: Verb) -> usize {
    match verb.least_names() {
        Some(_) => words.len().saturating_sub(1),
        None => words.len(),
    }
}

/// Refuses words that do not name one to eight images, and after them a place if one is wanted.
fn check_words(alloc: Global, words: &[String], verb: Verb) -> Result<(), Status> {
    let (first, end) = (first_image(words), end_of_images(words, verb));
    if first >= end {
        return Err(misplaced(words.len()));
    }
    for word in first..end {
        if word_at(words, word).is_empty() || word - first >= MAX_VOLUMES as usize {
            return Err(misplaced(word));
        }
    }
    let Some(least) = verb.least_names() else {
        return Ok(());
    };
    match is_place(alloc, word_at(words, end).as_bytes(), least) {
        Ok(true) => Ok(()),
        Ok(false) => Err(misplaced(end)),
        Err(_) => Err(Status::OutOfMemory),
    }
}

/// The images that the words name.
fn images_asked(
    rt: &impl Files<File = File>,
    alloc: Global,
    words: &[String],
    verb: Verb,
    access: Access,
) -> Result<Images, Refused> {
    let end = end_of_images(words, verb);
    open_images(rt, alloc, words, first_image(words)..end, access)
}

/// Makes a file of standard input.
fn put(rt: &impl Host, alloc: Global, words: &[String], owner: FileOwner) -> Result<(), Refused> {
    let (verb, access) = (Verb::Put, Access::Writes);
    let bytes = transfers::bytes_given(rt, alloc)?;
    let images = images_asked(rt, alloc, words, verb, access)?;
    let place = word_at(words, end_of_images(words, verb));
    let progress = Progress::new(rt.terminal(), access);
    let rack = Watched::new(images.into_rack(alloc)?, &progress);
    transfers::put(alloc, place, owner, bytes.as_slice(), rack, &progress)
}

/// Prints the bytes of a file.
fn get(rt: &impl Host, alloc: Global, words: &[String]) -> Result<(), Refused> {
    let (verb, access) = (Verb::Get, Access::Reads);
    let images = images_asked(rt, alloc, words, verb, access)?;
    let place = word_at(words, end_of_images(words, verb));
    let progress = Progress::new(rt.terminal(), access);
    let rack = Watched::new(images.into_rack(alloc)?, &progress);
    transfers::get(rt, alloc, place, rack, &progress)
}

/// Shows what the domain has.
fn look(
    rt: &(impl Print + Files<File = File>),
    alloc: Global,
    words: &[String],
    verb: Verb,
) -> Result<(), Refused> {
    let images = images_asked(rt, alloc, words, verb, Access::Reads)?;
    let rack = images.into_rack(alloc)?;
    let place = word_at(words, end_of_images(words, verb));
    let lines = word_at(words, 1) == LINES_WORD;
    match verb {
        Verb::List if lines => looks::print_lines(rt, alloc, "list", place, rack),
        Verb::List => looks::list(rt, alloc, place, rack),
        Verb::Showfdmn if lines => looks::print_lines(rt, alloc, "showfdmn", "", rack),
        Verb::Showfdmn => looks::show_volumes(rt, alloc, words, rack),
        Verb::Showfsets if lines => looks::print_lines(rt, alloc, "showfsets", "", rack),
        _ => looks::show_filesets(rt, alloc, rack),
    }
}

/// Does the errand that the words ask for.
pub(crate) fn do_errand(
    rt: &impl Host,
    alloc: Global,
    words: &[String],
    verb: Verb,
) -> Result<(), Refused> {
    let owner = match owner_asked(words) {
        Ok(owner) => owner,
        Err(status) => return Err(Refused::Ended(status)),
    };
    if let Err(status) = check_words(alloc, words, verb) {
        return Err(Refused::Ended(status));
    }
    match verb {
        Verb::Put => put(rt, alloc, words, owner),
        Verb::Get => get(rt, alloc, words),
        _ => look(rt, alloc, words, verb),
    }
}
