//! What is printed of the last call, and of the image.
use crate::desk::Desk;
use crate::image::{Image, bytes_of};
use crate::{help, plain, texts};
use advfs_run::limits::PAGE_BYTES;
use std::alloc::{AllocError, Global};
use std::str::SplitWhitespace;

/// How many pages differ between two images.
fn count_changed(before: &[u8], after: &[u8]) -> usize {
    let pages = before.chunks(PAGE_BYTES).zip(after.chunks(PAGE_BYTES));
    pages.filter(|(old, new)| old != new).count()
}

/// Prints that so many pages of the image changed since it was looked at, or else how many did.
pub fn looked_at_image(
    alloc: Global,
    desk: &mut Desk,
    image: Image,
    least: u32,
    most: u32,
) -> Result<Image, AllocError> {
    let (image, now) = bytes_of(alloc, image)?;
    let count = count_changed(desk.before.as_slice(), now.as_slice());
    let line = if desk.before.len() != now.len() {
        format!(in alloc; "its size changed")?
    } else if least as usize <= count && count <= most as usize {
        format!(in alloc; "{least} to {most} pages")?
    } else {
        format!(in alloc; "{count} pages")?
    };
    desk.say(line.as_str())?;
    Ok(image)
}

/// Whether a text has a line.
fn has_line(text: &[u8], line: &[u8]) -> bool {
    for found in text.split(|byte| *byte == b'\n') {
        if found == line {
            return true;
        }
    }
    false
}

/// The words that are left, with one space between two.
fn joined(alloc: Global, words: &mut SplitWhitespace<'_>) -> Result<String, AllocError> {
    let mut all = String::new(alloc);
    for word in words {
        if !all.is_empty() {
            all.push_str(" ")?;
        }
        all.push_str(word)?;
    }
    Ok(all)
}

/// Prints whether the last call printed a line of these words.
fn has(alloc: Global, desk: &mut Desk, words: &mut SplitWhitespace<'_>) -> Result<(), AllocError> {
    let line = joined(alloc, words)?;
    let is_there = has_line(desk.last.told.as_slice(), line.as_bytes());
    desk.say(if is_there { "yes" } else { "no" })
}

/// The word of the status with which a text begins.
fn status_of(told: &[u8]) -> &[u8] {
    told.split(|byte| *byte == b' ').next().unwrap_or(b"")
}

/// The line after that of the status.
fn second_line(told: &[u8]) -> &[u8] {
    told.split(|byte| *byte == b'\n').nth(1).unwrap_or(b"")
}

/// Prints whether the status in which the last call ended begins with this word.
fn begins(desk: &mut Desk, word: &str) -> Result<(), AllocError> {
    let is_word = status_of(desk.last.told.as_slice()) == word.as_bytes();
    desk.say(if is_word { "yes" } else { "no" })
}

/// Prints the word of the status in which the last call ended, and the line after it.
fn first(alloc: Global, desk: &mut Desk) -> Result<(), AllocError> {
    let told = desk.last.told.as_slice();
    let mut text = Vec::from_slice(alloc, status_of(told))?;
    text.push(b' ')?;
    text.extend_from_slice(second_line(told))?;
    text.push(b'\n')?;
    desk.text.extend_from_slice(text.as_slice())
}

/// Prints whether the plain program gives the answers that the last call printed.
fn compared(alloc: Global, desk: &mut Desk) -> Result<(), AllocError> {
    let is_same = match plain::told(alloc, desk.script.as_slice())? {
        Some(told) => told.as_slice() == desk.last.told.as_slice(),
        None => false,
    };
    desk.say(if is_same { "yes" } else { "no" })
}

/// Prints how many more calls the last run made than were noted.
fn more(alloc: Global, desk: &mut Desk) -> Result<(), AllocError> {
    let (calls, noted) = (desk.last.calls, desk.noted);
    let line = if calls < noted {
        format!(in alloc; "fewer")?
    } else {
        format!(in alloc; "{} more", calls - noted)?
    };
    desk.say(line.as_str())
}

/// Prints who passed the gate.
fn passed(alloc: Global, desk: &mut Desk) -> Result<(), AllocError> {
    let line = format!(in alloc; "{}", desk.last.passed)?;
    desk.say(line.as_str())
}

/// Prints what the program tells about itself, or what texts say.
fn text_told(
    alloc: Global,
    desk: &mut Desk,
    word: &str,
    words: &mut SplitWhitespace<'_>,
) -> Result<(), AllocError> {
    match word {
        "help" => help::told(alloc, desk, words),
        "helps" => help::shape(desk),
        "kinds" => texts::kinds(alloc, desk),
        "statuses" => texts::statuses(alloc, desk),
        "errors" => texts::errors(alloc, desk),
        _ => desk.say("no view"),
    }
}

/// Prints a view of the last call, or what texts say.
pub fn looked(
    alloc: Global,
    desk: &mut Desk,
    word: &str,
    words: &mut SplitWhitespace<'_>,
) -> Result<(), AllocError> {
    match word {
        "has" => has(alloc, desk, words),
        "begins" => begins(desk, words.next().unwrap_or("")),
        "first" => first(alloc, desk),
        "plain" => compared(alloc, desk),
        "more" => more(alloc, desk),
        "passed" => passed(alloc, desk),
        _ => text_told(alloc, desk, word, words),
    }
}
