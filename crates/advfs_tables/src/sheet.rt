//! The lines of a table of runs, by their first bytes.
//!
//! - `# TEXT`: a heading. Empty lines are skipped.
//! - two spaces: a line of the script for the next call.
//! - `@ WORDS`: changes that script: the lines from `@ times COUNT FIRST STEP` to `@ end` are
//!   repeated, each time with another number for each `@` in them.
//! - `: WORDS`: sets the image, or which calls of the next run's source and sink are refused.
//! - `> WORDS`: calls the program with these words, `""` for an empty one, and prints the status in
//!   which it ends, the number of that status, and what the program prints.
//! - `- WORDS`: calls the program and prints nothing.
//! - `= WORDS`: prints something about the last call or the image.
//!
//! Lines are printed too, except those of scripts.
use crate::calls::{Call, run_on};
use crate::desk::Desk;
use crate::image::{Image, bytes_of, flipped, harmed, image_with, text_image, zeros};
use crate::script::Times;
use crate::views::{looked, looked_at_image};
use advfs_run::{Rack, zeros as zero_bytes};
use std::alloc::{AllocError, Global};
use std::str::SplitWhitespace;

/// The next word as a number, or 0 if it is no number.
fn number(words: &mut SplitWhitespace<'_>) -> u64 {
    words.next().unwrap_or("").parse::<u64>().unwrap_or(0)
}

/// The next word as a number of 32 bits.
fn small_number(words: &mut SplitWhitespace<'_>) -> u32 {
    u32::try_from(number(words)).unwrap_or(u32::MAX)
}

/// All words that are left as numbers.
fn numbers(alloc: Global, words: &mut SplitWhitespace<'_>) -> Result<Vec<u64>, AllocError> {
    let mut all = Vec::new(alloc);
    for word in words {
        all.push(word.parse::<u64>().unwrap_or(0))?;
    }
    Ok(all)
}

/// The words of a call; two quotation marks are an empty one.
fn words_of(alloc: Global, line: &str) -> Result<Vec<String>, AllocError> {
    let mut all = Vec::new(alloc);
    for word in line.split_whitespace() {
        let word = if word == "\"\"" { "" } else { word };
        all.push(String::from_str(alloc, word)?)?;
    }
    Ok(all)
}

/// Does what a call of these words asks for.
fn called(alloc: Global, desk: &mut Desk, image: Image, words: &str) -> Result<Image, AllocError> {
    let script = desk.draft.take(alloc);
    desk.script = Vec::from_slice(alloc, script.as_slice())?;
    let call = Call {
        words: words_of(alloc, words)?,
        script,
        source_fails: std::mem::replace(&mut desk.source_fails, Vec::new(alloc)),
        sink_fails: std::mem::replace(&mut desk.sink_fails, Vec::new(alloc)),
    };
    let (image, last) = run_on(alloc, image, call)?;
    desk.last = last;
    Ok(image)
}

/// Does what a call of these words asks for, and prints how it came out.
fn shown(alloc: Global, desk: &mut Desk, image: Image, words: &str) -> Result<Image, AllocError> {
    let image = called(alloc, desk, image, words)?;
    desk.text.extend_from_slice(desk.last.told.as_slice())?;
    Ok(image)
}

/// A new image of zeros. A number after its pages is that of a call that fails; after `last` it
/// counts back from the last call that was noted.
fn new_image(
    alloc: Global,
    noted: u64,
    words: &mut SplitWhitespace<'_>,
) -> Result<Image, AllocError> {
    let pages = small_number(words);
    match words.next() {
        None => zeros(alloc, pages, &[]),
        Some("last") => zeros(alloc, pages, &[noted.saturating_sub(number(words))]),
        Some(call) => zeros(alloc, pages, &[call.parse::<u64>().unwrap_or(0)]),
    }
}

/// The image with one byte of a page flipped.
fn turned_over(image: Image, words: &mut SplitWhitespace<'_>) -> Image {
    let page = small_number(words);
    let at = number(words);
    flipped(image, page, (at % 256) as u8)
}

/// Keeps what the image holds, for images that begin with it.
fn kept(alloc: Global, desk: &mut Desk, image: Image) -> Result<Image, AllocError> {
    let (image, kept) = bytes_of(alloc, image)?;
    desk.kept = kept;
    Ok(image)
}

/// Looks at what the image holds, to see later what has changed.
fn seen(alloc: Global, desk: &mut Desk, image: Image) -> Result<Image, AllocError> {
    let (image, before) = bytes_of(alloc, image)?;
    desk.before = before;
    Ok(image)
}

/// Does what a setting says, and gives the image that there is then.
fn set(alloc: Global, desk: &mut Desk, image: Image, setting: &str) -> Result<Image, AllocError> {
    let mut words = setting.split_whitespace();
    match words.next().unwrap_or("") {
        "image" => new_image(alloc, desk.noted, &mut words),
        "text" => text_image(alloc, small_number(&mut words)),
        "begin" => image_with(alloc, small_number(&mut words), desk.kept.as_slice()),
        "harm" => Ok(harmed(image, small_number(&mut words))),
        "flip" => Ok(turned_over(image, &mut words)),
        "keep" => kept(alloc, desk, image),
        "look" => seen(alloc, desk, image),
        word => noted(alloc, desk, image, word, &mut words),
    }
}

/// Does what a setting says that leaves the image as it is, and gives the image.
fn noted(
    alloc: Global,
    desk: &mut Desk,
    image: Image,
    word: &str,
    words: &mut SplitWhitespace<'_>,
) -> Result<Image, AllocError> {
    note(alloc, desk, &image, word, words)?;
    Ok(image)
}

/// Sets which calls are refused of a source or of a sink.
fn refuse(
    alloc: Global,
    fails: &mut Vec<u64>,
    words: &mut SplitWhitespace<'_>,
) -> Result<(), AllocError> {
    *fails = numbers(alloc, words)?;
    Ok(())
}

/// Sets which calls of the next run are refused, or notes how many calls there were.
fn note(
    alloc: Global,
    desk: &mut Desk,
    image: &Image,
    word: &str,
    words: &mut SplitWhitespace<'_>,
) -> Result<(), AllocError> {
    match word {
        "source" => refuse(alloc, &mut desk.source_fails, words)?,
        "sink" => refuse(alloc, &mut desk.sink_fails, words)?,
        "calls" => desk.noted = desk.last.calls,
        "all" => desk.noted = image.rack.calls(),
        _ => desk.say("no setting")?,
    }
    Ok(())
}

/// A script that is one comment of `length` bytes.
fn comment(alloc: Global, length: u32) -> Result<Vec<u8>, AllocError> {
    let mut script = zero_bytes(alloc, length as usize)?;
    if let Some(first) = script.first_mut() {
        *first = b'#';
    }
    Ok(script)
}

/// How often the lines that come are repeated: a count, and the first number and the step.
fn times(words: &mut SplitWhitespace<'_>) -> Times {
    Times {
        count: small_number(words),
        first: number(words),
        step: number(words),
    }
}

/// Makes the script of the next call a comment.
fn set_comment(
    alloc: Global,
    desk: &mut Desk,
    words: &mut SplitWhitespace<'_>,
) -> Result<(), AllocError> {
    let comment = comment(alloc, small_number(words))?;
    desk.draft.set(comment);
    Ok(())
}

/// Changes the script that the next call is given.
fn draft(alloc: Global, desk: &mut Desk, line: &str) -> Result<(), AllocError> {
    let mut words = line.split_whitespace();
    match words.next().unwrap_or("") {
        "times" => desk.draft.begin(times(&mut words)),
        "end" => desk.draft.end(alloc)?,
        "chop" => desk.draft.chop(),
        "comment" => set_comment(alloc, desk, &mut words)?,
        _ => desk.say("no change of a script")?,
    }
    Ok(())
}

/// Prints how many pages of the image changed.
fn changes_told(
    alloc: Global,
    desk: &mut Desk,
    image: Image,
    words: &mut SplitWhitespace<'_>,
) -> Result<Image, AllocError> {
    let least = small_number(words);
    let most = small_number(words);
    looked_at_image(alloc, desk, image, least, most)
}

/// Prints a view of the last call, and gives the image.
fn call_told(
    alloc: Global,
    desk: &mut Desk,
    image: Image,
    word: &str,
    words: &mut SplitWhitespace<'_>,
) -> Result<Image, AllocError> {
    looked(alloc, desk, word, words)?;
    Ok(image)
}

/// Prints a view of the image, or of the last call.
fn looked_at(
    alloc: Global,
    desk: &mut Desk,
    image: Image,
    view: &str,
) -> Result<Image, AllocError> {
    let mut words = view.split_whitespace();
    match words.next().unwrap_or("") {
        "changed" => changes_told(alloc, desk, image, &mut words),
        word => call_told(alloc, desk, image, word, &mut words),
    }
}

/// Adds a line to the script of the next call, and gives the image.
fn pushed(alloc: Global, desk: &mut Desk, image: Image, rest: &str) -> Result<Image, AllocError> {
    let line = rest.strip_prefix(' ').unwrap_or(rest);
    desk.draft.push(alloc, line)?;
    Ok(image)
}

/// Changes the script of the next call, and gives the image.
fn drafted(alloc: Global, desk: &mut Desk, image: Image, rest: &str) -> Result<Image, AllocError> {
    draft(alloc, desk, rest)?;
    Ok(image)
}

/// Prints a line outside scripts, does what it says, and gives the image that there is then.
fn done(
    alloc: Global,
    desk: &mut Desk,
    image: Image,
    line: &str,
    words: &str,
) -> Result<Image, AllocError> {
    desk.say(line)?;
    match line.as_bytes().first() {
        Some(b'>') => shown(alloc, desk, image, words),
        Some(b'-') => called(alloc, desk, image, words),
        Some(b':') => set(alloc, desk, image, words),
        Some(b'=') => looked_at(alloc, desk, image, words),
        _ => Ok(image),
    }
}

/// Does what a line says, and gives the image that there is then.
pub fn answered(
    alloc: Global,
    desk: &mut Desk,
    image: Image,
    line: &str,
) -> Result<Image, AllocError> {
    match line.split_at_checked(1) {
        Some((" ", rest)) => pushed(alloc, desk, image, rest),
        Some(("@", rest)) => drafted(alloc, desk, image, rest),
        Some((_, rest)) => done(alloc, desk, image, line, rest),
        None => Ok(image),
    }
}
