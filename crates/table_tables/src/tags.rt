//! Calls on a directory as lines of text: a word for the call, and what it is given. A tag is
//! written as `slot.sequence`, and a cell as the number of its page.
ghost use Rattle.table_tables.specs.Trial.{IsTrial};

use crate::blocks::{is_idle, push_answer};
use crate::lines::push_bytes;
use crate::trial::{Trial, home};
use fileset_table::{Home, OutOfMemory, Tag};
use std::alloc::Global;

/// The tag that a word names.
fn tag_of(word: &str) -> Option<Tag> {
    let (slot, seq) = word.split_once('.')?;
    Some(Tag {
        slot: slot.parse().ok()?,
        seq: seq.parse().ok()?,
    })
}

/// What a call is given: a tag, of slot 0 if a line has none, and a number, 0 if it has none.
#[derive(Clone, Copy)]
struct Given {
    tag: Tag,
    number: u32,
}

/// The number that a word says, or 0 if there is none.
fn number_of(word: &str) -> Option<u32> {
    if word.is_empty() {
        return Some(0);
    }
    word.parse().ok()
}

/// A number, or a tag and perhaps a number after it.
fn given_of(rest: &str) -> Option<Given> {
    if !rest.contains('.') {
        let tag = Tag { slot: 0, seq: 0 };
        let number = number_of(rest)?;
        return Some(Given { tag, number });
    }
    let (tag, number) = rest.split_once(' ').unwrap_or((rest, ""));
    Some(Given {
        tag: tag_of(tag)?,
        number: number_of(number)?,
    })
}

/// Adds a tag as a word.
fn push_tag(tag: Option<Tag>, out: &mut String) -> Result<(), OutOfMemory> {
    match tag {
        Some(tag) => write!(out, "{}.{}", tag.slot, tag.seq),
        None => out.push_str("no"),
    }
}

/// Adds the number of a cell's page as a word.
fn push_page(page: Option<u32>, out: &mut String) -> Result<(), OutOfMemory> {
    match page {
        Some(page) => write!(out, "{page}"),
        None => out.push_str("no"),
    }
}

/// Says the bytes of the page with that number.
fn shown(trial: &Trial, page: u32, out: &mut String) -> Option<()> {
    push_bytes(trial.bytes_of(home(page))?, out).ok()
}

/// Enters `count` tags, each in the slot after the one before, and answers the last one.
fn fill(trial: &mut Trial, count: u32) -> Option<Tag>
    requires { IsTrial trial.old.pages trial.old.dir trial.old.last }
    ensures { IsTrial trial.new.pages trial.new.dir trial.new.last }
{
    let mut last: Option<Tag> = None;
    for page in 0..count {
        let tag = trial.enter(page)?;
        if let Some(before) = last {
            if before.slot.checked_add(1) != Some(tag.slot) {
                return Some(tag);
            }
        }
        last = Some(tag);
    }
    last
}

/// A call that answers a tag: it enters a cell, or many of them, or looks for a tag in use on the
/// page with that number.
fn tag_told(trial: &mut Trial, word: &str, number: u32) -> Option<Tag>
    requires { IsTrial trial.old.pages trial.old.dir trial.old.last }
    ensures { IsTrial trial.new.pages trial.new.dir trial.new.last }
{
    match word {
        "enter" => trial.enter(number),
        "fill" => fill(trial, number),
        _ => trial.tag_on(number as usize),
    }
}

/// A call that answers whether it was done: it adds a page with that index, enters a cell as a tag,
/// makes a tag lead to another cell or takes it out of use, or reads the directory anew, and finds
/// the same places.
fn is_done(alloc: Global, trial: &mut Trial, word: &str, given: &Given) -> Option<bool>
    requires { IsTrial trial.old.pages trial.old.dir trial.old.last }
    ensures { IsTrial trial.new.pages trial.new.dir trial.new.last }
{
    match word {
        "add" => trial.add(alloc, given.number),
        "as" => trial.enter_as(given.tag, given.number),
        "switch" => trial.switch(given.tag, given.number),
        "drop" => trial.drop_tag(given.tag),
        "reopen" => trial.reopen(alloc),
        _ => None,
    }
}

/// Does what a line says, and answers in words.
fn call(alloc: Global, trial: &mut Trial, word: &str, given: &Given, out: &mut String) -> Option<()>
    requires { IsTrial trial.old.pages trial.old.dir trial.old.last }
    ensures { IsTrial trial.new.pages trial.new.dir trial.new.last }
{
    match word {
        "enter" | "fill" | "on" => push_tag(tag_told(trial, word, given.number), out).ok(),
        "look" => push_page(trial.look(given.tag), out).ok(),
        "page" => shown(trial, given.number, out),
        _ => {
            let is_done = is_done(alloc, trial, word, given)?;
            out.push_str(if is_done { "done" } else { "no" }).ok()
        }
    }
}

/// Does what a line says, if it says something.
fn call_line(alloc: Global, trial: &mut Trial, line: &str, out: &mut String) -> Option<()>
    requires { IsTrial trial.old.pages trial.old.dir trial.old.last }
    ensures { IsTrial trial.new.pages trial.new.dir trial.new.last }
{
    if is_idle(line) {
        return Some(());
    }
    let (word, rest) = line.split_once(' ').unwrap_or((line, ""));
    let given = given_of(rest)?;
    call(alloc, trial, word, &given, out)
}

/// Adds a line with what it answers.
fn push_line(
    alloc: Global,
    answers: &mut String,
    trial: &mut Trial,
    line: &str,
) -> Result<(), OutOfMemory>
    requires { IsTrial trial.old.pages trial.old.dir trial.old.last }
    ensures { IsTrial trial.new.pages trial.new.dir trial.new.last }
{
    let mut out = String::new(alloc);
    let is_read = call_line(alloc, trial, line, &mut out).is_some();
    push_answer(answers, line, is_read, out.as_str())
}

/// Adds the lines of a new directory, with what they answer.
pub fn push_tags(alloc: Global, answers: &mut String, lines: &str) -> Result<(), OutOfMemory> {
    let mut trial = Trial::new(alloc);
    for line in lines.lines() {
        push_line(alloc, answers, &mut trial, line)?;
    }
    Ok(())
}

/// The home that a word names, or none for a dash.
fn home_of(word: &str) -> Option<Option<Home>> {
    match word {
        "-" => Some(None),
        _ => Some(Some(home(word.parse().ok()?))),
    }
}

/// Says the bytes of the first of two pages, whose homes are pages 100 and 101, once the page at
/// the one home, if one is told, was to lead to the one at the other no more.
fn push_unlinked(alloc: Global, trial: &mut Trial, line: &str, out: &mut String) -> Option<()>
    requires { IsTrial trial.old.pages trial.old.dir trial.old.last }
{
    let (front, next) = line.split_once(' ')?;
    trial.add(alloc, 0)?;
    trial.add(alloc, 7)?;
    trial.unlink(&home_of(front)?, &home(next.parse().ok()?));
    shown(trial, 100, out)
}

/// Says what becomes of the first of two pages of a new directory.
pub fn unlinked(alloc: Global, line: &str, out: &mut String) -> Option<()> {
    let mut trial = Trial::new(alloc);
    push_unlinked(alloc, &mut trial, line, out)
}
