//! A quota book that is changed and asked by lines of text. A line has a word for the call, an
//! owner or two ids, and numbers of files and of blocks. Where a call has none of them a dash and
//! noughts stand. `record` adds a record of limits, and `read` makes a book of these.
ghost use Rattle.std.specs.Prelude.{IsTrue};
ghost use Rattle.quota_book.specs.Book.{FitsAll, HasAll, IsBelow, IsWithin, used};

use crate::blocks::{is_idle, push_answer};
use fileset_table::{Limits, OutOfMemory, Owner, Record, Refusal, Usage};
use quota_book::{QuotaBook, are_once, read_limits};
use std::alloc::Global;

/// Whether what an owner uses plus `more` is below 2^64.
fn fits(book: &QuotaBook, who: Owner, more: &Usage) -> bool
    ensures { IsTrue result → IsBelow more.now.files more.now.blocks (used book.now.book who) }
{
    let usage = book.usage(who);
    more.files <= u64::MAX - usage.files && more.blocks <= u64::MAX - usage.blocks
}

/// Whether an owner uses at least `part`.
fn has(book: &QuotaBook, who: Owner, part: &Usage) -> bool
    ensures { IsTrue result → IsWithin part.now (used book.now.book who) }
{
    let usage = book.usage(who);
    part.files <= usage.files && part.blocks <= usage.blocks
}

fn all_fit(book: &QuotaBook, uid: u32, gid: u32, more: &Usage) -> bool
    ensures { IsTrue result → FitsAll uid gid more.now.files more.now.blocks (used book.now.book) }
{
    fits(book, Owner::User(uid), more)
        && fits(book, Owner::Group(gid), more)
        && fits(book, Owner::Fileset, more)
}

fn all_have(book: &QuotaBook, uid: u32, gid: u32, part: &Usage) -> bool
    ensures { IsTrue result → HasAll uid gid part.now.files part.now.blocks (used book.now.book) }
{
    has(book, Owner::User(uid), part)
        && has(book, Owner::Group(gid), part)
        && has(book, Owner::Fileset, part)
}

/// Charges, if all owners that it concerns stay below 2^64.
pub(crate) fn charge(book: &mut QuotaBook, uid: u32, gid: u32, more: &Usage) -> Option<()> {
    if !all_fit(book, uid, gid, more) {
        return None;
    }
    book.charge(uid, gid, more.files, more.blocks).ok()
}

/// Refunds, if all owners that it concerns use that much.
pub(crate) fn refund(book: &mut QuotaBook, uid: u32, gid: u32, part: &Usage) -> Option<()> {
    if !all_have(book, uid, gid, part) {
        return None;
    }
    book.refund(uid, gid, part.files, part.blocks);
    Some(())
}

/// An id, and numbers of files and of blocks.
fn id_and_usage(text: &str) -> Option<(u32, Usage)> {
    let (id, rest) = text.split_once(' ')?;
    let (files, blocks) = rest.split_once(' ')?;
    let usage = Usage {
        files: files.parse().ok()?,
        blocks: blocks.parse().ok()?,
    };
    Some((id.parse().ok()?, usage))
}

fn owner_of(kind: &str, id: u32) -> Owner {
    match kind {
        "user" => Owner::User(id),
        "group" => Owner::Group(id),
        _ => Owner::Fileset,
    }
}

fn push_refusal(refusal: &Option<Refusal>, out: &mut String) -> Result<(), OutOfMemory> {
    match refusal {
        Some(Refusal::QuotaFiles { limit, used }) => write!(out, "files {limit} {used}"),
        Some(Refusal::QuotaBlocks { limit, used, asked }) => {
            write!(out, "blocks {limit} {used} {asked}")
        }
        Some(_) => out.push_str("another"),
        None => out.push_str("none"),
    }
}

/// Adds what an owner uses, and their limits.
fn push_owner(book: &QuotaBook, who: Owner, out: &mut String) -> Result<(), OutOfMemory> {
    let usage = book.usage(who);
    let limits = book.limits(who);
    write!(out, "{} {} ", usage.files, limits.files)?;
    write!(out, "{} {}", usage.blocks, limits.blocks)
}

/// Says what the book answers of an owner.
fn answer(
    book: &mut QuotaBook,
    call: &str,
    who: Owner,
    numbers: &Usage,
    out: &mut String,
) -> Result<(), OutOfMemory> {
    if call == "ask" {
        return push_refusal(&book.ask(who, numbers.files, numbers.blocks), out);
    }
    if call == "limit" {
        let limits = Limits {
            files: numbers.files,
            blocks: numbers.blocks,
        };
        book.set_limits(who, limits)?;
    }
    push_owner(book, who, out)
}

/// Says what comes of a call: a line has its word, an owner or a user, an id, and two numbers.
fn done(book: &mut QuotaBook, line: &str, out: &mut String) -> Option<()> {
    let (call, rest) = line.split_once(' ')?;
    let (first, rest) = rest.split_once(' ')?;
    let (id, numbers) = id_and_usage(rest)?;
    match call {
        "charge" => charge(book, first.parse().ok()?, id, &numbers)?,
        "refund" => refund(book, first.parse().ok()?, id, &numbers)?,
        "keep" => book.keep(),
        "back" => book.take_back(),
        _ => return answer(book, call, owner_of(first, id), &numbers, out).ok(),
    }
    out.push_str("done").ok()
}

/// The record that a line tells: the kind of its owner, an id, and limits of files and of blocks.
fn record_of(line: &str) -> Option<Record> {
    let (kind, rest) = line.split_once(' ')?;
    let (id, Usage { files, blocks }) = id_and_usage(rest)?;
    match kind {
        "user" => Some(Record::UserQuota { id, files, blocks }),
        _ => Some(Record::GroupQuota { id, files, blocks }),
    }
}

/// A book, and records of limits to be read.
#[derive(Drop)]
struct Desk {
    book: QuotaBook,
    records: Vec<Record>,
}

/// Makes a book of the records, if they say nothing of an owner twice.
fn read(alloc: Global, desk: &mut Desk, out: &mut String) -> Result<(), OutOfMemory> {
    if !are_once(alloc, &desk.records)? {
        return out.push_str("an owner twice");
    }
    desk.book = read_limits(alloc, &desk.records)?;
    out.push_str("each owner once")
}

/// Does what a line says.
fn call(alloc: Global, desk: &mut Desk, line: &str, out: &mut String) -> Option<()> {
    if line == "read" {
        return read(alloc, desk, out).ok();
    }
    match line.strip_prefix("record ") {
        Some(text) => desk.records.push(record_of(text)?).ok(),
        None => done(&mut desk.book, line, out),
    }
}

/// Adds a line with what it answers.
fn push_line(
    alloc: Global,
    answers: &mut String,
    desk: &mut Desk,
    line: &str,
) -> Result<(), OutOfMemory> {
    let mut out = String::new(alloc);
    let is_read = is_idle(line) || call(alloc, desk, line, &mut out).is_some();
    push_answer(answers, line, is_read, out.as_str())
}

/// Adds the lines of a new book, with what they answer.
pub(crate) fn push_quotas(
    alloc: Global,
    answers: &mut String,
    lines: &str,
) -> Result<(), OutOfMemory> {
    let mut desk = Desk {
        book: QuotaBook::new(alloc),
        records: Vec::new(alloc),
    };
    for line in lines.lines() {
        push_line(alloc, answers, &mut desk, line)?;
    }
    Ok(())
}
