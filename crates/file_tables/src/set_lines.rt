//! Lines of what is told of sets of files and directories.

use crate::indexes::{told as told_of_index, told_away};
use crate::pages::told as told_of_pages;
use crate::refused::say_refused;
use crate::sets::{told as told_of_file, told_pages};
use file_world::reading::{say_numbers, word_of};
use release_steps::Kind;
use std::alloc::Global;
use std::test::Fail;

/// Whether a line is said as it stands: it is empty, or begins with # and is a heading.
pub fn is_idle(line: &str) -> bool {
    line.is_empty() || line.starts_with('#')
}

/// Says a line.
pub fn say_line(out: &mut String, line: &str) -> Result<(), Fail> {
    out.push_str(line)?;
    out.push('\n')?;
    Ok(())
}

/// Answers lines; each names what is done.
pub fn answer_all(alloc: Global, lines: &str, out: &mut String) -> Result<(), Fail> {
    for line in lines.lines() {
        answer(alloc, line, out)?;
    }
    Ok(())
}

/// Answers a line.
fn answer(alloc: Global, line: &str, out: &mut String) -> Result<(), Fail> {
    if is_idle(line) {
        return say_line(out, line);
    }
    out.push_str(line)?;
    answer_of_words(alloc, word_of(line), out)?;
    out.push('\n')?;
    Ok(())
}

fn answer_of_words(alloc: Global, word: &str, out: &mut String) -> Result<(), Fail> {
    match word {
        "file" => say_file(alloc, out),
        "directory" => say_directory(alloc, out),
        "pages" => say_pages(alloc, out),
        "index" => say_index(alloc, out),
        "index-goes" => say_away(alloc, out),
        "no-page-free" => say_refused(alloc, out),
        _ => Err(Fail::new("a line that is not known")),
    }
}

/// Says what a tag names, and how many rows name it.
fn say_kind(out: &mut String, told: (Option<Kind>, u32)) -> Result<(), Fail> {
    out.push_str(match told.0 {
        Some(Kind::File) => ": file",
        Some(Kind::Directory) => ": directory",
        None => ": none",
    })?;
    write!(out, " {}", told.1)?;
    Ok(())
}

fn say_file(alloc: Global, out: &mut String) -> Result<(), Fail> {
    let [made, linked, taken] = told_of_file(alloc)?;
    say_kind(out, made)?;
    say_kind(out, linked)?;
    say_kind(out, taken)
}

fn say_directory(alloc: Global, out: &mut String) -> Result<(), Fail> {
    for (pages, size) in told_pages(alloc)? {
        say_numbers(out, &[u64::from(pages), size])?;
    }
    Ok(())
}

fn say_pages(alloc: Global, out: &mut String) -> Result<(), Fail> {
    for (count, first) in told_of_pages(alloc)? {
        say_numbers(out, &[u64::from(count)])?;
        say_numbers(out, &first.map(u64::from))?;
    }
    Ok(())
}

fn say_index(alloc: Global, out: &mut String) -> Result<(), Fail> {
    for (count, entries, first) in told_of_index(alloc)? {
        say_numbers(out, &[count, entries].map(u64::from))?;
        say_numbers(out, &first.map(u64::from))?;
    }
    Ok(())
}

fn say_away(alloc: Global, out: &mut String) -> Result<(), Fail> {
    for (free, waiting) in told_away(alloc)? {
        say_numbers(out, &[free, waiting].map(u64::from))?;
    }
    Ok(())
}
