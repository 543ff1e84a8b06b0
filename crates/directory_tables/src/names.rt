//! Names as lines spell them: `n*246+A` is 246 times the letter n and then A, and `x:ff*255` is the
//! byte 255 so many times. `wide 7` and `long 7` are those that blocks of rows are filled with.

use crate::row_steps::{long_name, wide_name};
use directory_rows::is_row_name;
use std::alloc::Global;
use table_words::decode;

/// Adds bytes `times` times.
fn push_often(name: &mut Vec<u8>, times: u32, part: &[u8]) -> Option<()> {
    for _ in 0..times {
        name.extend_from_slice(part).ok()?;
    }
    Some(())
}

/// Adds a part of a name.
fn push_part(alloc: Global, name: &mut Vec<u8>, part: &str) -> Option<()> {
    let (text, times) = part.split_once('*').unwrap_or((part, "1"));
    let times: u32 = times.parse().ok()?;
    match text.strip_prefix("x:") {
        Some(digits) => push_often(name, times, &decode(alloc, digits).ok()?),
        None => push_often(name, times, text.as_bytes()),
    }
}

/// Adds the name that a text spells.
fn push_name(alloc: Global, name: &mut Vec<u8>, text: &str) -> Option<()> {
    if let Some(number) = text.strip_prefix("wide ") {
        return name
            .extend_from_slice(&wide_name(number.parse().ok()?))
            .ok();
    }
    if let Some(number) = text.strip_prefix("long ") {
        return name
            .extend_from_slice(&long_name(number.parse().ok()?))
            .ok();
    }
    for part in text.split('+') {
        push_part(alloc, name, part)?;
    }
    Some(())
}

/// The name that a text spells.
pub fn name_of(alloc: Global, text: &str) -> Option<Vec<u8>> {
    let mut name = Vec::new(alloc);
    push_name(alloc, &mut name, text)?;
    Some(name)
}

/// The name that a text spells, or the empty one for a dash.
pub fn name_or_none(alloc: Global, text: &str) -> Option<Vec<u8>> {
    name_of(alloc, if text == "-" { "" } else { text })
}

/// Says whether a row may have the name; a dash is the empty one.
pub fn name_form(alloc: Global, text: &str, out: &mut String) -> Option<()> {
    let name = name_or_none(alloc, text)?;
    out.push_str(if is_row_name(&name) {
        "a name"
    } else {
        "no name"
    })
    .ok()
}
