//! Texts as rows spell them. After a backslash stands `n`, `r` or `t` for the end of a line, a
//! carriage return or a tab, or `x` and two digits for another byte. `{33 /a}` is `/a` 33 times.

use std::alloc::Global;

/// The byte that two digits say, and what follows them.
fn digits(part: &str) -> Option<(u8, &str)> {
    let (digits, rest) = part.split_at_checked(2)?;
    Some((u8::from_str_radix(digits, 16).ok()?, rest))
}

/// The byte that a part after a backslash begins with, and what follows it.
fn escaped(part: &str) -> Option<(u8, &str)> {
    let (letter, rest) = part.split_at_checked(1)?;
    match letter {
        "n" => Some((b'\n', rest)),
        "r" => Some((b'\r', rest)),
        "t" => Some((b'\t', rest)),
        "x" => digits(rest),
        _ => None,
    }
}

/// Adds a part after a backslash.
fn push_escaped(bytes: &mut Vec<u8>, part: &str) -> Option<()> {
    let (byte, rest) = escaped(part)?;
    bytes.push(byte).ok()?;
    bytes.extend_from_slice(rest.as_bytes()).ok()
}

/// Adds a text without repeated parts.
fn push_plain(bytes: &mut Vec<u8>, text: &str) -> Option<()> {
    let mut parts = text.split('\\');
    let first = parts.next().unwrap_or("");
    bytes.extend_from_slice(first.as_bytes()).ok()?;
    for part in parts {
        push_escaped(bytes, part)?;
    }
    Some(())
}

/// Adds a part that is repeated, and what follows it.
fn push_repeated(bytes: &mut Vec<u8>, text: &str) -> Option<()> {
    let (repeated, rest) = text.split_once('}')?;
    let (times, part) = repeated.split_once(' ')?;
    for _ in 0..times.parse::<u32>().ok()? {
        push_plain(bytes, part)?;
    }
    push_plain(bytes, rest)
}

/// The bytes that a text spells.
pub fn spelled(alloc: Global, text: &str) -> Option<Vec<u8>> {
    let mut bytes = Vec::new(alloc);
    let mut parts = text.split('{');
    push_plain(&mut bytes, parts.next().unwrap_or(""))?;
    for part in parts {
        push_repeated(&mut bytes, part)?;
    }
    Some(bytes)
}
