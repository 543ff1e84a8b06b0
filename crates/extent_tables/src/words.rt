//! Pages of a file as rows spell them: `3+2@1:50` are two pages from page 3 on, at the pages of
//! volume 1 from 50 on; `3+2` are two holes. Where no number follows the first, it is one page.

use extent_records::{ExtentField, ExtentMap, HoleField, OutOfMemory, Run, RunPlace};

/// A number, and one after that character, or the other number if that character is not there.
fn numbers(word: &str, between: char, other: u32) -> Option<(u32, u32)> {
    match word.split_once(between) {
        Some((first, second)) => Some((first.parse().ok()?, second.parse().ok()?)),
        None => Some((word.parse().ok()?, other)),
    }
}

/// The page of a volume that a word names, as in `1:50`.
pub fn place_of(word: &str) -> Option<(u32, u32)> {
    let (vol, page) = word.split_once(':')?;
    Some((vol.parse().ok()?, page.parse().ok()?))
}

/// The pages that a word names, on volume 0 if they are holes.
pub fn field_of(word: &str) -> Option<ExtentField> {
    let (pages, place) = word.split_once('@').unwrap_or((word, "0:0"));
    let (page, count) = numbers(pages, '+', 1)?;
    let (vol, first) = place_of(place)?;
    Some(ExtentField {
        page,
        count,
        vol,
        first,
    })
}

/// The seed and the number of calls that a row asks for.
pub fn two_numbers(rest: &str) -> Option<(u64, u32)> {
    let (seed, calls) = rest.split_once(' ')?;
    Some((seed.parse().ok()?, calls.parse().ok()?))
}

/// The pages of a run, on volume 0 if they are holes.
fn run_field(run: &Run) -> ExtentField {
    let (vol, first) = match run.first {
        RunPlace::At(home) => (home.vol.number(), home.page),
        RunPlace::Holes => (0, 0),
    };
    ExtentField {
        page: run.page,
        count: run.count,
        vol,
        first,
    }
}

/// Whether a text ends with a digit, as pages do.
fn ends_with_digit(text: &str) -> bool {
    matches!(text.as_bytes().last(), Some(b'0'..=b'9'))
}

/// Adds pages, if they are some, with a blank between them and others.
fn push_field(field: &ExtentField, out: &mut String) -> Result<(), OutOfMemory> {
    if field.count == 0 {
        return Ok(());
    }
    if ends_with_digit(out.as_str()) {
        out.push(' ')?;
    }
    write!(out, "{}+{}", field.page, field.count)?;
    if field.vol != 0 {
        write!(out, "@{}:{}", field.vol, field.first)?;
    }
    Ok(())
}

/// Adds `none` if nothing was added to a text of that length.
fn push_none(length: usize, out: &mut String) -> Result<(), OutOfMemory> {
    if out.len() == length {
        out.push_str("none")?;
    }
    Ok(())
}

/// Adds the rows that are used, or `none`.
pub fn push_fields(fields: &[ExtentField], out: &mut String) -> Result<(), OutOfMemory> {
    let length = out.len();
    for field in fields {
        push_field(field, out)?;
    }
    push_none(length, out)
}

/// Adds the rows of holes that are used, or `none`.
pub fn push_holes(rows: &[HoleField], out: &mut String) -> Result<(), OutOfMemory> {
    let length = out.len();
    for row in rows {
        let field = ExtentField {
            page: row.page,
            count: row.count,
            vol: 0,
            first: 0,
        };
        push_field(&field, out)?;
    }
    push_none(length, out)
}

/// Adds the runs of a map, or `none`.
pub fn push_map(map: &ExtentMap, out: &mut String) -> Result<(), OutOfMemory> {
    let length = out.len();
    for run in map.runs() {
        push_field(&run_field(run), out)?;
    }
    push_none(length, out)
}
