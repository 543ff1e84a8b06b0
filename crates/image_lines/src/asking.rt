//! Tables of rows, each asking something of an image of the table, and the answers beside their
//! rows.
use crate::image::Image;
use crate::words::Words;
use std::alloc::Global;
use table_words::Told;

/// What answers the rows of a table.
pub trait Asking {
    /// Tells the answer to a row: it asks something in its first words, of an image of the table
    /// that lines change.
    fn tell(&self, alloc: Global, table: &str, front: &mut Words, lines: &str, told: &mut Told);
}

/// The lines below the one that is this title, up to the next empty line.
fn text_of<'a>(table: &'a str, title: &str) -> Option<&'a str> {
    for part in table.split("\n\n") {
        if let Some((first, lines)) = part.split_once('\n') {
            if first == title {
                return Some(lines);
            }
        }
    }
    None
}

/// The image of that name in a table; one that is not right if there is none of that name.
pub fn image_of(alloc: Global, table: &str, name: &str) -> Image {
    let mut image = Image::new(alloc);
    match text_of(table, name) {
        Some(lines) => image.add_lines(lines),
        None => image.check(false),
    }
    image
}

/// Tells a row and its answer: one line after the row, or several lines below it.
fn push_answer(told: &mut Told, row: &str, answer: &str) {
    let answer = answer.trim();
    let answer = if answer.is_empty() { "none" } else { answer };
    let sign = if answer.contains('\n') { "\n    " } else { " " };
    told.push(row);
    told.push(" ->");
    for line in answer.split('\n') {
        told.push(sign);
        told.push(line);
    }
    told.push("\n");
}

/// Tells a row with its answer: after a colon stand the lines that change its image.
fn push_row<A: Asking>(alloc: Global, asking: &A, table: &str, row: &str, told: &mut Told) {
    let (front, lines) = row.split_once(": ").unwrap_or((row, ""));
    let mut words = Words::new(front);
    let mut answer = Told::new(alloc);
    asking.tell(alloc, table, &mut words, lines, &mut answer);
    if words.is_right() && answer.is_right() {
        push_answer(told, row, answer.text());
    } else {
        push_answer(told, row, "not read");
    }
}

/// The rows of a table with their answers, and all other lines as they are. They stand below the
/// line `rows`, and the images above it.
pub fn answers<A: Asking>(alloc: Global, asking: &A, table: &str) -> Told {
    let mut told = Told::new(alloc);
    let (_, rows) = table.split_once("\nrows\n").unwrap_or(("", ""));
    for line in rows.lines() {
        if line.is_empty() || line.starts_with('#') {
            told.push(line);
            told.push("\n");
        } else {
            push_row(alloc, asking, table, line, &mut told);
        }
    }
    told
}
