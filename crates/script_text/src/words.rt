//! The lines of a script, and the words of a line.
ghost use Rattle.std.specs.Prelude.{◌≡◌, ◌<◌, ◌≤◌, ◌+◌, ◌∷◌, ◌==◌, ◌&&◌, not, false, if◌then◌else◌, length, take, drop, map, slice_index, IfOk};
ghost use Rattle.std.specs.List.{list_any, prefix_len};
ghost use Rattle.std.specs.Str.Lines.{lines, strip_carriage_return};
ghost use Rattle.script_text.specs.Words.{is_blank, is_quote, words_of};

use command_text::OutOfMemory;
use std::alloc::Global;

fn newline_at(text: &[u8]) -> usize
    ensures value { result ≡ prefix_len (λ b. not (b == 10)) text.now }
    ensures within { result ≤ length text.now }
{
    text.iter().take_while(|byte| **byte != b'\n').count()
}

fn without_carriage_return(line: &[u8]) -> &[u8]
    ensures { result.now ≡ strip_carriage_return line.now }
{
    match line {
        [front @ .., b'\r'] => front,
        _ => line,
    }
}

/// The first line of a text that is not empty, without its end, and what follows it. A carriage
/// return is part of the end if a newline comes right after it.
pub fn split_line(text: &[u8]) -> (&[u8], &[u8])
    requires { 0 < length text.now }
    ensures first { lines text.now ≡ result.0.now ∷ lines result.1.now }
    ensures shorter { length result.1.now < length text.now }
{
    let (line, rest) = text.split_at(newline_at(text));
    match rest {
        [] => (line, rest),
        [_, after @ ..] => (without_carriage_return(line), after),
    }
}

/// Whether the byte stands between words: a space or a tab.
pub fn is_blank(byte: u8) -> bool
    ensures { result ≡ is_blank byte }
{
    byte == b' ' || byte == b'\t'
}

fn blank_at(text: &[u8]) -> usize
    ensures value { result ≡ prefix_len (λ b. not (is_blank b)) text.now }
    ensures within { result ≤ length text.now }
{
    text.iter().take_while(|byte| !is_blank(**byte)).count()
}

fn quote_at(text: &[u8]) -> usize
    ensures value { result ≡ prefix_len (λ b. not (is_quote b)) text.now }
    ensures within { result ≤ length text.now }
{
    text.iter().take_while(|byte| **byte != b'"').count()
}

/// How many bytes of the word at the front are its own in any case: the first, or all up to the
/// next quote if the first is a quote and there is a next one.
fn begun_len(text: &[u8]) -> usize
    requires { 0 < length text.now }
    ensures value { result ≡ (if is_quote (slice_index text.now 0)
        && list_any is_quote (drop 1 text.now)
        then prefix_len (λ b. not (is_quote b)) (drop 1 text.now) + 2 else 1) }
    ensures within { result ≤ length text.now }
    ensures least { 0 < result }
{
    if text[0] != b'"' {
        return 1;
    }
    let after = text.split_at(1).1;
    let closing = quote_at(after);
    if closing < after.len() {
        closing + 2
    } else {
        1
    }
}

/// How many bytes the word at the front takes.
fn word_len(text: &[u8]) -> usize
    requires some { 0 < length text.now }
    requires no_blank { is_blank (slice_index text.now 0) ≡ false }
    ensures first { words_of text.now ≡ take result text.now ∷ words_of (drop result text.now) }
    ensures within { result ≤ length text.now }
    ensures least { 0 < result }
{
    let begun = begun_len(text);
    begun + blank_at(text.split_at(begun).1)
}

fn blanks_len(text: &[u8]) -> usize
    ensures value { result ≡ prefix_len is_blank text.now }
    ensures within { result ≤ length text.now }
{
    text.iter().take_while(|byte| is_blank(**byte)).count()
}

/// The text without the blanks at its front.
fn skip_blanks(text: &[u8]) -> &[u8]
    ensures same { words_of text.now ≡ words_of result.now }
    ensures shorter { length result.now ≤ length text.now }
    ensures no_blank { 0 < length result.now → is_blank (slice_index result.now 0) ≡ false }
{
    text.split_at(blanks_len(text)).1
}

/// The words of a line.
pub fn words(alloc: Global, line: &[u8]) -> Result<Vec<&[u8]>, OutOfMemory>
    ensures { IfOk result (λ words. map (λ word. word.now) words.items ≡ words_of line.now) }
{
    let mut words = Vec::new(alloc);
    let mut rest = skip_blanks(line);
    while !rest.is_empty() {
        let (word, after) = rest.split_at(word_len(rest));
        words.push(word)?;
        rest = skip_blanks(after);
    }
    Ok(words)
}
