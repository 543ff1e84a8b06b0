//! What a bad line of a script looks like, and in words what is wrong with it.

use domain_faults::OutOfMemory;
use script_text::from_word_forms::{bytes, name};
use script_text::{
    FaultKind, fileset, halves, known_verb, number, number_within, parts, small_number,
};
use std::alloc::Global;
use std::fmt;

/// The commands of scripts, each with the forms of its words.
const COMMANDS: [(&str, &str); 23] = [
    ("mkfset", "FS"),
    ("rmfset", "FS"),
    ("showfsets", ""),
    ("setquota", "FS WHO ID FILES BLOCKS"),
    ("showquota", "FS WHO ID"),
    ("create", "NAMED UID GID"),
    ("mkdir", "NAMED UID GID"),
    ("write", "P OFFSET BYTES"),
    ("read", "P OFFSET COUNT"),
    ("truncate", "P SIZE"),
    ("rename", "NAMED PATH"),
    ("link", "NAMED PATH"),
    ("links", "P"),
    ("unlink", "NAMED"),
    ("rmdir", "NAMED"),
    ("list", "P"),
    ("stat", "P"),
    ("fsync", "P"),
    ("chfile", "-L SWITCH P"),
    ("sync", ""),
    ("cancel", ""),
    ("showfdmn", ""),
    ("showfile", "P"),
];

/// What is said of each form of a word.
const FORMS: [(&str, &str); 17] = [
    ("FS", "a name of 1 to 31 letters, digits, _, - and ."),
    ("WHO", "user, group or fileset"),
    ("NAMED", "which has a fileset and names, as home:/docs/a"),
    (
        "P",
        "which has a fileset and a path, as home:/ or home:/docs/a",
    ),
    ("PATH", "which begins with /, as /docs/a"),
    ("UID", "a number below 4294967296"),
    ("GID", "a number below 4294967296"),
    ("ID", "a number below 4294967296, and 0 after fileset"),
    ("OFFSET", "a number below 2^64"),
    ("SIZE", "a number below 2^64"),
    ("FILES", "a number below 2^64"),
    ("BLOCKS", "a number below 2^64"),
    ("COUNT", "a number up to 8192"),
    ("BYTES", "1 to 8192 bytes, as \"a word\" or 61.62.00x3"),
    ("-L", "as chfile -L on P"),
    ("SWITCH", "on or off"),
    ("N", "a number from 1 to 8"),
];

/// The second of the pair that has this text first.
fn paired(pairs: &[(&str, &'static str)], text: &str) -> &'static str {
    for (first, second) in pairs {
        if *first == text {
            return *second;
        }
    }
    ""
}

/// Whether bytes are a path with at least `least` names.
fn is_path(alloc: Global, word: &[u8], least: usize) -> Result<bool, OutOfMemory> {
    if word == b"/".as_slice() {
        return Ok(least == 0);
    }
    let pieces = parts(alloc, word, b'/')?;
    let (first, names) = match pieces.as_slice() {
        [first, names @ ..] => (*first, names),
        [] => return Ok(false),
    };
    if !first.is_empty() || names.is_empty() || names.len() > 32 {
        return Ok(false);
    }
    for piece in names {
        if name(alloc, piece).is_err() {
            return Ok(false);
        }
    }
    Ok(true)
}

/// Whether bytes are a place with at least `least` names.
pub fn is_place(alloc: Global, word: &[u8], least: usize) -> Result<bool, OutOfMemory> {
    let (front, path) = halves(word, b':');
    if fileset(alloc, front).is_err() {
        return Ok(false);
    }
    is_path(alloc, path, least)
}

/// Whether a word has a form.
fn has_form(alloc: Global, form: &str, word: &[u8]) -> Result<bool, OutOfMemory> {
    match form {
        "FS" => Ok(fileset(alloc, word).is_ok()),
        "WHO" => Ok(
            word == b"user".as_slice()
                || word == b"group".as_slice()
                || word == b"fileset".as_slice(),
        ),
        "NAMED" => is_place(alloc, word, 1),
        "P" => is_place(alloc, word, 0),
        "PATH" => is_path(alloc, word, 1),
        "UID" | "GID" | "ID" => Ok(small_number(word).is_some()),
        "OFFSET" | "SIZE" | "FILES" | "BLOCKS" => Ok(number(word).is_some()),
        "COUNT" => Ok(number_within(0, 8192, word).is_some()),
        "BYTES" => Ok(bytes(alloc, word).is_ok()),
        "SWITCH" => Ok(word == b"on".as_slice() || word == b"off".as_slice()),
        "N" => Ok(number_within(1, 8, word).is_some()),
        _ => Ok(form.as_bytes() == word),
    }
}

/// Adds the words of a text without quotes.
fn push_words<'a>(words: &mut Vec<&'a [u8]>, text: &'a [u8]) -> Result<(), OutOfMemory> {
    for word in text.split(|byte| *byte == b' ' || *byte == b'\t') {
        if !word.is_empty() {
            words.push(word)?;
        }
    }
    Ok(())
}

/// The bytes from a place on, or none if there are fewer.
fn from_place(text: &[u8], at: usize) -> &[u8] {
    text.get(at..).unwrap_or(b"")
}

/// The words of a line. One that begins with a quote goes on to the next quote.
fn words_of(alloc: Global, line: &[u8]) -> Result<Vec<&[u8]>, OutOfMemory> {
    let mut words = Vec::new(alloc);
    let (front, _) = halves(line, b'"');
    push_words(&mut words, front)?;
    let quoted = from_place(line, front.len());
    if quoted.is_empty() {
        return Ok(words);
    }
    let (inside, after) = halves(from_place(quoted, 1), b'"');
    let length = inside.len().saturating_add(2).min(quoted.len());
    words.push(quoted.get(..length).unwrap_or(quoted))?;
    push_words(&mut words, after)?;
    Ok(words)
}

/// The line of a text with this number, from 1.
fn line_at(text: &[u8], number: u32) -> &[u8] {
    let at = number.saturating_sub(1) as usize;
    match text.split(|byte| *byte == b'\n').nth(at) {
        Some([line @ .., b'\r']) => line,
        Some(line) => line,
        None => b"",
    }
}

/// Bytes as they are shown: a byte that is not printable becomes a question mark.
#[derive(Clone, Copy)]
struct Shown<'a>(&'a [u8]);

impl fmt::Display for Shown<'_> {
    fn fmt<W: fmt::Write>(&self, f: &mut fmt::Formatter<W>) -> fmt::Result {
        for byte in self.0 {
            let shown = if byte.is_ascii_graphic() || *byte == b' ' {
                char::from(*byte)
            } else {
                '?'
            };
            f.write_char(shown)?;
        }
        Ok(())
    }
}

/// Whether one of the forms has names, in which a space may have cut a word in two.
fn have_names(forms: &str) -> bool {
    forms
        .split_ascii_whitespace()
        .any(|form| form == "NAMED" || form == "P" || form == "PATH")
}

/// The forms of the words after a first word.
fn forms_of(first: &[u8]) -> &'static str {
    if first == b"client".as_slice() {
        return "N";
    }
    match std::str::from_utf8(first) {
        Ok(verb) => paired(&COMMANDS, verb),
        Err(_) => "",
    }
}

/// Whether a word has a form and goes with the word before it: the ID of a fileset is 0.
fn fits_after(alloc: Global, before: &[u8], form: &str, word: &[u8]) -> Result<bool, OutOfMemory> {
    if form == "ID" && before == b"fileset".as_slice() {
        return Ok(number_within(0, 0, word).is_some());
    }
    has_form(alloc, form, word)
}

/// The first word that does not have its form: its place, from 1, and the form.
fn wrong_word(
    alloc: Global,
    words: &[&[u8]],
    forms: &'static str,
) -> Result<Option<(usize, &'static str)>, OutOfMemory> {
    for (i, form) in forms.split_ascii_whitespace().enumerate() {
        let place = i.saturating_add(1);
        let (Some(before), Some(word)) = (words.get(i), words.get(place)) else {
            return Ok(None);
        };
        if !fits_after(alloc, before, form, word)? {
            return Ok(Some((place, form)));
        }
    }
    Ok(None)
}

/// A bad line of a script, and what is wrong with it: two lines of text.
#[derive(Drop)]
pub struct BadLine<'a> {
    number: u32,
    kind: FaultKind,
    line: &'a [u8],
    words: Vec<&'a [u8]>,
    forms: &'static str,
    wrong: Option<(usize, &'static str)>,
}

impl<'a> BadLine<'a> {
    /// The bad line of a script with this text, given its number and its fault.
    pub fn of(
        alloc: Global,
        text: &'a [u8],
        number: u32,
        kind: FaultKind,
    ) -> Result<BadLine<'a>, OutOfMemory> {
        let line = line_at(text, number);
        let words = words_of(alloc, line)?;
        let forms = match words.first() {
            Some(first) => forms_of(first),
            None => "",
        };
        let wrong = wrong_word(alloc, words.as_slice(), forms)?;
        Ok(BadLine {
            number,
            kind,
            line,
            words,
            forms,
            wrong,
        })
    }

    /// A word of the line, or none.
    fn word(&self, at: usize) -> &[u8] {
        match self.words.get(at) {
            Some(word) => *word,
            None => b"",
        }
    }

    /// Writes that the first word is not known.
    fn write_unknown<W: fmt::Write>(&self, f: &mut fmt::Formatter<W>) -> fmt::Result {
        let first = self.word(0);
        let word = Shown(first);
        if known_verb(first).is_some() || first == b"mover".as_slice() {
            return write!(f, "`{word}` is a command that is not built yet");
        }
        write!(f, "`{word}` is not a command: advfs --help lists them")
    }

    /// Writes how many words there are, and how many there should be.
    fn write_count<W: fmt::Write>(&self, f: &mut fmt::Formatter<W>) -> fmt::Result {
        let (first, forms) = (Shown(self.word(0)), self.forms);
        let count = self.words.len().saturating_sub(1);
        let wanted = forms.split_ascii_whitespace().count();
        let noun = if count == 1 { "word" } else { "words" };
        write!(
            f,
            "{count} {noun} after {first}, which takes {wanted}: {first} {forms}"
        )?;
        if count > wanted && have_names(forms) {
            return f.write_str("; in a name a space is %20");
        }
        Ok(())
    }

    /// Writes which word does not have its form.
    fn write_wrong<W: fmt::Write>(&self, f: &mut fmt::Formatter<W>) -> fmt::Result {
        let (first, forms) = (Shown(self.word(0)), self.forms);
        let Some((place, form)) = self.wrong else {
            let kind = self.kind;
            return write!(f, "{kind}: {first} {forms}");
        };
        let (word, meaning) = (Shown(self.word(place)), paired(&FORMS, form));
        write!(
            f,
            "word {place}: `{word}` is no {form}, {meaning}: {first} {forms}"
        )
    }
}

impl fmt::Display for BadLine<'_> {
    fn fmt<W: fmt::Write>(&self, f: &mut fmt::Formatter<W>) -> fmt::Result {
        let (number, line) = (self.number, Shown(self.line));
        writeln!(f, "line {number}: {line}")?;
        match self.kind {
            FaultKind::OtherByte => f.write_str(
                "a byte that is neither printable ASCII nor a tab: in a name it is written as % \
                and two hexadecimal digits",
            ),
            FaultKind::NoSection => f.write_str("no section yet: a script begins with `client 1`"),
            FaultKind::UnknownWord => self.write_unknown(f),
            FaultKind::WordCount => self.write_count(f),
            FaultKind::WordForm => self.write_wrong(f),
            FaultKind::SectionTwice => f.write_str("this client already has a section"),
            kind => write!(f, "{kind}"),
        }
    }
}
