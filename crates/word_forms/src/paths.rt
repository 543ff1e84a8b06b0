//! Names of filesets, names, paths and places, read and written.
ghost use Rattle.std.specs.Prelude.{◌≡◌, ◌<◌, ◌∷◌, ◌++◌, IfSome, IsNone, None, OnOk, length, map, option_map};
ghost use Rattle.std.specs.List.{list_all};
ghost use Rattle.word_forms.specs.Forms.{Begins, bytes_from, each, fileset_of, is_escaped, is_fileset_character, is_fileset_name, is_name, name_of, named_path_of, named_place_of, path_of, place_of, stands_for_itself};
ghost use Rattle.word_forms.specs.Read.{Gives};
ghost use Rattle.word_forms.specs.Texts.{name_byte_text, name_text, path_text, place_text};

use crate::fault::WordFault;
use crate::numbers::{hexadecimal_byte, push_hexadecimal};
use crate::splitting::{halves, parts};
use fileset_values::limits::{MAX_FILESET_NAME, MAX_NAME, MAX_PATH_NAMES};
use fileset_values::{FilesetName, Name, OutOfMemory, Path, Place};
use std::alloc::Global;

fn is_fileset_character(byte: u8) -> bool
    ensures { result ≡ is_fileset_character byte }
{
    byte.is_ascii_alphanumeric() || byte == b'_' || byte == b'-' || byte == b'.'
}

fn has_fileset_characters(word: &[u8]) -> bool
    ensures { result ≡ list_all is_fileset_character word.now }
{
    word.iter().all(|byte| is_fileset_character(*byte))
}

/// Whether a word has the form of the name of a fileset: 1 to 31 letters, digits, `_`, `-` and `.`.
pub fn is_fileset_name(word: &[u8]) -> bool
    ensures { result ≡ is_fileset_name word.now }
{
    let len = word.len();
    1 <= len && len <= MAX_FILESET_NAME && has_fileset_characters(word)
}

/// The name of a fileset: 1 to 31 letters, digits, `_`, `-` and `.`.
#[tactic(auto, unfolding(crate::specs::Forms::fileset_of))]
pub fn fileset(alloc: Global, word: &[u8]) -> Result<FilesetName, WordFault>
    ensures { Gives result (fileset_of word.now) }
{
    if !is_fileset_name(word) {
        return Err(WordFault::Malformed);
    }
    Ok(FilesetName::from_vec(Vec::from_slice(alloc, word)?))
}

/// Whether the byte stands for itself in a path.
fn stands_for_itself(byte: u8) -> bool
    ensures { result ≡ stands_for_itself byte }
{
    matches!(byte, 0x21..=0x7e) && byte != b'%'
}

/// Whether a path writes the byte as `%` and two digits.
fn is_escaped(byte: u8) -> bool
    ensures { result ≡ is_escaped byte }
{
    !stands_for_itself(byte) && byte != 0
}

/// The byte that the front of a name says, and the text after it.
fn next_byte(text: &[u8]) -> Option<(u8, &[u8])>
    requires { 0 < length text.now }
    ensures none { IsNone result → bytes_from Begins text.now ≡ None }
    ensures some { IfSome result (λ r. bytes_from Begins text.now
        ≡ option_map (λ more. r.0 ∷ more) (bytes_from Begins r.1.now)) }
    ensures shorter { IfSome result (λ r. length r.1.now < length text.now) }
{
    match text {
        [b'%', high, low, after @ ..] => {
            let byte = hexadecimal_byte(*high, *low)?;
            if is_escaped(byte) {
                Some((byte, after))
            } else {
                None
            }
        }
        [byte, after @ ..] if stands_for_itself(*byte) && *byte != b'/' => Some((*byte, after)),
        _ => None,
    }
}

/// The bytes that a name says.
fn spelled(alloc: Global, word: &[u8]) -> Result<Name, WordFault>
    ensures { Gives result (bytes_from Begins word.now) }
{
    let mut bytes = Vec::new(alloc);
    let mut rest = word;
    while !rest.is_empty() {
        let (byte, after) = next_byte(rest).ok_or(WordFault::Malformed)?;
        bytes.push(byte)?;
        rest = after;
    }
    Ok(Name::from_vec(bytes))
}

fn is_name(name: &[u8]) -> bool
    ensures { result ≡ is_name name.now }
{
    let len = name.len();
    1 <= len && len <= MAX_NAME && name != b".".as_slice() && name != b"..".as_slice()
}

/// The name of a file or directory: 1 to 255 bytes, and neither `.` nor `..`.
#[tactic(auto, unfolding(crate::specs::Forms::name_of))]
pub fn name(alloc: Global, word: &[u8]) -> Result<Name, WordFault>
    ensures { Gives result (name_of word.now) }
{
    let name = spelled(alloc, word)?;
    if !is_name(name.as_slice()) {
        return Err(WordFault::Malformed);
    }
    Ok(name)
}

/// The names that these words say.
fn names(alloc: Global, words: &[&[u8]]) -> Result<Path, WordFault>
    ensures { Gives result (each name_of (map (λ word. word.now) words.now)) }
{
    let mut names = Vec::new(alloc);
    for word in words {
        names.push(name(alloc, word)?)?;
    }
    Ok(Path::from_vec(names))
}

/// The path that a word says: `/`, or up to 32 names, each after a `/`.
#[tactic(auto, unfolding(crate::specs::Forms::path_of))]
pub fn path(alloc: Global, word: &[u8]) -> Result<Path, WordFault>
    ensures { Gives result (path_of word.now) }
{
    if word == b"/".as_slice() {
        return Ok(Path::root(alloc));
    }
    let [b'/', after @ ..] = word else {
        return Err(WordFault::Malformed);
    };
    let words = parts(alloc, after, b'/')?;
    let path = names(alloc, words.as_slice())?;
    if path.as_slice().len() > MAX_PATH_NAMES {
        return Err(WordFault::Malformed);
    }
    Ok(path)
}

/// The path that a word says, which must not be the root.
#[tactic(auto, unfolding(crate::specs::Forms::named_path_of))]
pub fn named_path(alloc: Global, word: &[u8]) -> Result<Path, WordFault>
    ensures { Gives result (named_path_of word.now) }
{
    let path = path(alloc, word)?;
    if path.as_slice().is_empty() {
        return Err(WordFault::Malformed);
    }
    Ok(path)
}

/// The place that a word says: a fileset, `:` and a path.
#[tactic(auto, unfolding(crate::specs::Forms::place_of))]
pub fn place(alloc: Global, word: &[u8]) -> Result<Place, WordFault>
    ensures { Gives result (place_of word.now) }
{
    let (name, after) = halves(word, b':');
    let fileset = fileset(alloc, name)?;
    let path = path(alloc, after)?;
    Ok(Place { fileset, path })
}

/// The place that a word says, which must not be a root.
#[tactic(auto, unfolding(crate::specs::Forms::named_place_of))]
pub fn named_place(alloc: Global, word: &[u8]) -> Result<Place, WordFault>
    ensures { Gives result (named_place_of word.now) }
{
    let place = place(alloc, word)?;
    if place.path.as_slice().is_empty() {
        return Err(WordFault::Malformed);
    }
    Ok(place)
}

fn push_name_byte(out: &mut Vec<u8>, byte: u8) -> Result<(), OutOfMemory>
    ensures { OnOk result (out.new.items ≡ out.old.items ++ name_byte_text byte) }
{
    if stands_for_itself(byte) {
        out.push(byte)?;
    } else {
        out.push(b'%')?;
        push_hexadecimal(out, byte)?;
    }
    Ok(())
}

/// Adds a name, each byte that a path cannot write as itself by its hexadecimal digits.
#[tactic(auto, unfolding(crate::specs::Texts::name_text))]
pub fn push_name(out: &mut Vec<u8>, name: &[u8]) -> Result<(), OutOfMemory>
    ensures { OnOk result (out.new.items ≡ out.old.items ++ name_text name.now) }
{
    for byte in name {
        push_name_byte(out, *byte)?;
    }
    Ok(())
}

/// Adds a path: `/`, or a `/` before each name.
#[tactic(auto, unfolding(crate::specs::Texts::path_text))]
pub fn push_path(out: &mut Vec<u8>, names: &[Name]) -> Result<(), OutOfMemory>
    ensures { OnOk result (out.new.items ≡ out.old.items ++ path_text names.now) }
{
    if names.is_empty() {
        out.push(b'/')?;
        return Ok(());
    }
    for name in names {
        out.push(b'/')?;
        push_name(out, name.as_slice())?;
    }
    Ok(())
}

/// Adds a place: its fileset, `:` and its path.
pub fn push_place(out: &mut Vec<u8>, place: &Place) -> Result<(), OutOfMemory>
    ensures { OnOk result (out.new.items ≡ out.old.items ++ place_text place.now) }
{
    out.extend_from_slice(place.fileset.as_slice())?;
    out.push(b':')?;
    push_path(out, place.path.as_slice())?;
    Ok(())
}
