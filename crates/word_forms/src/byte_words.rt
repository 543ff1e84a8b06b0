//! Bytes, read and written.
ghost use Rattle.std.specs.Prelude.{◌≡◌, ℕ, ◌<◌, ◌≤◌, ◌+◌, ◌∷◌, List, ◌++◌, length, OnOk, Ok, Err, drop, slice_index, ◌==◌, option_map, replicate, vec_len};
ghost use Rattle.std.specs.List.{list_all, prefix_len};
ghost use Rattle.word_forms.specs.Forms.{bytes_of, is_quotable, limited, quoted_of, run_of, runs_of_word};
ghost use Rattle.word_forms.specs.Read.{Gives};
ghost use Rattle.word_forms.specs.Runs.{Run, runs_of, run_text, bytes_text, IsRunLengthForm};

use crate::fault::WordFault;
use crate::numbers::{hexadecimal_byte, number, push_hexadecimal, push_number};
use crate::splitting::parts;
use fileset_values::limits::MAX_TRANSFER;
use fileset_values::{Bytes, OutOfMemory};
use std::alloc::Global;

fn is_quotable(byte: u8) -> bool
    ensures { result ≡ is_quotable byte }
{
    matches!(byte, b' '..=b'~') && byte != b'"' && byte != b'\\'
}

fn has_quotable_bytes(word: &[u8]) -> bool
    ensures { result ≡ list_all is_quotable word.now }
{
    word.iter().all(|byte| is_quotable(*byte))
}

/// The bytes that a word says in quotes.
#[tactic(auto, unfolding(crate::specs::Forms::quoted_of))]
fn quoted(alloc: Global, word: &[u8]) -> Result<Bytes, WordFault>
    ensures { Gives result (limited (quoted_of word.now)) }
{
    let [b'"', inner @ .., b'"'] = word else {
        return Err(WordFault::Malformed);
    };
    if inner.is_empty() || inner.len() > MAX_TRANSFER || !has_quotable_bytes(inner) {
        return Err(WordFault::Malformed);
    }
    Ok(Bytes::from_vec(Vec::from_slice(alloc, inner)?))
}

/// The byte that a run says, and how often it stands in a row.
#[tactic(auto, unfolding(crate::specs::Forms::run_of))]
fn run(word: &[u8]) -> Option<(u8, u64)>
    ensures { option_map (λ r. record { byte = r.0; count = r.1 }) result ≡ run_of word.now }
{
    let [high, low, rest @ ..] = word else {
        return None;
    };
    let byte = hexadecimal_byte(*high, *low)?;
    match rest {
        [] => Some((byte, 1)),
        [b'x', digits @ ..] => {
            let count = number(digits)?;
            if count == 0 {
                None
            } else {
                Some((byte, count))
            }
        }
        _ => None,
    }
}

/// Adds a byte `count` times, if there are then at most 8,192 bytes.
fn add_run(bytes: &mut Vec<u8>, byte: u8, count: u64) -> Result<(), WordFault>
    requires { vec_len bytes.old ≤ 8_192 }
    ensures ok { OnOk result (bytes.new.items ≡ bytes.old.items ++ replicate count byte) }
    ensures malformed { result ≡ Err WordFault.Malformed → 8_192 < vec_len bytes.old + count }
    ensures within { OnOk result (vec_len bytes.new ≤ 8_192) }
{
    if count > (MAX_TRANSFER - bytes.len()) as u64 {
        return Err(WordFault::Malformed);
    }
    bytes.resize(bytes.len() + count as usize, byte)?;
    Ok(())
}

/// The bytes that a word says in runs, with a dot between two of them.
fn runs(alloc: Global, word: &[u8]) -> Result<Bytes, WordFault>
    ensures { Gives result (limited (runs_of_word word.now)) }
{
    let words = parts(alloc, word, b'.')?;
    let mut bytes = Vec::new(alloc);
    for word in words.as_slice() {
        let (byte, count) = run(word).ok_or(WordFault::Malformed)?;
        add_run(&mut bytes, byte, count)?;
    }
    if bytes.is_empty() {
        return Err(WordFault::Malformed);
    }
    Ok(Bytes::from_vec(bytes))
}

/// The bytes that a word says, 1 to 8,192 of them, in quotes or in runs.
#[tactic(auto, unfolding(crate::specs::Forms::bytes_of))]
pub fn bytes(alloc: Global, word: &[u8]) -> Result<Bytes, WordFault>
    ensures { Gives result (bytes_of word.now) }
{
    if word.first() == Some(&b'"') {
        quoted(alloc, word)
    } else {
        runs(alloc, word)
    }
}

/// How many bytes equal to this one stand at the front.
fn front_len(bytes: &[u8], first: u8) -> usize
    ensures value { result ≡ prefix_len (λ byte. byte == first) bytes.now }
    ensures within { result ≤ length bytes.now }
{
    bytes.iter().take_while(|byte| **byte == first).count()
}

/// How many bytes equal to the first stand at the front.
fn run_len(bytes: &[u8]) -> usize
    requires { 0 < length bytes.now }
    ensures least { 0 < result }
    ensures within { result ≤ length bytes.now }
    ensures run { runs_of bytes.now
        ≡ record { byte = slice_index bytes.now 0; count = result }
        ∷ runs_of (drop result bytes.now) }
{
    front_len(bytes, bytes[0])
}

/// Adds a byte, and how often it stands there if that is more than once.
#[tactic(auto, unfolding(crate::specs::Runs::run_text))]
fn push_run(out: &mut Vec<u8>, byte: u8, count: usize) -> Result<(), OutOfMemory>
    ensures { OnOk result (out.new.items
        ≡ out.old.items ++ run_text (record { byte = byte; count = count })) }
{
    push_hexadecimal(out, byte)?;
    if count > 1 {
        out.push(b'x')?;
        push_number(out, count as u64)?;
    }
    Ok(())
}

/// Adds the bytes as their maximal runs, with a dot between two of them, or `-` if there are no
/// bytes.
pub fn push_bytes(out: &mut Vec<u8>, bytes: &[u8]) -> Result<(), OutOfMemory>
    ensures { OnOk result (out.new.items ≡ out.old.items ++ bytes_text bytes.now) }
{
    if bytes.is_empty() {
        out.push(b'-')?;
        return Ok(());
    }
    let count = run_len(bytes);
    push_run(out, bytes[0], count)?;
    let mut rest = bytes.split_at(count).1;
    while !rest.is_empty() {
        let count = run_len(rest);
        out.push(b'.')?;
        push_run(out, rest[0], count)?;
        rest = rest.split_at(count).1;
    }
    Ok(())
}

/// The runs that a history writes are maximal and give the bytes back, and no other runs are both.
pub fn runs_are_maximal()
    ensures form { (bytes : List ℕ) → IsRunLengthForm bytes (runs_of bytes) }
    ensures only { (bytes : List ℕ) (runs : List Run)
        → IsRunLengthForm bytes runs → runs ≡ runs_of bytes }
{}
