//! Words cut apart at a byte.
ghost use Rattle.std.specs.Prelude.{◌≡◌, ◌≤◌, ◌==◌, not, IfOk, length, map};
ghost use Rattle.std.specs.List.{after_first, before_first, list_any, prefix_len, slice_split};

use fileset_values::OutOfMemory;
use std::alloc::Global;

/// The parts of a text that stand before, between and after the bytes that separate them.
pub fn parts(alloc: Global, text: &[u8], separator: u8) -> Result<Vec<&[u8]>, OutOfMemory>
    ensures { IfOk result (λ parts.
        map (λ part. part.now) parts.items ≡ slice_split (λ b. b == separator) text.now) }
{
    text.split(|byte| *byte == separator).collect(alloc)
}

/// Whether the byte stands in the word.
pub fn has_byte(word: &[u8], byte: u8) -> bool
    ensures { result ≡ list_any (λ b. b == byte) word.now }
{
    word.iter().any(|other| *other == byte)
}

fn byte_at(word: &[u8], byte: u8) -> usize
    ensures value { result ≡ prefix_len (λ b. not (b == byte)) word.now }
    ensures within { result ≤ length word.now }
{
    word.iter().take_while(|other| **other != byte).count()
}

/// What stands before the first such byte, and what stands after it.
pub fn halves(word: &[u8], byte: u8) -> (&[u8], &[u8])
    ensures front { result.0.now ≡ before_first (λ b. b == byte) word.now }
    ensures back { result.1.now ≡ after_first (λ b. b == byte) word.now }
{
    let (front, rest) = word.split_at(byte_at(word, byte));
    match rest {
        [] => (front, rest),
        [_, after @ ..] => (front, after),
    }
}
