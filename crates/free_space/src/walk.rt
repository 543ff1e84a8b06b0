//! The search for a run of free pages, a word at a time.
ghost use Rattle.std.specs.Prelude.{◌≡◌, ℕ, ◌+◌, ◌*◌, ◌^◌, ◌<◌, ◌≤◌, length, IfSome, IfNone};
ghost use Rattle.std.specs.Int.{trailing_zeros, leading_zeros, w64};
ghost use Rattle.free_space.specs.Walk.{is_taken, NoneTaken, IsWalked, IsFound};

use crate::word::taken_word;

/// Does what `walk_word` does, for a word with a 1 and a run too long to lie inside a word: only
/// the word's first 1 and its last matter.
fn walk_ends(word: u64, at: usize, start: usize, count: usize) -> usize
    requires some { 0 < word }
    requires fits { at + 64 + count < 2 ^ 64 }
    requires order { start ≤ at }
    ensures met { start + count ≤ at + trailing_zeros w64 word → result ≡ start }
    ensures past { at + trailing_zeros w64 word < start + count
        → result + leading_zeros w64 word ≡ at + 64 }
{
    let first = at + word.trailing_zeros() as usize;
    if start + count <= first {
        start
    } else {
        at + 64 - word.leading_zeros() as usize
    }
}

/// Takes a walk over word `k`. Returns where the run then begins, or where the first run of `count`
/// pages begins, if the walk comes to one.
fn walk_word(bytes: &[u8], k: usize, from: usize, start: usize, count: usize) -> usize
    requires within { 8 * k + 8 ≤ length bytes.now }
    requires reached { from < 64 * k + 64 }
    requires fits { 64 * k + 64 + count < 2 ^ 64 }
    requires walked { IsWalked (is_taken bytes.now from) count start (64 * k) }
    requires short { 64 * k < start + count }
    ensures going { 64 * k + 64 < result + count
        → IsWalked (is_taken bytes.now from) count result (64 * k + 64) }
    ensures found { result + count ≤ 64 * k + 64 → IsFound (is_taken bytes.now from) count result }
    ensures order { result ≤ 64 * k + 64 }
{
    let mut start = start;
    let mut at = 64 * k;
    let mut rest = taken_word(bytes, k, from);
    if rest == u64::MAX {
        return at + 64;
    }
    if count >= 64 && rest != 0 {
        return walk_ends(rest, at, start, count);
    }
    while rest != 0 {
        let free = rest.trailing_zeros();
        if start + count <= at + free as usize {
            return start;
        }
        rest >>= free;
        let used = rest.trailing_ones();
        rest >>= used;
        at += (free + used) as usize;
        start = at;
    }
    start
}

/// The first run of `count` pages that begins at `from` or later, among the first `words` words.
pub fn first_run(bytes: &[u8], words: usize, from: usize, count: usize) -> Option<usize>
    requires some { 0 < count }
    requires within { 8 * words ≤ length bytes.now }
    requires fits { 64 * words + from + count < 2 ^ 63 }
    ensures found { IfSome result (λ p. IsFound (is_taken bytes.now from) count p
        × (p + count ≤ 64 * words)) }
    ensures none { IfNone result ((p : ℕ) → p + count ≤ 64 * words
        → ¬ NoneTaken (is_taken bytes.now from) p (p + count)) }
{
    let first = from / 64;
    let mut start = 64 * first;
    for k in first..words {
        start = walk_word(bytes, k, from, start, count);
        if start + count <= 64 * k + 64 {
            return Some(start);
        }
    }
    None
}
