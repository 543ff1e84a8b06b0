//! Bits by bytes and by words of 64.
ghost use Rattle.std.specs.Prelude.{◌≡◌, ℕ, ◌+◌, ◌*◌, ◌^◌, ◌<◌, ◌≤◌, ◌==◌, nat_le, length};
ghost use Rattle.std.specs.Int.{bit_at};
ghost use Rattle.free_space.specs.Bits.{is_set};
ghost use Rattle.free_space.specs.Walk.{is_taken};

/// Byte `k` of a bitmap of `pages` pages, none of them used. The bits past the last page are 1.
pub fn blank_byte(pages: u32, k: usize) -> u8
    requires { 8 * k + 8 < 2 ^ 64 }
    ensures { (i : ℕ) → i < 8 → (bit_at result i == 1) ≡ nat_le pages (8 * k + i) }
{
    let own = (pages as usize).saturating_sub(8 * k);
    if own < 8 { 0xff << own } else { 0 }
}

/// The bits of pages 64 k to 64 k + 63, the first page's lowest.
pub fn word_at(bytes: &[u8], k: usize) -> u64
    requires { 8 * k + 8 ≤ length bytes.now }
    ensures { (i : ℕ) → i < 64 → (bit_at result i == 1) ≡ is_set bytes.now (64 * k + i) }
{
    let at = 8 * k;
    u64::from_le_bytes([
        bytes[at],
        bytes[at + 1],
        bytes[at + 2],
        bytes[at + 3],
        bytes[at + 4],
        bytes[at + 5],
        bytes[at + 6],
        bytes[at + 7],
    ])
}

/// The word of `word_at`, with a 1 also for each page before `from`.
pub fn taken_word(bytes: &[u8], k: usize, from: usize) -> u64
    requires within { 8 * k + 8 ≤ length bytes.now }
    requires reached { from < 64 * k + 64 }
    requires fits { 64 * k + 64 < 2 ^ 64 }
    ensures { (i : ℕ) → i < 64 → (bit_at result i == 1) ≡ is_taken bytes.now from (64 * k + i) }
{
    let passed = from.saturating_sub(64 * k);
    word_at(bytes, k) | ((1 << passed) - 1)
}
