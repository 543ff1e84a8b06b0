//! Fields of four and eight bytes, with their lowest byte first.
ghost use Rattle.std.specs.Prelude.{◌≡◌, ◌+◌, ◌*◌, ◌%◌, ◌/◌, ◌^◌, ◌≤◌, length};
ghost use Rattle.disk_label.specs.Body.{long_at, word_at};

use byteorder::{ByteOrder, LittleEndian};

/// One more than the greatest number of four bytes.
const WORD: u64 = 1 << 32;

/// The number of four bytes from byte 4k on.
pub fn word(body: &[u8], k: usize) -> u32
    requires { 4 * k + 4 ≤ length body.now }
    ensures { result ≡ word_at body.now k }
{
    LittleEndian::read_u32(&body[4 * k..])
}

/// The number of eight bytes from byte 4k on.
pub fn long(body: &[u8], k: usize) -> u64
    requires { 4 * k + 8 ≤ length body.now }
    ensures { result ≡ long_at body.now k }
{
    u64::from(word(body, k)) + WORD * u64::from(word(body, k + 1))
}

/// The lower four bytes of a number.
pub fn low(n: u64) -> u32
    ensures { result ≡ n % 2 ^ 32 }
{
    (n % WORD) as u32
}

/// The upper four bytes of a number.
pub fn high(n: u64) -> u32
    ensures { result ≡ n / 2 ^ 32 }
{
    (n / WORD) as u32
}
