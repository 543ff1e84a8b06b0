//! Numbers in decimal and bytes in hexadecimal digits.
ghost use Rattle.std.specs.Prelude.{◌≡◌, ◌<◌, ◌≤◌, ◌^◌, ◌+◌, ◌*◌, ◌++◌, IfSome, OnOk, SomeIff, decimal, false};
ghost use Rattle.std.specs.Fmt.{digit_glyph};
ghost use Rattle.word_forms.specs.Forms.{byte_of, hexadecimal_digit, number_below, number_within};
ghost use Rattle.word_forms.specs.Runs.{hexadecimal};

use fileset_values::OutOfMemory;
use itoa::Buffer;

/// The number with one more decimal digit.
fn with_digit(n: u64, digit: u8) -> Option<u64>
    ensures { SomeIff result (n * 10 + digit < 2 ^ 64) (n * 10 + digit) }
{
    n.checked_mul(10)?.checked_add(u64::from(digit))
}

/// The number below 2^64 that a word's decimal digits say.
pub fn number(word: &[u8]) -> Option<u64>
    ensures { result ≡ number_below (2 ^ 64) word.now }
{
    if word.is_empty() {
        return None;
    }
    let mut n: u64 = 0;
    for byte in word {
        if !byte.is_ascii_digit() {
            return None;
        }
        n = with_digit(n, *byte - b'0')?;
    }
    Some(n)
}

/// The number below 2^32 that a word's decimal digits say.
pub fn small_number(word: &[u8]) -> Option<u32>
    ensures { result ≡ number_below (2 ^ 32) word.now }
{
    let n = number(word)?;
    if n <= u64::from(u32::MAX) {
        Some(n as u32)
    } else {
        None
    }
}

/// The number that a word's decimal digits say, if it lies within these bounds.
#[tactic(auto, unfolding(crate::specs::Forms::number_within))]
pub fn number_within(least: u32, most: u32, word: &[u8]) -> Option<u32>
    ensures value { result ≡ number_within least most word.now }
    ensures bounds { IfSome result (λ n. (least ≤ n) × (n ≤ most)) }
{
    let n = small_number(word)?;
    if least <= n && n <= most {
        Some(n)
    } else {
        None
    }
}

/// Adds a number in decimal digits, without leading zeros.
pub fn push_number(out: &mut Vec<u8>, n: u64) -> Result<(), OutOfMemory>
    ensures { OnOk result (out.new.items ≡ out.old.items ++ decimal n) }
{
    let mut buffer = Buffer::new();
    out.extend_from_slice(buffer.format(n).as_bytes())?;
    Ok(())
}

/// The value of a hexadecimal digit, of either case.
fn hexadecimal_value(byte: u8) -> Option<u8>
    ensures value { result ≡ hexadecimal_digit byte }
    ensures bound { IfSome result (λ n. n < 16) }
{
    match byte {
        b'0'..=b'9' => Some(byte - b'0'),
        b'a'..=b'f' => Some(byte - b'a' + 10),
        b'A'..=b'F' => Some(byte - b'A' + 10),
        _ => None,
    }
}

/// The byte that two hexadecimal digits say.
#[tactic(auto, unfolding(crate::specs::Forms::byte_of))]
pub fn hexadecimal_byte(high: u8, low: u8) -> Option<u8>
    ensures { result ≡ byte_of high low }
{
    let high = hexadecimal_value(high)?;
    let low = hexadecimal_value(low)?;
    Some(high * 16 + low)
}

fn digit_of(n: u8) -> u8
    requires { n < 16 }
    ensures { result ≡ digit_glyph false n }
{
    if n < 10 { b'0' + n } else { b'a' - 10 + n }
}

/// Adds a byte as two lower-case hexadecimal digits.
#[tactic(auto, unfolding(crate::specs::Runs::hexadecimal))]
pub fn push_hexadecimal(out: &mut Vec<u8>, byte: u8) -> Result<(), OutOfMemory>
    ensures { OnOk result (out.new.items ≡ out.old.items ++ hexadecimal byte) }
{
    out.push(digit_of(byte / 16))?;
    out.push(digit_of(byte % 16))?;
    Ok(())
}
