//! Numbers and rows of numbers at a place of a record's bytes.

ghost use Rattle.std.specs.Prelude.{◌≡◌, ◌==◌, ◌+◌, ◌*◌, ◌≤◌, length};
ghost use Rattle.std.specs.List.{list_all};
ghost use Rattle.cell_records.specs.Fields.{number_at, extent_at as extent_there, dense_at as dense_there, hole_at as hole_there, extents, dense_extents, holes, volumes, leftover_of};

use crate::record::{ExtentField, HoleField, Leftover};
use byteorder::{ByteOrder, LittleEndian};

/// Whether all the bytes are zero.
#[tactic(auto)]
pub fn are_zeros(bytes: &[u8]) -> bool
    ensures { result ≡ list_all (λ byte. byte == 0) bytes.now }
{
    bytes.iter().all(|byte| *byte == 0)
}

/// The byte at a place.
#[tactic(auto, unfolding(crate::specs::Fields::number_at))]
pub fn u8_at(bytes: &[u8], at: usize) -> u8
    requires { at + 1 ≤ length bytes.now }
    ensures { result ≡ number_at 1 at bytes.now }
{
    bytes[at]
}

/// The number of the two bytes from a place on, the lowest first.
#[tactic(auto, unfolding(crate::specs::Fields::number_at))]
pub fn u16_at(bytes: &[u8], at: usize) -> u16
    requires { at + 2 ≤ length bytes.now }
    ensures { result ≡ number_at 2 at bytes.now }
{
    LittleEndian::read_u16(&bytes[at..])
}

/// The number of the four bytes from a place on, the lowest first.
#[tactic(auto, unfolding(crate::specs::Fields::number_at))]
pub fn u32_at(bytes: &[u8], at: usize) -> u32
    requires { at + 4 ≤ length bytes.now }
    ensures { result ≡ number_at 4 at bytes.now }
{
    LittleEndian::read_u32(&bytes[at..])
}

/// The number of the eight bytes from a place on, the lowest first.
#[tactic(auto, unfolding(crate::specs::Fields::number_at))]
pub fn u64_at(bytes: &[u8], at: usize) -> u64
    requires { at + 8 ≤ length bytes.now }
    ensures { result ≡ number_at 8 at bytes.now }
{
    LittleEndian::read_u64(&bytes[at..])
}

fn extent_at(bytes: &[u8], at: usize) -> ExtentField
    requires { at + 16 ≤ length bytes.now }
    ensures { result ≡ extent_there at bytes.now }
{
    ExtentField {
        page: u32_at(bytes, at),
        count: u32_at(bytes, at + 4),
        vol: u32_at(bytes, at + 8),
        first: u32_at(bytes, at + 12),
    }
}

fn dense_at(bytes: &[u8], at: usize) -> ExtentField
    requires { at + 12 ≤ length bytes.now }
    ensures { result ≡ dense_there at bytes.now }
{
    ExtentField {
        page: u32::from(u16_at(bytes, at)),
        count: u32::from(u16_at(bytes, at + 2)),
        vol: u32::from(u8_at(bytes, at + 4)),
        first: u32_at(bytes, at + 8),
    }
}

fn hole_at(bytes: &[u8], at: usize) -> HoleField
    requires { at + 8 ≤ length bytes.now }
    ensures { result ≡ hole_there at bytes.now }
{
    HoleField {
        page: u32_at(bytes, at),
        count: u32_at(bytes, at + 4),
    }
}

/// The extents of `N` rows.
pub fn extents_at<const N: usize>(bytes: &[u8], at: usize) -> [ExtentField; N]
    requires { at + 16 * N ≤ length bytes.now }
    ensures { result ≡ extents N at bytes.now }
{
    let mut rows = [NO_EXTENT; N];
    for i in 0..N {
        rows[i] = extent_at(bytes, at + 16 * i);
    }
    rows
}

/// The extents of `N` dense rows.
pub fn dense_extents_at<const N: usize>(bytes: &[u8], at: usize) -> [ExtentField; N]
    requires { at + 12 * N ≤ length bytes.now }
    ensures { result ≡ dense_extents N at bytes.now }
{
    let mut rows = [NO_EXTENT; N];
    for i in 0..N {
        rows[i] = dense_at(bytes, at + 12 * i);
    }
    rows
}

/// The holes of `N` rows.
pub fn holes_at<const N: usize>(bytes: &[u8], at: usize) -> [HoleField; N]
    requires { at + 8 * N ≤ length bytes.now }
    ensures { result ≡ holes N at bytes.now }
{
    let mut rows = [NO_HOLE; N];
    for i in 0..N {
        rows[i] = hole_at(bytes, at + 8 * i);
    }
    rows
}

/// Eight volumes of a byte each.
pub fn volumes_at(bytes: &[u8], at: usize) -> [u8; 8]
    requires { at + 8 ≤ length bytes.now }
    ensures { result ≡ volumes at bytes.now }
{
    [
        u8_at(bytes, at),
        u8_at(bytes, at + 1),
        u8_at(bytes, at + 2),
        u8_at(bytes, at + 3),
        u8_at(bytes, at + 4),
        u8_at(bytes, at + 5),
        u8_at(bytes, at + 6),
        u8_at(bytes, at + 7),
    ]
}

/// What is left to be done, read from its number.
pub fn leftover_at(bytes: &[u8], at: usize) -> Leftover
    requires { at + 4 ≤ length bytes.now }
    ensures { result ≡ leftover_of (number_at 4 at bytes.now) }
{
    if u32_at(bytes, at) == 1 {
        Leftover::Trim
    } else {
        Leftover::Remove
    }
}

const NO_EXTENT: ExtentField = ExtentField {
    page: 0,
    count: 0,
    vol: 0,
    first: 0,
};

const NO_HOLE: HoleField = HoleField { page: 0, count: 0 };
