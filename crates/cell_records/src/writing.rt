//! Numbers written one after the other, and the numbers of each kind of record.

ghost use Rattle.std.specs.Prelude.{◌≡◌, ◌+◌, ◌*◌, [], ◌∷◌, ◌≤◌, All, length, sum};
ghost use Rattle.cell_records.specs.declared.record.Record.TheVariants.{Attributes, CloneFile, Pending, DirIndex, Parent, Stripe, Volume};
ghost use Rattle.cell_records.specs.Layouts.{widths as widths_of, extent_widths, dense_widths, hole_widths};
ghost use Rattle.cell_records.specs.Records.{IsShort, Puts, PutsNumbers, PutsRows, extent_numbers, dense_numbers, hole_numbers, leftover_number};
ghost use Rattle.cell_records.specs.Fields.{Fit};

use crate::kinds::{ATTRIBUTES, CLONE_FILE, DIR_INDEX, PARENT, PENDING, QUOTA, STRIPE, VOLUME};
use crate::layout::Layout;
use crate::record::{ExtentField, HoleField, Leftover};
use byteorder::{ByteOrder, LittleEndian};

/// The widths of a head: kind, zero and length.
const HEAD: Layout<3> = Layout { widths: [1, 1, 2] };

const EXTENT: Layout<4> = Layout {
    widths: [4, 4, 4, 4],
};

const DENSE: Layout<6> = Layout {
    widths: [2, 2, 1, 1, 2, 4],
};

const HOLE: Layout<2> = Layout { widths: [4, 4] };

/// Writes numbers of these widths, each from 1 to 8 bytes, one after the other with the lowest byte
/// first. Returns how many bytes they took. The bytes after them stay as they were.
#[tactic(auto, unfolding(crate::specs::Records::spelled))]
pub fn put(widths: &[u8], numbers: &[u64], out: &mut [u8]) -> usize
    requires fit { Fit widths.now numbers.now }
    requires room { sum widths.now ≤ length out.old }
    ensures { PutsNumbers widths.now numbers.now out.old out.new result }
{
    let mut at = 0;
    for (i, width) in widths.iter().enumerate() {
        let width = usize::from(*width);
        LittleEndian::write_uint(&mut out[at..], numbers[i], width);
        at += width;
    }
    at
}

pub fn put_attributes(
    kind: u32,
    uid: u32,
    gid: u32,
    flags: u32,
    size: u64,
    keep: u32,
    links: u32,
    birth: u64,
    unsynced: u64,
    out: &mut [u8],
) -> usize
    requires { 52 ≤ length out.old }
    ensures { Puts (Attributes kind uid gid flags size keep links birth unsynced) out.old out.new
        result }
{
    let numbers = [
        1,
        0,
        52,
        kind as u64,
        uid as u64,
        gid as u64,
        flags as u64,
        size,
        keep as u64,
        links as u64,
        birth,
        unsynced,
    ];
    put(&ATTRIBUTES.widths, &numbers, out)
}

pub fn put_clone_file(vol: u8, cell: u8, page: u32, frozen: u32, out: &mut [u8]) -> usize
    requires { 20 ≤ length out.old }
    ensures { Puts (CloneFile vol cell page frozen) out.old out.new result }
{
    let numbers = [
        2,
        0,
        20,
        0,
        vol as u64,
        cell as u64,
        page as u64,
        frozen as u64,
        0,
    ];
    put(&CLONE_FILE.widths, &numbers, out)
}

pub fn put_pending(what: Leftover, out: &mut [u8]) -> usize
    requires { 12 ≤ length out.old }
    ensures { Puts (Pending what) out.old out.new result }
{
    put(&PENDING.widths, &[6, 0, 12, number_of(what), 0], out)
}

fn number_of(what: Leftover) -> u64
    ensures value { result ≡ leftover_number what }
    ensures small { result ≤ 2 }
{
    match what {
        Leftover::Trim => 1,
        Leftover::Remove => 2,
    }
}

/// Writes the limits of a user, of kind 7, or of a group, of kind 8.
pub fn put_quota(kind: u8, id: u32, files: u64, blocks: u64, out: &mut [u8]) -> usize
    requires { 28 ≤ length out.old }
    ensures { PutsNumbers (widths_of 7) (kind ∷ 0 ∷ 28 ∷ id ∷ 0 ∷ files ∷ blocks
        ∷ []) out.old out.new result }
{
    put(
        &QUOTA.widths,
        &[kind as u64, 0, 28, id as u64, 0, files, blocks],
        out,
    )
}

pub fn put_dir_index(vol: u32, page: u32, entries: u32, out: &mut [u8]) -> usize
    requires { 20 ≤ length out.old }
    ensures { Puts (DirIndex vol page entries) out.old out.new result }
{
    let numbers = [9, 0, 20, vol as u64, page as u64, entries as u64, 0];
    put(&DIR_INDEX.widths, &numbers, out)
}

pub fn put_parent(slot: u32, seq: u16, out: &mut [u8]) -> usize
    requires { 12 ≤ length out.old }
    ensures { Puts (Parent slot seq) out.old out.new result }
{
    put(
        &PARENT.widths,
        &[10, 0, 12, slot as u64, seq as u64, 0],
        out,
    )
}

pub fn put_stripe(width: u8, mark: u8, vols: &[u8; 8], out: &mut [u8]) -> usize
    requires eight { length vols.now ≡ 8 }
    requires room { 16 ≤ length out.old }
    ensures { Puts (Stripe width mark vols.now) out.old out.new result }
{
    let numbers = [
        11,
        0,
        16,
        width as u64,
        mark as u64,
        0,
        vols[0] as u64,
        vols[1] as u64,
        vols[2] as u64,
        vols[3] as u64,
        vols[4] as u64,
        vols[5] as u64,
        vols[6] as u64,
        vols[7] as u64,
    ];
    put(&STRIPE.widths, &numbers, out)
}

pub fn put_volume(vol: u32, pages: u32, bitmap_pages: u32, out: &mut [u8]) -> usize
    requires { 16 ≤ length out.old }
    ensures { Puts (Volume vol pages bitmap_pages) out.old out.new result }
{
    let numbers = [12, 0, 16, vol as u64, pages as u64, bitmap_pages as u64];
    put(&VOLUME.widths, &numbers, out)
}

fn numbers_of_extent(row: &ExtentField) -> [u64; 4]
    ensures numbers { result ≡ extent_numbers row.now }
    ensures fit { Fit extent_widths result }
{
    [
        row.page as u64,
        row.count as u64,
        row.vol as u64,
        row.first as u64,
    ]
}

fn numbers_of_dense(row: &ExtentField) -> [u64; 6]
    requires { IsShort row.now }
    ensures numbers { result ≡ dense_numbers row.now }
    ensures fit { Fit dense_widths result }
{
    [
        row.page as u64,
        row.count as u64,
        row.vol as u64,
        0,
        0,
        row.first as u64,
    ]
}

fn numbers_of_hole(row: &HoleField) -> [u64; 2]
    ensures numbers { result ≡ hole_numbers row.now }
    ensures fit { Fit hole_widths result }
{
    [row.page as u64, row.count as u64]
}

/// Writes the head of a record of that kind that has `rows` bytes of rows after its head.
fn put_head(kind: u8, rows: usize, out: &mut [u8]) -> usize
    requires room { 4 + rows ≤ length out.old }
    requires short { rows ≤ 1000 }
    ensures { PutsNumbers (1 ∷ 1 ∷ 2 ∷ []) (kind ∷ 0 ∷ (4 + rows) ∷ []) out.old out.new result }
{
    put(&HEAD.widths, &[kind as u64, 0, 4 + rows as u64], out)
}

/// Writes a record of rows of extents, at most 22, and returns how many bytes it took.
#[tactic(auto, unfolding(crate::specs::Records::spelled))]
pub fn put_extents(kind: u8, rows: &[ExtentField], out: &mut [u8]) -> usize
    requires few { length rows.now ≤ 22 }
    requires room { 4 + 16 * length rows.now ≤ length out.old }
    ensures { PutsRows extent_widths extent_numbers kind rows.now out.old out.new result }
{
    let mut at = put_head(kind, 16 * rows.len(), out);
    for row in rows {
        at += put(&EXTENT.widths, &numbers_of_extent(row), &mut out[at..]);
    }
    at
}

/// Writes a record of dense rows of extents, at most 22, and returns how many bytes it took.
#[tactic(auto, unfolding(crate::specs::Records::spelled))]
pub fn put_dense_extents(kind: u8, rows: &[ExtentField], out: &mut [u8]) -> usize
    requires few { length rows.now ≤ 22 }
    requires short { All IsShort rows.now }
    requires room { 4 + 12 * length rows.now ≤ length out.old }
    ensures { PutsRows dense_widths dense_numbers kind rows.now out.old out.new result }
{
    let mut at = put_head(kind, 12 * rows.len(), out);
    for row in rows {
        at += put(&DENSE.widths, &numbers_of_dense(row), &mut out[at..]);
    }
    at
}

/// Writes a record of rows of holes, at most 22, and returns how many bytes it took.
#[tactic(auto, unfolding(crate::specs::Records::spelled))]
pub fn put_holes(kind: u8, rows: &[HoleField], out: &mut [u8]) -> usize
    requires few { length rows.now ≤ 22 }
    requires room { 4 + 8 * length rows.now ≤ length out.old }
    ensures { PutsRows hole_widths hole_numbers kind rows.now out.old out.new result }
{
    let mut at = put_head(kind, 8 * rows.len(), out);
    for row in rows {
        at += put(&HOLE.widths, &numbers_of_hole(row), &mut out[at..]);
    }
    at
}
