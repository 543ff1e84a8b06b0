//! The page on which a group of the log begins.
ghost use Rattle.std.specs.Prelude.{◌≡◌, ◌+◌, ◌*◌, ◌≤◌, ◌<◌, ◌++◌, ℕ, List, IfNone, IfOk, IfSome, MatchOption, length, take};
ghost use Rattle.std.specs.List.{flat_map};
ghost use Rattle.byteorder.specs.Endian.{little_bytes};
ghost use Rattle.disk_label.specs.domain_base.Limits.{block_bytes, group_images};
ghost use Rattle.disk_label.specs.domain_base.Page.{overwritten, zero_bytes};
ghost use Rattle.disk_label.specs.domain_base.declared.place.Home.{Home as AHome};
ghost use Rattle.log_ring.specs.Header.{AreHomesAt, AreHomesOf, ArePlaces, IsHeader, IsHeaderOf, IsHomeAt, IsPlace, IsRead, IsSayable, begun, header_bytes, header_for, home_bytes as bytes_of_home};

use crate::header::{Header, HeaderRead, HomeList};
use crate::homes::are_distinct;
use crate::image::PageImage;
use byteorder::{ByteOrder, LittleEndian};
use cell_records::{u32_at, u64_at};
use disk_label::gate::is_open;
use disk_label::limits::{BLOCK_BYTES, GROUP_IMAGES, PAGE_BYTES};
use disk_label::{Home, OutOfMemory, Page, VolIx};
use std::alloc::Global;

/// The offset of the number of a group, of the number of its images, and of its first home.
const NUMBER_AT: usize = BLOCK_BYTES;

const COUNT_AT: usize = 520;

const HOMES_AT: usize = 528;

/// The bytes of a home, and of what stands before the first home.
const HOME_BYTES: usize = 8;

const HEAD_BYTES: usize = 16;

/// The numbers of groups are below this one, and so are those of anchors.
pub const NUMBERS: u64 = 1 << 63;

/// The bytes after the gate.
const BODY_BYTES: usize = PAGE_BYTES - BLOCK_BYTES;

/// The home at a byte, or None if there is none.
fn home_at(bytes: &[u8], at: usize) -> Option<Home>
    requires { at + 8 ≤ length bytes.now }
    ensures home { IfSome result (IsHomeAt bytes.now at) }
    ensures none { IfNone result ((home : AHome) → ¬ IsHomeAt bytes.now at home) }
{
    match VolIx::new(u32_at(bytes, at)) {
        Some(vol) => Some(Home {
            vol,
            page: u32_at(bytes, at + 4),
        }),
        None => None,
    }
}

/// The `count` homes from byte 528 on, or None if not all of them are homes.
fn read_homes(alloc: Global, bytes: &[u8], count: usize) -> Result<Option<Vec<Home>>, OutOfMemory>
    requires { HOMES_AT + 8 * count ≤ length bytes.now }
    ensures { IfOk result (λ found. MatchOption found
        ((homes : List AHome) → length homes ≡ count → ¬ AreHomesAt bytes.now HOMES_AT homes)
        (λ homes. AreHomesOf bytes.now count homes.items)) }
{
    let mut homes = Vec::new(alloc);
    for i in 0..count {
        match home_at(bytes, HOMES_AT + HOME_BYTES * i) {
            Some(home) => homes.push(home)?,
            None => return Ok(None),
        }
    }
    Ok(Some(homes))
}

/// Reads the page at which a group of the log may begin.
pub fn read_header(alloc: Global, page: &Page) -> Result<HeaderRead, OutOfMemory>
    ensures { IfOk result (IsRead page.now) }
{
    let bytes = page.bytes();
    if !is_open(bytes) {
        return Ok(HeaderRead::Closed);
    }
    let number = u64_at(bytes, NUMBER_AT);
    let count = u32_at(bytes, COUNT_AT) as usize;
    if NUMBERS <= number || count < 1 || GROUP_IMAGES < count {
        return Ok(HeaderRead::Bad);
    }
    match read_homes(alloc, bytes, count)? {
        Some(homes) => Ok(header_of(number, homes)),
        None => Ok(HeaderRead::Bad),
    }
}

/// The header of that number and these homes, unless two of them are the same.
fn header_of(number: u64, homes: Vec<Home>) -> HeaderRead
    ensures { IsHeaderOf number homes.items result }
{
    if are_distinct(&homes) {
        HeaderRead::Group(Header {
            number,
            homes: HomeList::new(homes),
        })
    } else {
        HeaderRead::Bad
    }
}

/// The bytes of a home.
fn home_bytes(home: &Home) -> [u8; HOME_BYTES]
    ensures bytes { result ≡ bytes_of_home home.now }
    ensures place { IsPlace home.now }
{
    let page = home.page;
    let mut bytes = [0; HOME_BYTES];
    LittleEndian::write_u32(&mut bytes, home.vol.number());
    LittleEndian::write_u32(&mut bytes[4..], page);
    bytes
}

/// The bytes before the first home.
fn head_bytes(number: u64, count: u32) -> [u8; HEAD_BYTES]
    ensures { result ≡ little_bytes 8 number ++ little_bytes 4 count ++ zero_bytes 4 }
{
    let mut bytes = [0; HEAD_BYTES];
    LittleEndian::write_u64(&mut bytes, number);
    LittleEndian::write_u32(&mut bytes[8..], count);
    bytes
}

/// As many zeros as there are bytes after a gate.
fn no_body() -> [u8; BODY_BYTES]
    ensures value { result ≡ zero_bytes BODY_BYTES }
    ensures len { length result ≡ BODY_BYTES }
{
    [0; BODY_BYTES]
}

/// Writes the number of a group and how many images it has, and zeros after them.
fn begin(number: u64, count: usize, page: &mut Page)
    requires { count ≤ group_images }
    ensures bytes { page.new ≡ begun page.old number count }
    ensures len { length page.old ≡ PAGE_BYTES }
{
    prove!(page.bytes().len() == PAGE_BYTES);
    page.set(NUMBER_AT, &no_body());
    page.set(NUMBER_AT, &head_bytes(number, count as u32));
}

/// Writes a home after those of `i` images.
fn put_home(i: usize, home: &Home, page: &mut Page)
    requires { i < group_images }
    ensures bytes { page.new ≡ overwritten page.old (HOMES_AT + 8 * i) (bytes_of_home home.now) }
    ensures place { IsPlace home.now }
{
    page.set(HOMES_AT + HOME_BYTES * i, &home_bytes(home));
}

/// Writes the header of a group of 1 to 60 images, no two with the same home, whose number is below
/// 2^63. It leaves the gate as it is, and what is not named after it is zero.
pub fn write_header(header: &Header, page: &mut Page)
    requires { IsSayable header.now }
    ensures bytes { page.new ≡ take block_bytes page.old ++ header_bytes header.now }
    ensures header { IsHeader page.new header.now }
{
    let homes = header.homes.as_slice();
    begin(header.number, homes.len(), page);
    for (i, home) in homes.iter().enumerate() {
        put_home(i, home, page);
    }
}

/// Writes the header of a group of that number and these images, as `write_header` does. Takes no
/// memory.
pub fn write_header_of(number: u64, images: &[PageImage], page: &mut Page)
    requires { IsSayable (header_for number images.now) }
    ensures bytes { page.new ≡
        take block_bytes page.old ++ header_bytes (header_for number images.now) }
    ensures header { IsHeader page.new (header_for number images.now) }
{
    begin(number, images.len(), page);
    for (i, image) in images.iter().enumerate() {
        put_home(i, &image.home, page);
    }
}
