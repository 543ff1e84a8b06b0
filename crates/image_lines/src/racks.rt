//! Racks in memory on which an image stands: with the labels of its members, its anchor after an
//! open gate, and the gates of the log as the image has them.
ghost use Rattle.std.specs.Prelude.{IsTrue};
ghost use Rattle.page_faults.specs.log_ring.Homes.{HasMembers};
ghost use Rattle.image_lines.specs.Members.{HasMember};

use crate::front::{draw_anchor, draw_label};
use crate::image::Image;
use crate::words::Words;
use memory_disk::MemoryRack;
use page_faults::limits::{MAX_VOLUME_PAGES_4, MAX_VOLUMES};
use page_faults::{Anchor, DomainFrame, Home, MetaPages, OutOfMemory, Rack, VolIx};
use std::alloc::Global;

/// Whether a rack has a volume with the pages of a member, if it is one.
fn has_member<R: Rack>(rack: &R, anchor: &Anchor, vol: VolIx) -> bool
    ensures { IsTrue result → HasMember (R.disk rack.now).sizes anchor.now vol }
{
    let member = anchor.members[vol.index()];
    let is_none = member.state < 1 || member.state > 2;
    let fits = member.pages <= rack.pages(vol) && member.pages <= MAX_VOLUME_PAGES_4;
    is_none || (vol.number() <= rack.volumes() && fits)
}

/// Whether a rack has the members of an anchor.
pub fn has_members<R: Rack>(rack: &R, anchor: &Anchor) -> bool
    ensures { IsTrue result → HasMembers (R.disk rack.now).sizes anchor.now }
{
    for number in 1..MAX_VOLUMES + 1 {
        let Some(vol) = VolIx::new(number) else {
            return false;
        };
        if !has_member(rack, anchor, vol) {
            return false;
        }
    }
    true
}

/// By what the pages of an image are read.
pub fn frame_of(image: &Image) -> DomainFrame {
    DomainFrame {
        anchor: image.anchor,
        version: image.version,
    }
}

/// The blocks of a page.
const PAGE_BLOCKS: u32 = 16;

/// Writes a page of a rack; whether that passed.
fn is_page_written<R: Rack>(rack: &mut R, home: &Home, bytes: &[u8]) -> bool {
    let vol = home.vol;
    let is_there = vol.number() <= rack.volumes() && home.page < rack.pages(vol);
    if !is_there || 1000 < home.page || bytes.len() != 8192 {
        return false;
    }
    rack.write(vol, PAGE_BLOCKS * home.page, bytes).is_ok()
}

/// Writes the label of a member.
fn add_label(image: &mut Image, vol: VolIx) {
    let home = Home { vol, page: 0 };
    let pages = image.anchor.members[vol.index()].pages;
    match image.page(&home) {
        Some(mut page) => {
            draw_label(image.version, vol, pages, &mut page);
            image.put(&home, page);
        }
        None => image.check(false),
    }
}

/// Writes the anchor after an open gate.
fn add_anchor(image: &mut Image) {
    let Some(vol) = VolIx::new(image.anchor.log_vol) else {
        return image.check(false);
    };
    let home = Home { vol, page: 1 };
    match image.page(&home) {
        Some(mut page) => {
            draw_anchor(&image.anchor, &mut page);
            image.put(&home, page);
        }
        None => image.check(false),
    }
}

/// Writes those pages of a volume that are there; whether that passed.
pub fn is_volume_written(rack: &mut MemoryRack, image: &Image, vol: VolIx) -> bool {
    for page in 0..image.anchor.members[vol.index()].pages {
        let home = Home { vol, page };
        if let Some(page) = image.pages.get(home) {
            if !is_page_written(rack, &home, page.bytes()) {
                return false;
            }
        }
    }
    true
}

/// A rack of zeros that fails at these calls, with the volumes of an anchor.
pub fn zeros(alloc: Global, anchor: &Anchor, fails: &[u64]) -> Result<MemoryRack, OutOfMemory> {
    let members = anchor.members;
    let sizes = members.map(|member| member.pages);
    MemoryRack::new(alloc, &sizes, fails, false)
}

/// The numbers that are left to read.
fn numbers_of(alloc: Global, words: &mut Words) -> Result<Vec<u32>, OutOfMemory> {
    let mut numbers = Vec::new(alloc);
    for _ in 0..words.rest().len() {
        if words.is_at_end() {
            break;
        }
        numbers.push(words.number(' '))?;
    }
    Ok(numbers)
}

/// A rack of zeros with volumes of these numbers of pages.
pub fn empty_rack(alloc: Global, words: &mut Words) -> Result<MemoryRack, OutOfMemory> {
    let sizes = numbers_of(alloc, words)?;
    MemoryRack::new(alloc, &sizes, &[], false)
}

/// Writes the labels of the members of an image, and their pages onto a rack.
fn write_members(rack: &mut MemoryRack, image: &mut Image) {
    for number in 1..9 {
        if let Some(vol) = VolIx::new(number) {
            if 0 < image.anchor.members[vol.index()].pages {
                add_label(image, vol);
                let is_written = is_volume_written(rack, image, vol);
                image.check(is_written);
            }
        }
    }
}

/// A rack on which an image stands; None if the image is not right, or memory is short.
pub fn rack_of(alloc: Global, image: &mut Image) -> Option<MemoryRack> {
    add_anchor(image);
    let mut rack = zeros(alloc, &image.anchor, &[]).ok()?;
    write_members(&mut rack, image);
    if image.is_right() { Some(rack) } else { None }
}
