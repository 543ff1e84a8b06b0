//! Images that stand on a rack: of the pages alone at which the rules look, which are brought from
//! it, the same faults are told as of all pages.
ghost use Rattle.std.specs.Prelude.{IsTrue};
ghost use Rattle.domain_attaching.specs.filesets_reading.Good.{IsNamed};

use crate::faults::tell_on;
use domain_attaching::{DomainFrame, MemoryPages, Rack, load};
use image_lines::{Image, Told, frame_of, has_members, rack_of};
use std::alloc::Global;

/// Whether an anchor names a fileset table and says this version.
fn is_named(frame: &DomainFrame) -> bool
    ensures { IsTrue result → IsNamed frame.now.anchor frame.now.version }
{
    frame.anchor.table.is_some() && frame.anchor.version == frame.version.number()
}

/// Brings the pages of an image from a rack; whether that passed.
fn is_brought<R: Rack>(
    alloc: Global,
    rack: &mut R,
    frame: &DomainFrame,
    pages: &mut MemoryPages,
) -> bool {
    if !has_members(rack, &frame.anchor) || !is_named(frame) {
        return false;
    }
    load(alloc, rack, frame, pages).is_ok()
}

/// Tells the faults of an image by the pages that are brought.
pub(crate) fn tell_brought(alloc: Global, image: &mut Image, told: &mut Told) {
    let Some(mut rack) = rack_of(alloc, image) else {
        return told.check(false);
    };
    let frame = frame_of(image);
    let mut pages = MemoryPages::new(alloc);
    told.check(is_brought(alloc, &mut rack, &frame, &mut pages));
    tell_on(alloc, &pages, &frame.anchor, told);
}
