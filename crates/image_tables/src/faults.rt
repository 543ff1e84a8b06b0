//! The faults of images, by the codes and the pages of the rules that are broken.
use domain_attaching::{Anchor, FaultRow, MemoryPages, faults};
use image_lines::{Image, Told};
use std::alloc::Global;

/// Tells a line with the code, the volume and the page of each fault.
pub(crate) fn tell_rows(rows: &[FaultRow], told: &mut Told) {
    for row in rows {
        told.push_number(u64::from(row.rule.code()));
        told.push_home(" ", &row.home);
        told.push("\n");
    }
}

/// Tells the faults on pages, in their order.
pub(crate) fn tell_on(alloc: Global, pages: &MemoryPages, anchor: &Anchor, told: &mut Told) {
    match faults(alloc, pages, anchor) {
        Ok(rows) => tell_rows(&rows, told),
        Err(_) => told.check(false),
    }
}

/// Tells the faults of an image.
pub(crate) fn tell_faults(alloc: Global, image: &Image, told: &mut Told) {
    tell_on(alloc, &image.pages, &image.anchor, told);
}
