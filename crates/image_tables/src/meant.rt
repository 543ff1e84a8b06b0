//! What images mean: each is written onto a rack, and told by what stands there.
use crate::faults::tell_rows;
use crate::fetched::tell_none;
use crate::filesets::tell;
use domain_attaching::{Meaning, read_image};
use image_lines::{Image, MemoryRack, Told, rack_of};
use std::alloc::Global;

/// Tells what is read of a rack.
fn tell_on(alloc: Global, rack: &mut MemoryRack, told: &mut Told) {
    match read_image(alloc, rack) {
        Ok(Meaning::NoDomain { vol, at }) => tell_none(vol, at, told),
        Ok(Meaning::Faulty { rows }) => tell_rows(&rows, told),
        Ok(Meaning::Filesets { all }) => tell(alloc, &all, told),
        Err(_) => told.check(false),
    }
}

/// Tells what a rack with an image means.
pub(crate) fn tell_meaning(alloc: Global, image: &mut Image, told: &mut Told) {
    match rack_of(alloc, image) {
        Some(mut rack) => tell_on(alloc, &mut rack, told),
        None => told.check(false),
    }
}
