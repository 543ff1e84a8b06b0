//! Domains that are brought from racks whole: they have the filesets of their images, and of each
//! file its pages; or they are none, from the first page on at which a rule is broken.
ghost use Rattle.std.specs.Prelude.{List, ℕ};
ghost use Rattle.domain_attaching.specs.domain_bringing.Brought.{IsBrought};

use crate::filesets::tell;
use domain_attaching::{BringFault, Brought, bring_domain, read_filesets};
use image_lines::{Image, MemoryRack, Told, Words, empty_rack, rack_of};
use std::alloc::Global;

/// Tells the filesets of a domain that was brought.
fn tell_brought(alloc: Global, brought: &Brought, told: &mut Told)
    requires { (sizes : List ℕ) × IsBrought sizes brought.now }
{
    let Brought { pages, frame, .. } = brought;
    match read_filesets(alloc, pages, &frame.anchor, frame.version) {
        Ok(all) => tell(alloc, &all, told),
        Err(_) => told.check(false),
    }
}

/// Tells that there is no domain, by the volume and the page at which the first rule is broken.
pub(crate) fn tell_none(vol: u32, at: u32, told: &mut Told) {
    told.push_pair("no domain ", u64::from(vol), ":", u64::from(at));
    told.push("\n");
}

/// Tells what is brought from a rack.
fn tell_on(alloc: Global, rack: &mut MemoryRack, told: &mut Told) {
    match bring_domain(alloc, rack) {
        Ok(brought) => tell_brought(alloc, &brought, told),
        Err(BringFault::NotADomain { vol, at }) => tell_none(vol, at, told),
        Err(_) => told.check(false),
    }
}

/// Tells what is brought from a rack with an image.
pub(crate) fn tell_fetched(alloc: Global, image: &mut Image, told: &mut Told) {
    match rack_of(alloc, image) {
        Some(mut rack) => tell_on(alloc, &mut rack, told),
        None => told.check(false),
    }
}

/// Tells what is brought from a rack of zeros with volumes of these numbers of pages.
pub(crate) fn tell_zeros(alloc: Global, sizes: &mut Words, told: &mut Told) {
    match empty_rack(alloc, sizes) {
        Ok(mut rack) => tell_on(alloc, &mut rack, told),
        Err(_) => told.check(false),
    }
}
