//! Domains that are attached from racks: what is kept in memory of them, or why they are not.
use domain_attaching::{DomainMemory, Owner, SlotFiles, VolIx, attach, bring_memory};
use image_lines::{Image, MemoryRack, Told, rack_of};
use std::alloc::Global;

/// Tells how many pages the tag directory of a slot has, the files and blocks of all users and of
/// user 7, and the limits of user 7.
fn tell_slot(number: usize, slot: &SlotFiles, told: &mut Told) {
    let all = slot.book.usage(Owner::Fileset);
    let one = slot.book.usage(Owner::User(7));
    let most = slot.book.limits(Owner::User(7));
    told.push_pair("slot ", number as u64, ": ", slot.tag_pages as u64);
    told.push_pair(", ", all.files, " ", all.blocks);
    told.push_pair(", ", one.files, " ", one.blocks);
    told.push_pair(", ", most.files, " ", most.blocks);
    told.push("\n");
}

/// Tells how many pages of the first volume are used, whether something is to be let go of, and
/// what is in the slots.
fn tell_memory(memory: &DomainMemory, told: &mut Told) {
    told.push("used ");
    told.push_number(u64::from(memory.space.used_on(VolIx::new(1).unwrap())));
    told.push("\n");
    if !memory.list.is_empty() {
        told.push("to go\n");
    }
    for (number, slot) in memory.slots.iter().enumerate() {
        if let Some(slot) = slot {
            tell_slot(number, slot, told);
        }
    }
}

/// Tells what is kept in memory of the domain on a rack.
fn tell_brought(alloc: Global, rack: &mut MemoryRack, told: &mut Told) {
    match bring_memory(alloc, rack) {
        Ok(found) => tell_memory(&found.memory, told),
        Err(fault) => told.push_shown(&fault),
    }
}

/// Tells what is kept in memory of the domain on a rack that is attached, by the rack that is given
/// back unchanged; or why it is not attached.
fn tell_on(alloc: Global, rack: MemoryRack, told: &mut Told) {
    match attach(alloc, rack) {
        Ok(attached) => tell_brought(alloc, &mut attached.into_rack(), told),
        Err((_rack, fault)) => told.push_shown(&fault),
    }
}

/// Tells what is kept in memory of the domain of an image that is attached, or why it is not.
pub(crate) fn tell_attached(alloc: Global, image: &mut Image, told: &mut Told) {
    match rack_of(alloc, image) {
        Some(rack) => tell_on(alloc, rack, told),
        None => told.check(false),
    }
}
