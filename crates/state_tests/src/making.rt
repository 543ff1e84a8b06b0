//! Domains that are made on racks in memory.

use client_commands::{Attached, MakeFault, Rack, Version, make};
use memory_disk::MemoryRack;
use std::alloc::Global;

/// A domain that is made on a rack of one volume of `pages` pages.
pub fn made(
    alloc: Global,
    pages: u32,
    version: Version,
) -> Result<Attached<MemoryRack>, MakeFault> {
    let Ok(rack) = MemoryRack::new(alloc, &[pages], &[], false) else {
        return Err(MakeFault::OutOfMemory);
    };
    if rack.volumes() != 1 {
        return Err(MakeFault::OutOfMemory);
    }
    match make(alloc, rack, version) {
        Ok(attached) => Ok(attached),
        Err((_rack, fault)) => Err(fault),
    }
}
