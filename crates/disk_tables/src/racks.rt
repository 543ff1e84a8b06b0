//! Racks in memory: what a fuse passes, and what a stop leaves of calls that were not synced.

use crate::calls::{image, look, push_half, tell_call};
use memory_disk::{FuseRack, MemoryRack};
use std::alloc::Global;
use table_words::Told;

fn takes_send<T: Send>(_rack: &T) {}

/// Tells calls on a rack by a fuse that passes `passes` calls: a put, a sync and a get, and then
/// the counts of the rack in memory.
fn tell_fused(rack: MemoryRack, passes: u64, told: &mut Told) {
    takes_send(&rack);
    let mut fuse = FuseRack::new(rack, passes);
    takes_send(&fuse);
    tell_call(&mut fuse, "put 1 0 1 5", told);
    tell_call(&mut fuse, "sync 1", told);
    tell_call(&mut fuse, "get 1 0", told);
    tell_call(&mut fuse.into_rack(), "counts 1", told);
}

/// Tells what a fuse passes on a new rack of 64 pages.
pub fn fuse(alloc: Global, passes: u64, told: &mut Told) {
    match MemoryRack::new(alloc, &[64], &[], true) {
        Ok(rack) => tell_fused(rack, passes, told),
        Err(_) => told.check(false),
    }
}

/// Tells what the first half of block 0 of each of eight volumes is full of.
fn tell_volumes(rack: &mut MemoryRack, told: &mut Told) {
    told.push(":");
    for vol in 1..9 {
        push_half(told, look(rack, vol, 0)[0]);
    }
}

/// Tells what the first half of block 0 of each of eight volumes is full of after a stop.
pub fn stop(rack: &MemoryRack, alloc: Global, call: u64, pick: u64, told: &mut Told) {
    match image(rack, alloc, call, pick) {
        Ok(mut left) => tell_volumes(&mut left, told),
        Err(_) => told.check(false),
    }
}
