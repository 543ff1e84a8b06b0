//! A rack in memory that counts its calls by what they are for, and has to hold few pages.
ghost use Rattle.std.specs.Prelude.{◌≡◌, ◌+◌, ◌*◌, ◌%◌, ◌<◌, ◌≤◌};

use log_recovery::limits::{BLOCK_BYTES, BLOCKS_PER_PAGE, PAGE_BYTES};
use log_recovery::{Failed, Rack, VolIx};
use memory_disk::MemoryRack;
use std::alloc::Global;

/// How often a rack was called: writes of more than a block, writes of a block, and syncs of
/// volumes 1 and 2.
#[derive(Clone, Copy)]
pub struct Counts {
    pub pages: u32,
    pub gates: u32,
    pub syncs: [u32; 2],
}

/// No call.
pub const NO_CALLS: Counts = Counts {
    pages: 0,
    gates: 0,
    syncs: [0, 0],
};

impl Counts {
    /// After one more write of so many bytes.
    fn after_write(self, size: usize) -> Counts {
        if size == 512 {
            Counts {
                gates: self.gates.saturating_add(1),
                ..self
            }
        } else {
            Counts {
                pages: self.pages.saturating_add(1),
                ..self
            }
        }
    }

    /// After one more sync of a volume.
    fn after_sync(self, vol: VolIx) -> Counts {
        let [first, second] = self.syncs;
        let syncs = if vol.number() == 1 {
            [first.saturating_add(1), second]
        } else {
            [first, second.saturating_add(1)]
        };
        Counts { syncs, ..self }
    }
}

/// Where bytes from a block on lie on a volume of so many pages, and how many of them do: page p
/// lies at the remainder of p, and the bytes end with their page.
fn bytes_on(pages: u32, block: u32, size: usize) -> (u32, usize)
    requires pages { 0 < pages }
    requires whole { size % 512 ≡ 0 }
    requires some { 0 < size }
    ensures whole { result.1 % 512 ≡ 0 }
    ensures some { 0 < result.1 }
    ensures most { result.1 ≤ size }
    ensures within { 512 * result.0 + result.1 ≤ 8192 * pages }
{
    let in_page = block % BLOCKS_PER_PAGE;
    let place = BLOCKS_PER_PAGE * (block / BLOCKS_PER_PAGE % pages) + in_page;
    let left = PAGE_BYTES - BLOCK_BYTES * in_page as usize;
    (place, size.min(left))
}

/// A rack that tells nothing of what it holds, so that its callers owe nothing of that, and how it
/// was called. A volume has `fold` times the pages of the one in memory, of which each holds that
/// many: so an image of it is small. The pages that are used must not share one.
#[derive(Drop)]
pub struct CountRack {
    pub rack: MemoryRack,
    pub fold: u32,
    pub counts: Counts,
    changes: Vec<u64>,
}

impl CountRack {
    /// A rack of volumes of these sizes, 0 for one that it does not have, of which each page in
    /// memory holds `fold`, and on which these calls fail.
    pub fn new(alloc: Global, sizes: &[u32; 3], fold: u32, fails: &[u64]) -> Option<CountRack> {
        let fold = fold.max(1);
        let all = [sizes[0] / fold, sizes[1] / fold, sizes[2] / fold];
        let made = if all[2] == 0 {
            MemoryRack::new(alloc, &all[..2], fails, true)
        } else {
            MemoryRack::new(alloc, &all, fails, true)
        };
        match made {
            Ok(rack) => Some(CountRack {
                rack,
                fold,
                counts: NO_CALLS,
                changes: Vec::new(alloc),
            }),
            Err(_) => None,
        }
    }

    /// A rack that starts again on what a stop right after a call leaves. None if that call was not
    /// made, or memory ran out.
    pub fn image(&self, alloc: Global, call: u64, pick: u64) -> Option<CountRack> {
        if !self.rack.keeps_calls() || call > self.rack.calls() {
            return None;
        }
        match self.rack.image(alloc, call, pick) {
            Ok(rack) => Some(CountRack {
                rack,
                fold: self.fold,
                counts: NO_CALLS,
                changes: Vec::new(alloc),
            }),
            Err(_) => None,
        }
    }

    /// Whether a call was a write or a sync. A stop right after a read leaves what one before it
    /// does.
    pub fn is_change(&self, call: u64) -> bool {
        self.changes.contains(&call)
    }
}

impl Rack for CountRack {
    ghost use Rattle.log_tables.specs.Untold.{untold_disk};

    ghost disk = { untold_disk };

    ghost holds_bytes = { λ counted told. Prim.cc };

    ghost pends_within = { λ counted told. Prim.cc };

    fn volumes(&self) -> u32 {
        self.rack.volumes()
    }

    fn pages(&self, vol: VolIx) -> u32 {
        self.rack.pages(vol).saturating_mul(self.fold)
    }

    fn read(&mut self, vol: VolIx, block: u32, out: &mut [u8]) -> Result<(), Failed> {
        let (place, size) = bytes_on(self.rack.pages(vol), block, out.len());
        self.rack.read(vol, place, &mut out[..size])
    }

    fn write(&mut self, vol: VolIx, block: u32, bytes: &[u8]) -> Result<(), Failed> {
        self.counts = self.counts.after_write(bytes.len());
        keep_call(&mut self.changes, self.rack.calls());
        let (place, size) = bytes_on(self.rack.pages(vol), block, bytes.len());
        self.rack.write(vol, place, &bytes[..size])
    }

    fn sync(&mut self, vol: VolIx) -> Result<(), Failed> {
        self.counts = self.counts.after_sync(vol);
        keep_call(&mut self.changes, self.rack.calls());
        self.rack.sync(vol)
    }

    fn calls(&self) -> u64 {
        self.rack.calls()
    }

    fn read_faults(&self, vol: VolIx) -> u64 {
        self.rack.read_faults(vol)
    }

    fn write_faults(&self, vol: VolIx) -> u64 {
        self.rack.write_faults(vol)
    }
}

/// Keeps the number of the next call, after so many.
fn keep_call(changes: &mut Vec<u64>, calls: u64) {
    let _ = changes.push(calls.saturating_add(1));
}
