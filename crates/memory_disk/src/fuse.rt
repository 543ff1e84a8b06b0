//! A rack in memory that fails from some call on.
ghost use Rattle.std.specs.Prelude.{◌≡◌, ◌+◌, ◌-◌, ◌^◌, min};

use crate::MemoryRack;
use volume_disk::{Failed, Rack, VolIx};

/// A rack that passes a number of calls on to a rack in memory, which may itself fail them, and
/// fails every call after them. A write that it fails tears its range as a write that the rack in
/// memory fails does. Only tests show this, for both.
#[derive(Drop)]
pub struct FuseRack {
    rack: MemoryRack,
    last: u64,
}

impl FuseRack {
    ghost use Rattle.memory_disk.specs.Fuse.{inner_of, last_of};
    ghost use Rattle.memory_disk.specs.Memory.{memory_disk};

    /// Passes on `passes` more calls of the rack, as far as its clock goes.
    pub fn new(rack: MemoryRack, passes: u64) -> FuseRack
        ensures inner { inner_of result ≡ rack }
        ensures last { last_of result ≡ min ((memory_disk rack).calls + passes) (2 ^ 64 - 1) }
    {
        let last = rack.calls().saturating_add(passes);
        FuseRack { rack, last }
    }

    /// Gives the rack in memory back.
    pub fn into_rack(self) -> MemoryRack
        ensures { result ≡ inner_of self }
    {
        let FuseRack { rack, last: _ } = self;
        rack
    }
}

impl Rack for FuseRack {
    ghost use Rattle.memory_disk.specs.Fuse.{fuse_disk};
    ghost use Rattle.memory_disk.specs.Bytes.{are_bytes, are_within};

    ghost disk = { fuse_disk };

    ghost holds_bytes = { λ fuse told. are_bytes fuse.rack.volumes.items.items };

    ghost pends_within = { λ fuse told. are_within fuse.rack.volumes };

    fn volumes(&self) -> u32 {
        self.rack.volumes()
    }

    fn pages(&self, vol: VolIx) -> u32 {
        self.rack.pages(vol)
    }

    fn read(&mut self, vol: VolIx, block: u32, out: &mut [u8]) -> Result<(), Failed> {
        if self.rack.calls() >= self.last {
            self.rack.fail_read(vol);
            return Err(Failed);
        }
        self.rack.read(vol, block, out)
    }

    fn write(&mut self, vol: VolIx, block: u32, bytes: &[u8]) -> Result<(), Failed> {
        if self.rack.calls() >= self.last {
            self.rack.fail_write(vol, block, bytes);
            return Err(Failed);
        }
        self.rack.write(vol, block, bytes)
    }

    fn sync(&mut self, vol: VolIx) -> Result<(), Failed> {
        if self.rack.calls() >= self.last {
            self.rack.fail_untorn(vol);
            return Err(Failed);
        }
        self.rack.sync(vol)
    }

    fn calls(&self) -> u64 {
        self.rack.calls()
    }

    fn read_faults(&self, vol: VolIx) -> u64 {
        self.rack.read_faults(vol)
    }

    fn write_faults(&self, vol: VolIx) -> u64 {
        self.rack.write_faults(vol)
    }
}
