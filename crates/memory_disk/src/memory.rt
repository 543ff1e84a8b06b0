//! A rack whose volumes are in memory. It fails when it is told to, and can tell what a stop may
//! leave.
ghost use Rattle.std.specs.Prelude.{
  ◌≡◌,
  ◌≤◌,
  ◌*◌,
  true,
  false,
  length,
  take,
  All,
  IsTrue,
  IfOk,
  OnErr,
  OnOk,
};
ghost use Rattle.volume_disk.specs.Disk.{
  AreBlocks,
  HasVolume,
  MayPass,
  ReadFailed,
  SyncFailed,
  WriteFailed,
};
ghost use Rattle.memory_disk.specs.Kept.{FitsIn, replayed};
ghost use Rattle.memory_disk.specs.Volume.{moment_of, settled_of, sizes_of};

use crate::kept::{Effect, KeptCall, keep, keep_failed_write, keep_write};
use crate::volumes::Volumes;
use std::alloc::Global;
use volume_disk::{Failed, OutOfMemory, Rack, VolIx};

/// A rack in memory. Contracts tell what it holds and what a stop now may leave. If it keeps its
/// calls, they also tell what a stop after any call since its making may have left. `image` then
/// gives such a rack.
#[derive(Drop)]
pub struct MemoryRack {
    alloc: Global,
    volumes: Volumes,
    calls: u64,
    fails: Vec<u64>,
    keeps: bool,
    first: Volumes,
    kept: Vec<KeptCall>,
    ghost numbered: { All (λ call. call.number ≤ calls) kept.items },
    ghost fit: { All (FitsIn (sizes_of volumes.items.items)) kept.items },
    ghost same_sizes: { IsTrue keeps → sizes_of first.items.items ≡ sizes_of volumes.items.items },
    ghost replays: { IsTrue keeps → replayed (settled_of first.items.items) kept.items calls
        ≡ moment_of volumes.items.items },
}

impl MemoryRack {
    ghost use Rattle.memory_disk.specs.Memory.{memory_disk, started, IsLeft, IsRestarted, IsTorn};

    /// A rack of volumes of zeros, with these sizes in pages, in the order of their numbers. A
    /// domain has at most eight volumes, so only the first eight sizes count. A call fails if its
    /// number, counted from 1, is in `fails`. With `keep_calls` the rack can tell what a stop after
    /// any call may have left, and a write or a sync fails if no memory is left to keep it. Without
    /// it no call takes memory, which no clause says. Fails as out of memory if there is none for
    /// the volumes.
    pub fn new(
        alloc: Global,
        sizes: &[u32],
        fails: &[u64],
        keep_calls: bool,
    ) -> Result<Self, OutOfMemory>
        ensures { IfOk result (λ rack.
            memory_disk rack ≡ started (take 8 sizes.now) (λ _ _. 0) fails.now keep_calls) }
    {
        let sizes = &sizes[..sizes.len().min(8)];
        let volumes = Volumes::zeros(alloc, sizes)?;
        let first = Volumes::zeros(alloc, if keep_calls { sizes } else { &[] })?;
        Ok(MemoryRack {
            alloc,
            volumes,
            calls: 0,
            fails: fails.to_vec(alloc)?,
            keeps: keep_calls,
            first,
            kept: Vec::new(alloc),
        })
    }

    /// Whether the rack keeps its calls, so that it can tell what a stop at an earlier moment may
    /// have left.
    pub fn keeps_calls(&self) -> bool
        ensures { result ≡ (memory_disk self.now).kept }
    {
        self.keeps
    }

    /// A rack that starts again on what a stop right after a call may have left. Call 0 is the
    /// making of this rack. With pick 0 every write up to that call has lasted. Each other pick
    /// gives some image that the model allows, and no clause promises more of it. Tests show that
    /// at pick 1 nothing has lasted that was not synced. Each greater pick draws by itself, for
    /// each call that was not synced, whether it lasted as a whole, in each page and in each block,
    /// and what the halves of a torn block hold: what was written, what was there, or one byte. The
    /// same may last of a write that failed. The rack must keep its calls, and must have made that
    /// one. Fails as out of memory if there is none for the new rack.
    pub fn image(&self, alloc: Global, call: u64, pick: u64) -> Result<MemoryRack, OutOfMemory>
        requires kept { IsTrue (memory_disk self.now).kept }
        requires made { call ≤ (memory_disk self.now).calls }
        ensures { let old = memory_disk self.now in
            IfOk result (λ rack. IsRestarted old call pick (memory_disk rack)) }
    {
        let volumes = self.left(alloc, call, pick)?;
        let first = volumes.copy(alloc)?;
        Ok(MemoryRack {
            alloc,
            volumes,
            calls: 0,
            fails: Vec::new(alloc),
            keeps: true,
            first,
            kept: Vec::new(alloc),
        })
    }

    /// The volumes that a stop right after a call leaves by this pick.
    fn left(&self, alloc: Global, call: u64, pick: u64) -> Result<Volumes, OutOfMemory>
        requires { IsTrue self.now.keeps }
        ensures left { let first = settled_of self.now.first.items.items in
            let was = replayed first self.now.kept.items call in
            IfOk result (λ volumes. IsLeft was pick volumes.items.items) }
        ensures sizes { IfOk result (λ volumes.
            sizes_of volumes.items.items ≡ sizes_of self.now.volumes.items.items) }
    {
        let now = self.replay(alloc, call)?;
        if pick == 0 {
            let written = now.copy(alloc)?;
            return Ok(written);
        }
        let drawn = self.draw(alloc, call, pick)?;
        now.after_stop(alloc, &drawn)
    }

    /// The volumes as they were after a call.
    fn replay(&self, alloc: Global, call: u64) -> Result<Volumes, OutOfMemory>
        requires { IsTrue self.now.keeps }
        ensures moment { let first = settled_of self.now.first.items.items in
            IfOk result (λ volumes.
            moment_of volumes.items.items ≡ replayed first self.now.kept.items call) }
        ensures sizes { IfOk result (λ volumes.
            sizes_of volumes.items.items ≡ sizes_of self.now.volumes.items.items) }
    {
        let mut now = self.first.copy(alloc)?;
        for kept in &self.kept {
            if kept.number <= call {
                now.make(kept);
            }
        }
        Ok(now)
    }

    /// Volumes that hold what a pick draws wherever they were not synced up to a call. At pick 1
    /// that is what was last synced.
    fn draw(&self, alloc: Global, call: u64, pick: u64) -> Result<Volumes, OutOfMemory>
        requires { IsTrue self.now.keeps }
        ensures { IfOk result (λ volumes.
            sizes_of volumes.items.items ≡ sizes_of self.now.volumes.items.items) }
    {
        let mut now = self.first.copy(alloc)?;
        let mut drawn = self.first.copy(alloc)?;
        for kept in &self.kept {
            if kept.number <= call {
                now.make(kept);
                drawn.draw(kept, &now, pick);
            }
        }
        Ok(drawn)
    }

    /// Whether the next call must fail.
    pub(crate) fn must_fail(&self) -> bool
        ensures passes { result ≡ false → MayPass (memory_disk self.now) }
        ensures fails { result ≡ true → ¬ MayPass (memory_disk self.now) }
    {
        self.calls == u64::MAX || self.fails.contains(&(self.calls + 1))
    }

    /// Makes a read that fails.
    pub(crate) fn fail_read(&mut self, vol: VolIx)
        requires { HasVolume (memory_disk self.old) vol }
        ensures { ReadFailed (memory_disk self.old) (memory_disk self.new) vol }
    {
        self.volumes.count_read_fault(vol);
        self.calls = self.calls.saturating_add(1);
    }

    /// Makes a write or a sync that fails and tears nothing.
    pub(crate) fn fail_untorn(&mut self, vol: VolIx)
        requires { HasVolume (memory_disk self.old) vol }
        ensures { SyncFailed (memory_disk self.old) (memory_disk self.new) vol }
    {
        self.volumes.count_write_fault(vol);
        self.calls = self.calls.saturating_add(1);
    }

    /// Makes a write that fails and tears its range, unless there is no number left, or no memory
    /// to keep the call. Then it tears nothing. If calls are kept, only tests show that it tears.
    pub(crate) fn fail_write(&mut self, vol: VolIx, block: u32, bytes: &[u8])
        requires { AreBlocks (memory_disk self.old) vol block (length bytes.now) }
        ensures failed { let n = length bytes.now in
            WriteFailed (memory_disk self.old) (memory_disk self.new) vol (512 * block) n }
        ensures tears { let n = length bytes.now in (memory_disk self.old).kept ≡ false
            → IsTorn (memory_disk self.old) (memory_disk self.new) vol (512 * block) n }
    {
        if self.calls == u64::MAX {
            return self.fail_untorn(vol);
        }
        let number = self.calls + 1;
        if keep_failed_write(
            self.alloc,
            self.keeps,
            &mut self.kept,
            number,
            vol,
            block,
            bytes,
        )
        .is_err()
        {
            return self.fail_untorn(vol);
        }
        self.volumes.tear(vol, block, bytes.len());
        self.volumes.count_write_fault(vol);
        self.calls = number;
    }
}

/// A call fails only if it must, or if calls are kept and no memory is left to keep it, and a write
/// that fails tears its range. The clauses `spared` and `tears` say this of a rack that keeps no
/// calls.
impl Rack for MemoryRack {
    ghost use Rattle.volume_disk.specs.Disk.{ReadDone, SyncDone, WriteDone};
    ghost use Rattle.memory_disk.specs.Memory.{memory_disk, IsTorn};
    ghost use Rattle.memory_disk.specs.Bytes.{are_bytes, are_within};

    ghost disk = { memory_disk };

    ghost holds_bytes = { λ rack told. are_bytes rack.volumes.items.items };

    ghost pends_within = { λ rack told. are_within rack.volumes };

    fn volumes(&self) -> u32 {
        self.volumes.items.len() as u32
    }

    fn pages(&self, vol: VolIx) -> u32 {
        self.volumes.pages(vol)
    }

    fn read(&mut self, vol: VolIx, block: u32, out: &mut [u8]) -> Result<(), Failed>
        requires { AreBlocks (memory_disk self.old) vol block (length out.old) }
        ensures done { let n = length out.old in OnOk result
            (ReadDone (memory_disk self.old) (memory_disk self.new) vol (512 * block) n out.new) }
        ensures failed { OnErr result
            (ReadFailed (memory_disk self.old) (memory_disk self.new) vol) }
        ensures spared { OnErr result (¬ MayPass (memory_disk self.old)) }
    {
        if self.must_fail() {
            self.fail_read(vol);
            return Err(Failed);
        }
        self.volumes.read(vol, block, out);
        self.calls += 1;
        Ok(())
    }

    fn write(&mut self, vol: VolIx, block: u32, bytes: &[u8]) -> Result<(), Failed>
        requires { AreBlocks (memory_disk self.old) vol block (length bytes.now) }
        ensures done { OnOk result
            (WriteDone (memory_disk self.old) (memory_disk self.new) vol (512 * block) bytes.now) }
        ensures failed { let n = length bytes.now in OnErr result
            (WriteFailed (memory_disk self.old) (memory_disk self.new) vol (512 * block) n) }
        ensures spared { OnErr result
            ((memory_disk self.old).kept ≡ false → ¬ MayPass (memory_disk self.old)) }
        ensures tears { let n = length bytes.now in
            OnErr result ((memory_disk self.old).kept ≡ false
            → IsTorn (memory_disk self.old) (memory_disk self.new) vol (512 * block) n) }
    {
        if self.must_fail() {
            self.fail_write(vol, block, bytes);
            return Err(Failed);
        }
        let number = self.calls + 1;
        if keep_write(
            self.alloc,
            self.keeps,
            &mut self.kept,
            number,
            vol,
            block,
            bytes,
        )
        .is_err()
        {
            self.fail_untorn(vol);
            return Err(Failed);
        }
        self.volumes.put(vol, block, bytes);
        self.calls = number;
        Ok(())
    }

    fn sync(&mut self, vol: VolIx) -> Result<(), Failed>
        requires { HasVolume (memory_disk self.old) vol }
        ensures done { OnOk result (SyncDone (memory_disk self.old) (memory_disk self.new) vol) }
        ensures failed { OnErr result
            (SyncFailed (memory_disk self.old) (memory_disk self.new) vol) }
        ensures spared { OnErr result
            ((memory_disk self.old).kept ≡ false → ¬ MayPass (memory_disk self.old)) }
    {
        if self.must_fail() {
            self.fail_untorn(vol);
            return Err(Failed);
        }
        let number = self.calls + 1;
        if keep(self.keeps, &mut self.kept, number, vol, Effect::Synced).is_err() {
            self.fail_untorn(vol);
            return Err(Failed);
        }
        self.volumes.sync(vol);
        self.calls = number;
        Ok(())
    }

    fn calls(&self) -> u64 {
        self.calls
    }

    fn read_faults(&self, vol: VolIx) -> u64 {
        self.volumes.read_faults(vol)
    }

    fn write_faults(&self, vol: VolIx) -> u64 {
        self.volumes.write_faults(vol)
    }
}
