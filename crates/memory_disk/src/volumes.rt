//! The volumes of a rack in memory, by their numbers.
ghost use Rattle.std.specs.Prelude.{◌≡◌, ◌+◌, ◌*◌, ◌%◌, ◌≤◌, length, vec_len, IfOk};
ghost use Rattle.volume_disk.specs.Disk.{MayLeave, raised_at, volume_pages};
ghost use Rattle.volume_disk.specs.Image.{bytes_at};
ghost use Rattle.memory_disk.specs.Kept.{FitsIn, effect_on};
ghost use Rattle.memory_disk.specs.Moment.{blank, written, torn, synced};
ghost use Rattle.memory_disk.specs.Volume.{
  moment_of,
  read_faults_of,
  settled_of,
  sizes_of,
  write_faults_of,
  SameCounts,
};

use crate::draws::Draws;
use crate::kept::{Effect, KeptCall};
use crate::volume::Volume;
use std::alloc::Global;
use volume_disk::limits::BLOCK_BYTES;
use volume_disk::{OutOfMemory, VolIx};

/// Up to eight volumes, numbered from 1.
#[derive(Drop)]
pub struct Volumes {
    pub items: Vec<Volume>,
    ghost few: { vec_len items ≤ 8 },
}

impl Volumes {
    /// Volumes of zeros, with these sizes in pages.
    pub fn zeros(alloc: Global, sizes: &[u32]) -> Result<Self, OutOfMemory>
        requires { length sizes.now ≤ 8 }
        ensures moment { IfOk result (λ volumes. moment_of volumes.items.items ≡ blank) }
        ensures sizes { IfOk result (λ volumes. sizes_of volumes.items.items ≡ sizes.now) }
        ensures read_faults { IfOk result (λ volumes.
            read_faults_of volumes.items.items ≡ (λ _. 0)) }
        ensures write_faults { IfOk result (λ volumes.
            write_faults_of volumes.items.items ≡ (λ _. 0)) }
    {
        let mut items = Vec::new(alloc);
        for pages in sizes {
            items.push(Volume::zeros(alloc, *pages)?)?;
        }
        Ok(Volumes { items })
    }

    /// The pages of a volume, or 0 if there is no such volume.
    pub fn pages(&self, vol: VolIx) -> u32
        ensures { result ≡ volume_pages (sizes_of self.now.items.items) vol }
    {
        match self.items.get(vol.index()) {
            Some(volume) => volume.pages,
            None => 0,
        }
    }

    /// How many reads of a volume failed.
    pub fn read_faults(&self, vol: VolIx) -> u64
        ensures { result ≡ read_faults_of self.now.items.items vol }
    {
        match self.items.get(vol.index()) {
            Some(volume) => volume.read_faults,
            None => 0,
        }
    }

    /// How many writes and syncs of a volume failed.
    pub fn write_faults(&self, vol: VolIx) -> u64
        ensures { result ≡ write_faults_of self.now.items.items vol }
    {
        match self.items.get(vol.index()) {
            Some(volume) => volume.write_faults,
            None => 0,
        }
    }

    /// Reads whole blocks of a volume from a block on.
    pub fn read(&self, vol: VolIx, block: u32, out: &mut [u8])
        requires in_rack { vol ≤ length self.now.items.items }
        requires within { let pages = volume_pages (sizes_of self.now.items.items) vol in
            512 * block + length out.old ≤ 8192 * pages }
        ensures { let held = (moment_of self.now.items.items).contents in
            out.new ≡ bytes_at held vol (512 * block) (length out.old) }
    {
        let at = BLOCK_BYTES * block as usize;
        let volume = &self.items[vol.index()];
        out.copy_from_slice(&volume.bytes[at..at + out.len()]);
    }

    /// Puts whole blocks on a volume from a block on.
    pub fn put(&mut self, vol: VolIx, block: u32, bytes: &[u8])
        requires in_rack { vol ≤ length self.old.items.items }
        requires whole { length bytes.now % 512 ≡ 0 }
        requires within { let pages = volume_pages (sizes_of self.old.items.items) vol in
            512 * block + length bytes.now ≤ 8192 * pages }
        ensures moment { let was = moment_of self.old.items.items in
            moment_of self.new.items.items ≡ written was vol (512 * block) bytes.now }
        ensures counts { SameCounts self.old.items.items self.new.items.items }
    {
        self.items[vol.index()].overlay(block, bytes);
    }

    /// Marks the blocks of `size` bytes of a volume as not synced.
    pub fn tear(&mut self, vol: VolIx, block: u32, size: usize)
        requires in_rack { vol ≤ length self.old.items.items }
        requires whole { size % 512 ≡ 0 }
        requires within { let pages = volume_pages (sizes_of self.old.items.items) vol in
            512 * block + size ≤ 8192 * pages }
        ensures moment { let was = moment_of self.old.items.items in
            moment_of self.new.items.items ≡ torn was vol (512 * block) size }
        ensures counts { SameCounts self.old.items.items self.new.items.items }
    {
        self.items[vol.index()].tear(block, size);
    }

    /// Syncs a volume.
    pub fn sync(&mut self, vol: VolIx)
        requires in_rack { vol ≤ length self.old.items.items }
        ensures moment { let was = moment_of self.old.items.items in
            moment_of self.new.items.items ≡ synced was vol }
        ensures counts { SameCounts self.old.items.items self.new.items.items }
    {
        self.items[vol.index()].sync();
    }

    /// Counts a read of a volume that failed.
    pub fn count_read_fault(&mut self, vol: VolIx)
        requires in_rack { vol ≤ length self.old.items.items }
        ensures moment { moment_of self.new.items.items ≡ moment_of self.old.items.items }
        ensures sizes { sizes_of self.new.items.items ≡ sizes_of self.old.items.items }
        ensures read_faults { let was = read_faults_of self.old.items.items in
            read_faults_of self.new.items.items ≡ raised_at was vol }
        ensures write_faults { let was = write_faults_of self.old.items.items in
            write_faults_of self.new.items.items ≡ was }
    {
        let volume = &mut self.items[vol.index()];
        volume.read_faults = volume.read_faults.saturating_add(1);
    }

    /// Counts a write or a sync of a volume that failed.
    pub fn count_write_fault(&mut self, vol: VolIx)
        requires in_rack { vol ≤ length self.old.items.items }
        ensures moment { moment_of self.new.items.items ≡ moment_of self.old.items.items }
        ensures sizes { sizes_of self.new.items.items ≡ sizes_of self.old.items.items }
        ensures read_faults { let was = read_faults_of self.old.items.items in
            read_faults_of self.new.items.items ≡ was }
        ensures write_faults { let was = write_faults_of self.old.items.items in
            write_faults_of self.new.items.items ≡ raised_at was vol }
    {
        let volume = &mut self.items[vol.index()];
        volume.write_faults = volume.write_faults.saturating_add(1);
    }

    /// Repeats a kept call.
    pub fn make(&mut self, call: &KeptCall)
        requires { FitsIn (sizes_of self.old.items.items) call.now }
        ensures moment { let was = moment_of self.old.items.items in
            moment_of self.new.items.items ≡ effect_on was call.now.vol call.now.effect }
        ensures sizes { sizes_of self.new.items.items ≡ sizes_of self.old.items.items }
    {
        match &call.effect {
            Effect::Wrote { block, bytes } => self.put(call.vol, *block, bytes),
            Effect::Tore { block, bytes } => self.tear(call.vol, *block, bytes.len()),
            Effect::Synced => self.sync(call.vol),
        }
    }

    /// Leaves what these draws leave of a call that put whole blocks on a volume from a block on.
    fn draw_blocks(&mut self, vol: VolIx, block: u32, bytes: &[u8], draws: Draws)
        requires in_rack { vol ≤ length self.old.items.items }
        requires within { let pages = volume_pages (sizes_of self.old.items.items) vol in
            512 * block + length bytes.now ≤ 8192 * pages }
        ensures { sizes_of self.new.items.items ≡ sizes_of self.old.items.items }
    {
        self.items[vol.index()].draw(block, bytes, draws);
    }

    /// Takes the bytes of one of the other volumes, which have the same sizes.
    fn take_bytes(&mut self, vol: VolIx, other: &Volumes)
        requires in_rack { vol ≤ length self.old.items.items }
        requires same { sizes_of other.now.items.items ≡ sizes_of self.old.items.items }
        ensures { sizes_of self.new.items.items ≡ sizes_of self.old.items.items }
    {
        let from = &other.items[vol.index()];
        self.items[vol.index()].take_bytes(from);
    }

    /// Leaves what a pick draws of a kept call. If it is a sync, the volume takes the bytes that it
    /// has in `now`. At pick 1 no other call leaves anything.
    pub fn draw(&mut self, call: &KeptCall, now: &Volumes, pick: u64)
        requires fits { FitsIn (sizes_of self.old.items.items) call.now }
        requires same { sizes_of now.now.items.items ≡ sizes_of self.old.items.items }
        ensures { sizes_of self.new.items.items ≡ sizes_of self.old.items.items }
    {
        let draws = Draws::new(pick, call.number);
        match &call.effect {
            Effect::Wrote { block, bytes } => self.draw_blocks(call.vol, *block, bytes, draws),
            Effect::Tore { block, bytes } => self.draw_blocks(call.vol, *block, bytes, draws),
            Effect::Synced => self.take_bytes(call.vol, now),
        }
    }

    /// A copy of these volumes, all synced and with no fault counted.
    pub fn copy(&self, alloc: Global) -> Result<Self, OutOfMemory>
        ensures moment { IfOk result (λ volumes.
            moment_of volumes.items.items ≡ settled_of self.now.items.items) }
        ensures sizes { IfOk result (λ volumes.
            sizes_of volumes.items.items ≡ sizes_of self.now.items.items) }
        ensures read_faults { IfOk result (λ volumes.
            read_faults_of volumes.items.items ≡ (λ _. 0)) }
        ensures write_faults { IfOk result (λ volumes.
            write_faults_of volumes.items.items ≡ (λ _. 0)) }
    {
        let mut items = Vec::new(alloc);
        for volume in &self.items {
            items.push(volume.copy(alloc)?)?;
        }
        Ok(Volumes { items })
    }

    /// Volumes that a stop may leave of these, with nothing pending and no fault counted. A block
    /// that was not synced is taken from the volumes `drawn`, which have the same sizes.
    pub fn after_stop(&self, alloc: Global, drawn: &Volumes) -> Result<Self, OutOfMemory>
        requires { sizes_of drawn.now.items.items ≡ sizes_of self.now.items.items }
        ensures left { let was = moment_of self.now.items.items in IfOk result (λ volumes.
            MayLeave was (settled_of volumes.items.items).contents) }
        ensures settled { IfOk result (λ volumes.
            moment_of volumes.items.items ≡ settled_of volumes.items.items) }
        ensures sizes { IfOk result (λ volumes.
            sizes_of volumes.items.items ≡ sizes_of self.now.items.items) }
        ensures read_faults { IfOk result (λ volumes.
            read_faults_of volumes.items.items ≡ (λ _. 0)) }
        ensures write_faults { IfOk result (λ volumes.
            write_faults_of volumes.items.items ≡ (λ _. 0)) }
    {
        let mut items = Vec::new(alloc);
        for i in 0..self.items.len() {
            let volume = &self.items[i];
            items.push(volume.after_stop(alloc, &drawn.items[i])?)?;
        }
        Ok(Volumes { items })
    }
}
