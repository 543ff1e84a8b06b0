//! A volume in memory.
ghost use Rattle.std.specs.Prelude.{
  ◌≡◌,
  ◌≢◌,
  ℕ,
  ◌+◌,
  ◌*◌,
  ◌/◌,
  ◌%◌,
  ◌<◌,
  ◌≤◌,
  false,
  All,
  length,
  vec_len,
  IfOk,
};

use crate::draws::Draws;
use crate::marks::Marks;
use std::alloc::Global;
use volume_disk::OutOfMemory;
use volume_disk::limits::{BLOCK_BYTES, BLOCKS_PER_PAGE, PAGE_BYTES};

/// A volume's bytes, and which of its blocks of 512 bytes were written since the last sync.
#[derive(Drop)]
pub struct Volume {
    pub pages: u32,
    pub bytes: Vec<u8>,
    pub unsynced: Marks,
    pub read_faults: u64,
    pub write_faults: u64,
    ghost whole: { vec_len bytes ≡ 8192 * pages },
    ghost marked: { vec_len unsynced.words ≡ pages },
    ghost fit: { All (λ byte. byte < 256) bytes.items },
}

impl Volume {
    ghost use Rattle.memory_disk.specs.Moment.{overlaid, marked};
    ghost use Rattle.memory_disk.specs.Volume.{byte_of, mark_of};

    /// A volume of zeros.
    pub fn zeros(alloc: Global, pages: u32) -> Result<Self, OutOfMemory>
        ensures bytes { IfOk result (λ volume. byte_of volume ≡ (λ _. 0)) }
        ensures marks { IfOk result (λ volume. mark_of volume ≡ (λ _. false)) }
        ensures pages { IfOk result (λ volume. volume.pages ≡ pages) }
        ensures read_faults { IfOk result (λ volume. volume.read_faults ≡ 0) }
        ensures write_faults { IfOk result (λ volume. volume.write_faults ≡ 0) }
    {
        let bytes = vec![in alloc; 0; PAGE_BYTES * pages as usize]?;
        let unsynced = Marks::none(alloc, pages)?;
        Ok(Volume {
            pages,
            bytes,
            unsynced,
            read_faults: 0,
            write_faults: 0,
        })
    }

    /// A volume with the same bytes, all of them synced, and with no fault counted.
    pub fn copy(&self, alloc: Global) -> Result<Self, OutOfMemory>
        ensures bytes { IfOk result (λ volume. byte_of volume ≡ byte_of self.now) }
        ensures marks { IfOk result (λ volume. mark_of volume ≡ (λ _. false)) }
        ensures pages { IfOk result (λ volume. volume.pages ≡ self.now.pages) }
        ensures read_faults { IfOk result (λ volume. volume.read_faults ≡ 0) }
        ensures write_faults { IfOk result (λ volume. volume.write_faults ≡ 0) }
    {
        let bytes = self.bytes.to_vec(alloc)?;
        let unsynced = Marks::none(alloc, self.pages)?;
        Ok(Volume {
            pages: self.pages,
            bytes,
            unsynced,
            read_faults: 0,
            write_faults: 0,
        })
    }

    /// Puts whole blocks from a block on, and marks them.
    pub fn overlay(&mut self, block: u32, bytes: &[u8])
        requires whole { length bytes.now % 512 ≡ 0 }
        requires within { 512 * block + length bytes.now ≤ 8192 * self.old.pages }
        ensures bytes { byte_of self.new ≡ overlaid (byte_of self.old) (512 * block) bytes.now }
        ensures marks { let n = length bytes.now in
            mark_of self.new ≡ marked (mark_of self.old) (512 * block) n }
        ensures pages { self.new.pages ≡ self.old.pages }
        ensures read_faults { self.new.read_faults ≡ self.old.read_faults }
        ensures write_faults { self.new.write_faults ≡ self.old.write_faults }
    {
        self.tear(block, bytes.len());
        let at = BLOCK_BYTES * block as usize;
        let end = at + bytes.len();
        self.bytes[at..end].copy_from_slice(bytes);
    }

    /// Marks the blocks of `size` bytes from a block on.
    pub fn tear(&mut self, block: u32, size: usize)
        requires whole { size % 512 ≡ 0 }
        requires within { 512 * block + size ≤ 8192 * self.old.pages }
        ensures bytes { self.new.bytes ≡ self.old.bytes }
        ensures marks { mark_of self.new ≡ marked (mark_of self.old) (512 * block) size }
        ensures pages { self.new.pages ≡ self.old.pages }
        ensures read_faults { self.new.read_faults ≡ self.old.read_faults }
        ensures write_faults { self.new.write_faults ≡ self.old.write_faults }
    {
        let first = block as usize;
        self.unsynced.set_run(first, first + size / BLOCK_BYTES);
    }

    /// Takes all marks away.
    pub fn sync(&mut self)
        ensures bytes { self.new.bytes ≡ self.old.bytes }
        ensures marks { mark_of self.new ≡ (λ _. false) }
        ensures pages { self.new.pages ≡ self.old.pages }
        ensures read_faults { self.new.read_faults ≡ self.old.read_faults }
        ensures write_faults { self.new.write_faults ≡ self.old.write_faults }
    {
        self.unsynced.clear();
    }

    /// Leaves what these draws leave of a call that put whole blocks from a block on.
    pub fn draw(&mut self, block: u32, bytes: &[u8], draws: Draws)
        requires { 512 * block + length bytes.now ≤ 8192 * self.old.pages }
        ensures { self.new.pages ≡ self.old.pages }
    {
        let first = block as usize;
        for i in 0..bytes.len() / BLOCK_BYTES {
            let at = BLOCK_BYTES * (first + i);
            let from = BLOCK_BYTES * i;
            draws.fate(first + i).leave(
                &mut self.bytes[at..at + BLOCK_BYTES],
                &bytes[from..from + BLOCK_BYTES],
            );
        }
    }

    /// Takes the bytes of another volume of as many pages.
    pub fn take_bytes(&mut self, other: &Volume)
        requires { other.now.pages ≡ self.old.pages }
        ensures { self.new.pages ≡ self.old.pages }
    {
        self.bytes.copy_from_slice(&other.bytes);
    }

    /// Takes a block of another volume of as many pages.
    fn take_block(&mut self, block: usize, other: &Volume)
        requires block { block < 16 * self.old.pages }
        requires pages { other.now.pages ≡ self.old.pages }
        ensures others { (k : ℕ) → k / 512 ≢ block → byte_of self.new k ≡ byte_of self.old k }
        ensures unsynced { self.new.unsynced ≡ self.old.unsynced }
        ensures pages { self.new.pages ≡ self.old.pages }
        ensures read_faults { self.new.read_faults ≡ self.old.read_faults }
        ensures write_faults { self.new.write_faults ≡ self.old.write_faults }
    {
        let at = BLOCK_BYTES * block;
        let end = at + BLOCK_BYTES;
        self.bytes[at..end].copy_from_slice(&other.bytes[at..end]);
    }

    /// A volume that a stop may leave of this one, with nothing pending and no fault counted. A
    /// block that was not synced is taken from the volume `drawn`.
    pub fn after_stop(&self, alloc: Global, drawn: &Volume) -> Result<Self, OutOfMemory>
        requires { drawn.now.pages ≡ self.now.pages }
        ensures left { IfOk result (λ volume. (k : ℕ)
            → mark_of self.now k ≡ false → byte_of volume k ≡ byte_of self.now k) }
        ensures marks { IfOk result (λ volume. mark_of volume ≡ (λ _. false)) }
        ensures pages { IfOk result (λ volume. volume.pages ≡ self.now.pages) }
        ensures read_faults { IfOk result (λ volume. volume.read_faults ≡ 0) }
        ensures write_faults { IfOk result (λ volume. volume.write_faults ≡ 0) }
    {
        let mut left = self.copy(alloc)?;
        for block in 0..BLOCKS_PER_PAGE as usize * self.pages as usize {
            if self.unsynced.is_set(block) {
                left.take_block(block, drawn);
            }
        }
        Ok(left)
    }
}
