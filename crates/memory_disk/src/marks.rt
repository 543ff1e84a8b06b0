//! Marks of blocks, one bit each.
ghost use Rattle.std.specs.Prelude.{
  ◌≡◌,
  ◌≢◌,
  ◌*◌,
  ◌<◌,
  ◌≤◌,
  ◌&&◌,
  ◌||◌,
  ℕ,
  true,
  false,
  nat_le,
  nat_lt,
  vec_len,
  IfOk,
};
ghost use Rattle.memory_disk.specs.Marks.{is_marked};

use std::alloc::Global;
use volume_disk::OutOfMemory;

/// Whether each block of a volume is marked: a number for each page, whose lowest bit is the page's
/// first block.
#[derive(Drop)]
pub struct Marks {
    pub words: Vec<u16>,
}

impl Marks {
    /// Marks of the blocks of `pages` pages, none of them set.
    pub fn none(alloc: Global, pages: u32) -> Result<Self, OutOfMemory>
        ensures none { IfOk result (λ marks. (q : ℕ) → is_marked marks.words.items q ≡ false) }
        ensures pages { IfOk result (λ marks. vec_len marks.words ≡ pages) }
    {
        let words = vec![in alloc; 0; pages as usize]?;
        Ok(Marks { words })
    }

    /// Whether a block is marked.
    pub fn is_set(&self, block: usize) -> bool
        requires { block < 16 * vec_len self.now.words }
        ensures { result ≡ is_marked self.now.words.items block }
    {
        self.words[block / 16] >> (block % 16) & 1 == 1
    }

    /// Marks a block.
    fn set(&mut self, block: usize)
        requires { block < 16 * vec_len self.old.words }
        ensures here { is_marked self.new.words.items block ≡ true }
        ensures others { (q : ℕ) → q ≢ block
            → is_marked self.new.words.items q ≡ is_marked self.old.words.items q }
        ensures pages { vec_len self.new.words ≡ vec_len self.old.words }
    {
        self.words[block / 16] |= 1 << (block % 16);
    }

    /// Marks the blocks from `first` up to `end`.
    pub fn set_run(&mut self, first: usize, end: usize)
        requires order { first ≤ end }
        requires within { end ≤ 16 * vec_len self.old.words }
        ensures marks { (q : ℕ) → is_marked self.new.words.items q
            ≡ ((nat_le first q && nat_lt q end) || is_marked self.old.words.items q) }
        ensures pages { vec_len self.new.words ≡ vec_len self.old.words }
    {
        for block in first..end {
            self.set(block);
        }
    }

    /// Takes all marks away.
    pub fn clear(&mut self)
        ensures none { (q : ℕ) → is_marked self.new.words.items q ≡ false }
        ensures pages { vec_len self.new.words ≡ vec_len self.old.words }
    {
        self.words.as_mut_slice().fill(0);
    }
}
