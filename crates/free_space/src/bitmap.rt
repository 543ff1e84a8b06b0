//! A volume's bitmap.
ghost use Rattle.std.specs.Prelude.{◌≡◌, ℕ, true, ◌+◌, ◌*◌, ◌<◌, ◌≤◌, IfOk};
ghost use Rattle.std.specs.FinSet.{empty, contains, insert, remove, len};
ghost use Rattle.free_space.specs.VolumePages.{IsFirstRun, IsLongestRun};
ghost use Rattle.free_space.specs.Bits.{ShowsMap, bitmap_bytes};

use crate::walk;
use crate::word::blank_byte;
use sorted_sets::limits::PAGE_BYTES;
use sorted_sets::{OutOfMemory, Version};
use std::alloc::Global;
use std::marker::Model;

/// Which pages of a volume are used. Contracts see the number of its pages and the set of the used
/// ones. It takes one bit for each page, and keeps the number of free ones.
#[derive(Debug, Drop)]
pub struct Bitmap {
    bytes: Vec<u8>,
    pages: u32,
    free: u32,
}

impl Model for Bitmap {
    ghost use Rattle.free_space.specs.VolumePages.{VolumePages, volume_pages_code};
    ghost use Rattle.free_space.specs.Bits.{used_below, IsKept};

    ghost Value = { VolumePages };

    ghost coded = { volume_pages_code };

    ghost view = { λ b. record { pages = b.pages; used = used_below b.bytes.items b.pages } };

    ghost invariant = { λ b. IsKept b.bytes.items b.pages b.free };
}

/// The bytes of a bitmap of `pages` pages.
fn bitmap_len(pages: u32) -> usize
    ensures value { result ≡ bitmap_bytes pages }
    ensures covers { pages ≤ 8 * result }
{
    PAGE_BYTES * Version::Four.bitmap_pages(pages) as usize
}

impl Bitmap {
    /// A bitmap of `pages` pages, none of them used.
    pub fn new(alloc: Global, pages: u32) -> Result<Self, OutOfMemory>
        ensures { IfOk result (λ b. b ≡ record { pages = pages; used = empty }) }
    {
        let len = bitmap_len(pages);
        let mut bytes = Vec::with_capacity(alloc, len)?;
        for k in 0..len {
            bytes.push(blank_byte(pages, k))?;
        }
        Ok(Bitmap {
            bytes,
            pages,
            free: pages,
        })
    }

    /// How many pages the volume has. Used pages lie among them.
    pub fn pages(&self) -> u32
        ensures value { result ≡ self.now.pages }
        ensures within { (p : ℕ) → contains self.now.used p ≡ true → p < result }
    {
        self.pages
    }

    /// Whether the page is used.
    pub fn is_used(&self, page: u32) -> bool
        requires { page < self.now.pages }
        ensures { result ≡ contains self.now.used page }
    {
        self.bytes[page as usize / 8] >> (page % 8) & 1 == 1
    }

    /// Counts the page among the used ones.
    pub fn set(&mut self, page: u32)
        requires { page < self.old.pages }
        ensures { self.new ≡ record self.old { used = insert self.old.used page } }
    {
        if !self.is_used(page) {
            self.bytes[page as usize / 8] |= 1 << (page % 8);
            self.free -= 1;
        }
    }

    /// Counts the page among the free ones.
    pub fn clear(&mut self, page: u32)
        requires { page < self.old.pages }
        ensures { self.new ≡ record self.old { used = remove self.old.used page } }
    {
        if self.is_used(page) {
            self.bytes[page as usize / 8] &= !(1 << (page % 8));
            self.free += 1;
        }
    }

    /// How many pages are free. The number is kept, so a larger volume takes no longer.
    pub fn count_free(&self) -> u32
        ensures { result + len self.now.used ≡ self.now.pages }
    {
        self.free
    }

    /// The first page from which `count` pages in a row are free, all of them the volume's. Returns
    /// None if and only if there is no such run. A run of no pages is at page 0.
    pub fn first_run(&self, count: u32) -> Option<u32>
        ensures { IsFirstRun self.now 0 count result }
    {
        self.first_run_from(0, count)
    }

    /// The first page, at `from` or later, from which `count` pages in a row are free, all of them
    /// the volume's. Returns None if and only if there is no such run. A run of no pages is at
    /// `from`, unless that lies past the end of the volume.
    pub fn first_run_from(&self, from: u32, count: u32) -> Option<u32>
        ensures { IsFirstRun self.now from count result }
    {
        if count == 0 {
            return if from <= self.pages { Some(from) } else { None };
        }
        let words = self.pages.div_ceil(64) as usize;
        let start = walk::first_run(self.bytes.as_slice(), words, from as usize, count as usize)?;
        Some(start as u32)
    }

    /// How many pages the longest run of free pages has.
    pub fn longest_run(&self) -> u32
        ensures { IsLongestRun self.now result }
    {
        let mut short = 0;
        let mut most = self.pages;
        while short < most {
            let middle = most - (most - short) / 2;
            if self.first_run(middle).is_some() {
                short = middle;
            } else {
                most = middle - 1;
            }
        }
        short
    }

    /// The bitmap as a volume keeps it. Bit p mod 8 of byte p / 8, counted from the lowest, is 1 if
    /// and only if page p is used or lies past the last page. It is whole pages of 8,192 bytes, one
    /// for each 65,536 pages of the volume.
    pub fn bytes(&self) -> &[u8]
        ensures { ShowsMap self.now result.now }
    {
        self.bytes.as_slice()
    }
}
