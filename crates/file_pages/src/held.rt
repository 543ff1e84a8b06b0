//! Frames of pages. Some are lent to an event.
ghost use Rattle.std.specs.Prelude.{
  ◌≡◌,
  ◌+◌,
  ◌++◌,
  ◌≤◌,
  ◌<◌,
  ℕ,
  [],
  ◌∷◌,
  IfErr,
  IfOk,
  IsNone,
  IsSome,
  MatchOption,
  None,
  OnErr,
  OnOk,
  Some,
  false,
  is_some,
  vec_capacity,
  vec_len,
};
ghost use Rattle.std.specs.Option.{option_copied, option_map};
ghost use Rattle.page_cache.specs.Cache.{Changes, dirty_of, frames_of, kept_of};
ghost use Rattle.page_cache.specs.Frames.{IsFirst, cleaned, groups, later_of, no_frames};
ghost use Rattle.file_pages.specs.Lent.{
  Adds,
  AreKept,
  Displaces,
  KeepsFrames,
  is_among,
  lent_pages,
  with_home,
};

use crate::homes::{contains, touch_each};
use logged_rack::{Home, OutOfMemory, Page};
use page_cache::{Frame, PageCache};
use std::alloc::Global;

/// The most pages that are lent at once.
const MOST_LENT: usize = 4;

/// Pages of files in frames of a cache, and the homes of up to four that are lent to an event. A
/// page that is lent keeps its frame until it is handed back.
#[derive(Drop)]
pub struct FilePages {
    pub(crate) cache: PageCache,
    lent: Vec<Home>,
    ghost most: { vec_len lent ≤ 4 },
    ghost room: { vec_capacity lent ≡ 4 },
    ghost kept: { AreKept (frames_of cache) lent.items },
}

impl FilePages {
    /// No frames, with room for all that there may be, and nothing lent.
    pub fn new(alloc: Global) -> Result<FilePages, OutOfMemory>
        ensures frames { IfOk result (λ held. frames_of held.cache ≡ no_frames) }
        ensures kept { IfOk result (λ held. kept_of held.cache ≡ 0) }
        ensures dirty { IfOk result (λ held. dirty_of held.cache ≡ 0) }
        ensures lent { IfOk result (λ held. held.lent.items ≡ []) }
    {
        let cache = PageCache::new(alloc)?;
        let lent = Vec::with_capacity(alloc, MOST_LENT)?;
        Ok(FilePages { cache, lent })
    }

    /// Whether a home has a frame. Asking does not count as a use.
    pub fn is_kept(&self, home: Home) -> bool
        ensures { result ≡ is_some (frames_of self.now.cache home) }
    {
        self.cache.is_kept(home)
    }

    /// The group of the log that the frame of a home waits for, if it is dirty.
    pub fn waits(&self, home: Home) -> Option<u64>
        ensures { result ≡ groups (frames_of self.now.cache) home }
    {
        self.cache.waits(home)
    }

    /// How many frames are dirty.
    pub fn dirty(&self) -> u32
        ensures { result ≡ dirty_of self.now.cache }
    {
        self.cache.dirty()
    }

    /// The home of a dirty frame whose group is durable, as the cache says it.
    pub fn next_flush(&self, durable: u64) -> Option<Home>
        ensures { MatchOption result
            ((home : Home) (group : ℕ) → groups (frames_of self.now.cache) home ≡ Some group
            → durable < group)
            (λ home. (group : ℕ) × IsFirst (groups (frames_of self.now.cache)) home group
            × (group ≤ durable)) }
    {
        self.cache.next_flush(durable)
    }

    /// The law that at most 1,024 frames are kept, no fewer than are dirty, that none is dirty if
    /// none is counted, and that each of at most four lent pages has a frame.
    pub fn frames_are_counted(&self)
        ensures kept { kept_of self.now.cache ≤ 1024 }
        ensures dirty { dirty_of self.now.cache ≤ kept_of self.now.cache }
        ensures none { dirty_of self.now.cache ≡ 0
            → (home : Home) → groups (frames_of self.now.cache) home ≡ None }
        ensures lent { AreKept (frames_of self.now.cache) self.now.lent.items }
        ensures few { vec_len self.now.lent ≤ 4 }
    {
        self.cache.frames_are_counted();
    }

    /// How many pages are lent. One that is lent once more counts once.
    pub fn lent(&self) -> usize
        ensures { result ≡ vec_len self.now.lent }
    {
        self.lent.len()
    }

    /// Whether the page of a home is lent.
    pub fn is_lent(&self, home: Home) -> bool
        ensures { result ≡ is_among self.now.lent.items home }
    {
        contains(self.lent.as_slice(), &home)
    }

    /// The page of a home, if it is lent.
    pub fn get(&self, home: Home) -> Option<&Page>
        ensures { option_copied result ≡ lent_pages self.now.cache self.now.lent.items home }
    {
        if self.is_lent(home) {
            self.cache.page_at(&home)
        } else {
            None
        }
    }

    /// Lends the page of a home that has a frame, which counts as a use. At most four pages are
    /// lent at once. To lend one that is lent already changes nothing but the order of use.
    pub fn lend(&mut self, home: Home)
        requires kept { IsSome (frames_of self.old.cache home) }
        requires few { is_among self.old.lent.items home ≡ false → vec_len self.old.lent < 4 }
        ensures keeps { KeepsFrames self.old.cache self.new.cache }
        ensures used { Changes home (frames_of self.old.cache home) self.old.cache self.new.cache }
        ensures lent { self.new.lent.items ≡ with_home self.old.lent.items home }
    {
        self.cache.touch(&home);
        if contains(self.lent.as_slice(), &home) {
            return;
        }
        self.lent.push_reserved(home);
    }

    /// Takes back all pages that are lent. The frames stay.
    pub fn hand_back(&mut self)
        ensures keeps { self.new.cache ≡ self.old.cache }
        ensures lent { self.new.lent.items ≡ [] }
    {
        self.lent.clear();
    }

    /// Keeps a clean frame for a home that has none, and lends its page. If 1,024 frames are kept,
    /// one goes: of those that are clean and not lent, the one that was used least recently. For
    /// this the frames of all that is lent are used first. The page must be the one that stands
    /// there, or be put next: no condition says so. If memory runs out no frame has changed, nothing
    /// more is lent, and the page is handed back.
    pub fn keep(&mut self, home: Home, page: Page) -> Result<(), (Page, OutOfMemory)>
        requires new { IsNone (frames_of self.old.cache home) }
        requires few { vec_len self.old.lent < 4 }
        requires clean { dirty_of self.old.cache ≤ 1020 }
        ensures adds { OnOk result (kept_of self.old.cache < 1024
            → Adds self.old.lent.items home page self.old.cache self.new.cache) }
        ensures displaces { OnOk result (kept_of self.old.cache ≡ 1024
            → Displaces self.old.lent.items home page self.old.cache self.new.cache) }
        ensures lent { OnOk result (self.new.lent.items ≡ self.old.lent.items ++ home ∷ []) }
        ensures keeps { OnErr result (KeepsFrames self.old.cache self.new.cache) }
        ensures err { OnErr result (self.new.lent ≡ self.old.lent) }
        ensures page { IfErr result (λ e. e.0 ≡ page) }
    {
        touch_each(&mut self.cache, self.lent.as_slice());
        self.cache.frames_are_counted();
        let at = &home;
        match self.cache.keep(*at, page) {
            Ok(()) => {
                self.lent.push_reserved(*at);
                Ok(())
            }
            Err(failed) => Err(failed),
        }
    }

    /// Gives the frame of a home these bytes, and makes it dirty, waiting for a group of the log,
    /// or for a later one that it waits for already. A page that is lent has these bytes too.
    pub fn put(&mut self, home: Home, page: Page, group: u64)
        requires { IsSome (frames_of self.old.cache home) }
        ensures sets { let waits = later_of (groups (frames_of self.old.cache) home) group in
            Changes home (Some (record { page = page; waits = Some waits })) self.old.cache
            self.new.cache }
        ensures lent { self.new.lent ≡ self.old.lent }
    {
        self.cache.write(home, page, group);
    }

    /// Makes the frame of a home clean: its bytes were written home.
    pub(crate) fn written(&mut self, home: Home)
        requires { IsSome (frames_of self.old.cache home) }
        ensures sets { Changes home (option_map cleaned (frames_of self.old.cache home))
            self.old.cache self.new.cache }
        ensures lent { self.new.lent ≡ self.old.lent }
    {
        self.cache.written(home);
    }

    /// Forgets the frame of a home, whose page must not be lent, and hands the page back.
    pub fn drop_frame(&mut self, home: Home) -> Page
        requires kept { IsSome (frames_of self.old.cache home) }
        requires free { is_among self.old.lent.items home ≡ false }
        ensures sets { Changes home None self.old.cache self.new.cache }
        ensures page { Some result
            ≡ option_map (λ (f : Frame). f.page) (frames_of self.old.cache home) }
        ensures lent { self.new.lent ≡ self.old.lent }
    {
        self.cache.drop_frame(home)
    }
}
