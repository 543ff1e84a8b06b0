//! The cache.
ghost use Rattle.std.specs.Prelude.{◌≡◌, ◌+◌, ◌^◌, ◌≤◌, ◌<◌, ℕ, None, Some, [], IfErr, IfOk, IsNone, IsSome, MatchOption, OnErr, OnOk, is_some, length, vec_capacity, vec_len};
ghost use Rattle.std.specs.Borrow.{sem};
ghost use Rattle.std.specs.Option.{option_copied, option_map};
ghost use Rattle.page_cache.specs.Entries.{last_dirty};
ghost use Rattle.page_cache.specs.Frames.{IsFirst, cleaned, groups, later_of, no_frames};
ghost use Rattle.page_cache.specs.Queues.{IsSound};

use crate::frame::{Frame, later_of};
use crate::frames::{
    FRAMES, Kept, add_frame, bring_clean_to_end, clean_frame, drop_frame, set_frame, use_frame,
};
use crate::queue::Queue;
use lru::LruCache;
use page_store::{Home, OutOfMemory, Page, home_number};
use std::alloc::Global;
use std::num::NonZeroUsize;

/// Pages kept in memory by their homes, at most 1,024.
#[derive(Drop)]
pub struct PageCache {
    frames: Kept,
    dirty: Queue,
    ghost cap: { frames.cap ≡ 1024 },
    ghost sound: { IsSound frames.entries dirty.places.items (vec_len dirty.places)
        (vec_capacity dirty.places) },
}

impl PageCache {
    ghost use Rattle.page_cache.specs.Cache.{Changes, KeepsAll, Replaces, dirty_of, frames_of, kept_of, order_of};
    ghost use Rattle.page_cache.specs.Lending.{EndsUsed};

    /// A cache without frames that has room for 1,024.
    pub fn new(alloc: Global) -> Result<PageCache, OutOfMemory>
        ensures frames { IfOk result (λ cache. frames_of cache ≡ no_frames) }
        ensures order { IfOk result (λ cache. order_of cache ≡ []) }
        ensures kept { IfOk result (λ cache. kept_of cache ≡ 0) }
        ensures dirty { IfOk result (λ cache. dirty_of cache ≡ 0) }
    {
        let Some(most) = NonZeroUsize::new(FRAMES) else {
            return Err(OutOfMemory);
        };
        let frames = LruCache::new(alloc, most)?;
        let dirty = Queue::with_room(alloc, FRAMES + 1)?;
        Ok(PageCache { frames, dirty })
    }

    /// The bytes of the frame of a home. Reading it counts as a use. Returns None if and only if
    /// none is kept, and then nothing changes.
    pub fn frame(&mut self, home: Home) -> Option<&Page>
        ensures* ends { sem 𝓛 (EndsUsed self.entry home) }
        ensures page { option_copied result
            ≡ option_map (λ (f : Frame). f.page) (frames_of self.old home) }
    {
        self.touch(&home);
        self.page_at(&home)
    }

    /// The group of the log that the frame of a home waits for, if a dirty one is kept. Asking does
    /// not count as a use.
    pub fn waits(&self, home: Home) -> Option<u64>
        ensures { result ≡ groups (frames_of self.now) home }
    {
        self.group_at(&home)
    }

    /// Whether a frame of a home is kept. Asking does not count as a use.
    pub fn is_kept(&self, home: Home) -> bool
        ensures { result ≡ is_some (frames_of self.now home) }
    {
        self.page_at(&home).is_some()
    }

    /// Keeps a clean frame for a home that has none, which counts as a use. If 1,024 frames are
    /// kept, the least recently used clean one goes. If memory runs out nothing changes, and the
    /// page is handed back.
    pub fn keep(&mut self, home: Home, page: Page) -> Result<(), (Page, OutOfMemory)>
        requires new { IsNone (frames_of self.old home) }
        requires clean { dirty_of self.old < 1024 }
        ensures adds { OnOk result (kept_of self.old < 1024
            → Changes home (Some (record { page = page; waits = None })) self.old self.new) }
        ensures replaces { OnOk result (kept_of self.old ≡ 1024
            → Replaces home (record { page = page; waits = None }) self.old self.new) }
        ensures err { OnErr result (KeepsAll self.old self.new) }
        ensures page { IfErr result (λ e. e.0 ≡ page) }
    {
        self.make_room();
        let waits = None;
        match self.add(&home, Frame { page, waits }) {
            Ok(()) => Ok(()),
            Err(page) => Err((page, OutOfMemory)),
        }
    }

    /// Gives the frame of a home these bytes, and makes it dirty, waiting for a group of the log. A
    /// frame that waits for a later group already goes on waiting for that one. A frame that waits
    /// for group 0 waits for no group. This counts as a use of the frame.
    pub fn write(&mut self, home: Home, page: Page, waits: u64)
        requires { IsSome (frames_of self.old home) }
        ensures { let group = later_of (groups (frames_of self.old) home) waits in
            Changes home (Some (record { page = page; waits = Some group })) self.old self.new }
    {
        let number = home_number(&home);
        let old = self.group_at(&home);
        let waits = Some(later_of(old, waits));
        set_frame(&mut self.frames, number, Frame { page, waits });
        self.dirty.move_home(&home, old, waits);
    }

    /// Makes the frame of a home clean: its bytes were written home. This counts as a use.
    pub fn written(&mut self, home: Home)
        requires { IsSome (frames_of self.old home) }
        ensures { Changes home (option_map cleaned (frames_of self.old home)) self.old self.new }
    {
        let number = home_number(&home);
        let old = self.group_at(&home);
        let alone = self.dirty.places.len() == self.frames.len();
        clean_frame(&mut self.frames, number, alone);
        self.dirty.move_home(&home, old, None);
    }

    /// Forgets the frame of a home, and hands its page back.
    pub fn drop_frame(&mut self, home: Home) -> Page
        requires { IsSome (frames_of self.old home) }
        ensures changes { Changes home None self.old self.new }
        ensures page { Some result
            ≡ option_map (λ (f : Frame). f.page) (frames_of self.old home) }
    {
        let number = home_number(&home);
        let old = self.group_at(&home);
        let Some(page) = drop_frame(&mut self.frames, number) else {
            unreachable!()
        };
        self.dirty.move_home(&home, old, None);
        page
    }

    /// The law that the cache keeps at most 1,024 frames, as many as are in the order of use or
    /// dirty, and that some home has a dirty frame if and only if it counts one.
    pub fn frames_are_counted(&self)
        ensures kept { kept_of self.now ≤ 1024 }
        ensures dirty { length (order_of self.now) + dirty_of self.now ≡ kept_of self.now }
        ensures none { dirty_of self.now ≡ 0
            → (home : Home) → groups (frames_of self.now) home ≡ None }
        ensures some { 0 < dirty_of self.now
            → (home : Home) × IsSome (groups (frames_of self.now) home) }
    {
        prove!(self.frames.len() <= FRAMES);
        prove!(self.dirty.first().is_some() || self.dirty.places.is_empty());
    }

    /// How many frames are dirty.
    pub fn dirty(&self) -> u32
        ensures value { result ≡ dirty_of self.now }
        ensures most { result ≤ 1024 }
    {
        prove!(self.frames.len() <= FRAMES);
        self.dirty.places.len() as u32
    }

    /// The home of a dirty frame whose group is durable: the first, in the order of homes, of those
    /// that wait for the oldest group. Returns None if and only if no dirty frame's group is
    /// durable.
    pub fn next_flush(&self, durable: u64) -> Option<Home>
        ensures { MatchOption result
            ((home : Home) (group : ℕ) → groups (frames_of self.now) home ≡ Some group
            → durable < group)
            (λ home. (group : ℕ) × IsFirst (groups (frames_of self.now)) home group
            × (group ≤ durable)) }
    {
        let home = self.dirty.first()?;
        match self.group_at(&home) {
            Some(group) if group <= durable => Some(home),
            _ => None,
        }
    }

    /// The bytes of the frame of a home, if one is kept. Asking does not count as a use.
    pub fn page_at(&self, home: &Home) -> Option<&Page>
        ensures { option_copied result
            ≡ option_map (λ (f : Frame). f.page) (frames_of self.now home.now) }
    {
        match self.frames.peek(&home_number(home)) {
            Some(frame) => Some(&frame.page),
            None => None,
        }
    }

    /// The group that the frame of a home waits for, if a dirty one is kept.
    fn group_at(&self, home: &Home) -> Option<u64>
        ensures value { result ≡ groups (frames_of self.now) home.now }
        ensures width { home.now.page < 2 ^ 32 }
        ensures most { kept_of self.now ≤ 1024 }
    {
        prove!(self.frames.len() <= FRAMES);
        match self.frames.peek(&home_number(home)) {
            Some(frame) => frame.waits,
            None => None,
        }
    }

    /// Uses the frame of a home, if one is kept.
    pub fn touch(&mut self, home: &Home)
        ensures { Changes home.now (frames_of self.old home.now) self.old self.new }
    {
        let number = home_number(home);
        if self.frames.contains(&number) {
            use_frame(&mut self.frames, number);
        }
    }

    /// Keeps the frame of a home that has none. If 1,024 frames are kept, the last one goes, which
    /// is clean. After an error, which hands the page back, nothing has changed.
    fn add(&mut self, home: &Home, frame: Frame) -> Result<(), Page>
        requires new { IsNone (frames_of self.old home.now) }
        requires clean { frame.waits ≡ None }
        requires last { kept_of self.old ≡ 1024 → last_dirty self.old.frames.entries ≡ None }
        ensures adds { OnOk result (kept_of self.old < 1024
            → Changes home.now (Some frame) self.old self.new) }
        ensures replaces { OnOk result (kept_of self.old ≡ 1024
            → Replaces home.now frame self.old self.new) }
        ensures err { OnErr result (KeepsAll self.old self.new) }
        ensures page { IfErr result (λ page. page ≡ frame.page) }
    {
        add_frame(&mut self.frames, home_number(home), frame)
    }

    /// Makes the least recently used clean frame the last one if 1,024 frames are kept.
    fn make_room(&mut self)
        requires { dirty_of self.old < 1024 }
        ensures keeps { KeepsAll self.old self.new }
        ensures last { kept_of self.old ≡ 1024 → last_dirty self.new.frames.entries ≡ None }
    {
        if self.frames.len() == FRAMES {
            bring_clean_to_end(&mut self.frames);
        }
    }
}
