//! The free space of one volume.
ghost use Rattle.std.specs.Prelude.{◌≡◌, ℕ, ◌+◌, ◌-◌, ◌^◌, ◌<◌, ◌≤◌, true, false, nat_eq, [], ◌∷◌, ◌++◌, if◌then◌else◌, length, vec_capacity, Some, IfOk, IfErr, IfSome, IfNone, MatchBool};
ghost use Rattle.std.specs.List.{IsDistinct};
ghost use Rattle.std.specs.FinSet.{contains, len, from_list, union, difference};
ghost use Rattle.free_space.specs.VolumePages.{IsLongestRun};
ghost use Rattle.free_space.specs.VolumeSpace.{added, volume_pages, IsFreePage, AreFreePages, is_waiting, with_page, with_run, without_page, with_open, with_waiting, without_due, without_waiting, still_waiting, keeping, as_kept, with_none_waiting, with_released, is_among};
ghost use Rattle.free_space.specs.Sound.{IsSoundVolume, WasSoundVolume, is_one, without};
ghost use Rattle.free_space.specs.Spaces.{AreTakenOn, AreFreedOn, AreGivenBackOn};

use crate::{Bitmap, PageUse, Waiting};
use sorted_sets::OutOfMemory;
use std::alloc::Global;
use std::marker::Model;

/// One volume's free space. Its bitmap counts waiting pages as used. What was used when it was last
/// kept is told by the pages that were taken since then and are used, and those that were used then
/// and are free now. Which pages waited then is told by their number, since later ones are added
/// after them.
#[derive(Debug, Drop)]
pub struct Volume {
    map: Bitmap,
    is_open: bool,
    waiting: Vec<Waiting>,
    next: u32,
    taken: Vec<u32>,
    freed: Vec<u32>,
    kept_waiting: usize,
}

impl Model for Volume {
    ghost use Rattle.std.specs.Prelude.{◌≡◌, take};
    ghost use Rattle.std.specs.Vec.{vec_capacity};
    ghost use Rattle.free_space.specs.VolumeSpace.{VolumeSpace, volume_space_code};
    ghost use Rattle.free_space.specs.Sound.{used_before, IsKept};

    ghost Value = { VolumeSpace };

    ghost coded = { volume_space_code };

    ghost view = { λ v. record {
      pages = v.map.pages;
      is_open = v.is_open;
      used = v.map.used;
      waiting = v.waiting.items;
      kept_used = used_before v.map.used v.taken.items v.freed.items;
      kept_waiting = take v.kept_waiting v.waiting.items;
    } };

    ghost invariant = { λ v. IsKept v.map.pages v.map.used v.waiting.items v.taken.items
        v.freed.items v.kept_waiting (vec_capacity v.waiting) (vec_capacity v.taken)
        (vec_capacity v.freed) };
}

/// Frees the pages of that use that wait for a group up to `group`, and strikes them off the list.
fn release(map: &mut Bitmap, waiting: &mut Vec<Waiting>, kind: PageUse, group: u64)
    requires { (p : ℕ) → is_among waiting.old.items p ≡ true → p < map.old.pages }
    ensures map { map.new ≡ record map.old {
      used = without_due map.old.used waiting.old.items kind
          group;
    } }
    ensures waiting { waiting.new.items ≡ still_waiting kind group waiting.old.items }
    ensures room { vec_capacity waiting.new ≡ vec_capacity waiting.old }
{
    for page in waiting.iter() {
        if page.is_due(kind, group) {
            map.clear(page.page);
        }
    }
    waiting.retain(|page| !page.is_due(kind, group));
}

/// Frees all pages that wait.
fn free_each(map: &mut Bitmap, waiting: &[Waiting])
    requires { (p : ℕ) → is_among waiting.now p ≡ true → p < map.old.pages }
    ensures { map.new ≡ record map.old { used = without_waiting map.old.used waiting.now } }
{
    for page in waiting {
        map.clear(page.page);
    }
}

/// Counts each of the pages among the free ones.
fn clear_each(map: &mut Bitmap, pages: &[u32])
    requires { (p : ℕ) → is_one pages.now p ≡ true → p < map.old.pages }
    ensures { map.new ≡ record map.old { used = difference map.old.used (from_list pages.now) } }
{
    for page in pages {
        map.clear(*page);
    }
}

/// Counts each of the pages among the used ones.
fn set_each(map: &mut Bitmap, pages: &[u32])
    requires { (p : ℕ) → is_one pages.now p ≡ true → p < map.old.pages }
    ensures { map.new ≡ record map.old { used = union map.old.used (from_list pages.now) } }
{
    for page in pages {
        map.set(*page);
    }
}

/// Strikes the page off the list, searching from the end, and says whether it was there.
fn strike(pages: &mut Vec<u32>, page: u32) -> bool
    requires { IsDistinct nat_eq pages.old.items }
    ensures found { result ≡ is_one pages.old.items page }
    ensures struck { pages.new.items ≡ without page pages.old.items }
    ensures room { vec_capacity pages.new ≡ vec_capacity pages.old }
{
    if pages.last().copied() == Some(page) {
        pages.pop();
        return true;
    }
    let found = pages.contains(&page);
    if found {
        pages.retain(|other| *other != page);
    }
    found
}

/// Notes a page that changed. If it is on the list of those that changed the other way, it is as it
/// was. Otherwise it has changed this way.
fn note(other_way: &mut Vec<u32>, this_way: &mut Vec<u32>, page: u32)
    requires once { IsDistinct nat_eq other_way.old.items }
    requires room { length this_way.old.items < vec_capacity this_way.old }
    ensures struck { other_way.new.items ≡ without page other_way.old.items }
    ensures listed { this_way.new.items ≡ (if is_one other_way.old.items page
        then this_way.old.items else this_way.old.items ++ page ∷ []) }
    ensures rooms { (vec_capacity other_way.new ≡ vec_capacity other_way.old)
        × (vec_capacity this_way.new ≡ vec_capacity this_way.old) }
{
    if !strike(other_way, page) {
        this_way.push_reserved(page);
    }
}

/// Room for each of `pages` pages to wait, to be taken and to become free.
fn rooms(alloc: Global, pages: usize) -> Result<(Vec<Waiting>, Vec<u32>, Vec<u32>), OutOfMemory>
    ensures empty { IfOk result (λ r. (r.0.items ≡ []) × (r.1.items ≡ []) × (r.2.items ≡ [])) }
    ensures room { IfOk result (λ r. (pages ≤ vec_capacity r.0) × (pages ≤ vec_capacity r.1)
        × (pages ≤ vec_capacity r.2)) }
{
    let waiting = Vec::with_capacity(alloc, pages)?;
    let taken = Vec::with_capacity(alloc, pages)?;
    let freed = Vec::with_capacity(alloc, pages)?;
    Ok((waiting, taken, freed))
}

impl Volume {
    /// A volume with this bitmap, open and without waiting pages. It has room for each page to
    /// wait, and for each to be taken or freed before that is kept: 24 bytes for each page. If
    /// memory runs out the bitmap is handed back.
    pub fn new(alloc: Global, map: Bitmap) -> Result<Self, (Bitmap, OutOfMemory)>
        requires { map.pages ≤ 2 ^ 20 }
        ensures ok { IfOk result (λ v. v ≡ added map) }
        ensures sound { IfOk result IsSoundVolume }
        ensures err { IfErr result (λ e. e.0 ≡ map) }
    {
        let pages = map.pages() as usize;
        let (waiting, taken, freed) = match rooms(alloc, pages) {
            Ok(rooms) => rooms,
            Err(error) => return Err((map, error)),
        };
        Ok(Volume {
            map,
            is_open: true,
            waiting,
            next: 0,
            taken,
            freed,
            kept_waiting: 0,
        })
    }

    /// A run of free pages, after the last one that was taken if there is one. Returns None if the
    /// volume is closed or has no such run. If fewer pages are free, it does not search.
    fn find(&self, count: u32) -> Option<u32>
        ensures none { IfNone result ((p : ℕ) → self.now.is_open ≡ true
            → ¬ AreFreePages self.now p count) }
        ensures some { IfSome result (λ p. (self.now.is_open ≡ true)
            × AreFreePages self.now p count) }
        ensures sound { IsSoundVolume self.now }
    {
        if !self.is_open {
            return None;
        }
        if self.map.count_free() < count {
            return None;
        }
        match self.map.first_run_from(self.next, count) {
            Some(page) => Some(page),
            None => self.map.first_run(count),
        }
    }

    /// Counts a free page among the used ones.
    fn take(&mut self, page: u32)
        requires { IsFreePage self.old page }
        ensures value { self.new ≡ with_page page self.old }
        ensures sound { IsSoundVolume self.new }
    {
        self.map.set(page);
        note(&mut self.freed, &mut self.taken, page);
    }

    /// Takes a free page. Returns None if the volume is closed or has none.
    pub fn allocate(&mut self) -> Option<u32>
        ensures none { IfNone result ((p : ℕ) → self.old.is_open ≡ true → ¬ IsFreePage self.old p) }
        ensures unchanged { IfNone result (self.new ≡ self.old) }
        ensures some { IfSome result (λ p. (self.old.is_open ≡ true) × IsFreePage self.old p) }
        ensures taken { IfSome result (λ p. self.new ≡ with_page p self.old) }
        ensures sound { IsSoundVolume self.new }
    {
        let page = self.find(1)?;
        self.take(page);
        self.next = page + 1;
        Some(page)
    }

    /// Takes `count` free pages in a row, and gives the first. Returns None if the volume is closed
    /// or has no such run.
    pub fn allocate_run(&mut self, count: u32) -> Option<u32>
        ensures none { IfNone result ((p : ℕ) → self.old.is_open ≡ true
            → ¬ AreFreePages self.old p count) }
        ensures unchanged { IfNone result (self.new ≡ self.old) }
        ensures some { IfSome result (λ p. (self.old.is_open ≡ true)
            × AreFreePages self.old p count) }
        ensures taken { IfSome result (λ p. self.new ≡ with_run p count self.old) }
        ensures sound { IsSoundVolume self.new }
    {
        let first = self.find(count)?;
        for offset in 0..count {
            self.take(first + offset);
        }
        self.next = first + count;
        Some(first)
    }

    /// Takes this page, and returns whether it was free.
    pub fn reserve(&mut self, page: u32) -> bool
        ensures answer { MatchBool result (IsFreePage self.old page) (¬ IsFreePage self.old page) }
        ensures taken { MatchBool result (self.new ≡ with_page page self.old) (self.new
            ≡ self.old) }
        ensures sound { IsSoundVolume self.new }
    {
        let free = page < self.map.pages() && !self.map.is_used(page);
        if free {
            self.take(page);
        }
        free
    }

    /// Makes the page wait for that group.
    pub fn give_back(&mut self, page: u32, kind: PageUse, group: u64)
        requires used { contains self.old.used page ≡ true }
        requires settled { is_waiting self.old page ≡ false }
        ensures value { self.new ≡ with_waiting (record {
          page = page;
          kind = kind;
          group = group;
        }) self.old }
        ensures sound { IsSoundVolume self.new }
    {
        self.waiting.push_reserved(Waiting { page, kind, group });
    }

    /// Frees the page at once.
    pub fn unreserve(&mut self, page: u32)
        requires used { contains self.old.used page ≡ true }
        requires settled { is_waiting self.old page ≡ false }
        ensures value { self.new ≡ without_page page self.old }
        ensures sound { IsSoundVolume self.new }
    {
        self.map.clear(page);
        note(&mut self.taken, &mut self.freed, page);
    }

    /// Keeps what is used and what waits as it is now.
    pub fn keep(&mut self)
        ensures value { self.new ≡ keeping self.old }
        ensures sound { IsSoundVolume self.new }
    {
        self.taken.clear();
        self.freed.clear();
        self.kept_waiting = self.waiting.len();
    }

    /// Brings back what was used and what waited when the volume was last kept.
    pub fn take_back(&mut self)
        ensures value { self.new ≡ as_kept self.old }
        ensures sound { IsSoundVolume self.new }
    {
        clear_each(&mut self.map, self.taken.as_slice());
        set_each(&mut self.map, self.freed.as_slice());
        self.taken.clear();
        self.freed.clear();
        self.waiting.truncate(self.kept_waiting);
    }

    /// The pages that are used and were not when the volume was last kept, each once.
    pub fn taken(&self) -> &[u32]
        ensures { AreTakenOn (Some self.now) result.now }
    {
        self.taken.as_slice()
    }

    /// The pages that are free and were used when the volume was last kept, each once.
    pub fn freed(&self) -> &[u32]
        ensures { AreFreedOn (Some self.now) result.now }
    {
        self.freed.as_slice()
    }

    /// The pages that have come to wait since the volume was last kept. The contract also says what
    /// held of the volume then, for callers who need it.
    pub fn given_back(&self) -> &[Waiting]
        ensures since { AreGivenBackOn (Some self.now) result.now }
        ensures sound { WasSoundVolume self.now }
    {
        &self.waiting[self.kept_waiting..]
    }

    /// Frees the pages of that use that wait for a group up to this one, and keeps that.
    pub fn release(&mut self, kind: PageUse, group: u64)
        ensures value { self.new ≡ with_released kind group self.old }
        ensures sound { IsSoundVolume self.new }
    {
        release(&mut self.map, &mut self.waiting, kind, group);
        self.taken.clear();
        self.freed.clear();
        self.kept_waiting = self.waiting.len();
    }

    /// Frees all pages that wait, and keeps that.
    pub fn free_waiting(&mut self)
        ensures value { self.new ≡ with_none_waiting self.old }
        ensures sound { IsSoundVolume self.new }
    {
        free_each(&mut self.map, &self.waiting);
        self.waiting.clear();
        self.taken.clear();
        self.freed.clear();
        self.kept_waiting = 0;
    }

    /// Opens the volume, or closes it.
    pub fn set_open(&mut self, is_open: bool)
        ensures value { self.new ≡ with_open is_open self.old }
        ensures sound { IsSoundVolume self.new }
    {
        self.is_open = is_open;
    }

    /// Whether pages are taken from the volume.
    pub fn is_open(&self) -> bool
        ensures { result ≡ self.now.is_open }
    {
        self.is_open
    }

    /// Its bitmap, in which waiting pages are used.
    pub(crate) fn map(&self) -> &Bitmap
        ensures { result.now ≡ volume_pages self.now }
    {
        &self.map
    }

    /// How many pages are free.
    pub fn count_free(&self) -> u32
        ensures value { result ≡ self.now.pages - len self.now.used }
        ensures bound { result ≤ 2 ^ 20 }
    {
        self.map.count_free()
    }

    /// How many pages wait.
    pub fn count_waiting(&self) -> u32
        ensures value { result ≡ length self.now.waiting }
        ensures bound { result ≤ 2 ^ 20 }
    {
        self.waiting.len() as u32
    }

    /// How many pages are used and do not wait.
    pub fn count_held(&self) -> u32
        ensures { result ≡ len self.now.used - length self.now.waiting }
    {
        self.map.pages() - self.map.count_free() - self.count_waiting()
    }

    /// How many pages the longest run of free ones has.
    pub fn longest_run(&self) -> u32
        ensures { IsLongestRun (volume_pages self.now) result }
    {
        self.map.longest_run()
    }
}
