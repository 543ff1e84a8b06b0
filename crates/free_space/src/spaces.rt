//! The free space of a domain.
ghost use Rattle.std.specs.Prelude.{◌≡◌, ℕ, ◌+◌, ◌<◌, ◌≤◌, ◌^◌, ◌↔◌, true, false, None, Some, List, length, sum_by, IfOk, IfErr, IfSome, IfNone, OnOk, OnErr, IsSomeAnd, MatchBool};
ghost use Rattle.free_space.specs.declared.waiting.PageUse.TheVariants.{Data, Metadata};
ghost use Rattle.free_space.specs.VolumeSpace.{added, with_page, with_run, without_page, with_open, with_waiting, keeping, with_none_waiting, with_released};
ghost use Rattle.free_space.specs.Runs.{AddsRuns, AreRuns, IsRunOf, IsRunOn};
ghost use Rattle.free_space.specs.Sound.{AreSound, WasSoundVolume};
ghost use Rattle.free_space.specs.Spaces.{no_spaces, volume_of, with_volume, change_volume, change_volumes, kept_spaces, AreTakenOn, AreFreedOn, AreGivenBackOn, IsFree, CanTake, CanTakeRun, IsHeld, missed, free_pages, waiting_pages, held_pages, IsLongestOn};

use crate::runs::push_runs_on;
use crate::volume::Volume;
use crate::{Bitmap, FreeRun, PageUse, Waiting};
use sorted_sets::limits::MAX_VOLUMES;
use sorted_sets::{Home, OutOfMemory, VolIx};
use std::alloc::Global;
use std::marker::Model;

/// The free space of a domain's volumes. For each volume that is there contracts see its pages,
/// whether it is open, its used pages, and which of them wait; and, for all volumes together, how
/// often no page was found.
#[derive(Debug, Drop)]
pub struct FreeSpace {
    volumes: Vec<Option<Volume>>,
    misses: u64,
}

impl Model for FreeSpace {
    ghost use Rattle.std.specs.Prelude.{◌≡◌, vec_len};
    ghost use Rattle.free_space.specs.Spaces.{Spaces, spaces_code};

    ghost Value = { Spaces };

    ghost coded = { spaces_code };

    ghost view = { λ s. record { volumes = s.volumes.items; misses = s.misses } };

    ghost use Rattle.free_space.specs.Sound.{AreSoundVolumes};

    ghost invariant = { λ s. (vec_len s.volumes ≡ 8) × AreSoundVolumes s.volumes.items };
}

impl FreeSpace {
    /// The free space of no volume.
    pub fn new(alloc: Global) -> Result<Self, OutOfMemory>
        ensures value { IfOk result (λ s. s ≡ no_spaces) }
        ensures absent { IfOk result (λ s. (vol : ℕ) → volume_of s vol ≡ None) }
    {
        let mut volumes = Vec::with_capacity(alloc, MAX_VOLUMES as usize)?;
        for _ in 0..MAX_VOLUMES {
            volumes.push(None)?;
        }
        Ok(FreeSpace { volumes, misses: 0 })
    }

    /// Adds a volume with this bitmap of at most 1,048,576 pages, open and without waiting pages,
    /// and keeps it that way. Takes room for each of its pages to wait, and to be taken or freed
    /// before that is kept: 24 bytes for each page, so that no later call takes memory. If memory
    /// runs out the bitmap is handed back and nothing changes.
    pub fn add_volume(
        &mut self,
        alloc: Global,
        vol: VolIx,
        map: Bitmap,
    ) -> Result<(), (Bitmap, OutOfMemory)>
        requires absent { volume_of self.old vol ≡ None }
        requires small { map.pages ≤ 2 ^ 20 }
        ensures ok { OnOk result (self.new ≡ with_volume (Some (added map)) self.old vol) }
        ensures err { IfErr result (λ e. (e.0 ≡ map) × (self.new ≡ self.old)) }
    {
        let volume = Volume::new(alloc, map)?;
        self.volumes[vol.index()] = Some(volume);
        Ok(())
    }

    /// Takes this page, and returns whether it was free.
    pub fn reserve(&mut self, home: Home) -> bool
        ensures answer { MatchBool result (IsFree self.old home.vol home.page) (¬ IsFree self.old
            home.vol home.page) }
        ensures taken { MatchBool result (self.new
            ≡ change_volume (with_page home.page) self.old home.vol) (self.new ≡ self.old) }
    {
        match &mut self.volumes[home.vol.index()] {
            Some(volume) => volume.reserve(home.page),
            None => false,
        }
    }

    /// Takes a free page of an open volume, of the preferred volume if it has one. Returns None,
    /// and counts a miss, if and only if no open volume has one.
    pub fn allocate(&mut self, prefer: VolIx) -> Option<Home>
        ensures none { IfNone result ((vol p : ℕ) → ¬ CanTake self.old vol p) }
        ensures missed { IfNone result (self.new ≡ missed self.old) }
        ensures some { IfSome result (λ home. CanTake self.old home.vol home.page) }
        ensures taken { IfSome result (λ home. self.new
            ≡ change_volume (with_page home.page) self.old home.vol) }
        ensures preferred { IfSome result (λ home. (p : ℕ) → CanTake self.old prefer p
            → home.vol ≡ prefer) }
    {
        let preferred = self.allocate_on(prefer);
        if preferred.is_some() {
            return preferred;
        }
        let found = self.allocate_anywhere();
        if found.is_none() {
            self.misses = self.misses.saturating_add(1);
        }
        found
    }

    /// Takes a free page of the first open volume that has one.
    fn allocate_anywhere(&mut self) -> Option<Home>
        ensures none { IfNone result ((vol p : ℕ) → ¬ CanTake self.old vol p) }
        ensures unchanged { IfNone result (self.new ≡ self.old) }
        ensures some { IfSome result (λ home. CanTake self.old home.vol home.page) }
        ensures taken { IfSome result (λ home. self.new
            ≡ change_volume (with_page home.page) self.old home.vol) }
    {
        for index in 0..self.volumes.len() {
            let vol = VolIx::new(index as u32 + 1).unwrap();
            let found = self.allocate_on(vol);
            if found.is_some() {
                return found;
            }
        }
        None
    }

    /// Takes a free page of this volume. Returns None if and only if the volume has none, is closed
    /// or is not there.
    pub fn allocate_on(&mut self, vol: VolIx) -> Option<Home>
        ensures none { IfNone result ((p : ℕ) → ¬ CanTake self.old vol p) }
        ensures unchanged { IfNone result (self.new ≡ self.old) }
        ensures some { IfSome result (λ home. (home.vol ≡ vol) × CanTake self.old vol home.page) }
        ensures taken { IfSome result (λ home. self.new
            ≡ change_volume (with_page home.page) self.old vol) }
    {
        let page = match &mut self.volumes[vol.index()] {
            Some(volume) => volume.allocate(),
            None => None,
        }?;
        Some(Home { vol, page })
    }

    /// Takes `count` free pages in a row of this volume, and returns the first. Returns None if and
    /// only if the volume has no such run, is closed or is not there. A run of no pages takes none.
    pub fn allocate_run(&mut self, vol: VolIx, count: u32) -> Option<Home>
        ensures none { IfNone result ((p : ℕ) → ¬ CanTakeRun self.old vol p count) }
        ensures unchanged { IfNone result (self.new ≡ self.old) }
        ensures some { IfSome result (λ home. (home.vol ≡ vol)
            × CanTakeRun self.old vol home.page count) }
        ensures taken { IfSome result (λ home. self.new
            ≡ change_volume (with_run home.page count) self.old vol) }
    {
        let page = match &mut self.volumes[vol.index()] {
            Some(volume) => volume.allocate_run(count),
            None => None,
        }?;
        Some(Home { vol, page })
    }

    /// Frees a used page once `group` is durable or, if it is a metadata page, once the start of
    /// the log has passed it. Until then the page waits.
    pub fn give_back(&mut self, home: Home, kind: PageUse, group: u64)
        requires { IsHeld self.old home.vol home.page }
        ensures { self.new ≡ change_volume (with_waiting (record {
          page = home.page;
          kind = kind;
          group = group;
        })) self.old home.vol }
    {
        if let Some(volume) = &mut self.volumes[home.vol.index()] {
            volume.give_back(home.page, kind, group);
        }
    }

    /// Frees at once a page that was allocated or reserved and that no group names.
    pub fn unreserve(&mut self, home: Home)
        requires { IsHeld self.old home.vol home.page }
        ensures { self.new ≡ change_volume (without_page home.page) self.old home.vol }
    {
        if let Some(volume) = &mut self.volumes[home.vol.index()] {
            volume.unreserve(home.page);
        }
    }

    /// How often `allocate` has found no page. The count stays at its last value. The contract also
    /// says what always holds of the volumes, for callers who need it.
    pub fn misses(&self) -> u64
        ensures value { result ≡ self.now.misses }
        ensures sound { AreSound self.now }
    {
        self.misses
    }

    /// This group is durable, and so is each group before it. The data pages that wait for them are
    /// free, and that is kept, as is all that has changed before.
    pub fn made_durable(&mut self, group: u64)
        ensures { self.new ≡ change_volumes (with_released Data group) self.old }
    {
        self.release(PageUse::Data, group);
    }

    /// The start of the log has passed this group, and so each group before it. The metadata pages
    /// that wait for them are free, and that is kept, as is all that has changed before.
    pub fn log_passed(&mut self, group: u64)
        ensures { self.new ≡ change_volumes (with_released Metadata group) self.old }
    {
        self.release(PageUse::Metadata, group);
    }

    fn release(&mut self, kind: PageUse, group: u64)
        ensures { self.new ≡ change_volumes (with_released kind group) self.old }
    {
        for slot in self.volumes.iter_mut() {
            if let Some(volume) = slot {
                volume.release(kind, group);
            }
        }
    }

    /// All pages that wait are free, whatever group they wait for, and that is kept, as is all that
    /// has changed before. This is right when no log has a group that names one of them.
    pub fn free_waiting(&mut self)
        ensures { self.new ≡ change_volumes with_none_waiting self.old }
    {
        for slot in self.volumes.iter_mut() {
            if let Some(volume) = slot {
                volume.free_waiting();
            }
        }
    }

    /// Keeps what is used and what waits on each volume as it is now.
    pub fn keep(&mut self)
        ensures { self.new ≡ change_volumes keeping self.old }
    {
        for slot in self.volumes.iter_mut() {
            if let Some(volume) = slot {
                volume.keep();
            }
        }
    }

    /// Brings back what was used and what waited on each volume when it was last kept, when the
    /// volume was added, or when its waiting pages were freed, whichever came last. Takes no
    /// memory, and time in proportion to the changes since then. Misses stay counted, and a volume
    /// that was closed or activated since then stays closed or active.
    pub fn take_back(&mut self)
        ensures { self.new ≡ kept_spaces self.old }
    {
        for slot in self.volumes.iter_mut() {
            if let Some(volume) = slot {
                volume.take_back();
            }
        }
    }

    /// The pages of the volume that are used and were not when it was last kept, each once. There
    /// are none if the volume is not there.
    pub fn taken(&self, vol: VolIx) -> &[u32]
        ensures { AreTakenOn (volume_of self.now vol) result.now }
    {
        match &self.volumes[vol.index()] {
            Some(volume) => volume.taken(),
            None => &[],
        }
    }

    /// The pages of the volume that are free and were used when it was last kept, each once. There
    /// are none if the volume is not there. Such a page was freed at once, without waiting.
    pub fn freed(&self, vol: VolIx) -> &[u32]
        ensures { AreFreedOn (volume_of self.now vol) result.now }
    {
        match &self.volumes[vol.index()] {
            Some(volume) => volume.freed(),
            None => &[],
        }
    }

    /// The pages that have come to wait on the volume since it was last kept. There are none if it
    /// is not there. A page may be taken and given back between two keeps. The contract also says
    /// what held of the volume then, for callers who need it.
    pub fn given_back(&self, vol: VolIx) -> &[Waiting]
        ensures since { AreGivenBackOn (volume_of self.now vol) result.now }
        ensures sound { IfSome (volume_of self.now vol) WasSoundVolume }
    {
        match &self.volumes[vol.index()] {
            Some(volume) => volume.given_back(),
            None => &[],
        }
    }

    /// How many pages are free on open volumes.
    pub fn free_now(&self) -> u32
        ensures { result ≡ sum_by free_pages self.now.volumes }
    {
        let mut count = 0;
        for slot in &self.volumes {
            count += free_on(slot);
        }
        count
    }

    /// How many pages wait, of all volumes.
    pub fn waiting(&self) -> u32
        ensures { result ≡ sum_by waiting_pages self.now.volumes }
    {
        let mut count = 0;
        for slot in &self.volumes {
            count += waiting_on(slot);
        }
        count
    }

    /// How many used pages of the volume do not wait, or 0 if it is not there.
    pub fn used_on(&self, vol: VolIx) -> u32
        ensures { result ≡ held_pages (volume_of self.now vol) }
    {
        match &self.volumes[vol.index()] {
            Some(volume) => volume.count_held(),
            None => 0,
        }
    }

    /// The length of the longest run of free pages of the volume, or 0 if it is not there.
    pub fn longest_run(&self, vol: VolIx) -> u32
        ensures { IsLongestOn (volume_of self.now vol) result }
    {
        match &self.volumes[vol.index()] {
            Some(volume) => volume.longest_run(),
            None => 0,
        }
    }

    /// Appends the runs of free pages of a volume to others, if it is there and open.
    fn push_runs(&self, runs: &mut Vec<FreeRun>, vol: VolIx) -> Result<(), OutOfMemory>
        ensures { OnOk result (AddsRuns (IsRunOn vol (volume_of self.now vol)) runs.old.items
            runs.new.items) }
    {
        let volume = &self.volumes[vol.index()];
        push_runs_on(runs, vol, volume)
    }

    /// The runs of free pages on open volumes, each as long as it can be, in order of volumes and
    /// pages.
    pub fn runs(&self, alloc: Global) -> Result<Vec<FreeRun>, OutOfMemory>
        ensures { IfOk result (λ runs. AreRuns (IsRunOf self.now) runs.items) }
    {
        let mut runs = Vec::new(alloc);
        for index in 0..self.volumes.len() {
            let vol = VolIx::new(index as u32 + 1).unwrap();
            self.push_runs(&mut runs, vol)?;
        }
        Ok(runs)
    }

    /// Closes the volume, if it is there: no page is allocated from it until it is activated.
    pub fn close_volume(&mut self, vol: VolIx)
        ensures { self.new ≡ change_volume (with_open false) self.old vol }
    {
        if let Some(volume) = &mut self.volumes[vol.index()] {
            volume.set_open(false);
        }
    }

    /// Opens the volume again, if it is there.
    pub fn activate(&mut self, vol: VolIx)
        ensures { self.new ≡ change_volume (with_open true) self.old vol }
    {
        if let Some(volume) = &mut self.volumes[vol.index()] {
            volume.set_open(true);
        }
    }

    /// Forgets the volume, if it is there.
    pub fn drop_volume(&mut self, vol: VolIx)
        ensures { self.new ≡ with_volume None self.old vol }
    {
        self.volumes[vol.index()] = None;
    }
}

/// What a volume adds to the count of free pages.
fn free_on(slot: &Option<Volume>) -> u32
    ensures value { result ≡ free_pages slot.now }
    ensures bound { result ≤ 2 ^ 20 }
{
    match slot {
        Some(volume) if volume.is_open() => volume.count_free(),
        _ => 0,
    }
}

/// What a volume adds to the count of waiting pages.
fn waiting_on(slot: &Option<Volume>) -> u32
    ensures value { result ≡ waiting_pages slot.now }
    ensures bound { result ≤ 2 ^ 20 }
{
    match slot {
        Some(volume) => volume.count_waiting(),
        None => 0,
    }
}
