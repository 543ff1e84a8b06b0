//! The log of a domain.
ghost use Rattle.std.specs.Prelude.{
  ◌≡◌,
  ◌+◌,
  ◌-◌,
  ◌^◌,
  ◌<◌,
  ◌≤◌,
  ◌↔◌,
  ◌⊎◌,
  ℕ,
  ◌++◌,
  All,
  IfOk,
  IsSome,
  IsTrue,
  List,
  MatchOption,
  OnErr,
  OnOk,
  [],
  Some,
  length,
};
ghost use Rattle.log_ring.specs.domain_base.Limits.{log_pages, transaction_pages};
ghost use Rattle.log_ring.specs.page_store.Pages.{Pages};
ghost use Rattle.log_ring.specs.volume_disk.Disk.{Tells};
ghost use Rattle.log_ring.specs.volume_disk.Run.{IsAtMost, IsLaterBy, NamesWriteFault};
ghost use Rattle.log_ring.specs.disk_label.Anchor.{IsAnchor, IsWhole};
ghost use Rattle.log_ring.specs.disk_label.FirstPages.{anchors_page};
ghost use Rattle.log_ring.specs.Images.{AreDistinct, IsChange, joined};
ghost use Rattle.log_ring.specs.declared.image.PageImage.{PageImage};
ghost use Rattle.log_ring.specs.Homes.{AreLoggable, AreOutside, HasMembers, IsLoggable};
ghost use Rattle.log_ring.specs.Ring.{IsRing};
ghost use Rattle.log_ring.specs.Settling.{HasHome};
ghost use Rattle.meta_log.specs.Checkpoint.{Checkpoints, HasCheckpointed, next_anchor};
ghost use Rattle.meta_log.specs.Force.{Forces, HasForced, IsSyncedOn, forced};
ghost use Rattle.meta_log.specs.Log.{
  HasPlaceFor,
  IsFullFor,
  IsLog,
  appended,
  images_at,
  new_log,
  next_number,
  room_of,
  used,
};

use crate::LogFull;
use crate::group::write_group;
use crate::slots::{count_at, count_joined, join, join_from, new_slots};
use log_ring::limits::{GROUP_IMAGES, LOG_PAGES};
use log_ring::{
    Anchor, Change, Home, MetaPages, OutOfMemory, Page, PageImage, Rack, VolIx, bring_home,
    image_of,
};
use std::alloc::Global;
use std::marker::Model;

/// The log of a domain: an anchor, the groups that are durable from its start on, and what was
/// appended since the last of them. It has all of its memory from the start.
#[derive(Drop)]
pub struct MetaLog {
    anchor: Anchor,
    groups: u64,
    /// The images of the durable groups, then those that are pending, then slots for more.
    slots: Vec<PageImage>,
    logged: usize,
    end: usize,
    /// The page in which the next header is made.
    header: Page,
}

impl Model for MetaLog {
    ghost use Rattle.meta_log.specs.Log.{Log};

    ghost Value = { Log };

    ghost use Rattle.meta_log.specs.Inside.{IsSound, log_of};

    ghost view = { log_of };

    ghost invariant = { IsSound };
}

impl MetaLog {
    /// The log of an anchor, without groups. The anchor's slot, start, first page and group must be
    /// in their ranges.
    pub fn new(alloc: Global, anchor: &Anchor) -> Result<MetaLog, OutOfMemory>
        requires slot { anchor.now.slot ≤ 1 }
        requires start { anchor.now.start < log_pages }
        requires behind { anchors_page < anchor.now.log_page }
        requires number { anchor.now.group < 2 ^ 63 }
        ensures { IfOk result (λ log. log ≡ new_log anchor.now) }
    {
        let slots = new_slots(alloc, LOG_PAGES as usize)?;
        let header = Page::zeros(alloc)?;
        Ok(MetaLog {
            anchor: *anchor,
            groups: 0,
            slots,
            logged: 0,
            end: 0,
            header,
        })
    }

    /// The anchor with which it starts.
    pub fn anchor(&self) -> &Anchor
        ensures { result.now ≡ self.now.anchor }
    {
        &self.anchor
    }

    /// Whether something was appended that is not durable yet.
    pub fn is_pending(&self) -> bool
        ensures { IsTrue result ↔ (0 < length self.now.pending) }
    {
        self.logged < self.end
    }

    /// The number of the last durable group, which is one below that of the next group. It may
    /// stand in the log or be home already. Returns None if the next one is group 0.
    pub fn last_durable(&self) -> Option<u64>
        ensures { let next = next_number self.now in
            MatchOption result (next ≡ 0) (λ number. next ≡ number + 1) }
    {
        let next = self.next_number();
        if next == 0 { None } else { Some(next - 1) }
    }

    /// How many homes a change may have to have a place now, whichever homes they are.
    pub fn room(&self) -> u32
        ensures room { result ≡ room_of self.now }
        ensures place { (change : List PageImage) → 0 < length change → length change ≤ result
            → HasPlaceFor self.now (length (joined change self.now.pending)) }
        ensures sound { IsLog self.now }
    {
        let pending = (self.end - self.logged) as u32;
        let group = GROUP_IMAGES as u32 - pending;
        group.min(
            (LOG_PAGES - 2)
                .saturating_sub(self.used())
                .saturating_sub(pending),
        )
    }

    /// The number of the next group, which what is appended will join.
    pub fn next_number(&self) -> u64
        ensures value { result ≡ next_number self.now }
        ensures range { result < 2 ^ 63 }
    {
        self.anchor.group + self.groups
    }

    /// The number before it, or 0 if it is 0.
    fn last_number(&self) -> u64
        ensures { result ≡ next_number self.now - 1 }
    {
        self.next_number().saturating_sub(1)
    }

    /// The places of the ring that the durable groups take.
    fn used(&self) -> u32
        ensures value { result ≡ used self.now }
        ensures range { result < log_pages }
    {
        (self.groups as usize + self.logged) as u32
    }

    /// How many images are pending once a change is joined to them.
    fn count_with(&self, change: &[PageImage]) -> usize
        requires { IsChange change.now }
        ensures { result ≡ length (joined change.now self.now.pending) }
    {
        count_joined(&self.slots[self.logged..self.end], change)
    }

    /// Whether one group may hold `count` images, and fits the ring.
    fn has_place_for(&self, count: usize) -> bool
        ensures yes { IsTrue result → HasPlaceFor self.now count }
        ensures no { IsTrue result ⊎ IsFullFor self.now count }
    {
        count <= GROUP_IMAGES && self.used() as usize + count + 2 <= LOG_PAGES as usize
    }

    /// Appends a change to what is pending, which becomes durable as one group. At each home of the
    /// change its page takes the place of any page that was pending there. Returns the number of
    /// that group. Fails with `LogFull` if and only if the group would have more than 60 images, or
    /// would not fit the ring with the header after it. The change must have a home, and its homes
    /// must be such that they may be logged under the log's anchor.
    pub fn append(&mut self, change: &Change) -> Result<u64, LogFull>
        requires some { 0 < length change.now }
        requires loggable { AreLoggable self.old.anchor change.now }
        requires number { next_number self.old + 1 < 2 ^ 63 }
        ensures ok { OnOk result (self.new ≡ appended self.old change.now) }
        ensures err { OnErr result (self.new ≡ self.old) }
        ensures number { IfOk result (λ number. number ≡ next_number self.old) }
        ensures place { let count = length (joined change.now self.old.pending) in
            OnOk result (HasPlaceFor self.old count) }
        ensures full { let count = length (joined change.now self.old.pending) in
            OnErr result (IsFullFor self.old count) }
    {
        let count = self.count_with(change.images());
        if !self.has_place_for(count) {
            return Err(LogFull);
        }
        let number = self.next_number();
        self.end = join(
            self.slots.as_mut_slice(),
            self.logged,
            self.end,
            change.images(),
        );
        Ok(number)
    }

    /// Whether a change with these homes, no two of them the same, has a place now.
    pub fn takes(&self, homes: &[Home]) -> bool
        requires distinct { AreDistinct homes.now }
        requires most { length homes.now ≤ transaction_pages }
        ensures { (pages : Pages) → (IsTrue result ↔ HasPlaceFor self.now
            (length (joined (images_at pages homes.now) self.now.pending))) }
    {
        let count = count_at(&self.slots[self.logged..self.end], homes);
        self.has_place_for(count)
    }

    /// Appends the pages that stand at homes in a store, as `append` does a change. The log copies
    /// them into slots that it has, so this takes no memory. There must be a home, a page at each
    /// of them, and a place for the change (`takes`), and the homes must be such that they may be
    /// logged under the log's anchor. Returns the number of the group that they join.
    pub fn append_from<M: MetaPages>(&mut self, pages: &M, homes: &[Home]) -> u64
        requires some { 0 < length homes.now }
        requires kept { All (λ home. IsSome (M.pages pages.now home)) homes.now }
        requires loggable { All (IsLoggable self.old.anchor) homes.now }
        requires place { HasPlaceFor self.old
            (length (joined (images_at (M.pages pages.now) homes.now) self.old.pending)) }
        requires number { next_number self.old + 1 < 2 ^ 63 }
        ensures appends { self.new ≡ appended self.old (images_at (M.pages pages.now) homes.now) }
        ensures number { result ≡ next_number self.old }
    {
        let number = self.next_number();
        self.end = join_from(
            self.slots.as_mut_slice(),
            self.logged,
            self.end,
            pages,
            homes,
        );
        number
    }

    /// Whether the log has an image of a home: a durable one that is not home yet, or one that is
    /// pending.
    pub fn has_image(&self, home: Home) -> bool
        ensures { IsTrue result ↔ HasHome (self.now.logged ++ self.now.pending) home }
    {
        match image_of(&self.slots[..self.end], home) {
            Some(_) => true,
            None => false,
        }
    }

    /// Writes what is pending, which must be something, as a group, and counts it as durable.
    fn write_pending<R: Rack>(&mut self, rack: &mut R) -> Result<(), VolIx>
        requires ring { IsRing (R.disk rack.old).sizes self.old.anchor }
        requires some { 0 < length self.old.pending }
        ensures forces { Forces (R.disk rack.old) (R.disk rack.new) self.old }
        ensures ok { OnOk result (self.new ≡ forced self.old) }
        ensures err { OnErr result (self.new ≡ self.old) }
        ensures done { OnOk result (HasForced (R.disk rack.old) (R.disk rack.new) self.old) }
        ensures synced { let new = R.disk rack.new in OnOk result (Tells (R.disk rack.old)
            → IsSyncedOn self.old.anchor.log_vol new.now) }
        ensures later { OnOk result (IsLaterBy 5 (R.disk rack.old) (R.disk rack.new)) }
        ensures few { IsAtMost (length self.old.pending + 5) (R.disk rack.old) (R.disk rack.new) }
        ensures fault { NamesWriteFault (R.disk rack.old) (R.disk rack.new) result }
    {
        let place = self.anchor.start + self.used();
        let number = self.next_number();
        let images = &self.slots[self.logged..self.end];
        write_group(rack, &self.anchor, place, number, &mut self.header, images)?;
        self.groups += 1;
        self.logged = self.end;
        Ok(())
    }

    /// Makes what is pending durable: as one group after a gate, which is opened once the group and
    /// all else of the log's volume are synced. If something was pending, nothing is unsynced on
    /// that volume then. It makes at most five calls more than there are images, and none with
    /// nothing pending. Returns the number of the last durable group, or 0 if there is none. That
    /// can only be if nothing was pending, and `last_durable` tells it from group 0. The ring must
    /// lie in the rack. The error is the volume, if its write or sync failed. The log must not be
    /// used again then.
    pub fn force<R: Rack>(&mut self, rack: &mut R) -> Result<u64, VolIx>
        requires { IsRing (R.disk rack.old).sizes self.old.anchor }
        ensures forces { Forces (R.disk rack.old) (R.disk rack.new) self.old }
        ensures idle { self.old.pending ≡ [] → R.disk rack.new ≡ R.disk rack.old }
        ensures ok { OnOk result (self.new ≡ forced self.old) }
        ensures err { OnErr result (self.new ≡ self.old) }
        // if the next group is group 0 there is none before it, and the result is 0
        ensures number { IfOk result (λ number. number ≡ next_number self.new - 1) }
        ensures done { OnOk result (HasForced (R.disk rack.old) (R.disk rack.new) self.old) }
        ensures synced { let new = R.disk rack.new in OnOk result (0 < length self.old.pending
            → Tells (R.disk rack.old) → IsSyncedOn self.old.anchor.log_vol new.now) }
        ensures later { OnOk result (0 < length self.old.pending
            → IsLaterBy 5 (R.disk rack.old) (R.disk rack.new)) }
        ensures few { IsAtMost (length self.old.pending + 5) (R.disk rack.old) (R.disk rack.new) }
        ensures fault { NamesWriteFault (R.disk rack.old) (R.disk rack.new) result }
    {
        if !self.is_pending() {
            return Ok(self.last_number());
        }
        self.write_pending(rack)?;
        Ok(self.last_number())
    }

    /// The next anchor: the given one, with the next number and slot, and the log's start after the
    /// durable groups, or at the first page of another ring.
    fn next_anchor(&self, given: &Anchor) -> Anchor
        requires { self.now.anchor.number + 1 < 2 ^ 63 }
        ensures { result ≡ next_anchor self.now given.now }
    {
        let slot = if given.log_vol == self.anchor.log_vol {
            1 - self.anchor.slot
        } else {
            0
        };
        let stays = self.anchor.log_vol == given.log_vol && self.anchor.log_page == given.log_page;
        let start = if stays {
            (self.anchor.start + self.used()) % LOG_PAGES
        } else {
            0
        };
        Anchor {
            number: self.anchor.number + 1,
            slot,
            start,
            group: self.next_number(),
            ..*given
        }
    }

    /// Continues after an anchor, without groups.
    fn restart(&mut self, anchor: Anchor)
        requires slot { anchor.slot ≤ 1 }
        requires start { anchor.start < log_pages }
        requires behind { anchors_page < anchor.log_page }
        requires number { anchor.group < 2 ^ 63 }
        ensures { self.new ≡ new_log anchor }
    {
        self.anchor = anchor;
        self.groups = 0;
        self.logged = 0;
        self.end = 0;
    }

    /// Brings the images of the durable groups home and moves the log's start past them, by the
    /// given anchor with another number, slot, start and group. It makes at most one call for each
    /// image, one for each of eight volumes, and six for the anchor. The volumes of the homes are
    /// synced before the anchor. Nothing is unsynced on these volumes and on the anchor's then.
    /// Returns the anchor's number.
    ///
    /// Nothing may be pending. The members of the old anchor and the ring of the new one must lie
    /// in the rack, no durable image may have a page of the new ring as its home, and the anchor of
    /// the rack's contents must be the log's. The contract says what a stop may leave if the log
    /// stands, the next anchor's slot is ready, and on another ring the first gate is closed
    /// (`MayCheckpoint`). The error is the volume, if its write or sync failed. The log must not be
    /// used again then.
    pub fn checkpoint<R: Rack>(&mut self, rack: &mut R, anchor: &Anchor) -> Result<u64, VolIx>
        requires forced { self.old.pending ≡ [] }
        requires members { HasMembers (R.disk rack.old).sizes self.old.anchor }
        requires outside { AreOutside anchor.now self.old.logged }
        requires ring { IsRing (R.disk rack.old).sizes anchor.now }
        requires whole { IsWhole anchor.now }
        requires number { self.old.anchor.number + 1 < 2 ^ 63 }
        requires is { let old = R.disk rack.old in
            Tells old → IsAnchor old.sizes old.now.contents (Some self.old.anchor) }
        ensures checkpoints { let next = next_anchor self.old anchor.now in
            Checkpoints (R.disk rack.old) (R.disk rack.new) self.old next }
        ensures ok { OnOk result (self.new ≡ new_log (next_anchor self.old anchor.now)) }
        ensures err { OnErr result (self.new ≡ self.old) }
        ensures number { IfOk result (λ number. number ≡ self.old.anchor.number + 1) }
        ensures done { let next = next_anchor self.old anchor.now in OnOk result
            (HasCheckpointed (R.disk rack.old) (R.disk rack.new) self.old next) }
        ensures later { OnOk result (IsLaterBy 6 (R.disk rack.old) (R.disk rack.new)) }
        ensures few { IsAtMost (length self.old.logged + 14) (R.disk rack.old) (R.disk rack.new) }
        ensures fault { NamesWriteFault (R.disk rack.old) (R.disk rack.new) result }
    {
        let next = self.next_anchor(anchor);
        let number = next.number;
        bring_home(rack, &self.slots[..self.logged], &next)?;
        self.restart(next);
        Ok(number)
    }
}
