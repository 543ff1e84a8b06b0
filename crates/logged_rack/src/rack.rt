//! The rack of a domain with its log.
ghost use Rattle.std.specs.Prelude.{
  ◌≡◌,
  ◌+◌,
  ◌-◌,
  ◌^◌,
  ◌<◌,
  ◌≤◌,
  ◌↔◌,
  ◌++◌,
  ℕ,
  All,
  IfErr,
  IfOk,
  IsSome,
  IsTrue,
  None,
  OnErr,
  OnOk,
  Some,
  false,
  true,
  [],
  if◌then◌else◌,
  length,
};
ghost use Rattle.meta_log.specs.domain_base.Limits.{max_volumes, transaction_pages};
ghost use Rattle.meta_log.specs.page_store.Pages.{Pages};
ghost use Rattle.meta_log.specs.volume_disk.Disk.{IsSettled, Tells, put_at};
ghost use Rattle.meta_log.specs.volume_disk.Image.{NoPlace, page_at};
ghost use Rattle.meta_log.specs.volume_disk.Run.{
  IsAtMost,
  IsLaterBy,
  NamesReadFault,
  NamesWriteFault,
  OnlyReads,
  OnlyWrites,
};
ghost use Rattle.meta_log.specs.disk_label.Anchor.{IsAnchor, IsWhole};
ghost use Rattle.meta_log.specs.log_ring.Images.{AreDistinct, joined};
ghost use Rattle.meta_log.specs.log_ring.Homes.{HasMembers, IsHomeOf, IsLoggable};
ghost use Rattle.meta_log.specs.log_ring.Ring.{IsRing};
ghost use Rattle.meta_log.specs.log_ring.Settling.{HasHome, IsOnPage};
ghost use Rattle.meta_log.specs.Checkpoint.{Checkpoints, HasCheckpointed, next_anchor};
ghost use Rattle.meta_log.specs.Force.{Forces, HasForced, IsSyncedOn, forced};
ghost use Rattle.meta_log.specs.Log.{
  HasPlaceFor,
  appended,
  images_at,
  new_log,
  next_number,
};
ghost use Rattle.logged_rack.specs.Pending.{
  AreUnmarkedBelow,
  IsSound,
  MayWriteHome,
  marked_below,
  marks_of,
};

use crate::marks::{is_marked, set_mark};
use crate::pages::{read_page, sync_there, write_page};
use meta_log::limits::MAX_VOLUMES;
use meta_log::{Home, MetaLog, MetaPages, Page, Rack, VolIx};

/// A rack, the log of the domain on it, and the volumes on which something may be pending, which
/// are marked. Once a write or a sync has failed it has failed with that volume, and no call that
/// changes the log or reaches the rack may be made any more.
#[derive(Drop)]
pub struct LoggedRack<R: Rack> {
    rack: R,
    log: MetaLog,
    /// Whether something may be pending on a volume, for the volumes from 1 on.
    marked: [bool; 8],
    failed: Option<VolIx>,
    ghost sound: { IsSound (R.disk rack) log (marks_of marked) },
}

impl<R: Rack> LoggedRack<R> {
    /// A rack with the log of its domain. The log's ring and members must lie in the rack, and
    /// nothing may be pending. A checkpoint wants the slot of the next anchor ready besides:
    /// settling a log leaves both so, and whoever did not settle it syncs all volumes and makes
    /// that slot ready first.
    pub fn new(rack: R, log: MetaLog) -> LoggedRack<R>
        requires ring { IsRing (R.disk rack).sizes log.anchor }
        requires members { HasMembers (R.disk rack).sizes log.anchor }
        requires settled { Tells (R.disk rack) → IsSettled (R.disk rack).now }
        ensures rack { result.rack ≡ rack }
        ensures log { result.log ≡ log }
        ensures passed { result.failed ≡ None }
        ensures unmarked { AreUnmarkedBelow (max_volumes + 1) (marks_of result.marked) }
    {
        LoggedRack {
            rack,
            log,
            marked: [false; 8],
            failed: None,
        }
    }

    /// The rack alone. It makes no call.
    pub fn into_rack(self) -> R
        ensures { result ≡ self.rack }
    {
        let LoggedRack { rack, .. } = self;
        rack
    }

    /// The rack.
    pub fn rack(&self) -> &R
        ensures { result.now ≡ self.now.rack }
    {
        &self.rack
    }

    /// The log.
    pub fn log(&self) -> &MetaLog
        ensures { result.now ≡ self.now.log }
    {
        &self.log
    }

    /// The volume whose write or sync failed, if one has.
    pub fn failed(&self) -> Option<VolIx>
        ensures { result ≡ self.now.failed }
    {
        self.failed
    }

    /// Whether the log has an image of a home. Then its page may not be written in place.
    pub fn has_image(&self, home: Home) -> bool
        ensures { IsTrue result ↔ HasHome (self.now.log.logged ++ self.now.log.pending) home }
    {
        self.log.has_image(home)
    }

    /// Whether a change with these homes, no two of them the same, has a place in the log now.
    pub fn takes(&self, homes: &[Home]) -> bool
        requires distinct { AreDistinct homes.now }
        requires most { length homes.now ≤ transaction_pages }
        ensures { (pages : Pages) → (IsTrue result ↔ HasPlaceFor self.now.log
            (length (joined (images_at pages homes.now) self.now.log.pending))) }
    {
        self.log.takes(homes)
    }

    /// Appends the pages that stand at homes in a store to what is pending. It makes no call and
    /// takes no memory. Returns the number of the group that they join.
    pub fn append<M: MetaPages>(&mut self, pages: &M, homes: &[Home]) -> u64
        requires passed { self.old.failed ≡ None }
        requires some { 0 < length homes.now }
        requires kept { All (λ home. IsSome (M.pages pages.now home)) homes.now }
        requires loggable { All (IsLoggable self.old.log.anchor) homes.now }
        requires place { HasPlaceFor self.old.log
            (length (joined (images_at (M.pages pages.now) homes.now) self.old.log.pending)) }
        requires number { next_number self.old.log + 1 < 2 ^ 63 }
        ensures appends { let images = images_at (M.pages pages.now) homes.now in
            self.new.log ≡ appended self.old.log images }
        ensures number { result ≡ next_number self.old.log }
        ensures rack { self.new.rack ≡ self.old.rack }
        ensures marks { self.new.marked ≡ self.old.marked }
        ensures passed { self.new.failed ≡ None }
    {
        self.log.append_from(pages, homes)
    }

    /// Makes what is pending in the log durable. If something was, all that was written in place on
    /// the log's volume lasts then too, and its mark is gone. It makes at most five calls more than
    /// there are images, and none with nothing pending. Returns the number of the last durable
    /// group, or 0 if there is none. The error is the volume, if its write or sync failed.
    pub fn force(&mut self) -> Result<u64, VolIx>
        requires passed { self.old.failed ≡ None }
        ensures forces { Forces (R.disk self.old.rack) (R.disk self.new.rack) self.old.log }
        ensures idle { self.old.log.pending ≡ []
            → R.disk self.new.rack ≡ R.disk self.old.rack }
        ensures ok { OnOk result (self.new.log ≡ forced self.old.log) }
        ensures err { OnErr result (self.new.log ≡ self.old.log) }
        ensures number { IfOk result (λ number. number ≡ next_number self.new.log - 1) }
        ensures done { OnOk result
            (HasForced (R.disk self.old.rack) (R.disk self.new.rack) self.old.log) }
        ensures synced { let new = R.disk self.new.rack in
            OnOk result (0 < length self.old.log.pending → Tells (R.disk self.old.rack)
            → IsSyncedOn self.old.log.anchor.log_vol new.now) }
        ensures marks { OnOk result (0 < length self.old.log.pending
            → marks_of self.new.marked
            ≡ put_at (marks_of self.old.marked) self.old.log.anchor.log_vol false) }
        ensures idle_marks { self.old.log.pending ≡ [] → self.new.marked ≡ self.old.marked }
        ensures later { OnOk result (0 < length self.old.log.pending
            → IsLaterBy 5 (R.disk self.old.rack) (R.disk self.new.rack)) }
        ensures few { IsAtMost (length self.old.log.pending + 5) (R.disk self.old.rack)
            (R.disk self.new.rack) }
        ensures fault { NamesWriteFault (R.disk self.old.rack) (R.disk self.new.rack) result }
        ensures passed { OnOk result (self.new.failed ≡ None) }
        ensures failed { IfErr result (λ vol. self.new.failed ≡ Some vol) }
    {
        if !self.log.is_pending() {
            return Ok(self.log.next_number().saturating_sub(1));
        }
        let Some(vol) = VolIx::new(self.log.anchor().log_vol) else {
            unreachable!()
        };
        match self.log.force(&mut self.rack) {
            Ok(number) => {
                set_mark(&mut self.marked, vol, false);
                Ok(number)
            }
            Err(failed) => {
                set_mark(&mut self.marked, vol, true);
                self.failed = Some(failed);
                Err(failed)
            }
        }
    }

    /// Brings the images of the log home, and moves its start past them, by its own anchor with
    /// another number, slot, start and group. Nothing may be pending in the log, and the anchor of
    /// the rack's contents must be the log's. The contract says what a stop may leave if the log
    /// stands and the next anchor's slot is ready (`MayCheckpoint`). It makes at most one call for
    /// each image, one for each of eight volumes, and six for the anchor. Returns the anchor's
    /// number. The error is the volume, if its write or sync failed.
    pub fn checkpoint(&mut self) -> Result<u64, VolIx>
        requires passed { self.old.failed ≡ None }
        requires forced { self.old.log.pending ≡ [] }
        requires whole { IsWhole self.old.log.anchor }
        requires number { self.old.log.anchor.number + 1 < 2 ^ 63 }
        requires is { let old = R.disk self.old.rack in
            Tells old → IsAnchor old.sizes old.now.contents (Some self.old.log.anchor) }
        ensures checkpoints { let next = next_anchor self.old.log self.old.log.anchor in
            Checkpoints (R.disk self.old.rack) (R.disk self.new.rack) self.old.log next }
        ensures ok { OnOk result
            (self.new.log ≡ new_log (next_anchor self.old.log self.old.log.anchor)) }
        ensures err { OnErr result (self.new.log ≡ self.old.log) }
        ensures number { IfOk result (λ number. number ≡ self.old.log.anchor.number + 1) }
        ensures done { let next = next_anchor self.old.log self.old.log.anchor in OnOk result
            (HasCheckpointed (R.disk self.old.rack) (R.disk self.new.rack) self.old.log next) }
        ensures marks { OnOk result (marks_of self.new.marked
            ≡ put_at (marks_of self.old.marked) self.old.log.anchor.log_vol false) }
        ensures later { OnOk result (IsLaterBy 6 (R.disk self.old.rack) (R.disk self.new.rack)) }
        ensures few { IsAtMost (length self.old.log.logged + 14) (R.disk self.old.rack)
            (R.disk self.new.rack) }
        ensures fault { NamesWriteFault (R.disk self.old.rack) (R.disk self.new.rack) result }
        ensures passed { OnOk result (self.new.failed ≡ None) }
        ensures failed { IfErr result (λ vol. self.new.failed ≡ Some vol) }
    {
        // called for its contract: what always holds of a log
        let _room = self.log.room();
        let anchor = *self.log.anchor();
        let Some(vol) = VolIx::new(anchor.log_vol) else {
            unreachable!()
        };
        match self.log.checkpoint(&mut self.rack, &anchor) {
            Ok(number) => {
                set_mark(&mut self.marked, vol, false);
                Ok(number)
            }
            Err(failed) => {
                self.marked = [true; 8];
                self.failed = Some(failed);
                Err(failed)
            }
        }
    }

    /// Reads the page that stands at a home. The error is the volume, if its read failed. Then
    /// `page` is as before.
    pub fn read_home(&mut self, home: Home, page: &mut Page) -> Result<(), VolIx>
        requires passed { self.old.failed ≡ None }
        requires home { IsHomeOf (R.disk self.old.rack).sizes home }
        ensures reads { OnlyReads (R.disk self.old.rack) (R.disk self.new.rack) }
        ensures bytes { let held = (R.disk self.old.rack).now.contents in OnOk result
            (Tells (R.disk self.old.rack) → page.new ≡ page_at held home.vol home.page) }
        ensures err { OnErr result (page.new ≡ page.old) }
        ensures few { IsAtMost 1 (R.disk self.old.rack) (R.disk self.new.rack) }
        ensures fault { NamesReadFault (R.disk self.old.rack) (R.disk self.new.rack) result }
        ensures marks { self.new.marked ≡ self.old.marked }
        ensures log { self.new.log ≡ self.old.log }
        ensures passed { self.new.failed ≡ None }
    {
        read_page(&mut self.rack, &home, page)
    }

    /// Writes a page at its home, which the log must have no image of. The next sync of the volume
    /// makes it last: `force`, if that is the log's volume and something is pending in the log, or
    /// `sync_written`. The error is the volume, if its write failed.
    pub fn write_home(&mut self, home: Home, page: &Page) -> Result<(), VolIx>
        requires passed { self.old.failed ≡ None }
        requires may { MayWriteHome self.old.log home }
        ensures writes { OnlyWrites (R.disk self.old.rack) (R.disk self.new.rack) (IsOnPage home) }
        ensures written { let new = R.disk self.new.rack in OnOk result
            (Tells (R.disk self.old.rack)
            → page_at new.now.contents home.vol home.page ≡ page.now) }
        ensures marks { marks_of self.new.marked
            ≡ put_at (marks_of self.old.marked) home.vol true }
        ensures few { IsAtMost 1 (R.disk self.old.rack) (R.disk self.new.rack) }
        ensures fault { NamesWriteFault (R.disk self.old.rack) (R.disk self.new.rack) result }
        ensures log { self.new.log ≡ self.old.log }
        ensures passed { OnOk result (self.new.failed ≡ None) }
        ensures failed { IfErr result (λ vol. self.new.failed ≡ Some vol) }
    {
        set_mark(&mut self.marked, home.vol, true);
        match write_page(&mut self.rack, &home, page) {
            Ok(()) => Ok(()),
            Err(vol) => {
                self.failed = Some(vol);
                Err(vol)
            }
        }
    }

    /// Syncs a volume if it is marked, and takes its mark away.
    fn sync_marked(&mut self, vol: VolIx) -> Result<(), VolIx>
        requires passed { self.old.failed ≡ None }
        ensures writes { OnlyWrites (R.disk self.old.rack) (R.disk self.new.rack) NoPlace }
        ensures unmarked { OnOk result (AreUnmarkedBelow vol (marks_of self.old.marked)
            → AreUnmarkedBelow (vol + 1) (marks_of self.new.marked)) }
        ensures others { (v : ℕ) → vol < v
            → marks_of self.new.marked v ≡ marks_of self.old.marked v }
        ensures few { IsAtMost (if marks_of self.old.marked vol then 1 else 0)
            (R.disk self.old.rack) (R.disk self.new.rack) }
        ensures fault { NamesWriteFault (R.disk self.old.rack) (R.disk self.new.rack) result }
        ensures log { self.new.log ≡ self.old.log }
        ensures passed { OnOk result (self.new.failed ≡ None) }
        ensures failed { IfErr result (λ vol. self.new.failed ≡ Some vol) }
    {
        if !is_marked(&self.marked, vol) {
            return Ok(());
        }
        match sync_there(&mut self.rack, vol) {
            Ok(()) => {
                set_mark(&mut self.marked, vol, false);
                Ok(())
            }
            Err(unsynced) => {
                self.failed = Some(unsynced);
                Err(unsynced)
            }
        }
    }

    /// Syncs each marked volume once: those that a page was written on in place since their last
    /// sync by this call or, for the log's volume, by `force` or `checkpoint`. Then nothing is
    /// pending, and no volume is marked. The error is the volume, if its sync failed.
    pub fn sync_written(&mut self) -> Result<(), VolIx>
        requires passed { self.old.failed ≡ None }
        ensures writes { OnlyWrites (R.disk self.old.rack) (R.disk self.new.rack) NoPlace }
        ensures settled { OnOk result
            (Tells (R.disk self.old.rack) → IsSettled (R.disk self.new.rack).now) }
        ensures unmarked { OnOk result
            (AreUnmarkedBelow (max_volumes + 1) (marks_of self.new.marked)) }
        ensures few { IsAtMost (marked_below (marks_of self.old.marked) (max_volumes + 1))
            (R.disk self.old.rack) (R.disk self.new.rack) }
        ensures fault { NamesWriteFault (R.disk self.old.rack) (R.disk self.new.rack) result }
        ensures log { self.new.log ≡ self.old.log }
        ensures passed { OnOk result (self.new.failed ≡ None) }
        ensures failed { IfErr result (λ vol. self.new.failed ≡ Some vol) }
    {
        for number in 1..MAX_VOLUMES + 1 {
            let Some(vol) = VolIx::new(number) else {
                unreachable!()
            };
            self.sync_marked(vol)?;
        }
        Ok(())
    }
}
