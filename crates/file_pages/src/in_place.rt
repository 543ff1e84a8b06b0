//! Pages in place brought into frames, and written home from them.
ghost use Rattle.std.specs.Prelude.{
  ◌≡◌,
  ◌++◌,
  ◌≤◌,
  ◌<◌,
  [],
  ◌∷◌,
  IfErr,
  IsNone,
  IsOk,
  IsSome,
  None,
  OnErr,
  OnOk,
  Some,
  false,
  true,
  vec_len,
};
ghost use Rattle.std.specs.Option.{option_map};
ghost use Rattle.logged_rack.specs.volume_disk.Disk.{Tells, put_at};
ghost use Rattle.logged_rack.specs.volume_disk.Run.{
  IsAtMost,
  NamesWriteFault,
  OnlyReads,
  OnlyWrites,
};
ghost use Rattle.logged_rack.specs.log_ring.Homes.{IsHomeOf};
ghost use Rattle.logged_rack.specs.log_ring.Settling.{HasHome, IsOnPage};
ghost use Rattle.logged_rack.specs.Pending.{MayWriteHome, marks_of};
ghost use Rattle.page_cache.specs.Cache.{Changes, dirty_of, frames_of, kept_of};
ghost use Rattle.page_cache.specs.Frames.{cleaned, groups};
ghost use Rattle.file_pages.specs.declared.fault.FrameFault.TheVariants.{OutOfMemory};
ghost use Rattle.file_pages.specs.Lent.{Adds, Displaces, KeepsFrames, is_among, with_home};
ghost use Rattle.file_pages.specs.InPlace.{
  HasBrought,
  HasPageOf,
  IsDurable,
  KeepsUnread,
  NamesFrameFault,
};

use crate::{FilePages, FrameFault};
use logged_rack::{Home, LoggedRack, Page, Rack, VolIx};
use std::alloc::Global;

impl FilePages {
    /// Lends the page in place of a home. If it has no frame, it is read and kept in a clean one,
    /// for which a clean one that is not lent goes if 1,024 are kept. The log must have no image of
    /// the home, since what stands there is not its page then. After an error no frame has changed,
    /// and nothing more is lent; if a read failed, the order of use has not changed either.
    pub fn bring<R: Rack>(
        &mut self,
        rack: &mut LoggedRack<R>,
        alloc: Global,
        home: Home,
    ) -> Result<(), FrameFault>
        requires passed { rack.old.failed ≡ None }
        requires home { IsHomeOf (R.disk rack.old.rack).sizes home }
        requires unlogged { ¬ HasHome (rack.old.log.logged ++ rack.old.log.pending) home }
        requires few { is_among self.old.lent.items home ≡ false → vec_len self.old.lent < 4 }
        requires clean { IsNone (frames_of self.old.cache home) → dirty_of self.old.cache ≤ 1020 }
        ensures at_hand { IsSome (frames_of self.old.cache home) → IsOk result }
        ensures idle { IsSome (frames_of self.old.cache home)
            → R.disk rack.new.rack ≡ R.disk rack.old.rack }
        ensures kept { IsSome (frames_of self.old.cache home)
            → KeepsFrames self.old.cache self.new.cache }
        ensures used { IsSome (frames_of self.old.cache home)
            → Changes home (frames_of self.old.cache home) self.old.cache self.new.cache }
        ensures brought { OnOk result (IsNone (frames_of self.old.cache home)
            → HasBrought (R.disk rack.old.rack) home self.old.lent.items self.old.cache
            self.new.cache) }
        ensures lent { OnOk result (self.new.lent.items ≡ with_home self.old.lent.items home) }
        ensures keeps { OnErr result (KeepsFrames self.old.cache self.new.cache) }
        ensures err { OnErr result (self.new.lent ≡ self.old.lent) }
        ensures reads { OnlyReads (R.disk rack.old.rack) (R.disk rack.new.rack) }
        ensures once { IsAtMost 1 (R.disk rack.old.rack) (R.disk rack.new.rack) }
        ensures fault { NamesFrameFault (R.disk rack.old.rack) (R.disk rack.new.rack) result }
        ensures unread { KeepsUnread result self.old.cache self.new.cache }
        ensures marks { rack.new.marked ≡ rack.old.marked }
        ensures log { rack.new.log ≡ rack.old.log }
        ensures passed { rack.new.failed ≡ None }
    {
        let at = &home;
        if self.is_kept(*at) {
            self.lend(*at);
            return Ok(());
        }
        self.read_in(rack, alloc, at)
    }

    /// Reads the page of a home that has no frame into one, and lends it.
    fn read_in<R: Rack>(
        &mut self,
        rack: &mut LoggedRack<R>,
        alloc: Global,
        home: &Home,
    ) -> Result<(), FrameFault>
        requires passed { rack.old.failed ≡ None }
        requires home { IsHomeOf (R.disk rack.old.rack).sizes home.now }
        requires new { IsNone (frames_of self.old.cache home.now) }
        requires few { vec_len self.old.lent < 4 }
        requires clean { dirty_of self.old.cache ≤ 1020 }
        ensures brought { OnOk result (HasBrought (R.disk rack.old.rack) home.now
            self.old.lent.items self.old.cache self.new.cache) }
        ensures lent { OnOk result (self.new.lent.items ≡ self.old.lent.items ++ home.now ∷ []) }
        ensures keeps { OnErr result (KeepsFrames self.old.cache self.new.cache) }
        ensures err { OnErr result (self.new.lent ≡ self.old.lent) }
        ensures reads { OnlyReads (R.disk rack.old.rack) (R.disk rack.new.rack) }
        ensures once { IsAtMost 1 (R.disk rack.old.rack) (R.disk rack.new.rack) }
        ensures fault { NamesFrameFault (R.disk rack.old.rack) (R.disk rack.new.rack) result }
        ensures unread { KeepsUnread result self.old.cache self.new.cache }
        ensures marks { rack.new.marked ≡ rack.old.marked }
        ensures log { rack.new.log ≡ rack.old.log }
        ensures passed { rack.new.failed ≡ None }
    {
        let Ok(mut page) = Page::zeros(alloc) else {
            return Err(FrameFault::OutOfMemory);
        };
        match rack.read_home(*home, &mut page) {
            Ok(()) => self.keep_read(home, page),
            Err(vol) => Err(FrameFault::Read { vol }),
        }
    }

    /// Keeps a page that was read.
    fn keep_read(&mut self, home: &Home, page: Page) -> Result<(), FrameFault>
        requires new { IsNone (frames_of self.old.cache home.now) }
        requires few { vec_len self.old.lent < 4 }
        requires clean { dirty_of self.old.cache ≤ 1020 }
        ensures adds { OnOk result (kept_of self.old.cache < 1024
            → Adds self.old.lent.items home.now page self.old.cache self.new.cache) }
        ensures displaces { OnOk result (kept_of self.old.cache ≡ 1024
            → Displaces self.old.lent.items home.now page self.old.cache self.new.cache) }
        ensures lent { OnOk result (self.new.lent.items ≡ self.old.lent.items ++ home.now ∷ []) }
        ensures keeps { OnErr result (KeepsFrames self.old.cache self.new.cache) }
        ensures err { OnErr result (self.new.lent ≡ self.old.lent) }
        ensures fault { IfErr result (λ fault. fault ≡ OutOfMemory) }
    {
        match self.keep(*home, page) {
            Ok(()) => Ok(()),
            Err(_) => Err(FrameFault::OutOfMemory),
        }
    }

    /// Writes the dirty frame of a home there, which marks its volume, and makes it clean. Its group
    /// must be durable, and its page one that may be written in place. The error is the volume, if
    /// the write failed. Then the frame is dirty still.
    pub fn flush<R: Rack>(&mut self, rack: &mut LoggedRack<R>, home: Home) -> Result<(), VolIx>
        requires passed { rack.old.failed ≡ None }
        requires dirty { IsSome (groups (frames_of self.old.cache) home) }
        requires due { IsDurable (groups (frames_of self.old.cache) home) rack.old.log }
        requires may { MayWriteHome rack.old.log home }
        ensures writes { OnlyWrites (R.disk rack.old.rack) (R.disk rack.new.rack) (IsOnPage home) }
        ensures written { OnOk result (Tells (R.disk rack.old.rack)
            → HasPageOf (frames_of self.old.cache) home (R.disk rack.new.rack)) }
        ensures sets { OnOk result (Changes home
            (option_map cleaned (frames_of self.old.cache home)) self.old.cache self.new.cache) }
        ensures err { OnErr result (self.new.cache ≡ self.old.cache) }
        ensures lent { self.new.lent ≡ self.old.lent }
        ensures marks { marks_of rack.new.marked
            ≡ put_at (marks_of rack.old.marked) home.vol true }
        ensures once { IsAtMost 1 (R.disk rack.old.rack) (R.disk rack.new.rack) }
        ensures fault { NamesWriteFault (R.disk rack.old.rack) (R.disk rack.new.rack) result }
        ensures log { rack.new.log ≡ rack.old.log }
        ensures passed { OnOk result (rack.new.failed ≡ None) }
        ensures failed { IfErr result (λ vol. rack.new.failed ≡ Some vol) }
    {
        let at = &home;
        let Some(page) = self.cache.page_at(at) else {
            unreachable!()
        };
        match rack.write_home(*at, page) {
            Ok(()) => {
                self.written(*at);
                Ok(())
            }
            Err(vol) => Err(vol),
        }
    }
}
