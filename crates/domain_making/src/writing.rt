//! Writing a domain that was just made to the first volume of a rack.
ghost use Rattle.std.specs.Prelude.{◌≡◌, ◌+◌, ◌*◌, ◌%◌, ◌<◌, ◌≤◌, None, IfErr, OnOk, length};
ghost use Rattle.domain_layout.specs.domain_base.Limits.{max_volume_pages_4};
ghost use Rattle.domain_layout.specs.domain_base.Version.{most_pages};
ghost use Rattle.domain_layout.specs.volume_disk.Disk.{HasVolume, Tells, Writes, volume_pages};
ghost use Rattle.domain_layout.specs.volume_disk.Image.{IsIn};
ghost use Rattle.domain_layout.specs.volume_disk.Run.{LeavesOnly, NamesWriteFault, OnlyWrites, Touches};
ghost use Rattle.domain_layout.specs.disk_label.Anchor.{IsAnchor};
ghost use Rattle.domain_layout.specs.disk_label.Fault.{HasPassed, HasSlotCause};
ghost use Rattle.domain_layout.specs.disk_label.FirstPages.{first_pages};
ghost use Rattle.domain_layout.specs.disk_label.Slot.{HasAnchor};
ghost use Rattle.domain_making.specs.Making.{
  AreSlotsReady,
  HasNoOtherAnchor,
  IsBeforeNoneOrEmpty,
  IsMade,
  IsNoneOrEmpty,
  IsOnFirst,
  new_anchor as anchor_of,
};
ghost use Rattle.domain_making.specs.Pages.{AreNew};
ghost use Rattle.domain_making.specs.Written.{
  HasNewLabel,
  HasNewPages,
  IsBehindLabel,
  IsFirstSynced,
  IsInFront,
  IsOnPages,
};

use crate::anchor::{first_volume, new_anchor};
use crate::pages::NewPages;
use domain_layout::gate::closed_block;
use domain_layout::limits::BLOCKS_PER_PAGE;
use domain_layout::{
    FirstPages, Rack, SlotFault, Version, VolIx, close_gates, ready_slot, sync_volume,
    write_anchor, write_blocks, write_label,
};

/// Closes both slots of volume 1, and then writes its label.
fn write_first<R: Rack>(rack: &mut R, version: Version, pages: u32) -> Result<(), VolIx>
    requires there { HasVolume (R.disk rack.old) 1 }
    requires some { 2 ≤ pages }
    requires pages { pages ≤ volume_pages (R.disk rack.old).sizes 1 }
    requires most { pages ≤ most_pages version }
    ensures writes { OnlyWrites (R.disk rack.old) (R.disk rack.new) IsInFront }
    ensures none { OnOk result (Tells (R.disk rack.old) → HasNoOtherAnchor (R.disk rack.old)
        → HasAnchor (R.disk rack.new) None) }
    ensures label { OnOk result (Tells (R.disk rack.old)
        → HasNewLabel version pages (R.disk rack.new).now.contents) }
    ensures synced { OnOk result (Tells (R.disk rack.old)
        → IsFirstSynced (R.disk rack.new).now) }
    ensures any_moment { let old = R.disk rack.old in Tells old → AreSlotsReady old
        → LeavesOnly old (R.disk rack.new) (λ image. IsAnchor old.sizes image None) }
    ensures over { let old = R.disk rack.old in Tells old → HasNoOtherAnchor old
        → LeavesOnly old (R.disk rack.new) (IsBeforeNoneOrEmpty old version pages) }
    ensures fault { NamesWriteFault (R.disk rack.old) (R.disk rack.new) result }
{
    close_gates(rack, first_volume())?;
    write_label(rack, first_volume(), pages, version)
}

/// Makes both slots of volume 1 ready.
fn ready_slots<R: Rack>(rack: &mut R) -> Result<(), SlotFault>
    requires there { HasVolume (R.disk rack.old) 1 }
    requires pages { 2 ≤ volume_pages (R.disk rack.old).sizes 1 }
    ensures touches { Touches (R.disk rack.old) (R.disk rack.new) (IsIn 1 8192 8192) }
    ensures ready { OnOk result (Tells (R.disk rack.old) → HasAnchor (R.disk rack.old) None
        → IsFirstSynced (R.disk rack.old).now → AreSlotsReady (R.disk rack.new)) }
    ensures any_moment { let old = R.disk rack.old in Tells old → HasAnchor old None
        → IsFirstSynced old.now
        → LeavesOnly old (R.disk rack.new) (λ image. IsAnchor old.sizes image None) }
    ensures passed { OnOk result (HasPassed (R.disk rack.old) (R.disk rack.new)) }
    ensures fault { IfErr result (HasSlotCause (R.disk rack.old) (R.disk rack.new)) }
{
    match ready_slot(rack, first_volume(), 0) {
        Ok(()) => ready_slot(rack, first_volume(), 1),
        Err(fault) => Err(fault),
    }
}

/// Prepares volume 1: no anchor counts on it, both slots are ready, and it has a label.
fn prepare<R: Rack>(rack: &mut R, version: Version, pages: u32) -> Result<(), SlotFault>
    requires there { HasVolume (R.disk rack.old) 1 }
    requires some { 2 ≤ pages }
    requires pages { pages ≤ volume_pages (R.disk rack.old).sizes 1 }
    requires most { pages ≤ most_pages version }
    ensures touches { Touches (R.disk rack.old) (R.disk rack.new) IsInFront }
    ensures ready { OnOk result (Tells (R.disk rack.old) → HasNoOtherAnchor (R.disk rack.old)
        → AreSlotsReady (R.disk rack.new)) }
    ensures label { OnOk result (Tells (R.disk rack.old)
        → HasNewLabel version pages (R.disk rack.new).now.contents) }
    ensures any_moment { let old = R.disk rack.old in Tells old → HasNoOtherAnchor old
        → AreSlotsReady old
        → LeavesOnly old (R.disk rack.new) (λ image. IsAnchor old.sizes image None) }
    ensures over { let old = R.disk rack.old in Tells old → HasNoOtherAnchor old
        → LeavesOnly old (R.disk rack.new) (IsBeforeNoneOrEmpty old version pages) }
    ensures passed { OnOk result (HasPassed (R.disk rack.old) (R.disk rack.new)) }
    ensures fault { IfErr result (HasSlotCause (R.disk rack.old) (R.disk rack.new)) }
{
    match write_first(rack, version, pages) {
        Ok(()) => ready_slots(rack),
        Err(vol) => Err(SlotFault::Write { vol }),
    }
}

/// Writes whole blocks of volume 1 from a page on, after the anchors and up to the table.
fn write_page<R: Rack>(
    rack: &mut R,
    firsts: &FirstPages,
    page: u32,
    bytes: &[u8],
) -> Result<(), VolIx>
    requires there { HasVolume (R.disk rack.old) 1 }
    requires room { firsts.now.table < volume_pages (R.disk rack.old).sizes 1 }
    requires small { firsts.now.table < max_volume_pages_4 }
    requires low { 2 ≤ page }
    requires high { 8192 * page + length bytes.now ≤ 8192 * (firsts.now.table + 1) }
    requires whole { length bytes.now % 512 ≡ 0 }
    requires some { 0 < length bytes.now }
    ensures writes { OnlyWrites (R.disk rack.old) (R.disk rack.new) (IsOnPages firsts.now) }
    ensures written { let old = R.disk rack.old in let new = R.disk rack.new in
        OnOk result (Tells old → Writes 1 (8192 * page) bytes.now old.now new.now) }
    ensures fault { NamesWriteFault (R.disk rack.old) (R.disk rack.new) result }
{
    write_blocks(rack, first_volume(), BLOCKS_PER_PAGE * page, bytes)
}

/// Writes the bitmap, the page of cells, a closed gate on the first page of the log, and the table
/// of filesets, and syncs them.
fn write_pages<R: Rack>(
    rack: &mut R,
    version: Version,
    pages: u32,
    new: &NewPages,
) -> Result<(), VolIx>
    requires there { HasVolume (R.disk rack.old) 1 }
    requires room { (first_pages version pages).table < pages }
    requires pages { pages ≤ volume_pages (R.disk rack.old).sizes 1 }
    requires most { pages ≤ most_pages version }
    requires new { AreNew version pages new.now }
    ensures writes { let places = IsOnPages (first_pages version pages) in
        OnlyWrites (R.disk rack.old) (R.disk rack.new) places }
    ensures written { let firsts = first_pages version pages in
        OnOk result (Tells (R.disk rack.old)
        → HasNewPages firsts new.now (R.disk rack.new).now.contents) }
    ensures synced { OnOk result (Tells (R.disk rack.old)
        → IsFirstSynced (R.disk rack.new).now) }
    ensures fault { NamesWriteFault (R.disk rack.old) (R.disk rack.new) result }
{
    let firsts = FirstPages::of(version, pages);
    write_page(rack, &firsts, firsts.bitmap, new.bitmap.bytes())?;
    write_page(rack, &firsts, firsts.cells, new.cells.bytes())?;
    write_page(rack, &firsts, firsts.log, &closed_block())?;
    write_page(rack, &firsts, firsts.table, new.table.bytes())?;
    sync_volume(rack, first_volume())
}

/// Writes the pages, and then the anchor.
fn finish<R: Rack>(rack: &mut R, version: Version, pages: u32, new: &NewPages) -> Result<(), VolIx>
    requires there { HasVolume (R.disk rack.old) 1 }
    requires room { (first_pages version pages).table < pages }
    requires pages { pages ≤ volume_pages (R.disk rack.old).sizes 1 }
    requires most { pages ≤ most_pages version }
    requires new { AreNew version pages new.now }
    requires ready { Tells (R.disk rack.old) → AreSlotsReady (R.disk rack.old) }
    ensures writes { let places = IsBehindLabel (first_pages version pages) in
        OnlyWrites (R.disk rack.old) (R.disk rack.new) places }
    ensures made { let old = R.disk rack.old in
        OnOk result (Tells old → HasNewLabel version pages old.now.contents
        → IsMade (R.disk rack.new) (anchor_of version pages)) }
    ensures any_moment { let old = R.disk rack.old in Tells old
        → HasNewLabel version pages old.now.contents
        → LeavesOnly old (R.disk rack.new) (IsNoneOrEmpty old.sizes version pages) }
    ensures fault { NamesWriteFault (R.disk rack.old) (R.disk rack.new) result }
{
    write_pages(rack, version, pages, new)?;
    write_anchor(rack, &new_anchor(version, pages))
}

/// Writes a domain that was just made.
pub(crate) fn write_domain<R: Rack>(
    rack: &mut R,
    version: Version,
    pages: u32,
    new: &NewPages,
) -> Result<(), SlotFault>
    requires there { HasVolume (R.disk rack.old) 1 }
    requires room { (first_pages version pages).table < pages }
    requires pages { pages ≤ volume_pages (R.disk rack.old).sizes 1 }
    requires most { pages ≤ most_pages version }
    requires new { AreNew version pages new.now }
    requires others { Tells (R.disk rack.old) → HasNoOtherAnchor (R.disk rack.old) }
    ensures touches { Touches (R.disk rack.old) (R.disk rack.new) IsOnFirst }
    ensures made { let old = R.disk rack.old in
        OnOk result (Tells old → IsMade (R.disk rack.new) (anchor_of version pages)) }
    ensures any_moment { let old = R.disk rack.old in Tells old → AreSlotsReady old
        → LeavesOnly old (R.disk rack.new) (IsNoneOrEmpty old.sizes version pages) }
    ensures over { let old = R.disk rack.old in Tells old
        → LeavesOnly old (R.disk rack.new) (IsBeforeNoneOrEmpty old version pages) }
    ensures passed { OnOk result (HasPassed (R.disk rack.old) (R.disk rack.new)) }
    ensures fault { IfErr result (HasSlotCause (R.disk rack.old) (R.disk rack.new)) }
{
    match prepare(rack, version, pages) {
        Ok(()) => {}
        Err(fault) => return Err(fault),
    }
    match finish(rack, version, pages, new) {
        Ok(()) => Ok(()),
        Err(vol) => Err(SlotFault::Write { vol }),
    }
}
