//! Anchors on the volumes of a rack.
ghost use Rattle.std.specs.Prelude.{
  ◌≡◌,
  ◌*◌,
  ◌+◌,
  ◌-◌,
  ◌<◌,
  ◌≤◌,
  ◌↔◌,
  None,
  Some,
  Option,
  IfErr,
  IfOk,
  IsTrue,
  OnOk,
};
ghost use Rattle.volume_disk.specs.domain_base.Gate.{closed, opened};
ghost use Rattle.volume_disk.specs.Disk.{HasVolume, Tells, volume_pages};
ghost use Rattle.volume_disk.specs.Gate.{IsOpenAt};
ghost use Rattle.volume_disk.specs.Run.{
  IsAtMost,
  IsLaterBy,
  NamesReadFault,
  NamesWriteFault,
  OnlyReads,
  OnlyWrites,
  Settles,
};
ghost use Rattle.disk_label.specs.Anchor.{
  greater_of,
  IsAnchor,
  IsAnchorBelow,
  IsNext,
  IsWhole,
  StandsAt,
};
ghost use Rattle.disk_label.specs.Fault.{HasCause, HasPassed, HasSlotCause};
ghost use Rattle.disk_label.specs.FirstPages.{gate_byte};
ghost use Rattle.disk_label.specs.Slot.{
  HasNoAnchorOn,
  HasReadied,
  HasWritten,
  IsBody,
  IsGate,
  IsGateOf,
  ReadiesSlot,
  StaysSynced,
  WritesAnchor,
};

use crate::anchor::BODY_BYTES;
use crate::first_pages::ANCHORS_PAGE;
use crate::{Anchor, AnchorFault, SlotFault};
use volume_disk::limits::{BLOCK_BYTES, BLOCKS_PER_PAGE, MAX_VOLUMES};
use volume_disk::{Rack, VolIx, close_gate, open_gate, read_blocks, read_gate, write_synced};

/// The blocks of a slot.
const SLOT_BLOCKS: u32 = 8;

/// The block of a slot's gate.
fn gate_block(slot: u8) -> u32
    requires { slot ≤ 1 }
    ensures block { 512 * result ≡ gate_byte slot }
    ensures range { result ≤ 24 }
{
    BLOCKS_PER_PAGE * ANCHORS_PAGE + SLOT_BLOCKS * u32::from(slot)
}

/// Whether the gate of a slot is open.
fn is_slot_open<R: Rack>(rack: &mut R, vol: VolIx, slot: u8) -> Result<bool, VolIx>
    requires there { HasVolume (R.disk rack.old) vol }
    requires pages { 2 ≤ volume_pages (R.disk rack.old).sizes vol }
    requires slot { slot ≤ 1 }
    ensures reads { OnlyReads (R.disk rack.old) (R.disk rack.new) }
    ensures gate { let old = R.disk rack.old in IfOk result (λ found. Tells old
        → (IsTrue found ↔ IsOpenAt old.now.contents vol (gate_byte slot))) }
    ensures few { IsAtMost 1 (R.disk rack.old) (R.disk rack.new) }
    ensures fault { NamesReadFault (R.disk rack.old) (R.disk rack.new) result }
{
    read_gate(rack, vol, gate_block(slot))
}

/// Closes the gate of a slot, and syncs.
fn close_slot<R: Rack>(rack: &mut R, vol: VolIx, slot: u8) -> Result<(), VolIx>
    requires there { HasVolume (R.disk rack.old) vol }
    requires pages { 2 ≤ volume_pages (R.disk rack.old).sizes vol }
    requires slot { slot ≤ 1 }
    ensures writes { OnlyWrites (R.disk rack.old) (R.disk rack.new) (IsGate vol slot) }
    ensures settled { let old = R.disk rack.old in let new = R.disk rack.new in
        OnOk result (Tells old → Settles vol (gate_byte slot) closed old.now new.now) }
    ensures later { OnOk result (IsLaterBy 2 (R.disk rack.old) (R.disk rack.new)) }
    ensures few { IsAtMost 2 (R.disk rack.old) (R.disk rack.new) }
    ensures fault { NamesWriteFault (R.disk rack.old) (R.disk rack.new) result }
{
    close_gate(rack, vol, gate_block(slot))
}

/// Opens the gate of a slot, and syncs.
fn open_slot<R: Rack>(rack: &mut R, vol: VolIx, slot: u8) -> Result<(), VolIx>
    requires there { HasVolume (R.disk rack.old) vol }
    requires pages { 2 ≤ volume_pages (R.disk rack.old).sizes vol }
    requires slot { slot ≤ 1 }
    ensures writes { OnlyWrites (R.disk rack.old) (R.disk rack.new) (IsGate vol slot) }
    ensures settled { let old = R.disk rack.old in let new = R.disk rack.new in
        OnOk result (Tells old → Settles vol (gate_byte slot) opened old.now new.now) }
    ensures later { OnOk result (IsLaterBy 2 (R.disk rack.old) (R.disk rack.new)) }
    ensures few { IsAtMost 2 (R.disk rack.old) (R.disk rack.new) }
    ensures fault { NamesWriteFault (R.disk rack.old) (R.disk rack.new) result }
{
    open_gate(rack, vol, gate_block(slot))
}

/// Writes the body of a slot, and syncs.
fn write_body<R: Rack>(
    rack: &mut R,
    vol: VolIx,
    slot: u8,
    body: &[u8; BODY_BYTES],
) -> Result<(), VolIx>
    requires there { HasVolume (R.disk rack.old) vol }
    requires pages { 2 ≤ volume_pages (R.disk rack.old).sizes vol }
    requires slot { slot ≤ 1 }
    ensures writes { OnlyWrites (R.disk rack.old) (R.disk rack.new) (IsBody vol slot) }
    ensures settled { let old = R.disk rack.old in let new = R.disk rack.new in
        let at = gate_byte slot + BLOCK_BYTES in
        OnOk result (Tells old → Settles vol at body.now old.now new.now) }
    ensures later { OnOk result (IsLaterBy 2 (R.disk rack.old) (R.disk rack.new)) }
    ensures few { IsAtMost 2 (R.disk rack.old) (R.disk rack.new) }
    ensures fault { NamesWriteFault (R.disk rack.old) (R.disk rack.new) result }
{
    write_synced(rack, vol, gate_block(slot) + 1, body)
}

/// The anchor in a slot of a volume, or None if none counts there. The body is read only if its
/// gate is open.
fn read_slot<R: Rack>(rack: &mut R, vol: VolIx, slot: u8) -> Result<Option<Anchor>, VolIx>
    requires there { HasVolume (R.disk rack.old) vol }
    requires pages { 2 ≤ volume_pages (R.disk rack.old).sizes vol }
    requires slot { slot ≤ 1 }
    ensures reads { OnlyReads (R.disk rack.old) (R.disk rack.new) }
    ensures found { let old = R.disk rack.old in let place = 2 * (vol - 1) + slot in
        IfOk result (λ found. Tells old → StandsAt old.sizes old.now.contents place found) }
    ensures few { IsAtMost 2 (R.disk rack.old) (R.disk rack.new) }
    ensures fault { NamesReadFault (R.disk rack.old) (R.disk rack.new) result }
{
    if !is_slot_open(rack, vol, slot)? {
        return Ok(None);
    }
    let mut block = [0; BLOCK_BYTES];
    read_blocks(rack, vol, gate_block(slot) + 1, &mut block)?;
    let anchor = Anchor::decode(&block, slot);
    if anchor.log_vol == vol.number() && anchor.has_log_member() {
        Ok(Some(anchor))
    } else {
        Ok(None)
    }
}

/// Looks at one more slot, after the best of those before it.
fn look_at<R: Rack>(rack: &mut R, place: u32, best: Option<Anchor>) -> Result<Option<Anchor>, VolIx>
    requires { place < 16 }
    ensures reads { OnlyReads (R.disk rack.old) (R.disk rack.new) }
    ensures better { let old = R.disk rack.old in IfOk result (λ better. Tells old
        → IsAnchorBelow place old.sizes old.now.contents best
        → IsAnchorBelow (place + 1) old.sizes old.now.contents better) }
    ensures few { IsAtMost 2 (R.disk rack.old) (R.disk rack.new) }
    ensures fault { NamesReadFault (R.disk rack.old) (R.disk rack.new) result }
{
    let Some(vol) = VolIx::new(place / 2 + 1) else {
        return Ok(best);
    };
    if rack.pages(vol) < 2 {
        return Ok(best);
    }
    let found = read_slot(rack, vol, (place % 2) as u8)?;
    Ok(greater(best, found))
}

/// Of two anchors that were found one after the other, the second only if its number is higher.
fn greater(best: Option<Anchor>, found: Option<Anchor>) -> Option<Anchor>
    ensures { result ≡ greater_of best found }
{
    match found {
        None => best,
        Some(found) => match best {
            None => Some(found),
            Some(best) => Some(if found.number <= best.number {
                best
            } else {
                found
            }),
        },
    }
}

/// The domain's anchor. The volumes are looked through in their order, and on each slot 0 before
/// slot 1. Of what counts there the highest number wins, and if that is met more than once, the
/// place where it was met first. It writes nothing, and makes at most 32 reads: two for each slot.
/// On a rack on which nothing is pending on the pages of anchors, each image that a stop may leave
/// has the anchor that is returned, or none (`domain_attaching`).
///
/// Fails with `NoAnchor` if no anchor counts, and with `Fault` if a read of that volume failed.
pub fn read_anchor<R: Rack>(rack: &mut R) -> Result<Anchor, AnchorFault>
    ensures reads { OnlyReads (R.disk rack.old) (R.disk rack.new) }
    ensures anchor { let old = R.disk rack.old in IfOk result (λ anchor.
        Tells old → IsAnchor old.sizes old.now.contents (Some anchor)) }
    ensures none { let old = R.disk rack.old in result ≡ Err AnchorFault.NoAnchor
        → Tells old → IsAnchor old.sizes old.now.contents None }
    ensures passed { OnOk result ((R.disk rack.new).read_faults ≡ (R.disk rack.old).read_faults) }
    ensures few { IsAtMost 32 (R.disk rack.old) (R.disk rack.new) }
    ensures fault { IfErr result (HasCause (R.disk rack.old) (R.disk rack.new)) }
{
    let mut best = None;
    for place in 0..2 * MAX_VOLUMES {
        match look_at(rack, place, best) {
            Ok(better) => best = better,
            Err(vol) => return Err(AnchorFault::Fault { vol }),
        }
    }
    match best {
        Some(anchor) => Ok(anchor),
        None => Err(AnchorFault::NoAnchor),
    }
}

/// Makes slot 0 or 1 of a volume ready for the next anchor. If its gate is closed, it overwrites
/// the seven blocks after the gate with zeros and syncs them. If its gate is open, it writes
/// nothing. A domain calls it once for each slot of the volume of its log: when it is opened, and
/// when the log goes to another volume, before the first anchor there. No more is needed before
/// later anchors, since each leaves the slot of the next one ready (`next` and `others` of
/// `HasWritten`). What it does to one slot leaves each other slot as ready as it was, and what it
/// wrote is synced. The volume must be one of the rack, with two pages or more. The error says on
/// which volume a call failed, and whether it was a read, or a write or a sync.
///
/// It is for a rack on which nothing is pending, since a read does not show what a stop may leave
/// of pending bytes. So each volume is synced before a domain that a failed write stopped is opened
/// on the same rack again. A new domain first closes both gates of its volume (`close_gates`), as
/// an open gate may stand there from before.
///
/// A write of an anchor that was cut short may have left a body with the next number after the
/// closed gate. The next write begins by closing that gate once more, and a stop that tears this
/// write may open it. Then that body would count.
pub fn ready_slot<R: Rack>(rack: &mut R, vol: VolIx, slot: u8) -> Result<(), SlotFault>
    requires there { HasVolume (R.disk rack.old) vol }
    requires pages { 2 ≤ volume_pages (R.disk rack.old).sizes vol }
    requires slot { slot ≤ 1 }
    ensures readies { ReadiesSlot (R.disk rack.old) (R.disk rack.new) vol slot }
    ensures ready { OnOk result (HasReadied (R.disk rack.old) (R.disk rack.new) vol slot) }
    ensures synced { OnOk result (StaysSynced (R.disk rack.old) (R.disk rack.new)) }
    ensures passed { OnOk result (HasPassed (R.disk rack.old) (R.disk rack.new)) }
    ensures few { IsAtMost 3 (R.disk rack.old) (R.disk rack.new) }
    ensures fault { IfErr result (HasSlotCause (R.disk rack.old) (R.disk rack.new)) }
{
    match is_slot_open(rack, vol, slot) {
        Err(vol) => return Err(SlotFault::Read { vol }),
        Ok(true) => return Ok(()),
        Ok(false) => {}
    }
    match write_body(rack, vol, slot, &[0; BODY_BYTES]) {
        Ok(()) => Ok(()),
        Err(vol) => Err(SlotFault::Write { vol }),
    }
}

/// Closes both gates of a volume, one after the other, and syncs each. Then no image that a stop
/// may leave has an anchor there that counts. A new domain begins with this, as an open gate may
/// stand there from before. The volume must be one of the rack, with two pages or more. The error
/// is the volume, if its write or sync failed.
pub fn close_gates<R: Rack>(rack: &mut R, vol: VolIx) -> Result<(), VolIx>
    requires there { HasVolume (R.disk rack.old) vol }
    requires pages { 2 ≤ volume_pages (R.disk rack.old).sizes vol }
    ensures writes { OnlyWrites (R.disk rack.old) (R.disk rack.new) (IsGateOf vol) }
    ensures none { OnOk result (Tells (R.disk rack.old) → HasNoAnchorOn (R.disk rack.new) vol) }
    ensures few { IsAtMost 4 (R.disk rack.old) (R.disk rack.new) }
    ensures fault { NamesWriteFault (R.disk rack.old) (R.disk rack.new) result }
{
    close_slot(rack, vol, 0)?;
    close_slot(rack, vol, 1)
}

/// Writes an anchor into the slot that it names: closes the gate, writes the body, and opens the
/// gate, each on the disk before the next. It reads nothing. The anchor must be the next one after
/// that of the rack's contents, and its slot must lie in the rack. The error is the volume, if its
/// write or sync failed.
///
/// The contract says what a stop may leave if the slot is ready (`IsReadyFor`). `ready_slot` makes
/// it ready, once for each slot of the volume when the domain is opened and when the log goes to
/// another volume. No more is needed before later anchors: writing an anchor makes the other slot
/// of its volume ready if the anchor before it stands there (`next` of `HasWritten`), and leaves
/// ready each other slot that was ready (`others`).
pub fn write_anchor<R: Rack>(rack: &mut R, anchor: &Anchor) -> Result<(), VolIx>
    requires whole { IsWhole anchor.now }
    requires there { HasVolume (R.disk rack.old) anchor.now.log_vol }
    requires pages { 2 ≤ volume_pages (R.disk rack.old).sizes anchor.now.log_vol }
    requires next { let old = R.disk rack.old in Tells old → (before : Option Anchor)
        × IsAnchor old.sizes old.now.contents before × IsNext before anchor.now }
    ensures writes { WritesAnchor (R.disk rack.old) (R.disk rack.new) anchor.now }
    ensures done { OnOk result (HasWritten (R.disk rack.old) (R.disk rack.new) anchor.now) }
    ensures later { OnOk result (IsLaterBy 6 (R.disk rack.old) (R.disk rack.new)) }
    ensures few { IsAtMost 6 (R.disk rack.old) (R.disk rack.new) }
    ensures fault { NamesWriteFault (R.disk rack.old) (R.disk rack.new) result }
{
    let Some(vol) = VolIx::new(anchor.log_vol) else {
        unreachable!()
    };
    close_slot(rack, vol, anchor.slot)?;
    write_body(rack, vol, anchor.slot, &anchor.encode())?;
    open_slot(rack, vol, anchor.slot)
}
