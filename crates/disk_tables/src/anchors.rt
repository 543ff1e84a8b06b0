//! What stops and calls that fail leave of the domain's anchor, on racks in memory.
ghost use Rattle.std.specs.Prelude.{◌≡◌, IsTrue, IfOk, None, Some, Option};
ghost use Rattle.disk_label.specs.volume_disk.Disk.{Tells};
ghost use Rattle.disk_label.specs.volume_disk.Run.{OnlyReads};
ghost use Rattle.disk_label.specs.Anchor.{IsAnchor, IsNext};

use crate::calls::image;
use crate::renewals::{is_whole, renew_twice};
use disk_label::{
    Anchor, AnchorFault, Home, Member, OutOfMemory, Rack, VolIx, close_gates, read_anchor,
    ready_slot, write_anchor,
};
use memory_disk::MemoryRack;
use std::alloc::Global;
use table_words::Words;

const NONE: Member = Member { pages: 0, state: 0 };

const OPEN: Member = Member {
    pages: 64,
    state: 1,
};

/// An anchor on volume 1 or 2, both open members of 64 pages.
fn anchor(number: u64, log_vol: u32, slot: u8) -> Anchor {
    Anchor {
        number,
        version: if number % 2 == 0 { 4 } else { 3 },
        log_vol,
        log_page: 4,
        log_pages: 128,
        start: 127,
        group: 0x0102_0304_0506_0708,
        table: VolIx::new(2).map(|vol| Home { vol, page: 9 }),
        members: [OPEN, OPEN, NONE, NONE, NONE, NONE, NONE, NONE],
        slot,
    }
}

fn is_none(fault: &AnchorFault) -> bool
    ensures { IsTrue result → fault.now ≡ AnchorFault.NoAnchor }
{
    match fault {
        AnchorFault::NoAnchor => true,
        _ => false,
    }
}

fn is_next(old: &Anchor, next: &Anchor) -> bool
    ensures { IsTrue result → IsNext (Some old.now) next.now }
{
    if old.slot > 1 {
        return false;
    }
    let slot = if next.log_vol == old.log_vol {
        1 - old.slot
    } else {
        0
    };
    old.number < u64::MAX && next.number == old.number + 1 && next.slot == slot
}

fn is_first(next: &Anchor) -> bool
    ensures { IsTrue result → IsNext None next.now }
{
    next.number == 1 && next.slot == 0
}

/// Whether the anchor is the next after that of the rack.
fn may_follow<R: Rack>(rack: &mut R, next: &Anchor) -> Result<bool, AnchorFault>
    ensures reads { OnlyReads (R.disk rack.old) (R.disk rack.new) }
    ensures follows { let old = R.disk rack.old in IfOk result (λ follows. IsTrue follows
        → Tells old → (before : Option Anchor)
        × IsAnchor old.sizes old.now.contents before × IsNext before next.now) }
{
    match read_anchor(rack) {
        Ok(old) => Ok(is_next(&old, next)),
        Err(fault) => {
            if is_none(&fault) {
                Ok(is_first(next))
            } else {
                Err(fault)
            }
        }
    }
}

/// Writes an anchor that meets the conditions of `write_anchor`; whether that passed.
fn write_next<R: Rack>(rack: &mut R, next: &Anchor) -> bool {
    if !is_whole(next) || next.log_vol > rack.volumes() {
        return false;
    }
    let Some(vol) = VolIx::new(next.log_vol) else {
        return false;
    };
    if rack.pages(vol) < 2 {
        return false;
    }
    match may_follow(rack, next) {
        Ok(true) => write_anchor(rack, next).is_ok(),
        _ => false,
    }
}

/// Makes slot 1 of volume 1 ready; whether that passed.
pub fn make_ready<R: Rack>(rack: &mut R) -> bool {
    let Some(vol) = VolIx::new(1) else {
        return false;
    };
    rack.volumes() >= 1 && rack.pages(vol) >= 2 && ready_slot(rack, vol, 1).is_ok()
}

/// The anchor that three numbers say: its own number, which is 0 for no anchor, the volume of its
/// log, and its slot.
pub fn anchor_of(words: &mut Words) -> Option<Anchor> {
    let (number, log_vol, slot) = (
        words.long_if_any(' '),
        words.number_if_any(' '),
        words.byte_if_any(' '),
    );
    if number == 0 {
        None
    } else {
        Some(anchor(number, log_vol, slot))
    }
}

/// Writes the anchor that numbers say, and where redo starts, if that is said: whether that passed.
pub fn write(rack: &mut MemoryRack, words: &mut Words) -> bool {
    let Some(mut next) = anchor_of(words) else {
        return false;
    };
    if !words.is_at_end() {
        next.start = words.number_if_any(' ');
    }
    write_next(rack, &next)
}

/// Whether the anchor that is wanted was found, or none if none is wanted.
fn is_found(found: &Result<Anchor, AnchorFault>, wanted: &Option<Anchor>) -> bool {
    match found {
        Ok(anchor) => match wanted {
            Some(wanted) => anchor == wanted,
            None => false,
        },
        Err(_) => wanted.is_none(),
    }
}

/// Whether a stop right after a call leaves one of two anchors.
fn leaves_one(
    rack: &MemoryRack,
    alloc: Global,
    call: u64,
    pick: u64,
    wanted: &[Option<Anchor>; 2],
) -> Result<bool, OutOfMemory> {
    let mut left = image(rack, alloc, call, pick)?;
    let found = read_anchor(&mut left);
    Ok(is_found(&found, &wanted[0]) || is_found(&found, &wanted[1]))
}

/// Whether stops right after each of these calls, by each of 16 picks, leave one of two anchors.
pub fn leaves(
    rack: &MemoryRack,
    alloc: Global,
    calls: (u64, u64),
    wanted: &[Option<Anchor>; 2],
) -> Result<bool, OutOfMemory> {
    for call in calls.0..calls.1 {
        for pick in 0..16 {
            if !leaves_one(rack, alloc, call, pick, wanted)? {
                return Ok(false);
            }
        }
    }
    Ok(true)
}

fn number_of(found: &Result<Anchor, AnchorFault>) -> u64 {
    match found {
        Ok(anchor) => anchor.number,
        Err(_) => 0,
    }
}

/// The number of the rack's anchor, 0 if it has none.
pub fn number(rack: &mut MemoryRack) -> u64 {
    number_of(&read_anchor(rack))
}

/// How many calls it takes to read the rack's anchor.
pub fn reads(rack: &mut MemoryRack) -> u64 {
    let start = rack.calls();
    let _ = read_anchor(rack);
    rack.calls().saturating_sub(start)
}

/// The numbers that `renew_twice` answers and that is read after it, on a rack that starts again.
pub fn renewed_numbers(rack: &MemoryRack, alloc: Global) -> Result<[u64; 2], OutOfMemory> {
    if !rack.keeps_calls() {
        return Ok([0; 2]);
    }
    let mut left = rack.image(alloc, rack.calls(), 2)?;
    let renewed = match renew_twice(&mut left) {
        Ok(anchor) => anchor.number,
        Err(_) => 0,
    };
    Ok([renewed, number_of(&read_anchor(&mut left))])
}

/// Closes the gates of volume 1; whether that passed.
pub fn closes<R: Rack>(rack: &mut R) -> bool {
    let Some(vol) = VolIx::new(1) else {
        return false;
    };
    rack.volumes() >= 1 && rack.pages(vol) >= 2 && close_gates(rack, vol).is_ok()
}
