//! A caller of the anchors, which reads one and writes the next two.
ghost use Rattle.std.specs.Prelude.{◌≡◌, ◌+◌, ◌-◌, ◌^◌, ◌<◌, ◌≤◌, Some, IfOk, IsTrue};
ghost use Rattle.disk_label.specs.volume_disk.Disk.{Tells};
ghost use Rattle.disk_label.specs.Anchor.{IsNext, IsWhole};
ghost use Rattle.disk_label.specs.Laws.{AreAnchorsSynced};
ghost use Rattle.disk_label.specs.Slot.{HasAnchor};

use disk_label::{
    Anchor, AnchorFault, Rack, SlotFault, VolIx, read_anchor, ready_slot, write_anchor,
};
use std::error::Error;
use std::fmt;

/// Why an anchor was not renewed.
#[derive(Clone, Copy, Debug, PartialEq, Eq)]
pub enum RenewalFault {
    /// No anchor counts, or its next ones have no number, or it is one that is not to be written.
    NoAnchor,
    /// A call of this volume failed.
    Fault { vol: VolIx },
}

impl fmt::Display for RenewalFault {
    fn fmt<W: fmt::Write>(&self, f: &mut fmt::Formatter<W>) -> fmt::Result {
        match self {
            RenewalFault::NoAnchor => f.write_str("there is no anchor to renew"),
            RenewalFault::Fault { vol } => write!(f, "a call of volume {} failed", vol.number()),
        }
    }
}

impl Error for RenewalFault {}

/// Whether an anchor may be written, and has a next one.
pub fn is_whole(anchor: &Anchor) -> bool
    ensures whole { IsTrue result → IsWhole anchor.now }
    ensures number { IsTrue result → anchor.now.number + 2 < 2 ^ 64 }
{
    if anchor.log_vol < 1 || anchor.log_vol > 8 || anchor.number > u64::MAX - 2 {
        return false;
    }
    let is_version = anchor.version == 3 || anchor.version == 4;
    is_version && anchor.table.is_some() && anchor.slot <= 1 && anchor.has_log_member()
}

/// The anchor that comes next on the same volume, with all else as it is.
pub fn next_of(old: &Anchor) -> Anchor
    requires number { old.now.number + 1 < 2 ^ 64 }
    requires slot { old.now.slot ≤ 1 }
    ensures next { IsNext (Some old.now) result }
    ensures slot { result.slot ≡ 1 - old.now.slot }
    ensures number { result.number ≡ old.now.number + 1 }
    ensures volume { result.log_vol ≡ old.now.log_vol }
    ensures whole { IsWhole old.now → IsWhole result }
{
    Anchor {
        number: old.number + 1,
        slot: 1 - old.slot,
        ..*old
    }
}

fn of_anchor(fault: AnchorFault) -> RenewalFault {
    match fault {
        AnchorFault::NoAnchor => RenewalFault::NoAnchor,
        AnchorFault::Fault { vol } => RenewalFault::Fault { vol },
    }
}

fn of_slot(fault: SlotFault) -> RenewalFault {
    match fault {
        SlotFault::Read { vol } => RenewalFault::Fault { vol },
        SlotFault::Write { vol } => RenewalFault::Fault { vol },
    }
}

/// Reads the anchor of a rack on which nothing is pending on the pages of anchors, makes the slot
/// of its next one ready, and writes that and one more after it, which it answers. Then each image
/// that a stop may leave has the last one.
pub fn renew_twice<R: Rack>(rack: &mut R) -> Result<Anchor, RenewalFault>
    requires { Tells (R.disk rack.old) → AreAnchorsSynced (R.disk rack.old) }
    ensures { IfOk result (λ last.
        Tells (R.disk rack.old) → HasAnchor (R.disk rack.new) (Some last)) }
{
    let old = match read_anchor(rack) {
        Ok(old) => old,
        Err(fault) => return Err(of_anchor(fault)),
    };
    let Some(vol) = VolIx::new(old.log_vol) else {
        return Err(RenewalFault::NoAnchor);
    };
    if !is_whole(&old) || vol.number() > rack.volumes() || rack.pages(vol) < 2 {
        return Err(RenewalFault::NoAnchor);
    }
    let next = next_of(&old);
    match ready_slot(rack, vol, next.slot) {
        Ok(()) => {}
        Err(fault) => return Err(of_slot(fault)),
    }
    match write_anchor(rack, &next) {
        Ok(()) => {}
        Err(vol) => return Err(RenewalFault::Fault { vol }),
    }
    let last = next_of(&next);
    match write_anchor(rack, &last) {
        Ok(()) => Ok(last),
        Err(vol) => Err(RenewalFault::Fault { vol }),
    }
}
