//! How a log that was recovered is settled: its images are brought home, and its start is moved
//! past them.
ghost use Rattle.std.specs.Prelude.{◌+◌, OnOk, Some, length};
ghost use Rattle.log_ring.specs.volume_disk.Disk.{Tells};
ghost use Rattle.log_ring.specs.volume_disk.Run.{IsAtMost, IsLaterBy, NamesWriteFault};
ghost use Rattle.log_ring.specs.disk_label.Anchor.{IsAnchor};
ghost use Rattle.log_ring.specs.Settling.{BringsHome, HasBroughtHome};
ghost use Rattle.log_recovery.specs.Outcome.{IsSound};
ghost use Rattle.log_recovery.specs.Readable.{SettlesReadably};
ghost use Rattle.log_recovery.specs.Settled.{HasNumbersLeft, settled_anchor};

use crate::Redone;
use log_ring::{Rack, VolIx, bring_home};

/// Settles a log as it was recovered: brings its images home, and writes the next anchor, with
/// which the log starts after them (`Redone::settled_anchor`). It reads nothing. Each home is
/// written once, with the last image of it, and each volume that was written is synced once, before
/// the anchor. The anchor that was recovered must still be the one that counts, and neither its
/// number nor that of the next group may be the last one (`Redone::has_numbers_left`). The error is
/// the volume, if its write or sync failed.
///
/// The contract says what a stop may leave if the log stands as it was recovered on each image that
/// a stop might leave at the start, and the slot of the next anchor is ready (`MaySettle`;
/// `recovery_laws` gives the premise here). Recovery accepts each image since then, if the anchor
/// is good on each image of the start.
pub fn settle<R: Rack>(rack: &mut R, redone: &Redone) -> Result<(), VolIx>
    requires sound { IsSound (R.disk rack.old).sizes redone.now }
    requires left { HasNumbersLeft redone.now }
    requires counts { let old = R.disk rack.old in
        Tells old → IsAnchor old.sizes old.now.contents (Some redone.now.anchor) }
    ensures brings { BringsHome (R.disk rack.old) (R.disk rack.new) redone.now.images
        (settled_anchor redone.now) }
    ensures done { OnOk result (HasBroughtHome (R.disk rack.old) (R.disk rack.new)
        redone.now.images (settled_anchor redone.now)) }
    ensures readable { SettlesReadably (R.disk rack.old) (R.disk rack.new) redone.now }
    ensures later { OnOk result (IsLaterBy 6 (R.disk rack.old) (R.disk rack.new)) }
    ensures few { IsAtMost (length redone.now.images + 14) (R.disk rack.old) (R.disk rack.new) }
    ensures fault { NamesWriteFault (R.disk rack.old) (R.disk rack.new) result }
{
    let next = redone.settled_anchor();
    bring_home(rack, redone.images.as_slice(), &next)
}
