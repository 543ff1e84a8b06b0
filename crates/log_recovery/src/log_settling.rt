//! Settling a log that was recovered.
ghost use Rattle.std.specs.Prelude.{◌≡◌, ◌+◌, [], IfErr, IfOk, List, length};
ghost use Rattle.log_ring.specs.disk_label.Fault.{HasPassed};
ghost use Rattle.log_recovery.specs.Outcome.{HasRecovered, IsSound};
ghost use Rattle.log_recovery.specs.Settled.{settled_anchor};
ghost use Rattle.log_ring.specs.Groups.{Group};
ghost use Rattle.log_ring.specs.volume_disk.Disk.{IsSettled, Tells};
ghost use Rattle.log_ring.specs.volume_disk.Run.{IsAtMost, Touches};
ghost use Rattle.log_recovery.specs.Settling.{Anywhere, HasCause, IsBehindAll, IsNextReady, StandsAtHome, StaysRead};

use crate::{Redone, SettleFault, settle};
use log_ring::{Anchor, Rack, VolIx, ready_slot};

/// Settles a log as it was recovered, on a rack on which nothing is pending: makes the slot of the
/// next anchor ready, brings the images home, and writes that anchor, which it returns. The log
/// then has no group after it, all pages stand at their homes, nothing is pending, and the slot of
/// the anchor after it is ready. Whatever it returns, recovery accepts each image that a stop may
/// leave since then. Its anchor says what it said, but for where the log starts, and each page
/// except those of anchors is then as it was once the log was redone.
///
/// Fails with `NoNumbers` if the anchor or the next group has the last number that there is; then
/// nothing was done. Fails with `Slot` or `Write` if a call failed on the volume that they name.
pub fn settle_log<R: Rack>(rack: &mut R, redone: &Redone) -> Result<Anchor, SettleFault>
    requires pending { Tells (R.disk rack.old) → IsSettled (R.disk rack.old).now }
    requires sound { IsSound (R.disk rack.old).sizes redone.now }
    requires recovered { let old = R.disk rack.old in Tells old
        → (groups : List Group) × HasRecovered old.sizes old.now.contents groups redone.now }
    ensures anchor { IfOk result (λ anchor. anchor ≡ settled_anchor redone.now) }
    ensures behind { IfOk result (IsBehindAll (R.disk rack.new)) }
    ensures home { IfOk result (λ _. StandsAtHome (R.disk rack.old) (R.disk rack.new)) }
    ensures settled { IfOk result (λ _. Tells (R.disk rack.old) → IsSettled (R.disk rack.new).now) }
    ensures ready { IfOk result (λ anchor. Tells (R.disk rack.old)
        → IsNextReady (R.disk rack.new) anchor) }
    ensures few { IsAtMost (length redone.now.images + 17) (R.disk rack.old) (R.disk rack.new) }
    ensures any_moment { StaysRead (R.disk rack.old) (R.disk rack.new) }
    ensures passed { IfOk result (λ _. HasPassed (R.disk rack.old) (R.disk rack.new)) }
    ensures touches { Touches (R.disk rack.old) (R.disk rack.new) Anywhere }
    ensures cause { IfErr result (HasCause (R.disk rack.old) (R.disk rack.new) redone.now) }
{
    if !redone.has_numbers_left() {
        return Err(SettleFault::NoNumbers);
    }
    let Some(vol) = VolIx::new(redone.anchor.log_vol) else {
        unreachable!()
    };
    let next = redone.settled_anchor();
    match ready_slot(rack, vol, next.slot) {
        Ok(()) => {}
        Err(fault) => return Err(SettleFault::Slot(fault)),
    }
    match settle(rack, redone) {
        Ok(()) => Ok(next),
        Err(vol) => Err(SettleFault::Write { vol }),
    }
}
