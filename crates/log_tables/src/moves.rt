//! A caller that moves a log to another volume.
ghost use Rattle.std.specs.Prelude.{◌≡◌, IfErr, OnOk, []};
ghost use Rattle.log_recovery.specs.volume_disk.Disk.{Tells};
ghost use Rattle.log_recovery.specs.volume_disk.Run.{Touches};
ghost use Rattle.log_recovery.specs.disk_label.Fault.{HasSlotCause};
ghost use Rattle.log_recovery.specs.Readable.{WouldBeGoodNow};
ghost use Rattle.file_pages.specs.meta_log.Checkpoint.{next_anchor};
ghost use Rattle.file_pages.specs.meta_log.Log.{new_log};
ghost use Rattle.log_tables.specs.Moves.{IsMoving, MayMoveTo, MovesReadably};
ghost use Rattle.log_tables.specs.Opened.{IsAtRest};

use file_pages::MetaLog;
use log_recovery::limits::BLOCKS_PER_PAGE;
use log_recovery::{Anchor, Rack, SlotFault, VolIx, close_gate, ready_slot, sync_volumes};

/// Moves a log that is home to a ring on another volume, by an anchor that is given but for its
/// number, slot, start and group: makes both slots of the volume ready, closes the gate at which
/// the log is to begin, and writes the anchor. It touches no more than the page of anchors there
/// and that gate. Recovery takes each image that a stop may leave meanwhile, where the new anchor
/// would be good at the start, and then the log rests there as it did. The fault says of which
/// volume a call failed.
pub fn move_log<R: Rack>(log: &mut MetaLog, rack: &mut R, given: &Anchor) -> Result<(), SlotFault>
    requires rests { IsAtRest (R.disk rack.old) log.old }
    requires home { log.old.logged ≡ [] }
    requires may { MayMoveTo (R.disk rack.old).sizes log.old given.now }
    ensures touches { Touches (R.disk rack.old) (R.disk rack.new) (IsMoving given.now) }
    ensures any_moment { let next = next_anchor log.old given.now in
        MovesReadably (R.disk rack.old) (R.disk rack.new) next }
    ensures rests { let next = next_anchor log.old given.now in OnOk result
        ((Tells (R.disk rack.old) → WouldBeGoodNow (R.disk rack.old) next)
        → IsAtRest (R.disk rack.new) log.new) }
    ensures moved { OnOk result (log.new ≡ new_log (next_anchor log.old given.now)) }
    ensures cause { IfErr result (HasSlotCause (R.disk rack.old) (R.disk rack.new)) }
{
    // called to learn what holds of every log
    let _room = log.room();
    let Some(vol) = VolIx::new(given.log_vol) else {
        unreachable!()
    };
    match sync_volumes(rack) {
        Ok(()) => {}
        Err(vol) => return Err(SlotFault::Write { vol }),
    }
    match ready_slot(rack, vol, 0) {
        Ok(()) => {}
        Err(fault) => return Err(fault),
    }
    match ready_slot(rack, vol, 1) {
        Ok(()) => {}
        Err(fault) => return Err(fault),
    }
    match close_gate(rack, vol, BLOCKS_PER_PAGE * given.log_page) {
        Ok(()) => {}
        Err(vol) => return Err(SlotFault::Write { vol }),
    }
    match log.checkpoint(rack, given) {
        Ok(_) => Ok(()),
        Err(vol) => Err(SlotFault::Write { vol }),
    }
}
