//! A caller of the whole order: a log is recovered and settled, goes on after that, and is brought
//! home. Each call's conditions are met by what the calls before it promise, and so is what the
//! order as a whole leaves.
ghost use Rattle.std.specs.Prelude.{◌≡◌, ◌⊎◌, ◌^◌, ◌≤◌, IfErr, IfOk, IsFalse, IsTrue, [], length};
ghost use Rattle.log_recovery.specs.volume_disk.Disk.{IsSettled, Tells};
ghost use Rattle.log_recovery.specs.volume_disk.Run.{Touches};
ghost use Rattle.log_recovery.specs.log_ring.Ring.{IsOnLog};
ghost use Rattle.file_pages.specs.meta_log.Checkpoint.{next_anchor};
ghost use Rattle.file_pages.specs.meta_log.Log.{new_log};
ghost use Rattle.log_recovery.specs.Settling.{StandsAtHome, StaysRead};
ghost use Rattle.log_tables.specs.Calls.{MayAppend};
ghost use Rattle.log_tables.specs.Opened.{
  Adds,
  AddsOrNot,
  ComesHome,
  GoesOnBehind,
  HasFailed,
  HasOpenCause,
  IsAtRest,
  ReadsAsBefore,
  WasFull,
};

use file_pages::MetaLog;
use log_recovery::{Change, Rack, RecoverFault, SlotFault, VolIx, ready_slot, recover, settle};
use std::alloc::Global;

/// Why a log is not opened.
#[derive(Clone, Copy)]
pub enum OpenFault {
    /// It was not recovered.
    Recovering(RecoverFault),
    /// The last numbers were given.
    NoNumbers,
    /// The slot of the next anchor was not made ready.
    Readying(SlotFault),
    /// A write or a sync of this volume failed while the log was settled.
    Settling(VolIx),
    /// No memory could be had.
    OutOfMemory,
}

/// Opens the log of a rack on which nothing is pending: recovers it, makes the slot of the next
/// anchor ready, and settles it. It has no group then, since all pages are home, and its anchor is
/// the one that settling writes for what was recovered. Whatever it answers, recovery takes each
/// image that a stop may leave, with the pages that the rack's had at the start once redone.
pub fn open_log<R: Rack>(alloc: Global, rack: &mut R) -> Result<MetaLog, OpenFault>
    requires { Tells (R.disk rack.old) → IsSettled (R.disk rack.old).now }
    ensures rests { IfOk result (λ log. IsAtRest (R.disk rack.new) log) }
    ensures behind { IfOk result (λ log. log ≡ new_log log.anchor) }
    ensures settled { IfOk result (GoesOnBehind (R.disk rack.old)) }
    ensures home { IfOk result (λ _. StandsAtHome (R.disk rack.old) (R.disk rack.new)) }
    ensures any_moment { StaysRead (R.disk rack.old) (R.disk rack.new) }
    ensures cause { IfErr result (HasOpenCause (R.disk rack.old) (R.disk rack.new)) }
{
    let redone = match recover(alloc, rack) {
        Ok(redone) => redone,
        Err(fault) => return Err(OpenFault::Recovering(fault)),
    };
    let Some(vol) = VolIx::new(redone.anchor.log_vol) else {
        unreachable!()
    };
    if !redone.has_numbers_left() {
        return Err(OpenFault::NoNumbers);
    }
    let next = redone.settled_anchor();
    match ready_slot(rack, vol, next.slot) {
        Ok(()) => {}
        Err(fault) => return Err(OpenFault::Readying(fault)),
    }
    match settle(rack, &redone) {
        Ok(()) => {}
        Err(vol) => return Err(OpenFault::Settling(vol)),
    }
    match MetaLog::new(alloc, &next) {
        Ok(log) => Ok(log),
        Err(_) => Err(OpenFault::OutOfMemory),
    }
}

/// Appends a change and forces it: whether that passes. Then the log has one group more, of that
/// change; each image that a stop may leave meanwhile has it whole or not at all. It touches no
/// more than the ring. It does not pass where the log has no place for it, and then nothing was
/// done, or where a write or a sync failed.
pub fn log_change<R: Rack>(log: &mut MetaLog, rack: &mut R, change: &Change) -> bool
    requires may { MayAppend log.old change.now }
    requires rests { IsAtRest (R.disk rack.old) log.old }
    ensures rests { IsTrue result → IsAtRest (R.disk rack.new) log.new }
    ensures adds { IsTrue result
        → Adds (R.disk rack.old) (R.disk rack.new) log.old log.new change.now }
    ensures touches { Touches (R.disk rack.old) (R.disk rack.new) (IsOnLog log.old.anchor) }
    ensures any_moment { AddsOrNot (R.disk rack.old) (R.disk rack.new) log.old change.now }
    ensures refused { let old = R.disk rack.old in let new = R.disk rack.new in
        IsFalse result → WasFull old new log.old log.new (length change.now) ⊎ HasFailed old new }
{
    // called to learn what holds of every change
    let _images = change.images();
    match log.append(change) {
        Ok(_) => {}
        Err(_) => return false,
    }
    match log.force(rack) {
        Ok(_) => true,
        Err(_) => false,
    }
}

/// Brings a log home on its ring: whether that passes. Then it has no group, and the next anchor of
/// its ring. Each image that a stop
/// may leave meanwhile is taken by recovery, with the pages of one of the start. It does not pass
/// where a write or a sync failed, or the anchor has a number of 2^60 or more.
pub fn close_log<R: Rack>(log: &mut MetaLog, rack: &mut R) -> bool
    requires { IsAtRest (R.disk rack.old) log.old }
    ensures rests { IsTrue result → IsAtRest (R.disk rack.new) log.new }
    ensures behind { IsTrue result → log.new ≡ new_log (next_anchor log.old log.old.anchor) }
    ensures home { IsTrue result → ComesHome (R.disk rack.old) (R.disk rack.new) log.old }
    ensures any_moment { ReadsAsBefore (R.disk rack.old) (R.disk rack.new) log.old }
    ensures refused { IsFalse result → (2 ^ 60 ≤ log.old.anchor.number)
        ⊎ HasFailed (R.disk rack.old) (R.disk rack.new) }
{
    // called to learn what holds of every log
    let _room = log.room();
    let anchor = *log.anchor();
    if anchor.number >= 1 << 60 {
        return false;
    }
    match log.checkpoint(rack, &anchor) {
        Ok(_) => true,
        Err(_) => false,
    }
}
