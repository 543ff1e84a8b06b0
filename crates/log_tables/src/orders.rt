//! The whole order of calls, on a rack that tells what it holds.
ghost use Rattle.std.specs.Prelude.{IfSome, IsTrue};
ghost use Rattle.log_recovery.specs.volume_disk.Disk.{IsSettled};
ghost use Rattle.memory_disk.specs.Memory.{memory_disk};
ghost use Rattle.log_tables.specs.Opened.{IsAtRest};

use crate::changes::change_of;
use crate::counting::CountRack;
use crate::logs::{may_append, may_move_to, moved};
use crate::moves::move_log;
use crate::openings::{close_log, log_change, open_log};
use crate::racks::started;
use crate::seen::{NOTHING, Seen, look_at};
use file_pages::MetaLog;
use log_recovery::{Change, Rack};
use memory_disk::MemoryRack;
use std::alloc::Global;

/// Logs a change, if it may be appended: whether that passes.
fn is_logged(log: &mut MetaLog, rack: &mut MemoryRack, change: &Change) -> bool
    requires { IsAtRest (memory_disk rack.old) log.old }
    ensures { IsTrue result → IsAtRest (memory_disk rack.new) log.new }
{
    may_append(log, change) && log_change(log, rack, change)
}

/// How many steps pass: logging a change in a log that is opened, and closing the log.
fn steps_with(log: &mut MetaLog, rack: &mut MemoryRack, change: &Change) -> u32
    requires { IsAtRest (memory_disk rack.old) log.old }
{
    if !is_logged(log, rack, change) {
        return 1;
    }
    if close_log(log, rack) { 3 } else { 2 }
}

/// How many steps pass: opening the log of a rack that starts again, logging a change, and closing
/// the log.
fn steps_of(rack: &mut MemoryRack, alloc: Global, change: &Change) -> u32
    requires { IsSettled (memory_disk rack.old).now }
{
    match open_log(alloc, rack) {
        Ok(mut log) => steps_with(&mut log, rack, change),
        Err(_) => 0,
    }
}

/// A rack that starts again on what a stop right after the last call of one leaves. None if memory
/// ran out, or the rack does not keep its calls.
fn restarted(rack: &MemoryRack, alloc: Global) -> Option<MemoryRack>
    ensures { IfSome result (λ again. IsSettled (memory_disk again).now) }
{
    if !rack.keeps_calls() {
        return None;
    }
    match rack.image(alloc, rack.calls(), 1) {
        Ok(again) => Some(again),
        Err(_) => None,
    }
}

/// How many of these steps pass after a stop right after the last call, if a page full of 9 is
/// logged, and what is seen then.
pub fn after_stop(rack: &CountRack, alloc: Global) -> (u32, Seen) {
    match (restarted(&rack.rack, alloc), change_of(alloc, 2, &[11, 9])) {
        (Some(mut again), Some(change)) => {
            let steps = steps_of(&mut again, alloc, &change);
            (steps, look_at(&mut again, alloc))
        }
        _ => (0, NOTHING),
    }
}

/// How many steps pass of a log that is opened: closing it, and moving it to volume 3, of 140
/// pages.
fn moving_with(log: &mut MetaLog, rack: &mut MemoryRack) -> u32
    requires { IsAtRest (memory_disk rack.old) log.old }
{
    if !close_log(log, rack) {
        return 1;
    }
    let anchor = moved(log.anchor(), 140);
    if !may_move_to(log, rack, &anchor) {
        return 2;
    }
    match move_log(log, rack, &anchor) {
        Ok(()) => 4,
        Err(_) => 3,
    }
}

/// How many steps pass: opening the log of a rack that starts again, and these.
fn moving_steps(rack: &mut MemoryRack, alloc: Global) -> u32
    requires { IsSettled (memory_disk rack.old).now }
{
    match open_log(alloc, rack) {
        Ok(mut log) => moving_with(&mut log, rack),
        Err(_) => 0,
    }
}

/// The volume of the log that is opened after a stop right after the last call, or 0 if none is.
fn volume_opened(rack: &MemoryRack, alloc: Global) -> u32 {
    match restarted(rack, alloc) {
        Some(mut again) => match open_log(alloc, &mut again) {
            Ok(log) => log.anchor().log_vol,
            Err(_) => 0,
        },
        None => 0,
    }
}

/// The volume of the log that is opened on a rack with a third volume; how many steps pass then;
/// and the volume of the log that is opened after them.
pub fn moving(alloc: Global) -> [u64; 3] {
    match started(alloc, &[160, 80, 140], 1, 126, &[]) {
        Some((rack, _log)) => moving_on(&rack.rack, alloc),
        None => [0; 3],
    }
}

/// These three, of a rack that has them.
fn moving_on(rack: &MemoryRack, alloc: Global) -> [u64; 3] {
    match restarted(rack, alloc) {
        Some(mut again) => {
            let before = volume_opened(&again, alloc);
            let steps = moving_steps(&mut again, alloc);
            let after = volume_opened(&again, alloc);
            [u64::from(before), u64::from(steps), u64::from(after)]
        }
        None => [0; 3],
    }
}
