//! What is recovered of a log, and how it is settled.

use crate::answers::{Answer, is_done, say_after, say_answer, volume_of};
use crate::counting::CountRack;
use crate::reading::say_numbers;
use file_pages::{FrameFault, MetaLog};
use log_recovery::{Rack, RecoverFault, VolIx, ready_slot, recover, settle, settle_log};
use std::alloc::Global;
use table_words::Told;

/// Says what recovery answers: the number and the place of the next group and how many images there
/// are; the volume and page at which there is no domain; or the volume of which a read failed.
pub fn say_found<R: Rack>(rack: &mut R, alloc: Global, told: &mut Told) {
    match recover(alloc, rack) {
        Ok(redone) => {
            let (next, place) = (redone.next_group, u64::from(redone.next_place));
            told.push(": log");
            say_numbers(told, &[next, place, redone.images.as_slice().len() as u64]);
        }
        Err(fault) => say_fault(&fault, told),
    }
}

fn say_fault(fault: &RecoverFault, told: &mut Told) {
    match fault {
        RecoverFault::NotADomain { vol, at } => {
            told.push_pair(": no domain: ", u64::from(*vol), " ", u64::from(*at));
        }
        RecoverFault::Fault { vol } => say_after(told, ": unread: ", u64::from(vol.number())),
        RecoverFault::OutOfMemory => told.push(": no memory"),
    }
}

/// Says the texts of faults of recovery, of volume 2 and of page 7 of volume 3 if they name one.
pub fn say_recovery_faults(told: &mut Told) {
    let Some(vol) = VolIx::new(2) else {
        return;
    };
    told.push(": ");
    told.push_shown(&RecoverFault::Fault { vol });
    told.push("; ");
    told.push_shown(&RecoverFault::NotADomain { vol: 3, at: 7 });
    told.push("; ");
    told.push_shown(&RecoverFault::OutOfMemory);
}

/// Says the texts of faults of frames, of volume 2 if they name one.
pub fn say_frame_faults(told: &mut Told) {
    let Some(vol) = VolIx::new(2) else {
        return;
    };
    told.push(": ");
    told.push_shown(&FrameFault::Read { vol });
    told.push("; ");
    told.push_shown(&FrameFault::OutOfMemory);
}

/// Whether a log is recovered that has no number left.
pub fn has_no_number_left<R: Rack>(rack: &mut R, alloc: Global) -> bool {
    match recover(alloc, rack) {
        Ok(redone) => !redone.has_numbers_left(),
        Err(_) => false,
    }
}

/// Makes both slots of volume 1 ready: whether that passes.
pub fn make_ready(rack: &mut CountRack) -> bool {
    let Some(vol) = VolIx::new(1) else {
        return false;
    };
    if rack.volumes() < 1 || rack.pages(vol) < 2 {
        return false;
    }
    if ready_slot(rack, vol, 0).is_err() {
        return false;
    }
    rack.volumes() >= 1 && rack.pages(vol) >= 2 && ready_slot(rack, vol, 1).is_ok()
}

/// Recovers a log and settles it.
pub fn recover_and_settle(rack: &mut CountRack, alloc: Global) -> Answer {
    match recover(alloc, rack) {
        Ok(redone) => {
            if !redone.has_numbers_left() {
                return Answer::Unfit;
            }
            match settle(rack, &redone) {
                Ok(()) => Answer::Done(0),
                Err(vol) => Answer::Failed(vol.number()),
            }
        }
        Err(_) => Answer::Unfit,
    }
}

/// Recovers a log and settles it by one call, which makes the slot of the next anchor ready too.
pub fn settle_whole(rack: &mut CountRack, alloc: Global) -> Answer {
    match recover(alloc, rack) {
        Ok(redone) => match settle_log(rack, &redone) {
            Ok(_) => Answer::Done(0),
            Err(_) => Answer::Unfit,
        },
        Err(_) => Answer::Unfit,
    }
}

/// Says that a log was settled, or the volume of which a call failed.
pub fn say_settled(told: &mut Told, answer: Answer) {
    if is_done(answer) {
        told.push(": home");
    } else if volume_of(answer) > 0 {
        say_after(told, ": unwritten ", u64::from(volume_of(answer)));
    } else {
        say_answer(told, answer);
    }
}

/// The log that is recovered, if one is.
pub fn recovered(rack: &mut CountRack, alloc: Global) -> Option<MetaLog> {
    match recover(alloc, rack) {
        Ok(redone) => MetaLog::new(alloc, &redone.anchor).ok(),
        Err(_) => None,
    }
}
