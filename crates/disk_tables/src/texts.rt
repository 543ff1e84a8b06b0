//! What errors of racks, anchors and slots say.

use crate::renewals::RenewalFault;
use disk_label::{AnchorFault, Failed, SlotFault, VolIx};
use table_words::Told;

/// Tells what errors of anchors say, of volume 3 if they name one.
pub fn of_anchors(told: &mut Told) {
    let vol = VolIx::new(3).unwrap();
    told.push(": ");
    told.push_shown(&AnchorFault::NoAnchor);
    told.push(", ");
    told.push_shown(&AnchorFault::Fault { vol });
    told.push("; ");
    told.push_shown(&RenewalFault::NoAnchor);
    told.push(", ");
    told.push_shown(&RenewalFault::Fault { vol });
}

/// Tells what errors of slots and of calls say, of volume 3 if they name one.
pub fn of_slots(told: &mut Told) {
    let vol = VolIx::new(3).unwrap();
    told.push(": ");
    told.push_shown(&SlotFault::Read { vol });
    told.push(", ");
    told.push_shown(&SlotFault::Write { vol });
    told.push(", ");
    told.push_shown(&Failed);
}
