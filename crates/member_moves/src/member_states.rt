//! A caller of `with_state`, proved only from its contract.
ghost use Rattle.std.specs.Prelude.{◌≡◌, ◌<◌, ◌⊎◌, IsNone, IfSome};
ghost use Rattle.log_recovery.specs.log_ring.Homes.{IsMember, member_of};
ghost use Rattle.member_moves.specs.Changes.{IsTableOn, with_entry};

use crate::members::{has_log, has_table, with_state};
use log_recovery::{Anchor, VolIx, is_member};

/// The anchor by which a member is open, closed or taken off, at state 1, 2 or 0. Returns None only
/// if the volume is no member, there is no such state, or the member that would be taken off has
/// the log or the fileset table. Returning None then is what `with_state` requires.
pub fn in_state(anchor: &Anchor, vol: VolIx, state: u32) -> Option<Anchor>
    ensures changed { IfSome result (λ changed.
        changed ≡ with_entry vol (record (member_of anchor.now vol) { state = state }) anchor.now) }
    ensures refused { IsNone result
        → ((¬ IsMember anchor.now vol) ⊎ ((2 < state)
        ⊎ ((state ≡ 0) × ((anchor.now.log_vol ≡ vol) ⊎ IsTableOn anchor.now vol)))) }
{
    let is_needed = has_log(anchor, vol) || has_table(anchor, vol);
    if !is_member(anchor, vol) || state > 2 || (state == 0 && is_needed) {
        return None;
    }
    Some(with_state(anchor, vol, state))
}
