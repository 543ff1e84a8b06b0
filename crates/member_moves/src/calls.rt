//! The calls, each made only if its condition holds. If it does not hold, nothing is done, and the
//! call says this.
ghost use Rattle.std.specs.Prelude.{◌≡◌, ◌≤◌};

use crate::page_move::is_same;
use crate::{Moves, Phase};
use log_recovery::{Home, VolIx};

/// A volume and a page of it.
pub type Place = (u32, u32);

/// The home at a page of one of the volumes 1 to 8.
pub fn home(vol: u32, page: u32) -> Home
    requires { (1 ≤ vol) × (vol ≤ 8) }
{
    let vol = VolIx::new(vol).unwrap();
    Home { vol, page }
}

/// The number of a home's volume and that of its page.
pub fn place(home: &Home) -> Place {
    (home.vol.number(), home.page)
}

/// Starts a move, unless the two homes are the same, 64 moves are in flight or one of them has one
/// of these homes.
pub fn start(moves: &mut Moves, from: &Home, to: &Home) -> bool {
    if moves.is_full() || moves.is_moving(*from) || moves.is_moving(*to) || is_same(from, to) {
        return false;
    }
    moves.start(*from, *to);
    true
}

/// Notes that the page was copied, unless its place was changed or it is not moving.
pub fn copy(moves: &mut Moves, from: &Home) -> bool {
    match moves.phase_of(*from) {
        Some(Phase::Reserved) | Some(Phase::Copied) => {
            moves.copied(*from);
            true
        }
        _ => false,
    }
}

/// Notes that the page's place was changed, if it was copied and the place was not changed yet.
pub fn switch(moves: &mut Moves, from: &Home) -> bool {
    if !moves.may_switch(*from) {
        return false;
    }
    moves.switched(*from);
    true
}

/// Ends a move, if the page's place was changed.
pub fn finish(moves: &mut Moves, from: &Home) -> bool {
    match moves.phase_of(*from) {
        Some(Phase::Switched) => {
            moves.finish(*from);
            true
        }
        _ => false,
    }
}

/// Ends a move of a page whose place was not changed, and returns the place that was reserved.
/// Returns None if there is no such move.
pub fn abandon(moves: &mut Moves, from: &Home) -> Option<Place> {
    match moves.phase_of(*from) {
        Some(Phase::Reserved) | Some(Phase::Copied) => {
            let reserved = moves.abandon(*from);
            Some(place(&reserved))
        }
        _ => None,
    }
}

/// Where a page is written.
pub fn writes(moves: &Moves, at: &Home) -> (Place, Option<Place>) {
    let (first, second) = moves.writes_of(*at);
    (place(&first), second.as_ref().map(place))
}
