//! A pass: the right of one actor to take the turn.
ghost use Rattle.std.specs.Prelude.{◌≡◌, [], ◌∷◌, is_some};
ghost use Rattle.domain_turn.specs.Plays.{carried_by, share_in};

use crate::rule::Place;

/// The right of one actor to take the turn, and what it knows of it. Passes are numbered: 0 to 7
/// are those of the clients 1 to 8, 8 is the mover's, and 9 the flusher's.
#[derive(Drop)]
pub struct Pass<T> {
    pub(crate) seat: Place<T>,
    pub(crate) number: u8,
    pub(crate) left: u32,
    ghost numbered: { number ≡ (share_in seat.me.0).number },
    ghost may_add: { left ≡ (share_in seat.me.0).left },
    ghost one: { seat.me.0.shares ≡ share_in seat.me.0 ∷ [] },
    ghost carried: { seat.me.1 ≡ carried_by seat.me.0.holds },
    ghost queued: { is_some seat.me.0.ticket ≡ is_some seat.me.0.holds },
}

impl<T> Pass<T> {
    ghost use Rattle.domain_turn.specs.Passes.{known};

    /// Its number.
    pub fn number(&self) -> u8
        ensures { result ≡ (known self.now).number }
    {
        self.number
    }

    /// How many entries it may still add.
    pub fn left(&self) -> u32
        ensures { result ≡ (known self.now).left }
    {
        self.left
    }
}
