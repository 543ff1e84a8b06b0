//! The rule of the table that carries a turn, and what each step on it tells.
ghost use Rattle.std.specs.Prelude.{[], ◌∷◌, ◌++◌};
ghost use Rattle.domain_turn.specs.Kept.{Kept, first_view, resting};
ghost use Rattle.domain_turn.specs.Plays.{draws, ends, first_of, looks, notes, passes_on, puts, rest_of, sees_committed, sees_durable, sees_ends};
ghost use Rattle.domain_turn.specs.Telling.{telling};

use crate::view::{Beginning, View};
use atomic_table::{Join, Play, Seat, Shared, Split, TableRule};
use fileset_values::Told;

/// Tickets are served one after the other, and the one who is served has the value.
pub struct InTurn;

impl<T: Told> TableRule<Option<T>, View<T>, Beginning<T>> for InTurn {
    ghost holds = { Kept (telling T.history T.lasting T.rests T.room T.begun) };

    ghost first = { first_view (telling T.history T.lasting T.rests T.room T.begun) };
}

/// The words and the slot of a turn.
pub(crate) type Queue<T> = Shared<Option<T>, View<T>, Beginning<T>, InTurn>;

/// A seat at a turn.
pub(crate) type Place<T> = Seat<Option<T>, View<T>>;

/// The first pass of a seat that has several goes to a seat of its own.
pub(crate) struct OffFirst;

impl<T> Split<View<T>> for OffFirst {
    ghost left = { λ view. resting (rest_of view.shares) };

    ghost right = { λ view. resting (first_of view.shares ∷ []) };
}

/// The passes of both seats on one.
pub(crate) struct Together;

impl<T> Join<View<T>> for Together {
    ghost both = { λ view other. resting (view.shares ++ other.shares) };

    ghost spent = { resting [] };
}

pub(crate) struct Draw;

impl<T> Play<Option<T>, View<T>> for Draw {
    ghost then = { draws };
}

pub(crate) struct Look;

impl<T: Told> Play<Option<T>, View<T>> for Look {
    ghost then = { looks (telling T.history T.lasting T.rests T.room T.begun) };
}

pub(crate) struct Publish;

impl<T: Told> Play<Option<T>, View<T>> for Publish {
    ghost then = { puts (telling T.history T.lasting T.rests T.room T.begun) };
}

pub(crate) struct PassOn;

impl<T> Play<Option<T>, View<T>> for PassOn {
    ghost then = { passes_on };
}

pub(crate) struct Note;

impl<T> Play<Option<T>, View<T>> for Note {
    ghost then = { notes };
}

pub(crate) struct SeeCommitted;

impl<T> Play<Option<T>, View<T>> for SeeCommitted {
    ghost then = { sees_committed };
}

pub(crate) struct SeeDurable;

impl<T> Play<Option<T>, View<T>> for SeeDurable {
    ghost then = { sees_durable };
}

pub(crate) struct End;

impl<T> Play<Option<T>, View<T>> for End {
    ghost then = { ends };
}

pub(crate) struct SeeEnds;

impl<T> Play<Option<T>, View<T>> for SeeEnds {
    ghost then = { sees_ends };
}
