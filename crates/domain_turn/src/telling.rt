//! What a pass tells about the turn without taking it.
ghost use Rattle.std.specs.Prelude.{◌≡◌, ◌≤◌, length, max, true, false};
ghost use Rattle.domain_turn.specs.Passes.{in_hand, known};
ghost use Rattle.domain_turn.specs.Turns.{IsPassOf};

use crate::pass::Pass;
use crate::rule::{End, Note, SeeCommitted, SeeDurable, SeeEnds};
use crate::table::Turn;
use fileset_values::Told;

/// A lower bound of the history's length, and how much of it lasts.
#[derive(Clone, Copy, Debug, PartialEq, Eq)]
pub struct Front {
    pub committed: u64,
    pub durable: u64,
}

impl<T: Told> Turn<T> {
    /// Lets all passes see that `durable` entries last. It neither waits nor takes memory.
    pub fn note_durable(&self, pass: &mut Pass<T>, durable: u64)
        requires here { IsPassOf self.now pass.old }
        requires lasting { durable ≤ (known pass.old).lasting }
        ensures here { IsPassOf self.now pass.new }
        ensures known { known pass.new ≡ record (known pass.old)
            { durable = max (known pass.old).durable durable } }
        ensures same { in_hand pass.new ≡ in_hand pass.old }
    {
        self.table
            .shared
            .fetch_max::<Note>(&mut pass.seat, 3, durable);
    }

    /// A lower bound of the history's length, and how much of it lasts. It neither waits nor takes
    /// memory.
    pub fn front(&self, pass: &mut Pass<T>) -> Front
        requires here { IsPassOf self.now pass.old }
        ensures here { IsPassOf self.now pass.new }
        ensures committed { length (known pass.old).seen ≤ result.committed }
        ensures later { ((known pass.old).committed ≤ result.committed)
            × ((known pass.old).durable ≤ result.durable) }
        ensures bounded { result.durable ≤ result.committed }
        ensures known { known pass.new ≡ record (known pass.old)
            { committed = result.committed; durable = result.durable } }
        ensures same { in_hand pass.new ≡ in_hand pass.old }
    {
        let queue = &self.table.shared;
        let durable = queue.load::<SeeDurable>(&mut pass.seat, 3);
        let committed = queue.load::<SeeCommitted>(&mut pass.seat, 2);
        Front { committed, durable }
    }

    /// Says that this pass has ended: its actor asks for no more turns.
    pub fn end(&self, pass: &mut Pass<T>)
        requires here { IsPassOf self.now pass.old }
        requires once { (known pass.old).ended ≡ false }
        ensures here { IsPassOf self.now pass.new }
        ensures known { known pass.new ≡ record (known pass.old) { ended = true } }
        ensures same { in_hand pass.new ≡ in_hand pass.old }
    {
        self.table.shared.fetch_add::<End>(&mut pass.seat, 4, 1);
    }

    /// How many passes have ended, at least as many as this pass saw before.
    pub fn ended(&self, pass: &mut Pass<T>) -> u64
        requires here { IsPassOf self.now pass.old }
        ensures here { IsPassOf self.now pass.new }
        ensures later { (known pass.old).ends ≤ result }
        ensures known { known pass.new ≡ record (known pass.old) { ends = result } }
        ensures same { in_hand pass.new ≡ in_hand pass.old }
    {
        self.table.shared.load::<SeeEnds>(&mut pass.seat, 4)
    }
}
