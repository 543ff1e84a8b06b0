//! Taking the turn, and putting it back.
ghost use Rattle.std.specs.Prelude.{◌≡◌, ◌%◌, ◌^◌, [], ◌∷◌, length, Some, None, IsSomeAnd, Contains};
ghost use Rattle.domain_turn.specs.Passes.{in_hand, known};
ghost use Rattle.domain_turn.specs.Plays.{Finds, MayPut, holding, share_in, with_put, with_taken};
ghost use Rattle.domain_turn.specs.Telling.{telling};
ghost use Rattle.domain_turn.specs.Turns.{IsPassOf};

use crate::pass::Pass;
use crate::rule::{Draw, Look, PassOn, Place, Publish, Queue};
use crate::table::Turn;
use fileset_values::Told;
use std::sync::Wait;

/// The low 32 bits.
fn low_half(word: u64) -> u32 {
    (word % (1 << 32)) as u32
}

/// Waits until the seat's ticket is served, and takes the value.
fn wait_for<T: Told, R: Wait>(rt: &R, queue: &Queue<T>, seat: &mut Place<T>, ticket: u64) -> T
    requires here { (seat.old.table_id ≡ queue.now.table_id) × (queue.now.table_id.words ≡ 5) × (queue.now.table_id.slots ≡ 1) }
    requires queued { IsSomeAnd seat.old.me.0.ticket (λ mine. ticket ≡ mine % 2 ^ 64) }
    requires free { (seat.old.me.0.holds ≡ None) × (seat.old.me.0.shares ≡ share_in seat.old.me.0 ∷ []) × (seat.old.me.1 ≡ []) }
    ensures same { (seat.new.table_id ≡ seat.old.table_id) × (seat.new.id ≡ seat.old.id) }
    ensures found { Finds (telling T.history T.lasting T.rests T.room T.begun) (share_in seat.old.me.0) result }
    ensures taken { IsSomeAnd seat.old.me.0.ticket (λ mine. seat.new.me
        ≡ (
          holding (with_taken (telling T.history T.lasting T.rests T.room T.begun)
              (share_in seat.old.me.0) result) mine result,
          (0, None) ∷ [],
        )) }
{
    for _ in rt.forever() {
        let served = queue.load::<Look>(seat, 1);
        if served == ticket {
            let Some(value) = queue.exchange(seat, 0, None) else {
                unreachable!()
            };
            return value;
        }
        queue.park(rt, 1, low_half(served));
    }
    unreachable!()
}

impl<T: Told> Turn<T> {
    /// Waits until those who asked before have put the value back, and takes it.
    pub fn take<R: Wait>(&self, rt: &R, pass: &mut Pass<T>) -> T
        requires here { IsPassOf self.now pass.old }
        requires free { in_hand pass.old ≡ None }
        ensures here { IsPassOf self.now pass.new }
        ensures found { Finds (telling T.history T.lasting T.rests T.room T.begun)
            (known pass.old) result }
        ensures taken { in_hand pass.new ≡ Some result }
        ensures known { known pass.new
            ≡ with_taken (telling T.history T.lasting T.rests T.room T.begun) (known pass.old) result }
    {
        let queue = &self.table.shared;
        let ticket = queue.fetch_add::<Draw>(&mut pass.seat, 0, 1);
        wait_for(rt, queue, &mut pass.seat, ticket)
    }

    /// Puts the value back, with what this pass did to it, and serves the next one who asked. The
    /// number is the length of its history.
    pub fn put_back(&self, pass: &mut Pass<T>, value: T, committed: u64)
        requires here { IsPassOf self.now pass.old }
        requires put { IsSomeAnd (in_hand pass.old) (λ taken.
            MayPut (telling T.history T.lasting T.rests T.room T.begun) (known pass.old) taken value) }
        requires committed { committed ≡ length (T.history value) }
        ensures here { IsPassOf self.now pass.new }
        ensures free { in_hand pass.new ≡ None }
        ensures known { IsSomeAnd (in_hand pass.old) (λ taken. known pass.new
            ≡ with_put (telling T.history T.lasting T.rests T.room T.begun)
            (known pass.old) taken value) }
    {
        let queue = &self.table.shared;
        match queue.exchange(&mut pass.seat, 0, Some(value)) {
            None => {}
            Some(_) => unreachable!(),
        }
        let before = queue.swap::<Publish>(&mut pass.seat, 2, committed);
        queue.fetch_add::<PassOn>(&mut pass.seat, 1, 1);
        pass.left = (u64::from(pass.left) - (committed - before)) as u32;
        queue.wake_all(1);
    }
}
