//! How a turn begins, and how it ends.
ghost use Rattle.std.specs.Prelude.{◌≡◌, ◌⊎◌, ◌+◌, ◌≤◌, ◌∷◌, ◌++◌, [], length, map, Contains, None, Some, IfErr, IfOk, vec_capacity, vec_len};
ghost use Rattle.domain_turn.specs.declared.pass.Pass.{Pass as PassOf};
ghost use Rattle.domain_turn.specs.Kept.{resting, shares_from};
ghost use Rattle.domain_turn.specs.Passes.{IsLast, in_hand, known};
ghost use Rattle.domain_turn.specs.Plays.{first_of, rest_of};
ghost use Rattle.domain_turn.specs.Telling.{telling};
ghost use Rattle.domain_turn.specs.Turns.{IsPassOf, passes_of, start_of};
ghost use Rattle.domain_turn.specs.Views.{total};

use crate::pass::Pass;
use crate::rule::{OffFirst, Place, Queue, Together};
use crate::table::Turn;
use crate::view::Beginning;
use atomic_table::{Refused, Table};
use fileset_values::{OutOfMemory, Told};
use std::alloc::{AllocFailed, Global};
use std::snapshot::Snapshot;

/// A list of only this value.
fn only<T>(alloc: Global, value: T) -> Result<Vec<Option<T>>, T>
    ensures ok { IfOk result (λ slots. slots.items ≡ Some value ∷ []) }
    ensures err { IfErr result (λ back. back ≡ value) }
{
    let Ok(mut slots) = Vec::with_capacity(alloc, 1) else {
        return Err(value);
    };
    match slots.push(Some(value)) {
        Ok(()) => Ok(slots),
        Err(AllocFailed { value }) => {
            slots.destroy_empty();
            match value {
                Some(value) => Err(value),
                None => unreachable!(),
            }
        }
    }
}

/// The one value of a list.
fn only_of<T>(mut slots: Vec<Option<T>>, value: &Snapshot<T>) -> T
    requires { slots.items ≡ Some value.now.value ∷ [] }
    ensures { result ≡ value.now.value }
{
    match slots.pop() {
        Some(Some(value)) => {
            slots.destroy_empty();
            value
        }
        _ => unreachable!(),
    }
}

/// The first pass of a seat, on a seat of its own.
fn first_pass<T: Told>(queue: &Queue<T>, seat: &mut Place<T>, number: u8, left: u32) -> Pass<T>
    requires here { (seat.old.table_id ≡ queue.now.table_id) × (queue.now.table_id.words ≡ 5) }
    requires seat { seat.old.me ≡ (resting seat.old.me.0.shares, []) }
    requires some { 1 ≤ length seat.old.me.0.shares }
    requires number { number ≡ (first_of seat.old.me.0.shares).number }
    requires left { left ≡ (first_of seat.old.me.0.shares).left }
    ensures same { seat.new.table_id ≡ seat.old.table_id }
    ensures others { seat.new.me ≡ (resting (rest_of seat.old.me.0.shares), []) }
    ensures known { known result ≡ first_of seat.old.me.0.shares }
    ensures pass { (result.seat.table_id ≡ queue.now.table_id) × (in_hand result ≡ None) }
{
    Pass {
        seat: queue.split_seat::<OffFirst>(seat),
        number,
        left,
    }
}

/// Gives each pass of a new turn a seat of its own, one after the other.
fn deal<T: Told>(
    queue: &Queue<T>,
    seat: &mut Place<T>,
    value: &Snapshot<T>,
    lefts: &[u32],
    passes: &mut Vec<Pass<T>>,
)
    requires here { (seat.old.table_id ≡ queue.now.table_id) × (queue.now.table_id.words ≡ 5) }
    requires seat { seat.old.me ≡ (resting seat.old.me.0.shares, []) }
    requires all { seat.old.me.0.shares
        ≡ shares_from (telling T.history T.lasting T.rests T.room T.begun) value.now.value 0 lefts.now }
    requires few { length lefts.now ≤ 10 }
    requires room { vec_len passes.old + length lefts.now ≤ vec_capacity passes.old }
    ensures dealt { map known passes.new.items
        ≡ map known passes.old.items ++ seat.old.me.0.shares }
    ensures here { (pass : PassOf T) → Contains passes.new.items pass
        → Contains passes.old.items pass
        ⊎ ((pass.seat.table_id ≡ queue.now.table_id) × (in_hand pass ≡ None)) }
{
    for number in 0..lefts.len() {
        let pass = first_pass(queue, seat, number as u8, lefts[number]);
        if passes.push(pass).is_err() {
            unreachable!();
        }
    }
}

/// One seat that has all the passes.
fn gather<T: Told>(queue: &Queue<T>, passes: Vec<Pass<T>>) -> Place<T>
    requires some { 1 ≤ length passes.items }
    requires sized { queue.now.table_id.words ≡ 5 }
    requires here { (pass : PassOf T) → Contains passes.items pass
        → (pass.seat.table_id ≡ queue.now.table_id) × (in_hand pass ≡ None) }
    ensures here { result.table_id ≡ queue.now.table_id }
    ensures all { result.me ≡ (resting (map known passes.items), []) }
{
    let mut passes = passes.into_iter();
    let Some(Pass { seat: mut all, .. }) = passes.next() else {
        unreachable!()
    };
    for Pass { seat, .. } in passes {
        queue.join_seat::<Together>(&mut all, seat);
    }
    all
}

impl<T: Told> Turn<T> {
    /// Makes a turn of a value, and a pass for each number, which says how many entries that pass
    /// may add. After an error the value is handed back.
    pub fn new(
        alloc: Global,
        value: T,
        lefts: &[u32],
    ) -> Result<(Turn<T>, Vec<Pass<T>>), (T, OutOfMemory)>
        requires count { (1 ≤ length lefts.now) × (length lefts.now ≤ 10) }
        requires room { total (λ left. left) lefts.now ≤ T.room value }
        requires rests { T.rests value }
        ensures start { IfOk result (λ made. start_of made.0 ≡ value) }
        ensures count { IfOk result (λ made. passes_of made.0 ≡ length lefts.now) }
        ensures passes { IfOk result (λ made. map known made.1.items
            ≡ shares_from (telling T.history T.lasting T.rests T.room T.begun) value 0 lefts.now) }
        ensures here { IfOk result (λ made. (pass : PassOf T) → Contains made.1.items pass
            → IsPassOf made.0 pass × (in_hand pass ≡ None)) }
        ensures err { IfErr result (λ back. back.0 ≡ value) }
    {
        let (committed, durable) = (value.committed(), value.durable());
        let mut copies = Vec::new(alloc);
        let Ok(mut passes) = Vec::with_capacity(alloc, lefts.len()) else {
            return Err((value, OutOfMemory));
        };
        if copies.extend_from_slice(lefts).is_err() {
            return Err((value, OutOfMemory));
        }
        let start = Beginning {
            value: Snapshot::of(&value),
            lefts: copies,
        };
        let slots = match only(alloc, value) {
            Ok(slots) => slots,
            Err(value) => return Err((value, OutOfMemory)),
        };
        match Table::new(alloc, &[0, 0, committed, durable, 0], slots, &start) {
            Ok((table, mut seat)) => {
                deal(&table.shared, &mut seat, &start.value, lefts, &mut passes);
                Ok((Turn { table }, passes))
            }
            Err(Refused { slots }) => Err((only_of(slots, &start.value), OutOfMemory)),
        }
    }

    /// Ends the turn with the value, once all passes are back. Each pass's `mine` is all that the
    /// history has of its actor since the start.
    pub fn close(self, passes: Vec<Pass<T>>) -> T
        requires all { length passes.items ≡ passes_of self }
        requires here { (pass : PassOf T) → Contains passes.items pass
            → IsPassOf self pass × (in_hand pass ≡ None) }
        ensures { IsLast (telling T.history T.lasting T.rests T.room T.begun)
            (map known passes.items) (T.history (start_of self)) result }
    {
        let Turn { table } = self;
        let seat = gather(&table.shared, passes);
        let mut closed = table.close_with(seat);
        let value = closed.take(0);
        closed.free();
        match value {
            Some(value) => value,
            None => unreachable!(),
        }
    }
}
