//! Threads that add entries, each by taking the turn.
ghost use Rattle.std.specs.Prelude.{◌≡◌, ◌+◌, ◌≤◌, IfSome, None, Some, length};
ghost use Rattle.domain_turn.specs.Passes.{in_hand, known};
ghost use Rattle.domain_turn.specs.Turns.{IsPassOf};
ghost use Rattle.domain_turn.specs.Views.{one_if};
ghost use Rattle.domain_turn.specs.Working.{AreBack, AreReady, IsBack, IsReady};

use crate::ledger::{Ledger, Named};
use crate::{Pass, Turn};
use fileset_values::{Actor, Command, Told};
use std::alloc::Global;
use std::sync::Wait;
use std::thread;

/// A turn of a ledger that begins with this number, and the passes of `clients` clients, each of
/// which may add `count` entries. Returns None if memory runs out.
pub fn begin<N: Named>(
    alloc: Global,
    start: u64,
    clients: usize,
    count: u32,
) -> Option<(Turn<Ledger<N>>, Vec<Pass<Ledger<N>>>)>
    requires start { start ≡ N.start }
    requires few { (1 ≤ clients) × (clients ≤ 8) }
    ensures ready { IfSome result (λ made. AreReady made.0 count made.1.items) }
    ensures all { IfSome result (λ made. length made.1.items ≡ clients) }
{
    let room = clients * count as usize;
    let Ok(ledger) = Ledger::<N>::new(alloc, start, room) else {
        return None;
    };
    let Ok(lefts) = Vec::from_elem(alloc, count, clients) else {
        return None;
    };
    match Turn::new(alloc, ledger, lefts.as_slice()) {
        Ok(made) => Some(made),
        Err(_) => None,
    }
}

/// A turn of a ledger that begins with this number, and the passes of all clients, of the mover and
/// of the flusher. Returns None if memory runs out.
pub fn begin_all<N: Named>(
    alloc: Global,
    start: u64,
) -> Option<(Turn<Ledger<N>>, Vec<Pass<Ledger<N>>>)>
    requires start { start ≡ N.start }
    ensures back { IfSome result (λ made. AreBack made.0 made.1.items) }
{
    let Ok(ledger) = Ledger::<N>::new(alloc, start, 10) else {
        return None;
    };
    match Turn::new(alloc, ledger, &[1; 10]) {
        Ok(made) => Some(made),
        Err(_) => None,
    }
}

/// Takes the turn once, adds an entry of a client, whose reply counts what is left to add, puts the
/// turn back, and tells all how many entries last. Returns whether the entry was added.
pub fn add_one<N: Named, R: Wait>(
    rt: &R,
    turn: &Turn<Ledger<N>>,
    pass: &mut Pass<Ledger<N>>,
    client: u8,
    left: u32,
) -> bool
    requires { IsReady turn.now client (left + 1) pass.old }
    ensures ready { IsReady turn.now client left pass.new }
    ensures grown { length (known pass.new).mine
        ≡ length (known pass.old).mine + one_if result }
{
    let mut ledger = turn.take(rt, pass);
    let added = ledger.add(Actor::Client(client + 1), u64::from(left));
    ledger.keep_all();
    let (committed, durable) = (ledger.committed(), ledger.durable());
    turn.put_back(pass, ledger, committed);
    turn.note_durable(pass, durable);
    added
}

/// Takes the turn `count` times, adds an entry of a client each time, and ends.
pub fn add_some<N: Named, R: Wait>(
    rt: &R,
    turn: &Turn<Ledger<N>>,
    pass: &mut Pass<Ledger<N>>,
    client: u8,
    count: u32,
)
    requires { IsReady turn.now client count pass.old }
    ensures { IsBack turn.now pass.new }
{
    let mut left = count;
    while left > 0 {
        left -= 1;
        add_one(rt, turn, pass, client, left);
    }
    turn.end(pass);
}

/// Looks, without taking the turn, until the history has at least `committed` entries. Returns how
/// many of them last.
pub fn wait_until<N: Named, R: Wait>(
    rt: &R,
    turn: &Turn<Ledger<N>>,
    pass: &mut Pass<Ledger<N>>,
    committed: u64,
) -> u64
    requires { IsBack turn.now pass.old }
    ensures { IsBack turn.now pass.new }
{
    for _ in rt.forever() {
        let front = turn.front(pass);
        if front.committed >= committed {
            return front.durable;
        }
        thread::yield_now();
    }
    unreachable!()
}

/// Records that a job runs from now on, if the pass of this number may begin one. Only the mover's
/// may.
fn set_job<N: Named>(ledger: &mut Ledger<N>, number: u8, job: Command)
    ensures mover { number ≡ 8 → ledger.new.job ≡ Some job }
    ensures other { ¬ number ≡ 8 → ledger.new.job ≡ ledger.old.job }
    ensures same { (ledger.new.entries ≡ ledger.old.entries)
        × (ledger.new.kept ≡ ledger.old.kept) }
{
    if number == 8 {
        ledger.begin(job);
    }
}

/// Takes the turn once, and begins a job if the pass is the mover's.
pub fn begin_job<N: Named, R: Wait>(
    rt: &R,
    turn: &Turn<Ledger<N>>,
    pass: &mut Pass<Ledger<N>>,
    job: Command,
)
    requires here { IsPassOf turn.now pass.old }
    requires free { in_hand pass.old ≡ None }
    ensures back { IsBack turn.now pass.new }
    ensures begun { (known pass.old).number ≡ 8 → (known pass.new).begun ≡ Some job }
{
    let number = pass.number();
    let mut ledger = turn.take(rt, pass);
    set_job(&mut ledger, number, job);
    let committed = ledger.committed();
    turn.put_back(pass, ledger, committed);
}
