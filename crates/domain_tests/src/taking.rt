ghost use Rattle.std.specs.Prelude.{◌≡◌};
ghost use Rattle.domain_turn.specs.Working.{IsBack, IsReady};

use domain_turn::{
    Actor, Command, Entry, Ledger, Named, Pass, Reply, Turn, add_one, add_some, begin, begin_all,
    begin_job, wait_until,
};
use std::alloc::Global;
use std::marker::Brand;
use std::sync::Wait;
use std::test::*;
use std::thread;
use std::thread::Threads;

/// Whether the stamps go up one by one from a number on.
fn count_up(entries: &[Entry], start: u64) -> bool {
    let mut next = start;
    for entry in entries {
        if entry.stamp != next {
            return false;
        }
        next = next.wrapping_add(1);
    }
    true
}

/// Whether the entries of a client are as many as this, and their counts go down to 0.
fn count_down(entries: &[Entry], client: u8, count: u64) -> bool {
    let mut left = count;
    for entry in entries {
        if entry.actor == Actor::Client(client) {
            let Reply::Count(counted) = entry.reply else {
                return false;
            };
            if left == 0 || counted != left - 1 {
                return false;
            }
            left = counted;
        }
    }
    left == 0
}

/// How many entries are committed and durable, and how many clients have ended, by a pass.
fn looks<N: Named>(turn: &Turn<Ledger<N>>, pass: &mut Pass<Ledger<N>>) -> [u64; 3]
    requires { IsBack turn.now pass.old }
    ensures { IsBack turn.now pass.new }
{
    let front = turn.front(pass);
    [front.committed, front.durable, turn.ended(pass)]
}

/// Whether four clients have fifty entries each, whose stamps go up from a number on.
fn are_of_four(entries: &[Entry], start: u64) -> bool {
    for client in 1..5_u8 {
        if !count_down(entries, client, 50) {
            return false;
        }
    }
    entries.len() == 200 && count_up(entries, start)
}

/// Four clients add fifty entries each, all at once: what is seen by the pass of the last one then,
/// and whether these are all entries.
fn worked_by_four<N: Named + Send + Sync, R: Threads + Wait + Sync>(
    rt: &R,
    alloc: Global,
    start: u64,
) -> Option<([u64; 3], bool)>
    requires { start ≡ N.start }
{
    let (turn, mut passes) = begin::<N>(alloc, start, 4, 50)?;
    let shared = &turn;
    let work = |client: usize, pass: &mut Pass<Ledger<N>>|
        requires { IsReady shared.now client 50 pass.now }
        ensures { IsBack shared.entry.now pass.exit.now }
    { add_some(rt, shared, pass, client as u8, 50) };
    thread::for_each_mut(rt, passes.as_mut_slice(), 4, &work);
    let seen = looks(&turn, &mut passes[3]);
    let ledger = turn.close(passes);
    Some((seen, are_of_four(ledger.entries.as_slice(), start)))
}

#[test]
fn four_clients_at_once(rt: HostRuntime) {
    let seen = worked_by_four::<Brand, _>(&rt, rt.alloc(), 7);
    assert_eq!(rt; seen, Some(([200, 200, 4], true)));
}

/// One client adds fifty entries, while another, which never takes the turn, looks until it has
/// seen them: how many entries there are then.
fn watched<N: Named + Send + Sync, R: Threads + Wait + Sync>(
    rt: &R,
    alloc: Global,
    start: u64,
) -> Option<usize>
    requires { start ≡ N.start }
{
    let (turn, mut passes) = begin::<N>(alloc, start, 2, 50)?;
    let shared = &turn;
    let work = |client: usize, pass: &mut Pass<Ledger<N>>|
        requires { IsReady shared.now client 50 pass.now }
        ensures { IsBack shared.entry.now pass.exit.now }
    {
        if client == 0 {
            wait_until(rt, shared, pass, 50);
        } else {
            add_some(rt, shared, pass, client as u8, 50);
        }
    };
    thread::for_each_mut(rt, passes.as_mut_slice(), 2, &work);
    Some(turn.close(passes).entries.len())
}

#[test]
fn a_client_sees_the_entries_of_another(rt: HostRuntime) {
    let entries = watched::<Brand, _>(&rt, rt.alloc(), 0);
    assert_eq!(rt; entries, Some(50));
}

/// One entry is added by the first client: whether it was, and how many it may add then; how many
/// entries the second client, which never took the turn, is told of before that and after it; and
/// how many there are then.
fn told_of_one<N: Named, R: Wait>(
    rt: &R,
    alloc: Global,
    start: u64,
) -> Option<(bool, u32, [u64; 4], usize)>
    requires { start ≡ N.start }
{
    let (turn, mut passes) = begin::<N>(alloc, start, 2, 1)?;
    let before = turn.front(&mut passes[1]);
    let added = add_one(rt, &turn, &mut passes[0], 0, 0);
    let after = turn.front(&mut passes[1]);
    let left = passes[0].left();
    let entries = turn.close(passes).entries.len();
    let told = [
        before.committed,
        before.durable,
        after.committed,
        after.durable,
    ];
    Some((added, left, told, entries))
}

#[test]
fn an_entry_is_told_of(rt: HostRuntime) {
    let seen = told_of_one::<Brand, _>(&rt, rt.alloc(), 0);
    assert_eq!(rt; seen, Some((true, 0, [0, 0, 1, 1], 1)));
}

/// Whether a ledger without entries keeps a job that is cancelled.
fn keeps_job<N: Named>(ledger: &Ledger<N>) -> bool {
    matches!(ledger.job, Some(Command::Cancel)) && ledger.entries.is_empty()
}

/// Ten passes at once: nine look without taking the turn, and the mover's begins a job; whether the
/// ledger keeps it.
fn ten_passes<N: Named + Send + Sync, R: Threads + Wait + Sync>(
    rt: &R,
    alloc: Global,
    start: u64,
) -> Option<bool>
    requires { start ≡ N.start }
{
    let (turn, mut passes) = begin_all::<N>(alloc, start)?;
    let shared = &turn;
    let work = |number: usize, pass: &mut Pass<Ledger<N>>|
        requires { IsBack shared.now pass.now }
        ensures { IsBack shared.entry.now pass.exit.now }
    {
        if pass.number() == 8 {
            begin_job(rt, shared, pass, Command::Cancel);
        } else {
            wait_until(rt, shared, pass, 0);
        }
    };
    thread::for_each_mut(rt, passes.as_mut_slice(), 10, &work);
    Some(keeps_job(&turn.close(passes)))
}

#[test]
fn the_mover_begins_a_job(rt: HostRuntime) {
    let is_kept = ten_passes::<Brand, _>(&rt, rt.alloc(), 0);
    assert_eq!(rt; is_kept, Some(true));
}
