//! Makings in which a call fails, and stops at each call.

use crate::made::{Answer, is_found, made, make_alone};
use domain_making::{Anchor, OutOfMemory, Rack, RecoverFault, Version, recover};
use memory_disk::MemoryRack;
use std::alloc::Global;
use std::test::Fail;

/// How many calls of a rack a making takes: four to close both gates, two for the label, three for
/// each slot, five for the pages, and six for the anchor.
const CALLS: u64 = 23;

/// What a making answers whose call with this number fails.
fn failed_at(alloc: Global, call: u64) -> Result<Answer, OutOfMemory> {
    let mut rack = MemoryRack::new(alloc, &[160], &[call], false)?;
    Ok(made(alloc, &mut rack, Version::Three))
}

#[test]
fn each_call_that_fails_is_told(rt: HostRuntime) -> Result<(), Fail> {
    let mut told: u64 = 0;
    for call in 1..CALLS + 1 {
        if failed_at(rt.alloc(), call)? == (Answer::Failed { vol: 1 }) {
            told = told.saturating_add(1);
        }
    }
    assert_eq!(rt; told, CALLS);
    Ok(())
}

/// What is recovered after a stop.
#[derive(Clone, Copy, PartialEq, Eq)]
enum Left {
    Nothing,
    Empty,
    Another,
}

/// What recovery finds on a rack on which a domain with this anchor was to be made: none, since no
/// anchor counts, or that domain.
fn recovered<R: Rack>(alloc: Global, rack: &mut R, anchor: &Anchor) -> Left {
    if is_found(alloc, rack, anchor) {
        return Left::Empty;
    }
    match recover(alloc, rack) {
        Err(RecoverFault::NotADomain { vol: 1, at: 1 }) => Left::Nothing,
        _ => Left::Another,
    }
}

/// How many of the picks of the stop at a call leave no domain, and how many the empty one.
fn count_left(
    alloc: Global,
    rack: &MemoryRack,
    anchor: &Anchor,
    call: u64,
) -> Result<(u32, u32), OutOfMemory> {
    let mut none: u32 = 0;
    let mut empty: u32 = 0;
    if !rack.keeps_calls() || call > rack.calls() {
        return Ok((none, empty));
    }
    for pick in 0..4 {
        match recovered(alloc, &mut rack.image(alloc, call, pick)?, anchor) {
            Left::Nothing => none = none.saturating_add(1),
            Left::Empty => empty = empty.saturating_add(1),
            Left::Another => {}
        }
    }
    Ok((none, empty))
}

/// How many of the stops at each call of a making leave no domain, and how many the empty one. A
/// stop at the last call, or at one that follows, leaves the empty one.
fn stopped(alloc: Global) -> Result<(u32, u32), Fail> {
    let mut rack = MemoryRack::new(alloc, &[160], &[], true)?;
    let Some(Ok(anchor)) = make_alone(alloc, &mut rack, Version::Three) else {
        return Err(Fail::from("no domain is made"));
    };
    let mut none: u32 = 0;
    let mut empty: u32 = 0;
    for call in 0..CALLS + 1 {
        let seen = count_left(alloc, &rack, &anchor, call)?;
        none = none.saturating_add(seen.0);
        empty = empty.saturating_add(seen.1);
    }
    Ok((none, empty))
}

#[test]
fn a_stop_leaves_no_domain_or_the_empty_one(rt: HostRuntime) -> Result<(), Fail> {
    let (none, empty) = stopped(rt.alloc())?;
    // four picks of each of 24 moments: of the first 22 none has an anchor, and of the last all
    // have; the write of the open gate may last or not
    assert_eq!(rt;
        (none.saturating_add(empty), none >= 89, empty >= 5),
        (96, true, true)
    );
    Ok(())
}
