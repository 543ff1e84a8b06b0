//! Moves from pages of volume 1 to pages of volume 2.

use member_moves::calls::{Place, abandon, copy, finish, home, place, start, switch, writes};
use member_moves::{Home, Moves, Phase};
use std::test::Fail;

type Seen = (bool, Option<Phase>, bool);

/// What a call answered, how far the move is then, and whether the page's place may be changed.
fn seen(answer: bool, moves: &Moves, from: &Home) -> Seen {
    (answer, moves.phase_of(*from), moves.may_switch(*from))
}

/// A move from its start to its end.
fn phases(moves: &mut Moves, from: &Home, to: &Home) -> [Seen; 5] {
    let none = seen(true, moves, from);
    let started = start(moves, from, to);
    let started = seen(started, moves, from);
    let copied = copy(moves, from);
    let copied = seen(copied, moves, from);
    let switched = switch(moves, from);
    let switched = seen(switched, moves, from);
    let finished = finish(moves, from);
    let finished = seen(finished, moves, from);
    [none, started, copied, switched, finished]
}

#[test]
fn a_move_goes_through_its_phases(rt: HostRuntime) -> Result<(), Fail> {
    let mut moves = Moves::new(rt.alloc())?;
    let seen = phases(&mut moves, &home(1, 5), &home(2, 9));
    assert_eq!(rt;
        seen,
        [
            (true, None, false),
            (true, Some(Phase::Reserved), false),
            (true, Some(Phase::Copied), true),
            (true, Some(Phase::Switched), false),
            (true, None, false),
        ]
    );
    Ok(())
}

/// What does not follow on what was done is not done, and a page may be copied again.
fn out_of_turn(moves: &mut Moves, from: &Home, to: &Home) -> [bool; 9] {
    [
        copy(moves, from),
        switch(moves, from),
        start(moves, from, to),
        switch(moves, from),
        copy(moves, from),
        copy(moves, from),
        finish(moves, from),
        switch(moves, from),
        copy(moves, from),
    ]
}

#[test]
fn a_move_keeps_its_order(rt: HostRuntime) -> Result<(), Fail> {
    let mut moves = Moves::new(rt.alloc())?;
    let done = out_of_turn(&mut moves, &home(1, 5), &home(2, 9));
    let left = abandon(&mut moves, &home(1, 5));
    assert_eq!(rt;
        (done, left),
        (
            [false, false, true, false, true, true, false, true, false],
            None
        )
    );
    Ok(())
}

/// Where the page is written that moves from `from` to `to`, at either of them.
fn both(moves: &Moves, from: &Home, to: &Home) -> [(Place, Option<Place>); 2] {
    [writes(moves, from), writes(moves, to)]
}

#[test]
fn a_moving_page_is_written_at_both_homes(rt: HostRuntime) -> Result<(), Fail> {
    let mut moves = Moves::new(rt.alloc())?;
    let (from, to) = (home(1, 5), home(2, 9));
    start(&mut moves, &home(1, 6), &home(2, 5));
    start(&mut moves, &from, &to);
    let started = both(&moves, &from, &to);
    copy(&mut moves, &from);
    let copied = both(&moves, &from, &to);
    switch(&mut moves, &from);
    let switched = both(&moves, &from, &to);
    finish(&mut moves, &from);
    let finished = both(&moves, &from, &to);
    let twice = [((1, 5), Some((2, 9))), ((2, 9), Some((1, 5)))];
    let once = [((1, 5), None), ((2, 9), None)];
    assert_eq!(rt;
        [started, copied, switched, finished],
        [twice, twice, twice, once]
    );
    Ok(())
}

#[test]
fn an_abandoned_move_gives_its_reserved_home(rt: HostRuntime) -> Result<(), Fail> {
    let mut moves = Moves::new(rt.alloc())?;
    start(&mut moves, &home(1, 5), &home(2, 9));
    start(&mut moves, &home(1, 6), &home(2, 10));
    copy(&mut moves, &home(1, 6));
    let reserved = [
        abandon(&mut moves, &home(1, 6)),
        abandon(&mut moves, &home(1, 5)),
        abandon(&mut moves, &home(1, 5)),
    ];
    let left = both(&moves, &home(1, 5), &home(2, 10));
    assert_eq!(rt;
        (reserved, left),
        (
            [Some((2, 10)), Some((2, 9)), None],
            [((1, 5), None), ((2, 10), None)]
        )
    );
    Ok(())
}

/// Starts moves of the pages below `count`, and counts those that were started.
fn start_many(moves: &mut Moves, count: u32) -> usize {
    (0..count)
        .filter(|page| start(moves, &home(1, *page), &home(2, *page)))
        .count()
}

#[test]
fn sixty_four_pages_move_at_one_time(rt: HostRuntime) -> Result<(), Fail> {
    let mut moves = Moves::new(rt.alloc())?;
    let before = moves.is_full();
    let started = start_many(&mut moves, 65);
    let full = moves.is_full();
    abandon(&mut moves, &home(1, 3));
    let after = moves.is_full();
    let again = start_many(&mut moves, 65);
    let last = writes(&moves, &home(2, 7));
    assert_eq!(rt;
        ((before, started, full), (after, again, last)),
        ((false, 64, true), (false, 1, ((2, 7), Some((1, 7)))))
    );
    Ok(())
}

#[test]
fn moves_of_changed_places_end_at_once(rt: HostRuntime) -> Result<(), Fail> {
    let mut moves = Moves::new(rt.alloc())?;
    start_many(&mut moves, 4);
    for page in 0..3 {
        copy(&mut moves, &home(1, page));
    }
    switch(&mut moves, &home(1, 0));
    switch(&mut moves, &home(1, 2));
    moves.finish_switched();
    let mut left = Vec::new(rt.alloc());
    for page_move in moves.moves() {
        left.push(place(&page_move.from))?;
    }
    assert_eq!(rt; left.as_slice(), [(1, 1), (1, 3)].as_slice());
    Ok(())
}

#[test]
fn a_home_is_in_one_move(rt: HostRuntime) -> Result<(), Fail> {
    let mut moves = Moves::new(rt.alloc())?;
    let (from, to) = (home(1, 5), home(2, 9));
    let started = [
        start(&mut moves, &from, &to),
        start(&mut moves, &to, &home(3, 1)),
        start(&mut moves, &from, &home(3, 1)),
        start(&mut moves, &home(1, 6), &to),
        start(&mut moves, &home(1, 6), &from),
        start(&mut moves, &home(2, 5), &home(1, 9)),
        start(&mut moves, &home(3, 7), &home(3, 7)),
    ];
    assert_eq!(rt; started, [true, false, false, false, false, true, false]);
    Ok(())
}
