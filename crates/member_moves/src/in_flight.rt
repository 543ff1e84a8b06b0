//! The moves that are in flight.
ghost use Rattle.std.specs.Prelude.{◌≡◌, ◌<◌, ◌≤◌, ◌↔◌, [], false, IfOk, IsSomeAnd, IsTrue, length, option_copied};
ghost use Rattle.std.specs.List.{list_any};
ghost use Rattle.log_recovery.specs.page_store.Pages.{same_home};
ghost use Rattle.member_moves.specs.declared.page_move.Phase.TheVariants.{Copied, Switched};
ghost use Rattle.member_moves.specs.Moves.{AreApart, IsInNone, IsNotSwitched, has_home, move_of, phase_of, started, unswitched, with_phase, without, writes_of};

use crate::{Move, Phase};
use log_recovery::{Home, OutOfMemory};
use std::alloc::Global;
use std::marker::Model;

/// The most pages that move at one time.
pub const MOST_MOVES: usize = 64;

/// The moves in flight, at most 64, each known by its old home. No home is in two of them, and none
/// is from a home to itself. No call but `new` takes memory.
#[derive(Debug, Drop)]
pub struct Moves {
    moves: Vec<Move>,
}

impl Model for Moves {
    ghost use Rattle.std.specs.Prelude.{List, ◌≤◌};
    ghost use Rattle.std.specs.Vec.{vec_capacity, vec_len};
    ghost use Rattle.member_moves.specs.declared.in_flight.TheConstants.{MOST_MOVES};
    ghost use Rattle.member_moves.specs.declared.page_move.Move.{Move};

    ghost Value = { List Move };

    ghost view = { λ m. m.moves.items };

    ghost use Rattle.member_moves.specs.Moves.{AreApart};

    ghost invariant = { λ m. (vec_len m.moves ≤ MOST_MOVES) × (MOST_MOVES ≤ vec_capacity m.moves)
        × AreApart m.moves.items };
}

impl Moves {
    /// No moves, with room for 64.
    pub fn new(alloc: Global) -> Result<Self, OutOfMemory>
        ensures { IfOk result (λ moves. moves ≡ []) }
    {
        let moves = Vec::with_capacity(alloc, MOST_MOVES)?;
        Ok(Moves { moves })
    }

    /// The moves that are in flight, in the order in which they were started.
    pub fn moves(&self) -> &[Move]
        ensures { result.now ≡ self.now }
    {
        &self.moves
    }

    /// Whether 64 moves are in flight, so that no other may be started. The contract also says what
    /// always holds of moves, for callers who need it.
    pub fn is_full(&self) -> bool
        ensures answer { IsTrue result ↔ (length self.now ≡ MOST_MOVES) }
        ensures room { result ≡ false → length self.now < MOST_MOVES }
        ensures few { length self.now ≤ MOST_MOVES }
        ensures apart { AreApart self.now }
    {
        self.moves.len() == MOST_MOVES
    }

    /// Whether the home is one of a move in flight, so that no other move of it may be started.
    pub fn is_moving(&self, home: Home) -> bool
        ensures { result ≡ list_any (has_home home) self.now }
    {
        self.moves.iter().any(|page_move| page_move.has_home(&home))
    }

    /// How far the move from that home is. Returns None if and only if no move from it is in
    /// flight.
    pub fn phase_of(&self, from: Home) -> Option<Phase>
        ensures { result ≡ phase_of self.now from }
    {
        Some(self.find(&from)?.phase)
    }

    /// Starts the move of a page from its home to one that was reserved for it.
    pub fn start(&mut self, from: Home, to: Home)
        requires room { length self.old < MOST_MOVES }
        requires from { IsInNone self.old from }
        requires to { IsInNone self.old to }
        requires other { same_home from to ≡ false }
        ensures { self.new ≡ started from to self.old }
    {
        let phase = Phase::Reserved;
        self.moves.push_reserved(Move { from, to, phase });
    }

    /// Notes that the page was copied to its new home as it stands at the old one. It may be copied
    /// again.
    pub fn copied(&mut self, from: Home)
        requires { IsNotSwitched self.old from }
        ensures { self.new ≡ with_phase Copied from self.old }
    {
        self.set_phase(&from, Phase::Copied);
    }

    /// Where a write of the page at that home goes: to both homes of its move, the one asked about
    /// first, or to that home alone if it is in no move.
    pub fn writes_of(&self, home: Home) -> (Home, Option<Home>)
        ensures { result ≡ writes_of self.now home }
    {
        let other = self.other_home(&home);
        (home, other)
    }

    /// Whether the page's place may be changed: true if and only if the page was copied and its
    /// place was not yet changed.
    pub fn may_switch(&self, from: Home) -> bool
        ensures { IsTrue result ↔ (phase_of self.now from ≡ Some Copied) }
    {
        match self.find(&from) {
            Some(page_move) => page_move.phase == Phase::Copied,
            None => false,
        }
    }

    /// Notes that the page's place was changed to the new home.
    pub fn switched(&mut self, from: Home)
        requires { phase_of self.old from ≡ Some Copied }
        ensures { self.new ≡ with_phase Switched from self.old }
    {
        self.set_phase(&from, Phase::Switched);
    }

    /// Ends a move: the group that changed the page's place is durable.
    pub fn finish(&mut self, from: Home)
        requires { phase_of self.old from ≡ Some Switched }
        ensures { self.new ≡ without from self.old }
    {
        self.remove(&from);
    }

    /// Ends the moves of all pages whose places were changed. Whoever calls it knows that the
    /// groups which changed them are durable.
    pub fn finish_switched(&mut self)
        ensures { self.new ≡ unswitched self.old }
    {
        self.moves.retain(Move::is_unswitched);
    }

    /// Ends a move of a page whose place was not changed, and gives the home that was reserved for
    /// it.
    pub fn abandon(&mut self, from: Home) -> Home
        requires { IsNotSwitched self.old from }
        ensures moves { self.new ≡ without from self.old }
        ensures reserved { IsSomeAnd (move_of self.old from) (λ page_move. result ≡ page_move.to) }
    {
        let reserved = self.find(&from).unwrap().to;
        self.remove(&from);
        reserved
    }

    /// The move from that home.
    fn find(&self, from: &Home) -> Option<&Move>
        ensures { option_copied result ≡ move_of self.now from.now }
    {
        self.moves.iter().find(|page_move| page_move.is_from(from))
    }

    /// The other home of the move that has that home.
    fn other_home(&self, home: &Home) -> Option<Home>
        ensures { result ≡ (writes_of self.now home.now).1 }
    {
        let page_move = self
            .moves
            .iter()
            .find(|page_move| page_move.has_home(home))?;
        Some(page_move.other_home(home))
    }

    fn set_phase(&mut self, from: &Home, phase: Phase)
        ensures { self.new ≡ with_phase phase from.now self.old }
    {
        for page_move in self.moves.iter_mut() {
            page_move.set_phase_from(from, phase);
        }
    }

    fn remove(&mut self, from: &Home)
        ensures { self.new ≡ without from.now self.old }
    {
        self.moves.retain(|page_move| !page_move.is_from(from));
    }
}
