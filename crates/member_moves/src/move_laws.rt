//! What holds of moves and of the pages at their homes. Each law is the contract of a function
//! without a body.
ghost use Rattle.std.specs.Prelude.{◌≡◌, [], Contains, List, None, Some, if◌then◌else◌};
ghost use Rattle.std.specs.Option.{option_map};
ghost use Rattle.log_recovery.specs.domain_base.declared.place.Home.{Home};
ghost use Rattle.log_recovery.specs.page_store.Pages.{same_home};
ghost use Rattle.member_moves.specs.declared.page_move.Move.{Move};
ghost use Rattle.member_moves.specs.declared.page_move.Phase.{Phase};
ghost use Rattle.member_moves.specs.declared.page_move.Phase.TheVariants.{Reserved};
ghost use Rattle.member_moves.specs.Copies.{Holds, Now, Step, Steps};
ghost use Rattle.member_moves.specs.Moves.{AreApart, IsInNone, move_of, rephased, reserved, started, with_phase, without, writes_of};

/// Each change of the moves changes the one from that home, and leaves the moves from all other
/// homes.
pub fn changes_are_of_one_move()
    ensures start { (moves : List Move) (from to : Home) → IsInNone moves from → (home : Home)
        → move_of (started from to moves) home
        ≡ (if same_home from home then Some (reserved from to) else move_of moves home) }
    ensures phase { (moves : List Move) (phase : Phase) (from home : Home)
        → move_of (with_phase phase from moves) home
        ≡ option_map (rephased phase from) (move_of moves home) }
    ensures end { (moves : List Move) (from home : Home) → move_of (without from moves) home
        ≡ (if same_home from home then None else move_of moves home) }
{}

/// If no home is in two moves, a write to either home of a move goes to both its homes. A write to
/// a home that is in no move goes to that home alone.
pub fn moving_pages_are_written_twice()
    ensures from { (moves : List Move) (page_move : Move) → AreApart moves
        → Contains moves page_move
        → writes_of moves page_move.from ≡ (page_move.from, Some page_move.to) }
    ensures to { (moves : List Move) (page_move : Move) → AreApart moves
        → Contains moves page_move
        → writes_of moves page_move.to ≡ (page_move.to, Some page_move.from) }
    ensures alone { (moves : List Move) (home : Home) → IsInNone moves home
        → writes_of moves home ≡ (home, None) }
{}

/// Whatever is done, no home is in two moves, and no move is from a home to itself.
pub fn homes_are_of_one_move()
    ensures { (first last : Now) → first.moves ≡ [] → Steps first last → AreApart last.moves }
{}

/// Whatever is done, a page that was copied stands at its new home as it does at its old one, until
/// its move ends. So this holds when its place may be changed, and after that.
pub fn copies_stay_alike()
    ensures { (first last : Now) → first.moves ≡ [] → Steps first last
        → (from : Home) (page_move : Move) → move_of last.moves from ≡ Some page_move
        → ¬ page_move.phase ≡ Reserved → last.pages page_move.to ≡ last.pages page_move.from }
{}

/// `Holds` is a fact for callers' invariants. It holds when no move is in flight, and each step
/// keeps it. If it holds, a page that was copied stands at the new home as at the old one.
pub fn steps_keep_copies()
    ensures first { (now : Now) → now.moves ≡ [] → Holds now }
    ensures step { (old new : Now) → Holds old → Step old new → Holds new }
    ensures alike { (now : Now) → Holds now → (from : Home) (page_move : Move)
        → move_of now.moves from ≡ Some page_move → ¬ page_move.phase ≡ Reserved
        → now.pages page_move.to ≡ now.pages page_move.from }
{}
