//! What follows from the contracts of this crate, for those who call it.
ghost use Rattle.std.specs.Prelude.{◌≡◌, ◌↔◌, ◌+◌, ◌-◌, ◌*◌, ◌<◌, ◌≤◌, ℕ, List};
ghost use Rattle.member_moves.specs.Balance.{
  AreCounts,
  AreEven,
  HasShareUpTo,
  IsEmptiest,
  IsFullest,
  IsLevel,
  IsOpenOf,
  IsUneven,
};
ghost use Rattle.member_moves.specs.MoverMoves.{
  ExceedsByOneOver,
  HaveOpenPages,
  counts_after,
  gap,
  pages_product,
  unevenness,
};
ghost use Rattle.member_moves.specs.declared.counts.VolCount.{VolCount};

/// Laws of a balance. A move of a page as `uneven` names it leaves counts of distinct volumes, in
/// which no more pages are used than there are (`counts`), and makes the volumes less uneven by a
/// measure that is a number of the same unit before and after (`falls`, `unit`). So a balance that
/// nothing disturbs ends.
///
/// Two volumes are level if and only if their used shares are no further apart than they would be
/// after a move of one page from the fuller to the emptier (`nearer`).
///
/// If the fullest and the emptiest open volume are level, the used shares of any two open volumes
/// differ by at most half the sum of one over the fullest's pages and one over the emptiest's
/// (`spread`). So on even volumes they differ by at most one page of the smallest open volume
/// (`even`).
pub fn balance_laws()
    ensures counts { (counts : List VolCount) (full empty : ℕ) → AreCounts counts
        → IsUneven counts full empty → AreCounts (counts_after full empty counts) }
    ensures unit { (counts : List VolCount) (full empty : ℕ)
        → pages_product (counts_after full empty counts) ≡ pages_product counts }
    ensures falls { (counts : List VolCount) (full empty : ℕ) → AreCounts counts
        → IsUneven counts full empty
        → unevenness (counts_after full empty counts) < unevenness counts }
    ensures nearer { (f e : VolCount) → HasShareUpTo e f → (IsLevel f e
        ↔ (gap f e ≤ gap (record f { used = f.used - 1 }) (record e { used = e.used + 1 }))) }
    ensures spread { (counts : List VolCount) (f e a b : VolCount) → IsFullest counts f
        → IsEmptiest counts e → IsLevel f e → IsOpenOf counts a → IsOpenOf counts b
        → 2 * f.pages * e.pages * (a.used * b.pages - b.used * a.pages)
        ≤ (e.pages + f.pages) * (a.pages * b.pages) }
    ensures even { (counts : List VolCount) (least : ℕ) (a b : VolCount) → AreCounts counts
        → AreEven counts → HaveOpenPages counts least → IsOpenOf counts a → IsOpenOf counts b
        → ExceedsByOneOver least a b }
{}
