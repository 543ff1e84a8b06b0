//! Sets of first cells of chains, known only as one single cell or at least two.
ghost use Rattle.std.specs.Prelude.{◌≡◌, ◌↔◌, IsTrue};
ghost use Rattle.metadata_cells.specs.Chain.{is_at};
ghost use Rattle.cell_chains.specs.Starts.{Differ, joined as joined_there, with_start as with_start_there};

use metadata_cells::CellAt;

/// The first cells of chains: a single one, or at least two.
#[derive(Clone, Copy, Debug, PartialEq, Eq)]
pub(crate) enum Starts {
    One { start: CellAt },
    Several,
}

/// Whether two cells are the same.
fn is_same(one: &CellAt, other: &CellAt) -> bool
    ensures { result ≡ is_at one.now other.now }
{
    one.vol.number() == other.vol.number() && one.page == other.page && one.cell == other.cell
}

/// The set of one cell joined with another set.
fn with_start(start: &CellAt, more: &Starts) -> Starts
    ensures { result ≡ with_start_there start.now more.now }
{
    match more {
        Starts::One { start: other } if is_same(start, other) => Starts::One { start: *start },
        _ => Starts::Several,
    }
}

/// Two sets joined.
pub(crate) fn joined(old: &Option<Starts>, more: &Starts) -> Starts
    ensures { result ≡ joined_there old.now more.now }
{
    match old {
        Some(Starts::One { start }) => with_start(start, more),
        Some(Starts::Several) => Starts::Several,
        None => *more,
    }
}

/// Whether a cell of one set differs from some cell of the other set.
pub(crate) fn differ(one: &Option<Starts>, other: &Starts) -> bool
    ensures { IsTrue result ↔ Differ one.now other.now }
{
    match (one, other) {
        (None, _) => false,
        (Some(Starts::One { start }), Starts::One { start: another }) => start != another,
        _ => true,
    }
}
