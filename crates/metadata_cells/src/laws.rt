//! Laws of chains.
ghost use Rattle.std.specs.Prelude.{◌≡◌, ◌∷◌, Bool, List};
ghost use Rattle.page_store.specs.domain_base.declared.place.CellAt.{CellAt};
ghost use Rattle.page_store.specs.Pages.{Pages};
ghost use Rattle.metadata_cells.specs.declared.head.CellHead.{CellHead};
ghost use Rattle.metadata_cells.specs.Cell.{Cell};
ghost use Rattle.metadata_cells.specs.Chain.{AreApart, AreLinked, HasHeadAt, IsChain, LeavesOthers, LinksFrom, PlacedCell, StandsAt};

/// A change of some cells leaves each chain that contains none of them.
pub fn chains_apart_stay()
    ensures { (old new : Pages) (changed : CellAt → Bool) (start : CellAt) (cells : List PlacedCell)
        → LeavesOthers changed old new → AreApart changed cells → IsChain old start cells
        → IsChain new start cells }
{}

/// At most one cell stands at a place, and the head that is read there is its head.
pub fn one_cell_stands()
    ensures heads { (pages : Pages) (at : CellAt) (head : CellHead) (cell : Cell)
        → HasHeadAt pages at head → StandsAt pages at cell → head ≡ cell.head }
    ensures cells { (pages : Pages) (at : CellAt) (a b : Cell) → StandsAt pages at a
        → StandsAt pages at b → a ≡ b }
{}

/// A chain is a cell and those that follow it.
pub fn chains_are_linked()
    ensures linked { (pages : Pages) (start : CellAt) (cells : List PlacedCell)
        → IsChain pages start cells → LinksFrom pages start cells }
    ensures chain { (pages : Pages) (first : PlacedCell) (rest : List PlacedCell)
        → AreLinked pages first rest → IsChain pages first.at (first ∷ rest) }
{}
