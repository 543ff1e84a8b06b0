//! Laws of free cells.
ghost use Rattle.std.specs.Prelude.{◌≡◌, ◌<◌, ℕ, Bool, true, false, length};
ghost use Rattle.metadata_cells.specs.domain_base.declared.place.CellAt.{CellAt};
ghost use Rattle.metadata_cells.specs.page_store.Pages.{Pages};
ghost use Rattle.metadata_cells.specs.CellPage.{KeepsHeaders, KeepsWellFormed};
ghost use Rattle.metadata_cells.specs.Chain.{LeavesOthers, is_at};
ghost use Rattle.free_cells.specs.Cells.{Cells, Holds, TakesCell, is_closed, is_free, kept_of, table_of, taken_back};
ghost use Rattle.free_cells.specs.Belong.{Belong, home_at};

/// Free cells and pages that belong together still do after a change of cells that are not free.
pub fn other_cells_stay()
    ensures { (cells : Cells) (old new : Pages) (changed : CellAt → Bool)
        → LeavesOthers changed old new → KeepsWellFormed old new → KeepsHeaders old new
        → ((at : CellAt) → is_free cells at ≡ true → changed at ≡ false)
        → Belong cells old → Belong cells new }
{}

/// A cell that was handed out may be written: free cells and pages that belong together still do
/// after a change of only that cell.
pub fn written_cell_stays()
    ensures { (old new : Cells) (before after : Pages) (at : CellAt) → TakesCell at old new
        → LeavesOthers (is_at at) before after → KeepsWellFormed before after
        → KeepsHeaders before after → Belong new before → Belong new after }
{}

/// Free cells and pages that belong together still do after a change of pages that stand in no
/// volume's table.
pub fn other_pages_stay()
    ensures { (cells : Cells) (old new : Pages)
        → ((vol place : ℕ) → place < length (table_of cells vol)
        → new (home_at cells vol place) ≡ old (home_at cells vol place))
        → Belong cells old → Belong cells new }
{}

/// Free cells and pages that belong together still do if only what was kept differs.
pub fn same_cells_belong()
    ensures { (old new : Cells) → ((vol : ℕ) → table_of new vol ≡ table_of old vol)
        → ((at : CellAt) → is_free new at ≡ is_free old at)
        → (pages : Pages) → Belong old pages → Belong new pages }
{}

/// Taking back gives the same as long as what was kept stays, and no volume is closed or activated.
pub fn kept_cells_stay()
    ensures { (old new : Cells) → ((vol : ℕ) → kept_of new vol ≡ kept_of old vol)
        → ((vol : ℕ) → is_closed new vol ≡ is_closed old vol)
        → Holds (table_of (taken_back old)) (is_closed (taken_back old)) (is_free (taken_back old))
        (kept_of (taken_back old)) (taken_back new) }
{}
