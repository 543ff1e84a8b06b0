//! A new page in the run of a volume's pages of cells.
ghost use Rattle.std.specs.Prelude.{◌≡◌, ◌+◌, ◌<◌, ◌≤◌, false, Some, IsSomeAnd};
ghost use Rattle.std.specs.Option.{option_map};
ghost use Rattle.metadata_cells.specs.domain_base.declared.place.Home.{Home};
ghost use Rattle.metadata_cells.specs.page_store.Pages.{same_home};
ghost use Rattle.metadata_cells.specs.CellPage.{IsCellPage, KeepsWellFormed, index_of, next_of};
ghost use Rattle.metadata_cells.specs.Chain.{LeavesOthers};
ghost use Rattle.free_cells.specs.Cells.{is_on};

use metadata_cells::{Home, MetaPages, Page, set_next};

/// Puts a page of cells at a home, and makes it the next page of the one that was last. All other
/// pages stay, and all cells of these two except those of the new page.
pub fn link_page<M: MetaPages>(pages: &mut M, last: &Home, home: &Home, page: Page)
    requires last { IsSomeAnd (M.pages pages.old last.now) IsCellPage }
    requires good { IsCellPage page }
    requires room { 0 < M.room pages.old }
    requires apart { same_home last.now home.now ≡ false }
    ensures there { M.pages pages.new home.now ≡ Some page }
    ensures next { IsSomeAnd (M.pages pages.new last.now) (λ p. next_of p ≡ home.now.page) }
    ensures index { option_map index_of (M.pages pages.new last.now)
        ≡ option_map index_of (M.pages pages.old last.now) }
    ensures others { LeavesOthers (is_on home.now) (M.pages pages.old) (M.pages pages.new) }
    ensures well_formed { KeepsWellFormed (M.pages pages.old) (M.pages pages.new) }
    ensures elsewhere { (h : Home) → same_home h home.now ≡ false → same_home h last.now ≡ false
        → M.pages pages.new h ≡ M.pages pages.old h }
    ensures room { M.room pages.old ≤ M.room pages.new + 1 }
    ensures before { M.before pages.new ≡ M.before pages.old }
{
    set_next(pages, *last, home.page);
    pages.put(*home, page);
}
