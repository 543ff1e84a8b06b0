//! A page of a file moved to another home.
ghost use Rattle.std.specs.Prelude.{◌≡◌, ◌+◌, ◌≤◌, IfErr, IfOk, IfSome, IsSome, IsSomeAnd, List, OnErr, OnOk};
ghost use Rattle.file_chains.specs.metadata_cells.Chain.{PlacedCell};
ghost use Rattle.file_chains.specs.extent_maps.declared.run.PagePlace.TheVariants.{At};
ghost use Rattle.file_chains.specs.extent_maps.Runs.{home_at};
ghost use Rattle.file_chains.specs.Allocated.{AreAllocated};
ghost use Rattle.file_chains.specs.FileChanges.{AreOnTables, LeavesOtherCells};
ghost use Rattle.file_chains.specs.Files.{HasFile, IsFile, places_of};
ghost use Rattle.file_chains.specs.MapChanges.{ChangesOnTables, LeavesOffTables};
ghost use Rattle.file_chains.specs.Moving.{TakesIfHolderFull};
ghost use Rattle.fileset_files.specs.Files.{Chains, place_at};
ghost use Rattle.fileset_files.specs.Moves.{MayMove, MovesNone};
ghost use Rattle.fileset_files.specs.Pages.{ChangesFile};
ghost use Rattle.fileset_files.specs.Together.{AreTogether, HasTogether};

use crate::bitfiles::Bitfiles;
use file_chains::{
    CellAt, FreeCells, FreeSpace, Home, MetaPages, StoreFault, Tag, Version, find_place,
    switch_page,
};
use std::alloc::Global;

/// Moves a page of the file whose chain begins at a cell to another home, and returns the old one.
fn switch_at<M: MetaPages>(
    alloc: Global,
    pages: &mut M,
    space: &mut FreeSpace,
    cells: &mut FreeCells,
    start: &CellAt,
    page: u32,
    home: &Home,
    version: Version,
) -> Result<Home, StoreFault>
    requires allocated { AreAllocated space.old cells.old (M.pages pages.old) }
    requires file { HasFile (M.pages pages.old) start.now }
    requires tables { (chain : List PlacedCell) → IsFile (M.pages pages.old) start.now chain
        → AreOnTables cells.old chain }
    requires there { (chain : List PlacedCell) → IsFile (M.pages pages.old) start.now chain
        → IsSome (home_at (places_of chain page)) }
    ensures ok { (chain : List PlacedCell) → IsFile (M.pages pages.old) start.now chain
        → OnOk result (ChangesOnTables start.now page (At home.now) chain version cells.old
        cells.new (M.pages pages.old) (M.pages pages.new)) }
    ensures was { (chain : List PlacedCell) → IsFile (M.pages pages.old) start.now chain
        → IfOk result (λ was. places_of chain page ≡ At was) }
    ensures taken { (chain : List PlacedCell) → IsFile (M.pages pages.old) start.now chain
        → OnOk result (TakesIfHolderFull page (At home.now) chain home.now.vol space.old space.new
        cells.old cells.new (M.pages pages.old)) }
    ensures err { (chain : List PlacedCell) → IsFile (M.pages pages.old) start.now chain
        → IfErr result (MovesNone page (At home.now) chain space.old space.new cells.old) }
    ensures cells { OnErr result (cells.new ≡ cells.old) }
    ensures pages { OnErr result (M.pages pages.new ≡ M.pages pages.old) }
    ensures others { (chain : List PlacedCell) → IsFile (M.pages pages.old) start.now chain
        → LeavesOtherCells cells.old chain (M.pages pages.old) (M.pages pages.new) }
    ensures elsewhere { LeavesOffTables cells.new (M.pages pages.old) (M.pages pages.new) }
    ensures allocated { AreAllocated space.new cells.new (M.pages pages.new) }
    ensures room { M.room pages.old ≤ M.room pages.new + 1 }
    ensures before { M.before pages.new ≡ M.before pages.old }
{
    let Some(was) = find_place(pages, *start, page).home() else {
        return Err(StoreFault::NoPage);
    };
    match switch_page(
        alloc, pages, space, cells, *start, page, *home, version, home.vol,
    ) {
        Ok(()) => Ok(was),
        Err(fault) => Err(fault),
    }
}

impl Bitfiles {
    /// Moves a page of the file that a live tag names to another home, which is held and not yet
    /// any file's. Returns the old home, which is still held, and is the caller's. If the record
    /// that has the page has no room for the changed map, one more cell is taken, of the home's
    /// volume if that has one. NoPage is returned only if a cell is needed, none is free, and there
    /// is no page that would hold more cells. That is a miss. After an error nothing but room and
    /// the count of misses has changed.
    pub fn switch_page<M: MetaPages>(
        &self,
        alloc: Global,
        pages: &mut M,
        space: &mut FreeSpace,
        cells: &mut FreeCells,
        tag: Tag,
        page: u32,
        home: Home,
        version: Version,
    ) -> Result<Home, StoreFault>
        requires together { HasTogether self.now.fileset self.now.tags space.old cells.old
            (M.pages pages.old) }
        requires moves { (chains : Chains) → AreTogether self.now.fileset self.now.tags space.old
            cells.old (M.pages pages.old) chains
            → MayMove tag page home self.now.tags space.old cells.old chains }
        ensures ok { (chains : Chains) → AreTogether self.now.fileset self.now.tags space.old
            cells.old (M.pages pages.old) chains → OnOk result (IsSomeAnd (chains tag)
            (ChangesFile self.now.fileset self.now.tags tag page (At home) version chains space.new
            cells.old cells.new (M.pages pages.old) (M.pages pages.new))) }
        ensures was { (chains : Chains) → AreTogether self.now.fileset self.now.tags space.old
            cells.old (M.pages pages.old) chains
            → IfOk result (λ was. place_at chains tag page ≡ At was) }
        ensures taken { (chains : Chains) → AreTogether self.now.fileset self.now.tags space.old
            cells.old (M.pages pages.old) chains → OnOk result (IsSomeAnd (chains tag)
            (λ chain. TakesIfHolderFull page (At home) chain home.vol space.old space.new cells.old
            cells.new (M.pages pages.old))) }
        ensures err { (chains : Chains) → AreTogether self.now.fileset self.now.tags space.old
            cells.old (M.pages pages.old) chains → IfErr result (λ fault. IsSomeAnd (chains tag)
            (λ chain. MovesNone page (At home) chain space.old space.new cells.old fault)) }
        ensures kept { (chains : Chains) → AreTogether self.now.fileset self.now.tags space.old
            cells.old (M.pages pages.old) chains → OnErr result (AreTogether self.now.fileset
            self.now.tags space.new cells.new (M.pages pages.new) chains) }
        ensures cells { OnErr result (cells.new ≡ cells.old) }
        ensures pages { OnErr result (M.pages pages.new ≡ M.pages pages.old) }
        ensures others { (chains : Chains) → AreTogether self.now.fileset self.now.tags space.old
            cells.old (M.pages pages.old) chains → IfSome (chains tag) (λ chain.
            LeavesOtherCells cells.old chain (M.pages pages.old) (M.pages pages.new)) }
        ensures elsewhere { LeavesOffTables cells.new (M.pages pages.old) (M.pages pages.new) }
        ensures room { M.room pages.old ≤ M.room pages.new + 1 }
        ensures before { M.before pages.new ≡ M.before pages.old }
    {
        match self.live_cell(pages, tag) {
            Some(at) => switch_at(alloc, pages, space, cells, &at, page, &home, version),
            None => Err(StoreFault::NoPage),
        }
    }
}
