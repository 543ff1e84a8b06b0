//! A file gets a page that it does not have.
ghost use Rattle.std.specs.Prelude.{◌≡◌, ◌+◌, ◌<◌, ◌≤◌, IfErr, IfOk, IfSome, IsSomeAnd, List, OnErr, OnOk};
ghost use Rattle.file_chains.specs.page_store.declared.fault.StoreFault.TheVariants.{NoPage};
ghost use Rattle.file_chains.specs.metadata_cells.Chain.{PlacedCell};
ghost use Rattle.file_chains.specs.extent_maps.declared.run.PagePlace.TheVariants.{Absent, At};
ghost use Rattle.file_chains.specs.free_space.Spaces.{IsHeld};
ghost use Rattle.file_chains.specs.Allocated.{AreAllocated};
ghost use Rattle.file_chains.specs.FileChanges.{AreOnTables, LeavesOtherCells};
ghost use Rattle.file_chains.specs.Files.{HasFile, IsFile, places_of};
ghost use Rattle.file_chains.specs.MapChanges.{ChangesOnTables, LeavesOffTables, NoneTakes, TakesIfFull};
ghost use Rattle.fileset_files.specs.Files.{Chains};
ghost use Rattle.fileset_files.specs.Pages.{ChangesFile, GetsNone, IsGivenBack, MayGrow, TakesHome};
ghost use Rattle.fileset_files.specs.Together.{AreTogether, HasTogether};

use crate::bitfiles::Bitfiles;
use file_chains::limits::FILE_PAGES;
use file_chains::{
    CellAt, FreeCells, FreeSpace, Home, MetaPages, StoreFault, Tag, Version, VolIx, put_page,
};
use std::alloc::Global;

/// Puts a page at a home that was taken for it, and gives the home back if that fails.
fn put_or_give_back<M: MetaPages>(
    alloc: Global,
    pages: &mut M,
    space: &mut FreeSpace,
    cells: &mut FreeCells,
    start: &CellAt,
    page: u32,
    home: &Home,
    version: Version,
    prefer: VolIx,
) -> Result<(), StoreFault>
    requires allocated { AreAllocated space.old cells.old (M.pages pages.old) }
    requires file { HasFile (M.pages pages.old) start.now }
    requires tables { (chain : List PlacedCell) → IsFile (M.pages pages.old) start.now chain
        → AreOnTables cells.old chain }
    requires absent { (chain : List PlacedCell) → IsFile (M.pages pages.old) start.now chain
        → places_of chain page ≡ Absent }
    requires small { page < FILE_PAGES }
    requires held { IsHeld space.old home.now.vol home.now.page }
    ensures ok { (chain : List PlacedCell) → IsFile (M.pages pages.old) start.now chain
        → OnOk result (ChangesOnTables start.now page (At home.now) chain version cells.old
        cells.new (M.pages pages.old) (M.pages pages.new)) }
    ensures taken { (chain : List PlacedCell) → IsFile (M.pages pages.old) start.now chain
        → OnOk result (TakesIfFull page (At home.now) chain prefer space.old space.new cells.old
        cells.new (M.pages pages.old)) }
    ensures err { IfErr result (IsGivenBack home.now space.old space.new cells.old) }
    ensures full { (chain : List PlacedCell) → IsFile (M.pages pages.old) start.now chain
        → IfErr result (λ fault. fault ≡ NoPage → NoneTakes page (At home.now) chain) }
    ensures cells { OnErr result (cells.new ≡ cells.old) }
    ensures pages { OnErr result (M.pages pages.new ≡ M.pages pages.old) }
    ensures others { (chain : List PlacedCell) → IsFile (M.pages pages.old) start.now chain
        → LeavesOtherCells cells.old chain (M.pages pages.old) (M.pages pages.new) }
    ensures elsewhere { LeavesOffTables cells.new (M.pages pages.old) (M.pages pages.new) }
    ensures allocated { OnOk result (AreAllocated space.new cells.new (M.pages pages.new)) }
    ensures room { M.room pages.old ≤ M.room pages.new + 1 }
    ensures before { M.before pages.new ≡ M.before pages.old }
{
    match put_page(
        alloc, pages, space, cells, *start, page, *home, version, prefer,
    ) {
        Ok(()) => Ok(()),
        Err(fault) => {
            space.unreserve(*home);
            Err(fault)
        }
    }
}

/// Puts a page that a file does not have at a home that is taken for it.
pub(crate) fn give_at<M: MetaPages>(
    alloc: Global,
    pages: &mut M,
    space: &mut FreeSpace,
    cells: &mut FreeCells,
    start: &CellAt,
    page: u32,
    version: Version,
    prefer: VolIx,
) -> Result<Home, StoreFault>
    requires allocated { AreAllocated space.old cells.old (M.pages pages.old) }
    requires file { HasFile (M.pages pages.old) start.now }
    requires tables { (chain : List PlacedCell) → IsFile (M.pages pages.old) start.now chain
        → AreOnTables cells.old chain }
    requires absent { (chain : List PlacedCell) → IsFile (M.pages pages.old) start.now chain
        → places_of chain page ≡ Absent }
    requires small { page < FILE_PAGES }
    ensures ok { (chain : List PlacedCell) → IsFile (M.pages pages.old) start.now chain
        → IfOk result (λ home. ChangesOnTables start.now page (At home) chain version cells.old
        cells.new (M.pages pages.old) (M.pages pages.new)) }
    ensures taken { (chain : List PlacedCell) → IsFile (M.pages pages.old) start.now chain
        → IfOk result (λ home. TakesHome prefer page home chain space.old space.new cells.old
        cells.new (M.pages pages.old)) }
    ensures err { (chain : List PlacedCell) → IsFile (M.pages pages.old) start.now chain
        → IfErr result (GetsNone page chain space.old space.new cells.old) }
    ensures cells { OnErr result (cells.new ≡ cells.old) }
    ensures pages { OnErr result (M.pages pages.new ≡ M.pages pages.old) }
    ensures others { (chain : List PlacedCell) → IsFile (M.pages pages.old) start.now chain
        → LeavesOtherCells cells.old chain (M.pages pages.old) (M.pages pages.new) }
    ensures elsewhere { LeavesOffTables cells.new (M.pages pages.old) (M.pages pages.new) }
    ensures allocated { AreAllocated space.new cells.new (M.pages pages.new) }
    ensures volume { IfOk result (λ home. 1 ≤ home.vol) }
    ensures room { M.room pages.old ≤ M.room pages.new + 1 }
    ensures before { M.before pages.new ≡ M.before pages.old }
{
    let Some(home) = space.allocate(prefer) else {
        return Err(StoreFault::NoPage);
    };
    match put_or_give_back(
        alloc, pages, space, cells, start, page, &home, version, prefer,
    ) {
        Ok(()) => Ok(home),
        Err(fault) => Err(fault),
    }
}

impl Bitfiles {
    /// Gives a page to the file that a live tag names, which keeps that page and does not have it.
    /// A free page, of the preferred volume if that has one, becomes its home. NoPage is returned
    /// only if no page is free, or if one more cell is needed, none is free, and no page is free
    /// besides this one. That is a miss. After an error nothing but room and the count of misses
    /// has changed.
    pub fn give_page<M: MetaPages>(
        &self,
        alloc: Global,
        pages: &mut M,
        space: &mut FreeSpace,
        cells: &mut FreeCells,
        tag: Tag,
        page: u32,
        prefer: VolIx,
        version: Version,
    ) -> Result<Home, StoreFault>
        requires together { HasTogether self.now.fileset self.now.tags space.old cells.old
            (M.pages pages.old) }
        requires grows { (chains : Chains) → AreTogether self.now.fileset self.now.tags space.old
            cells.old (M.pages pages.old) chains → MayGrow tag page chains }
        requires small { page < FILE_PAGES }
        ensures ok { (chains : Chains) → AreTogether self.now.fileset self.now.tags space.old
            cells.old (M.pages pages.old) chains → IfOk result (λ home. IsSomeAnd (chains tag)
            (ChangesFile self.now.fileset self.now.tags tag page (At home) version chains space.new
            cells.old cells.new (M.pages pages.old) (M.pages pages.new))) }
        ensures taken { (chains : Chains) → AreTogether self.now.fileset self.now.tags space.old
            cells.old (M.pages pages.old) chains → IfOk result (λ home. IsSomeAnd (chains tag)
            (λ chain. TakesHome prefer page home chain space.old space.new cells.old cells.new
            (M.pages pages.old))) }
        ensures err { (chains : Chains) → AreTogether self.now.fileset self.now.tags space.old
            cells.old (M.pages pages.old) chains → IfErr result (λ fault. IsSomeAnd (chains tag)
            (λ chain. GetsNone page chain space.old space.new cells.old fault)) }
        ensures volume { IfOk result (λ home. 1 ≤ home.vol) }
        ensures kept { (chains : Chains) → AreTogether self.now.fileset self.now.tags space.old
            cells.old (M.pages pages.old) chains → OnErr result (AreTogether self.now.fileset
            self.now.tags space.new cells.new (M.pages pages.new) chains) }
        ensures cells { OnErr result (cells.new ≡ cells.old) }
        ensures pages { OnErr result (M.pages pages.new ≡ M.pages pages.old) }
        ensures others { (chains : Chains) → AreTogether self.now.fileset self.now.tags space.old
            cells.old (M.pages pages.old) chains → IfSome (chains tag) (λ chain.
            LeavesOtherCells cells.old chain (M.pages pages.old) (M.pages pages.new)) }
        ensures elsewhere { LeavesOffTables cells.new (M.pages pages.old) (M.pages pages.new) }
        ensures room { M.room pages.old ≤ M.room pages.new + 1 }
        ensures before { M.before pages.new ≡ M.before pages.old }
    {
        match self.live_cell(pages, tag) {
            Some(at) => give_at(alloc, pages, space, cells, &at, page, version, prefer),
            None => Err(StoreFault::NoPage),
        }
    }
}
