//! Free cells handed out, and pages of cells added if none is free.
ghost use Rattle.std.specs.Prelude.{◌≡◌, ◌≢◌, ◌+◌, ◌<◌, ◌≤◌, ℕ, false, IfErr, IfOk, IsSomeAnd, OnErr, OnOk, Contains, Some, length};
ghost use Rattle.free_cells.specs.domain_base.declared.place.CellAt.{CellAt as CellAtOf};
ghost use Rattle.free_cells.specs.domain_base.declared.place.Home.{Home as HomeOf};
ghost use Rattle.free_cells.specs.domain_base.Page.{zero_bytes};
ghost use Rattle.free_cells.specs.page_store.Pages.{same_home};
ghost use Rattle.free_cells.specs.metadata_cells.CellPage.{HasPlace, IsEmptyPage, KeepsWellFormed, cell_at};
ghost use Rattle.free_cells.specs.metadata_cells.Chain.{LeavesOthers};
ghost use Rattle.free_cells.specs.Cells.{JoinsEmptyPage, can_take, is_on, table_of};
ghost use Rattle.free_cells.specs.Belong.{Belong, LeadsTo, last_home};
ghost use Rattle.free_cells.specs.free_space.VolumeSpace.{without_page};
ghost use Rattle.free_cells.specs.free_space.Spaces.{CanTake, IsHeld, change_volume};
ghost use Rattle.file_chains.specs.Allocated.{AddsTablePage, AreAllocated, FindsNone, Takes};

use free_cells::{CellAt, FreeCells, FreeSpace, Home, MetaPages, OutOfMemory, StoreFault, VolIx};
use std::alloc::Global;

/// Adds a page of free cells on a page that was allocated. Gives that page back if memory runs out.
fn add_on<M: MetaPages>(
    alloc: Global,
    pages: &mut M,
    space: &mut FreeSpace,
    cells: &mut FreeCells,
    home: &Home,
) -> Result<(), OutOfMemory>
    requires belong { Belong cells.old (M.pages pages.old) }
    requires some { 0 < length (table_of cells.old home.now.vol) }
    requires ends { LeadsTo cells.old home.now.vol (M.pages pages.old) 0 }
    requires number { home.now.page ≢ 0 }
    requires fresh { ¬ Contains (table_of cells.old home.now.vol) home.now.page }
    requires held { IsHeld space.old home.now.vol home.now.page }
    ensures space { OnOk result (space.new ≡ space.old) }
    ensures joins { OnOk result (JoinsEmptyPage home.now cells.old cells.new) }
    ensures page { OnOk result (IsSomeAnd (M.pages pages.new home.now)
        (IsEmptyPage (length (table_of cells.old home.now.vol)))) }
    ensures others { LeavesOthers (is_on home.now) (M.pages pages.old) (M.pages pages.new) }
    ensures well_formed { KeepsWellFormed (M.pages pages.old) (M.pages pages.new) }
    ensures elsewhere { (h : HomeOf) → same_home h home.now ≡ false
        → same_home h (last_home cells.old home.now.vol) ≡ false
        → M.pages pages.new h ≡ M.pages pages.old h }
    ensures unreserved { OnErr result (space.new
        ≡ change_volume (without_page home.now.page) space.old home.now.vol) }
    ensures cells { OnErr result (cells.new ≡ cells.old) }
    ensures pages { OnErr result (M.pages pages.new ≡ M.pages pages.old) }
    ensures belong { Belong cells.new (M.pages pages.new) }
    ensures room { M.room pages.old ≤ M.room pages.new + 1 }
    ensures before { M.before pages.new ≡ M.before pages.old }
{
    let added = cells.add_page(alloc, pages, *home);
    if added.is_err() {
        space.unreserve(*home);
    }
    added
}

/// Adds a page of free cells, of the preferred volume if that has a free page. After an error
/// nothing but room and the count of misses has changed.
fn add_table_page<M: MetaPages>(
    alloc: Global,
    pages: &mut M,
    space: &mut FreeSpace,
    cells: &mut FreeCells,
    prefer: VolIx,
) -> Result<Home, StoreFault>
    requires allocated { AreAllocated space.old cells.old (M.pages pages.old) }
    requires none { (q : CellAtOf) → can_take cells.old q ≡ false }
    ensures ok { IfOk result (λ home. AddsTablePage home space.old space.new cells.old cells.new
        (M.pages pages.old) (M.pages pages.new)) }
    ensures preferred { IfOk result (λ home. (p : ℕ) → CanTake space.old prefer p
        → home.vol ≡ prefer) }
    ensures err { IfErr result (FindsNone space.old space.new cells.old) }
    ensures cells { OnErr result (cells.new ≡ cells.old) }
    ensures pages { OnErr result (M.pages pages.new ≡ M.pages pages.old) }
    ensures allocated { AreAllocated space.new cells.new (M.pages pages.new) }
    ensures room { M.room pages.old ≤ M.room pages.new + 1 }
    ensures before { M.before pages.new ≡ M.before pages.old }
{
    let Some(home) = space.allocate(prefer) else {
        return Err(StoreFault::NoPage);
    };
    match add_on(alloc, pages, space, cells, &home) {
        Ok(()) => Ok(home),
        Err(OutOfMemory) => Err(StoreFault::OutOfMemory),
    }
}

/// Takes a free cell of a volume that is not closed, of the preferred volume if that has one. If
/// none is free, a page of 28 cells is added first, of the preferred volume if that has a free
/// page. The cell is 292 zeros, and no longer free. NoPage is returned if and only if no cell is
/// free and there is no page that would hold more cells. That is a miss. After an error nothing but
/// room and the count of misses has changed.
pub fn take_cell<M: MetaPages>(
    alloc: Global,
    pages: &mut M,
    space: &mut FreeSpace,
    cells: &mut FreeCells,
    prefer: VolIx,
) -> Result<CellAt, StoreFault>
    requires { AreAllocated space.old cells.old (M.pages pages.old) }
    ensures ok { IfOk result (λ at. Takes prefer at space.old space.new cells.old cells.new
        (M.pages pages.old) (M.pages pages.new)) }
    ensures place { IfOk result (HasPlace (M.pages pages.new)) }
    ensures zeros { IfOk result (λ at. cell_at (M.pages pages.new) at ≡ Some (zero_bytes 292)) }
    ensures err { IfErr result (FindsNone space.old space.new cells.old) }
    ensures cells { OnErr result (cells.new ≡ cells.old) }
    ensures pages { OnErr result (M.pages pages.new ≡ M.pages pages.old) }
    ensures allocated { AreAllocated space.new cells.new (M.pages pages.new) }
    ensures room { M.room pages.old ≤ M.room pages.new + 1 }
    ensures before { M.before pages.new ≡ M.before pages.old }
{
    if let Some(at) = cells.new_cell(prefer) {
        return Ok(at);
    }
    let home = add_table_page(alloc, pages, space, cells, prefer)?;
    Ok(cells.new_cell(home.vol).unwrap())
}
