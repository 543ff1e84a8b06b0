//! The steps in which a file lets go of its pages and cells.
ghost use Rattle.std.specs.Prelude.{◌≡◌, ◌⊎◌, ◌+◌, ◌<◌, ◌≤◌, ◌↔◌, ℕ, IfErr, IfOk, IfSome, List, None, OnErr, OnOk};
ghost use Rattle.fileset_files.specs.domain_base.declared.place.CellAt.{CellAt as CellAtOf};
ghost use Rattle.fileset_files.specs.page_store.Pages.{Pages};
ghost use Rattle.fileset_files.specs.page_store.declared.fault.StoreFault.TheVariants.{NoPage};
ghost use Rattle.fileset_files.specs.metadata_cells.Chain.{PlacedCell};
ghost use Rattle.fileset_files.specs.extent_maps.declared.run.PagePlace.TheVariants.{At};
ghost use Rattle.fileset_files.specs.extent_maps.Runs.{place_of};
ghost use Rattle.fileset_files.specs.file_chains.Allocated.{AreAllocated, FindsNone};
ghost use Rattle.fileset_files.specs.file_chains.FileChanges.{LeavesOtherCells};
ghost use Rattle.fileset_files.specs.file_chains.Files.{IsFile, places_of};
ghost use Rattle.fileset_files.specs.file_chains.MapChanges.{LeavesOffTables, NoneTakes};
ghost use Rattle.file_release.specs.declared.released.Released.TheVariants as released;
ghost use Rattle.file_release.specs.Releases.{LacksPlace, LeavesBoth, Releases};
ghost use Rattle.file_release.specs.Sharing.{AreSharing, HasSharing, IsKnown, IsReader, IsReleased, IsWithin, frozen_of};
ghost use Rattle.file_release.specs.Steps.{HandsOver, IsPlan, IsPlanned, IsStaleCell, IsTail, KeepsCells, MayHandOver, MayPlan, PassesOn, went};

use crate::edits::{ChainEdit, edit_for, write_edit};
use crate::giving_back::{give_back_from, use_of};
use crate::reader::{OwnPages, Reader, frozen_pages, reader_map};
use crate::released::Released;
use crate::stale::{Stale, cell_map, find_from};
use crate::tail::{Tail, tail_of};
use fileset_files::limits::FILE_PAGES;
use fileset_files::{
    CellAt, ExtentMap, FreeCells, FreeSpace, Home, MetaPages, OutOfMemory, PageUse, StoreFault,
    Version, put_page,
};
use std::alloc::Global;

/// What one step lets go: the tail of the pages of one cell's record, the map of that record, and
/// what is then written to the chain. It also has the reader's map, if that was read for it.
#[derive(Drop)]
pub struct Plan {
    pub map: ExtentMap,
    pub tail: Tail,
    pub edit: ChainEdit,
    pub read: Option<ExtentMap>,
}

/// Which pages go in one step, and the reader's map, if it was read for this.
#[derive(Drop)]
pub struct ReadTail {
    pub tail: Tail,
    pub read: Option<ExtentMap>,
}

/// Which pages of a map go in one step, if none of them is one that the reader may read through the
/// file: a frozen page that has a home.
fn tail_alone(alloc: Global, map: &ExtentMap, from: u32, frozen: u32) -> Option<Tail>
    ensures { (own : List PlacedCell)
        → IfSome result (IsTail from frozen (places_of own) (place_of map.now)) }
{
    let alone = tail_of(map, &ExtentMap::new(alloc), from, frozen);
    if alone.home.is_none() && alone.from == from {
        Some(alone)
    } else {
        None
    }
}

/// Which pages of a map go in one step, if the reader's map is known.
fn tail_known(
    map: &ExtentMap,
    from: u32,
    reader: &Option<Reader>,
    known: &Option<OwnPages>,
) -> Option<Tail>
    ensures { (pages : Pages) (own : List PlacedCell) → IsKnown pages known.now
        → IsReader pages reader.now own
        → IfSome result (IsTail from (frozen_of reader.now) (places_of own) (place_of map.now)) }
{
    let Some(reader) = reader else {
        return None;
    };
    match known {
        Some(known) if known.at == reader.at => {
            Some(tail_of(map, &known.map, from, reader.frozen))
        }
        _ => None,
    }
}

/// Which pages of a map go in one step. Looks at the reader's cells only if one of these pages may
/// be read through the file and the reader's map is not known.
fn tail_for<M: MetaPages>(
    alloc: Global,
    pages: &M,
    map: &ExtentMap,
    from: u32,
    reader: &Option<Reader>,
    known: &Option<OwnPages>,
) -> Result<ReadTail, OutOfMemory>
    requires reads { (own : List PlacedCell) × IsReader (M.pages pages.now) reader.now own }
    requires known { IsKnown (M.pages pages.now) known.now }
    ensures tail { (own : List PlacedCell) → IsReader (M.pages pages.now) reader.now own
        → IfOk result (λ found. IsTail from (frozen_of reader.now) (places_of own)
        (place_of map.now) found.tail) }
    ensures read { (own : List PlacedCell) → IsReader (M.pages pages.now) reader.now own
        → IfOk result (λ found. IfSome found.read
        (λ map. (page : ℕ) → place_of map page ≡ places_of own page)) }
{
    let frozen = frozen_pages(reader);
    if let Some(tail) = tail_alone(alloc, map, from, frozen) {
        return Ok(ReadTail { tail, read: None });
    }
    if let Some(tail) = tail_known(map, from, reader, known) {
        return Ok(ReadTail { tail, read: None });
    }
    let own = reader_map(alloc, pages, reader)?;
    let tail = tail_of(map, &own, from, frozen);
    Ok(ReadTail {
        tail,
        read: Some(own),
    })
}

/// What one step lets go of a cell. Takes all the memory that the step needs, except for what
/// handing over a page needs.
fn plan_step<M: MetaPages>(
    alloc: Global,
    pages: &M,
    stale: &Stale,
    from: u32,
    reader: &Option<Reader>,
    known: &Option<OwnPages>,
) -> Result<Plan, OutOfMemory>
    requires may { (chain : List PlacedCell) × (own : List PlacedCell)
        × MayPlan from reader.now stale.now (M.pages pages.now) chain own }
    requires known { IsKnown (M.pages pages.now) known.now }
    ensures { (chain own : List PlacedCell)
        → MayPlan from reader.now stale.now (M.pages pages.now) chain own
        → IfOk result (IsPlan from (frozen_of reader.now) chain own stale.now) }
{
    let map = cell_map(alloc, pages, &stale.at)?;
    let found = tail_for(alloc, pages, &map, from, reader, known)?;
    let edit = edit_for(alloc, pages, stale, found.tail.from)?;
    Ok(Plan {
        map,
        tail: found.tail,
        edit,
        read: found.read,
    })
}

/// Puts a page in a reader's chain.
fn hand_over<M: MetaPages>(
    alloc: Global,
    pages: &mut M,
    space: &mut FreeSpace,
    cells: &mut FreeCells,
    reader: &Option<Reader>,
    page: u32,
    home: Home,
    version: Version,
) -> Result<(), StoreFault>
    requires allocated { AreAllocated space.old cells.old (M.pages pages.old) }
    requires may { (own : List PlacedCell)
        × MayHandOver page reader.now cells.old (M.pages pages.old) own }
    requires small { page < FILE_PAGES }
    ensures ok { (own : List PlacedCell)
        → MayHandOver page reader.now cells.old (M.pages pages.old) own
        → OnOk result (IfSome reader.now (λ r. HandsOver page home r.at own version space.old
        space.new cells.old cells.new (M.pages pages.old) (M.pages pages.new))) }
    ensures err { IfErr result (FindsNone space.old space.new cells.old) }
    ensures full { (own : List PlacedCell)
        → MayHandOver page reader.now cells.old (M.pages pages.old) own
        → IfErr result (λ fault. fault ≡ NoPage → NoneTakes page (At home) own) }
    ensures cells { OnErr result (cells.new ≡ cells.old) }
    ensures pages { OnErr result (M.pages pages.new ≡ M.pages pages.old) }
    ensures allocated { AreAllocated space.new cells.new (M.pages pages.new) }
    ensures others { (own : List PlacedCell)
        → MayHandOver page reader.now cells.old (M.pages pages.old) own
        → LeavesOtherCells cells.old own (M.pages pages.old) (M.pages pages.new) }
    ensures elsewhere { LeavesOffTables cells.new (M.pages pages.old) (M.pages pages.new) }
    ensures room { M.room pages.old ≤ M.room pages.new + 1 }
    ensures before { M.before pages.new ≡ M.before pages.old }
{
    match reader {
        Some(reader) => put_page(
            alloc, pages, space, cells, reader.at, page, home, version, home.vol,
        ),
        None => Ok(()),
    }
}

/// Hands the tail over to the reader, or gives it back.
fn pass_on<M: MetaPages>(
    alloc: Global,
    pages: &mut M,
    space: &mut FreeSpace,
    cells: &mut FreeCells,
    plan: &Plan,
    reader: &Option<Reader>,
    kind: PageUse,
    group: u64,
    version: Version,
) -> Result<(), StoreFault>
    requires allocated { AreAllocated space.old cells.old (M.pages pages.old) }
    requires planned { (from : ℕ) × (start : CellAtOf) × (chain : List PlacedCell)
        × (own : List PlacedCell) × IsPlanned from start reader.now plan.now space.old cells.old
        (M.pages pages.old) chain own }
    ensures ok { (from : ℕ) (start : CellAtOf) (chain own : List PlacedCell)
        → IsPlanned from start reader.now plan.now space.old cells.old (M.pages pages.old) chain own
        → OnOk result (PassesOn plan.now.tail (place_of plan.now.map) reader.now own kind group
        version space.old space.new cells.old cells.new (M.pages pages.old) (M.pages pages.new)) }
    ensures err { IfErr result (FindsNone space.old space.new cells.old) }
    ensures full { (from : ℕ) (start : CellAtOf) (chain own : List PlacedCell)
        → IsPlanned from start reader.now plan.now space.old cells.old (M.pages pages.old) chain own
        → IfErr result (λ fault. fault ≡ NoPage
        → LacksPlace from (frozen_of reader.now) chain own) }
    ensures cells { OnErr result (cells.new ≡ cells.old) }
    ensures pages { OnErr result (M.pages pages.new ≡ M.pages pages.old) }
    ensures allocated { AreAllocated space.new cells.new (M.pages pages.new) }
    ensures others { (from : ℕ) (start : CellAtOf) (chain own : List PlacedCell)
        → IsPlanned from start reader.now plan.now space.old cells.old (M.pages pages.old) chain own
        → LeavesOtherCells cells.old own (M.pages pages.old) (M.pages pages.new) }
    ensures elsewhere { LeavesOffTables cells.new (M.pages pages.old) (M.pages pages.new) }
    ensures room { M.room pages.old ≤ M.room pages.new + 1 }
    ensures before { M.before pages.new ≡ M.before pages.old }
{
    match plan.tail.home {
        Some(home) => hand_over(
            alloc,
            pages,
            space,
            cells,
            reader,
            plan.tail.from,
            home,
            version,
        ),
        None => {
            give_back_from(space, &plan.map, plan.tail.from, kind, group);
            Ok(())
        }
    }
}

/// What a written edit let go.
fn what_went(edit: &ChainEdit) -> Released
    ensures { result ≡ went edit.now.freed }
{
    match edit.freed {
        Some(_) => Released::Cell,
        None => Released::Pages,
    }
}

/// Carries out what was planned.
fn carry_out<M: MetaPages>(
    alloc: Global,
    pages: &mut M,
    space: &mut FreeSpace,
    cells: &mut FreeCells,
    start: &CellAt,
    plan: &Plan,
    reader: &Option<Reader>,
    group: u64,
    version: Version,
) -> Result<Released, StoreFault>
    requires allocated { AreAllocated space.old cells.old (M.pages pages.old) }
    requires planned { (from : ℕ) × (chain : List PlacedCell) × (own : List PlacedCell)
        × IsPlanned from start.now reader.now plan.now space.old cells.old (M.pages pages.old) chain
        own }
    ensures ok { (from : ℕ) (chain own : List PlacedCell)
        → IsPlanned from start.now reader.now plan.now space.old cells.old (M.pages pages.old) chain
        own → IfOk result (Releases from start.now reader.now group version chain own space.old
        space.new cells.old cells.new (M.pages pages.old) (M.pages pages.new)) }
    ensures err { IfErr result (FindsNone space.old space.new cells.old) }
    ensures full { (from : ℕ) (chain own : List PlacedCell)
        → IsPlanned from start.now reader.now plan.now space.old cells.old (M.pages pages.old) chain
        own → IfErr result (λ fault. fault ≡ NoPage
        → LacksPlace from (frozen_of reader.now) chain own) }
    ensures cells { OnErr result (cells.new ≡ cells.old) }
    ensures pages { OnErr result (M.pages pages.new ≡ M.pages pages.old) }
    ensures others { (from : ℕ) (chain own : List PlacedCell)
        → IsPlanned from start.now reader.now plan.now space.old cells.old (M.pages pages.old) chain
        own → LeavesBoth cells.old chain own (M.pages pages.old) (M.pages pages.new) }
    ensures stay { (from : ℕ) (chain own : List PlacedCell)
        → IsPlanned from start.now reader.now plan.now space.old cells.old (M.pages pages.old) chain
        own → OnOk result (KeepsCells plan.now.edit.freed start.now chain (M.pages pages.new)) }
    ensures reads { (from : ℕ) (chain own : List PlacedCell)
        → IsPlanned from start.now reader.now plan.now space.old cells.old (M.pages pages.old) chain
        own → plan.now.tail.home ≡ None
        → OnOk result (IsReader (M.pages pages.new) reader.now own) }
    ensures elsewhere { LeavesOffTables cells.new (M.pages pages.old) (M.pages pages.new) }
    ensures allocated { AreAllocated space.new cells.new (M.pages pages.new) }
    ensures room { M.room pages.old ≤ M.room pages.new + 1 }
    ensures before { M.before pages.new ≡ M.before pages.old }
{
    let kind = use_of(pages, start);
    match pass_on(
        alloc, pages, space, cells, plan, reader, kind, group, version,
    ) {
        Ok(()) => {
            write_edit(pages, cells, &plan.edit);
            Ok(what_went(&plan.edit))
        }
        Err(fault) => Err(fault),
    }
}

/// What is known, if it is about this reader.
fn of_reader(known: Option<OwnPages>, reader: &Reader) -> Option<OwnPages>
    ensures known { (result ≡ None) ⊎ (result ≡ known) }
    ensures reader { IfSome result (λ k. k.at ≡ reader.now.at) }
{
    match known {
        Some(known) if known.at == reader.at => Some(known),
        _ => None,
    }
}

/// What is known of a reader whose cells stayed: its map if that was read, else what was known
/// before.
fn known_still(
    reader: &Reader,
    read: Option<ExtentMap>,
    known: Option<OwnPages>,
) -> Option<OwnPages>
    ensures { (old new : Pages) (own : List PlacedCell) → IsKnown old known
        → IsFile old reader.now.at own → IsFile new reader.now.at own
        → IfSome read (λ map. (page : ℕ) → place_of map page ≡ places_of own page)
        → IsKnown new result }
{
    match read {
        Some(map) => Some(OwnPages { at: reader.at, map }),
        None => of_reader(known, reader),
    }
}

/// What is known of a reader after a tail was let go: nothing if a page was handed over.
fn known_after(
    tail: &Tail,
    reader: &Option<Reader>,
    read: Option<ExtentMap>,
    known: Option<OwnPages>,
) -> Option<OwnPages>
    ensures { (old new : Pages) (own : List PlacedCell) → IsKnown old known
        → IsReader old reader.now own
        → (tail.now.home ≡ None → IsReader new reader.now own)
        → IfSome read (λ map. (page : ℕ) → place_of map page ≡ places_of own page)
        → IsKnown new result }
{
    match tail.home {
        Some(_) => None,
        None => match reader {
            Some(reader) => known_still(reader, read, known),
            None => None,
        },
    }
}

/// Lets go of something that a cell of the chain has. The search for the next one starts after the
/// cell before it.
fn release_at<M: MetaPages>(
    alloc: Global,
    pages: &mut M,
    space: &mut FreeSpace,
    cells: &mut FreeCells,
    start: &CellAt,
    stale: &Stale,
    cursor: &mut Option<CellAt>,
    known: &mut Option<OwnPages>,
    from: u32,
    reader: &Option<Reader>,
    group: u64,
    version: Version,
) -> Result<Released, StoreFault>
    requires allocated { AreAllocated space.old cells.old (M.pages pages.old) }
    requires sharing { (chain : List PlacedCell) × (own : List PlacedCell)
        × AreSharing start.now reader.now space.old cells.old (M.pages pages.old) chain own
        × IsStaleCell from chain stale.now }
    requires within { IsWithin (M.pages pages.old) start.now cursor.old }
    requires known { IsKnown (M.pages pages.old) known.old }
    ensures within { IsWithin (M.pages pages.new) start.now cursor.new }
    ensures known { IsKnown (M.pages pages.new) known.new }
    ensures same { OnErr result (known.new ≡ known.old) }
    ensures ok { (chain own : List PlacedCell)
        → AreSharing start.now reader.now space.old cells.old (M.pages pages.old) chain own
        → IsStaleCell from chain stale.now
        → IfOk result (Releases from start.now reader.now group version chain own space.old
        space.new cells.old cells.new (M.pages pages.old) (M.pages pages.new)) }
    ensures err { IfErr result (FindsNone space.old space.new cells.old) }
    ensures full { (chain own : List PlacedCell)
        → AreSharing start.now reader.now space.old cells.old (M.pages pages.old) chain own
        → IsStaleCell from chain stale.now
        → IfErr result (λ fault. fault ≡ NoPage
        → LacksPlace from (frozen_of reader.now) chain own) }
    ensures cells { OnErr result (cells.new ≡ cells.old) }
    ensures pages { OnErr result (M.pages pages.new ≡ M.pages pages.old) }
    ensures others { (chain own : List PlacedCell)
        → AreSharing start.now reader.now space.old cells.old (M.pages pages.old) chain own
        → IsStaleCell from chain stale.now
        → LeavesBoth cells.old chain own (M.pages pages.old) (M.pages pages.new) }
    ensures elsewhere { LeavesOffTables cells.new (M.pages pages.old) (M.pages pages.new) }
    ensures allocated { AreAllocated space.new cells.new (M.pages pages.new) }
    ensures room { M.room pages.old ≤ M.room pages.new + 1 }
    ensures before { M.before pages.new ≡ M.before pages.old }
{
    let plan = plan_step(alloc, pages, stale, from, reader, known)?;
    *cursor = stale.before;
    match carry_out(
        alloc, pages, space, cells, start, &plan, reader, group, version,
    ) {
        Ok(what) => {
            let Plan { tail, read, .. } = plan;
            *known = known_after(&tail, reader, read, known.take());
            Ok(what)
        }
        Err(fault) => Err(fault),
    }
}

/// Lets go of something that the file whose chain begins at that cell has. It takes the first cell
/// after the cursor, a cell of the chain, that has a page from `from` on or, if it is not the first
/// cell, has no page at all. If the cursor is None, or there is no such cell after it, it takes the
/// first such cell of all. The cursor is then the cell before that one, so that the next step
/// continues there and does not pass again what was passed: a hint on which nothing but the choice
/// of the cell depends. What is known of the reader's pages is used if it is needed, and read if it
/// is not known. It is kept for the next step unless a page is handed over. Of that cell's pages
/// from `from` on, as many of the last ones go as the reader does not read through the file. If the
/// reader reads the last one, that one alone goes, and is put in the reader's chain. All others are
/// given back, and wait for the group: as metadata if the file is a directory or its data is
/// logged, else as data. A cell after the first that has no page left is unlinked and freed.
/// `Nothing` is returned if and only if there is no such cell, and then nothing has changed. At
/// most two pages of metadata change, or five if a page is handed over.
///
/// NoPage is returned only if the reader reads a page through the file that no record of its chain
/// can take, no cell is free, and there is no page that would hold more cells. That is a miss.
/// After an error nothing but room, the count of misses and the cursor has changed.
pub fn release_tail<M: MetaPages>(
    alloc: Global,
    pages: &mut M,
    space: &mut FreeSpace,
    cells: &mut FreeCells,
    start: CellAt,
    cursor: &mut Option<CellAt>,
    known: &mut Option<OwnPages>,
    from: u32,
    reader: &Option<Reader>,
    group: u64,
    version: Version,
) -> Result<Released, StoreFault>
    requires allocated { AreAllocated space.old cells.old (M.pages pages.old) }
    requires sharing { HasSharing start reader.now space.old cells.old (M.pages pages.old) }
    requires within { IsWithin (M.pages pages.old) start cursor.old }
    requires known { IsKnown (M.pages pages.old) known.old }
    ensures within { IsWithin (M.pages pages.new) start cursor.new }
    ensures known { IsKnown (M.pages pages.new) known.new }
    ensures same { OnErr result (known.new ≡ known.old) }
    ensures ok { (chain own : List PlacedCell)
        → AreSharing start reader.now space.old cells.old (M.pages pages.old) chain own
        → IfOk result (λ what. ¬ what ≡ released.Nothing → Releases from start reader.now group
        version chain own space.old space.new cells.old cells.new (M.pages pages.old)
        (M.pages pages.new) what) }
    ensures nothing { (chain own : List PlacedCell)
        → AreSharing start reader.now space.old cells.old (M.pages pages.old) chain own
        → IfOk result (λ what. (what ≡ released.Nothing) ↔ IsReleased from chain) }
    ensures kept { IfOk result (λ what. what ≡ released.Nothing → (space.new ≡ space.old)
        × (cells.new ≡ cells.old) × (M.pages pages.new ≡ M.pages pages.old)) }
    ensures idle { IfOk result (λ what. what ≡ released.Nothing → known.new ≡ known.old) }
    ensures err { IfErr result (FindsNone space.old space.new cells.old) }
    ensures full { (chain own : List PlacedCell)
        → AreSharing start reader.now space.old cells.old (M.pages pages.old) chain own
        → IfErr result (λ fault. fault ≡ NoPage
        → LacksPlace from (frozen_of reader.now) chain own) }
    ensures cells { OnErr result (cells.new ≡ cells.old) }
    ensures pages { OnErr result (M.pages pages.new ≡ M.pages pages.old) }
    ensures others { (chain own : List PlacedCell)
        → AreSharing start reader.now space.old cells.old (M.pages pages.old) chain own
        → LeavesBoth cells.old chain own (M.pages pages.old) (M.pages pages.new) }
    ensures elsewhere { LeavesOffTables cells.new (M.pages pages.old) (M.pages pages.new) }
    ensures allocated { AreAllocated space.new cells.new (M.pages pages.new) }
    ensures room { M.room pages.old ≤ M.room pages.new + 1 }
    ensures before { M.before pages.new ≡ M.before pages.old }
{
    match find_from(alloc, pages, &start, cursor, from)? {
        Some(stale) => release_at(
            alloc, pages, space, cells, &start, &stale, cursor, known, from, reader, group, version,
        ),
        None => Ok(Released::Nothing),
    }
}
