//! The free cells of a domain's volumes.
ghost use Rattle.std.specs.Prelude.{◌≡◌, ◌≢◌, ◌+◌, ◌-◌, ◌<◌, ◌≤◌, true, false, not, ◌==◌, ◌&&◌, if◌then◌else◌, List, [], Contains, length, IfOk, IfSome, IfNone, OnOk, OnErr, IsSomeAnd, Some};
ghost use Rattle.metadata_cells.specs.domain_base.declared.place.CellAt.{CellAt};
ghost use Rattle.metadata_cells.specs.domain_base.declared.place.Home.{Home};
ghost use Rattle.metadata_cells.specs.page_store.Pages.{Pages, same_home};
ghost use Rattle.metadata_cells.specs.CellPage.{HasPlace, IsEmptyPage, IsUsedAt, KeepsHeaders, KeepsWellFormed, cell_at, home_of};
ghost use Rattle.metadata_cells.specs.Chain.{LeavesOthers, is_at};
ghost use Rattle.metadata_cells.specs.domain_base.Page.{zero_bytes};
ghost use Rattle.free_cells.specs.VolumeTable.{AreOn, nothing_kept};
ghost use Rattle.free_cells.specs.Cells.{FreesCell, Holds, JoinsEmptyPage, JoinsPage, TakesCell, all_kept, can_take, is_closed, is_free, is_on, kept_of, table_of, taken_back, volume_of};
ghost use Rattle.free_cells.specs.Belong.{Belong, IsNextPage, LeadsTo, last_home as last_of};

use crate::linking::link_page;
use crate::volume::{FreeCell, VolumeCells};
use metadata_cells::limits::MAX_VOLUMES;
use metadata_cells::{CellAt, Home, MetaPages, OutOfMemory, Page, VolIx, clear_cell, empty_page};
use std::alloc::Global;
use std::marker::Model;

/// The free cells of a domain's volumes, and the pages that they stand on. Of each volume contracts
/// see the pages of its table in their order, which of their cells are free, and whether the volume
/// is closed, so that no cell of it is handed out; and the pages and free cells as they were kept
/// last. Room for the cells of a page is taken twice, so that a change and taking it back need
/// none.
#[derive(Debug, Drop)]
pub struct FreeCells {
    volumes: Vec<VolumeCells>,
}

impl Model for FreeCells {
    ghost use Rattle.std.specs.Prelude.{◌≡◌, List, vec_len};
    ghost use Rattle.std.specs.Coded.{coded_list};
    ghost use Rattle.free_cells.specs.VolumeTable.{VolumeTable, volume_code};

    ghost Value = { List VolumeTable };

    ghost coded = { coded_list volume_code };

    ghost view = { λ s. s.volumes.items };

    ghost invariant = { λ s. vec_len s.volumes ≡ 8 };
}

impl FreeCells {
    /// No free cells: no volume has a page that was read, and none is closed.
    pub fn new(alloc: Global) -> Result<Self, OutOfMemory>
        ensures value { IfOk result (Holds (λ _. []) (λ _. false) (λ _. false)
            (λ _. nothing_kept)) }
        ensures belong { IfOk result (λ cells. (pages : Pages) → Belong cells pages) }
    {
        let mut volumes = Vec::with_capacity(alloc, MAX_VOLUMES as usize)?;
        for _ in 0..MAX_VOLUMES {
            volumes.push(VolumeCells::new(alloc))?;
        }
        Ok(FreeCells { volumes })
    }

    /// Reads the page of cells that stands there, the next one of its volume's table. Its cells of
    /// kind 0 join the free ones. Pages are read in the order of the table. Takes room for all 28
    /// cells of the page to be free. After an error nothing has changed.
    pub fn read_page<M: MetaPages>(
        &mut self,
        alloc: Global,
        pages: &M,
        home: Home,
    ) -> Result<(), OutOfMemory>
        requires belong { Belong self.old (M.pages pages.now) }
        requires page { IsSomeAnd (M.pages pages.now home)
            (IsNextPage (length (table_of self.old home.vol))) }
        requires linked { LeadsTo self.old home.vol (M.pages pages.now) home.page }
        ensures ok { OnOk result (IsSomeAnd (M.pages pages.now home)
            (λ page. JoinsPage home page self.old self.new)) }
        ensures err { OnErr result (self.new ≡ self.old) }
        ensures belong { Belong self.new (M.pages pages.now) }
    {
        match pages.get(home) {
            Some(page) => self.join_page(alloc, &home, page),
            None => Ok(()),
        }
    }

    /// Adds a page of 28 free cells after the last page of its volume's table, which then leads to
    /// it. The new page has no next page. All 28 cells join the free ones. Every other cell stays,
    /// and every page but these two. Takes room for the page, and for its cells to be free. After
    /// an error nothing has changed, except that there may be more room.
    pub fn add_page<M: MetaPages>(
        &mut self,
        alloc: Global,
        pages: &mut M,
        home: Home,
    ) -> Result<(), OutOfMemory>
        requires belong { Belong self.old (M.pages pages.old) }
        requires some { 0 < length (table_of self.old home.vol) }
        requires ends { LeadsTo self.old home.vol (M.pages pages.old) 0 }
        requires number { home.page ≢ 0 }
        requires fresh { ¬ Contains (table_of self.old home.vol) home.page }
        ensures ok { OnOk result (JoinsEmptyPage home self.old self.new) }
        ensures page { OnOk result (IsSomeAnd (M.pages pages.new home)
            (IsEmptyPage (length (table_of self.old home.vol)))) }
        ensures linked { OnOk result (LeadsTo self.old home.vol (M.pages pages.new) home.page) }
        ensures others { LeavesOthers (is_on home) (M.pages pages.old) (M.pages pages.new) }
        ensures well_formed { KeepsWellFormed (M.pages pages.old) (M.pages pages.new) }
        ensures elsewhere { (h : Home) → same_home h home ≡ false
            → same_home h (last_of self.old home.vol) ≡ false
            → M.pages pages.new h ≡ M.pages pages.old h }
        ensures err { OnErr result ((self.new ≡ self.old)
            × (M.pages pages.new ≡ M.pages pages.old)) }
        ensures room { M.room pages.old ≤ M.room pages.new + 1 }
        ensures belong { Belong self.new (M.pages pages.new) }
        ensures before { M.before pages.new ≡ M.before pages.old }
    {
        let last = self.last_home(home.vol);
        let page = self.prepare_page(alloc, pages, &home)?;
        link_page(pages, &last, &home, page);
        Ok(())
    }

    /// Takes a free cell of a volume that is not closed, of the preferred volume if it has one.
    /// Returns None if and only if no such volume has one. Takes no memory and no pages.
    pub fn new_cell(&mut self, prefer: VolIx) -> Option<CellAt>
        ensures none { IfNone result ((at : CellAt) → can_take self.old at ≡ false) }
        ensures unchanged { IfNone result (self.new ≡ self.old) }
        ensures some { IfSome result (λ at. can_take self.old at ≡ true) }
        ensures place { IfSome result (λ at. (pages : Pages) → Belong self.old pages
            → HasPlace pages at) }
        ensures taken { IfSome result (λ at. TakesCell at self.old self.new) }
        ensures preferred { IfSome result (λ at. (q : CellAt) → q.vol ≡ prefer
            → can_take self.old q ≡ true → at.vol ≡ prefer) }
        ensures belong { (pages : Pages) → Belong self.old pages → Belong self.new pages }
    {
        let preferred = self.take_on(prefer);
        if preferred.is_some() {
            return preferred;
        }
        self.take_anywhere()
    }

    /// Clears a cell in use, on a page of its volume's table, and takes it back among the free
    /// ones. It then has 292 zeros. Every other cell stays, and so do the index and next page of
    /// each page. Takes no memory.
    pub fn free_cell<M: MetaPages>(&mut self, pages: &mut M, at: CellAt)
        requires belong { Belong self.old (M.pages pages.old) }
        requires used { IsUsedAt (M.pages pages.old) at }
        requires table { Contains (table_of self.old at.vol) at.page }
        ensures value { FreesCell at self.old self.new }
        ensures cleared { cell_at (M.pages pages.new) at ≡ Some (zero_bytes 292) }
        ensures others { LeavesOthers (is_at at) (M.pages pages.old) (M.pages pages.new) }
        ensures well_formed { KeepsWellFormed (M.pages pages.old) (M.pages pages.new) }
        ensures headers { KeepsHeaders (M.pages pages.old) (M.pages pages.new) }
        ensures elsewhere { (home : Home) → same_home home (home_of at) ≡ false
            → M.pages pages.new home ≡ M.pages pages.old home }
        ensures room { M.room pages.new ≡ M.room pages.old }
        ensures belong { Belong self.new (M.pages pages.new) }
        ensures before { M.before pages.new ≡ M.before pages.old }
    {
        clear_cell(pages, at);
        self.give_back(&at);
    }

    /// The pages of the volume's table, in their order.
    pub fn table(&self, vol: VolIx) -> &[u32]
        ensures { result.now ≡ table_of self.now vol }
    {
        self.volumes[vol.index()].table()
    }

    /// Closes the volume: no cell of it is handed out until it is activated.
    pub fn close_volume(&mut self, vol: VolIx)
        ensures value { Holds (table_of self.old)
            (λ v. if v == vol then true else is_closed self.old v) (is_free self.old)
            (kept_of self.old) self.new }
        ensures belong { (pages : Pages) → Belong self.old pages → Belong self.new pages }
    {
        self.volumes[vol.index()].set_closed(true);
    }

    /// Opens the volume again: its free cells are handed out.
    pub fn activate(&mut self, vol: VolIx)
        ensures value { Holds (table_of self.old)
            (λ v. if v == vol then false else is_closed self.old v) (is_free self.old)
            (kept_of self.old) self.new }
        ensures belong { (pages : Pages) → Belong self.old pages → Belong self.new pages }
    {
        self.volumes[vol.index()].set_closed(false);
    }

    /// Forgets the volume: its table and its free cells, and what was kept of them. It is open
    /// after this.
    pub fn drop_volume(&mut self, vol: VolIx)
        ensures value { Holds (λ v. if v == vol then [] else table_of self.old v)
            (λ v. if v == vol then false else is_closed self.old v)
            (λ at. not (at.vol == vol) && is_free self.old at)
            (λ v. if v == vol then nothing_kept else kept_of self.old v) self.new }
        ensures belong { (pages : Pages) → Belong self.old pages → Belong self.new pages }
    {
        self.volumes[vol.index()].clear();
    }

    /// Keeps the tables and the free cells as they are, in time proportional to what has changed
    /// since they were last kept. Takes no memory.
    pub fn keep(&mut self)
        ensures value { self.new ≡ all_kept self.old }
        ensures same { Holds (table_of self.old) (is_closed self.old) (is_free self.old)
            (kept_of self.new) self.new }
        ensures settled { taken_back self.new ≡ self.new }
        ensures belong { (pages : Pages) → Belong self.old pages → Belong self.new pages }
    {
        for volume in self.volumes.iter_mut() {
            volume.keep();
        }
    }

    /// Takes the tables and the free cells back to what was kept. Closed volumes are still closed.
    /// Takes no memory, and time in proportion to the pages that were added.
    pub fn take_back(&mut self)
        ensures value { self.new ≡ taken_back self.old }
        ensures settled { taken_back self.new ≡ self.new }
        ensures belong { (pages : Pages) → Belong (taken_back self.old) pages
            → Belong self.new pages }
    {
        for volume in self.volumes.iter_mut() {
            volume.take_back();
        }
    }

    /// Takes a free cell of this volume. Returns None if and only if the volume has none or is
    /// closed.
    fn take_on(&mut self, vol: VolIx) -> Option<CellAt>
        ensures none { IfNone result ((at : CellAt) → at.vol ≡ vol → can_take self.old at ≡ false) }
        ensures unchanged { IfNone result (self.new ≡ self.old) }
        ensures some { IfSome result (λ at. (at.vol ≡ vol) × (can_take self.old at ≡ true)) }
        ensures taken { IfSome result (λ at. TakesCell at self.old self.new) }
    {
        let found = self.volumes[vol.index()].take()?;
        Some(CellAt {
            vol,
            page: found.page,
            cell: found.cell,
        })
    }

    /// Takes a free cell of the first volume that is not closed and has one.
    fn take_anywhere(&mut self) -> Option<CellAt>
        ensures none { IfNone result ((at : CellAt) → can_take self.old at ≡ false) }
        ensures unchanged { IfNone result (self.new ≡ self.old) }
        ensures some { IfSome result (λ at. can_take self.old at ≡ true) }
        ensures taken { IfSome result (λ at. TakesCell at self.old self.new) }
    {
        for index in 0..self.volumes.len() {
            let vol = VolIx::new(index as u32 + 1).unwrap();
            let found = self.take_on(vol);
            if found.is_some() {
                return found;
            }
        }
        None
    }

    /// Puts a cell of the table among the free ones.
    fn give_back(&mut self, at: &CellAt)
        requires used { is_free self.old at.now ≡ false }
        requires place { Contains (table_of self.old at.now.vol) at.now.page }
        requires below { at.now.cell < 28 }
        requires others { AreOn (volume_of self.old at.now.vol) }
        ensures { FreesCell at.now self.old self.new }
    {
        self.volumes[at.vol.index()].give_back(FreeCell {
            page: at.page,
            cell: at.cell,
        });
    }

    /// Adds a page after the others of its volume's table, and its free cells to the free ones.
    fn join_page(&mut self, alloc: Global, home: &Home, page: &Page) -> Result<(), OutOfMemory>
        requires fresh { ¬ Contains (table_of self.old home.now.vol) home.now.page }
        requires others { AreOn (volume_of self.old home.now.vol) }
        ensures ok { OnOk result (JoinsPage home.now page.now self.old self.new) }
        ensures err { OnErr result (self.new ≡ self.old) }
    {
        self.volumes[home.vol.index()].add_page(alloc, home.page, page)
    }

    /// The index that the next page of the volume's table gets. A table of 2^32 pages counts as one
    /// that memory has no room for.
    fn next_index(&self, vol: VolIx) -> Result<u32, OutOfMemory>
        ensures { IfOk result (λ index. index ≡ length (table_of self.now vol)) }
    {
        match u32::try_from(self.volumes[vol.index()].page_count()) {
            Ok(index) => Ok(index),
            Err(_) => Err(OutOfMemory),
        }
    }

    /// The home of the last page of the volume's table.
    fn last_home(&self, vol: VolIx) -> Home
        requires { 0 < length (table_of self.now vol) }
        ensures { result ≡ last_of self.now vol }
    {
        let page = self.volumes[vol.index()].last_page();
        Home { vol, page }
    }

    /// Makes a page of free cells, adds it after the others of its volume's table, and takes room
    /// for it among the pages.
    fn prepare_page<M: MetaPages>(
        &mut self,
        alloc: Global,
        pages: &mut M,
        home: &Home,
    ) -> Result<Page, OutOfMemory>
        requires fresh { ¬ Contains (table_of self.old home.now.vol) home.now.page }
        requires others { AreOn (volume_of self.old home.now.vol) }
        ensures page { IfOk result (IsEmptyPage (length (table_of self.old home.now.vol))) }
        ensures ok { IfOk result (λ page. JoinsPage home.now page self.old self.new) }
        ensures err { OnErr result (self.new ≡ self.old) }
        ensures pages { M.pages pages.new ≡ M.pages pages.old }
        ensures room { OnOk result (0 < M.room pages.new) }
        ensures kept { M.room pages.old ≤ M.room pages.new }
        ensures before { M.before pages.new ≡ M.before pages.old }
    {
        let index = self.next_index(home.vol)?;
        let page = empty_page(alloc, index)?;
        pages.reserve(alloc, 1)?;
        self.join_page(alloc, home, &page)?;
        Ok(page)
    }
}
