//! The free cells of one volume.
ghost use Rattle.std.specs.Prelude.{◌≡◌, ◌+◌, ◌-◌, ◌<◌, ◌≤◌, true, false, not, ◌&&◌, ◌||◌, [], ◌∷◌, ◌++◌, length, slice_index, vec_capacity, IfSome, IfNone, OnOk, OnErr};
ghost use Rattle.std.specs.List.{IsDistinct};
ghost use Rattle.free_cells.specs.declared.volume.FreeCell.{FreeCell};
ghost use Rattle.free_cells.specs.VolumeTable.{AreOn, IsOn, VolumeIs, as_kept, no_table, same_cell, is_among, is_free_there, with_kept};

use metadata_cells::limits::PAGE_CELLS;
use metadata_cells::{OutOfMemory, Page, is_free_cell};
use std::alloc::Global;
use std::marker::Model;

/// A free cell of a volume: a page of its table, and a cell of that page.
#[derive(Clone, Copy, Debug)]
pub struct FreeCell {
    pub page: u32,
    pub cell: u8,
}

/// The pages of a volume's table in their order, and their free cells. Contracts see these, whether
/// the volume is closed, and the pages and the free cells as they were last kept. The pages as kept
/// are the first `kept_pages` of the table. A free cell is one of the first `live` of the kept
/// ones, or it came later.
#[derive(Debug, Drop)]
pub struct VolumeCells {
    table: Vec<u32>,
    kept_pages: usize,
    kept: Vec<FreeCell>,
    live: usize,
    fresh: Vec<FreeCell>,
    is_closed: bool,
}

impl Model for VolumeCells {
    ghost use Rattle.std.specs.Prelude.{take};
    ghost use Rattle.std.specs.Vec.{vec_capacity};
    ghost use Rattle.free_cells.specs.VolumeTable.{VolumeTable, IsSound, free_now, volume_code};

    ghost Value = { VolumeTable };

    ghost coded = { volume_code };

    ghost view = { λ v. record {
      table = v.table.items;
      free = free_now v.kept.items v.live v.fresh.items;
      is_closed = v.is_closed;
      kept = record {
        table = take v.kept_pages v.table.items;
        free = v.kept.items;
      };
    } };

    ghost invariant = { λ v. IsSound v.table.items v.kept_pages v.kept.items v.live v.fresh.items
        (vec_capacity v.kept) (vec_capacity v.fresh) };
}

/// Adds the free cells of the page with this number after the others. None of the others is on it.
fn push_free(number: u32, page: &Page, free: &mut Vec<FreeCell>)
    requires apart { IsDistinct same_cell free.old.items }
    requires fresh { (f : FreeCell) → f.page ≡ number → is_among free.old.items f ≡ false }
    requires room { length free.old.items + 28 ≤ vec_capacity free.old }
    ensures apart { IsDistinct same_cell free.new.items }
    ensures joined { (f : FreeCell) → is_among free.new.items f
        ≡ is_among free.old.items f || is_free_there number page.now f }
    ensures few { length free.new.items ≤ length free.old.items + 28 }
    ensures room { vec_capacity free.new ≡ vec_capacity free.old }
{
    for cell in 0..PAGE_CELLS {
        if is_free_cell(page, cell) {
            free.push_reserved(FreeCell { page: number, cell });
        }
    }
}

/// Moves all cells to the end of the other list, which has room for them.
fn move_cells(from: &mut Vec<FreeCell>, to: &mut Vec<FreeCell>)
    requires room { length to.old.items + length from.old.items ≤ vec_capacity to.old }
    ensures moved { to.new.items ≡ to.old.items ++ from.old.items }
    ensures none { from.new.items ≡ [] }
    ensures room { vec_capacity to.new ≡ vec_capacity to.old }
    ensures from_room { vec_capacity from.new ≡ vec_capacity from.old }
{
    for cell in from.iter() {
        to.push_reserved(*cell);
    }
    from.clear();
}

impl VolumeCells {
    /// A volume whose table has no page yet.
    pub fn new(alloc: Global) -> Self
        ensures { result ≡ no_table }
    {
        VolumeCells {
            table: Vec::new(alloc),
            kept_pages: 0,
            kept: Vec::new(alloc),
            live: 0,
            fresh: Vec::new(alloc),
            is_closed: false,
        }
    }

    /// Takes a free cell. Returns None if and only if the volume is closed or has none.
    pub fn take(&mut self) -> Option<FreeCell>
        ensures none { IfNone result ((f : FreeCell) → self.old.is_closed ≡ false
            → is_among self.old.free f ≡ false) }
        ensures unchanged { IfNone result (self.new ≡ self.old) }
        ensures some { IfSome result (λ f. (self.old.is_closed ≡ false)
            × (is_among self.old.free f ≡ true)) }
        ensures taken { IfSome result (λ f. VolumeIs self.old.table self.old.is_closed
            (λ g. not (same_cell f g) && is_among self.old.free g) self.old.kept self.new) }
    {
        if self.is_closed {
            return None;
        }
        if let Some(cell) = self.fresh.pop() {
            return Some(cell);
        }
        self.live = self.live.checked_sub(1)?;
        Some(self.kept[self.live])
    }

    /// Puts a cell of the table among the free ones. All of these are different cells of the table,
    /// so there is room for it.
    pub fn give_back(&mut self, cell: FreeCell)
        requires used { is_among self.old.free cell ≡ false }
        requires place { IsOn self.old.table cell }
        requires others { AreOn self.old }
        ensures { VolumeIs self.old.table self.old.is_closed
            (λ g. same_cell cell g || is_among self.old.free g) self.old.kept self.new }
    {
        self.fresh.push_reserved(cell);
    }

    /// Adds a page after the others of the table, and its free cells to the free ones. Takes room
    /// for all cells of the page to be free. After an error nothing has changed.
    pub fn add_page(&mut self, alloc: Global, number: u32, page: &Page) -> Result<(), OutOfMemory>
        requires fresh { (f : FreeCell) → f.page ≡ number → is_among self.old.free f ≡ false }
        requires others { AreOn self.old }
        ensures ok { OnOk result (VolumeIs (self.old.table ++ number ∷ []) self.old.is_closed
            (λ g. is_among self.old.free g || is_free_there number page.now g) self.old.kept
            self.new) }
        ensures err { OnErr result (self.new ≡ self.old) }
    {
        let room = usize::from(PAGE_CELLS) * (self.table.len() + 1);
        self.table.reserve(1)?;
        self.kept.reserve(room.saturating_sub(self.kept.len()))?;
        self.fresh.reserve(room.saturating_sub(self.fresh.len()))?;
        self.table.push_reserved(number);
        push_free(number, page, &mut self.fresh);
        Ok(())
    }

    /// Keeps the table and its free cells as they are, in time proportional to what has changed
    /// since they were last kept.
    pub fn keep(&mut self)
        ensures { self.new ≡ with_kept self.old }
    {
        self.kept.truncate(self.live);
        move_cells(&mut self.fresh, &mut self.kept);
        self.live = self.kept.len();
        self.kept_pages = self.table.len();
    }

    /// Takes the table and its free cells back to what was kept.
    pub fn take_back(&mut self)
        ensures { self.new ≡ as_kept self.old }
    {
        self.table.truncate(self.kept_pages);
        self.fresh.clear();
        self.live = self.kept.len();
    }

    /// Closes the volume, or opens it.
    pub fn set_closed(&mut self, is_closed: bool)
        ensures { self.new ≡ record self.old { is_closed = is_closed } }
    {
        self.is_closed = is_closed;
    }

    /// Forgets the table and its free cells, and what was kept of them, and opens the volume.
    pub fn clear(&mut self)
        ensures { self.new ≡ no_table }
    {
        self.table.clear();
        self.kept_pages = 0;
        self.kept.clear();
        self.live = 0;
        self.fresh.clear();
        self.is_closed = false;
    }

    /// The pages of the table, in their order.
    pub fn table(&self) -> &[u32]
        ensures { result.now ≡ self.now.table }
    {
        self.table.as_slice()
    }

    /// How many pages the table has.
    pub fn page_count(&self) -> usize
        ensures { result ≡ length self.now.table }
    {
        self.table.len()
    }

    /// The last page of the table.
    pub fn last_page(&self) -> u32
        requires { 0 < length self.now.table }
        ensures { result ≡ slice_index self.now.table (length self.now.table - 1) }
    {
        self.table[self.table.len() - 1]
    }
}
