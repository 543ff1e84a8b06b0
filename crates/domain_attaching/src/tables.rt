//! Which pages of a domain are pages of tables.
ghost use Rattle.std.specs.Prelude.{◌≡◌, ◌≢◌, ◌-◌, ◌<◌, ◌≤◌, ℕ, Contains, IfOk, Some, length, slice_get};
ghost use Rattle.attached_domain.specs.domain_standing.Domain.{layout_of};
ghost use Rattle.attached_domain.specs.domain_memory.Staged.{staged_in};
ghost use Rattle.attached_domain.specs.log_ring.Homes.{member_of};
ghost use Rattle.domain_attaching.specs.Tables.{AreTables, HasMarksFor, HasMarksOn, HasTablesOn, HasTagPage, IsTableHome, Marks, is_table};

use attached_domain::from_domain_base::limits::MAX_VOLUMES;
use attached_domain::{DomainFrame, DomainMemory, Home, OutOfMemory, VolIx};
use std::alloc::Global;

/// For each volume, which of its pages are pages of tables.
#[derive(Drop)]
pub(crate) struct TablePages {
    volumes: Vec<Vec<bool>>,
}

impl TablePages {
    /// A mark for each page of the volumes of a frame.
    pub(crate) fn room(alloc: Global, frame: &DomainFrame) -> Result<TablePages, OutOfMemory>
        ensures { IfOk result (HasMarksFor frame.now.anchor) }
    {
        let mut volumes = Vec::new(alloc);
        for number in 1..MAX_VOLUMES + 1 {
            let Some(vol) = VolIx::new(number) else {
                unreachable!()
            };
            volumes.push(room_on(alloc, frame, vol)?)?;
        }
        Ok(TablePages { volumes })
    }

    /// Marks the pages of all tables of a domain, and no others.
    pub(crate) fn mark(&mut self, memory: &DomainMemory)
        requires { HasMarksFor memory.now.frame.anchor self.old }
        ensures { AreTables (layout_of (staged_in memory.now)) self.new }
    {
        for number in 1..MAX_VOLUMES + 1 {
            let Some(vol) = VolIx::new(number) else {
                unreachable!()
            };
            self.mark_on(memory, vol);
        }
    }

    /// Marks a volume's pages of all tables, and no others of it.
    fn mark_on(&mut self, memory: &DomainMemory, vol: VolIx)
        requires { HasMarksOn memory.now.frame.anchor self.old vol }
        ensures here { HasMarksOn memory.now.frame.anchor self.new vol }
        ensures tables { HasTablesOn (layout_of (staged_in memory.now)) self.new vol }
        ensures others { (k : ℕ) → k ≢ vol - 1
            → slice_get self.new.volumes.items k ≡ slice_get self.old.volumes.items k }
    {
        let marks = &mut self.volumes[vol.index()];
        marks.fill(false);
        mark_tables(memory, vol, marks);
    }

    /// Whether a page is one of a table.
    pub(crate) fn has(&self, home: &Home) -> bool
        ensures { result ≡ is_table self.now home.now }
    {
        let Some(marks) = self.volumes.get(home.vol.index()) else {
            return false;
        };
        let page = home.page as usize;
        page < marks.len() && marks[page]
    }
}

/// Marks a page, if the volume has it.
fn mark(marks: &mut [bool], page: u32)
    ensures { Marks (λ k. k ≡ page) marks.old marks.new }
{
    let place = page as usize;
    if place < marks.len() {
        marks[place] = true;
    }
}

/// Marks a page, if it is one of the volume.
fn mark_home(marks: &mut [bool], vol: VolIx, home: &Home)
    ensures { Marks (λ k. home.now ≡ record { vol = vol; page = k }) marks.old marks.new }
{
    if home.vol == vol {
        mark(marks, home.page);
    }
}

/// Marks the pages of the volume's table of cells.
fn mark_cells(memory: &DomainMemory, vol: VolIx, marks: &mut [bool])
    ensures { Marks (Contains ((layout_of (staged_in memory.now)).cells vol))
        marks.old marks.new }
{
    for page in memory.cells.table(vol) {
        mark(marks, *page);
    }
}

/// Marks the volume's pages of the tag directory of what is in a slot.
fn mark_slot(memory: &DomainMemory, number: usize, vol: VolIx, marks: &mut [bool])
    requires { number < length memory.now.slots.items }
    ensures { Marks (λ k. HasTagPage (layout_of (staged_in memory.now)) number
        (record { vol = vol; page = k })) marks.old marks.new }
{
    let Some(slot) = &memory.slots[number] else {
        return;
    };
    for place in slot.files.tag_places() {
        mark_home(marks, vol, &place.home);
    }
}

/// Marks the volume's pages of tag directories.
fn mark_slots(memory: &DomainMemory, vol: VolIx, marks: &mut [bool])
    ensures { Marks (λ k. (number : ℕ) × HasTagPage (layout_of (staged_in memory.now)) number
        (record { vol = vol; page = k })) marks.old marks.new }
{
    for number in 0..memory.slots.len() {
        mark_slot(memory, number, vol, marks);
    }
}

/// Marks the page of the fileset table, if it is one of the volume.
fn mark_table(memory: &DomainMemory, vol: VolIx, marks: &mut [bool])
    ensures { Marks (λ k. memory.now.frame.anchor.table ≡ Some (record { vol = vol; page = k }))
        marks.old marks.new }
{
    if let Some(home) = &memory.frame.anchor.table {
        mark_home(marks, vol, home);
    }
}

/// Marks the volume's pages of all tables.
fn mark_tables(memory: &DomainMemory, vol: VolIx, marks: &mut [bool])
    ensures { Marks (λ k. IsTableHome (layout_of (staged_in memory.now))
        (record { vol = vol; page = k })) marks.old marks.new }
{
    mark_cells(memory, vol, marks);
    mark_slots(memory, vol, marks);
    mark_table(memory, vol, marks);
}

/// A mark for each page of a volume.
fn room_on(alloc: Global, frame: &DomainFrame, vol: VolIx) -> Result<Vec<bool>, OutOfMemory>
    ensures { IfOk result (λ marks. length marks.items ≡ (member_of frame.now.anchor vol).pages) }
{
    let marks = vec![in alloc; false; frame.member(vol).pages as usize]?;
    Ok(marks)
}
