//! The fileset table in memory.
ghost use Rattle.std.specs.Prelude.{◌≡◌, ◌<◌, true, false, length, drop, take, IfErr, IfOk, IfSome, IfNone, IsSomeAnd, OnOk, Some, slice_get, slice_set};
ghost use Rattle.std.specs.List.{list_any};
ghost use Rattle.fileset_table.specs.Page.{IsTablePage};
ghost use Rattle.fileset_table.specs.Reading.{Reads};
ghost use Rattle.fileset_table.specs.Table.{AreTogether, IsCount, IsNewTable, IsTable, has_name, is_free, with_slot};

use crate::allowed::is_allowed;
use crate::reading::read_table;
use crate::rules::are_slots;
use crate::slot::{SlotItem, TableFault};
use crate::writing::put_table;
use metadata_cells::limits::FILESET_SLOTS;
use metadata_cells::{FilesetNo, OutOfMemory, Page};
use std::alloc::Global;
use std::marker::Model;
use std::mem::replace;

/// The fileset table of a domain: its 32 slots, and how many clones were ever made.
#[derive(Drop)]
pub struct FilesetTable {
    slots: Vec<SlotItem>,
    made: u64,
}

impl Model for FilesetTable {
    ghost use Rattle.fileset_table.specs.Table.{IsTable, Table, table_code};

    ghost Value = { Table };

    ghost coded = { table_code };

    ghost view = { λ t. record { slots = t.slots.items; made = t.made } };

    ghost invariant = { λ t. IsTable (record { slots = t.slots.items; made = t.made }) };
}

impl FilesetTable {
    /// 32 free slots, and no clone made.
    pub fn new(alloc: Global) -> Result<FilesetTable, OutOfMemory>
        ensures { IfOk result IsNewTable }
    {
        let mut slots = Vec::with_capacity(alloc, FILESET_SLOTS as usize)?;
        for _ in 0..FILESET_SLOTS {
            slots.push(SlotItem::Free)?;
        }
        Ok(FilesetTable { slots, made: 0 })
    }

    /// Reads a page. Fails with Bad if and only if the page says no table.
    pub fn read(alloc: Global, page: &Page) -> Result<FilesetTable, TableFault>
        ensures { Reads (IsTablePage page.now) result }
    {
        let (slots, made) = read_table(alloc, page.bytes())?;
        Ok(FilesetTable { slots, made })
    }

    /// Writes the table to a page. The bytes after the last slot stay.
    pub fn write(&self, page: &mut Page)
        ensures table { IsTablePage page.new self.now }
        ensures rest { drop 4112 page.new ≡ drop 4112 page.old }
    {
        put_table(&self.slots, self.made, page);
    }

    /// The content of a slot. The table keeps its rules.
    pub fn slot(&self, number: FilesetNo) -> &SlotItem
        ensures value { slice_get self.now.slots number ≡ Some result.now }
        ensures good { IsTable self.now }
    {
        &self.slots[number.number() as usize]
    }

    /// Puts this into a slot.
    pub fn set_slot(&mut self, number: FilesetNo, item: SlotItem)
        requires { IsTable (with_slot number item self.old) }
        ensures { self.new ≡ with_slot number item self.old }
    {
        self.slots[number.number() as usize] = item;
    }

    /// Puts this into a slot, and returns what the slot had.
    pub fn replace_slot(&mut self, number: FilesetNo, item: SlotItem) -> SlotItem
        requires { IsTable (with_slot number item self.old) }
        ensures value { self.new ≡ with_slot number item self.old }
        ensures had { slice_get self.old.slots number ≡ Some result }
    {
        exchange(&mut self.slots, number.number() as usize, item)
    }

    /// Puts this into a slot if that leaves a table. Otherwise hands it back, and nothing changes.
    pub fn try_set_slot(&mut self, number: FilesetNo, item: SlotItem) -> Result<(), SlotItem>
        ensures ok { OnOk result (IsTable (with_slot number item self.old)
            × (self.new ≡ with_slot number item self.old)) }
        ensures err { IfErr result (λ back. (back ≡ item) × (self.new ≡ self.old)
            × ¬ IsTable (with_slot number item self.old)) }
    {
        let at = number.number() as usize;
        if !is_allowed(&item) {
            return Err(item);
        }
        try_exchange(&mut self.slots, at, item)
    }

    /// How many clones were made.
    pub fn made(&self) -> u64
        ensures { result ≡ self.now.made }
    {
        self.made
    }

    /// Sets how many clones were made.
    pub fn set_made(&mut self, made: u64)
        requires { IsCount made }
        ensures { self.new ≡ record self.old { made = made } }
    {
        self.made = made;
    }

    /// The slot of the original or clone of this name. Returns None if and only if there is none. A
    /// fileset that is being removed has no name.
    pub fn find(&self, name: &[u8]) -> Option<FilesetNo>
        ensures some { IfSome result (λ number.
            IsSomeAnd (slice_get self.now.slots number) (λ item. has_name name.now item ≡ true)) }
        ensures none { IfNone result (list_any (has_name name.now) self.now.slots ≡ false) }
    {
        find_slot(&self.slots, name)
    }

    /// The first slot that is free. Returns None if and only if none is free.
    pub fn free_slot(&self) -> Option<FilesetNo>
        ensures some { IfSome result (λ number.
            IsSomeAnd (slice_get self.now.slots number) (λ item. is_free item ≡ true)) }
        ensures first { IfSome result (λ number.
            list_any is_free (take number self.now.slots) ≡ false) }
        ensures none { IfNone result (list_any is_free self.now.slots ≡ false) }
    {
        find_free(&self.slots)
    }
}

/// Puts this into a slot, and returns what the slot had.
fn exchange(slots: &mut Vec<SlotItem>, at: usize, item: SlotItem) -> SlotItem
    requires { at < length slots.old.items }
    ensures slots { slots.new.items ≡ slice_set slots.old.items at item }
    ensures had { slice_get slots.old.items at ≡ Some result }
{
    replace(&mut slots[at], item)
}

/// Puts this into a slot if all slots then keep the rules that no slot can keep by itself.
/// Otherwise hands it back, and nothing changes.
fn try_exchange(slots: &mut Vec<SlotItem>, at: usize, item: SlotItem) -> Result<(), SlotItem>
    requires { at < length slots.old.items }
    ensures ok { OnOk result (AreTogether (slice_set slots.old.items at item)
        × (slots.new.items ≡ slice_set slots.old.items at item)) }
    ensures err { IfErr result (λ back. (back ≡ item) × (slots.new.items ≡ slots.old.items)
        × ¬ AreTogether (slice_set slots.old.items at item)) }
{
    let had = exchange(slots, at, item);
    if are_slots(slots) {
        return Ok(());
    }
    Err(exchange(slots, at, had))
}

/// The first of the slots with a fileset of this name.
fn find_slot(slots: &[SlotItem], name: &[u8]) -> Option<FilesetNo>
    requires { length slots.now ≡ 32 }
    ensures some { IfSome result (λ number.
        IsSomeAnd (slice_get slots.now number) (λ item. has_name name.now item ≡ true)) }
    ensures none { IfNone result (list_any (has_name name.now) slots.now ≡ false) }
{
    for (number, slot) in slots.iter().enumerate() {
        if slot.has_name(name) {
            return FilesetNo::new(number as u32);
        }
    }
    None
}

/// The first of the slots that is free.
fn find_free(slots: &[SlotItem]) -> Option<FilesetNo>
    requires { length slots.now ≡ 32 }
    ensures some { IfSome result (λ number.
        IsSomeAnd (slice_get slots.now number) (λ item. is_free item ≡ true)) }
    ensures first { IfSome result (λ number. list_any is_free (take number slots.now) ≡ false) }
    ensures none { IfNone result (list_any is_free slots.now ≡ false) }
{
    for (number, slot) in slots.iter().enumerate() {
        if slot.is_free() {
            return FilesetNo::new(number as u32);
        }
    }
    None
}
