//! Used entries of tag directories that may name a cell.
ghost use Rattle.std.specs.Prelude.{◌≡◌, ◌⊎◌, ◌↔◌, ◌<◌, ◌+◌, ◌*◌, Contains, IfOk, OnOk};
ghost use Rattle.cell_faults.specs.cell_records.Fields.{number_at};
ghost use Rattle.cell_faults.specs.tag_dirs.TagPage.{slot_of};
ghost use Rattle.cell_faults.specs.page_ways.Frame.{frame_in};
ghost use Rattle.tag_faults.specs.Entries.{AreEntries, IsEntryAmong, IsEntryAt, IsEntryIn, IsEntryOf, IsEntryThere, named_at};
ghost use Rattle.tag_faults.specs.declared.named.NamedCell.{NamedCell as NamedOf};

use crate::directories::read_directory;
use crate::entries::names_cell;
use crate::table::{count_slots, slot_number};
use cell_faults::{
    DomainFrame, FilesetNo, FilesetTable, Home, MetaPages, OutOfMemory, Page, u8_at, u16_at, u32_at,
};
use std::alloc::Global;

/// A used entry of the tag directory of a fileset: its tag, the address to which it leads, whatever
/// it is, and the home of its page.
#[derive(Clone, Copy, Debug, PartialEq, Eq)]
pub(crate) struct NamedCell {
    pub number: FilesetNo,
    pub slot: u64,
    pub seq: u16,
    pub vol: u8,
    pub cell: u8,
    pub page: u32,
    pub home: Home,
}

/// The slot of an entry of a page.
fn slot_at(page: &Page, entry: usize) -> u64
    requires { entry < 1022 }
    ensures { result ≡ slot_of page.now entry }
{
    1022 * u64::from(u32_at(page.bytes(), 4)) + entry as u64
}

/// An entry of a page as a used one.
fn entry_at(page: &Page, number: FilesetNo, home: &Home, entry: usize) -> NamedCell
    requires { entry < 1022 }
    ensures { result ≡ named_at number home.now page.now entry }
{
    let slot = slot_at(page, entry);
    let bytes = page.bytes();
    NamedCell {
        number,
        slot,
        seq: u16_at(bytes, 16 + 8 * entry),
        vol: u8_at(bytes, 18 + 8 * entry),
        cell: u8_at(bytes, 19 + 8 * entry),
        page: u32_at(bytes, 20 + 8 * entry),
        home: *home,
    }
}

/// Appends an entry of a page to others, if it is used and may name a cell.
fn push_entry(
    page: &Page,
    number: FilesetNo,
    home: &Home,
    entry: usize,
    entries: &mut Vec<NamedCell>,
) -> Result<(), OutOfMemory>
    requires { entry < 1022 }
    ensures { OnOk result ((one : NamedOf) → Contains entries.new.items one
        ↔ (Contains entries.old.items one ⊎ IsEntryAt page.now number home.now one entry)) }
{
    if names_cell(page, entry) {
        entries.push(entry_at(page, number, home, entry))?;
    }
    Ok(())
}

/// Appends the used entries of a page to others.
fn push_entries(
    page: &Page,
    number: FilesetNo,
    home: &Home,
    entries: &mut Vec<NamedCell>,
) -> Result<(), OutOfMemory>
    ensures { OnOk result ((one : NamedOf) → Contains entries.new.items one
        ↔ (Contains entries.old.items one ⊎ IsEntryOf page.now number home.now one)) }
{
    for entry in 0..1022_usize {
        push_entry(page, number, home, entry, entries)?;
    }
    Ok(())
}

/// Appends the used entries of the page at a home, if one is there, to others.
fn push_page<M: MetaPages>(
    pages: &M,
    number: FilesetNo,
    home: &Home,
    entries: &mut Vec<NamedCell>,
) -> Result<(), OutOfMemory>
    ensures { OnOk result ((one : NamedOf) → Contains entries.new.items one
        ↔ (Contains entries.old.items one
        ⊎ IsEntryThere (M.pages pages.now) number one home.now)) }
{
    match pages.get(*home) {
        Some(page) => push_entries(page, number, home, entries),
        None => Ok(()),
    }
}

/// Appends the used entries of the pages of a directory to others.
fn push_pages<M: MetaPages>(
    pages: &M,
    number: FilesetNo,
    homes: &[Home],
    entries: &mut Vec<NamedCell>,
) -> Result<(), OutOfMemory>
    ensures { OnOk result ((one : NamedOf) → Contains entries.new.items one
        ↔ (Contains entries.old.items one
        ⊎ IsEntryAmong (M.pages pages.now) number homes.now one)) }
{
    for home in homes {
        push_page(pages, number, home, entries)?;
    }
    Ok(())
}

/// Appends the used entries of the directory of a slot to others.
fn push_slot<M: MetaPages>(
    alloc: Global,
    pages: &M,
    frame: &DomainFrame,
    table: &FilesetTable,
    number: FilesetNo,
    entries: &mut Vec<NamedCell>,
) -> Result<(), OutOfMemory>
    ensures { OnOk result ((one : NamedOf) → Contains entries.new.items one
        ↔ (Contains entries.old.items one
        ⊎ IsEntryIn (M.pages pages.now) (frame_in frame.now) table.now one number)) }
{
    let read = read_directory(alloc, pages, frame, table, number)?;
    push_pages(pages, number, &read.homes, entries)?;
    Ok(())
}

/// The used entries of the tag directories of all slots.
pub(crate) fn read_entries<M: MetaPages>(
    alloc: Global,
    pages: &M,
    frame: &DomainFrame,
    table: &FilesetTable,
) -> Result<Vec<NamedCell>, OutOfMemory>
    ensures { IfOk result (λ entries. AreEntries (M.pages pages.now) (frame_in frame.now) table.now
        entries.items) }
{
    let mut entries = Vec::new(alloc);
    for number in 0..count_slots(table) {
        let slot = slot_number(number);
        push_slot(alloc, pages, frame, table, slot, &mut entries)?;
    }
    Ok(entries)
}
