//! Originals without a root.
ghost use Rattle.std.specs.Prelude.{◌≡◌, ◌⊎◌, ◌↔◌, IfNone, IfOk, IfSome, IsTrue, OnOk, Some, true};
ghost use Rattle.cell_faults.specs.domain_base.declared.place.Home.{Home};
ghost use Rattle.cell_faults.specs.domain_layout.CellRules.{of_original};
ghost use Rattle.cell_faults.specs.domain_layout.Layout.{first_tag_of};
ghost use Rattle.cell_faults.specs.domain_layout.TagRules.{HasNoRoot};
ghost use Rattle.cell_faults.specs.page_ways.Frame.{frame_in};
ghost use Rattle.cell_faults.specs.sorted_sets.Members.{IsIn as IsHomeIn};
ghost use Rattle.cell_faults.specs.Links.{AreLinks};
ghost use Rattle.tag_faults.specs.Entries.{address_of};
ghost use Rattle.tag_faults.specs.Roots.{AreRootsRemoved, IsRemovedAt, IsRootOf, LacksRoot};

use crate::firsts::cell_of;
use crate::named::{NamedCell, read_entries};
use crate::removed::is_removed_at;
use crate::table::{count_slots, slot_number};
use cell_faults::{
    CellLinks, DomainFrame, FilesetNo, FilesetTable, Home, HomeSet, MetaPages, OutOfMemory,
    SlotItem,
};
use std::alloc::Global;

/// The first page of the tag directory of what is in a slot, if that is an original.
fn original_from(item: &SlotItem) -> Option<Home>
    ensures some { IfSome result (λ home. (of_original (Some item.now) ≡ true)
        × (first_tag_of item.now ≡ Some home)) }
    ensures none { IfNone result (¬ of_original (Some item.now) ≡ true) }
{
    match item {
        SlotItem::Original { entry } => Some(entry.first_tag),
        _ => None,
    }
}

/// Whether an entry is that of the root in a slot.
fn is_root_of(number: FilesetNo, entry: &NamedCell) -> bool
    ensures { IsTrue result ↔ IsRootOf number entry.now }
{
    entry.number.number() == number.number() && entry.slot == 1 && entry.seq == 1
}

/// Whether an entry leads to a cell in use, which says that all of its file is to be removed.
fn leads_to_removed<M: MetaPages>(
    alloc: Global,
    pages: &M,
    frame: &DomainFrame,
    links: &CellLinks,
    entry: &NamedCell,
) -> Result<bool, OutOfMemory>
    requires { AreLinks (M.pages pages.now) (frame_in frame.now) links.now }
    ensures { IfOk result (λ removed. IsTrue removed
        ↔ IsRemovedAt (M.pages pages.now) (frame_in frame.now) (address_of entry.now)) }
{
    let Some(at) = cell_of(entry) else {
        return Ok(false);
    };
    is_removed_at(alloc, pages, frame, links, &at)
}

/// Whether an entry is that of the root in a slot, and its file is not to be removed.
fn is_root_there<M: MetaPages>(
    alloc: Global,
    pages: &M,
    frame: &DomainFrame,
    links: &CellLinks,
    number: FilesetNo,
    entry: &NamedCell,
) -> Result<bool, OutOfMemory>
    requires { AreLinks (M.pages pages.now) (frame_in frame.now) links.now }
    ensures there { IfOk result (λ there. IsTrue there ↔ (IsRootOf number entry.now
        × ¬ IsRemovedAt (M.pages pages.now) (frame_in frame.now) (address_of entry.now))) }
    ensures none { IfOk result (λ there. ¬ IsTrue there → IsRootOf number entry.now
        → IsRemovedAt (M.pages pages.now) (frame_in frame.now) (address_of entry.now)) }
{
    if !is_root_of(number, entry) {
        return Ok(false);
    }
    Ok(!leads_to_removed(alloc, pages, frame, links, entry)?)
}

/// Whether the entries of the root in a slot all lead to cells of files that are to be removed.
fn are_roots_removed<M: MetaPages>(
    alloc: Global,
    pages: &M,
    frame: &DomainFrame,
    links: &CellLinks,
    entries: &[NamedCell],
    number: FilesetNo,
) -> Result<bool, OutOfMemory>
    requires { AreLinks (M.pages pages.now) (frame_in frame.now) links.now }
    ensures { IfOk result (λ removed. IsTrue removed
        ↔ AreRootsRemoved (M.pages pages.now) (frame_in frame.now) entries.now number) }
{
    for entry in entries {
        if is_root_there(alloc, pages, frame, links, number, entry)? {
            return Ok(false);
        }
    }
    Ok(true)
}

/// Puts the first page of the tag directory of an original in a slot into a set, if it has no root.
fn insert_rootless<M: MetaPages>(
    alloc: Global,
    pages: &M,
    frame: &DomainFrame,
    table: &FilesetTable,
    links: &CellLinks,
    entries: &[NamedCell],
    number: FilesetNo,
    found: &mut HomeSet,
) -> Result<(), OutOfMemory>
    requires { AreLinks (M.pages pages.now) (frame_in frame.now) links.now }
    ensures { OnOk result ((home : Home) → IsHomeIn found.new home ↔ (IsHomeIn found.old home
        ⊎ LacksRoot (M.pages pages.now) (frame_in frame.now) table.now entries.now home number)) }
{
    let Some(first) = original_from(table.slot(number)) else {
        return Ok(());
    };
    if are_roots_removed(alloc, pages, frame, links, entries, number)? {
        found.insert(&first)?;
    }
    Ok(())
}

/// The first pages of the tag directories of originals that have no root, or one that is to be
/// removed, from what was read of all cells in use.
pub fn root_faults<M: MetaPages>(
    alloc: Global,
    pages: &M,
    frame: &DomainFrame,
    table: &FilesetTable,
    links: &CellLinks,
) -> Result<HomeSet, OutOfMemory>
    requires { AreLinks (M.pages pages.now) (frame_in frame.now) links.now }
    ensures { IfOk result (λ found. (home : Home) → IsHomeIn found home
        ↔ HasNoRoot (M.pages pages.now) (frame_in frame.now) table.now home) }
{
    let entries = read_entries(alloc, pages, frame, table)?;
    let mut found = HomeSet::new(alloc);
    for number in 0..count_slots(table) {
        let slot = slot_number(number);
        insert_rootless(
            alloc, pages, frame, table, links, &entries, slot, &mut found,
        )?;
    }
    Ok(found)
}
