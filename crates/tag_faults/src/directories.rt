//! Pages of tag directories.
ghost use Rattle.std.specs.Prelude.{◌≡◌, ◌⊎◌, ◌↔◌, Contains, IfOk, OnOk, Some};
ghost use Rattle.cell_faults.specs.domain_base.declared.place.Home.{Home};
ghost use Rattle.cell_faults.specs.domain_layout.Layout.{first_tag_of};
ghost use Rattle.cell_faults.specs.page_ways.Frame.{frame_in};
ghost use Rattle.cell_faults.specs.sorted_sets.Members.{IsIn as IsHomeIn};
ghost use Rattle.tag_faults.specs.Directories.{HasPage, IsDirectoryFault, IsFaultBehind, IsReadOf};

use crate::indexes::insert_wrong_pages;
use crate::table::{count_slots, slot_number};
use cell_faults::{
    DomainFrame, FilesetNo, FilesetTable, Home, HomeSet, MetaPages, OutOfMemory, ReadPages,
    SlotItem, TagsWay, read_pages,
};
use std::alloc::Global;

/// The first page of the tag directory of what is in a slot, if it has one.
fn first_tag(item: &SlotItem) -> Option<Home>
    ensures { result ≡ first_tag_of item.now }
{
    match item {
        SlotItem::Free => None,
        SlotItem::Original { entry } => Some(entry.first_tag),
        SlotItem::Clone { entry, .. } => Some(entry.first_tag),
        SlotItem::Removed { first_tag, .. } => *first_tag,
    }
}

/// The pages of the tag directory of what is in a slot; no page if it has none.
pub fn read_directory<M: MetaPages>(
    alloc: Global,
    pages: &M,
    frame: &DomainFrame,
    table: &FilesetTable,
    number: FilesetNo,
) -> Result<ReadPages, OutOfMemory>
    ensures { IfOk result (λ read. IsReadOf (M.pages pages.now) (frame_in frame.now) table.now
        number read.homes.items read.unread) }
{
    let Some(first) = first_tag(table.slot(number)) else {
        return Ok(ReadPages {
            homes: Vec::new(alloc),
            unread: None,
        });
    };
    let way = TagsWay { first };
    let read = read_pages(alloc, pages, frame, &way)?;
    Ok(read)
}

/// Puts a home into a set, if there is one.
pub(crate) fn insert_one(one: &Option<Home>, found: &mut HomeSet) -> Result<(), OutOfMemory>
    ensures { OnOk result ((home : Home) → IsHomeIn found.new home ↔ (IsHomeIn found.old home
        ⊎ (one.now ≡ Some home))) }
{
    if let Some(home) = one {
        found.insert(home)?;
    }
    Ok(())
}

/// Puts a home into a set, if another set has it.
fn insert_if(earlier: &HomeSet, home: &Home, found: &mut HomeSet) -> Result<(), OutOfMemory>
    ensures { OnOk result ((other : Home) → IsHomeIn found.new other ↔ (IsHomeIn found.old other
        ⊎ ((home.now ≡ other) × IsHomeIn earlier.now home.now))) }
{
    if earlier.has(home) {
        found.insert(home)?;
    }
    Ok(())
}

/// Puts into a set those of the homes that another set has.
fn insert_shared(homes: &[Home], earlier: &HomeSet, found: &mut HomeSet) -> Result<(), OutOfMemory>
    ensures { OnOk result ((home : Home) → IsHomeIn found.new home ↔ (IsHomeIn found.old home
        ⊎ (Contains homes.now home × IsHomeIn earlier.now home))) }
{
    for home in homes {
        insert_if(earlier, home, found)?;
    }
    Ok(())
}

/// Looks at the directory of a slot, after those of all earlier slots.
fn look_at<M: MetaPages>(
    alloc: Global,
    pages: &M,
    frame: &DomainFrame,
    table: &FilesetTable,
    number: FilesetNo,
    earlier: &mut HomeSet,
    found: &mut HomeSet,
) -> Result<(), OutOfMemory>
    ensures found { OnOk result ((home : Home) → IsHomeIn found.new home ↔ (IsHomeIn found.old home
        ⊎ IsFaultBehind (M.pages pages.now) (frame_in frame.now) table.now number
        (IsHomeIn earlier.old) home)) }
    ensures earlier { OnOk result ((home : Home) → IsHomeIn earlier.new home
        ↔ (IsHomeIn earlier.old home
        ⊎ HasPage (M.pages pages.now) (frame_in frame.now) table.now number home)) }
{
    let read = read_directory(alloc, pages, frame, table, number)?;
    insert_one(&read.unread, found)?;
    insert_shared(&read.homes, earlier, found)?;
    insert_wrong_pages(alloc, pages, &read.homes, found)?;
    earlier.insert_all(&read.homes)?;
    Ok(())
}

/// The pages of tag directories that cannot be pages of one, that an earlier slot's directory has,
/// too, that are not well formed, or that have an index that they may not have.
pub fn directory_faults<M: MetaPages>(
    alloc: Global,
    pages: &M,
    frame: &DomainFrame,
    table: &FilesetTable,
) -> Result<HomeSet, OutOfMemory>
    ensures { IfOk result (λ found. (home : Home) → IsHomeIn found home
        ↔ IsDirectoryFault (M.pages pages.now) (frame_in frame.now) table.now home) }
{
    let mut earlier = HomeSet::new(alloc);
    let mut found = HomeSet::new(alloc);
    for number in 0..count_slots(table) {
        let slot = slot_number(number);
        look_at(alloc, pages, frame, table, slot, &mut earlier, &mut found)?;
    }
    Ok(found)
}
