//! Bringing the pages of tables.
ghost use Rattle.std.specs.Prelude.{◌≡◌, ◌<◌, ◌≤◌, OnOk, Some, length};
ghost use Rattle.slot_files.specs.domain_base.declared.place.Home.{Home};
ghost use Rattle.slot_files.specs.domain_layout.Layout.{first_tag_of};
ghost use Rattle.slot_files.specs.domain_layout.Reached.{tags_way};
ghost use Rattle.slot_files.specs.log_ring.Homes.{HasMembers};
ghost use Rattle.image_loading.specs.Loading.{
  Brings,
  HasBitmap,
  HasBitmaps,
  HasCells,
  HasCellsOf,
  HasTablePage,
  HasTagPages,
  HasWay,
  NamesCause,
};
ghost use Rattle.slot_files.specs.page_ways.Frame.{frame_in};

use crate::fault::LoadFault;
use crate::reading::fetch_within;
use crate::way::load_way;
use slot_files::{
    CellsWay, DomainFrame, FilesetNo, FilesetTable, Home, MetaPages, Rack, SlotItem, TagsWay, VolIx,
};
use std::alloc::Global;

/// The volume of that number.
fn volume(number: u32) -> VolIx
    requires first { 1 ≤ number }
    requires last { number < 9 }
    ensures { result ≡ number }
{
    let Some(vol) = VolIx::new(number) else {
        unreachable!()
    };
    vol
}

/// The slot of that number.
fn slot(number: u32) -> FilesetNo
    requires { number < 32 }
    ensures { result ≡ number }
{
    let Some(slot) = FilesetNo::new(number) else {
        unreachable!()
    };
    slot
}

/// How many slots the table has.
fn count_slots(table: &FilesetTable) -> u32
    ensures value { result ≡ 32 }
    ensures whole { length table.now.slots ≡ 32 }
{
    let _first = table.slot(slot(0));
    32
}

/// The first page of the tag directory of what is in a slot, if it has one.
fn first_tag(item: &SlotItem) -> Option<Home>
    ensures { result ≡ first_tag_of item.now }
{
    match item {
        SlotItem::Free => None,
        SlotItem::Original { entry } => Some(entry.first_tag),
        SlotItem::Clone { entry, .. } => Some(entry.first_tag),
        SlotItem::Removed { first_tag, .. } => *first_tag,
    }
}

/// Brings the page of the fileset table, if it is a member's.
#[tactic(auto, using(crate::proofs::Brought::brings_none))]
pub fn load_table<R: Rack, M: MetaPages>(
    alloc: Global,
    rack: &mut R,
    frame: &DomainFrame,
    pages: &mut M,
) -> Result<(), LoadFault>
    requires { HasMembers (R.disk rack.old).sizes frame.now.anchor }
    ensures brings { Brings (R.disk rack.old) (R.disk rack.new) (M.pages pages.old)
        (M.pages pages.new) }
    ensures whole { OnOk result (HasTablePage (M.pages pages.new) (frame_in frame.now)) }
    ensures fault { NamesCause (R.disk rack.old) (R.disk rack.new) result }
    ensures before { M.before pages.new ≡ M.before pages.old }
{
    let Some(home) = frame.anchor.table else {
        return Ok(());
    };
    fetch_within(alloc, rack, frame, &home, pages)
}

/// Brings the pages of a volume's bitmap, as far as they are a member's.
fn load_bitmap<R: Rack, M: MetaPages>(
    alloc: Global,
    rack: &mut R,
    frame: &DomainFrame,
    vol: VolIx,
    pages: &mut M,
) -> Result<(), LoadFault>
    requires { HasMembers (R.disk rack.old).sizes frame.now.anchor }
    ensures brings { Brings (R.disk rack.old) (R.disk rack.new) (M.pages pages.old)
        (M.pages pages.new) }
    ensures whole { OnOk result (HasBitmap (M.pages pages.new) (frame_in frame.now) vol) }
    ensures fault { NamesCause (R.disk rack.old) (R.disk rack.new) result }
    ensures before { M.before pages.new ≡ M.before pages.old }
{
    for page in 2..frame.first_cells(vol) {
        fetch_within(alloc, rack, frame, &Home { vol, page }, pages)?;
    }
    Ok(())
}

/// Brings the pages of the bitmap of each member.
pub fn load_bitmaps<R: Rack, M: MetaPages>(
    alloc: Global,
    rack: &mut R,
    frame: &DomainFrame,
    pages: &mut M,
) -> Result<(), LoadFault>
    requires { HasMembers (R.disk rack.old).sizes frame.now.anchor }
    ensures brings { Brings (R.disk rack.old) (R.disk rack.new) (M.pages pages.old)
        (M.pages pages.new) }
    ensures whole { OnOk result (HasBitmaps (M.pages pages.new) (frame_in frame.now)) }
    ensures fault { NamesCause (R.disk rack.old) (R.disk rack.new) result }
    ensures before { M.before pages.new ≡ M.before pages.old }
{
    for number in 1..9_u32 {
        load_bitmap(alloc, rack, frame, volume(number), pages)?;
    }
    Ok(())
}

/// Brings the pages of cells of a volume, if it is a member.
#[tactic(auto, using(crate::proofs::Brought::brings_none))]
fn load_cells_of<R: Rack, M: MetaPages>(
    alloc: Global,
    rack: &mut R,
    frame: &DomainFrame,
    vol: VolIx,
    pages: &mut M,
) -> Result<(), LoadFault>
    requires { HasMembers (R.disk rack.old).sizes frame.now.anchor }
    ensures brings { Brings (R.disk rack.old) (R.disk rack.new) (M.pages pages.old)
        (M.pages pages.new) }
    ensures whole { OnOk result (HasCellsOf (M.pages pages.new) (frame_in frame.now) vol) }
    ensures fault { NamesCause (R.disk rack.old) (R.disk rack.new) result }
    ensures before { M.before pages.new ≡ M.before pages.old }
{
    if !frame.is_member(vol) {
        return Ok(());
    }
    let way = CellsWay { frame: *frame, vol };
    load_way(alloc, rack, frame, &way, pages)?;
    Ok(())
}

/// Brings the pages of cells of each member.
pub fn load_cells<R: Rack, M: MetaPages>(
    alloc: Global,
    rack: &mut R,
    frame: &DomainFrame,
    pages: &mut M,
) -> Result<(), LoadFault>
    requires { HasMembers (R.disk rack.old).sizes frame.now.anchor }
    ensures brings { Brings (R.disk rack.old) (R.disk rack.new) (M.pages pages.old)
        (M.pages pages.new) }
    ensures whole { OnOk result (HasCells (M.pages pages.new) (frame_in frame.now)) }
    ensures fault { NamesCause (R.disk rack.old) (R.disk rack.new) result }
    ensures before { M.before pages.new ≡ M.before pages.old }
{
    for number in 1..9_u32 {
        load_cells_of(alloc, rack, frame, volume(number), pages)?;
    }
    Ok(())
}

/// Brings the pages of the tag directory of what is in a slot, if it has one.
#[tactic(auto, using(crate::proofs::Brought::brings_none))]
fn load_tags_of<R: Rack, M: MetaPages>(
    alloc: Global,
    rack: &mut R,
    frame: &DomainFrame,
    item: &SlotItem,
    pages: &mut M,
) -> Result<(), LoadFault>
    requires { HasMembers (R.disk rack.old).sizes frame.now.anchor }
    ensures brings { Brings (R.disk rack.old) (R.disk rack.new) (M.pages pages.old)
        (M.pages pages.new) }
    ensures whole { OnOk result ((first : Home) → first_tag_of item.now ≡ Some first
        → HasWay (M.pages pages.new) (frame_in frame.now) (tags_way first)) }
    ensures fault { NamesCause (R.disk rack.old) (R.disk rack.new) result }
    ensures before { M.before pages.new ≡ M.before pages.old }
{
    let Some(first) = first_tag(item) else {
        return Ok(());
    };
    load_way(alloc, rack, frame, &TagsWay { first }, pages)?;
    Ok(())
}

/// Brings the pages of the tag directories of a table.
pub fn load_tags<R: Rack, M: MetaPages>(
    alloc: Global,
    rack: &mut R,
    frame: &DomainFrame,
    table: &FilesetTable,
    pages: &mut M,
) -> Result<(), LoadFault>
    requires { HasMembers (R.disk rack.old).sizes frame.now.anchor }
    ensures brings { Brings (R.disk rack.old) (R.disk rack.new) (M.pages pages.old)
        (M.pages pages.new) }
    ensures whole { OnOk result
        (HasTagPages (M.pages pages.new) (frame_in frame.now) table.now) }
    ensures fault { NamesCause (R.disk rack.old) (R.disk rack.new) result }
    ensures before { M.before pages.new ≡ M.before pages.old }
{
    for number in 0..count_slots(table) {
        load_tags_of(alloc, rack, frame, table.slot(slot(number)), pages)?;
    }
    Ok(())
}
