//! First cells to which entries lead.
ghost use Rattle.std.specs.Prelude.{◌≡◌, ◌⊎◌, ◌↔◌, ◌≤◌, Contains, IfNone, IfOk, IfSome, IsTrue, List, OnOk, Some, length, ℕ};
ghost use Rattle.cell_faults.specs.domain_base.declared.place.CellAt.{CellAt};
ghost use Rattle.cell_faults.specs.domain_base.declared.place.Home.{Home};
ghost use Rattle.cell_faults.specs.cell_records.Fields.{number_at};
ghost use Rattle.cell_faults.specs.metadata_cells.CellPage.{cell_at};
ghost use Rattle.cell_faults.specs.metadata_cells.declared.head.CellKind.TheVariants.{Primary};
ghost use Rattle.cell_faults.specs.domain_layout.TagRules.{IsFirstOf, IsWrongEntry};
ghost use Rattle.cell_faults.specs.page_ways.Frame.{frame_in};
ghost use Rattle.cell_faults.specs.sorted_sets.Members.{IsIn as IsHomeIn};
ghost use Rattle.cell_faults.specs.Links.{AreLinks};
ghost use Rattle.tag_faults.specs.Entries.{LeadsToNoFirst, SaysEntry, address_of, tag_of};
ghost use Rattle.tag_faults.specs.declared.named.NamedCell.{NamedCell as NamedOf};

use crate::cells::{home_of, is_fileset};
use crate::named::{NamedCell, read_entries};
use cell_faults::{
    CellAt, CellKind, CellLinks, DomainFrame, FilesetTable, HomeSet, MetaPages, OutOfMemory, VolIx,
    bytes_of, u8_at, u16_at, u32_at,
};
use std::alloc::Global;

/// The cell to which an entry leads, if it leads to one of the volumes 1 to 8.
pub(crate) fn cell_of(entry: &NamedCell) -> Option<CellAt>
    ensures some { IfSome result (λ at. at ≡ address_of entry.now) }
    ensures none { IfNone result ((1 ≤ entry.now.vol) × (entry.now.vol ≤ 8) → ⊥) }
{
    let vol = VolIx::new(u32::from(entry.vol))?;
    Some(CellAt {
        vol,
        page: entry.page,
        cell: entry.cell,
    })
}

/// Whether a kind is that of first cells.
pub(crate) fn is_primary(kind: CellKind) -> bool
    ensures { IsTrue result ↔ (kind ≡ Primary) }
{
    matches!(kind, CellKind::Primary)
}

/// Whether a cell says the fileset and the tag of an entry.
fn says_entry(bytes: &[u8], entry: &NamedCell) -> bool
    requires { length bytes.now ≡ 292 }
    ensures { IsTrue result ↔ SaysEntry bytes.now entry.now }
{
    is_fileset(u8_at(bytes, 14), entry.number)
        && u64::from(u32_at(bytes, 8)) == entry.slot
        && u16_at(bytes, 12) == entry.seq
}

/// Whether the cell at a place, if one is there, says the fileset and the tag of an entry.
fn says_entry_at<M: MetaPages>(pages: &M, at: &CellAt, entry: &NamedCell) -> bool
    ensures { (bytes : List ℕ) → cell_at (M.pages pages.now) at.now ≡ Some bytes → IsTrue result
        ↔ SaysEntry bytes entry.now }
{
    match pages.get(home_of(at)) {
        Some(page) if at.cell < 28 => says_entry(bytes_of(page, at.cell), entry),
        _ => false,
    }
}

/// Whether an entry leads to a first cell of its fileset and tag, whatever else the cell holds.
pub(crate) fn leads_to_first<M: MetaPages>(
    pages: &M,
    frame: &DomainFrame,
    links: &CellLinks,
    entry: &NamedCell,
) -> bool
    requires { AreLinks (M.pages pages.now) (frame_in frame.now) links.now }
    ensures { IsTrue result ↔ IsFirstOf (M.pages pages.now) (frame_in frame.now) entry.now.number
        (tag_of entry.now) (address_of entry.now) }
{
    let Some(at) = cell_of(entry) else {
        return false;
    };
    let Some(link) = links.get(&at) else {
        return false;
    };
    is_primary(link.kind) && says_entry_at(pages, &at, entry)
}

/// Puts the page of an entry into a set, if it leads to no first cell of its fileset and tag.
fn insert_wrong<M: MetaPages>(
    pages: &M,
    frame: &DomainFrame,
    links: &CellLinks,
    entry: &NamedCell,
    found: &mut HomeSet,
) -> Result<(), OutOfMemory>
    requires { AreLinks (M.pages pages.now) (frame_in frame.now) links.now }
    ensures { OnOk result ((home : Home) → IsHomeIn found.new home ↔ (IsHomeIn found.old home
        ⊎ LeadsToNoFirst (M.pages pages.now) (frame_in frame.now) home entry.now)) }
{
    if !leads_to_first(pages, frame, links, entry) {
        found.insert(&entry.home)?;
    }
    Ok(())
}

/// The pages of tag directories with an entry that leads to no first cell of its fileset and tag,
/// from what was read of all cells in use.
pub fn entry_faults<M: MetaPages>(
    alloc: Global,
    pages: &M,
    frame: &DomainFrame,
    table: &FilesetTable,
    links: &CellLinks,
) -> Result<HomeSet, OutOfMemory>
    requires { AreLinks (M.pages pages.now) (frame_in frame.now) links.now }
    ensures { IfOk result (λ found. (home : Home) → IsHomeIn found home
        ↔ IsWrongEntry (M.pages pages.now) (frame_in frame.now) table.now home) }
{
    let entries = read_entries(alloc, pages, frame, table)?;
    let mut found = HomeSet::new(alloc);
    for entry in &entries {
        insert_wrong(pages, frame, links, entry, &mut found)?;
    }
    Ok(found)
}
