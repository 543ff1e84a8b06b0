//! Cells, read from the pages that they stand on.
ghost use Rattle.std.specs.Prelude.{◌≡◌, ◌≢◌, ◌+◌, ◌≤◌, ℕ, length, IfSome, IfNone, Option};
ghost use Rattle.std.specs.Option.{option_copied};
ghost use Rattle.page_store.specs.domain_base.declared.place.CellAt.{CellAt};
ghost use Rattle.metadata_cells.specs.declared.head.CellHead.{CellHead};
ghost use Rattle.metadata_cells.specs.declared.head.CellKind.{CellKind};
ghost use Rattle.cell_records.specs.Fields.{number_at};
ghost use Rattle.metadata_cells.specs.Cell.{HasHead, IsAddress, IsFileset, kind_number};
ghost use Rattle.metadata_cells.specs.CellPage.{cell_at};
ghost use Rattle.metadata_cells.specs.Chain.{HasHeadAt};

use crate::head::{CellHead, CellKind};
use cell_records::{u8_at, u16_at, u32_at};
use page_store::{CellAt, FilesetNo, Home, MetaPages, VolIx};

/// The bytes of a cell.
pub(crate) const CELL_BYTES: usize = 292;

/// The first bytes of a page of cells, `BMTP`, as a number.
pub(crate) const MAGIC: u32 = 0x5054_4d42;

/// The address in a cell's first eight bytes, if it is one: of a cell, or of none.
fn next_of(cell: &[u8]) -> Option<Option<CellAt>>
    requires { 8 ≤ length cell.now }
    ensures some { IfSome result (IsAddress (number_at 1 2 cell.now) (number_at 1 3 cell.now)
        (number_at 4 4 cell.now)) }
    ensures none { IfNone result ((next : Option CellAt)
        → ¬ IsAddress (number_at 1 2 cell.now) (number_at 1 3 cell.now)
        (number_at 4 4 cell.now) next) }
{
    let number = u8_at(cell, 3);
    let page = u32_at(cell, 4);
    match VolIx::new(u32::from(u8_at(cell, 2))) {
        Some(vol) if number < 28 => Some(Some(CellAt {
            vol,
            page,
            cell: number,
        })),
        Some(_) => None,
        None if u8_at(cell, 2) == 0 && number == 0 && page == 0 => Some(None),
        None => None,
    }
}

/// The fileset that a head's byte names, if it names one or none.
fn fileset_of(number: u8) -> Option<Option<FilesetNo>>
    ensures some { IfSome result (IsFileset number) }
    ensures none { IfNone result ((fileset : Option ℕ) → ¬ IsFileset number fileset) }
{
    if number == 0 {
        return Some(None);
    }
    let fileset = FilesetNo::new(u32::from(number) - 1)?;
    Some(Some(fileset))
}

/// The kind of a cell in use that the number stands for.
pub fn kind_of(number: u8) -> Option<CellKind>
    ensures some { IfSome result (λ kind. number ≡ kind_number kind) }
    ensures none { IfNone result ((kind : CellKind) → number ≢ kind_number kind) }
{
    match number {
        1 => Some(CellKind::Primary),
        2 => Some(CellKind::Chain),
        3 => Some(CellKind::Quota),
        4 => Some(CellKind::Volume),
        _ => None,
    }
}

/// The head of a cell in use, and how many bytes its records have. Returns None if the cell has no
/// well-formed head, or is free.
pub(crate) fn head_of(cell: &[u8]) -> Option<(CellHead, usize)>
    requires { 20 ≤ length cell.now }
    ensures some { IfSome result (λ found. HasHead cell.now found.0 found.1) }
    ensures none { IfNone result ((head : CellHead) (size : ℕ) → ¬ HasHead cell.now head size) }
{
    let size = u16_at(cell, 16);
    if u16_at(cell, 0) != 0 || u16_at(cell, 18) != 0 || 272 < size {
        return None;
    }
    let kind = kind_of(u8_at(cell, 15))?;
    let fileset = fileset_of(u8_at(cell, 14))?;
    let next = next_of(cell)?;
    let head = CellHead {
        next,
        slot: u32_at(cell, 8),
        seq: u16_at(cell, 12),
        fileset,
        kind,
    };
    Some((head, usize::from(size)))
}

/// The bytes of a cell, if its page is there, is a page of cells and has such a cell.
pub(crate) fn bytes_of<'a, M: MetaPages>(pages: &'a M, at: &CellAt) -> Option<&'a [u8]>
    ensures value { option_copied result ≡ cell_at (M.pages pages.now) at.now }
    ensures len { IfSome result (λ bytes. length bytes.now ≡ CELL_BYTES) }
{
    let home = Home {
        vol: at.vol,
        page: at.page,
    };
    let page = pages.get(home)?.bytes();
    if u32_at(page, 0) != MAGIC || 28 <= at.cell {
        return None;
    }
    let start = 16 + CELL_BYTES * usize::from(at.cell);
    Some(&page[start..start + CELL_BYTES])
}

/// The head of the cell in use that stands there. Returns None if and only if no cell with a
/// well-formed head stands there: the page is not there or is no page of cells, or the cell is
/// free.
pub fn read_head<M: MetaPages>(pages: &M, at: CellAt) -> Option<CellHead>
    ensures some { IfSome result (HasHeadAt (M.pages pages.now) at) }
    ensures none { IfNone result ((head : CellHead) → ¬ HasHeadAt (M.pages pages.now) at head) }
{
    let cell = bytes_of(pages, &at)?;
    let (head, _) = head_of(cell)?;
    Some(head)
}
