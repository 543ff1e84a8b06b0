//! What is read of a cell in use, whatever else it holds.
ghost use Rattle.std.specs.Prelude.{◌≡◌, ◌↔◌, ℕ, IsTrue, List, Some};
ghost use Rattle.cell_faults.specs.cell_records.Fields.{number_at};
ghost use Rattle.cell_faults.specs.metadata_cells.Cell.{IsFileset};
ghost use Rattle.cell_faults.specs.metadata_cells.declared.head.CellKind.TheVariants.{Quota};
ghost use Rattle.cell_faults.specs.metadata_cells.CellPage.{cell_at, home_of as home_there};
ghost use Rattle.cell_faults.specs.domain_layout.Reached.{Frame};
ghost use Rattle.cell_faults.specs.domain_layout.TagRules.{IsQuotaOf};
ghost use Rattle.cell_faults.specs.Links.{AreLinks};

use cell_faults::{CellAt, CellKind, CellLinks, FilesetNo, Home, MetaPages, bytes_of, u8_at};

/// The home of the page of a cell.
pub(crate) fn home_of(at: &CellAt) -> Home
    ensures { result ≡ home_there at.now }
{
    Home {
        vol: at.vol,
        page: at.page,
    }
}

/// Whether a byte of a cell is that of a fileset: its number plus 1.
pub(crate) fn is_fileset(byte: u8, number: FilesetNo) -> bool
    ensures { IsTrue result ↔ IsFileset byte (Some number) }
{
    u32::from(byte) == number.number() + 1
}

/// Whether the cell at a place says a fileset, if one is there.
fn says_fileset<M: MetaPages>(pages: &M, at: &CellAt, number: FilesetNo) -> bool
    ensures { (bytes : List ℕ) → cell_at (M.pages pages.now) at.now ≡ Some bytes → IsTrue result
        ↔ IsFileset (number_at 1 14 bytes) (Some number) }
{
    match pages.get(home_of(at)) {
        Some(page) if at.cell < 28 => is_fileset(u8_at(bytes_of(page, at.cell), 14), number),
        _ => false,
    }
}

/// Whether a kind is that of quota cells.
fn is_quota(kind: CellKind) -> bool
    ensures { IsTrue result ↔ (kind ≡ Quota) }
{
    matches!(kind, CellKind::Quota)
}

/// Whether a quota cell of a fileset stands at a place, whatever else it holds.
pub(crate) fn is_quota_of<M: MetaPages>(
    pages: &M,
    links: &CellLinks,
    number: FilesetNo,
    at: &CellAt,
) -> bool
    ensures { (frame : Frame) → AreLinks (M.pages pages.now) frame links.now → IsTrue result
        ↔ IsQuotaOf (M.pages pages.now) frame number at.now }
{
    let Some(link) = links.get(at) else {
        return false;
    };
    is_quota(link.kind) && says_fileset(pages, at, number)
}
