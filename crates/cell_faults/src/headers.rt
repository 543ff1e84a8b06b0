//! What a page of cells begins with.
ghost use Rattle.std.specs.Prelude.{◌≡◌, ◌↔◌, IsTrue};
ghost use Rattle.page_ways.specs.metadata_cells.CellPage.{free_cells};
ghost use Rattle.cell_faults.specs.Pages.{IsWrongHeader};

use page_ways::{Page, is_free_cell, u16_at, u32_at};

/// How many cells of a page have the kind of a free one.
fn count_free(page: &Page) -> usize
    ensures { result ≡ free_cells page.now }
{
    (0..28_u8).filter(|cell| is_free_cell(page, *cell)).count()
}

/// Whether a page of cells at a place of its volume's table, from 0, says another place, another
/// number of free cells than it has, or no zero after that.
pub fn has_wrong_header(page: &Page, place: usize) -> bool
    ensures { IsTrue result ↔ IsWrongHeader page.now place }
{
    let bytes = page.bytes();
    u32_at(bytes, 4) as usize != place
        || usize::from(u16_at(bytes, 12)) != count_free(page)
        || u16_at(bytes, 14) != 0
}
