//! Which cell of a chain a change of an owner's limits touches.
ghost use Rattle.std.specs.Prelude.{◌≡◌, map};
ghost use Rattle.quota_book.specs.QuotaCells.{first_where, has_room, is_said, touched};
ghost use Rattle.release_steps.specs.QuotaChain.{says_of};

use crate::cell::QuotaCell;
use quota_book::Owner;
use release_list::from_sorted_sets::entries::find;

/// Whether a cell says something of the owner.
fn says(cell: &QuotaCell, who: Owner) -> bool
    ensures { result ≡ is_said who (says_of cell.now) }
{
    find(&cell.said, &who).is_some()
}

/// Whether a cell has room for one more record.
fn has_place(cell: &QuotaCell) -> bool
    ensures { result ≡ has_room (says_of cell.now) }
{
    cell.said.len() < 9
}

/// The first cell that says something of the owner.
fn first_saying(cells: &[QuotaCell], who: Owner) -> Option<usize>
    ensures { result ≡ first_where (is_said who) (map says_of cells.now) }
{
    for (place, cell) in cells.iter().enumerate() {
        if says(cell, who) {
            return Some(place);
        }
    }
    None
}

/// The first cell that has room for one more record.
fn first_with_room(cells: &[QuotaCell]) -> Option<usize>
    ensures { result ≡ first_where has_room (map says_of cells.now) }
{
    for (place, cell) in cells.iter().enumerate() {
        if has_place(cell) {
            return Some(place);
        }
    }
    None
}

/// The cell that a change of an owner's limits touches.
pub(crate) fn touched_cell(cells: &[QuotaCell], who: Owner) -> Option<usize>
    ensures { result ≡ touched (map says_of cells.now) who }
{
    match first_saying(cells, who) {
        Some(place) => Some(place),
        None => first_with_room(cells),
    }
}
