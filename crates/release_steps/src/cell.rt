//! Quota cells in memory.
ghost use Rattle.std.specs.Prelude.{IsTrue};
ghost use Rattle.std.specs.FinMap.Entries.{is_sorted};
ghost use Rattle.quota_book.specs.fileset_values.Orders.{owner_cmp};

use quota_book::{Limits, Owner};
use release_list::{CellAt, CellHead};

/// A quota cell: where it stands, its head, and the limits that it says.
#[derive(Drop)]
pub(crate) struct QuotaCell {
    pub at: CellAt,
    pub head: CellHead,
    pub said: Vec<(Owner, Limits)>,
    ghost sorted: { IsTrue (is_sorted owner_cmp said.items) },
}
