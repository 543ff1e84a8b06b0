//! The turn, as threads share it.
ghost use Rattle.std.specs.Prelude.{◌≡◌, ◌≤◌, length};

use crate::rule::InTurn;
use crate::view::{Beginning, View};
use atomic_table::Table;
use fileset_values::Told;
use std::alloc::Global;

/// A value that is handed from thread to thread, to one at a time and in the order of asking.
pub struct Turn<T: Told> {
    pub(crate) table: Table<Option<T>, View<T>, Beginning<T>, InTurn, Global>,
    ghost some: { 1 ≤ length table.shared.key.lefts.items },
    ghost sized: { (table.shared.table_id.words ≡ 5) × (table.shared.table_id.slots ≡ 1) },
}
