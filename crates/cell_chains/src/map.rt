//! For each cell, a set of first cells of chains.
ghost use Rattle.metadata_cells.specs.sorted_sets.Rising.{IsRising};

use crate::starts::{Starts, joined};
use metadata_cells::numbered::{find, put};
use metadata_cells::{CellAt, OutOfMemory, key_of};
use std::alloc::Global;

/// Sets of first cells of chains, under the numbers of cells and in their order.
#[derive(Drop)]
pub(crate) struct StartMap {
    starts: Vec<(u64, Starts)>,
    ghost rising: { IsRising starts.items },
}

impl StartMap {
    ghost use Rattle.std.specs.Prelude.{◌≡◌, ℕ, None, OnErr, OnOk};
    ghost use Rattle.metadata_cells.specs.Chain.{key_of as key_there};
    ghost use Rattle.cell_chains.specs.Starts.{Joins, starts_of, told_in};

    /// The map that tells no set.
    pub(crate) fn new(alloc: Global) -> StartMap
        ensures { (key : ℕ) → told_in result key ≡ None }
    {
        StartMap {
            starts: Vec::new(alloc),
        }
    }

    /// The set that is told for a cell.
    pub(crate) fn get(&self, at: &CellAt) -> Option<Starts>
        ensures { result ≡ starts_of self.now at.now }
    {
        find(&self.starts, key_of(at)).copied()
    }

    /// Joins the set of a cell with another set. After an error all is as before.
    pub(crate) fn join(&mut self, at: &CellAt, more: &Starts) -> Result<(), OutOfMemory>
        ensures ok { OnOk result (Joins self.old self.new (key_there at.now) more.now) }
        ensures err { OnErr result (self.new.starts.items ≡ self.old.starts.items) }
    {
        let starts = joined(&self.get(at), more);
        put(&mut self.starts, key_of(at), starts)
    }
}
