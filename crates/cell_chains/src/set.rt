//! A set of cells.
ghost use Rattle.std.specs.Prelude.{◌≡◌};
ghost use Rattle.metadata_cells.specs.sorted_sets.Rising.{IsRising};
ghost use Rattle.cell_chains.specs.Order.{AreNumberedCells};

use metadata_cells::numbered::{find, put};
use metadata_cells::{CellAt, OutOfMemory, key_of};
use std::alloc::Global;

/// Cells, each once, in their order.
#[derive(Drop)]
pub struct CellSet {
    cells: Vec<(u64, CellAt)>,
    ghost rising: { IsRising cells.items },
    ghost numbered: { AreNumberedCells cells.items },
}

impl CellSet {
    ghost use Rattle.std.specs.Prelude.{◌↔◌, ◌⊎◌, Contains, IsTrue, OnErr, OnOk};
    ghost use Rattle.metadata_cells.specs.domain_base.declared.place.CellAt.{CellAt};
    ghost use Rattle.cell_chains.specs.Members.{IsIn, entries};

    /// The empty set.
    pub fn new(alloc: Global) -> CellSet
        ensures { (at : CellAt) → ¬ IsIn result at }
    {
        CellSet {
            cells: Vec::new(alloc),
        }
    }

    /// Whether a cell is in the set.
    pub fn has(&self, at: &CellAt) -> bool
        ensures { IsTrue result ↔ IsIn self.now at.now }
    {
        find(&self.cells, key_of(at)).is_some()
    }

    /// Puts a cell into the set. After an error the set is as before.
    pub fn insert(&mut self, at: &CellAt) -> Result<(), OutOfMemory>
        ensures ok { OnOk result ((other : CellAt) → IsIn self.new other
            ↔ (IsIn self.old other ⊎ (other ≡ at.now))) }
        ensures err { OnErr result (entries self.new ≡ entries self.old) }
    {
        put(&mut self.cells, key_of(at), *at)
    }

    /// Puts cells into the set.
    pub fn insert_all(&mut self, cells: &[CellAt]) -> Result<(), OutOfMemory>
        ensures { OnOk result ((other : CellAt) → IsIn self.new other
            ↔ (IsIn self.old other ⊎ Contains cells.now other)) }
    {
        for at in cells {
            self.insert(at)?;
        }
        Ok(())
    }
}
