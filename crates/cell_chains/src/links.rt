//! Cells in use and what each of them leads to, in the order of cells.
ghost use Rattle.std.specs.Prelude.{◌≡◌, ◌+◌, ◌*◌, ◌^◌, ◌<◌};
ghost use Rattle.metadata_cells.specs.Chain.{key_of as key_there};
ghost use Rattle.metadata_cells.specs.sorted_sets.Rising.{IsRising};
ghost use Rattle.cell_chains.specs.Order.{AreNumbered};

use metadata_cells::numbered::{find, put};
use metadata_cells::{CellAt, CellKind, OutOfMemory, key_of};
use std::alloc::Global;

/// What is read of a cell in use, whatever else it holds: its kind, and the cell that it leads to.
#[derive(Clone, Copy, Debug, PartialEq, Eq)]
pub struct CellLink {
    pub kind: CellKind,
    pub next: Option<CellAt>,
}

/// Cells in use, each with what is read of it, in the order of cells.
#[derive(Drop)]
pub struct CellLinks {
    cells: Vec<(u64, (CellAt, CellLink))>,
    ghost rising: { IsRising cells.items },
    ghost numbered: { AreNumbered cells.items },
}

impl CellLinks {
    ghost use Rattle.std.specs.Prelude.{◌↔◌, ◌⊎◌, IfNone, IfSome, IsTrue, OnErr, OnOk};
    ghost use Rattle.metadata_cells.specs.domain_base.declared.place.CellAt.{CellAt};
    ghost use Rattle.cell_chains.specs.declared.links.CellLink.{CellLink};
    ghost use Rattle.cell_chains.specs.Links.{HasLink, IsInUse, cells_of};

    /// The links of no cell: none is in use.
    pub fn new(alloc: Global) -> CellLinks
        ensures { (at : CellAt) (link : CellLink) → ¬ HasLink result at link }
    {
        CellLinks {
            cells: Vec::new(alloc),
        }
    }

    /// What is read of a cell. None if and only if it is not in use.
    pub fn get(&self, at: &CellAt) -> Option<CellLink>
        ensures some { IfSome result (HasLink self.now at.now) }
        ensures none { IfNone result ((link : CellLink) → ¬ HasLink self.now at.now link) }
    {
        match find(&self.cells, key_of(at)) {
            Some((_, link)) => Some(*link),
            None => None,
        }
    }

    /// Whether a cell is in use.
    pub fn has(&self, at: &CellAt) -> bool
        ensures { IsTrue result ↔ IsInUse self.now at.now }
    {
        self.get(at).is_some()
    }

    /// Records what is read of a cell. After an error all is as before.
    pub fn insert(&mut self, at: &CellAt, link: &CellLink) -> Result<(), OutOfMemory>
        ensures ok { OnOk result ((one : CellAt) (read : CellLink) → HasLink self.new one read
            ↔ (((one ≡ at.now) × (read ≡ link.now))
            ⊎ ((¬ one ≡ at.now) × HasLink self.old one read))) }
        ensures err { OnErr result (cells_of self.new ≡ cells_of self.old) }
    {
        put(&mut self.cells, key_of(at), (*at, *link))
    }

    /// The cells in use in their order, each with its number and with what is read of it.
    pub fn as_slice(&self) -> &[(u64, (CellAt, CellLink))]
        ensures value { result.now ≡ cells_of self.now }
        ensures rising { IsRising result.now }
        ensures numbered { AreNumbered result.now }
    {
        &self.cells
    }
}
