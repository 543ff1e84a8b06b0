//! Chains of cells, read from their first cell to their last.
ghost use Rattle.std.specs.Prelude.{◌≡◌, ◌+◌, ◌*◌, ◌^◌, ◌<◌, ◌⊎◌, nat_eq, IfOk, IfErr};
ghost use Rattle.std.specs.HashSet.{contains};
ghost use Rattle.metadata_cells.specs.declared.chain.ChainFault.TheVariants.{OutOfMemory as NoMemory};
ghost use Rattle.metadata_cells.specs.Chain.{may_follow as follows, key_of as key_there};
ghost use Rattle.metadata_cells.specs.Reading.{ReadsAt, ReadsChain, IsBrokenThere, LeadsOn};

use crate::head::{CellHead, CellKind};
use crate::list::RecordList;
use crate::reading::{bytes_of, read_head};
use crate::records::read_cell;
use cell_records::Record;
use page_store::{CellAt, MetaPages, OutOfMemory};
use std::alloc::{AllocFailed, Global};
use std::collections::HashSet;

/// Why a chain was not read: it is broken at a cell, or memory ran out.
#[derive(Clone, Copy, Debug, PartialEq, Eq)]
pub enum ChainFault {
    Broken { at: CellAt },
    OutOfMemory,
}

impl From<OutOfMemory> for ChainFault {
    ghost from_gives = { λ _ e. e ≡ NoMemory };

    fn from(_: OutOfMemory) -> ChainFault {
        ChainFault::OutOfMemory
    }
}

impl<T: Drop> From<AllocFailed<T>> for ChainFault {
    ghost from_gives = { λ _ e. e ≡ NoMemory };

    fn from(_failed: AllocFailed<T>) -> ChainFault {
        ChainFault::OutOfMemory
    }
}

/// A number for each cell, greater for a later one.
pub fn key_of(at: &CellAt) -> u64
    ensures value { result ≡ key_there at.now }
    ensures widths { (at.now.page < 2 ^ 32) × (at.now.cell < 256) }
{
    let page = at.page;
    let cell = at.cell;
    ((u64::from(at.vol.number()) << 32) + u64::from(page)) * 256 + u64::from(cell)
}

/// Whether a cell of the second kind may follow one of the first.
pub fn may_follow(first: CellKind, next: CellKind) -> bool
    ensures { result ≡ follows first next }
{
    match first {
        CellKind::Primary | CellKind::Chain => matches!(next, CellKind::Chain),
        CellKind::Quota => matches!(next, CellKind::Quota),
        CellKind::Volume => false,
    }
}

/// Whether a cell of that kind may lead to this one: this one was not passed before, and a cell in
/// use that may follow stands there.
fn leads_on<M: MetaPages>(pages: &M, seen: &HashSet<u64>, kind: CellKind, next: &CellAt) -> bool
    ensures value { LeadsOn (M.pages pages.now) (contains nat_eq seen.now (key_there next.now))
        kind next.now result }
    ensures widths { (next.now.page < 2 ^ 32) × (next.now.cell < 256) }
{
    if seen.contains(&key_of(next)) {
        return false;
    }
    match read_head(pages, *next) {
        Some(head) => may_follow(kind, head.kind),
        None => false,
    }
}

/// Reads the cell that stands there: returns its head, and appends its records.
pub(crate) fn read_at<M: MetaPages>(
    pages: &M,
    at: &CellAt,
    found: &mut Vec<Record>,
) -> Result<Option<CellHead>, OutOfMemory>
    ensures { IfOk result (ReadsAt (M.pages pages.now) at.now found.old.items found.new.items) }
{
    match bytes_of(pages, at) {
        Some(cell) => read_cell(cell, found),
        None => Ok(None),
    }
}

/// The records of the chain from a cell on, in the chain's order. `Broken` is returned if and only
/// if the chain is broken: at the start, if no cell in use stands there; at a cell, if its next
/// address leads back or to no cell in use that may follow; or at the next cell, if its records are
/// not well formed. It ends whatever the bytes are.
pub fn read_chain<M: MetaPages>(
    alloc: Global,
    pages: &M,
    start: CellAt,
) -> Result<RecordList, ChainFault>
    ensures whole { IfOk result (ReadsChain (M.pages pages.now) start) }
    ensures broken { IfErr result (IsBrokenThere (M.pages pages.now) start) }
{
    let mut records = Vec::new(alloc);
    let mut seen = HashSet::new(alloc);
    let mut last = start;
    let Some(first) = read_at(pages, &last, &mut records)? else {
        return Err(ChainFault::Broken { at: last });
    };
    seen.insert(key_of(&last))?;
    let mut kind = first.kind;
    let mut next = first.next;
    for _ in 0..u64::MAX {
        let Some(at) = next else {
            return Ok(RecordList::from_vec(records));
        };
        if !leads_on(pages, &seen, kind, &at) {
            return Err(ChainFault::Broken { at: last });
        }
        let Some(found) = read_at(pages, &at, &mut records)? else {
            return Err(ChainFault::Broken { at });
        };
        seen.insert(key_of(&at))?;
        last = at;
        kind = found.kind;
        next = found.next;
    }
    Err(ChainFault::OutOfMemory)
}
