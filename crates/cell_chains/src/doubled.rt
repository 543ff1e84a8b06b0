//! Pages of files that are another's, too.
ghost use Rattle.std.specs.Prelude.{◌≡◌, ◌⊎◌, ◌↔◌, ℕ, Contains, IfOk, IsTrue};
ghost use Rattle.metadata_cells.specs.sorted_sets.SpanMembers.{HasAnyOf, HasNumber};
ghost use Rattle.cell_chains.specs.declared.run.FileRun.{FileRun as RunOf};
ghost use Rattle.cell_chains.specs.Runs.{AreApart, HasPageIn, IsPageOf, IsShared, page_in};

use crate::run::{FileRun, push_runs, span_of};
use metadata_cells::{OutOfMemory, Span, SpanSet, VolIx, find_doubled};
use std::alloc::Global;

/// A set of pages of a volume that has those pages of runs that some of the spans has, or that are
/// another page of a file by the runs. No two of the runs may have one page of one cell.
pub fn find_shared(
    alloc: Global,
    mut spans: Vec<Span>,
    runs: &[FileRun],
    vol: VolIx,
) -> Result<SpanSet, OutOfMemory>
    ensures { IfOk result (λ found. AreApart runs.now → (run : RunOf) (page : ℕ)
        → Contains runs.now run → run.row.vol ≡ vol → IsPageOf run page
        → HasNumber found (page_in run page)
        ↔ (HasAnyOf spans.items (page_in run page) ⊎ IsShared runs.now run page)) }
{
    push_runs(runs, vol, &mut spans)?;
    let found = find_doubled(alloc, &mut spans)?;
    Ok(found)
}

/// Whether a page of a run is in a set.
pub fn has_shared(found: &SpanSet, run: &FileRun) -> bool
    ensures { IsTrue result ↔ HasPageIn (HasNumber found.now) run.now }
{
    found.has_one(&span_of(run))
}
