//! Pages of one volume as numbers.
ghost use Rattle.std.specs.Prelude.{◌≡◌, ◌⊎◌, ◌↔◌, ℕ, Contains, IfOk, OnOk};
ghost use Rattle.metadata_cells.specs.sorted_sets.SpanMembers.{HasAnyOf, HasNumber};
ghost use Rattle.cell_chains.specs.Runs.{IsSaid, on};

use crate::run::{FileRun, push_runs};
use metadata_cells::{Home, OutOfMemory, Span, SpanSet, VolIx};
use std::alloc::Global;

/// Appends a page to spans of pages of a volume, if the page stands on the volume.
fn push_page(home: &Home, vol: VolIx, spans: &mut Vec<Span>) -> Result<(), OutOfMemory>
    ensures { OnOk result ((n : ℕ) → HasAnyOf spans.new.items n
        ↔ (HasAnyOf spans.old.items n ⊎ (home.now ≡ on vol n))) }
{
    if home.vol.number() == vol.number() {
        let from = u64::from(home.page);
        spans.push(Span { from, to: from + 1 })?;
    }
    Ok(())
}

/// Appends those of the pages that stand on a volume to spans of the volume's pages.
pub fn push_pages(homes: &[Home], vol: VolIx, spans: &mut Vec<Span>) -> Result<(), OutOfMemory>
    ensures { OnOk result ((n : ℕ) → HasAnyOf spans.new.items n
        ↔ (HasAnyOf spans.old.items n ⊎ Contains homes.now (on vol n))) }
{
    for home in homes {
        push_page(home, vol, spans)?;
    }
    Ok(())
}

/// The pages of a volume that some of the spans has, or that runs say to be a file's.
pub fn find_owned(
    alloc: Global,
    mut spans: Vec<Span>,
    runs: &[FileRun],
    vol: VolIx,
) -> Result<SpanSet, OutOfMemory>
    ensures { IfOk result (λ found. (n : ℕ) → HasNumber found n
        ↔ (HasAnyOf spans.items n ⊎ IsSaid runs.now (on vol n))) }
{
    push_runs(runs, vol, &mut spans)?;
    spans.sort_by_key(|span| span.from)?;
    let mut found = SpanSet::new(alloc);
    found.insert_all(&spans)?;
    Ok(found)
}
