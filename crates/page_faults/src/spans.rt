//! Pages of one volume that belong to no file.
ghost use Rattle.std.specs.Prelude.{◌⊎◌, ◌↔◌, ◌<◌, ℕ, IfOk, OnOk};
ghost use Rattle.tag_faults.specs.domain_layout.Reached.{first_cells};
ghost use Rattle.tag_faults.specs.log_ring.Homes.{IsLogPage};
ghost use Rattle.tag_faults.specs.page_ways.Frame.{frame_in};
ghost use Rattle.tag_faults.specs.sorted_sets.SpanMembers.{HasAnyOf};
ghost use Rattle.tag_faults.specs.cell_chains.Runs.{on};
ghost use Rattle.page_faults.specs.Owned.{IsTaken};

use std::alloc::Global;
use tag_faults::limits::LOG_PAGES;
use tag_faults::{DomainFrame, Home, OutOfMemory, Span, VolIx, push_pages};

/// Appends those pages of the log that stand on a volume to spans of the volume's pages.
fn push_log(frame: &DomainFrame, vol: VolIx, spans: &mut Vec<Span>) -> Result<(), OutOfMemory>
    ensures { OnOk result ((n : ℕ) → HasAnyOf spans.new.items n
        ↔ (HasAnyOf spans.old.items n ⊎ IsLogPage frame.now.anchor (on vol n))) }
{
    if frame.anchor.log_vol == vol.number() {
        let from = u64::from(frame.anchor.log_page);
        spans.push(Span {
            from,
            to: from + u64::from(LOG_PAGES),
        })?;
    }
    Ok(())
}

/// Appends to other spans the first pages of a volume, which are its label, anchors and bitmap.
fn push_first(frame: &DomainFrame, vol: VolIx, spans: &mut Vec<Span>) -> Result<(), OutOfMemory>
    ensures { OnOk result ((n : ℕ) → HasAnyOf spans.new.items n ↔ (HasAnyOf spans.old.items n
        ⊎ (n < first_cells (frame_in frame.now) vol))) }
{
    let to = u64::from(frame.first_cells(vol));
    spans.push(Span { from: 0, to })?;
    Ok(())
}

/// The pages of a volume that belong to its label, anchors, bitmap or the log, or are among homes.
pub(crate) fn taken_spans(
    alloc: Global,
    frame: &DomainFrame,
    homes: &[Home],
    vol: VolIx,
) -> Result<Vec<Span>, OutOfMemory>
    ensures { IfOk result (λ spans. (n : ℕ) → HasAnyOf spans.items n
        ↔ IsTaken (frame_in frame.now) homes.now (on vol n)) }
{
    let mut spans = Vec::new(alloc);
    push_first(frame, vol, &mut spans)?;
    push_log(frame, vol, &mut spans)?;
    push_pages(homes, vol, &mut spans)?;
    Ok(spans)
}
