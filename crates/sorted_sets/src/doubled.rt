//! Numbers that two spans have.
ghost use Rattle.std.specs.Prelude.{◌≡◌, ◌≤◌, ◌↔◌, ◌++◌, ◌∷◌, ℕ, [], IfOk, IsPermutation, List, OnOk};
ghost use Rattle.sorted_sets.specs.SpanMembers.{HasNumber};
ghost use Rattle.sorted_sets.specs.declared.span.Span.{Span as SpanOf};
ghost use Rattle.sorted_sets.specs.Counts.{EndsAt, IsBehind, counts};

use crate::{Span, SpanSet};
use domain_base::OutOfMemory;
use std::alloc::Global;

/// Puts into a set the part of a span that an earlier one has: the part before the end of the
/// earlier ones.
fn insert_part(found: &mut SpanSet, span: &Span, end: u64) -> Result<(), OutOfMemory>
    ensures { (earlier : List SpanOf) → IsBehind span.now earlier → EndsAt end earlier
        → ((n : ℕ) → HasNumber found.old n ↔ (2 ≤ counts earlier n))
        → OnOk result ((n : ℕ) → HasNumber found.new n
        ↔ (2 ≤ counts (earlier ++ span.now ∷ []) n)) }
{
    let part = Span {
        from: span.from,
        to: span.to.min(end),
    };
    found.insert_all(&[part])
}

/// The numbers that more than one of the spans have. The order of the spans may change.
pub fn find_doubled(alloc: Global, spans: &mut Vec<Span>) -> Result<SpanSet, OutOfMemory>
    ensures doubled { IfOk result (λ found. (n : ℕ) → HasNumber found n
        ↔ (2 ≤ counts spans.old.items n)) }
    ensures same { IsPermutation spans.old.items spans.new.items }
{
    spans.sort_by_key(|span| span.from)?;
    let mut found = SpanSet::new(alloc);
    let mut end = 0;
    for span in spans.iter() {
        insert_part(&mut found, span, end)?;
        end = end.max(span.to);
    }
    Ok(found)
}
