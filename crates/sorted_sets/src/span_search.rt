//! Spans that have a number of another span.
ghost use Rattle.std.specs.Prelude.{◌≡◌, ◌≤◌, ◌<◌, ◌⊎◌, ◌↔◌, ℕ, IfNone, IfSome, IsNone, IsSome, Some, length, slice_index_or, vec_len};
ghost use Rattle.sorted_sets.specs.Rising.{IsRising, value_at};
ghost use Rattle.sorted_sets.specs.Spans.{AreSpans, HasIn, Meets};
ghost use Rattle.sorted_sets.specs.declared.span.Span.{Span as SpanOf};

use crate::numbered::{place_of, take};
use crate::span::Span;

/// How many of the spans begin before a number.
fn count_before(spans: &[(u64, u64)], to: u64) -> usize
    requires { IsRising spans.now }
    ensures within { result ≤ length spans.now }
    ensures front { (k : ℕ) (d : ℕ × ℕ) → k < result → (slice_index_or spans.now k d).0 < to }
    ensures back { (k : ℕ) (d : ℕ × ℕ) → result ≤ k → k < length spans.now
        → to ≤ (slice_index_or spans.now k d).0 }
{
    match place_of(spans, to) {
        Ok(place) => place,
        Err(place) => place,
    }
}

/// The last span that has a number of another span.
pub(crate) fn find_met(spans: &[(u64, u64)], span: &Span) -> Option<Span>
    requires rising { IsRising spans.now }
    requires spans { AreSpans spans.now }
    ensures some { IfSome result (λ met. (value_at spans.now met.from ≡ Some met.to)
        × Meets span.now met) }
    ensures none { IfNone result ((met : SpanOf) → value_at spans.now met.from ≡ Some met.to
        → ¬ Meets span.now met) }
{
    let last = count_before(spans, span.to).checked_sub(1)?;
    let (from, to) = spans[last];
    if span.from < to {
        Some(Span { from, to })
    } else {
        None
    }
}

/// Takes off the list the last span that has a number of another span: the two then become one.
/// None if there is no such span.
pub(crate) fn take_met(spans: &mut Vec<(u64, u64)>, span: &Span) -> Option<Span>
    requires some { span.now.from < span.now.to }
    requires rising { IsRising spans.old.items }
    requires spans { AreSpans spans.old.items }
    ensures rising { IsRising spans.new.items }
    ensures spans { AreSpans spans.new.items }
    ensures both { IfSome result (λ both. (both.from < both.to) × ((n : ℕ)
        → (HasIn spans.new.items n ⊎ ((both.from ≤ n) × (n < both.to)))
        ↔ (HasIn spans.old.items n ⊎ ((span.now.from ≤ n) × (n < span.now.to))))) }
    ensures none { IfNone result ((spans.new.items ≡ spans.old.items)
        × ((met : SpanOf) → value_at spans.old.items met.from ≡ Some met.to
        → ¬ Meets span.now met)) }
    ensures fewer { IsSome result → vec_len spans.new < vec_len spans.old }
{
    let met = find_met(spans, span)?;
    take(spans, met.from);
    Some(Span {
        from: span.from.min(met.from),
        to: span.to.max(met.to),
    })
}
