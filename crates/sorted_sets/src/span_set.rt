//! A set of numbers.
ghost use Rattle.sorted_sets.specs.Rising.{IsRising};
ghost use Rattle.sorted_sets.specs.Spans.{AreSpans};

use crate::numbered::put;
use crate::span::Span;
use crate::span_search::{find_met, take_met};
use domain_base::OutOfMemory;
use std::alloc::Global;

/// Numbers, as spans that share no number, in their order. Each is kept under its first number,
/// with the number after its last.
#[derive(Drop)]
pub struct SpanSet {
    spans: Vec<(u64, u64)>,
    ghost rising: { IsRising spans.items },
    ghost apart: { AreSpans spans.items },
}

impl SpanSet {
    ghost use Rattle.std.specs.Prelude.{◌↔◌, ◌⊎◌, ◌≤◌, ◌<◌, ℕ, IsTrue, OnOk};
    ghost use Rattle.sorted_sets.specs.SpanMembers.{HasNumber, HasAnyOf, IsOf};

    /// The empty set.
    pub fn new(alloc: Global) -> SpanSet
        ensures { (n : ℕ) → ¬ HasNumber result n }
    {
        SpanSet {
            spans: Vec::new(alloc),
        }
    }

    /// Whether a number of a span is in the set.
    pub fn has_one(&self, span: &Span) -> bool
        ensures { IsTrue result ↔ ((n : ℕ) × IsOf span.now n × HasNumber self.now n) }
    {
        span.from < span.to && find_met(&self.spans, span).is_some()
    }

    /// Whether a number of some of the spans is in the set.
    pub fn has_any(&self, spans: &[Span]) -> bool
        ensures { IsTrue result ↔ ((n : ℕ) × HasAnyOf spans.now n × HasNumber self.now n) }
    {
        for span in spans {
            if self.has_one(span) {
                return true;
            }
        }
        false
    }

    /// Puts the numbers of a span into the set.
    pub fn insert(&mut self, span: &Span) -> Result<(), OutOfMemory>
        ensures { OnOk result ((n : ℕ) → HasNumber self.new n
            ↔ (HasNumber self.old n ⊎ IsOf span.now n)) }
    {
        if span.to <= span.from {
            return Ok(());
        }
        let mut whole = *span;
        while let Some(both) = take_met(&mut self.spans, &whole) {
            whole = both;
        }
        put(&mut self.spans, whole.from, whole.to)
    }

    /// Puts the numbers of the spans into the set.
    pub fn insert_all(&mut self, spans: &[Span]) -> Result<(), OutOfMemory>
        ensures { OnOk result ((n : ℕ) → HasNumber self.new n
            ↔ (HasNumber self.old n ⊎ HasAnyOf spans.now n)) }
    {
        for span in spans {
            self.insert(span)?;
        }
        Ok(())
    }
}
