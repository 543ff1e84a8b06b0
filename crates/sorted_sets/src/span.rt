//! Spans of numbers.

/// Numbers from one on, up to another that is not among them.
#[derive(Clone, Copy, Debug, PartialEq, Eq)]
pub struct Span {
    pub from: u64,
    pub to: u64,
}
