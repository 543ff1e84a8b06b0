//! Sorted lists that stand for maps and sets: entries by their keys, values by their numbers, sets
//! of homes, and sets of numbers kept as the spans that they make.
#![tactic(auto)]

mod doubled;
pub mod entries;
mod home_set;
mod homes;
pub mod numbered;
mod span;
mod span_search;
mod span_set;

pub use doubled::find_doubled;
pub use home_set::HomeSet;
pub use homes::home_number;
pub use span::Span;
pub use span_set::SpanSet;

// What stands below and is named above.
pub use domain_base::{
    CellAt, Failed, FilesetNo, Home, Kind, OutOfMemory, Page, Tag, Version, VolIx, gate, limits,
};
