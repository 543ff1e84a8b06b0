//! Two files; the second may read through the first.
use release_steps::CellAt;

/// The first cells of two files that no tag names.
#[derive(Clone, Copy)]
pub struct Pair {
    pub at: CellAt,
    pub clone: CellAt,
}
