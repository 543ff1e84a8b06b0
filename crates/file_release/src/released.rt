//! What a step lets go.

/// What a call let go.
#[derive(Clone, Copy, Debug, PartialEq, Eq)]
pub enum Released {
    /// Nothing: the chain has let go of all that it was asked to let go.
    Nothing,
    /// Pages, which wait or were handed over, and no cell.
    Pages,
    /// A cell, with what pages it still had.
    Cell,
}
