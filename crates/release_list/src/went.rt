//! What a step leaves of an entry.

/// What a step took off an entry of the list.
#[derive(Clone, Copy, PartialEq, Eq)]
pub enum Went {
    /// Pages or a cell of its file, and there may be more.
    Part,
    /// Its clone, which no longer reads through its file.
    Reading,
    /// The last thing that was left to be done with its file.
    Last,
    /// Its file, which has nothing left.
    File,
}
