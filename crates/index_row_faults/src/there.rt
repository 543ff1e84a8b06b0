//! What is read of an index for the rules of its entries.
use page_faults::{Home, Tag};

/// An index that a file or directory of a fileset names: its tag, the first page, how many
/// entries the record says, and whether it may be there at all: whether it belongs to a directory
/// of more than one page.
#[derive(Drop)]
pub struct IndexThere {
    pub tag: Tag,
    pub first: Home,
    pub total: u32,
    pub may_be: bool,
}
