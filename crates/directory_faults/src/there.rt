//! What is read of a file for the rules of directories.
use fileset_shapes::{CellAt, SeenPages, Tag};

/// A file or directory of a fileset: its tag, where its first cell stands, what it is, and the
/// directory that it says to stand in, if it says one. For a directory it also has the homes of its
/// pages that are a member's; whether its pages have a gap, its size is not that of its pages, or
/// its cells have pages that it does not keep; and whether it has more pages than one.
#[derive(Drop)]
pub struct FileThere {
    pub tag: Tag,
    pub at: CellAt,
    pub seen: SeenPages,
    pub parent: Option<Tag>,
    pub has_wrong_size: bool,
    pub has_second_page: bool,
}
