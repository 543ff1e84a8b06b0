//! What is read of a fileset.
use filesets_reading::{FilesetName, Home, RecordList, SeenPages, Tag};

/// A file or directory with its tag, and the homes of the pages of its index in their order; a
/// clone has none.
#[derive(Drop)]
pub struct TaggedFile {
    pub tag: Tag,
    pub seen: SeenPages,
    pub index: Vec<Home>,
}

/// A fileset: the name of its original if it is a clone, its files and directories, and the records
/// of its quota cells, which say the limits of users and groups.
#[derive(Drop)]
pub struct FilesetSeen {
    pub original: Option<FilesetName>,
    pub files: Vec<TaggedFile>,
    pub quotas: RecordList,
}
