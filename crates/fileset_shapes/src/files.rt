//! The files of a fileset.
use filesets_reading::{Bitfiles, TagDir};

/// The files of a fileset, and its tag directory, by which the first cell of each is found.
#[derive(Drop)]
pub struct FilesetFiles {
    pub tags: TagDir,
    pub files: Bitfiles,
}
