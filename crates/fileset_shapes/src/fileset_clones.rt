//! A file or directory of a clone, with its tag.
ghost use Rattle.std.specs.Prelude.{IfOk};
ghost use Rattle.fileset_shapes.specs.Files.{AreClones, ReadsCloneAt};

use crate::found::TaggedFile;
use crate::{FilesetFiles, read_of_clone};
use filesets_reading::{MetaPages, OutOfMemory, Tag};
use std::alloc::Global;

/// The file or directory that the clone with that number has at a tag, with the home at which each
/// of its pages is read; no index of a clone is read. None if and only if the clone has nothing at
/// the tag.
pub(crate) fn read_clone_at<M: MetaPages>(
    alloc: Global,
    pages: &M,
    own: &FilesetFiles,
    behind: &FilesetFiles,
    number: u64,
    tag: Tag,
) -> Result<Option<TaggedFile>, OutOfMemory>
    requires { AreClones (M.pages pages.now) own.now behind.now number }
    ensures { IfOk result (ReadsCloneAt (M.pages pages.now) own.now behind.now number tag) }
{
    let Some(seen) = read_of_clone(alloc, pages, own, behind, number, tag)? else {
        return Ok(None);
    };
    Ok(Some(TaggedFile {
        tag,
        seen,
        index: Vec::new(alloc),
    }))
}
