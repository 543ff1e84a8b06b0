//! A file or directory of an original, with its tag.
ghost use Rattle.std.specs.Prelude.{IfOk};
ghost use Rattle.fileset_shapes.specs.Files.{AreOriginals, ReadsOriginalAt};

use crate::FilesetFiles;
use crate::found::TaggedFile;
use crate::indexes::read_index;
use filesets_reading::{MetaPages, OutOfMemory, Tag, read_original};
use std::alloc::Global;

/// The file or directory that a tag names in an original, with its pages and those of its index.
/// None if and only if it names nothing, or something that is to be removed.
pub(crate) fn read_original_at<M: MetaPages>(
    alloc: Global,
    pages: &M,
    files: &FilesetFiles,
    tag: Tag,
) -> Result<Option<TaggedFile>, OutOfMemory>
    requires { AreOriginals (M.pages pages.now) files.now }
    ensures { IfOk result (ReadsOriginalAt (M.pages pages.now) files.now tag) }
{
    let Some(seen) = read_original(alloc, pages, &files.files, tag)? else {
        return Ok(None);
    };
    let Some(at) = files.tags.look(pages, tag) else {
        unreachable!()
    };
    let index = read_index(alloc, pages, &at)?;
    Ok(Some(TaggedFile { tag, seen, index }))
}
