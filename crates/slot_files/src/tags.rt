//! What a fileset has at a tag.
ghost use Rattle.std.specs.Prelude.{IfOk};
ghost use Rattle.index_row_faults.specs.tag_dirs.Directory.{IsDirectory};
ghost use Rattle.index_row_faults.specs.filesets_reading.Chains.{IsUnbroken};
ghost use Rattle.index_row_faults.specs.page_ways.Frame.{frame_in};
ghost use Rattle.slot_files.specs.Files.{HaveWholeSources, IsBehind, IsInClone, IsInOriginal, ReadsSo};

use crate::files::{read_original_at, read_own_at, read_through_at};
use index_row_faults::{
    DomainFrame, FileThere, MetaPages, OutOfMemory, Tag, TagDir, look_at_chain,
};
use std::alloc::Global;

/// What an original with this tag directory has at a tag.
pub(crate) fn read_in_original<M: MetaPages>(
    alloc: Global,
    pages: &M,
    frame: &DomainFrame,
    dir: &TagDir,
    tag: Tag,
) -> Result<Option<FileThere>, OutOfMemory>
    requires directory { IsDirectory (M.pages pages.now) dir.now }
    requires whole { IsUnbroken (M.pages pages.now) dir.now }
    ensures { IfOk result (ReadsSo (frame_in frame.now) tag
        (IsInOriginal (M.pages pages.now) dir.now tag)) }
{
    match dir.look(pages, tag) {
        Some(at) => {
            look_at_chain(alloc, pages, at)?;
            read_original_at(alloc, pages, frame, tag, &at)
        }
        None => Ok(None),
    }
}

/// What the clone of that number has at a tag through its original, by the original's tag
/// directory.
fn read_behind<M: MetaPages>(
    alloc: Global,
    pages: &M,
    frame: &DomainFrame,
    behind: &TagDir,
    number: u64,
    tag: Tag,
) -> Result<Option<FileThere>, OutOfMemory>
    requires directory { IsDirectory (M.pages pages.now) behind.now }
    requires whole { IsUnbroken (M.pages pages.now) behind.now }
    ensures { IfOk result (ReadsSo (frame_in frame.now) tag
        (IsBehind (M.pages pages.now) behind.now number tag)) }
{
    match behind.look(pages, tag) {
        Some(at) => {
            look_at_chain(alloc, pages, at)?;
            read_through_at(alloc, pages, frame, number, tag, &at)
        }
        None => Ok(None),
    }
}

/// What the clone of that number has at a tag, by its own tag directory and that of its original.
pub(crate) fn read_in_clone<M: MetaPages>(
    alloc: Global,
    pages: &M,
    frame: &DomainFrame,
    own: &TagDir,
    behind: &TagDir,
    number: u64,
    tag: Tag,
) -> Result<Option<FileThere>, OutOfMemory>
    requires own { IsDirectory (M.pages pages.now) own.now }
    requires behind { IsDirectory (M.pages pages.now) behind.now }
    requires whole { IsUnbroken (M.pages pages.now) own.now }
    requires sources { HaveWholeSources (M.pages pages.now) own.now }
    requires behind_whole { IsUnbroken (M.pages pages.now) behind.now }
    ensures { IfOk result (ReadsSo (frame_in frame.now) tag
        (IsInClone (M.pages pages.now) own.now behind.now number tag)) }
{
    match own.look(pages, tag) {
        Some(at) => {
            look_at_chain(alloc, pages, at)?;
            read_own_at(alloc, pages, frame, tag, &at)
        }
        None => read_behind(alloc, pages, frame, behind, number, tag),
    }
}
