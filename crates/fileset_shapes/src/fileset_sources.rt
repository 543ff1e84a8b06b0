//! All files and directories of a fileset.
ghost use Rattle.std.specs.Prelude.{◌⊎◌, IfOk};
ghost use Rattle.filesets_reading.specs.tag_dirs.Directory.{IsDirectory};
ghost use Rattle.fileset_shapes.specs.Sources.{AreAllOf, HasTag, IsSource, ReadsAt};
ghost use Rattle.fileset_shapes.specs.Tags.{IsUsed, ListsOnce};

use crate::FilesetFiles;
use crate::fileset_clones::read_clone_at;
use crate::found::TaggedFile;
use crate::originals::read_original_at;
use crate::tags::used_tags;
use filesets_reading::{MetaPages, OutOfMemory, Tag, TagDir};
use std::alloc::Global;

/// The source from which the files of a fileset are read.
#[derive(Drop)]
pub(crate) enum FilesetSource {
    /// The files of an original.
    Original {
        files: FilesetFiles,
    },
    /// The files of the clone with this number, and those of its original.
    Clone {
        own: FilesetFiles,
        behind: FilesetFiles,
        number: u64,
    },
}

/// The tags that two tag directories have in use, each once.
pub fn tags_of_both<M: MetaPages>(
    alloc: Global,
    pages: &M,
    own: &TagDir,
    behind: &TagDir,
) -> Result<Vec<Tag>, OutOfMemory>
    requires own { IsDirectory (M.pages pages.now) own.now }
    requires behind { IsDirectory (M.pages pages.now) behind.now }
    ensures { IfOk result (λ tags. ListsOnce (λ tag. IsUsed (M.pages pages.now) own.now tag
        ⊎ IsUsed (M.pages pages.now) behind.now tag) tags.items) }
{
    let mut tags = used_tags(alloc, pages, own)?;
    let more = used_tags(alloc, pages, behind)?;
    for i in 0..more.len() {
        let tag = more[i];
        if own.look(pages, tag).is_none() {
            tags.push(tag)?;
        }
    }
    Ok(tags)
}

/// The tags at which a fileset may have something, each once.
fn tags_of<M: MetaPages>(
    alloc: Global,
    pages: &M,
    source: &FilesetSource,
) -> Result<Vec<Tag>, OutOfMemory>
    requires { IsSource (M.pages pages.now) source.now }
    ensures { IfOk result (λ tags. ListsOnce (HasTag (M.pages pages.now) source.now) tags.items) }
{
    match source {
        FilesetSource::Original { files } => used_tags(alloc, pages, &files.tags),
        FilesetSource::Clone { own, behind, .. } => {
            tags_of_both(alloc, pages, &own.tags, &behind.tags)
        }
    }
}

/// What a fileset has at a tag.
fn read_at<M: MetaPages>(
    alloc: Global,
    pages: &M,
    source: &FilesetSource,
    tag: Tag,
) -> Result<Option<TaggedFile>, OutOfMemory>
    requires { IsSource (M.pages pages.now) source.now }
    ensures { IfOk result (ReadsAt (M.pages pages.now) source.now tag) }
{
    match source {
        FilesetSource::Original { files } => read_original_at(alloc, pages, files, tag),
        FilesetSource::Clone {
            own,
            behind,
            number,
        } => read_clone_at(alloc, pages, own, behind, *number, tag),
    }
}

/// All files and directories of a fileset.
pub(crate) fn read_files<M: MetaPages>(
    alloc: Global,
    pages: &M,
    source: &FilesetSource,
) -> Result<Vec<TaggedFile>, OutOfMemory>
    requires { IsSource (M.pages pages.now) source.now }
    ensures { IfOk result (λ files. AreAllOf (M.pages pages.now) source.now files.items) }
{
    let tags = tags_of(alloc, pages, source)?;
    let mut files = Vec::new(alloc);
    for i in 0..tags.len() {
        if let Some(file) = read_at(alloc, pages, source, tags[i])? {
            files.push(file)?;
        }
    }
    Ok(files)
}
