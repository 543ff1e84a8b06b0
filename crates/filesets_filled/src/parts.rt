//! The rows and the nodes of the files of a fileset.
ghost use Rattle.std.specs.Prelude.{◌≡◌, IfOk};
ghost use Rattle.fileset_shapes.specs.Found.{IsStored};
ghost use Rattle.filesets_filled.specs.Parts.{ArePartsSeen, HasRowPages, IsNodeSeen, MayBeRead, directory_seen, rows_seen};

use fileset_shapes::{
    DirectoryRows, FilesetParts, Kind, MetaPages, OutOfMemory, RowList, TaggedFile, TaggedNode,
    read_node, read_rows,
};
use std::alloc::Global;

/// The rows of a directory; a file has none.
fn read_rows_of<M: MetaPages>(
    alloc: Global,
    pages: &M,
    file: &TaggedFile,
) -> Result<RowList, OutOfMemory>
    requires { HasRowPages (M.pages pages.now) file.now }
    ensures { IfOk result (λ rows. rows ≡ rows_seen (M.pages pages.now) file.now) }
{
    match file.seen.is.kind {
        Kind::Directory => read_rows(alloc, pages, file.seen.homes.as_slice()),
        Kind::File => Ok(RowList::from_vec(Vec::new(alloc))),
    }
}

/// The directory or file with its rows.
fn read_directory<M: MetaPages>(
    alloc: Global,
    pages: &M,
    file: &TaggedFile,
) -> Result<DirectoryRows, OutOfMemory>
    requires { HasRowPages (M.pages pages.now) file.now }
    ensures { IfOk result (λ one. one ≡ directory_seen (M.pages pages.now) file.now) }
{
    Ok(DirectoryRows {
        dir: file.tag,
        rows: read_rows_of(alloc, pages, file)?,
    })
}

/// The file or directory with its bytes.
fn read_tagged<M: MetaPages>(
    alloc: Global,
    pages: &M,
    file: &TaggedFile,
) -> Result<TaggedNode, OutOfMemory>
    requires { IsStored (M.pages pages.now) file.now }
    ensures { IfOk result (IsNodeSeen (M.pages pages.now) file.now) }
{
    Ok(TaggedNode {
        tag: file.tag,
        links: file.seen.is.links,
        node: read_node(alloc, pages, &file.seen)?,
    })
}

/// The rows and the nodes of files, each in their order.
pub(crate) fn read_parts<M: MetaPages>(
    alloc: Global,
    pages: &M,
    files: &[TaggedFile],
) -> Result<FilesetParts, OutOfMemory>
    requires { MayBeRead (M.pages pages.now) files.now }
    ensures { IfOk result (ArePartsSeen (M.pages pages.now) files.now) }
{
    let mut directories = Vec::new(alloc);
    let mut nodes = Vec::new(alloc);
    for file in files {
        directories.push(read_directory(alloc, pages, file)?)?;
        nodes.push(read_tagged(alloc, pages, file)?)?;
    }
    Ok(FilesetParts { directories, nodes })
}
