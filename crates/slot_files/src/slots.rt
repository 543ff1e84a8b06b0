//! The files and directories of the fileset in a slot.
ghost use Rattle.std.specs.Prelude.{◌≡◌, ◌≤◌, IfOk, Some, length, slice_get};
ghost use Rattle.index_row_faults.specs.tag_dirs.Directory.{IsDirectory};
ghost use Rattle.index_row_faults.specs.domain_layout.Faults.{HasNoTablesFault};
ghost use Rattle.index_row_faults.specs.filesets_reading.Chains.{IsUnbroken};
ghost use Rattle.index_row_faults.specs.filesets_reading.Tables.{AreTablesOf};
ghost use Rattle.index_row_faults.specs.page_ways.Frame.{frame_in};
ghost use Rattle.index_row_faults.specs.directory_faults.There.{AreFilesIn};
ghost use Rattle.slot_files.specs.Files.{AreAllSo, HasCloneAt, HasOriginalAt, HaveWholeSources, IsInClone, IsInOriginal};

use crate::tags::{read_in_clone, read_in_original};
use index_row_faults::{
    DomainFrame, DomainTables, FileThere, FilesetNo, MetaPages, OutOfMemory, SlotItem, TagDir,
    tags_of_both, used_tags,
};
use std::alloc::Global;

/// All files and directories of an original with this tag directory.
fn read_original_files<M: MetaPages>(
    alloc: Global,
    pages: &M,
    frame: &DomainFrame,
    dir: &TagDir,
) -> Result<Vec<FileThere>, OutOfMemory>
    requires directory { IsDirectory (M.pages pages.now) dir.now }
    requires whole { IsUnbroken (M.pages pages.now) dir.now }
    ensures { IfOk result (λ files. AreAllSo (frame_in frame.now)
        (IsInOriginal (M.pages pages.now) dir.now) files.items) }
{
    let tags = used_tags(alloc, pages, dir)?;
    let mut files = Vec::new(alloc);
    for i in 0..tags.len() {
        if let Some(file) = read_in_original(alloc, pages, frame, dir, tags[i])? {
            files.push(file)?;
        }
    }
    Ok(files)
}

/// All files and directories of the clone of that number, by its own tag directory and that of its
/// original.
fn read_clone_files<M: MetaPages>(
    alloc: Global,
    pages: &M,
    frame: &DomainFrame,
    own: &TagDir,
    behind: &TagDir,
    number: u64,
) -> Result<Vec<FileThere>, OutOfMemory>
    requires own { IsDirectory (M.pages pages.now) own.now }
    requires behind { IsDirectory (M.pages pages.now) behind.now }
    requires whole { IsUnbroken (M.pages pages.now) own.now }
    requires sources { HaveWholeSources (M.pages pages.now) own.now }
    requires behind_whole { IsUnbroken (M.pages pages.now) behind.now }
    ensures { IfOk result (λ files. AreAllSo (frame_in frame.now)
        (IsInClone (M.pages pages.now) own.now behind.now number) files.items) }
{
    let tags = tags_of_both(alloc, pages, own, behind)?;
    let mut files = Vec::new(alloc);
    for i in 0..tags.len() {
        if let Some(file) = read_in_clone(alloc, pages, frame, own, behind, number, tags[i])? {
            files.push(file)?;
        }
    }
    Ok(files)
}

/// The tag directory of what is in a slot.
fn tags_of(tables: &DomainTables, number: FilesetNo) -> &TagDir
    requires { 32 ≤ length tables.now.tags.items }
    ensures { slice_get tables.now.tags.items number ≡ Some result.now }
{
    &tables.tags[number.number() as usize]
}

/// All files and directories of the clone in a slot, which has that number and is a clone of the
/// original in another slot.
fn read_clone_slot<M: MetaPages>(
    alloc: Global,
    pages: &M,
    frame: &DomainFrame,
    tables: &DomainTables,
    number: FilesetNo,
    of: FilesetNo,
    clone: u64,
) -> Result<Vec<FileThere>, OutOfMemory>
    requires tables { AreTablesOf (M.pages pages.now) (frame_in frame.now) tables.now }
    requires no_fault { HasNoTablesFault (M.pages pages.now) (frame_in frame.now) }
    requires clone { HasCloneAt tables.now.filesets number of clone }
    ensures { IfOk result (λ files. AreFilesIn (M.pages pages.now) (frame_in frame.now)
        tables.now.filesets number files.items) }
{
    let own = tags_of(tables, number);
    let behind = tags_of(tables, of);
    read_clone_files(alloc, pages, frame, own, behind, clone)
}

/// All files and directories of the original in a slot.
fn read_original_slot<M: MetaPages>(
    alloc: Global,
    pages: &M,
    frame: &DomainFrame,
    tables: &DomainTables,
    number: FilesetNo,
) -> Result<Vec<FileThere>, OutOfMemory>
    requires tables { AreTablesOf (M.pages pages.now) (frame_in frame.now) tables.now }
    requires no_fault { HasNoTablesFault (M.pages pages.now) (frame_in frame.now) }
    requires original { HasOriginalAt tables.now.filesets number }
    ensures { IfOk result (λ files. AreFilesIn (M.pages pages.now) (frame_in frame.now)
        tables.now.filesets number files.items) }
{
    read_original_files(alloc, pages, frame, tags_of(tables, number))
}

/// All files and directories of the fileset in a slot, each once; none if no fileset is in it, or
/// one that is being removed.
pub fn read_slot_files<M: MetaPages>(
    alloc: Global,
    pages: &M,
    frame: &DomainFrame,
    tables: &DomainTables,
    number: FilesetNo,
) -> Result<Vec<FileThere>, OutOfMemory>
    requires tables { AreTablesOf (M.pages pages.now) (frame_in frame.now) tables.now }
    requires no_fault { HasNoTablesFault (M.pages pages.now) (frame_in frame.now) }
    ensures { IfOk result (λ files. AreFilesIn (M.pages pages.now) (frame_in frame.now)
        tables.now.filesets number files.items) }
{
    match tables.filesets.slot(number) {
        SlotItem::Free => Ok(Vec::new(alloc)),
        SlotItem::Removed { .. } => Ok(Vec::new(alloc)),
        SlotItem::Original { .. } => read_original_slot(alloc, pages, frame, tables, number),
        SlotItem::Clone {
            original,
            number: clone,
            ..
        } => read_clone_slot(alloc, pages, frame, tables, number, *original, *clone),
    }
}
