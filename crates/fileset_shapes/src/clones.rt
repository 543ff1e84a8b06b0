//! A file or directory as a clone has it.
ghost use Rattle.std.specs.Prelude.{◌≡◌, IfOk, IfSome};
ghost use Rattle.std.specs.Option.{option_and_then};
ghost use Rattle.filesets_reading.specs.fileset_files.Files.{AreFiles, Chains};
ghost use Rattle.filesets_reading.specs.domain_layout.Seen.{is_in_sync as in_sync_there, seen_through};
ghost use Rattle.filesets_reading.specs.Seen.{HasFewHomes, IsSeenThere};
ghost use Rattle.fileset_shapes.specs.Clones.{AreFilesOf, AreOfClone, ReadsOfClone};

use crate::files::FilesetFiles;
use crate::own::read_own;
use crate::sources::first_record;
use filesets_reading::{MetaPages, OutOfMemory, Record, SeenPages, Tag, read_original};
use std::alloc::Global;

/// Whether a record of attributes says that its file was there when the clone of that number was
/// made, and has not gone out of sync with it.
fn is_in_sync(number: u64, value: &Record) -> bool
    ensures { result ≡ in_sync_there number value.now }
{
    match value {
        Record::Attributes {
            birth,
            unsynced,
            ..
        } => *birth < number && *unsynced != number,
        _ => false,
    }
}

/// The file of an original that the clone of that number has, too. None if and only if the original
/// has none there, or it was made after the clone, or it is out of sync.
fn read_through<M: MetaPages>(
    alloc: Global,
    pages: &M,
    original: &FilesetFiles,
    number: u64,
    tag: Tag,
) -> Result<Option<SeenPages>, OutOfMemory>
    requires { AreFilesOf (M.pages pages.now) original.now }
    ensures seen { (chains : Chains)
        → AreFiles original.now.files.fileset original.now.tags (M.pages pages.now) chains
        → IfOk result (IsSeenThere (option_and_then (seen_through number) (chains tag))) }
    ensures few { IfOk result (λ found. IfSome found HasFewHomes) }
{
    let Some(at) = original.tags.look(pages, tag) else {
        return Ok(None);
    };
    match first_record(pages, &at, 1) {
        Some(value) if is_in_sync(number, &value) => {
            read_original(alloc, pages, &original.files, tag)
        }
        _ => Ok(None),
    }
}

/// The file or directory that the clone with that number has at a tag, with the home at which each
/// of its pages is read: that of its own cells if it has some there, otherwise the original's. None
/// if and only if the clone has none: there is none in either, its own is to be removed, or the
/// original's was made later or is out of sync.
pub fn read_of_clone<M: MetaPages>(
    alloc: Global,
    pages: &M,
    clone: &FilesetFiles,
    original: &FilesetFiles,
    number: u64,
    tag: Tag,
) -> Result<Option<SeenPages>, OutOfMemory>
    requires { AreOfClone (M.pages pages.now) clone.now original.now number }
    ensures seen { (own behind : Chains)
        → AreFiles clone.now.files.fileset clone.now.tags (M.pages pages.now) own
        → AreFiles original.now.files.fileset original.now.tags (M.pages pages.now) behind
        → IfOk result (ReadsOfClone (M.pages pages.now) number (own tag) (behind tag)) }
    ensures few { IfOk result (λ found. IfSome found HasFewHomes) }
{
    match clone.tags.look(pages, tag) {
        Some(at) => read_own(alloc, pages, clone, tag, &at),
        None => read_through(alloc, pages, original, number, tag),
    }
}
