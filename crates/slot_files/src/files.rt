//! What is read of a file or directory whose first cell stands at a place.
ghost use Rattle.std.specs.Prelude.{IfOk, IfSome};
ghost use Rattle.index_row_faults.specs.filesets_reading.Chains.{HasLinks};
ghost use Rattle.index_row_faults.specs.page_ways.Frame.{frame_in};
ghost use Rattle.slot_files.specs.Files.{HasPagesAt, HasWholeSource, IsBegun, IsOfClone, IsOfOriginal, IsReadAt, IsReadThrough, IsSameFile, IsThrough, IsWhole, ReadsSo, kept_homes};

use crate::chains::{look_at_source, places_at, source_places};
use crate::homes::{homes_before, homes_read};
use crate::members::member_homes;
use crate::records::{
    attributes_at, first_record, frozen_at, is_in_sync, is_removed_at, keep_at, parent_at,
    source_at,
};
use crate::said::{SaidHome, SaidPlace};
use crate::sizes::{has_two, has_wrong_size};
use index_row_faults::{
    Attributes, CellAt, DomainFrame, FileThere, Kind, MetaPages, OutOfMemory, SeenPages, Tag,
};
use std::alloc::Global;

/// A file with this tag and first cell. No pages of it are read.
fn file_there<M: MetaPages>(
    alloc: Global,
    pages: &M,
    tag: Tag,
    at: &CellAt,
    is: &Attributes,
) -> FileThere
    ensures { IsBegun (M.pages pages.now) tag at.now is.now result }
{
    FileThere {
        tag,
        at: *at,
        seen: SeenPages {
            is: *is,
            homes: Vec::new(alloc),
        },
        parent: parent_at(pages, at),
        has_wrong_size: false,
        has_second_page: false,
    }
}

/// A directory with this tag and first cell, by where its cells have its pages and at which homes
/// it has them.
fn directory_there(
    alloc: Global,
    frame: &DomainFrame,
    mut file: FileThere,
    places: &[SaidPlace],
    homes: &[Option<SaidHome>],
) -> Result<FileThere, OutOfMemory>
    ensures same { IfOk result (λ found. IsSameFile found file) }
    ensures pages { IfOk result (HasPagesAt (frame_in frame.now) places.now homes.now) }
{
    file.has_wrong_size = has_wrong_size(places, homes, file.seen.is.size);
    file.has_second_page = has_two(homes);
    file.seen.homes = member_homes(alloc, frame, homes)?;
    Ok(file)
}

/// The file or directory of an original with these attributes and this number of kept pages.
fn original_there<M: MetaPages>(
    alloc: Global,
    pages: &M,
    frame: &DomainFrame,
    tag: Tag,
    at: &CellAt,
    is: &Attributes,
    keep: u32,
) -> Result<FileThere, OutOfMemory>
    requires { IsWhole (M.pages pages.now) at.now }
    ensures { IfOk result (IsReadAt (M.pages pages.now) (frame_in frame.now) tag at.now is.now
        (kept_homes keep)) }
{
    let file = file_there(alloc, pages, tag, at, is);
    if matches!(is.kind, Kind::File) {
        return Ok(file);
    }
    let places = places_at(alloc, pages, at)?;
    let homes = homes_before(alloc, &places, keep)?;
    directory_there(alloc, frame, file, &places, &homes)
}

/// The file or directory of a clone's own cells that has these attributes and is read through the
/// source at a place.
fn own_there<M: MetaPages>(
    alloc: Global,
    pages: &M,
    frame: &DomainFrame,
    tag: Tag,
    at: &CellAt,
    is: &Attributes,
    from: &Option<CellAt>,
) -> Result<FileThere, OutOfMemory>
    requires whole { IsWhole (M.pages pages.now) at.now }
    requires source { IfSome from.now (IsWhole (M.pages pages.now)) }
    requires links { IfSome from.now (HasLinks (M.pages pages.now)) }
    ensures { IfOk result (IsReadThrough (M.pages pages.now) (frame_in frame.now) tag at.now is.now
        from.now) }
{
    let file = file_there(alloc, pages, tag, at, is);
    if matches!(is.kind, Kind::File) {
        return Ok(file);
    }
    let own = places_at(alloc, pages, at)?;
    let source = source_places(alloc, pages, from)?;
    let homes = homes_read(alloc, &own, &source, frozen_at(pages, at))?;
    directory_there(alloc, frame, file, &own, &homes)
}

/// The file or directory as an original has it. None if and only if it is to be removed.
pub(crate) fn read_original_at<M: MetaPages>(
    alloc: Global,
    pages: &M,
    frame: &DomainFrame,
    tag: Tag,
    at: &CellAt,
) -> Result<Option<FileThere>, OutOfMemory>
    requires links { HasLinks (M.pages pages.now) at.now }
    requires whole { IsWhole (M.pages pages.now) at.now }
    ensures { IfOk result (ReadsSo (frame_in frame.now) tag
        (IsOfOriginal (M.pages pages.now) at.now)) }
{
    if is_removed_at(pages, at) {
        return Ok(None);
    }
    let Some(is) = attributes_at(pages, at) else {
        return Ok(None);
    };
    let Some(keep) = keep_at(pages, at) else {
        return Ok(None);
    };
    let file = original_there(alloc, pages, frame, tag, at, &is, keep)?;
    Ok(Some(file))
}

/// The file or directory of a clone's own cells. None if and only if it is to be removed.
pub(crate) fn read_own_at<M: MetaPages>(
    alloc: Global,
    pages: &M,
    frame: &DomainFrame,
    tag: Tag,
    at: &CellAt,
) -> Result<Option<FileThere>, OutOfMemory>
    requires links { HasLinks (M.pages pages.now) at.now }
    requires whole { IsWhole (M.pages pages.now) at.now }
    requires source { HasWholeSource (M.pages pages.now) at.now }
    ensures { IfOk result (ReadsSo (frame_in frame.now) tag
        (IsOfClone (M.pages pages.now) at.now)) }
{
    if is_removed_at(pages, at) {
        return Ok(None);
    }
    let Some(is) = attributes_at(pages, at) else {
        return Ok(None);
    };
    let from = source_at(pages, at);
    look_at_source(alloc, pages, &from)?;
    let file = own_there(alloc, pages, frame, tag, at, &is, &from)?;
    Ok(Some(file))
}

/// The file or directory of an original that the clone of that number has, too. None if and only if
/// it was made after the clone, is out of sync with it, or is to be removed.
pub(crate) fn read_through_at<M: MetaPages>(
    alloc: Global,
    pages: &M,
    frame: &DomainFrame,
    number: u64,
    tag: Tag,
    at: &CellAt,
) -> Result<Option<FileThere>, OutOfMemory>
    requires links { HasLinks (M.pages pages.now) at.now }
    requires whole { IsWhole (M.pages pages.now) at.now }
    ensures { IfOk result (ReadsSo (frame_in frame.now) tag
        (IsThrough (M.pages pages.now) number at.now)) }
{
    let Some(value) = first_record(pages, at, 1) else {
        return Ok(None);
    };
    if !is_in_sync(number, &value) {
        return Ok(None);
    }
    read_original_at(alloc, pages, frame, tag, at)
}
