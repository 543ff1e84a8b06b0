//! What the first cell of a file says.
ghost use Rattle.std.specs.Prelude.{◌≡◌, IsTrue, List, true};
ghost use Rattle.index_row_faults.specs.metadata_cells.Chain.{LinksFrom, PlacedCell};
ghost use Rattle.index_row_faults.specs.fileset_files.Files.{attributes_in as attributes_there, attributes_of, first_record as first_there, is_removed, keep_in as keep_there, keep_of};
ghost use Rattle.index_row_faults.specs.fileset_files.State.{parent_in as parent_there, parent_of};
ghost use Rattle.index_row_faults.specs.domain_layout.Seen.{frozen_in as frozen_there, frozen_of, is_in_sync as in_sync_there, source_in as source_there, source_of};
ghost use Rattle.index_row_faults.specs.filesets_reading.Chains.{HasLinks};
ghost use Rattle.index_row_faults.specs.fileset_shapes.Clones.{HasVolume};

use index_row_faults::{
    Attributes, CellAt, Kind, Leftover, MetaPages, Record, Tag, VolIx, find_record,
};

/// The first record of a kind in the first cell of a file, which stands there.
pub(crate) fn first_record<M: MetaPages>(pages: &M, at: &CellAt, kind: u8) -> Option<Record>
    ensures { (cells : List PlacedCell) → LinksFrom (M.pages pages.now) at.now cells
        → result ≡ first_there kind cells }
{
    find_record(pages, *at, kind)
}

/// What a record says of its file, if it is one of attributes.
fn attributes_in(value: &Record) -> Option<Attributes>
    ensures { result ≡ attributes_there value.now }
{
    match value {
        Record::Attributes {
            kind,
            uid,
            gid,
            flags,
            size,
            links,
            ..
        } => Some(Attributes {
            kind: if *kind == 2 {
                Kind::Directory
            } else {
                Kind::File
            },
            uid: *uid,
            gid: *gid,
            is_logged: *flags == 1,
            size: *size,
            links: *links,
        }),
        _ => None,
    }
}

/// What the file is.
pub(crate) fn attributes_at<M: MetaPages>(pages: &M, at: &CellAt) -> Option<Attributes>
    ensures { (cells : List PlacedCell) → LinksFrom (M.pages pages.now) at.now cells
        → result ≡ attributes_of cells }
{
    attributes_in(&first_record(pages, at, 1)?)
}

/// How many pages a file keeps, by its record of attributes.
fn keep_in(value: &Record) -> Option<u32>
    ensures { result ≡ keep_there value.now }
{
    match value {
        Record::Attributes { keep, .. } => Some(*keep),
        _ => None,
    }
}

/// How many of its pages the file keeps.
pub(crate) fn keep_at<M: MetaPages>(pages: &M, at: &CellAt) -> Option<u32>
    ensures { (cells : List PlacedCell) → LinksFrom (M.pages pages.now) at.now cells
        → result ≡ keep_of cells }
{
    keep_in(&first_record(pages, at, 1)?)
}

/// Whether the file is to be removed.
pub(crate) fn is_removed_at<M: MetaPages>(pages: &M, at: &CellAt) -> bool
    ensures { (cells : List PlacedCell) → LinksFrom (M.pages pages.now) at.now cells
        → result ≡ is_removed cells }
{
    match first_record(pages, at, 6) {
        Some(Record::Pending { what }) => matches!(what, Leftover::Remove),
        _ => false,
    }
}

/// The directory that a record says, if it is one of a parent.
fn parent_in(value: &Record) -> Option<Tag>
    ensures { result ≡ parent_there value.now }
{
    match value {
        Record::Parent { slot, seq } => Some(Tag {
            slot: *slot,
            seq: *seq,
        }),
        _ => None,
    }
}

/// The directory that it says to stand in, if it says one.
pub(crate) fn parent_at<M: MetaPages>(pages: &M, at: &CellAt) -> Option<Tag>
    ensures { (cells : List PlacedCell) → LinksFrom (M.pages pages.now) at.now cells
        → result ≡ parent_of cells }
{
    parent_in(&first_record(pages, at, 10)?)
}

/// The first cell of the file through which one is read, by a record of a clone's file.
fn source_in(value: &Record) -> Option<CellAt>
    requires { HasVolume value.now }
    ensures { result ≡ source_there value.now }
{
    match value {
        Record::CloneFile {
            source_vol,
            source_cell,
            source_page,
            ..
        } => Some(CellAt {
            vol: VolIx::new(u32::from(*source_vol))?,
            page: *source_page,
            cell: *source_cell,
        }),
        _ => None,
    }
}

/// The first cell of the file through which the clone's file is read, if it still is.
pub(crate) fn source_at<M: MetaPages>(pages: &M, at: &CellAt) -> Option<CellAt>
    requires { HasLinks (M.pages pages.now) at.now }
    ensures { (cells : List PlacedCell) → LinksFrom (M.pages pages.now) at.now cells
        → result ≡ source_of cells }
{
    source_in(&first_record(pages, at, 2)?)
}

/// How many pages the file had when it was cloned, by a record of a clone's file.
fn frozen_in(value: &Record) -> u32
    ensures { result ≡ frozen_there value.now }
{
    match value {
        Record::CloneFile { frozen, .. } => *frozen,
        _ => 0,
    }
}

/// How many pages the file had when it was cloned.
pub(crate) fn frozen_at<M: MetaPages>(pages: &M, at: &CellAt) -> u32
    ensures { (cells : List PlacedCell) → LinksFrom (M.pages pages.now) at.now cells
        → result ≡ frozen_of cells }
{
    match first_record(pages, at, 2) {
        Some(value) => frozen_in(&value),
        None => 0,
    }
}

/// Whether a record of attributes says that its file was there when the clone of that number was
/// made, and has not gone out of sync with it.
pub(crate) fn is_in_sync(number: u64, value: &Record) -> bool
    ensures { result ≡ in_sync_there number value.now }
{
    match value {
        Record::Attributes {
            birth,
            unsynced,
            ..
        } => *birth < number && *unsynced != number,
        _ => false,
    }
}
