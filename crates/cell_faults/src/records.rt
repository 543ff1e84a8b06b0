//! Which records a cell has, and which one of its kind may have.
ghost use Rattle.std.specs.Prelude.{◌≡◌, ◌∷◌, [], ◌↔◌, IsTrue, false, not};
ghost use Rattle.std.specs.Option.{option_copied, option_map_or};
ghost use Rattle.std.specs.List.{list_all};
ghost use Rattle.page_ways.specs.cell_records.Records.{kind_of};
ghost use Rattle.page_ways.specs.cell_records.declared.record.Record.TheVariants as written;
ghost use Rattle.page_ways.specs.metadata_cells.Cell.{record_of};
ghost use Rattle.page_ways.specs.fileset_files.Files.{is_first_kind as first_may_have};
ghost use Rattle.page_ways.specs.domain_layout.CellRules.{agree, are_limits as limits_alone, has_first_records as has_first, has_its_kinds as has_kinds, has_kind as has_one, is_chain_records as of_chain, keeps_well as keeps, say_removed, says_directory};

use page_ways::{Leftover, Record};

/// The first record of a kind.
fn find_kind(records: &[Record], kind: u8) -> Option<&Record>
    ensures { option_copied result ≡ record_of kind records.now }
{
    for record in records {
        if record.kind() == kind {
            return Some(record);
        }
    }
    None
}

/// Whether there is a record of a kind.
fn has_kind(records: &[Record], kind: u8) -> bool
    ensures { result ≡ has_one kind records.now }
{
    find_kind(records, kind).is_some()
}

/// Whether the first cell of a file or directory may have records of a kind.
fn may_be_in_first(kind: u8) -> bool
    ensures { result ≡ first_may_have kind }
{
    matches!(kind, 1 | 2 | 4 | 6 | 9 | 10 | 11 | 14)
}

/// Whether there are only records that a first cell may have.
fn may_all_be_in_first(records: &[Record]) -> bool
    ensures { result ≡ list_all (λ r. first_may_have (kind_of r)) records.now }
{
    records.iter().all(|record| may_be_in_first(record.kind()))
}

/// Whether there are plain extents or dense ones, and not both.
fn has_one_kind_of_extents(records: &[Record]) -> bool
    ensures { result ≡ not (agree (has_one 4 records.now) (has_one 14 records.now)) }
{
    has_kind(records, 4) != has_kind(records, 14)
}

/// Whether there are attributes, one record of extents, and otherwise only what a first cell may
/// have.
pub(crate) fn has_first_records(records: &[Record]) -> bool
    ensures { result ≡ has_first records.now }
{
    has_kind(records, 1) && has_one_kind_of_extents(records) && may_all_be_in_first(records)
}

/// Whether all of the file or directory is to be removed.
pub(crate) fn says_removed(records: &[Record]) -> bool
    ensures { result ≡ say_removed records.now }
{
    match find_kind(records, 6) {
        Some(Record::Pending { what }) => matches!(what, Leftover::Remove),
        _ => false,
    }
}

/// Whether the attributes are those of a directory.
fn is_directory(records: &[Record]) -> bool
    ensures { result ≡ option_map_or says_directory (record_of 1 records.now) false }
{
    match find_kind(records, 1) {
        Some(Record::Attributes { kind, .. }) => *kind == 2,
        _ => false,
    }
}

/// Whether the record that only a file or directory of a clone has is there if and only if this is
/// a clone's, and a parent if and only if this is a directory.
pub(crate) fn has_its_kinds(records: &[Record], clone: bool) -> bool
    ensures { result ≡ has_kinds clone records.now }
{
    has_kind(records, 2) == clone && has_kind(records, 10) == is_directory(records)
}

/// Whether all pages are kept, or fewer with something pending.
pub(crate) fn keeps_well(records: &[Record]) -> bool
    ensures { result ≡ option_map_or (λ r. keeps r (has_one 6 records.now))
        (record_of 1 records.now) false }
{
    match find_kind(records, 1) {
        Some(Record::Attributes { keep, .. }) => {
            *keep == 65536 || (*keep < 65536 && has_kind(records, 6))
        }
        Some(_) => true,
        None => false,
    }
}

/// Whether there is only one record, of extents or holes.
pub(crate) fn is_chain_records(records: &[Record]) -> bool
    ensures { result ≡ of_chain records.now }
{
    records.len() == 1 && matches!(records[0].kind(), 3 | 5 | 13)
}

/// Whether there are only limits.
pub(crate) fn are_limits(records: &[Record]) -> bool
    ensures { result ≡ limits_alone records.now }
{
    records
        .iter()
        .all(|record| record.kind() == 7 || record.kind() == 8)
}

/// Whether a record says a volume, and these numbers of pages and of bitmap pages.
fn is_volume(record: &Record, volume: u32, size: u32, bitmap: u32) -> bool
    ensures { IsTrue result ↔ (record.now ≡ written.Volume volume size bitmap) }
{
    match record {
        Record::Volume {
            vol,
            pages,
            bitmap_pages,
        } => *vol == volume && *pages == size && *bitmap_pages == bitmap,
        _ => false,
    }
}

/// Whether the only record says this volume, and these numbers of pages and of bitmap pages.
pub(crate) fn is_volume_alone(records: &[Record], volume: u32, size: u32, bitmap: u32) -> bool
    ensures { IsTrue result ↔ (records.now ≡ written.Volume volume size bitmap ∷ []) }
{
    records.len() == 1 && is_volume(&records[0], volume, size, bitmap)
}
