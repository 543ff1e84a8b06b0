//! A record as the last version writes it.
ghost use Rattle.std.specs.Prelude.{◌≡◌, ◌≤◌, IfOk};
ghost use Rattle.cell_records.specs.Records.{kind_of};
ghost use Rattle.extent_records.specs.Writing.{IsLeastRecord, IsMapRecord, dense_kind, most_rows, places_in};

use crate::changes::map_of;
use crate::listing::holding;
use crate::writing::{empty_extents, empty_holes, empty_short};
use cell_records::from_domain_base::Version;
use cell_records::{OutOfMemory, Record};
use std::alloc::Global;

/// A record that says no page, of the kind that the last version writes in place of a value's.
fn empty_for(value: &Record) -> Record
    requires { 1 ≤ most_rows (kind_of value.now) }
    ensures kind { kind_of result ≡ dense_kind (kind_of value.now) }
    ensures is_map { IsMapRecord result }
{
    match value {
        Record::Extents { .. } | Record::DenseExtents { .. } => empty_extents(Version::Four),
        Record::ShortExtents { .. } | Record::ShortDense { .. } => empty_short(Version::Four),
        _ => empty_holes(),
    }
}

/// The record that says the same pages as the last version writes it. Its rows are dense if the
/// value's are plain extents, and there is always room for them.
pub fn as_dense(alloc: Global, value: &Record) -> Result<Record, OutOfMemory>
    requires { IsMapRecord value.now }
    ensures { IfOk result (IsLeastRecord (dense_kind (kind_of value.now)) (places_in value.now)) }
{
    let map = map_of(alloc, value)?;
    Ok(holding(&empty_for(value), map.runs()))
}
