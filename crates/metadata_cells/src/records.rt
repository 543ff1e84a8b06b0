//! The records of a cell, read one after the other.
ghost use Rattle.std.specs.Prelude.{◌≡◌, List, length, IfOk};
ghost use Rattle.cell_records.specs.declared.record.Record.{Record as RecordOf};
ghost use Rattle.metadata_cells.specs.Cell.{AreRecords, id_of as id_there, place_of as place_there, record_of, spellings};
ghost use Rattle.metadata_cells.specs.Reading.{ReadsRecords, ReadsCell};

use crate::head::CellHead;
use crate::reading::head_of;
use cell_records::{Record, are_zeros, read_record};
use page_store::{OutOfMemory, Version};

/// The id of a quota's limits, or 0 for other records.
fn id_of(record: &Record) -> u32
    ensures { result ≡ id_there record.now }
{
    match record {
        Record::UserQuota { id, .. } | Record::GroupQuota { id, .. } => *id,
        _ => 0,
    }
}

/// Where a record stands among those of its cell: by kind, and then by id.
fn place_of(record: &Record) -> u64
    ensures { result ≡ place_there record.now }
{
    (u64::from(record.kind()) << 32) + u64::from(id_of(record))
}

/// Reads the records in the bytes, and appends them. Returns whether the bytes are records that a
/// cell may have.
pub(crate) fn read_records(bytes: &[u8], found: &mut Vec<Record>) -> Result<bool, OutOfMemory>
    ensures { IfOk result (ReadsRecords bytes.now found.old.items found.new.items) }
{
    let mut at = 0;
    let mut last = 0;
    while at < bytes.len() {
        let Ok((record, length)) = read_record(&bytes[at..], Version::Four) else {
            return Ok(false);
        };
        let place = place_of(&record);
        if place <= last {
            return Ok(false);
        }
        found.push(record)?;
        last = place;
        at += length;
    }
    Ok(true)
}

/// Reads a cell of 292 bytes: returns its head, if it is a cell in use, and appends its records.
pub(crate) fn read_cell(
    cell: &[u8],
    found: &mut Vec<Record>,
) -> Result<Option<CellHead>, OutOfMemory>
    requires { length cell.now ≡ 292 }
    ensures { IfOk result (ReadsCell cell.now found.old.items found.new.items) }
{
    let Some((head, size)) = head_of(cell) else {
        return Ok(None);
    };
    if !are_zeros(&cell[20 + size..]) {
        return Ok(None);
    }
    let whole = read_records(&cell[20..20 + size], found)?;
    Ok(if whole { Some(head) } else { None })
}

/// The first record of a kind among those in the bytes.
pub(crate) fn first_record(bytes: &[u8], kind: u8) -> Option<Record>
    ensures { (records : List RecordOf) → AreRecords records → bytes.now ≡ spellings records
        → result ≡ record_of kind records }
{
    let mut at = 0;
    while at < bytes.len() {
        let Ok((record, length)) = read_record(&bytes[at..], Version::Four) else {
            return None;
        };
        if record.kind() == kind {
            return Some(record);
        }
        at += length;
    }
    None
}
