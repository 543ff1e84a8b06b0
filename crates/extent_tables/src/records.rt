//! The maps that the records of a chain say. A record here has one row.

use crate::words::{field_of, push_map};
use extent_records::{ExtentField, HoleField, Record, read_map};
use std::alloc::Global;

/// A row that names nothing.
static NO_EXTENT: ExtentField = ExtentField {
    page: 0,
    count: 0,
    vol: 0,
    first: 0,
};

/// Holes of a chain's cell.
fn holes(row: ExtentField) -> Record {
    let mut rows = [HoleField { page: 0, count: 0 }; 16];
    rows[0] = HoleField {
        page: row.page,
        count: row.count,
    };
    Record::Holes { rows }
}

/// The record that a text says: its kind and the pages of its row.
fn record_of(text: &str) -> Option<Record> {
    let (kind, pages) = text.split_once(' ')?;
    let row = field_of(pages)?;
    let rows = [row, NO_EXTENT, NO_EXTENT, NO_EXTENT];
    match kind {
        "short" => Some(Record::ShortExtents { rows }),
        "short-dense" => Some(Record::ShortDense { rows }),
        "holes" => Some(holes(row)),
        _ => None,
    }
}

/// Says the map that two records say, if they say one.
fn push_read(alloc: Global, one: &Record, other: &Record, out: &mut String) -> Option<()> {
    match read_map(alloc, &[*one, *other]) {
        Ok(Some(map)) => push_map(&map, out).ok(),
        Ok(None) => out.push_str("no map").ok(),
        Err(_) => None,
    }
}

/// Says the map that records say, if they say one.
pub fn read(alloc: Global, text: &str, out: &mut String) -> Option<()> {
    let (one, other) = text.split_once(", ")?;
    push_read(alloc, &record_of(one)?, &record_of(other)?, out)
}
