//! Records and their spellings. A row has the version, bytes in hexadecimal digits, and a number
//! of zeros after them; what is read is the length and the record, or the kind and the place of the
//! field that is wrong. What is read is written again, and has to be the same bytes.

use cell_records::from_domain_base::Version;
use cell_records::{
    Bad, ExtentField, HoleField, Leftover, OutOfMemory, Record, read_record, write_record,
};
use std::alloc::Global;
use table_words::{Told, Words, decode};

/// The bytes that digits spell; none for a dash.
fn digits_of(alloc: Global, digits: &str) -> Option<Vec<u8>> {
    match digits {
        "-" => Some(Vec::new(alloc)),
        _ => decode(alloc, digits).ok(),
    }
}

/// Adds zeros to bytes.
fn push_zeros(bytes: &mut Vec<u8>, zeros: u32) -> Result<(), OutOfMemory> {
    for _ in 0..zeros {
        bytes.push(0)?;
    }
    Ok(())
}

fn tell_numbers(name: &str, numbers: &[u64], told: &mut Told) {
    told.push(name);
    for number in numbers {
        told.push(" ");
        told.push_number(*number);
    }
}

fn tell_extents(name: &str, rows: &[ExtentField], told: &mut Told) {
    told.push(name);
    for row in rows {
        if 0 < row.count {
            told.push_pair(" ", u64::from(row.page), "+", u64::from(row.count));
            told.push_pair("@", u64::from(row.vol), ":", u64::from(row.first));
        }
    }
}

fn tell_holes(rows: &[HoleField], told: &mut Told) {
    told.push("holes");
    for row in rows {
        if 0 < row.count {
            told.push_pair(" ", u64::from(row.page), "+", u64::from(row.count));
        }
    }
}

fn tell_stripe(width: u8, mark: u8, vols: &[u8], told: &mut Told) {
    tell_numbers("stripe", &[u64::from(width), u64::from(mark)], told);
    for vol in vols {
        told.push(" ");
        told.push_number(u64::from(*vol));
    }
}

fn pending_word(what: Leftover) -> &'static str {
    match what {
        Leftover::Trim => "pending trim",
        Leftover::Remove => "pending remove",
    }
}

/// Tells a record of a file whose fields are numbers.
fn tell_file(record: &Record, told: &mut Told) {
    match record {
        Record::Attributes {
            kind,
            uid,
            gid,
            flags,
            size,
            keep,
            links,
            birth,
            unsynced,
        } => {
            let rest = [*size, *keep as u64, *links as u64, *birth, *unsynced];
            tell_numbers(
                "attributes",
                &[*kind as u64, *uid as u64, *gid as u64, *flags as u64],
                told,
            );
            tell_numbers("", &rest, told);
        }
        Record::CloneFile {
            source_vol,
            source_cell,
            source_page,
            frozen,
        } => {
            let source = [*source_vol as u64, *source_cell as u64, *source_page as u64];
            tell_numbers("clone", &source, told);
            tell_numbers("", &[*frozen as u64], told);
        }
        _ => told.check(false),
    }
}

/// Tells a record whose fields are numbers.
fn tell_fields(record: &Record, told: &mut Told) {
    match record {
        Record::UserQuota { id, files, blocks } => {
            tell_numbers("user", &[*id as u64, *files, *blocks], told);
        }
        Record::GroupQuota { id, files, blocks } => {
            tell_numbers("group", &[*id as u64, *files, *blocks], told);
        }
        Record::DirIndex { vol, page, entries } => {
            tell_numbers("index", &[*vol as u64, *page as u64, *entries as u64], told);
        }
        Record::Parent { slot, seq } => {
            tell_numbers("parent", &[*slot as u64, *seq as u64], told);
        }
        Record::Volume {
            vol,
            pages,
            bitmap_pages,
        } => {
            let numbers = [*vol as u64, *pages as u64, *bitmap_pages as u64];
            tell_numbers("volume", &numbers, told);
        }
        _ => tell_file(record, told),
    }
}

/// Tells a record in words.
fn tell_words(record: &Record, told: &mut Told) {
    match record {
        Record::Extents { rows } => tell_extents("extents", rows, told),
        Record::ShortExtents { rows } => tell_extents("short", rows, told),
        Record::DenseExtents { rows } => tell_extents("dense", rows, told),
        Record::ShortDense { rows } => tell_extents("short-dense", rows, told),
        Record::Holes { rows } => tell_holes(rows, told),
        Record::Pending { what } => told.push(pending_word(*what)),
        Record::Stripe { width, mark, vols } => tell_stripe(*width, *mark, vols, told),
        _ => tell_fields(record, told),
    }
}

/// Tells what is read of the bytes, in words.
fn tell_read(bytes: &[u8], version: Version, told: &mut Told) {
    let mut out = [0xffu8; 300];
    match read_record(bytes, version) {
        Ok((record, length)) => {
            told.push_number(length as u64);
            told.push(" ");
            tell_words(&record, told);
            let written = if length <= 300 {
                write_record(&record, &mut out)
            } else {
                0
            };
            if written != length || !out.starts_with(bytes.get(..length).unwrap_or(&out)) {
                told.push(" written otherwise");
            }
        }
        Err(Bad { kind, at }) => told.push_pair("bad ", u64::from(kind), " at ", at as u64),
    }
}

/// Tells what is read of the bytes that a row spells.
pub fn tell_record(alloc: Global, words: &mut Words, told: &mut Told) {
    let version = Version::from_number(words.number(' '));
    let digits = digits_of(alloc, words.until(' '));
    words.until('+');
    let zeros = words.number(' ');
    let (Some(version), Some(mut bytes)) = (version, digits) else {
        return words.check(false);
    };
    told.check(push_zeros(&mut bytes, zeros).is_ok());
    tell_read(&bytes, version, told);
}
