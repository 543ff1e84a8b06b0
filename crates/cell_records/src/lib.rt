//! The records of an mcell and the one spelling of each.
//!
//! A record is its kind, a zero byte, its length in bytes and the fields of its kind, all numbers
//! with the lowest byte first.
#![tactic(auto)]

ghost use Rattle.std.specs.Prelude.{◌≡◌, ◌≤◌, ◌++◌, List, ℕ, Ok, length, drop, IfOk, IfErr, slice_index};
ghost use Rattle.cell_records.specs.declared.record.Record.{Record};
ghost use Rattle.cell_records.specs.Records.{Allowed, Begins, kind_of, last_kind, spelling};
ghost use Rattle.cell_records.specs.Layouts.{size_of};
ghost use Rattle.cell_records.specs.Wrong.{IsFirstWrong};

mod fields;
mod kinds;
mod layout;
mod reading;
mod record;
mod rule;
mod table;
mod writing;

use domain_base::Version;
pub use fields::{are_zeros, u8_at, u16_at, u32_at, u64_at};
pub use layout::Layout;
pub use record::{Bad, ExtentField, HoleField, Leftover, Record};
use table::{end_of, put_record, record_at};
pub use writing::put;

// What stands below and is named above.
pub use domain_base::{Home, Kind, OutOfMemory, Page, Tag, VolIx, limits};

/// Names of the crate `domain_base` that are other things here.
pub mod from_domain_base {
    pub use domain_base::Version;
}

/// The greatest kind of record in a version. Version 3 has no records of dense extents.
pub fn last_kind_of(version: Version) -> u8
    ensures { result ≡ last_kind version }
{
    match version {
        Version::Three => 12,
        Version::Four => 14,
    }
}

/// The kind that the first byte names, or 0 if there are no bytes.
fn first_kind(bytes: &[u8]) -> u8
    ensures { result ≡ slice_index bytes.now 0 }
{
    match bytes {
        [kind, ..] => *kind,
        [] => 0,
    }
}

/// Reads the record of this version at the front of the bytes, and returns it with its length.
/// Other bytes may follow.
///
/// Fails with `Bad` if no front of the bytes is the spelling of a record of the version. It holds
/// the offset of the field with the first wrong byte, or of the end of bytes that end early.
pub fn read_record(bytes: &[u8], version: Version) -> Result<(Record, usize), Bad>
    // What is read is spelled at the front of the bytes.
    ensures found { IfOk result (λ found. Begins version bytes.now found.0
        × (found.1 ≡ length (spelling found.0))) }
    ensures size { IfOk result (λ found. found.1 ≡ size_of (kind_of found.0)) }
    ensures inside { IfOk result (λ found. (12 ≤ found.1) × (found.1 ≤ length bytes.now)) }
    // A record that is spelled there is read, whatever follows.
    ensures only { (r : Record) → Begins version bytes.now r
        → result ≡ Ok (r, length (spelling r)) }
    ensures none { IfErr result (λ _. (r : Record) → Begins version bytes.now r → ⊥) }
    ensures first_wrong { IfErr result (IsFirstWrong version bytes.now) }
{
    let kind = first_kind(bytes);
    if last_kind_of(version) < kind {
        return Err(Bad { kind, at: 0 });
    }
    match end_of(kind, bytes) {
        Ok(end) => Ok((record_at(kind, bytes), end)),
        Err(at) => Err(Bad { kind, at }),
    }
}

/// Writes the spelling of a record to the front of `out`, and returns its length. The bytes after
/// it stay as they were.
pub fn write_record(value: &Record, out: &mut [u8]) -> usize
    requires allowed { Allowed value.now }
    requires room { size_of (kind_of value.now) ≤ length out.old }
    ensures length { result ≡ length (spelling value.now) }
    ensures size { result ≡ size_of (kind_of value.now) }
    ensures written { out.new ≡ spelling value.now ++ drop result out.old }
{
    put_record(value, out)
}

/// No spelling begins another: bytes that begin with two are one record and the same rest.
pub fn one_spelling()
    ensures { (a b : Record) (x y : List ℕ) → Allowed a → Allowed b → spelling a ++ x ≡ spelling b
        ++ y → (a ≡ b) × (x ≡ y) }
{}
