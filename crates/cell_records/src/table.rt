//! The table of kinds, one row each, and what is done with it.

ghost use Rattle.std.specs.Prelude.{◌≡◌, ◌≤◌, length};
ghost use Rattle.cell_records.specs.Layouts.{widths, size_of, IsKind};
ghost use Rattle.cell_records.specs.Records.{Allowed, Puts, kind_of};
ghost use Rattle.cell_records.specs.Rules.{rules_of, nothing_seen, scan};
ghost use Rattle.cell_records.specs.Fields.{record_at as record_there};

use crate::fields::{
    dense_extents_at, extents_at, holes_at, leftover_at, u8_at, u16_at, u32_at, u64_at, volumes_at,
};
use crate::kinds::*;
use crate::reading::scan_fields;
use crate::record::Record;
use crate::writing::{
    put_attributes, put_clone_file, put_dense_extents, put_dir_index, put_extents, put_holes,
    put_parent, put_pending, put_quota, put_stripe, put_volume,
};

/// Gives a macro the table of kinds. A row has a kind's number, its layout and rules, its variant
/// with the places that the fields are read from, and the call that writes them.
macro_rules! kinds {
    ($then:ident, $($input:ident),*) => {
        $then! { ($($input),*)
            1 ATTRIBUTES ATTRIBUTES_RULES
                Attributes {
                    kind: u32_at 4, uid: u32_at 8, gid: u32_at 12, flags: u32_at 16, size: u64_at 20,
                    keep: u32_at 28, links: u32_at 32, birth: u64_at 36, unsynced: u64_at 44
                }
                put_attributes [*kind, *uid, *gid, *flags, *size, *keep, *links, *birth, *unsynced];
            2 CLONE_FILE CLONE_FILE_RULES
                CloneFile { source_vol: u8_at 6, source_cell: u8_at 7, source_page: u32_at 8, frozen: u32_at 12 }
                put_clone_file [*source_vol, *source_cell, *source_page, *frozen];
            3 EXTENTS EXTENTS_RULES
                Extents { rows: extents_at 4 }
                put_extents [3, rows];
            4 SHORT_EXTENTS SHORT_EXTENTS_RULES
                ShortExtents { rows: extents_at 4 }
                put_extents [4, rows];
            5 HOLES HOLES_RULES
                Holes { rows: holes_at 4 }
                put_holes [5, rows];
            6 PENDING PENDING_RULES
                Pending { what: leftover_at 4 }
                put_pending [*what];
            7 QUOTA USER_QUOTA_RULES
                UserQuota { id: u32_at 4, files: u64_at 12, blocks: u64_at 20 }
                put_quota [7, *id, *files, *blocks];
            8 QUOTA GROUP_QUOTA_RULES
                GroupQuota { id: u32_at 4, files: u64_at 12, blocks: u64_at 20 }
                put_quota [8, *id, *files, *blocks];
            9 DIR_INDEX DIR_INDEX_RULES
                DirIndex { vol: u32_at 4, page: u32_at 8, entries: u32_at 12 }
                put_dir_index [*vol, *page, *entries];
            10 PARENT PARENT_RULES
                Parent { slot: u32_at 4, seq: u16_at 8 }
                put_parent [*slot, *seq];
            11 STRIPE STRIPE_RULES
                Stripe { width: u8_at 4, mark: u8_at 5, vols: volumes_at 8 }
                put_stripe [*width, *mark, vols];
            12 VOLUME VOLUME_RULES
                Volume { vol: u32_at 4, pages: u32_at 8, bitmap_pages: u32_at 12 }
                put_volume [*vol, *pages, *bitmap_pages];
            13 DENSE_EXTENTS DENSE_EXTENTS_RULES
                DenseExtents { rows: dense_extents_at 4 }
                put_dense_extents [13, rows];
            14 SHORT_DENSE SHORT_DENSE_RULES
                ShortDense { rows: dense_extents_at 4 }
                put_dense_extents [14, rows];
        }
    };
}

/// Where a record of that kind at the front of the bytes ends. After an error it is the start of
/// the field that holds the first wrong byte.
pub fn end_of(kind: u8, bytes: &[u8]) -> Result<usize, usize>
    ensures { result ≡ scan (widths kind) (rules_of kind) nothing_seen bytes.now 0 }
{
    macro_rules! scans {
        (($kind:ident, $bytes:ident) $($number:literal $layout:ident $rules:ident $variant:ident
        $fields:tt $put:ident $values:tt;)*) => {
            match $kind {
                $($number => scan_fields(&$layout.widths, &$rules, $bytes),)*
                _ => Err(0),
            }
        };
    }
    kinds!(scans, kind, bytes)
}

/// The record of a kind whose fields stand in the bytes.
pub fn record_at(kind: u8, bytes: &[u8]) -> Record
    requires kind { IsKind kind }
    requires room { size_of kind ≤ length bytes.now }
    ensures { result ≡ record_there kind bytes.now }
{
    macro_rules! readers {
        (($kind:ident, $bytes:ident) $($number:literal $layout:ident $rules:ident $variant:ident {
        $($field:ident : $read:ident $at:literal),* } $put:ident $values:tt;)*) => {
            match $kind {
                $($number => Record::$variant { $($field: $read($bytes, $at)),* },)*
                _ => unreachable!(),
            }
        };
    }
    kinds!(readers, kind, bytes)
}

/// Writes the numbers of a record's fields to the front of `out`, and returns how many bytes they
/// took.
pub fn put_record(value: &Record, out: &mut [u8]) -> usize
    requires allowed { Allowed value.now }
    requires room { size_of (kind_of value.now) ≤ length out.old }
    ensures { Puts value.now out.old out.new result }
{
    macro_rules! writers {
        (($value:ident, $out:ident) $($number:literal $layout:ident $rules:ident $variant:ident {
        $($field:ident : $read:ident $at:literal),* } $put:ident [$($argument:expr),*];)*) => {
            match $value {
                $(Record::$variant { $($field),* } => $put($($argument),*, $out),)*
            }
        };
    }
    kinds!(writers, value, out)
}
