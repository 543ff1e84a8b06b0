//! The fileset table, written to its page.
ghost use Rattle.std.specs.Prelude.{◌≡◌, ◌-◌, ◌<◌, ◌≤◌, ◌∷◌, ◌++◌, true, length, drop};
ghost use Rattle.std.specs.List.{AllByRecursion};
ghost use Rattle.metadata_cells.specs.domain_base.Page.{zero_bytes};
ghost use Rattle.metadata_cells.specs.cell_records.Fields.{Fit, number_at};
ghost use Rattle.metadata_cells.specs.cell_records.Records.{spelled};
ghost use Rattle.metadata_cells.specs.Cell.{IsAddress};
ghost use Rattle.word_forms.specs.Forms.{is_fileset_name};
ghost use Rattle.fileset_table.specs.declared.slot.SlotItem.TheVariants.{Removed};
ghost use Rattle.fileset_table.specs.Page.{AreSlots, HasHeader};
ghost use Rattle.fileset_table.specs.Slot.{IsEntry, IsHome, IsSlot};
ghost use Rattle.fileset_table.specs.Table.{IsAllowed, IsCellNumber};
ghost use Rattle.fileset_table.specs.Writing.{HasNumbers, HasParts, SetsSlot, number_list, number_widths};

use crate::reading::{HEADER_BYTES, MAGIC, SLOT_BYTES};
use crate::slot::{FilesetEntry, SlotItem};
use metadata_cells::{CellAt, Home, Page, put};

/// The numbers that a slot has after its name.
#[derive(Clone, Copy)]
struct SlotNumbers {
    /// The slot of a clone's original plus 1, or else 0.
    original: u32,
    number: u64,
    first_tag: Option<Home>,
    files_limit: u64,
    blocks_limit: u64,
    quota: Option<CellAt>,
}

/// The widths of the numbers that a page begins with: `FSTB`, a zero, and how many clones were
/// made.
const HEADER: [u8; 3] = [4, 4, 8];

/// The widths of the numbers of a slot from its byte 40 on: the original's slot plus 1, four bytes
/// that say nothing, the clone's number, the volume and page of the first tag page, the limits of
/// files and of blocks, and a zero, the volume, the cell and the page of the first quota cell.
const NUMBERS: [u8; 11] = [4, 4, 8, 4, 4, 8, 8, 2, 1, 1, 4];

/// Where these numbers begin.
const NUMBERS_AT: usize = 40;

/// The volume and page of a home, and zeros for none.
fn home_numbers(home: &Option<Home>) -> (u32, u32)
    ensures { IsHome result.0 result.1 home.now }
{
    match home {
        Some(home) => (home.vol.number(), home.page),
        None => (0, 0),
    }
}

/// The volume, cell and page of an address, and zeros for none.
fn address_numbers(at: &Option<CellAt>) -> (u8, u8, u32)
    requires { IsCellNumber at.now }
    ensures { IsAddress result.0 result.1 result.2 at.now }
{
    match at {
        Some(at) => (at.vol.number() as u8, at.cell, at.page),
        None => (0, 0, 0),
    }
}

/// Writes numbers of a slot, a first tag page by its volume and page, and a quota cell by its
/// volume, cell and page.
fn put_values(
    original: u32,
    number: u64,
    first_tag: (u32, u32),
    files_limit: u64,
    blocks_limit: u64,
    quota: (u8, u8, u32),
    out: &mut [u8],
)
    requires { length out.old ≡ 88 }
    ensures fit { Fit number_widths (number_list original number first_tag.0 first_tag.1
        files_limit blocks_limit quota.0 quota.1 quota.2) }
    ensures written { out.new ≡ spelled number_widths (number_list original number first_tag.0
        first_tag.1 files_limit blocks_limit quota.0 quota.1 quota.2) ++ drop 48 out.old }
    ensures len { length out.new ≡ 88 }
{
    let values = [
        u64::from(original),
        0,
        number,
        u64::from(first_tag.0),
        u64::from(first_tag.1),
        files_limit,
        blocks_limit,
        0,
        u64::from(quota.0),
        u64::from(quota.1),
        u64::from(quota.2),
    ];
    put(&NUMBERS, &values, out);
}

/// Writes the numbers to the front of the bytes.
fn put_numbers(numbers: &SlotNumbers, out: &mut [u8])
    requires len { length out.old ≡ 88 }
    requires cell { IsCellNumber numbers.now.quota }
    ensures numbers { HasNumbers out.new numbers.now }
    ensures len { length out.new ≡ 88 }
{
    let first_tag = home_numbers(&numbers.first_tag);
    let quota = address_numbers(&numbers.quota);
    put_values(
        numbers.original,
        numbers.number,
        first_tag,
        numbers.files_limit,
        numbers.blocks_limit,
        quota,
        out,
    );
}

/// Writes the state and the name over zeros.
fn put_name(state: u8, name: &[u8], out: &mut [u8])
    requires zeros { out.old ≡ zero_bytes 128 }
    requires room { length out.old ≡ 128 }
    requires short { length name.now ≤ 31 }
    ensures { out.new ≡ state ∷ length name.now
        ∷ (name.now ++ zero_bytes (126 - length name.now)) }
{
    out[0] = state;
    out[1] = name.len() as u8;
    out[2..2 + name.len()].copy_from_slice(name);
}

/// Writes the state, the name and the numbers over zeros.
fn put_parts(state: u8, name: &[u8], numbers: &SlotNumbers, out: &mut [u8])
    requires zeros { out.old ≡ zero_bytes 128 }
    requires room { length out.old ≡ 128 }
    requires short { length name.now ≤ 31 }
    requires cell { IsCellNumber numbers.now.quota }
    ensures parts { HasParts state name.now numbers.now out.new }
    ensures len { length out.new ≡ 128 }
{
    put_name(state, name, out);
    put_numbers(numbers, &mut out[NUMBERS_AT..]);
}

/// Writes a fileset that is not being removed.
fn put_entry(state: u8, original: u32, number: u64, entry: &FilesetEntry, out: &mut [u8])
    requires zeros { out.old ≡ zero_bytes 128 }
    requires room { length out.old ≡ 128 }
    requires name { is_fileset_name entry.now.name ≡ true }
    requires cell { IsCellNumber entry.now.quota }
    ensures state { number_at 1 0 out.new ≡ state }
    ensures original { number_at 4 40 out.new ≡ original }
    ensures number { number_at 8 48 out.new ≡ number }
    ensures entry { IsEntry out.new entry.now }
    ensures len { length out.new ≡ 128 }
{
    let numbers = SlotNumbers {
        original,
        number,
        first_tag: Some(entry.first_tag),
        files_limit: entry.files_limit,
        blocks_limit: entry.blocks_limit,
        quota: entry.quota,
    };
    put_parts(state, entry.name.as_slice(), &numbers, out);
}

/// Writes a fileset that is being removed.
fn put_removed(first_tag: &Option<Home>, quota: &Option<CellAt>, out: &mut [u8])
    requires zeros { out.old ≡ zero_bytes 128 }
    requires room { length out.old ≡ 128 }
    requires cell { IsCellNumber quota.now }
    ensures slot { IsSlot out.new (Removed first_tag.now quota.now) }
    ensures len { length out.new ≡ 128 }
{
    let numbers = SlotNumbers {
        original: 0,
        number: 0,
        first_tag: *first_tag,
        files_limit: 0,
        blocks_limit: 0,
        quota: *quota,
    };
    put_parts(3, &[], &numbers, out);
}

/// Writes the content of a slot over zeros.
fn spell_slot(item: &SlotItem, out: &mut [u8])
    requires zeros { out.old ≡ zero_bytes 128 }
    requires room { length out.old ≡ 128 }
    requires allowed { IsAllowed item.now }
    ensures slot { IsSlot out.new item.now }
    ensures len { length out.new ≡ 128 }
{
    match item {
        SlotItem::Free => {}
        SlotItem::Original { entry } => put_entry(1, 0, 0, entry, out),
        SlotItem::Clone {
            original,
            number,
            entry,
        } => put_entry(2, original.number() + 1, *number, entry, out),
        SlotItem::Removed { first_tag, quota } => put_removed(first_tag, quota, out),
    }
}

/// Writes the content of a slot to its place, and leaves all other slots.
fn put_slot(number: usize, item: &SlotItem, page: &mut Page)
    requires number { number < 32 }
    requires allowed { IsAllowed item.now }
    ensures { SetsSlot number item.now page.old page.new }
{
    let mut bytes = [0; SLOT_BYTES];
    spell_slot(item, &mut bytes);
    page.set(HEADER_BYTES + SLOT_BYTES * number, &bytes);
}

/// Writes the header of a table.
fn put_header(made: u64, page: &mut Page)
    ensures header { HasHeader page.new }
    ensures made { number_at 8 8 page.new ≡ made }
    ensures rest { drop 4112 page.new ≡ drop 4112 page.old }
{
    let mut header = [0; HEADER_BYTES];
    put(&HEADER, &[u64::from(MAGIC), 0, made], &mut header);
    page.set(0, &header);
}

/// Writes a table's slots, and how many clones were made. The bytes after the last slot stay.
pub(crate) fn put_table(slots: &[SlotItem], made: u64, page: &mut Page)
    requires whole { length slots.now ≡ 32 }
    requires allowed { AllByRecursion IsAllowed slots.now }
    ensures header { HasHeader page.new }
    ensures made { number_at 8 8 page.new ≡ made }
    ensures slots { AreSlots page.new slots.now }
    ensures rest { drop 4112 page.new ≡ drop 4112 page.old }
{
    put_header(made, page);
    for (number, item) in slots.iter().enumerate() {
        put_slot(number, item, page);
    }
}
