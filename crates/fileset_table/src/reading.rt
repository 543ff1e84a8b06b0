//! Slots of the fileset table, read from their bytes.
ghost use Rattle.std.specs.Prelude.{◌≡◌, ◌↔◌, IsTrue, ℕ, true, length, IfSome, IfNone, Option, Some};
ghost use Rattle.metadata_cells.specs.domain_base.declared.place.CellAt.{CellAt};
ghost use Rattle.metadata_cells.specs.domain_base.declared.place.Home.{Home};
ghost use Rattle.metadata_cells.specs.cell_records.Fields.{number_at};
ghost use Rattle.metadata_cells.specs.Cell.{IsFileset};
ghost use Rattle.word_forms.specs.Forms.{is_fileset_name};
ghost use Rattle.fileset_table.specs.Page.{AreSlots, HasHeader, IsTablePage};
ghost use Rattle.fileset_table.specs.Reading.{Reads, ReadsAs};
ghost use Rattle.fileset_table.specs.Slot.{HasFirstTag, HasQuota, IsEntry, IsNamed, IsSlot};

use crate::rules::are_slots;
use crate::slot::{FilesetEntry, SlotItem, TableFault};
use metadata_cells::{CellAt, FilesetNo, Home, VolIx, are_zeros, u8_at, u16_at, u32_at, u64_at};
use std::alloc::Global;
use word_forms::{FilesetName, WordFault, fileset};

/// How many slots a table has.
pub(crate) const SLOTS: usize = 32;

/// The bytes before the first slot.
pub(crate) const HEADER_BYTES: usize = 16;

/// The bytes of a slot.
pub(crate) const SLOT_BYTES: usize = 128;

/// The first bytes of the page, `FSTB`, as a number.
pub(crate) const MAGIC: u32 = 0x4254_5346;

/// The most clones that can have been made: 2^63 - 1.
const MOST_MADE: u64 = 0x7fff_ffff_ffff_ffff;

/// The fileset name that the bytes are, if they have its form.
fn name_of(alloc: Global, bytes: &[u8]) -> Result<FilesetName, TableFault>
    ensures { Reads (λ name. (is_fileset_name name ≡ true) × (name ≡ bytes.now)) result }
{
    match fileset(alloc, bytes) {
        Ok(name) => Ok(name),
        Err(WordFault::Malformed) => Err(TableFault::Bad),
        Err(WordFault::OutOfMemory) => Err(TableFault::OutOfMemory),
    }
}

/// The name in a slot.
fn read_name(alloc: Global, bytes: &[u8]) -> Result<FilesetName, TableFault>
    requires { length bytes.now ≡ 128 }
    ensures { Reads (IsNamed bytes.now) result }
{
    let end = 2 + usize::from(u8_at(bytes, 1));
    if 33 < end || !are_zeros(&bytes[end..33]) {
        return Err(TableFault::Bad);
    }
    name_of(alloc, &bytes[2..end])
}

/// The first tag page in a slot. Returns None if there is none, or its home is not allowed.
fn read_home(bytes: &[u8]) -> Option<Home>
    requires { length bytes.now ≡ 128 }
    ensures some { IfSome result (λ home. HasFirstTag bytes.now (Some home)) }
    ensures none { IfNone result ((home : Home) → ¬ HasFirstTag bytes.now (Some home)) }
{
    let vol = VolIx::new(u32_at(bytes, 56))?;
    let page = u32_at(bytes, 60);
    Some(Home { vol, page })
}

/// The first tag page in a slot, if there is one. Returns None if its home is not allowed.
fn read_first_tag(bytes: &[u8]) -> Option<Option<Home>>
    requires { length bytes.now ≡ 128 }
    ensures some { IfSome result (HasFirstTag bytes.now) }
    ensures none { IfNone result ((home : Option Home) → ¬ HasFirstTag bytes.now home) }
{
    let number = u32_at(bytes, 56);
    let page = u32_at(bytes, 60);
    match VolIx::new(number) {
        Some(vol) => Some(Some(Home { vol, page })),
        None if number == 0 => Some(None),
        None => None,
    }
}

/// The first quota cell in a slot, if there is one. Returns None if its address is malformed.
fn read_quota(bytes: &[u8]) -> Option<Option<CellAt>>
    requires { length bytes.now ≡ 128 }
    ensures some { IfSome result (HasQuota bytes.now) }
    ensures none { IfNone result ((quota : Option CellAt) → ¬ HasQuota bytes.now quota) }
{
    let number = u8_at(bytes, 82);
    let cell = u8_at(bytes, 83);
    let page = u32_at(bytes, 84);
    if u16_at(bytes, 80) != 0 {
        return None;
    }
    match VolIx::new(u32::from(number)) {
        Some(vol) if cell < 28 => Some(Some(CellAt { vol, page, cell })),
        Some(_) => None,
        None if number == 0 && cell == 0 && page == 0 => Some(None),
        None => None,
    }
}

/// The fileset in a slot.
fn read_entry(alloc: Global, bytes: &[u8]) -> Result<FilesetEntry, TableFault>
    requires { length bytes.now ≡ 128 }
    ensures { Reads (IsEntry bytes.now) result }
{
    let Some(first_tag) = read_home(bytes) else {
        return Err(TableFault::Bad);
    };
    let Some(quota) = read_quota(bytes) else {
        return Err(TableFault::Bad);
    };
    let name = read_name(alloc, bytes)?;
    Ok(FilesetEntry {
        name,
        first_tag,
        files_limit: u64_at(bytes, 64),
        blocks_limit: u64_at(bytes, 72),
        quota,
    })
}

/// The slot of a clone's original.
fn read_original_number(bytes: &[u8]) -> Option<FilesetNo>
    requires { length bytes.now ≡ 128 }
    ensures some { IfSome result (λ original.
        IsFileset (number_at 4 40 bytes.now) (Some original)) }
    ensures none { IfNone result ((original : ℕ)
        → ¬ IsFileset (number_at 4 40 bytes.now) (Some original)) }
{
    let number = u32_at(bytes, 40).checked_sub(1)?;
    FilesetNo::new(number)
}

/// The slot of an original.
fn read_original(alloc: Global, bytes: &[u8]) -> Result<SlotItem, TableFault>
    requires len { length bytes.now ≡ 128 }
    requires state { number_at 1 0 bytes.now ≡ 1 }
    ensures { Reads (IsSlot bytes.now) result }
{
    if u32_at(bytes, 40) != 0 {
        return Err(TableFault::Bad);
    }
    let entry = read_entry(alloc, bytes)?;
    Ok(SlotItem::Original { entry })
}

/// The slot of a clone.
fn read_clone(alloc: Global, bytes: &[u8]) -> Result<SlotItem, TableFault>
    requires len { length bytes.now ≡ 128 }
    requires state { number_at 1 0 bytes.now ≡ 2 }
    ensures { Reads (IsSlot bytes.now) result }
{
    let Some(original) = read_original_number(bytes) else {
        return Err(TableFault::Bad);
    };
    let entry = read_entry(alloc, bytes)?;
    Ok(SlotItem::Clone {
        original,
        number: u64_at(bytes, 48),
        entry,
    })
}

/// The slot of a fileset that is being removed.
fn read_removed(bytes: &[u8]) -> Result<SlotItem, TableFault>
    requires len { length bytes.now ≡ 128 }
    requires state { number_at 1 0 bytes.now ≡ 3 }
    ensures { Reads (IsSlot bytes.now) result }
{
    let Some(first_tag) = read_first_tag(bytes) else {
        return Err(TableFault::Bad);
    };
    let Some(quota) = read_quota(bytes) else {
        return Err(TableFault::Bad);
    };
    Ok(SlotItem::Removed { first_tag, quota })
}

/// The item that a slot holds.
pub(crate) fn read_slot(alloc: Global, bytes: &[u8]) -> Result<SlotItem, TableFault>
    requires { length bytes.now ≡ 128 }
    ensures { Reads (IsSlot bytes.now) result }
{
    match u8_at(bytes, 0) {
        0 => Ok(SlotItem::Free),
        1 => read_original(alloc, bytes),
        2 => read_clone(alloc, bytes),
        3 => read_removed(bytes),
        _ => Err(TableFault::Bad),
    }
}

/// Whether the bytes begin as a fileset table.
fn has_header(bytes: &[u8]) -> bool
    requires { length bytes.now ≡ 8192 }
    ensures { IsTrue result ↔ HasHeader bytes.now }
{
    u32_at(bytes, 0) == MAGIC && u32_at(bytes, 4) == 0
}

/// The slots of a table, each as its bytes say.
fn read_slots(alloc: Global, bytes: &[u8]) -> Result<Vec<SlotItem>, TableFault>
    requires { length bytes.now ≡ 8192 }
    ensures { ReadsAs (λ slots. slots.items) (AreSlots bytes.now) result }
{
    let mut slots = Vec::with_capacity(alloc, SLOTS)?;
    for number in 0..SLOTS {
        let start = HEADER_BYTES + SLOT_BYTES * number;
        let slot = read_slot(alloc, &bytes[start..start + SLOT_BYTES])?;
        slots.push(slot)?;
    }
    Ok(slots)
}

/// The slots of a table, and how many clones were made.
pub(crate) fn read_table(alloc: Global, bytes: &[u8]) -> Result<(Vec<SlotItem>, u64), TableFault>
    requires { length bytes.now ≡ 8192 }
    ensures { ReadsAs (λ table. record { slots = table.0.items; made = table.1 })
        (IsTablePage bytes.now) result }
{
    let made = u64_at(bytes, 8);
    if !has_header(bytes) || MOST_MADE < made {
        return Err(TableFault::Bad);
    }
    let slots = read_slots(alloc, bytes)?;
    if !are_slots(&slots) {
        return Err(TableFault::Bad);
    }
    Ok((slots, made))
}
