//! Whether a page is a well-formed page of a tag directory, and which of its entries may name a
//! cell.
ghost use Rattle.std.specs.Prelude.{◌≡◌, ◌↔◌, ◌+◌, ◌*◌, ◌<◌, ◌≤◌, IsTrue, ℕ};
ghost use Rattle.cell_faults.specs.cell_records.Fields.{number_at};
ghost use Rattle.cell_faults.specs.tag_dirs.TagPage.{IsTagPage, slot_of};
ghost use Rattle.tag_faults.specs.Directories.{IsGoodEntry};
ghost use Rattle.tag_faults.specs.Entries.{NamesCell};

use cell_faults::{Page, u8_at, u16_at, u32_at};

/// Whether an entry leads to a volume, which need not exist.
fn is_used(page: &Page, entry: usize) -> bool
    requires { entry < 1022 }
    ensures { IsTrue result ↔ ¬ number_at 1 (18 + 8 * entry) page.now ≡ 0 }
{
    u8_at(page.bytes(), 18 + 8 * entry) != 0
}

/// Whether an entry that leads to no volume has zeros for a cell.
fn has_zeros(page: &Page, entry: usize) -> bool
    requires { entry < 1022 }
    ensures { IsTrue result ↔ ((number_at 1 (19 + 8 * entry) page.now ≡ 0)
        × (number_at 4 (20 + 8 * entry) page.now ≡ 0)) }
{
    let bytes = page.bytes();
    u8_at(bytes, 19 + 8 * entry) == 0 && u32_at(bytes, 20 + 8 * entry) == 0
}

/// Whether an entry is that of slot 0.
fn is_slot_0(page: &Page, entry: usize) -> bool
    ensures { IsTrue result ↔ (slot_of page.now entry ≡ 0) }
{
    u32_at(page.bytes(), 4) == 0 && entry == 0
}

/// Whether an entry that leads to a volume may do so: to one of the volumes 1 to 8 and to a cell of
/// a page, with a sequence, and not in slot 0.
fn may_be_used(page: &Page, entry: usize) -> bool
    requires { entry < 1022 }
    ensures { IsTrue result ↔ ((number_at 1 (18 + 8 * entry) page.now ≤ 8)
        × (number_at 1 (19 + 8 * entry) page.now ≤ 27)
        × (1 ≤ number_at 2 (16 + 8 * entry) page.now) × ¬ slot_of page.now entry ≡ 0) }
{
    let bytes = page.bytes();
    u8_at(bytes, 18 + 8 * entry) <= 8
        && u8_at(bytes, 19 + 8 * entry) <= 27
        && 1 <= u16_at(bytes, 16 + 8 * entry)
        && !is_slot_0(page, entry)
}

/// Whether an entry leads to a volume, which need not exist, and may name a cell: whether its slot
/// is not 0, and it has a sequence.
pub(crate) fn names_cell(page: &Page, entry: usize) -> bool
    requires { entry < 1022 }
    ensures { IsTrue result ↔ NamesCell page.now entry }
{
    is_used(page, entry) && 1 <= u16_at(page.bytes(), 16 + 8 * entry) && !is_slot_0(page, entry)
}

/// Whether an entry is well formed.
fn is_good_entry(page: &Page, entry: usize) -> bool
    requires { entry < 1022 }
    ensures { IsTrue result ↔ IsGoodEntry page.now entry }
{
    if is_used(page, entry) {
        return may_be_used(page, entry);
    }
    has_zeros(page, entry)
}

/// Whether all entries of a page are well formed.
fn are_good_entries(page: &Page) -> bool
    ensures { IsTrue result ↔ ((entry : ℕ) → entry < 1022 → IsGoodEntry page.now entry) }
{
    for entry in 0..1022_usize {
        if !is_good_entry(page, entry) {
            return false;
        }
    }
    true
}

/// Whether a page is a well-formed page of a tag directory.
pub(crate) fn is_tag_page(page: &Page) -> bool
    ensures { IsTrue result ↔ IsTagPage page.now }
{
    let bytes = page.bytes();
    u32_at(bytes, 0) == 0x5047_4154
        && u32_at(bytes, 4) < 4_202_512
        && u32_at(bytes, 8) <= 8
        && are_good_entries(page)
}
