//! One bit, and the bits of many pages of one volume.
ghost use Rattle.std.specs.Prelude.{◌≡◌, ℕ, ◌==◌, ◌<◌, true, false, IsSome};
ghost use Rattle.std.specs.Int.{bit_at};
ghost use Rattle.free_space.specs.Sound.{is_one};
ghost use Rattle.free_space.specs.VolumeSpace.{is_among};
ghost use Rattle.free_cells.specs.Marks.{bitmap_home};
ghost use Rattle.free_cells.specs.Marking.{MarksAll};

use free_space::Waiting;
use metadata_cells::{Home, MetaPages, VolIx};

/// How many pages have their bits on one page of a bitmap.
const PAGES_ON_PAGE: u32 = 65_536;

/// The byte with this bit set to 1 if `is_one`, else to 0.
fn with_bit(byte: u8, bit: u32, is_one: bool) -> u8
    requires { bit < 8 }
    ensures here { (bit_at result bit == 1) ≡ is_one }
    ensures others { (i : ℕ) → i < 8 → (i ≡ bit → ⊥) → bit_at result i ≡ bit_at byte i }
{
    if is_one {
        byte | 1 << bit
    } else {
        byte & !(1 << bit)
    }
}

/// The page of a volume's bitmap that has the bit of a page.
fn home_of_bit(vol: VolIx, page: u32) -> Home
    ensures { result ≡ bitmap_home vol page }
{
    Home {
        vol,
        page: 2 + page / PAGES_ON_PAGE,
    }
}

/// Sets or clears the bit of a page of a volume.
pub(crate) fn mark<M: MetaPages>(pages: &mut M, vol: VolIx, page: u32, is_used: bool)
    requires { IsSome (M.pages pages.old (bitmap_home vol page)) }
    ensures marks { MarksAll vol (λ p. p == page) is_used (M.pages pages.old) (M.pages pages.new) }
    ensures room { M.room pages.new ≡ M.room pages.old }
    ensures before { M.before pages.new ≡ M.before pages.old }
{
    let home = home_of_bit(vol, page);
    let again = home_of_bit(vol, page);
    let bit = page % PAGES_ON_PAGE;
    let at = bit as usize / 8;
    let Some(bitmap) = pages.get(home) else {
        unreachable!();
    };
    let byte = with_bit(bitmap.bytes()[at], bit % 8, is_used);
    pages.set(again, at, &[byte]);
}

/// Sets or clears the bits of these pages of a volume.
pub(crate) fn mark_all<M: MetaPages>(pages: &mut M, vol: VolIx, list: &[u32], is_used: bool)
    requires { (page : ℕ) → is_one list.now page ≡ true
        → IsSome (M.pages pages.old (bitmap_home vol page)) }
    ensures marks { MarksAll vol (is_one list.now) is_used (M.pages pages.old)
        (M.pages pages.new) }
    ensures room { M.room pages.new ≡ M.room pages.old }
    ensures before { M.before pages.new ≡ M.before pages.old }
{
    for &page in list {
        mark(pages, vol, page, is_used);
    }
}

/// Clears the bits of these waiting pages.
pub(crate) fn clear_waiting<M: MetaPages>(pages: &mut M, vol: VolIx, list: &[Waiting])
    requires { (page : ℕ) → is_among list.now page ≡ true
        → IsSome (M.pages pages.old (bitmap_home vol page)) }
    ensures marks { MarksAll vol (is_among list.now) false (M.pages pages.old)
        (M.pages pages.new) }
    ensures room { M.room pages.new ≡ M.room pages.old }
    ensures before { M.before pages.new ≡ M.before pages.old }
{
    for waiting in list {
        mark(pages, vol, waiting.page, false);
    }
}
