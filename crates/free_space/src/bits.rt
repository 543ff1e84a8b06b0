//! The bits of a page of a bitmap.
ghost use Rattle.std.specs.Prelude.{◌≡◌, ◌⊎◌, ◌↔◌, ◌+◌, ◌*◌, ◌^◌, ◌<◌, ◌≤◌, IsTrue, true, length};
ghost use Rattle.free_space.specs.Bits.{is_set as bit_is_set};
ghost use Rattle.sorted_sets.specs.SpanMembers.{HasNumber};
ghost use Rattle.free_space.specs.CheckBits.{IsWrongBit, IsWrongPage, ShouldBeSet};

use sorted_sets::{Page, Span, SpanSet};

/// Whether a bit is 1.
fn is_set(bytes: &[u8], bit: usize) -> bool
    requires { bit < 8 * length bytes.now }
    ensures { result ≡ bit_is_set bytes.now bit }
{
    bytes[bit / 8] >> (bit % 8) & 1 == 1
}

/// Whether a page is owned, or lies outside the volume.
fn should_be_set(owned: &SpanSet, pages: u32, number: u64) -> bool
    requires { number < 2 ^ 63 }
    ensures { IsTrue result ↔ ShouldBeSet (HasNumber owned.now) pages number }
{
    let one = Span {
        from: number,
        to: number + 1,
    };
    u64::from(pages) <= number || owned.has_one(&one)
}

/// Whether a bit is 1 and should be 0, or the other way round.
fn is_wrong_bit(page: &Page, owned: &SpanSet, pages: u32, first: u64, bit: usize) -> bool
    requires within { bit < 65536 }
    requires fits { first < 2 ^ 62 }
    ensures { IsTrue result ↔ IsWrongBit page.now (HasNumber owned.now) pages first bit }
{
    is_set(page.bytes(), bit) != should_be_set(owned, pages, first + bit as u64)
}

/// Whether some bit of a page of the bitmap of a volume with `pages` pages is 1 though the page has
/// no owner, or 0 though it has one or lies outside the volume. The first bit is that of page
/// `first`.
pub fn is_wrong_page(page: &Page, owned: &SpanSet, pages: u32, first: u64) -> bool
    requires { first < 2 ^ 62 }
    ensures { IsTrue result ↔ IsWrongPage page.now (HasNumber owned.now) pages first }
{
    for bit in 0..65_536_usize {
        if is_wrong_bit(page, owned, pages, first, bit) {
            return true;
        }
    }
    false
}
