//! Bytes of a page moved up to close a gap.
ghost use Rattle.std.specs.Prelude.{◌≡◌, ◌+◌, ◌-◌, ◌<◌, ◌≤◌, [], ◌∷◌, length, slice_index, nat_lt, if◌then◌else◌};
ghost use Rattle.directory_pages.specs.RowPage.{closed};
ghost use Rattle.cell_records.specs.domain_base.Page.{overwritten};

use cell_records::Page;

/// Writes to a byte of a page the byte that stands `len` bytes after it, or a zero if that place is
/// at or past the end.
fn move_byte(page: &mut Page, at: usize, len: usize, end: usize)
    requires place { at < end }
    requires within { end ≤ 8192 }
    requires small { len ≤ 8192 }
    ensures { page.new ≡ overwritten page.old at
        ((if nat_lt (at + len) end then slice_index page.old (at + len) else 0) ∷ []) }
{
    let from = at + len;
    let byte = if from < end { page.bytes()[from] } else { 0 };
    page.set(at, &[byte]);
}

/// Moves the bytes after a gap of a page, up to an end, to the front of the gap, and writes zeros
/// after them, as many as the gap had bytes.
pub(crate) fn close_gap(page: &mut Page, gap: usize, len: usize, end: usize)
    requires whole { length page.old ≡ 8192 }
    requires gap { gap + len ≤ end }
    requires within { end ≤ 8192 }
    ensures { page.new ≡ closed gap len end page.old }
{
    for at in gap..end {
        move_byte(page, at, len, end);
    }
}
