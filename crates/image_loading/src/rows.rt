//! Which pages come along with a page that is read: those after it that stand in a row.
ghost use Rattle.std.specs.Prelude.{◌≡◌, ◌==◌, ◌↔◌, ◌*◌, ◌/◌, ◌%◌, ◌^◌, ◌<◌, IsTrue, length, slice_index};
ghost use Rattle.std.specs.Int.{bit_at};
ghost use Rattle.image_loading.specs.Rows.{ComesAlong, IsRow, is_marked as is_marked_there};
ghost use Rattle.slot_files.specs.page_ways.Frame.{frame_in};

use slot_files::{DomainFrame, Home, MetaPages};

/// How many pages are read by one call at most.
const MOST_AT_ONCE: u32 = 64;

/// The first page of a volume's bitmap.
const FIRST_BITMAP_PAGE: u32 = 2;

/// How many bits a page of a bitmap has.
const BITS_PER_PAGE: u32 = 65_536;

/// Whether a bit is 1.
fn is_set(bytes: &[u8], bit: usize) -> bool
    requires { bit < 8 * length bytes.now }
    ensures { result ≡ (bit_at (slice_index bytes.now (bit / 8)) (bit % 8) == 1) }
{
    bytes[bit / 8] >> (bit % 8) & 1 == 1
}

/// Whether the bitmap of its volume says that a page is in use; it does not if the bitmap's page
/// with its bit is not there.
fn is_marked<M: MetaPages>(pages: &M, home: &Home) -> bool
    ensures { result ≡ is_marked_there (M.pages pages.now) home.now }
{
    let bitmap = Home {
        vol: home.vol,
        page: FIRST_BITMAP_PAGE + home.page / BITS_PER_PAGE,
    };
    match pages.get(bitmap) {
        Some(page) => is_set(page.bytes(), (home.page % BITS_PER_PAGE) as usize),
        None => false,
    }
}

/// Whether a page comes along with one before it: it is in use, one of tables or files, and not
/// there yet.
fn comes_along<M: MetaPages>(pages: &M, frame: &DomainFrame, home: &Home) -> bool
    ensures { IsTrue result ↔ ComesAlong (M.pages pages.now) (frame_in frame.now) home.now }
{
    frame.may_be(home) && is_marked(pages, home) && pages.get(*home).is_none()
}

/// How many pages are read by one call with the page at a home: that page, and those that come
/// along after it in a row.
pub(crate) fn count_in_row<M: MetaPages>(pages: &M, frame: &DomainFrame, home: &Home) -> u32
    requires { home.now.page < 2 ^ 31 }
    ensures { IsRow (M.pages pages.now) (frame_in frame.now) home.now result }
{
    for count in 1..MOST_AT_ONCE {
        let next = Home {
            vol: home.vol,
            page: home.page + count,
        };
        if !comes_along(pages, frame, &next) {
            return count;
        }
    }
    MOST_AT_ONCE
}
