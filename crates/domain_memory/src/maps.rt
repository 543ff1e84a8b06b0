//! The bitmaps of volumes.
ghost use Rattle.std.specs.Prelude.{◌≡◌, ◌*◌, ◌<◌, length, IfOk};
ghost use Rattle.standing_laws.specs.free_space.Bits.{is_set as bit_is_set};
ghost use Rattle.standing_laws.specs.log_ring.Homes.{member_of as member_there};
ghost use Rattle.standing_laws.specs.free_cells.Marks.{bitmap_home as bitmap_there, is_marked as is_marked_there};
ghost use Rattle.domain_memory.specs.Maps.{IsMapOf};

use standing_laws::{Bitmap, DomainFrame, Home, MetaPages, OutOfMemory, VolIx};
use std::alloc::Global;

/// How many pages have their bits on one page of a bitmap.
const PAGE_BITS: u32 = 65_536;

/// Whether a bit is 1.
fn is_set(bytes: &[u8], bit: usize) -> bool
    requires { bit < 8 * length bytes.now }
    ensures { result ≡ bit_is_set bytes.now bit }
{
    bytes[bit / 8] >> (bit % 8) & 1 == 1
}

/// The page of a volume's bitmap that has the bit of a page.
fn bitmap_home(vol: VolIx, page: u32) -> Home
    ensures { result ≡ bitmap_there vol page }
{
    Home {
        vol,
        page: 2 + page / PAGE_BITS,
    }
}

/// Whether the bit of a page of a volume is 1; a page of a bitmap that is not there has no bits.
fn is_marked<M: MetaPages>(pages: &M, vol: VolIx, page: u32) -> bool
    ensures { result ≡ is_marked_there (M.pages pages.now) vol page }
{
    match pages.get(bitmap_home(vol, page)) {
        Some(map) => is_set(map.bytes(), (page % PAGE_BITS) as usize),
        None => false,
    }
}

/// The map of a member's pages. A page is used if its bit is 1.
pub(crate) fn read_map<M: MetaPages>(
    alloc: Global,
    pages: &M,
    frame: &DomainFrame,
    vol: VolIx,
) -> Result<Bitmap, OutOfMemory>
    ensures { IfOk result (IsMapOf (M.pages pages.now) vol
        (member_there frame.now.anchor vol).pages) }
{
    let count = frame.member(vol).pages;
    let mut map = Bitmap::new(alloc, count)?;
    for page in 0..count {
        if is_marked(pages, vol, page) {
            map.set(page);
        }
    }
    Ok(map)
}
