//! The bits of what has changed on a domain's volumes.
ghost use Rattle.std.specs.Prelude.{◌≡◌, ℕ, ◌≤◌, IsSome};
ghost use Rattle.free_space.specs.Spaces.{kept_spaces, volume_of};
ghost use Rattle.free_cells.specs.Marks.{bitmap_home};
ghost use Rattle.free_cells.specs.Marking.{ChangeBits, ChangesBits, IsPageIn, SayHeld, SaysHeld};

use crate::bits::{clear_waiting, mark_all};
use free_space::FreeSpace;
use metadata_cells::{MetaPages, VolIx};

/// Marks on a volume's bitmap what has changed there since it was kept.
fn mark_volume<M: MetaPages>(pages: &mut M, space: &FreeSpace, vol: VolIx)
    requires there { (page : ℕ) → IsPageIn (volume_of space.now vol) page
        → IsSome (M.pages pages.old (bitmap_home vol page)) }
    requires said { SaysHeld (M.pages pages.old) vol (volume_of (kept_spaces space.now) vol) }
    ensures says { SaysHeld (M.pages pages.new) vol (volume_of space.now vol) }
    ensures changes { ChangesBits vol (volume_of space.now vol) (M.pages pages.old)
        (M.pages pages.new) }
    ensures room { M.room pages.new ≡ M.room pages.old }
    ensures before { M.before pages.new ≡ M.before pages.old }
{
    // so that all used pages, now and when they were kept, are known to be the volume's
    let _ = space.misses();
    let given_back = space.given_back(vol);
    mark_all(pages, vol, space.taken(vol), true);
    mark_all(pages, vol, space.freed(vol), false);
    clear_waiting(pages, vol, given_back);
}

/// Marks on the bitmaps of a domain's volumes what has changed there since its free space was last
/// kept: the bit of each page that was taken is 1, and that of each page that was freed or has come
/// to wait is 0. Takes time in proportion to what has changed, and no memory.
pub fn mark_changes<M: MetaPages>(pages: &mut M, space: &FreeSpace)
    requires there { (vol page : ℕ) → 1 ≤ vol → IsPageIn (volume_of space.now vol) page
        → IsSome (M.pages pages.old (bitmap_home vol page)) }
    requires said { SayHeld (M.pages pages.old) (kept_spaces space.now) }
    ensures say { SayHeld (M.pages pages.new) space.now }
    ensures change { ChangeBits space.now (M.pages pages.old) (M.pages pages.new) }
    ensures room { M.room pages.new ≡ M.room pages.old }
    ensures before { M.before pages.new ≡ M.before pages.old }
{
    for number in 1..9_u32 {
        let Some(vol) = VolIx::new(number) else {
            unreachable!();
        };
        mark_volume(pages, space, vol);
    }
}
