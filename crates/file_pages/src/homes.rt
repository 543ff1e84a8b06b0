//! Homes whose frames are used, so that they are not the first to go.
ghost use Rattle.std.specs.Prelude.{◌≡◌, length, true};
ghost use Rattle.page_cache.specs.page_store.Pages.{same_home};
ghost use Rattle.page_cache.specs.page_store.sorted_sets.Homes.{number_of};
ghost use Rattle.page_cache.specs.Cache.{frames_of, order_of};
ghost use Rattle.page_cache.specs.Frames.{is_clean};
ghost use Rattle.file_pages.specs.Lent.{ComesWithin, KeepsFrames, is_among, used_each};

use page_cache::{Home, PageCache};

/// Whether two homes are the same.
fn is_same(one: &Home, other: &Home) -> bool
    ensures { result ≡ same_home one.now other.now }
{
    one.vol == other.vol && one.page == other.page
}

/// Whether a home is among these.
pub(crate) fn contains(homes: &[Home], home: &Home) -> bool
    ensures { result ≡ is_among homes.now home.now }
{
    homes.iter().any(|other| is_same(home, other))
}

/// Uses the frames of homes, one after the other. In the order of use no clean one of them comes
/// after more frames than there are homes.
pub(crate) fn touch_each(cache: &mut PageCache, homes: &[Home])
    ensures keeps { KeepsFrames cache.old cache.new }
    ensures order { order_of cache.new
        ≡ used_each (frames_of cache.old) homes.now (order_of cache.old) }
    ensures within { (home : Home) → is_among homes.now home ≡ true
        → is_clean (frames_of cache.old home) ≡ true
        → ComesWithin (length homes.now) (number_of home) (order_of cache.new) }
{
    for home in homes {
        cache.touch(home);
    }
}
