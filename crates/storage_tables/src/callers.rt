//! Callers of a cache, proved by its contract alone.
ghost use Rattle.std.specs.Prelude.{◌≡◌, Some, IsSome, slice_index};
ghost use Rattle.page_cache.specs.Cache.{frames_of};

use page_cache::{Home, Page, PageCache};

/// Writes a page that is kept, and shows its first byte, which is that of the page written.
pub fn write_and_show(cache: &mut PageCache, home: &Home, page: Page, waits: u64) -> Option<u8>
    requires { IsSome (frames_of cache.old home.now) }
    ensures { result ≡ Some (slice_index page 0) }
{
    cache.write(*home, page, waits);
    match cache.frame(*home) {
        Some(page) => Some(page.bytes()[0]),
        None => None,
    }
}
