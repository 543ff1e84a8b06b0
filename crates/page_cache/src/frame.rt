//! A page that is kept.
ghost use Rattle.std.specs.Prelude.{◌≡◌};
ghost use Rattle.page_cache.specs.Frames.{later_of};

use page_store::Page;

/// The bytes of a page and, if they are not at their home yet, the group of the log that they wait
/// for.
#[derive(Debug, Drop)]
pub struct Frame {
    pub page: Page,
    pub waits: Option<u64>,
}

/// The later of a group and the one that a frame waits for, if it waits for one.
pub(crate) fn later_of(waits: Option<u64>, group: u64) -> u64
    ensures { result ≡ later_of waits group }
{
    match waits {
        Some(waits) => waits.max(group),
        None => group,
    }
}
