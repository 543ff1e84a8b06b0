//! Where the places of a log's ring stand.
ghost use Rattle.std.specs.Prelude.{◌≡◌, ◌+◌, ◌^◌, ◌<◌, ◌≤◌};
ghost use Rattle.disk_label.specs.domain_base.Limits.{log_pages};
ghost use Rattle.log_ring.specs.Ring.{ring_page as page_of_place};

use disk_label::Anchor;
use disk_label::limits::LOG_PAGES;

/// The page of a place of the ring, on the volume of the log. The count of places continues past
/// the end of the ring.
pub fn ring_page(anchor: &Anchor, place: u32) -> u32
    requires { anchor.now.log_page + log_pages ≤ 2 ^ 32 }
    ensures page { result ≡ page_of_place anchor.now place }
    ensures range { result < anchor.now.log_page + log_pages }
{
    anchor.log_page + place % LOG_PAGES
}
