//! Whether what an anchor says lies within the members.
ghost use Rattle.std.specs.Prelude.{◌≡◌, ◌↔◌, IsTrue};
ghost use Rattle.domain_faults.specs.disk_label.Anchor.{IsWhole};
ghost use Rattle.domain_faults.specs.log_recovery.Range.{IsLogInside};
ghost use Rattle.domain_faults.specs.page_ways.Frame.{frame_in};
ghost use Rattle.domain_bringing.specs.Range.{AreSizedBelow, IsInRange, IsSized, IsTableWithin};

use domain_faults::limits::{LOG_PAGES, MAX_VOLUMES};
use domain_faults::{DomainFrame, VolIx};

/// The pages before a volume's bitmap.
const FIRST_BITMAP_PAGE: u32 = 2;

/// Whether a volume, if it is a member, has no more pages than its version allows, and its bitmap
/// within these.
fn is_sized(frame: &DomainFrame, vol: VolIx) -> bool
    ensures { IsTrue result ↔ IsSized (frame_in frame.now) vol }
{
    if !frame.is_member(vol) {
        return true;
    }
    let pages = frame.member(vol).pages;
    let version = frame.version;
    pages <= version.max_volume_pages() && FIRST_BITMAP_PAGE + version.bitmap_pages(pages) <= pages
}

/// Whether all volumes that are members have no more pages than their version allows, and their
/// bitmaps within these.
fn are_sized(frame: &DomainFrame) -> bool
    ensures { IsTrue result ↔ AreSizedBelow 9 (frame_in frame.now) }
{
    for number in 1..MAX_VOLUMES + 1 {
        let Some(vol) = VolIx::new(number) else {
            unreachable!()
        };
        if !is_sized(frame, vol) {
            return false;
        }
    }
    true
}

/// Whether the log lies on its volume after the bitmap.
fn is_log_inside(frame: &DomainFrame, vol: VolIx) -> bool
    requires { vol ≡ frame.now.anchor.log_vol }
    ensures { IsTrue result ↔ IsLogInside frame.now.version frame.now.anchor }
{
    let pages = frame.member(vol).pages;
    let behind = FIRST_BITMAP_PAGE + frame.version.bitmap_pages(pages);
    let page = frame.anchor.log_page;
    behind <= page && LOG_PAGES <= pages && page <= pages - LOG_PAGES
}

/// Whether the fileset table is a page of a member.
fn is_table_within(frame: &DomainFrame) -> bool
    ensures { IsTrue result ↔ IsTableWithin (frame_in frame.now) }
{
    match &frame.anchor.table {
        Some(home) => frame.is_within(home),
        None => false,
    }
}

/// Whether members have no more pages than their version allows, and their bitmaps, the log and the
/// fileset table within these.
pub(crate) fn is_in_range(frame: &DomainFrame) -> bool
    requires { IsWhole frame.now.anchor }
    ensures { IsTrue result ↔ IsInRange (frame_in frame.now) }
{
    let Some(vol) = VolIx::new(frame.anchor.log_vol) else {
        unreachable!()
    };
    are_sized(frame) && is_log_inside(frame, vol) && is_table_within(frame)
}
