//! Whether an anchor is in range.
ghost use Rattle.std.specs.Prelude.{◌≡◌, ◌+◌, ◌≤◌, ◌<◌, ◌↔◌, IsTrue, length};
ghost use Rattle.log_ring.specs.disk_label.Anchor.{IsWhole};
ghost use Rattle.log_recovery.specs.Members.{version_in};
ghost use Rattle.log_recovery.specs.Range.{
  AreSizedBelow,
  HasNumbers,
  IsInRange,
  IsLogInside,
  IsSized,
  IsTableInside,
};

use log_ring::limits::{LOG_PAGES, MAX_VOLUMES, MIN_VOLUME_PAGES};
use log_ring::{Anchor, NUMBERS, Version, VolIx, is_member, member_of};

/// The pages before a volume's bitmap.
const FIRST_BITMAP_PAGE: u32 = 2;

/// Whether an anchor may be written: its version is 3 or 4, its log stands on a member, and it has
/// a table.
pub fn is_whole(anchor: &Anchor) -> bool
    ensures { IsTrue result ↔ IsWhole anchor.now }
{
    let version = anchor.version == 3 || anchor.version == 4;
    let volume = 1 <= anchor.log_vol && anchor.log_vol <= MAX_VOLUMES;
    let named = version && anchor.slot <= 1 && anchor.table.is_some();
    volume && named && anchor.has_log_member()
}

/// Whether the numbers of an anchor are in their ranges.
fn has_numbers(anchor: &Anchor) -> bool
    ensures { IsTrue result ↔ HasNumbers anchor.now }
{
    1 <= anchor.number
        && anchor.number < NUMBERS
        && anchor.group < NUMBERS
        && anchor.start < LOG_PAGES
        && anchor.log_pages == LOG_PAGES
}

/// Whether a volume has a valid state and, if it is a member, a number of pages that is allowed
/// when its label has this version.
fn is_sized(version: Version, anchor: &Anchor, vol: VolIx) -> bool
    ensures { IsTrue result ↔ IsSized version anchor.now vol }
{
    let member = member_of(anchor, vol);
    let in_limits = MIN_VOLUME_PAGES <= member.pages && member.pages <= version.max_volume_pages();
    member.state <= 2 && (in_limits || !is_member(anchor, vol))
}

/// Whether all volumes are sized, with the versions of their labels.
fn are_sized(versions: &[Version; 8], anchor: &Anchor) -> bool
    ensures { IsTrue result ↔ AreSizedBelow 9 (version_in versions.now) anchor.now }
{
    for number in 1..MAX_VOLUMES + 1 {
        let Some(vol) = VolIx::new(number) else {
            unreachable!()
        };
        if !is_sized(versions[vol.index()], anchor, vol) {
            return false;
        }
    }
    true
}

/// Whether the log lies on its volume after the bitmap.
fn is_log_inside(version: Version, anchor: &Anchor, vol: VolIx) -> bool
    requires { vol ≡ anchor.now.log_vol }
    ensures { IsTrue result ↔ IsLogInside version anchor.now }
{
    let pages = member_of(anchor, vol).pages;
    let behind = FIRST_BITMAP_PAGE + version.bitmap_pages(pages);
    behind <= anchor.log_page && LOG_PAGES <= pages && anchor.log_page <= pages - LOG_PAGES
}

/// Whether the table of filesets lies on a member.
fn is_table_inside(anchor: &Anchor) -> bool
    ensures { IsTrue result ↔ IsTableInside anchor.now }
{
    match anchor.table {
        Some(home) => is_member(anchor, home.vol) && home.page < member_of(anchor, home.vol).pages,
        None => false,
    }
}

/// Whether an anchor is in range if the labels of its members have these versions.
pub(crate) fn is_in_range(versions: &[Version; 8], anchor: &Anchor) -> bool
    ensures { IsTrue result ↔ IsInRange (version_in versions.now) anchor.now }
{
    let Some(vol) = VolIx::new(anchor.log_vol) else {
        return false;
    };
    is_whole(anchor)
        && has_numbers(anchor)
        && are_sized(versions, anchor)
        && is_log_inside(versions[vol.index()], anchor, vol)
        && is_table_inside(anchor)
}
