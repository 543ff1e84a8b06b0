//! The anchor of a domain that was just made.
ghost use Rattle.std.specs.Prelude.{◌≡◌, ◌≤◌};
ghost use Rattle.domain_layout.specs.domain_base.Version.{most_pages};
ghost use Rattle.domain_making.specs.Making.{new_anchor as anchor_of};

use domain_layout::limits::LOG_PAGES;
use domain_layout::{Anchor, FirstPages, Home, Member, Version, VolIx};

/// A volume that is not a member.
const NO_MEMBER: Member = Member { pages: 0, state: 0 };

/// The state of an open member.
const OPEN: u32 = 1;

/// The volume on which a domain is made.
pub(crate) fn first_volume() -> VolIx
    ensures { result ≡ 1 }
{
    let Some(vol) = VolIx::new(1) else {
        unreachable!()
    };
    vol
}

/// The anchor of a domain of this version that was just made on a volume with `pages` used pages of
/// 8,192 bytes: number 1 in slot 0, a log that begins at its first place with group 1, and no
/// member except volume 1.
pub fn new_anchor(version: Version, pages: u32) -> Anchor
    requires { pages ≤ most_pages version }
    ensures { result ≡ anchor_of version pages }
{
    let firsts = FirstPages::of(version, pages);
    let mut members = [NO_MEMBER; 8];
    members[0] = Member { pages, state: OPEN };
    Anchor {
        number: 1,
        version: version.number(),
        log_vol: first_volume().number(),
        log_page: firsts.log,
        log_pages: LOG_PAGES,
        start: 0,
        group: 1,
        table: Some(Home {
            vol: first_volume(),
            page: firsts.table,
        }),
        members,
        slot: 0,
    }
}
