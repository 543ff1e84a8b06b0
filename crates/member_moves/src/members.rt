//! The anchors that change members, the log's place, the table's place, or the version.
ghost use Rattle.std.specs.Prelude.{◌≡◌, ◌≢◌, ◌+◌, ◌<◌, ◌≤◌, ◌↔◌, IsTrue, Some};
ghost use Rattle.log_recovery.specs.domain_base.Limits.{
  log_pages,
  max_volume_pages_4,
  min_volume_pages,
};
ghost use Rattle.log_recovery.specs.domain_base.Version.{number_of};
ghost use Rattle.log_recovery.specs.disk_label.FirstPages.{anchors_page};
ghost use Rattle.log_recovery.specs.log_ring.Homes.{IsMember, member_of as member_there};
ghost use Rattle.member_moves.specs.Changes.{IsTableOn, with_entry};

use log_recovery::{Anchor, Home, Member, Version, VolIx, member_of};

/// The state of a member that gives storage.
const OPEN: u32 = 1;

/// The anchor with another entry for a volume.
fn with_entry(anchor: &Anchor, vol: VolIx, member: Member) -> Anchor
    ensures { result ≡ with_entry vol member anchor.now }
{
    let mut members = anchor.members;
    members[vol.index()] = member;
    Anchor { members, ..*anchor }
}

/// The anchor by which a volume becomes an open member with `pages` pages of 8,192 bytes, from the
/// fewest that a volume may have to the most of version 4. It must not be a member yet. Number,
/// slot and all else stay: the log's next anchor takes its own.
pub fn with_member(anchor: &Anchor, vol: VolIx, pages: u32) -> Anchor
    requires member { ¬ IsMember anchor.now vol }
    requires least { min_volume_pages ≤ pages }
    requires most { pages ≤ max_volume_pages_4 }
    ensures { result ≡ with_entry vol (record { pages = pages; state = 1 }) anchor.now }
{
    with_entry(anchor, vol, Member { pages, state: OPEN })
}

/// The anchor by which a member is open at state 1, closed at state 2, and no longer a member at
/// state 0. The volume must be a member, and one that is taken off must have neither the log nor
/// the fileset table. Its number of pages stays as it is, also at state 0, at which nothing reads
/// it.
pub fn with_state(anchor: &Anchor, vol: VolIx, state: u32) -> Anchor
    requires member { IsMember anchor.now vol }
    requires state { state ≤ 2 }
    requires log { state ≡ 0 → anchor.now.log_vol ≢ vol }
    requires table { state ≡ 0 → ¬ IsTableOn anchor.now vol }
    ensures { result
        ≡ with_entry vol (record (member_there anchor.now vol) { state = state }) anchor.now }
{
    let pages = member_of(anchor, vol).pages;
    with_entry(anchor, vol, Member { pages, state })
}

/// Whether the log stands on this volume.
pub fn has_log(anchor: &Anchor, vol: VolIx) -> bool
    ensures { IsTrue result ↔ (anchor.now.log_vol ≡ vol) }
{
    anchor.log_vol == vol.number()
}

/// Whether the fileset table stands on this volume.
pub fn has_table(anchor: &Anchor, vol: VolIx) -> bool
    ensures { IsTrue result ↔ IsTableOn anchor.now vol }
{
    match anchor.table {
        Some(home) => home.vol.number() == vol.number(),
        None => false,
    }
}

/// The anchor by which the log begins at this page of a volume. The volume must be a member, and
/// the log's pages must lie inside it, after its label and anchors.
pub fn with_log(anchor: &Anchor, vol: VolIx, first: u32) -> Anchor
    requires member { IsMember anchor.now vol }
    requires after { anchors_page < first }
    requires within { first + log_pages ≤ (member_there anchor.now vol).pages }
    ensures { result ≡ record anchor.now { log_vol = vol; log_page = first } }
{
    Anchor {
        log_vol: vol.number(),
        log_page: first,
        ..*anchor
    }
}

/// The anchor by which the fileset table stands at this home, which must be a page of a member.
pub fn with_table(anchor: &Anchor, home: Home) -> Anchor
    requires member { IsMember anchor.now home.vol }
    requires within { home.page < (member_there anchor.now home.vol).pages }
    ensures { result ≡ record anchor.now { table = Some home } }
{
    Anchor {
        table: Some(home),
        ..*anchor
    }
}

/// The anchor with another version of the domain.
pub fn with_version(anchor: &Anchor, version: Version) -> Anchor
    ensures { result ≡ record anchor.now { version = number_of version } }
{
    Anchor {
        version: version.number(),
        ..*anchor
    }
}
