//! The anchor that counts, and which pages may be what.
ghost use Rattle.std.specs.Prelude.{◌≡◌, ◌↔◌, ◌≤◌, IsTrue};
ghost use Rattle.domain_layout.specs.Reached.{IsReserved, IsWithin, MayBe, first_cells};
ghost use Rattle.domain_layout.specs.log_ring.Homes.{IsLogPage, IsMember, member_of as member_there};
ghost use Rattle.page_ways.specs.Frame.{frame_in};

use domain_layout::limits::LOG_PAGES;
use domain_layout::{Anchor, FirstPages, Home, Member, Version, VolIx, is_member, member_of};

/// The anchor that counts, and the version that it says.
#[derive(Clone, Copy, Debug, PartialEq, Eq)]
pub struct DomainFrame {
    pub anchor: Anchor,
    pub version: Version,
}

impl DomainFrame {
    /// A volume as the anchor has it.
    pub fn member(&self, vol: VolIx) -> Member
        ensures { result ≡ member_there self.now.anchor vol }
    {
        member_of(&self.anchor, vol)
    }

    /// Whether a volume is a member, open or closed.
    pub fn is_member(&self, vol: VolIx) -> bool
        ensures { IsTrue result ↔ IsMember self.now.anchor vol }
    {
        is_member(&self.anchor, vol)
    }

    /// The first page of cells of a volume. Label, anchors and bitmap stand before it.
    pub fn first_cells(&self, vol: VolIx) -> u32
        ensures { result ≡ first_cells (frame_in self.now) vol }
    {
        FirstPages::of(self.version, self.member(vol).pages).cells
    }

    /// Whether a page is one of the log.
    pub fn is_log_page(&self, home: &Home) -> bool
        ensures { IsTrue result ↔ IsLogPage self.now.anchor home.now }
    {
        home.vol.number() == self.anchor.log_vol
            && self.anchor.log_page <= home.page
            && home.page - self.anchor.log_page < LOG_PAGES
    }

    /// Whether a page belongs to a member.
    pub fn is_within(&self, home: &Home) -> bool
        ensures { IsTrue result ↔ IsWithin (frame_in self.now) home.now }
    {
        self.is_member(home.vol) && home.page < self.member(home.vol).pages
    }

    /// Whether a page is one of label, anchors, bitmap or log.
    pub fn is_reserved(&self, home: &Home) -> bool
        ensures { IsTrue result ↔ IsReserved (frame_in self.now) home.now }
    {
        home.page < self.first_cells(home.vol) || self.is_log_page(home)
    }

    /// Whether a page may be one of a table, a directory, an index or a file.
    pub fn may_be(&self, home: &Home) -> bool
        ensures { IsTrue result ↔ MayBe (frame_in self.now) home.now }
    {
        self.is_within(home) && !self.is_reserved(home)
    }
}
