//! Bringing pages that are not there.
ghost use Rattle.std.specs.Prelude.{◌≡◌, IsSome, OnOk};
ghost use Rattle.slot_files.specs.domain_layout.Reached.{IsWithin, MayBe};
ghost use Rattle.slot_files.specs.log_ring.Homes.{HasMembers};
ghost use Rattle.image_loading.specs.Loading.{Brings, NamesCause};
ghost use Rattle.slot_files.specs.page_ways.Frame.{frame_in};

use crate::fault::LoadFault;
use crate::parts::read_part;
use crate::rows::count_in_row;
use slot_files::limits::PAGE_BYTES;
use slot_files::{DomainFrame, Home, MetaPages, Rack};
use std::alloc::Global;

/// Reads the page at a home, which is a member's and not there, and puts it there, with the pages
/// that come along with it, by one call.
fn bring<R: Rack, M: MetaPages>(
    alloc: Global,
    rack: &mut R,
    frame: &DomainFrame,
    home: &Home,
    pages: &mut M,
) -> Result<(), LoadFault>
    requires members { HasMembers (R.disk rack.old).sizes frame.now.anchor }
    requires within { IsWithin (frame_in frame.now) home.now }
    ensures brings { Brings (R.disk rack.old) (R.disk rack.new) (M.pages pages.old)
        (M.pages pages.new) }
    ensures there { OnOk result (IsSome (M.pages pages.new home.now)) }
    ensures fault { NamesCause (R.disk rack.old) (R.disk rack.new) result }
    ensures before { M.before pages.new ≡ M.before pages.old }
{
    let count = count_in_row(pages, frame, home);
    let mut found = vec![in alloc; 0; count as usize * PAGE_BYTES]?;
    read_part(alloc, rack, home.vol, home.page, count, &mut found, pages)
}

/// Makes sure that the page at a home of a member is there: if it is not, it is read from its
/// volume.
#[tactic(auto, using(crate::proofs::Brought::brings_none))]
pub fn fetch<R: Rack, M: MetaPages>(
    alloc: Global,
    rack: &mut R,
    frame: &DomainFrame,
    home: &Home,
    pages: &mut M,
) -> Result<(), LoadFault>
    requires members { HasMembers (R.disk rack.old).sizes frame.now.anchor }
    requires within { IsWithin (frame_in frame.now) home.now }
    ensures brings { Brings (R.disk rack.old) (R.disk rack.new) (M.pages pages.old)
        (M.pages pages.new) }
    ensures there { OnOk result (IsSome (M.pages pages.new home.now)) }
    ensures fault { NamesCause (R.disk rack.old) (R.disk rack.new) result }
    ensures before { M.before pages.new ≡ M.before pages.old }
{
    if pages.get(*home).is_some() {
        return Ok(());
    }
    bring(alloc, rack, frame, home, pages)
}

/// Makes sure that the page at a home to which pages lead is there. The home is passed over if it
/// may not be a table's.
#[tactic(auto, using(crate::proofs::Brought::brings_none))]
pub fn fetch_next<R: Rack, M: MetaPages>(
    alloc: Global,
    rack: &mut R,
    frame: &DomainFrame,
    home: &Home,
    pages: &mut M,
) -> Result<(), LoadFault>
    requires members { HasMembers (R.disk rack.old).sizes frame.now.anchor }
    ensures brings { Brings (R.disk rack.old) (R.disk rack.new) (M.pages pages.old)
        (M.pages pages.new) }
    ensures there { OnOk result
        (MayBe (frame_in frame.now) home.now → IsSome (M.pages pages.new home.now)) }
    ensures fault { NamesCause (R.disk rack.old) (R.disk rack.new) result }
    ensures before { M.before pages.new ≡ M.before pages.old }
{
    if !frame.may_be(home) {
        return Ok(());
    }
    fetch(alloc, rack, frame, home, pages)
}

/// Makes sure that the page at any home is there. The home is passed over if it is not a member's.
#[tactic(auto, using(crate::proofs::Brought::brings_none))]
pub fn fetch_within<R: Rack, M: MetaPages>(
    alloc: Global,
    rack: &mut R,
    frame: &DomainFrame,
    home: &Home,
    pages: &mut M,
) -> Result<(), LoadFault>
    requires members { HasMembers (R.disk rack.old).sizes frame.now.anchor }
    ensures brings { Brings (R.disk rack.old) (R.disk rack.new) (M.pages pages.old)
        (M.pages pages.new) }
    ensures there { OnOk result
        (IsWithin (frame_in frame.now) home.now → IsSome (M.pages pages.new home.now)) }
    ensures fault { NamesCause (R.disk rack.old) (R.disk rack.new) result }
    ensures before { M.before pages.new ≡ M.before pages.old }
{
    if !frame.is_within(home) {
        return Ok(());
    }
    fetch(alloc, rack, frame, home, pages)
}
