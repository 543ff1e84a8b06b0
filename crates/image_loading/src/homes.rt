//! Bringing the pages at the homes of a set.
ghost use Rattle.std.specs.Prelude.{◌≡◌, IsSome, OnOk};
ghost use Rattle.slot_files.specs.domain_base.declared.place.Home.{Home};
ghost use Rattle.slot_files.specs.domain_layout.Reached.{IsWithin};
ghost use Rattle.slot_files.specs.sorted_sets.Members.{IsIn};
ghost use Rattle.slot_files.specs.log_ring.Homes.{HasMembers};
ghost use Rattle.image_loading.specs.Loading.{Brings, NamesCause};
ghost use Rattle.slot_files.specs.page_ways.Frame.{frame_in};

use crate::{LoadFault, fetch_within};
use slot_files::{DomainFrame, HomeSet, MetaPages, Rack};
use std::alloc::Global;

/// Brings the pages at the homes of a set, as far as they are a member's.
pub(crate) fn load_homes<R: Rack, M: MetaPages>(
    alloc: Global,
    rack: &mut R,
    frame: &DomainFrame,
    homes: &HomeSet,
    pages: &mut M,
) -> Result<(), LoadFault>
    requires { HasMembers (R.disk rack.old).sizes frame.now.anchor }
    ensures brings { Brings (R.disk rack.old) (R.disk rack.new) (M.pages pages.old)
        (M.pages pages.new) }
    ensures whole { OnOk result ((home : Home) → IsIn homes.now home
        → IsWithin (frame_in frame.now) home → IsSome (M.pages pages.new home)) }
    ensures fault { NamesCause (R.disk rack.old) (R.disk rack.new) result }
    ensures before { M.before pages.new ≡ M.before pages.old }
{
    for (_, home) in homes.as_slice() {
        fetch_within(alloc, rack, frame, home, pages)?;
    }
    Ok(())
}
