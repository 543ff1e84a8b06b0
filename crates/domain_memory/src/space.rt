//! The free space of all volumes.
ghost use Rattle.std.specs.Prelude.{◌≡◌, ◌+◌, ◌≤◌, ℕ, IfOk, OnOk};
ghost use Rattle.standing_laws.specs.domain_base.Limits.{max_volume_pages_4};
ghost use Rattle.standing_laws.specs.log_ring.Homes.{IsMember, member_of as member_there};
ghost use Rattle.standing_laws.specs.page_ways.Frame.{frame_in};
ghost use Rattle.standing_laws.specs.domain_standing.Marks.{IsMarked};
ghost use Rattle.domain_memory.specs.Maps.{IsMarkedBelow};

use crate::maps::read_map;
use standing_laws::{DomainFrame, FreeSpace, MetaPages, OutOfMemory, VolIx};
use std::alloc::Global;

/// The state of a closed member.
const CLOSED: u32 = 2;

/// Adds the free space of a volume, if it is a member. Nothing is taken from a closed one.
fn add_volume<M: MetaPages>(
    alloc: Global,
    pages: &M,
    frame: &DomainFrame,
    number: u32,
    space: &mut FreeSpace,
) -> Result<(), OutOfMemory>
    requires few { (vol : ℕ) → IsMember frame.now.anchor vol
        → (member_there frame.now.anchor vol).pages ≤ max_volume_pages_4 }
    requires first { 1 ≤ number }
    requires below { IsMarkedBelow (M.pages pages.now) (frame_in frame.now) number space.old }
    ensures { OnOk result (IsMarkedBelow (M.pages pages.now) (frame_in frame.now) (number + 1)
        space.new) }
{
    let Some(vol) = VolIx::new(number) else {
        return Ok(());
    };
    if !frame.is_member(vol) {
        return Ok(());
    }
    let map = read_map(alloc, pages, frame, vol)?;
    if let Err((_, fault)) = space.add_volume(alloc, vol, map) {
        return Err(fault);
    }
    if frame.member(vol).state == CLOSED {
        space.close_volume(vol);
    }
    Ok(())
}

/// The free space of a domain's volumes, by the bits of their bitmaps: pages of closed members are
/// not taken, and none waits.
pub fn read_space<M: MetaPages>(
    alloc: Global,
    pages: &M,
    frame: &DomainFrame,
) -> Result<FreeSpace, OutOfMemory>
    requires few { (vol : ℕ) → IsMember frame.now.anchor vol
        → (member_there frame.now.anchor vol).pages ≤ max_volume_pages_4 }
    ensures { IfOk result (IsMarked (M.pages pages.now) (frame_in frame.now)) }
{
    let mut space = FreeSpace::new(alloc)?;
    for number in 1..9_u32 {
        add_volume(alloc, pages, frame, number, &mut space)?;
    }
    Ok(space)
}
