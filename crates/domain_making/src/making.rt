//! Making a domain.
ghost use Rattle.std.specs.Prelude.{◌≡◌, ◌<◌, Err, IfErr, IfOk, OnOk};
ghost use Rattle.domain_layout.specs.domain_base.Limits.{min_first_volume_pages};
ghost use Rattle.domain_layout.specs.volume_disk.Disk.{HasVolume, Tells, volume_pages};
ghost use Rattle.domain_layout.specs.volume_disk.Run.{LeavesOnly, Touches};
ghost use Rattle.domain_layout.specs.disk_label.Fault.{HasPassed};
ghost use Rattle.domain_making.specs.Fault.{HasCause, IsFaultOf};
ghost use Rattle.domain_making.specs.Making.{
  AreSlotsReady,
  HasNoOtherAnchor,
  IsBeforeNoneOrEmpty,
  IsLarge,
  IsMade,
  IsNoneOrEmpty,
  IsOnFirst,
  new_anchor as anchor_of,
  pages_in_use,
};
ghost use Rattle.domain_making.specs.Pages.{AreNew};
ghost use Rattle.domain_making.specs.declared.fault.MakeFault.TheVariants.{VolumeSmall};

use crate::MakeFault;
use crate::anchor::{first_volume, new_anchor};
use crate::pages::NewPages;
use crate::writing::write_domain;
use domain_layout::limits::MIN_FIRST_VOLUME_PAGES;
use domain_layout::{Anchor, Rack, SlotFault, Version, usable_pages};
use std::alloc::Global;

/// The fault of making for the fault of a slot.
fn fault_of(fault: SlotFault) -> MakeFault
    ensures { IsFaultOf fault result }
{
    match fault {
        SlotFault::Read { vol } | SlotFault::Write { vol } => MakeFault::Fault { vol },
    }
}

/// How many pages of volume 1 of a rack a domain of this version uses.
pub fn pages_to_use<R: Rack>(rack: &R, version: Version) -> u32
    ensures { result ≡ pages_in_use version (R.disk rack.now).sizes }
{
    usable_pages(rack, first_volume(), version)
}

impl NewPages {
    /// The pages of a domain that is made in this version on volume 1 of a rack: all the memory
    /// that making a domain needs. The rack is left alone.
    ///
    /// Returns `VolumeSmall` if and only if volume 1 has fewer than 160 pages. Otherwise fails only
    /// if memory runs out.
    pub fn on_rack<R: Rack>(
        alloc: Global,
        rack: &R,
        version: Version,
    ) -> Result<NewPages, MakeFault>
        ensures new { IfOk result (AreNew version (pages_in_use version
            (R.disk rack.now).sizes)) }
        ensures large { OnOk result (IsLarge (R.disk rack.now).sizes) }
        ensures small { let pages = volume_pages (R.disk rack.now).sizes 1 in
            pages < min_first_volume_pages → result ≡ Err (VolumeSmall pages) }
        ensures cause { IfErr result (HasCause (R.disk rack.now) (R.disk rack.now)) }
    {
        let available = rack.pages(first_volume());
        if available < MIN_FIRST_VOLUME_PAGES {
            return Err(MakeFault::VolumeSmall { pages: available });
        }
        let pages = pages_to_use(rack, version);
        Ok(NewPages::new(alloc, version, pages)?)
    }

    /// Makes an empty domain of these pages on volume 1 of their rack, as `make_domain` does, and
    /// takes no memory.
    pub fn write<R: Rack>(&self, rack: &mut R, version: Version) -> Result<Anchor, MakeFault>
        requires there { HasVolume (R.disk rack.old) 1 }
        requires large { IsLarge (R.disk rack.old).sizes }
        requires new { AreNew version (pages_in_use version (R.disk rack.old).sizes) self.now }
        requires others { Tells (R.disk rack.old) → HasNoOtherAnchor (R.disk rack.old) }
        ensures touches { Touches (R.disk rack.old) (R.disk rack.new) IsOnFirst }
        ensures anchor { IfOk result (λ anchor. anchor
            ≡ anchor_of version (pages_in_use version (R.disk rack.old).sizes)) }
        ensures made { IfOk result (λ anchor. Tells (R.disk rack.old)
            → IsMade (R.disk rack.new) anchor) }
        ensures any_moment { let old = R.disk rack.old in
            let pages = pages_in_use version old.sizes in Tells old → AreSlotsReady old
            → LeavesOnly old (R.disk rack.new) (IsNoneOrEmpty old.sizes version pages) }
        ensures over { let old = R.disk rack.old in
            let pages = pages_in_use version old.sizes in Tells old
            → LeavesOnly old (R.disk rack.new) (IsBeforeNoneOrEmpty old version pages) }
        ensures passed { IfOk result (λ _. HasPassed (R.disk rack.old) (R.disk rack.new)) }
        ensures cause { IfErr result (HasCause (R.disk rack.old) (R.disk rack.new)) }
    {
        let pages = pages_to_use(rack, version);
        match write_domain(rack, version, pages, self) {
            Ok(()) => Ok(new_anchor(version, pages)),
            Err(fault) => Err(fault_of(fault)),
        }
    }
}

/// Makes an empty domain of this version on volume 1, whatever that volume held, and returns its
/// anchor: number 1 in slot 0, with the first group at the first place of the log. If the volume
/// has more pages than the version allows, only the first ones are used.
///
/// Both slots of anchors are closed before anything else. The pages are written after that, and
/// synced, and the anchor comes last. So if no anchor could count before, each image that a stop
/// leaves on the way has none, or is the empty domain. If the volume had a domain, that is gone
/// once both gates are closed, and no page of it is overwritten before.
///
/// No image that a stop may leave at the start may have an anchor that counts on another volume.
/// Returns `VolumeSmall` if and only if volume 1 has fewer than 160 pages of 8,192 bytes, and
/// `Fault` only if a call of the volume that it names failed. Nothing is written at `VolumeSmall`,
/// nor at `OutOfMemory`.
pub fn make_domain<R: Rack>(
    alloc: Global,
    rack: &mut R,
    version: Version,
) -> Result<Anchor, MakeFault>
    requires there { HasVolume (R.disk rack.old) 1 }
    requires others { Tells (R.disk rack.old) → HasNoOtherAnchor (R.disk rack.old) }
    ensures touches { Touches (R.disk rack.old) (R.disk rack.new) IsOnFirst }
    ensures anchor { IfOk result (λ anchor. anchor
        ≡ anchor_of version (pages_in_use version (R.disk rack.old).sizes)) }
    ensures made { IfOk result (λ anchor. Tells (R.disk rack.old)
        → IsMade (R.disk rack.new) anchor) }
    ensures any_moment { let old = R.disk rack.old in
        let pages = pages_in_use version old.sizes in Tells old → AreSlotsReady old
        → LeavesOnly old (R.disk rack.new) (IsNoneOrEmpty old.sizes version pages) }
    ensures over { let old = R.disk rack.old in
        let pages = pages_in_use version old.sizes in Tells old
        → LeavesOnly old (R.disk rack.new) (IsBeforeNoneOrEmpty old version pages) }
    ensures small { let pages = volume_pages (R.disk rack.old).sizes 1 in
        pages < min_first_volume_pages → result ≡ Err (VolumeSmall pages) }
    ensures passed { IfOk result (λ _. HasPassed (R.disk rack.old) (R.disk rack.new)) }
    ensures cause { IfErr result (HasCause (R.disk rack.old) (R.disk rack.new)) }
{
    let new = NewPages::on_rack(alloc, rack, version)?;
    new.write(rack, version)
}
