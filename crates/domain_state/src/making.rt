//! Making a domain.
ghost use Rattle.std.specs.Prelude.{◌≡◌, ◌<◌, Err, IfErr, IfOk};
ghost use Rattle.std.specs.FinMap.{empty};
ghost use Rattle.no_faults.specs.domain_base.Limits.{min_first_volume_pages};
ghost use Rattle.no_faults.specs.volume_disk.Disk.{HasVolume, Tells, volume_pages};
ghost use Rattle.no_faults.specs.volume_disk.Run.{LeavesOnly, Touches};
ghost use Rattle.no_faults.specs.disk_label.Fault.{HasPassed};
ghost use Rattle.no_faults.specs.staged_pages.Store.{before_of};
ghost use Rattle.no_faults.specs.domain_layout.NewDomain.{IsNew};
ghost use Rattle.no_faults.specs.page_ways.Frame.{frame_in};
ghost use Rattle.no_faults.specs.domain_making.Fault.{HasCause};
ghost use Rattle.no_faults.specs.domain_making.Making.{
  AreSlotsReady,
  HasNoOtherAnchor,
  IsLarge,
  IsMade,
  IsNoneOrEmpty,
  IsOnFirst,
  new_anchor,
  new_frame,
  pages_in_use,
};
ghost use Rattle.no_faults.specs.domain_making.Pages.{AreNew};
ghost use Rattle.no_faults.specs.domain_making.declared.fault.MakeFault.TheVariants.{VolumeSmall};
ghost use Rattle.no_faults.specs.domain_memory.Memory.{StandsFor};
ghost use Rattle.no_faults.specs.domain_memory.Staged.{IsSettled, MayGoBack};

use crate::Attached;
use no_faults::{DomainMemory, MakeFault, NewPages, Rack, Version, pages_to_use};
use std::alloc::Global;

/// The memory of a domain that is to be made on a rack from these pages.
fn new_memory<R: Rack>(
    alloc: Global,
    rack: &R,
    version: Version,
    new: &NewPages,
) -> Result<DomainMemory, MakeFault>
    requires large { IsLarge (R.disk rack.now).sizes }
    requires new { AreNew version (pages_in_use version (R.disk rack.now).sizes) new.now }
    ensures new { IfOk result (λ memory. IsNew (before_of memory.pages)
        (new_frame version (pages_in_use version (R.disk rack.now).sizes))) }
    ensures stands { IfOk result (λ memory. StandsFor memory empty) }
    ensures settled { IfOk result IsSettled }
    ensures back { IfOk result MayGoBack }
    ensures frame { IfOk result (λ memory. frame_in memory.frame
        ≡ new_frame version (pages_in_use version (R.disk rack.now).sizes)) }
    ensures cause { IfErr result (HasCause (R.disk rack.now) (R.disk rack.now)) }
{
    let pages = pages_to_use(rack, version);
    Ok(DomainMemory::of_new(alloc, new, version, pages)?)
}

/// Makes an empty domain of this version on volume 1 of a rack, whatever that volume held, and
/// keeps it in memory. All memory is taken before the first write. No other volume may have an
/// anchor that counts.
///
/// Returns `VolumeSmall` if and only if volume 1 has fewer than 160 pages of 8,192 bytes, and
/// `Fault` only if a call of the volume that it names failed. The rack is given back with the
/// fault. Nothing is written at `VolumeSmall` and `OutOfMemory`. If no anchor could count before,
/// each image that a stop may leave has no anchor, or is the empty domain.
pub fn make<R: Rack>(
    alloc: Global,
    rack: R,
    version: Version,
) -> Result<Attached<R>, (R, MakeFault)>
    requires there { HasVolume (R.disk rack) 1 }
    requires others { Tells (R.disk rack) → HasNoOtherAnchor (R.disk rack) }
    ensures made { let pages = pages_in_use version (R.disk rack).sizes in
        IfOk result (λ attached. Tells (R.disk rack)
        → IsMade (R.disk attached.rack) (new_anchor version pages)) }
    ensures new { let pages = pages_in_use version (R.disk rack).sizes in
        IfOk result (λ attached. IsNew (before_of attached.memory.pages)
        (new_frame version pages)) }
    ensures empty { IfOk result (λ attached. StandsFor attached.memory empty) }
    ensures frame { let pages = pages_in_use version (R.disk rack).sizes in
        IfOk result (λ attached. frame_in attached.memory.frame ≡ new_frame version pages) }
    ensures touches { IfOk result (λ attached. Touches (R.disk rack) (R.disk attached.rack)
        IsOnFirst) }
    ensures touches_at_fault { IfErr result (λ back. Touches (R.disk rack) (R.disk back.0)
        IsOnFirst) }
    ensures passed { IfOk result (λ attached.
        HasPassed (R.disk rack) (R.disk attached.rack)) }
    ensures any_moment { let old = R.disk rack in
        let pages = pages_in_use version old.sizes in Tells old → AreSlotsReady old
        → IfOk result (λ attached. LeavesOnly old (R.disk attached.rack)
        (IsNoneOrEmpty old.sizes version pages)) }
    ensures any_moment_of_fault { let old = R.disk rack in
        let pages = pages_in_use version old.sizes in Tells old → AreSlotsReady old
        → IfErr result (λ back. LeavesOnly old (R.disk back.0)
        (IsNoneOrEmpty old.sizes version pages)) }
    ensures small { let pages = volume_pages (R.disk rack).sizes 1 in
        pages < min_first_volume_pages → result ≡ Err (rack, VolumeSmall pages) }
    ensures cause { IfErr result (λ back. HasCause (R.disk rack) (R.disk back.0) back.1) }
{
    let mut rack = rack;
    let new = match NewPages::on_rack(alloc, &rack, version) {
        Ok(new) => new,
        Err(fault) => return Err((rack, fault)),
    };
    let memory = match new_memory(alloc, &rack, version, &new) {
        Ok(memory) => memory,
        Err(fault) => return Err((rack, fault)),
    };
    match new.write(&mut rack, version) {
        Ok(_) => Ok(Attached { rack, memory }),
        Err(fault) => Err((rack, fault)),
    }
}
