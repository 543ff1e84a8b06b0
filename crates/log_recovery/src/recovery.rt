//! Recovery: a log as it stands on a rack, from its anchor to its last group.
ghost use Rattle.std.specs.Prelude.{
  ◌≡◌,
  ◌+◌,
  ◌%◌,
  ◌<◌,
  List,
  Some,
  IfErr,
  IfOk,
  OnOk,
};
ghost use Rattle.log_ring.specs.domain_base.Limits.{log_pages};
ghost use Rattle.log_ring.specs.volume_disk.Disk.{Tells};
ghost use Rattle.log_ring.specs.volume_disk.Run.{OnlyReads};
ghost use Rattle.log_ring.specs.disk_label.Anchor.{IsAnchor};
ghost use Rattle.log_ring.specs.disk_label.FirstPages.{anchors_page};
ghost use Rattle.log_ring.specs.Groups.{Group};
ghost use Rattle.log_recovery.specs.Fault.{HasCause, IfNotADomain, IsFaultOf};
ghost use Rattle.log_recovery.specs.Members.{AreLabelled, label_version};
ghost use Rattle.log_recovery.specs.Range.{IsInRange};
ghost use Rattle.log_recovery.specs.declared.fault.RecoverFault.TheVariants.{NotADomain};
ghost use Rattle.log_recovery.specs.Outcome.{
  HasGoodAnchor,
  HasRecovered,
  IsAnchorFault,
  IsFirstFault,
  IsSound,
  IsUsable,
};

use crate::members::read_labels;
use crate::range::is_in_range;
use crate::scan::{Scan, read_groups};
use crate::{ImageList, RecoverFault, Redone};
use log_ring::limits::LOG_PAGES;
use log_ring::{ANCHORS_PAGE, Anchor, AnchorFault, Rack, read_anchor};
use std::alloc::Global;

/// The volume that is named if an anchor is wrong.
const FIRST_VOLUME: u32 = 1;

/// There is no domain, since no anchor is good.
fn bad_anchor() -> RecoverFault
    ensures { result ≡ NotADomain 1 anchors_page }
{
    RecoverFault::NotADomain {
        vol: FIRST_VOLUME,
        at: ANCHORS_PAGE,
    }
}

/// What the fault of an anchor means for recovery: there is no domain if no anchor counts.
fn fault_of(fault: &AnchorFault) -> RecoverFault
    ensures { IsFaultOf fault.now result }
{
    match fault {
        AnchorFault::NoAnchor => bad_anchor(),
        AnchorFault::Fault { vol } => RecoverFault::Fault { vol: *vol },
    }
}

/// The anchor that counts. There is no domain if none counts.
fn counting_anchor<R: Rack>(rack: &mut R) -> Result<Anchor, RecoverFault>
    ensures reads { OnlyReads (R.disk rack.old) (R.disk rack.new) }
    ensures anchor { let old = R.disk rack.old in IfOk result (λ anchor. Tells old
        → IsAnchor old.sizes old.now.contents (Some anchor)) }
    ensures wrong { let old = R.disk rack.old in IfErr result (λ fault. IfNotADomain fault
        (λ vol at. Tells old → IsAnchorFault old.sizes old.now.contents vol at)) }
    ensures cause { IfErr result (HasCause (R.disk rack.old) (R.disk rack.new)) }
    ensures passed { IfOk result (λ _. (R.disk rack.new).read_faults
        ≡ (R.disk rack.old).read_faults) }
{
    match read_anchor(rack) {
        Ok(anchor) => Ok(anchor),
        Err(fault) => Err(fault_of(&fault)),
    }
}

/// Checks the labels of an anchor's members, and then the anchor. There is no domain if one of them
/// is wrong.
fn check_anchor<R: Rack>(rack: &mut R, anchor: &Anchor) -> Result<(), RecoverFault>
    ensures reads { OnlyReads (R.disk rack.old) (R.disk rack.new) }
    ensures good { let old = R.disk rack.old in OnOk result (Tells old
        → AreLabelled old.sizes old.now.contents anchor.now
        × IsInRange (label_version old.now.contents) anchor.now) }
    ensures usable { OnOk result (IsUsable (R.disk rack.old).sizes anchor.now) }
    ensures wrong { let old = R.disk rack.old in IfErr result (λ fault. IfNotADomain fault
        (λ vol at. Tells old → IsAnchor old.sizes old.now.contents (Some anchor.now)
        → IsFirstFault old.sizes old.now.contents vol at)) }
    ensures cause { IfErr result (HasCause (R.disk rack.old) (R.disk rack.new)) }
    ensures passed { OnOk result ((R.disk rack.new).read_faults ≡ (R.disk rack.old).read_faults) }
{
    let versions = match read_labels(rack, anchor) {
        Ok(versions) => versions,
        Err(fault) => return Err(fault),
    };
    if is_in_range(&versions, anchor) {
        Ok(())
    } else {
        Err(bad_anchor())
    }
}

/// The anchor that counts, if it and the labels of its members are those of a domain.
fn good_anchor<R: Rack>(rack: &mut R) -> Result<Anchor, RecoverFault>
    ensures reads { OnlyReads (R.disk rack.old) (R.disk rack.new) }
    ensures good { let old = R.disk rack.old in IfOk result (λ anchor. Tells old
        → HasGoodAnchor old.sizes old.now.contents anchor) }
    ensures usable { IfOk result (IsUsable (R.disk rack.old).sizes) }
    ensures wrong { let old = R.disk rack.old in IfErr result (λ fault. IfNotADomain fault
        (λ vol at. Tells old → IsFirstFault old.sizes old.now.contents vol at)) }
    ensures cause { IfErr result (HasCause (R.disk rack.old) (R.disk rack.new)) }
    ensures passed { IfOk result (λ _. (R.disk rack.new).read_faults
        ≡ (R.disk rack.old).read_faults) }
{
    let anchor = match counting_anchor(rack) {
        Ok(anchor) => anchor,
        Err(fault) => return Err(fault),
    };
    match check_anchor(rack, &anchor) {
        Ok(()) => Ok(anchor),
        Err(fault) => Err(fault),
    }
}

/// What was read of the log of an anchor.
fn redone_of(anchor: Anchor, scan: Scan) -> Redone
    requires start { anchor.start < log_pages }
    requires used { scan.used < log_pages }
    ensures anchor { result.anchor ≡ anchor }
    ensures images { result.images ≡ scan.images.items }
    ensures next_group { result.next_group ≡ scan.next }
    ensures next_place { result.next_place ≡ (anchor.start + scan.used) % log_pages }
{
    Redone {
        anchor,
        images: ImageList::new(scan.images),
        next_group: scan.next,
        next_place: (anchor.start + scan.used) % LOG_PAGES,
    }
}

/// Recovers a log: its anchor, the images of its groups from the anchor's start up to the first
/// closed gate, and the number and the place of the next group. It writes nothing.
///
/// Fails with `NotADomain` if a rule of a domain is broken, with the first place of these: the
/// label page of each member, in the order of volumes; the page of anchors of volume 1, if no
/// anchor counts or the one that counts is out of range; the header's page of each group. Fails
/// with `Fault` if a read of that volume failed.
pub fn recover<R: Rack>(alloc: Global, rack: &mut R) -> Result<Redone, RecoverFault>
    ensures reads { OnlyReads (R.disk rack.old) (R.disk rack.new) }
    ensures recovered { let old = R.disk rack.old in IfOk result (λ redone. Tells old
        → (groups : List Group) × HasRecovered old.sizes old.now.contents groups redone) }
    ensures sound { IfOk result (IsSound (R.disk rack.old).sizes) }
    ensures wrong { let old = R.disk rack.old in IfErr result (λ fault. IfNotADomain fault
        (λ vol at. Tells old → IsFirstFault old.sizes old.now.contents vol at)) }
    ensures cause { IfErr result (HasCause (R.disk rack.old) (R.disk rack.new)) }
    ensures passed { IfOk result (λ _. (R.disk rack.new).read_faults
        ≡ (R.disk rack.old).read_faults) }
{
    let anchor = match good_anchor(rack) {
        Ok(anchor) => anchor,
        Err(fault) => return Err(fault),
    };
    match read_groups(alloc, rack, &anchor) {
        Ok(scan) => Ok(redone_of(anchor, scan)),
        Err(fault) => Err(fault),
    }
}
