//! The members of an anchor, and their labels.
ghost use Rattle.std.specs.Prelude.{
  ◌≡◌,
  ◌+◌,
  ◌<◌,
  ◌≤◌,
  ◌↔◌,
  ℕ,
  IfErr,
  IfOk,
  IfSome,
  IsTrue,
  MatchOption,
  length,
};
ghost use Rattle.log_ring.specs.volume_disk.Disk.{Tells, volume_pages};
ghost use Rattle.log_ring.specs.volume_disk.Image.{Image};
ghost use Rattle.log_ring.specs.volume_disk.Run.{NamesReadFault, OnlyReads};
ghost use Rattle.log_ring.specs.disk_label.FirstPages.{label_page};
ghost use Rattle.log_ring.specs.Homes.{IsMember};
ghost use Rattle.log_recovery.specs.Fault.{HasCause, IfNotADomain};
ghost use Rattle.log_recovery.specs.Members.{AreLabelledBelow, AreThere, AreVersionsBelow, HasLabel, IsFirstUnlabelled, IsLabelled, IsThere, label_version};

use crate::RecoverFault;
use log_ring::limits::MAX_VOLUMES;
use log_ring::{Anchor, LABEL_PAGE, Label, Rack, Version, VolIx, is_member, member_of, read_label};

/// The version of a label. Returns None if it says another number of pages than this, or has
/// another version than an anchor of this one allows.
fn version_under(version: u32, pages: u32, label: &Label) -> Option<Version>
    ensures { HasLabel version pages label.now result }
{
    if label.pages != pages || (version == 3 && label.version != Version::Three) {
        None
    } else {
        Some(label.version)
    }
}

/// The version of the label of a member, or None if the rack has no such volume, or the volume has
/// no label of that member. The error is the volume, if its read failed.
fn label_of<R: Rack>(rack: &mut R, anchor: &Anchor, vol: VolIx) -> Result<Option<Version>, VolIx>
    ensures reads { OnlyReads (R.disk rack.old) (R.disk rack.new) }
    ensures label { let old = R.disk rack.old in IfOk result (λ found. Tells old
        → MatchOption found (¬ IsLabelled old.sizes old.now.contents anchor.now vol)
        (λ version. IsLabelled old.sizes old.now.contents anchor.now vol
        × (version ≡ label_version old.now.contents vol))) }
    ensures there { IfOk result (λ found. IfSome found
        (λ _. IsThere (R.disk rack.old).sizes anchor.now vol)) }
    ensures fault { NamesReadFault (R.disk rack.old) (R.disk rack.new) result }
{
    let pages = member_of(anchor, vol).pages;
    prove!(1 <= vol.number());
    if rack.pages(vol) < pages.max(1) {
        return Ok(None);
    }
    match read_label(rack, vol) {
        Ok(Some(label)) => Ok(version_under(anchor.version, pages, &label)),
        Ok(None) => Ok(None),
        Err(vol) => Err(vol),
    }
}

/// The version of the label of a volume, if it is a member.
fn check_member<R: Rack>(rack: &mut R, anchor: &Anchor, vol: VolIx) -> Result<Version, RecoverFault>
    ensures reads { OnlyReads (R.disk rack.old) (R.disk rack.new) }
    ensures label { let old = R.disk rack.old in IfOk result (λ version. Tells old
        → IsMember anchor.now vol → IsLabelled old.sizes old.now.contents anchor.now vol
        × (version ≡ label_version old.now.contents vol)) }
    ensures there { IfOk result (λ _. IsMember anchor.now vol
        → IsThere (R.disk rack.old).sizes anchor.now vol) }
    ensures wrong { let old = R.disk rack.old in IfErr result (λ fault. IfNotADomain fault
        (λ v at. (v ≡ vol) × (at ≡ label_page) × IsMember anchor.now vol
        × (Tells old → ¬ IsLabelled old.sizes old.now.contents anchor.now vol))) }
    ensures cause { IfErr result (HasCause (R.disk rack.old) (R.disk rack.new)) }
    ensures passed { IfOk result (λ _. (R.disk rack.new).read_faults
        ≡ (R.disk rack.old).read_faults) }
{
    if !is_member(anchor, vol) {
        return Ok(Version::Three);
    }
    match label_of(rack, anchor, vol) {
        Ok(Some(version)) => Ok(version),
        Ok(None) => Err(RecoverFault::NotADomain {
            vol: vol.number(),
            at: LABEL_PAGE,
        }),
        Err(vol) => Err(RecoverFault::Fault { vol }),
    }
}

/// The versions of the labels of all members. There is no domain if a member has no label.
pub(crate) fn read_labels<R: Rack>(
    rack: &mut R,
    anchor: &Anchor,
) -> Result<[Version; 8], RecoverFault>
    ensures reads { OnlyReads (R.disk rack.old) (R.disk rack.new) }
    ensures labels { let old = R.disk rack.old in IfOk result (λ versions. Tells old
        → AreLabelledBelow 9 old.sizes old.now.contents anchor.now
        × AreVersionsBelow 9 old.now.contents anchor.now versions) }
    ensures there { IfOk result (λ _. AreThere (R.disk rack.old).sizes anchor.now) }
    ensures wrong { let old = R.disk rack.old in IfErr result (λ fault. IfNotADomain fault
        (λ v at. Tells old → IsFirstUnlabelled old.sizes old.now.contents anchor.now v at)) }
    ensures cause { IfErr result (HasCause (R.disk rack.old) (R.disk rack.new)) }
    ensures passed { IfOk result (λ _. (R.disk rack.new).read_faults
        ≡ (R.disk rack.old).read_faults) }
{
    let mut versions = [Version::Three; 8];
    for number in 1..MAX_VOLUMES + 1 {
        let Some(vol) = VolIx::new(number) else {
            unreachable!()
        };
        match check_member(rack, anchor, vol) {
            Ok(version) => versions[vol.index()] = version,
            Err(fault) => return Err(fault),
        }
    }
    Ok(versions)
}
