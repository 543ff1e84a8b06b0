//! Settling the log of a domain whose memory was brought.
ghost use Rattle.std.specs.Prelude.{◌≡◌, IfErr, IfOk};
ghost use Rattle.attached_domain.specs.disk_label.Fault.{HasPassed};
ghost use Rattle.attached_domain.specs.log_recovery.Outcome.{IsSound};
ghost use Rattle.attached_domain.specs.log_recovery.Settling.{Anywhere, IsBehindAll, StandsAtHome, StaysRead};
ghost use Rattle.attached_domain.specs.volume_disk.Disk.{IsSettled, Tells};
ghost use Rattle.attached_domain.specs.volume_disk.Image.{NoPlace};
ghost use Rattle.attached_domain.specs.volume_disk.Run.{Touches};
ghost use Rattle.domain_state.specs.Rest.{IsAtRest};
ghost use Rattle.domain_attaching.specs.Attaching.{IsBroughtMemory};
ghost use Rattle.domain_attaching.specs.Settling.{
  HasNoGroups,
  HasSettleCause,
  IsNotSettled,
  IsRecovered,
  StaysReadSince,
  rested_anchor,
  with_anchor,
};

use crate::bringing::BroughtMemory;
use crate::fault::AttachFault;
use attached_domain::{Anchor, Rack, Redone, SettleFault, settle_log, sync_volumes};
use domain_state::Attached;

/// Settles the recovered log of a rack on which nothing is pending. If the log has no group,
/// nothing is done. Returns the anchor that counts then.
fn settle_groups<R: Rack>(rack: &mut R, redone: &Redone) -> Result<Anchor, SettleFault>
    requires pending { Tells (R.disk rack.old) → IsSettled (R.disk rack.old).now }
    requires sound { IsSound (R.disk rack.old).sizes redone.now }
    requires recovered { let old = R.disk rack.old in
        Tells old → IsRecovered old.sizes old.now.contents redone.now }
    ensures anchor { IfOk result (λ anchor. anchor ≡ rested_anchor redone.now) }
    ensures behind { IfOk result (IsBehindAll (R.disk rack.new)) }
    ensures home { IfOk result (λ _. StandsAtHome (R.disk rack.old) (R.disk rack.new)) }
    ensures passed { IfOk result (λ _. HasPassed (R.disk rack.old) (R.disk rack.new)) }
    ensures any_moment { StaysRead (R.disk rack.old) (R.disk rack.new) }
    ensures touches { Touches (R.disk rack.old) (R.disk rack.new) Anywhere }
    ensures none { HasNoGroups redone.now → R.disk rack.new ≡ R.disk rack.old }
    ensures cause { IfErr result (HasSettleCause (R.disk rack.old) (R.disk rack.new)) }
{
    if redone.next_group == redone.anchor.group {
        return Ok(redone.anchor);
    }
    settle_log(rack, redone)
}

/// Syncs each volume, so that nothing is pending, and then settles the log of the rack. Returns the
/// anchor that counts then.
fn settle_synced<R: Rack>(rack: &mut R, redone: &Redone) -> Result<Anchor, SettleFault>
    requires sound { IsSound (R.disk rack.old).sizes redone.now }
    requires recovered { let old = R.disk rack.old in
        Tells old → IsRecovered old.sizes old.now.contents redone.now }
    ensures anchor { IfOk result (λ anchor. anchor ≡ rested_anchor redone.now) }
    ensures rest { IfOk result (IsAtRest (R.disk rack.new)) }
    ensures home { IfOk result (λ _. StandsAtHome (R.disk rack.old) (R.disk rack.new)) }
    ensures passed { IfOk result (λ _. HasPassed (R.disk rack.old) (R.disk rack.new)) }
    ensures any_moment { StaysReadSince (R.disk rack.old) (R.disk rack.new) }
    ensures none { HasNoGroups redone.now → Touches (R.disk rack.old) (R.disk rack.new) NoPlace }
    ensures touches { Touches (R.disk rack.old) (R.disk rack.new) Anywhere }
    ensures cause { IfErr result (HasSettleCause (R.disk rack.old) (R.disk rack.new)) }
{
    match sync_volumes(rack) {
        Ok(()) => settle_groups(rack, redone),
        Err(vol) => Err(SettleFault::Write { vol }),
    }
}

/// Attaches a domain whose memory was brought: its log is settled, and its memory then has the
/// anchor that settling gave.
pub(crate) fn attach_brought<R: Rack>(
    rack: R,
    found: BroughtMemory,
) -> Result<Attached<R>, (R, AttachFault)>
    requires memory { IsBroughtMemory (R.disk rack).sizes found }
    requires recovered { let old = R.disk rack in
        Tells old → IsRecovered old.sizes old.now.contents found.redone }
    ensures memory { IfOk result (λ attached. attached.memory
        ≡ with_anchor (rested_anchor found.redone) found.memory) }
    ensures home { IfOk result (λ attached. StandsAtHome (R.disk rack) (R.disk attached.rack)) }
    ensures passed { IfOk result (λ attached. HasPassed (R.disk rack) (R.disk attached.rack)) }
    ensures any_moment { IfOk result (λ attached.
        StaysReadSince (R.disk rack) (R.disk attached.rack)) }
    ensures any_moment_of_fault { IfErr result (λ back.
        StaysReadSince (R.disk rack) (R.disk back.0)) }
    ensures touches { IfOk result (λ attached.
        Touches (R.disk rack) (R.disk attached.rack) Anywhere) }
    ensures touches_at_fault { IfErr result (λ back.
        Touches (R.disk rack) (R.disk back.0) Anywhere) }
    ensures none { IfOk result (λ attached. HasNoGroups found.redone
        → Touches (R.disk rack) (R.disk attached.rack) NoPlace) }
    ensures none_at_fault { IfErr result (λ back. HasNoGroups found.redone
        → Touches (R.disk rack) (R.disk back.0) NoPlace) }
    ensures cause { IfErr result (λ back. IsNotSettled (R.disk rack) (R.disk back.0) back.1) }
{
    let mut rack = rack;
    let BroughtMemory { memory, redone } = found;
    match settle_synced(&mut rack, &redone) {
        Ok(anchor) => {
            let mut memory = memory;
            memory.frame.anchor = anchor;
            Ok(Attached::of_memory(rack, memory))
        }
        Err(why) => Err((rack, AttachFault::NotSettled { why })),
    }
}
