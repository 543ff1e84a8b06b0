//! Attaching a domain.
ghost use Rattle.std.specs.Prelude.{IfErr, IfOk};
ghost use Rattle.attached_domain.specs.disk_label.Fault.{HasPassed};
ghost use Rattle.attached_domain.specs.domain_layout.Read.{Means};
ghost use Rattle.attached_domain.specs.fileset_model.Filesets.{FilesetMap};
ghost use Rattle.attached_domain.specs.volume_disk.Disk.{Tells};
ghost use Rattle.attached_domain.specs.volume_disk.Run.{OnlyReads, Touches};
ghost use Rattle.attached_domain.specs.log_recovery.Settling.{Anywhere};
ghost use Rattle.attached_domain.specs.staged_pages.Store.{before_of};
ghost use Rattle.attached_domain.specs.domain_memory.Memory.{StandsFor};
ghost use Rattle.domain_bringing.specs.Fault.{IsNoDomain};
ghost use Rattle.domain_attaching.specs.Attaching.{
  HasCause,
  HasDomain,
  IfNotADomain,
  IfNotFit,
  IfNotSettled,
  IsReadFrom,
  IsUnfitDomain,
};
ghost use Rattle.domain_attaching.specs.Settling.{IfRefused, StandHome, StaysReadSince, WritesNone};

use crate::bringing::bring_memory;
use crate::fault::AttachFault;
use crate::settling::attach_brought;
use attached_domain::Rack;
use domain_state::Attached;
use std::alloc::Global;

/// Attaches the domain that a rack has: brings its memory, syncs each volume, and settles the log
/// if that has a group. The domain then stands for the filesets that the volumes mean.
///
/// The rack is at rest then: its log has no group, and the pages in memory, except those of
/// anchors, stand at their homes. Its volumes keep their sizes, and it tells what it holds if it
/// did before. Whatever the result, recovery takes each image that a stop may leave after the
/// volumes are synced, with the pages that the rack had at the start. If the log had no group,
/// nothing is written. The rack is given back with a fault.
///
/// Returns `NotADomain` with the first place at which a rule of a domain is broken: label, anchors
/// and log come first, in the order of `recover`, and then the pages in the order of the list of
/// faults. Returns `Fault` only if a read of that volume failed, and `Unfit` only if no rule is
/// broken but the domain cannot be attached. Nothing is written or synced then, nor at
/// `OutOfMemory`. Returns `NotSettled` only if no rule is broken and the log has no numbers left,
/// or a call failed while the log was settled.
pub fn attach<R: Rack>(alloc: Global, rack: R) -> Result<Attached<R>, (R, AttachFault)>
    ensures means { let old = R.disk rack in IfOk result (λ attached. Tells old
        → (all : FilesetMap) → Means old.sizes old.now.contents all
        → StandsFor attached.memory all) }
    ensures from { let old = R.disk rack in IfOk result (λ attached. Tells old
        → IsReadFrom old.sizes old.now.contents attached.memory) }
    ensures home { IfOk result (λ attached. Tells (R.disk rack)
        → StandHome (R.disk attached.rack) (before_of attached.memory.pages)) }
    ensures any_moment { IfOk result (λ attached.
        StaysReadSince (R.disk rack) (R.disk attached.rack)) }
    ensures any_moment_of_fault { IfErr result (λ back.
        StaysReadSince (R.disk rack) (R.disk back.0)) }
    ensures touches { IfOk result (λ attached.
        Touches (R.disk rack) (R.disk attached.rack) Anywhere) }
    ensures passed { IfOk result (λ attached.
        HasPassed (R.disk rack) (R.disk attached.rack)) }
    ensures touches_at_fault { IfErr result (λ back.
        Touches (R.disk rack) (R.disk back.0) Anywhere) }
    ensures none { IfOk result (λ attached.
        WritesNone (R.disk rack) (R.disk attached.rack)) }
    ensures none_at_fault { IfErr result (λ back. WritesNone (R.disk rack) (R.disk back.0)) }
    ensures refused { IfErr result (λ back.
        IfRefused back.1 (OnlyReads (R.disk rack) (R.disk back.0))) }
    ensures wrong { let old = R.disk rack in IfErr result (λ back. IfNotADomain back.1
        (λ vol at. Tells old → IsNoDomain old.sizes old.now.contents vol at)) }
    ensures unfit { let old = R.disk rack in IfErr result (λ back. IfNotFit back.1
        (λ why. Tells old → IsUnfitDomain old.sizes old.now.contents why)) }
    ensures whole { let old = R.disk rack in IfErr result (λ back. IfNotSettled back.1
        (Tells old → HasDomain old.sizes old.now.contents)) }
    ensures cause { IfErr result (λ back. HasCause (R.disk rack) (R.disk back.0) back.1) }
{
    let mut rack = rack;
    match bring_memory(alloc, &mut rack) {
        Ok(found) => attach_brought(rack, found),
        Err(fault) => Err((rack, fault)),
    }
}
