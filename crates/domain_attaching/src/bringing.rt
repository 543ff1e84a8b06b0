//! Bringing the memory of a domain from the volumes of a rack.
ghost use Rattle.std.specs.Prelude.{◌≡◌, List, ℕ, IfErr, IfOk};
ghost use Rattle.attached_domain.specs.domain_layout.Read.{Means};
ghost use Rattle.attached_domain.specs.fileset_model.Filesets.{FilesetMap};
ghost use Rattle.attached_domain.specs.volume_disk.Disk.{Tells};
ghost use Rattle.attached_domain.specs.volume_disk.Run.{OnlyReads};
ghost use Rattle.attached_domain.specs.staged_pages.Store.{before_of};
ghost use Rattle.attached_domain.specs.page_ways.Frame.{frame_in};
ghost use Rattle.attached_domain.specs.domain_memory.Memory.{StandsFor};
ghost use Rattle.attached_domain.specs.Causes.{IsUnfit};
ghost use Rattle.domain_bringing.specs.Brought.{IsBrought, IsBroughtFrom};
ghost use Rattle.domain_bringing.specs.Fault.{IsNoDomain};
ghost use Rattle.domain_attaching.specs.Attaching.{HasCause, HaveFilesets, IfNotADomain, IfNotFit, IfNotSettled, IsBroughtMemory, IsUnfitDomain};

use crate::fault::AttachFault;
use attached_domain::{DomainMemory, Rack, Redone, Unfit, read_domain};
use domain_bringing::{Brought, bring_domain};
use std::alloc::Global;

/// The memory of a domain, and what was recovered from its log.
#[derive(Drop)]
pub struct BroughtMemory {
    pub memory: DomainMemory,
    pub redone: Redone,
}

/// The memory of a domain whose pages were brought.
fn memory_of(alloc: Global, brought: Brought) -> Result<BroughtMemory, Unfit>
    requires { (sizes : List ℕ) × IsBrought sizes brought }
    ensures memory { IfOk result (λ found. (sizes : List ℕ) → IsBrought sizes brought
        → IsBroughtMemory sizes found) }
    ensures stands { IfOk result (λ found. (all : FilesetMap) → HaveFilesets brought all
        → StandsFor found.memory all) }
    ensures pages { IfOk result (λ found. found.memory.pages ≡ brought.pages) }
    ensures redone { IfOk result (λ found. found.redone ≡ brought.redone) }
    ensures unfit { IfErr result (IsUnfit (before_of brought.pages) (frame_in brought.frame)) }
{
    let Brought {
        pages,
        frame,
        redone,
    } = brought;
    let memory = read_domain(alloc, pages, frame)?;
    Ok(BroughtMemory { memory, redone })
}

/// Brings the memory of a domain from a rack: recovers its log, brings its pages, and reads them.
/// It writes nothing. The memory stands for the filesets that the volumes mean.
///
/// Returns `NotADomain` with the first place at which a rule of a domain is broken: label, anchors
/// and log come first, in the order of `recover`, and then the pages in the order of the list of
/// faults. Returns `Fault` only if a read of that volume failed, and `Unfit` only if no rule is
/// broken but the domain cannot be attached.
pub fn bring_memory<R: Rack>(alloc: Global, rack: &mut R) -> Result<BroughtMemory, AttachFault>
    ensures reads { OnlyReads (R.disk rack.old) (R.disk rack.new) }
    ensures memory { IfOk result (IsBroughtMemory (R.disk rack.old).sizes) }
    ensures means { let old = R.disk rack.old in IfOk result (λ found. Tells old
        → (all : FilesetMap) → Means old.sizes old.now.contents all
        → StandsFor found.memory all) }
    ensures same { let old = R.disk rack.old in IfOk result (λ found. Tells old
        → IsBroughtFrom old.sizes old.now.contents (before_of found.memory.pages) found.redone) }
    ensures wrong { let old = R.disk rack.old in IfErr result (λ fault. IfNotADomain fault
        (λ vol at. Tells old → IsNoDomain old.sizes old.now.contents vol at)) }
    ensures unfit { let old = R.disk rack.old in IfErr result (λ fault. IfNotFit fault
        (λ why. Tells old → IsUnfitDomain old.sizes old.now.contents why)) }
    ensures first { IfErr result (λ fault. IfNotSettled fault ⊥) }
    ensures cause { IfErr result (HasCause (R.disk rack.old) (R.disk rack.new)) }
    ensures passed { IfOk result (λ _. (R.disk rack.new).read_faults
        ≡ (R.disk rack.old).read_faults) }
{
    let brought = bring_domain(alloc, rack)?;
    let found = memory_of(alloc, brought)?;
    Ok(found)
}
