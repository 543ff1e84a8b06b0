//! Laws of a sound domain.
ghost use Rattle.domain_memory.specs.fileset_model.Filesets.{FilesetMap};
ghost use Rattle.domain_memory.specs.domain_layout.Faults.{HasNoFault};
ghost use Rattle.domain_memory.specs.domain_standing.Domain.{DomainNow};
ghost use Rattle.domain_memory.specs.domain_standing.Standing.{HaveParents, IsMarkedBut, StandsDomain};
ghost use Rattle.domain_memory.specs.standing_laws.Sound.{IsSound};

/// A sound domain that stands for filesets has no fault, if its directories say their parents and
/// the bits of its bitmaps are kept.
pub fn a_sound_domain_has_no_fault()
    ensures { (d : DomainNow) (all : FilesetMap) → StandsDomain d all → IsSound d → HaveParents d
        → IsMarkedBut d → HasNoFault d.pages d.frame }
{}

/// A domain that stands for filesets and has no fault is sound.
pub fn a_faultless_domain_is_sound()
    ensures { (d : DomainNow) (all : FilesetMap) → StandsDomain d all
        → HasNoFault d.pages d.frame → IsSound d }
{}
