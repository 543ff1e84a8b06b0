//! All rules of pages.
ghost use Rattle.domain_memory.specs.fileset_model.Filesets.{FilesetMap};
ghost use Rattle.domain_memory.specs.domain_layout.Faults.{HasNoFault};
ghost use Rattle.domain_memory.specs.domain_standing.Domain.{DomainNow};
ghost use Rattle.domain_memory.specs.domain_standing.Standing.{HaveParents, IsMarkedBut, StandsDomain};
ghost use Rattle.domain_memory.specs.standing_laws.Sound.{StandsSound};

/// A domain that stands breaks no rule of pages, so its pages have no fault, if each directory says
/// the one in which its row stands and the bits of the bitmaps are kept.
pub fn a_domain_has_no_fault()
    ensures { (d : DomainNow) (all : FilesetMap) (stands : StandsDomain d all)
        → StandsSound d stands.files stands.indexes → HaveParents d → IsMarkedBut d
        → HasNoFault d.pages d.frame }
{}

/// If the pages of a domain that stands have no fault, it is as the rules of pages ask besides: no
/// more is asked than what they say.
pub fn a_domain_without_fault_is_sound()
    ensures { (d : DomainNow) (all : FilesetMap) (stands : StandsDomain d all)
        → HasNoFault d.pages d.frame → StandsSound d stands.files stands.indexes }
{}

/// What is asked besides does not depend on how files and indexes are told: it holds for every way
/// in which a domain stands, or for none.
pub fn soundness_is_of_the_domain()
    ensures { (d : DomainNow) (all : FilesetMap) (one two : StandsDomain d all)
        → StandsSound d one.files one.indexes → StandsSound d two.files two.indexes }
{}
