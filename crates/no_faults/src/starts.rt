//! Domains that are made and read.
ghost use Rattle.domain_memory.specs.fileset_model.Filesets.{FilesetMap};
ghost use Rattle.domain_memory.specs.domain_layout.NewDomain.{IsNew};
ghost use Rattle.domain_memory.specs.domain_standing.Domain.{DomainNow};
ghost use Rattle.domain_memory.specs.domain_standing.Standing.{StandsDomain};
ghost use Rattle.no_faults.specs.Attached.{IsReadFrom};
ghost use Rattle.domain_memory.specs.standing_laws.Sound.{StandsSound};

/// A domain that was just made is sound: it is as the rules of pages ask, besides standing.
pub fn a_new_domain_is_sound()
    ensures { (d : DomainNow) (all : FilesetMap) (stands : StandsDomain d all)
        → IsNew d.pages d.frame → StandsSound d stands.files stands.indexes }
{}

/// A domain that is read from pages without a fault is sound, too.
pub fn a_read_domain_is_sound()
    ensures { (d : DomainNow) (all : FilesetMap) (stands : StandsDomain d all) → IsReadFrom d
        → StandsSound d stands.files stands.indexes }
{}
