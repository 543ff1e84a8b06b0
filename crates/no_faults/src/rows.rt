//! Directories and their indexes.
ghost use Rattle.domain_memory.specs.domain_base.declared.place.Home.{Home};
ghost use Rattle.domain_memory.specs.fileset_model.Filesets.{FilesetMap};
ghost use Rattle.domain_memory.specs.domain_layout.DirectoryRules.{IsDirectoryFault, IsIndexFault};
ghost use Rattle.domain_memory.specs.domain_standing.Domain.{DomainNow};
ghost use Rattle.domain_memory.specs.domain_standing.Standing.{HaveParents, StandsDomain};
ghost use Rattle.domain_memory.specs.standing_laws.Sound.{StandsSound};

/// If a domain stands, each index belongs to a directory of more than one page. Its entries are
/// those of the directory's rows, and as many as it says.
pub fn no_index_fault()
    ensures { (d : DomainNow) (all : FilesetMap) (stands : StandsDomain d all)
        → StandsSound d stands.files stands.indexes → (home : Home)
        → ¬ IsIndexFault d.pages d.frame d.table home }
{}

/// If each directory says the one in which its row stands, too, no rule of directories and of their
/// rows is broken: each row leads to what is there, under one path where that is a directory, and
/// under as many as it has links.
pub fn no_directory_fault()
    ensures { (d : DomainNow) (all : FilesetMap) (stands : StandsDomain d all)
        → StandsSound d stands.files stands.indexes → HaveParents d → (home : Home)
        → ¬ IsDirectoryFault d.pages d.frame d.table home }
{}
