//! What a domain that stands means.
ghost use Rattle.std.specs.Prelude.{◌≡◌, Some};
ghost use Rattle.fileset_shapes.specs.domain_base.declared.place.Home.{Home};
ghost use Rattle.fileset_shapes.specs.fileset_model.Filesets.{FilesetMap};
ghost use Rattle.fileset_shapes.specs.fileset_model.LooksLike.{LooksLike};
ghost use Rattle.fileset_shapes.specs.domain_layout.Read.{ReadsFrom, contents_of};
ghost use Rattle.domain_standing.specs.Domain.{DomainNow};
ghost use Rattle.domain_standing.specs.Standing.{StandsDomain};

/// If the bytes of a domain that stands are those of its pages, the pages have the filesets for
/// which it stands.
pub fn a_domain_reads_so()
    ensures { (d : DomainNow) (all : FilesetMap) (home : Home) → StandsDomain d all
        → d.frame.anchor.table ≡ Some home
        → ((place : Home) → d.contents place ≡ contents_of d.pages place)
        → ReadsFrom d.pages home all }
{}

/// A domain stands for filesets in one way at most: no reply tells any two of them apart.
pub fn a_domain_stands_for_one()
    ensures { (d : DomainNow) (all other : FilesetMap) → StandsDomain d all
        → StandsDomain d other → LooksLike all other }
{}
