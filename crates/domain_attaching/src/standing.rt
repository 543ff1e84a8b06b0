//! A domain with another anchor.
ghost use Rattle.attached_domain.specs.fileset_model.Filesets.{FilesetMap};
ghost use Rattle.attached_domain.specs.domain_layout.Reached.{Frame};
ghost use Rattle.attached_domain.specs.domain_standing.Domain.{DomainNow};
ghost use Rattle.attached_domain.specs.domain_standing.Sources.{StandAlone};
ghost use Rattle.attached_domain.specs.domain_standing.Standing.{HaveParents, IsMarkedBut, StandsDomain};
ghost use Rattle.attached_domain.specs.standing_laws.Sound.{IsSound};
ghost use Rattle.domain_attaching.specs.Same.{SameDomain, with_frame};

/// A domain stands for the same filesets with another of its anchors.
pub fn a_domain_stands_with_another_anchor()
    ensures { (d : DomainNow) (frame : Frame) (all : FilesetMap) → SameDomain d.frame frame
        → StandsDomain d all → StandsDomain (with_frame frame d) all }
{}

/// No file is read through another one there, if none was.
pub fn files_stand_alone_with_another_anchor()
    ensures { (d : DomainNow) (frame : Frame) → SameDomain d.frame frame
        → StandAlone d → StandAlone (with_frame frame d) }
{}

/// Its directories say their parents, if they did.
pub fn parents_stay_with_another_anchor()
    ensures { (d : DomainNow) (frame : Frame) → SameDomain d.frame frame
        → HaveParents d → HaveParents (with_frame frame d) }
{}

/// The bits of its bitmaps are kept, if they were.
pub fn bits_are_kept_with_another_anchor()
    ensures { (d : DomainNow) (frame : Frame) → SameDomain d.frame frame
        → IsMarkedBut d → IsMarkedBut (with_frame frame d) }
{}

/// It is sound, as the rules of pages also ask, if it was.
pub fn soundness_stays_with_another_anchor()
    ensures { (d : DomainNow) (frame : Frame) → SameDomain d.frame frame
        → IsSound d → IsSound (with_frame frame d) }
{}
