//! A domain that was just made.
ghost use Rattle.std.specs.Prelude.{◌≡◌, ℕ, []};
ghost use Rattle.std.specs.FinMap.{empty};
ghost use Rattle.fileset_shapes.specs.log_recovery.Range.{IsLogInside};
ghost use Rattle.fileset_shapes.specs.domain_layout.NewDomain.{IsNew};
ghost use Rattle.release_steps.specs.release_list.Listing.{IsEmpty};
ghost use Rattle.fileset_shapes.specs.domain_layout.Layout.{IsLayout};
ghost use Rattle.domain_standing.specs.Space.{AreCellsOf, AreFew, IsSpaceOf};
ghost use Rattle.domain_standing.specs.Domain.{DomainNow, layout_of};
ghost use Rattle.domain_standing.specs.Standing.{StandsDomain};

/// A domain that was just made stands for no fileset, with the free space and the free cells that
/// its pages say, no tag directory and nothing to be let go of.
pub fn a_new_domain_stands()
    ensures { (d : DomainNow) → IsNew d.pages d.frame → IsLayout d.pages (layout_of d)
        → IsLogInside d.frame.version d.frame.anchor → AreFew (layout_of d)
        → IsSpaceOf d.pages (layout_of d) d.space → AreCellsOf d.pages (layout_of d) d.cells
        → ((number : ℕ) → d.tags number ≡ []) → IsEmpty d.list → StandsDomain d empty }
{}
