//! Pages of files, and bitmaps.
ghost use Rattle.std.specs.Prelude.{◌≡◌, ℕ};
ghost use Rattle.domain_memory.specs.domain_base.declared.place.Home.{Home};
ghost use Rattle.domain_memory.specs.fileset_model.Filesets.{FilesetMap};
ghost use Rattle.domain_memory.specs.domain_layout.Layout.{IsLayout, Layout};
ghost use Rattle.domain_memory.specs.domain_layout.Owners.{frame_of};
ghost use Rattle.domain_memory.specs.domain_layout.PageRules.{IsBitmapFault, IsExtentFault};
ghost use Rattle.domain_memory.specs.domain_standing.Domain.{DomainNow};
ghost use Rattle.domain_memory.specs.domain_standing.Standing.{IsMarkedBut, StandsDomain};
ghost use Rattle.domain_memory.specs.standing_laws.Sound.{StandsSound};

/// If a domain stands, each page that a cell says of a file stands where it may, and is neither
/// another owner's nor any other page's.
pub fn no_extent_fault()
    ensures { (d : DomainNow) (all : FilesetMap) (stands : StandsDomain d all)
        → StandsSound d stands.files stands.indexes → (layout : Layout)
        → frame_of layout ≡ d.frame → IsLayout d.pages layout → (home : Home)
        → ¬ IsExtentFault d.pages layout home }
{}

/// If its bits are kept, too, each is 1 if and only if its page has an owner, or lies outside the
/// volume. A page that waits has no owner.
pub fn no_bitmap_fault()
    ensures { (d : DomainNow) (all : FilesetMap) (stands : StandsDomain d all)
        → StandsSound d stands.files stands.indexes → IsMarkedBut d → (layout : Layout)
        → frame_of layout ≡ d.frame → IsLayout d.pages layout → (home : Home)
        → ¬ IsBitmapFault d.pages layout home }
{}
