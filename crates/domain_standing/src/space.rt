//! Which pages are free.
ghost use Rattle.fileset_shapes.specs.page_store.Pages.{Pages};
ghost use Rattle.fileset_shapes.specs.free_space.Spaces.{Spaces};
ghost use Rattle.fileset_shapes.specs.domain_layout.Faults.{HasNoFault};
ghost use Rattle.fileset_shapes.specs.domain_layout.Layout.{IsLayout, Layout};
ghost use Rattle.fileset_shapes.specs.domain_layout.Owners.{frame_of};
ghost use Rattle.domain_standing.specs.Marks.{HasBitmaps, IsMarked};
ghost use Rattle.domain_standing.specs.Space.{AreFew, IsSpaceOf};

/// If no rule is broken, the bitmaps say which pages belong to no owner: those are free.
pub fn bits_say_the_space()
    ensures { (pages : Pages) (layout : Layout) (space : Spaces) → IsLayout pages layout
        → HasNoFault pages (frame_of layout) → AreFew layout
        → HasBitmaps pages (frame_of layout) → IsMarked pages (frame_of layout) space
        → IsSpaceOf pages layout space }
{}
