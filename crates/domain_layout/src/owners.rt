//! To whom pages belong.
ghost use Rattle.file_release.specs.page_store.Pages.{Pages};
ghost use Rattle.log_recovery.specs.Range.{IsLogInside};
ghost use Rattle.domain_layout.specs.Faults.{HasNoFault};
ghost use Rattle.domain_layout.specs.Layout.{IsLayout, Layout};
ghost use Rattle.domain_layout.specs.Owners.{IsOwnedOnce, frame_of};

/// No page belongs to two owners if no rule is broken and the log stands after the first pages of
/// its volume, as an anchor in range says.
pub fn owned_once()
    ensures { (pages : Pages) (layout : Layout) → IsLayout pages layout
        → HasNoFault pages (frame_of layout) → IsLogInside layout.version layout.anchor
        → IsOwnedOnce pages layout }
{}
